//! Laws of a source's words that no caller runs.

ghost use Rattle.std.specs.Prelude.{◌≡◌, List};
ghost use Rattle.fortran_lines.specs.declared.stmt.Stmt.{Stmt};
ghost use Rattle.fortran_tokens.specs.declared.fault.TokenFault.{TokenFault};
ghost use Rattle.fortran_grammar.specs.Tokens.{Token};
ghost use Rattle.token_words.specs.Words.{AreWords, IsFirstRefused};

/// Statements stand for one list of words at most, and are never refused then.
pub fn one_answer()
    ensures words { (ss : List Stmt) (xs ys : List Token) → AreWords ss xs → AreWords ss ys → xs ≡ ys }
    ensures either { (ss : List Stmt) (xs : List Token) (f : TokenFault) → AreWords ss xs → IsFirstRefused ss f → ⊥ }
{}
