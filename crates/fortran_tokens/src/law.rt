//! Laws of tokens that no caller runs.

ghost use Rattle.std.specs.Prelude.{ℕ, ◌≡◌, List, length};
ghost use Rattle.fortran_lines.specs.declared.stmt.Stmt.{Stmt};
ghost use Rattle.fortran_tokens.specs.declared.cut.Piece.{Piece};
ghost use Rattle.fortran_tokens.specs.declared.fault.TokenFault.{TokenFault};
ghost use Rattle.fortran_tokens.specs.declared.token.Token.{Token};
ghost use Rattle.fortran_tokens.specs.Cuts.{IsCut};
ghost use Rattle.fortran_tokens.specs.Tokens.{AreTokens, IsRefused};
ghost use Rattle.fortran_tokens.specs.Words.{words_of, spaced};

/// A text is cut into tokens in one way at most.
pub fn one_cutting()
    ensures { (text : List ℕ) (ps qs : List Piece) → IsCut text 0 ps (length text) → IsCut text 0 qs (length text) → ps ≡ qs }
{}

/// The texts of a text's tokens, with a blank behind each, are cut into the same tokens again: of the same kinds, with
/// the same texts.
pub fn read_again()
    ensures { (text : List ℕ) (ps : List Piece) → IsCut text 0 ps (length text)
        → (qs : List Piece) × IsCut (spaced (words_of text ps)) 0 qs (length (spaced (words_of text ps))) × (words_of (spaced (words_of text ps)) qs ≡ words_of text ps) }
{}

/// A statement has one answer at most: one list of tokens, or one refusal, and never both.
pub fn one_answer()
    ensures tokens { (s : Stmt) (ts us : List Token) → AreTokens s ts → AreTokens s us → ts ≡ us }
    ensures refused { (s : Stmt) (f g : TokenFault) → IsRefused s f → IsRefused s g → f ≡ g }
    ensures either { (s : Stmt) (ts : List Token) (f : TokenFault) → AreTokens s ts → IsRefused s f → ⊥ }
{}
