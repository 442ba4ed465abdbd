//! Laws of free source form that no caller runs.

ghost use Rattle.std.specs.Prelude.{ℕ, ◌≡◌, List, [], ◌∷◌, ◌++◌, true};
ghost use Rattle.std.specs.Str.Lines.{lines};
ghost use Rattle.fortran_lines.specs.declared.fault.LineFault.{LineFault};
ghost use Rattle.fortran_lines.specs.PlacedBytes.{placed_from};
ghost use Rattle.fortran_lines.specs.Lines.{is_nothing};
ghost use Rattle.fortran_lines.specs.Faults.{faults_of, IsFirst};
ghost use Rattle.fortran_lines.specs.Texts.{texts_of, CanBeParted};
ghost use Rattle.fortran_lines.specs.Taken.{AreKept};

/// A file into which a blank line or a comment line is put, wherever it stands, has the same statements.
pub fn nothing_put_in()
    ensures { (bytes bytes' : List ℕ) (front back : List (List ℕ)) (line : List ℕ) → lines bytes ≡ front ++ back → lines bytes' ≡ front ++ line ∷ back
        → is_nothing (placed_from 1 1 line) ≡ true → texts_of bytes' ≡ texts_of bytes }
{}

/// A file in which a line is parted in two by a continuation, `&` at the end of the one and `&` at the beginning of the
/// other, has the same statements; the cut may lie in a literal.
pub fn continuation_put_in()
    ensures { (bytes bytes' : List ℕ) (front back : List (List ℕ)) (one two : List ℕ) → lines bytes ≡ front ++ (one ++ two) ∷ back → lines bytes' ≡ front ++ (one ++ 38 ∷ []) ∷ (38 ∷ two) ∷ back
        → CanBeParted front one two → texts_of bytes' ≡ texts_of bytes }
{}

/// Where a file breaks no rule, its bytes come into its statements, each with its place, in their order and once. Only
/// comments, blanks, `&` and `;` are left out, and an `&` may leave a blank at its place. Nothing else is added.
pub fn bytes_kept()
    ensures { (bytes : List ℕ) → faults_of bytes ≡ [] → AreKept bytes }
{}

/// Of some faults one is the first.
pub fn one_first()
    ensures { (faults : List LineFault) (f g : LineFault) → IsFirst faults f → IsFirst faults g → f ≡ g }
{}
