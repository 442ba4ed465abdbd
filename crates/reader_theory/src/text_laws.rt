//! Laws of texts of parts, each of one of the forms that its place allows.

ghost use Rattle.reader_theory.specs.TextLaws.{TextsAreExact, TextsReadOnce};

use crate::language::{Family, Places};

/// From each place on a text is answered exactly; it has one reading where no two parts that a
/// place allows begin one text, each with a rest that its next place allows.
pub fn texts_of_parts<T, A, S, I, L: Family<T, I, A>, P: Places<S, I, A>>()
    ensures exact { TextsAreExact L.words P.forms P.next P.may_end }
    ensures once { TextsReadOnce L.words P.forms P.next P.may_end }
{}
