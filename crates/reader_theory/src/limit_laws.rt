//! Laws of the reason of a refusal: no word goes on so, or the first token that is too deep.

ghost use Rattle.reader_theory.specs.TextLaws.{AnswerTellsFront, PlaceOfWhole, PlaceOfEither, PlaceOfTail, PlaceInTexts, RefusalHasReason, RefusalAtEnd, RefusedForIsNotRead, OneRefusal, LimitsAgree};

use crate::language::{Family, Language, Places};

/// A refusal has its reason by where the tokens sink up to its place; what is refused isn't read; place and reason are
/// one.
pub fn reason_of_refusal<T, A, L: Language<T, A>>()
    ensures inside { RefusalHasReason L.words }
    ensures at_end { RefusalAtEnd L.words }
    ensures not_read { RefusedForIsNotRead L.words }
    ensures one { OneRefusal L.words }
{}

/// Whether some word begins with a text is told by an exact answer to it.
pub fn front_of_word<T, A, L: Language<T, A>>()
    ensures { AnswerTellsFront L.words }
{}

/// Where an exact reader's words sink first.
pub fn place_of_whole<T, A, L: Language<T, A>>()
    ensures { PlaceOfWhole L.words }
{}

/// Where the words of one of two languages sink first.
pub fn place_of_choice<T, A, L: Language<T, A>, M: Language<T, A>, K: Language<T, A>>()
    ensures { PlaceOfEither L.words M.words K.words }
{}

/// Where a part and the text behind it sink first.
pub fn place_of_tail<T, A, B, C, L: Language<T, A>, M: Family<T, A, B>>()
    ensures { (f : A → B → C) → PlaceOfTail L.words M.words f }
{}

/// Where a text of parts sinks first.
pub fn place_in_texts<T, A, S, I, L: Family<T, I, A>, P: Places<S, I, A>>()
    ensures { PlaceInTexts L.words P.forms P.next P.may_end }
{}

/// Whether some word begins with a text is the same under another limit, which may be out of the text's reach.
pub fn limits_agree<T, A, L: Language<T, A>, M: Language<T, A>>()
    ensures { LimitsAgree L.words M.words }
{}
