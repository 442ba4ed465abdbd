//! Laws of exact readers: how they compose, and what they answer to whole texts.

ghost use Rattle.std.specs.Prelude.{List};
ghost use Rattle.reader_theory.specs.Laws.{RefusedIsNotRead, WholeTexts, WholeTextsOnce, TokenIsExact, TokenAtLevel, NothingIsExact, ImageIsExact, ImageAnswers, SaidOtherwise, SequenceIsExact, ChoiceIsExact, ChoiceAheadIsExact, OptionIsExact, RepetitionIsExact, SunkIsExact, BehindIsExact, BetweenIsExact, SunkBetweenIsExact, BetterIsExact, BetterReadsOnce, TailIsExact, TailReadsOnce, ReadPartDecides};

use crate::language::{Family, Language};

/// What is refused isn't read.
pub fn refused_is_not_read<T, A, L: Language<T, A>>()
    ensures { RefusedIsNotRead L.words }
{}

/// An exact reader answers each whole text exactly, and each has one reading.
pub fn whole_texts<T, A, L: Language<T, A>>()
    ensures exact { WholeTexts L.words }
    ensures once { WholeTextsOnce L.words }
{}

/// One token, at a level that is there or with no level.
pub fn one_token<T>()
    ensures plain { TokenIsExact T }
    ensures at_level { TokenAtLevel T }
{}

/// No token, and always the same tree.
pub fn nothing<T, A>()
    ensures { NothingIsExact T A }
{}

/// The same words, of other trees; so the answers to whole texts too.
pub fn other_trees<T, A, B, L: Language<T, A>, M: Language<T, B>>()
    ensures exact { ImageIsExact L.words M.words }
    ensures whole { (f : A → B) → ImageAnswers L.words f }
{}

/// The same words, said otherwise.
pub fn said_otherwise<T, A, L: Language<T, A>, M: Language<T, A>>()
    ensures { SaidOtherwise L.words M.words }
{}

/// One part, and behind it another, which may depend on the first.
pub fn sequence<T, A, B, C, L: Language<T, A>, M: Family<T, A, B>>()
    ensures { (f : A → B → C) → SequenceIsExact L.words M.words f }
{}

/// A choice by the first token.
pub fn choice<T, A, L: Language<T, A>, M: Language<T, A>>()
    ensures { ChoiceIsExact L.words M.words }
{}

/// A choice by the first two tokens.
pub fn choice_ahead<T, A, L: Language<T, A>, M: Language<T, A>>()
    ensures { ChoiceAheadIsExact L.words M.words }
{}

/// A part that may be left out.
pub fn option<T, A, L: Language<T, A>>()
    ensures { OptionIsExact L.words }
{}

/// Items one behind another, of which each may depend on those before it.
pub fn repetition<T, S, A, L: Family<T, S, A>>()
    ensures { RepetitionIsExact L.words }
{}

/// Where no level is left.
pub fn no_level_left<T, A, L: Language<T, A>>()
    ensures any { SunkIsExact L.words }
    ensures between { SunkBetweenIsExact L.words }
{}

/// What stands behind one token, and between two, at a level that is there.
pub fn brackets<T, A, L: Language<T, A>>()
    ensures behind { BehindIsExact L.words }
    ensures between { BetweenIsExact L.words }
{}

/// The better of two answers is that of both languages; each text has one reading where none has one in each.
pub fn better_answer<T, A, L: Language<T, A>, M: Language<T, A>, K: Language<T, A>>()
    ensures exact { BetterIsExact L.words M.words K.words }
    ensures once { BetterReadsOnce L.words M.words K.words }
{}

/// A part, and behind it a whole text that may be a choice, and may depend on the part.
pub fn part_then_text<T, A, B, C, L: Language<T, A>, M: Family<T, A, B>>()
    ensures exact { (f : A → B → C) → TailIsExact L.words M.words f }
    ensures once { (f : A → B → C) → TailReadsOnce L.words M.words f }
{}

/// The part that is read decides which answer is the better one.
pub fn read_part_decides<T, A, B, C>()
    ensures { ReadPartDecides T A B C }
{}
