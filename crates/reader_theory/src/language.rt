//! What the laws are about.

ghost use Rattle.std.specs.Prelude.{Bool, List};
ghost use Rattle.reader_theory.specs.Words.{Mark};

/// A language over tokens `T`: which words, marked with what stands too deep, spell which tree of `A`.
pub trait Language<T, A> {
    ghost words: { A → List (Mark T) → Type 0 };
}

/// Languages over tokens `T`, one for each value of `K`: forms, states, or the trees of a part that stands before.
pub trait Family<T, K, A> {
    ghost words: { K → A → List (Mark T) → Type 0 };
}

/// The places of a text of parts: which forms a place allows, which place a part makes of it, and where the text may
/// end.
pub trait Places<S, I, A> {
    ghost forms: { S → List I };

    ghost next: { S → A → S };

    ghost may_end: { S → Bool };
}
