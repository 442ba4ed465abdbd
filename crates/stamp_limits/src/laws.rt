//! The laws of limits of stamps.

ghost use Rattle.std.specs.Prelude.{◌≡◌, ◌≤◌, ◌<◌, ◌∷◌, ◌++◌, ℕ, suc, true, false, List, [], length};
ghost use Rattle.std.specs.List.{list_all};
ghost use Rattle.trace_theory.specs.Entries.{Each, Earlier};
ghost use Rattle.caf_events.specs.declared.ask.Ask.{Ask};
ghost use Rattle.caf_events.specs.declared.ask.Ask.TheVariants.{LimitStamp};
ghost use Rattle.caf_events.specs.declared.reply.Reply.TheVariants.{Done};
ghost use Rattle.caf_events.specs.declared.event.Entry.{Entry};
ghost use Rattle.object_rules.specs.Cells.{Declared};
ghost use Rattle.object_rules.specs.MemoryRules.{has_first_values};
ghost use Rattle.core_runs.specs.Lists.{image_of, stamp_of};
ghost use Rattle.core_runs.specs.Moments.{rules};
ghost use Rattle.core_runs.specs.Beginnings.{Beginning, IsImage};
ghost use Rattle.core_runs.specs.CoreRuns.{IsCoreRun, IsFit, IsLawful};
ghost use Rattle.core_runs.specs.Failures.{is_limit};
ghost use Rattle.core_runs.specs.Lawful.{IsLawfulTrace, full_rules, full_beginning};
ghost use Rattle.core_runs.specs.Waits.{HasEndedIn};
ghost use Rattle.stamp_limits.specs.StampLimits.{most_stamp, IsStampLimitDue, HasNoStampLimit, StandsForNext, IsStampLimitedRun};

use caf_events::object::Object;
use caf_events::walker::Walker;

/// In a lawful trace without a limit of stamps the stamp of each entry is at most its number in the trace, counted
/// from 1.
pub fn law_stamps_are_few<M: Walker, O: Object, B: Object>()
    ensures { (b : Beginning M.Config O.Made B.Made) (t before after : List Entry) (x : Entry)
        → IsLawful (rules M.Walker O.Object B.Object) b t → HasNoStampLimit t
        → t ≡ before ++ x ∷ after → stamp_of x ≤ suc (length before) }
{}

/// A core run of fit programs with at most 2 to the 62nd entries, or with no stamp above that, is a run that ends at
/// limits of stamps; before none of so few entries such a limit is due, nor, where there are fewer, before whatever an
/// image asks after them.
pub fn law_no_stamp_limit_is_due<M: Walker, O: Object, B: Object>()
    ensures few { (b : Beginning M.Config O.Made B.Made) (t : List Entry) → IsFit (rules M.Walker O.Object B.Object) b
        → IsCoreRun (rules M.Walker O.Object B.Object) b t → length t ≤ most_stamp
        → IsStampLimitedRun (rules M.Walker O.Object B.Object) b t }
    ensures low { (b : Beginning M.Config O.Made B.Made) (t : List Entry) → IsFit (rules M.Walker O.Object B.Object) b
        → IsCoreRun (rules M.Walker O.Object B.Object) b t → Each (λ x. stamp_of x ≤ most_stamp) t
        → IsStampLimitedRun (rules M.Walker O.Object B.Object) b t }
    ensures entries { (b : Beginning M.Config O.Made B.Made) (t : List Entry) → IsFit (rules M.Walker O.Object B.Object) b
        → IsCoreRun (rules M.Walker O.Object B.Object) b t → length t ≤ most_stamp
        → (before after : List Entry) (x : Entry) → t ≡ before ++ x ∷ after → IsStampLimitDue before (image_of x) x.event.ask → ⊥ }
    ensures next { (b : Beginning M.Config O.Made B.Made) (t : List Entry) → IsFit (rules M.Walker O.Object B.Object) b
        → IsCoreRun (rules M.Walker O.Object B.Object) b t → length t < most_stamp
        → (i : ℕ) (ask : Ask) → IsStampLimitDue t i ask → ⊥ }
{}

/// Conversely a run that ends at limits of stamps, with at most 2 to the 62nd entries or with no stamp above that, is a
/// core run: it has no such limit.
pub fn law_stamp_limited_run_is_core_run<M: Walker, O: Object, B: Object>()
    ensures few { (b : Beginning M.Config O.Made B.Made) (t : List Entry) → IsStampLimitedRun (rules M.Walker O.Object B.Object) b t
        → length t ≤ most_stamp → IsCoreRun (rules M.Walker O.Object B.Object) b t }
    ensures low { (b : Beginning M.Config O.Made B.Made) (t : List Entry) → IsStampLimitedRun (rules M.Walker O.Object B.Object) b t
        → Each (λ x. stamp_of x ≤ most_stamp) t → IsCoreRun (rules M.Walker O.Object B.Object) b t }
{}

/// In a run that ends at limits of stamps each of these has the bound as its number, no stamp but that of a limit is
/// above the bound, and that of a limit is at most one above it.
pub fn law_bound_is_kept<M: Walker, O: Object, B: Object>()
    ensures numbers { (b : Beginning M.Config O.Made B.Made) (t before after : List Entry) (x : Entry) (number : ℕ)
        → IsStampLimitedRun (rules M.Walker O.Object B.Object) b t
        → t ≡ before ++ x ∷ after → x.event.ask ≡ LimitStamp number → number ≡ most_stamp }
    ensures others { (b : Beginning M.Config O.Made B.Made) (t : List Entry) → IsStampLimitedRun (rules M.Walker O.Object B.Object) b t
        → Each (λ x. is_limit x.event.ask ≡ false → stamp_of x ≤ most_stamp) t }
    ensures all { (b : Beginning M.Config O.Made B.Made) (t : List Entry) → IsStampLimitedRun (rules M.Walker O.Object B.Object) b t
        → Each (λ x. stamp_of x ≤ suc most_stamp) t }
{}

/// Where a limit of stamps is due before the next step of an image that hasn't ended, a run that ends at limits of
/// stamps goes on with it: with its entry at the end, where all others are before it in the order of a trace.
pub fn law_stamp_limit_comes<M: Walker, O: Object, B: Object>()
    ensures { (b : Beginning M.Config O.Made B.Made) (t : List Entry) (x : Entry) (number : ℕ)
        → IsStampLimitedRun (rules M.Walker O.Object B.Object) b t
        → IsImage b (image_of x) → (HasEndedIn (image_of x) t → ⊥)
        → StandsForNext (rules M.Walker O.Object B.Object) b t (image_of x) x.event.line number
        → x.event.ask ≡ LimitStamp number → x.event.reply ≡ Done → stamp_of x ≡ suc number
        → Each (λ y. Earlier image_of stamp_of y x) t
        → IsStampLimitedRun (rules M.Walker O.Object B.Object) b (t ++ x ∷ []) }
{}

/// Every front of a run that ends at limits of stamps is one.
pub fn law_stamp_limited_front<M: Walker, O: Object, B: Object>()
    ensures { (b : Beginning M.Config O.Made B.Made) (front rest : List Entry)
        → IsStampLimitedRun (rules M.Walker O.Object B.Object) b (front ++ rest)
        → IsStampLimitedRun (rules M.Walker O.Object B.Object) b front }
{}

/// A run of fit programs that ends at limits of stamps is lawful, where its memories and its control board are those of
/// the language and each static coarray of values has a first value of its kind for each of its cells: who knows that a
/// trace is one can cite the laws of lawful traces.
pub fn law_stamp_limited_run_lawful<M: Walker>()
    ensures { (coarrays : List Declared) (n : ℕ) (first : ℕ → M.Config) (t : List Entry)
        → list_all has_first_values coarrays ≡ true
        → IsFit (full_rules M.step M.hears) (full_beginning coarrays n first)
        → IsStampLimitedRun (full_rules M.step M.hears) (full_beginning coarrays n first) t
        → IsLawfulTrace coarrays n t }
{}
