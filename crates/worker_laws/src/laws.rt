//! The laws of images that run at the same time: of linked lists, and of linked runs.

ghost use Rattle.std.specs.Prelude.{◌≡◌, ◌≤◌, ℕ, suc, List};
ghost use Rattle.trace_theory.specs.Entries.{Each};
ghost use Rattle.trace_theory.specs.Runs.{Woven};
ghost use Rattle.caf_events.specs.Histories.{last_stamp_of};
ghost use Rattle.core_runs.specs.Lists.{list_at, last_of, entries_of, history_of};
ghost use Rattle.core_runs.specs.Moments.{Moment, rules};
ghost use Rattle.core_runs.specs.Beginnings.{Beginning};
ghost use Rattle.core_runs.specs.Kept.{IsKept};
ghost use Rattle.worker_laws.specs.Links.{AllClosed};
ghost use Rattle.worker_laws.specs.Counts.{events_of, NoneElse};
ghost use Rattle.worker_laws.specs.Linked.{AreTogether};

use caf_events::object::Object;
use caf_events::walker::Walker;
use trace_theory::order_laws::Entries;

/// The lists of images and objects at the end are of one run, where the stamp that is due to an own step is one more
/// than the image's last.
pub fn law_linked_woven<E: Entries>()
    ensures { (count : ℕ) (events histories : ℕ → List E.Entry)
        → AllClosed E.image E.place E.stamp count events histories
        → ((i : ℕ) → Each (λ e. (n : ℕ) → E.own e n ≡ suc n) (events i))
        → Woven E.image E.place E.stamp E.own events histories }
{}

/// No stamp of a run is above the number of its events, where the stamp that is due to an own step is one more than the
/// image's last.
pub fn law_stamps_few<E: Entries>()
    ensures images { (n : ℕ) (events histories : ℕ → List E.Entry)
        → Woven E.image E.place E.stamp E.own events histories → NoneElse events n
        → ((i : ℕ) → Each (λ e. (n : ℕ) → E.own e n ≡ suc n) (events i))
        → (i : ℕ) → Each (λ e. E.stamp e ≤ events_of events n) (events i) }
    ensures objects { (n : ℕ) (events histories : ℕ → List E.Entry)
        → Woven E.image E.place E.stamp E.own events histories → NoneElse events n
        → ((i : ℕ) → Each (λ e. (n : ℕ) → E.own e n ≡ suc n) (events i))
        → (o : ℕ) → Each (λ e. E.stamp e ≤ events_of events n) (histories (suc o)) }
{}

/// Images that are together keep all that is kept of their run.
pub fn law_linked_kept<M: Walker, O: Object, B: Object>()
    ensures { (b : Beginning M.Config O.Made B.Made) (m : Moment M.Config O.Made B.Made)
        → AreTogether (rules M.Walker O.Object B.Object) b m → IsKept (rules M.Walker O.Object B.Object) b m }
{}

/// No stamp is above the number of all their events.
pub fn law_linked_few<M: Walker, O: Object, B: Object>()
    ensures images { (b : Beginning M.Config O.Made B.Made) (m : Moment M.Config O.Made B.Made)
        → AreTogether (rules M.Walker O.Object B.Object) b m → (i : ℕ) → last_of (list_at m.events i) ≤ events_of (entries_of m.events) b.images }
    ensures objects { (b : Beginning M.Config O.Made B.Made) (m : Moment M.Config O.Made B.Made)
        → AreTogether (rules M.Walker O.Object B.Object) b m
        → (o : ℕ) → last_stamp_of (history_of m.board_history m.histories (suc o)) ≤ events_of (entries_of m.events) b.images }
{}
