//! Laws of the steps on coarrays: what each act does to a core, by the definitions of this crate. Each is the contract
//! of a function that does nothing.

ghost use Rattle.std.specs.Prelude.{◌≡◌, ◌+◌, ◌-◌, ℕ, pos, min, None, Some, length, take};
ghost use Rattle.caf_base.specs.Arithmetic.{natural};
ghost use Rattle.caf_events.specs.declared.ask.Ask.TheVariants as asks;
ghost use Rattle.caf_events.specs.declared.round.Arriving.TheVariants as arrivals;
ghost use Rattle.walk_theory.specs.Language.{goes_to, faults, asking};
ghost use Rattle.image_acts.specs.Acts as a;
ghost use Rattle.image_acts.specs.Core.{Core, with_values};
ghost use Rattle.image_acts.specs.Faults.{room};
ghost use Rattle.image_acts.specs.Frames.{pairs_in};
ghost use Rattle.image_acts.specs.Places.{digits, numbers_of_form, place_in, place_numbers, place_size};
ghost use Rattle.image_acts.specs.Taking.{given, found_in, giving, put_down, seeing, taking, taking_array, taking_one, telling};
ghost use Rattle.image_acts.specs.Words.{word};
ghost use Rattle.image_acts.specs.Replies.{arrival_reply};
ghost use Rattle.coarray_types.specs.Places.{size_of};
ghost use Rattle.image_acts.specs.Teams.{current_team, index_in, is_established, members};
ghost use Rattle.image_acts.specs.Operate.Allocating.{allocation_effect, bounds_size, cobounds_size};
ghost use Rattle.image_acts.specs.Operate.Asking.{ask_effect};
ghost use Rattle.image_acts.specs.Operate.Bounds.{bounds_effect};
ghost use Rattle.image_acts.specs.Operate.Selecting.{selector_effect};
ghost use Rattle.coarray_tables.specs.Asks.{allotment};
ghost use Rattle.coarray_tables.specs.Owns.{own_at, is_of_team, noted, freed, may_be_made};
ghost use Rattle.coarray_tables.specs.Images.{index_found, own_cosubscript, owner_found};
ghost use Rattle.coarray_tables.specs.Sections.{own_place};
ghost use Rattle.coarray_tables.specs.Steps.{made_team, owned_by, planned, with_owned};

/// The step CoSection leaves the place that `section` finds.
pub fn law_section()
    ensures { (k form : ℕ) (c : Core) → bounds_effect (a.co_section k form) c
        ≡ taking (numbers_of_form (digits form)) c (λ vs d. found_in (own_place (own_at d.coarrays k) (digits form) vs) (λ p. goes_to (with_values d (put_down (place_numbers p) d.values)))) }
{}

/// MadeInTeam tells whether a coarray was allocated in the current team.
pub fn law_made_in_team()
    ensures { (k : ℕ) (c : Core) → bounds_effect (a.made_in_team k) c ≡ telling (is_of_team (own_at c.coarrays k) (current_team c)) c }
{}

/// Owner gives the image that `owner` finds, by the team in which the coarray was allocated.
pub fn law_owner()
    ensures { (k rank corank : ℕ) (c : Core) → selector_effect (a.owner k rank corank) c
        ≡ taking_one c (λ t d. taking corank d (λ ss e. seeing 0 (place_size rank) e (λ ns. found_in
        (owner_found (own_at e.coarrays k) (is_established e (made_team (own_at e.coarrays k)) (natural t)) (members e (natural t)) ss (place_in ns)) (λ i. giving (pos i) e)))) }
{}

/// ImageIndex gives what `image_index` finds.
pub fn law_image_index()
    ensures { (k corank : ℕ) (c : Core) → selector_effect (a.image_index k corank) c
        ≡ taking_one c (λ t d. taking_array d (λ x e. found_in (index_found (own_at e.coarrays k) corank x.elements (length (members e (natural t)))) (λ i. giving (pos i) e))) }
{}

/// Cosubscript gives what `cosubscript` finds, for the index of this image in the team.
pub fn law_cosubscript()
    ensures { (k : ℕ) (c : Core) → selector_effect (a.cosubscript k) c
        ≡ taking_one c (λ t d. taking_one d (λ dim e. found_in (own_cosubscript (own_at e.coarrays k) (index_in e.me (members e (natural t)) - 1) dim) (λ v. giving v e))) }
{}

/// NoteMade does what `note_made` does, and is the run fault Room where that notes nothing.
pub fn law_note_made()
    ensures { (k depth rank corank : ℕ) (c : Core) → allocation_effect (a.note_made k depth rank corank) c
        ≡ seeing depth (bounds_size rank + cobounds_size corank) c (λ vs. elim (noted (owned_by c) k rank corank vs (current_team c)) [ None ↦ faults room | Some n ↦ goes_to (with_owned n c) ]) }
{}

/// NoteFreed does what `note_freed` does.
pub fn law_note_freed()
    ensures { (k : ℕ) (c : Core) → allocation_effect (a.note_freed k) c ≡ given (freed (owned_by c) k) (λ n. goes_to (with_owned n c)) }
{}

/// PlanCoarray says whether all is well so far by `may_be_made`, and sums the cells as `sum_with` and `sum_alone` do.
pub fn law_plan()
    ensures { (k depth rank corank : ℕ) (c : Core) → allocation_effect (a.plan_coarray k depth rank corank) c
        ≡ seeing (depth + 3) (bounds_size rank + cobounds_size corank) c (λ vs. taking 3 c (λ plan d. planned (may_be_made (own_at d.coarrays k) rank vs) (size_of (pairs_in (take (bounds_size rank) vs))) plan d)) }
{}

/// ArriveAllocate arrives with the coarrays that `allotment` gives.
pub fn law_allotment()
    ensures { (n : ℕ) (c : Core) → ask_effect (a.arrive_allocate n) c
        ≡ taking n c (λ ks d. taking_one d (λ t e. asking (asks.Arrive (record { 0 = word t }) (arrivals.Allocate (allotment d.coarrays ks))) (arrival_reply e))) }
{}

/// Create asks for the cells that `cells_of_bounds` gives.
pub fn law_create()
    ensures { (k depth rank : ℕ) (c : Core) → ask_effect (a.create k depth rank) c
        ≡ seeing depth (bounds_size rank) c (λ vs. asking (asks.Create (record { 0 = c.me }) k (min (size_of (pairs_in vs)) 4294967295)) (λ r. c)) }
{}
