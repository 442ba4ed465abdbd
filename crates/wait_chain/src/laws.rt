//! What is true of every chain of waits.

ghost use Rattle.std.specs.Prelude.{◌≡◌, ℕ, List, true, false};
ghost use Rattle.caf_events.specs.declared.ask.Ask.{Ask};
ghost use Rattle.caf_events.specs.declared.event.Entry.{Entry};
ghost use Rattle.object_rules.specs.Cells.{Declared};
ghost use Rattle.object_rules.specs.Happenings.{Class, control, happened, has_failed};
ghost use Rattle.object_rules.specs.BoardTeams.{teams_after, members_at};
ghost use Rattle.object_rules.specs.BoardRules.{has_joined};
ghost use Rattle.core_runs.specs.Beginnings.{IsOneOf};
ghost use Rattle.core_runs.specs.CoreRuns.{at_board};
ghost use Rattle.core_runs.specs.Lawful.{IsLawfulTrace};
ghost use Rattle.wait_reason.specs.WaitsFor.{waits_with};
ghost use Rattle.wait_reason.specs.Chains.{Wait, Close, IsChain};
ghost use Rattle.wait_chain.specs.Stuck.{IsHeld, IsStuck};
ghost use Rattle.wait_chain.specs.Told.{members};
ghost use Rattle.wait_chain.specs.ToldChains.{IsToldChain};

/// For whom an image waits in a lawful trace, with an ask that fits and isn't ready: an image of the run, which
/// hasn't failed.
pub fn law_waits_for()
    ensures image { (coarrays : List Declared) (n : ℕ) (t : List Entry) (i j : ℕ) (ask : Ask) → IsLawfulTrace coarrays n t → waits_with n t i ask j ≡ true → IsOneOf n j }
    ensures left { (coarrays : List Declared) (n : ℕ) (t : List Entry) (i j : ℕ) (ask : Ask) → IsLawfulTrace coarrays n t → IsHeld coarrays n t i ask → waits_with n t i ask j ≡ true
        → has_failed j (happened control (at_board t)) ≡ false }
{}

/// The members of a team in which an image of a lawful trace has joined a round are those that the departures from
/// the rounds of FORM TEAM tell.
pub fn law_members_told()
    ensures { (coarrays : List Declared) (n : ℕ) (t : List Entry) (class : Class) (team round i : ℕ) → IsLawfulTrace coarrays n t
        → has_joined class n (at_board t) i team round ≡ true → members n team t ≡ members_at (teams_after n (at_board t)) team }
{}

/// Each lawful trace after which no image that is left goes on has a chain of waits, and no other one.
pub fn law_chain()
    ensures there { (n : ℕ) (t : List Entry) (waits : List Wait) → IsStuck n t waits → (links : List ℕ) × (close : Close) × IsChain n t waits links close }
    ensures one { (n : ℕ) (t : List Entry) (waits : List Wait) → IsStuck n t waits → (links other : List ℕ) (close closing : Close) → IsChain n t waits links close
        → IsChain n t waits other closing → (links ≡ other) × (close ≡ closing) }
{}

/// Each trace with a list of waits tells one chain, and no other; and where it is one after which no image that is left
/// goes on, with these waits, that is their chain.
pub fn law_told_chain()
    ensures there { (n : ℕ) (t : List Entry) (waits : List Wait) → (links : List ℕ) × (close : Close) × IsToldChain n t waits links close }
    ensures one { (n : ℕ) (t : List Entry) (waits : List Wait) (links other : List ℕ) (close closing : Close) → IsToldChain n t waits links close
        → IsToldChain n t waits other closing → (links ≡ other) × (close ≡ closing) }
    ensures stuck { (n : ℕ) (t : List Entry) (waits : List Wait) → IsStuck n t waits → (links : List ℕ) (close : Close) → IsToldChain n t waits links close → IsChain n t waits links close }
{}
