//! Who missed a round.

ghost use Rattle.std.specs.Prelude.{◌≡◌, ◌≤◌, ℕ, List, Some, nat_lt, false};
ghost use Rattle.std.specs.List.{list_any};
ghost use Rattle.caf_events.specs.declared.event.Entry.{Entry};
ghost use Rattle.object_rules.specs.Cells.{Declared};
ghost use Rattle.object_rules.specs.Happenings.{Class, happened};
ghost use Rattle.object_rules.specs.TeamRounds.{missed_by};
ghost use Rattle.object_rules.specs.BoardTeams.{closing};
ghost use Rattle.core_runs.specs.CoreRuns.{at_board, said_by};
ghost use Rattle.round_words.specs.RoundRuns.{IsRoundRun, IsAhead, IsRoundClass, team_members, arrivals_said};

/// The members that had stopped by the close of a round in a run are those that never arrive at it in a run that is
/// ahead.
pub fn law_who_missed()
    ensures { (s : List Declared) (n : ℕ) (class : Class) (team k : ℕ) (t g f : List Entry) → IsRoundRun s n t → IsRoundRun s n g → IsAhead t g
        → IsRoundClass class → 1 ≤ k → closing class team k (team_members n g team) (at_board g) ≡ Some f
        → missed_by (team_members n g team) (happened class f)
        ≡ record { stopped = list_any (λ m. nat_lt (arrivals_said class team m (said_by m t)) k) (team_members n g team); failed = false } }
{}
