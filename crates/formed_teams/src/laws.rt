//! The teams of a run that is ahead.

ghost use Rattle.std.specs.Prelude.{◌≡◌, ◌++◌, ℕ, true, List};
ghost use Rattle.caf_events.specs.declared.event.Entry.{Entry};
ghost use Rattle.object_rules.specs.Cells.{Declared};
ghost use Rattle.object_rules.specs.Happenings.{control, happened};
ghost use Rattle.object_rules.specs.TeamRounds.{has_closed};
ghost use Rattle.object_rules.specs.BoardTeams.{Team, teams_after, made_teams};
ghost use Rattle.core_runs.specs.CoreRuns.{at_board};
ghost use Rattle.round_words.specs.RoundRuns.{IsRoundRun, IsAhead, team_members};

/// The teams of a run are the first ones of a run that is ahead of it, with the same own numbers and members; and a
/// round that has closed in the run has made the same teams in both.
pub fn law_teams_ahead()
    ensures teams { (s : List Declared) (n : ℕ) (t g : List Entry) → IsRoundRun s n t → IsRoundRun s n g → IsAhead t g
        → (more : List Team) × (teams_after n (at_board t) ≡ teams_after n (at_board g) ++ more) }
    ensures made { (s : List Declared) (n : ℕ) (t g : List Entry) → IsRoundRun s n t → IsRoundRun s n g → IsAhead t g
        → (team k : ℕ) → has_closed (team_members n g team) team k (happened control g) ≡ true
        → made_teams team k 1 (teams_after n (at_board t)) ≡ made_teams team k 1 (teams_after n (at_board g)) }
{}
