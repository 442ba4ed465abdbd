//! The law of the number of teams. It is the contract of a function that does nothing.

ghost use Rattle.std.specs.Prelude.{◌≤◌, ℕ, suc, List, length};
ghost use Rattle.caf_events.specs.declared.event.Entry.{Entry};
ghost use Rattle.object_rules.specs.BoardTeams.{teams_after};

/// A history makes no more teams than it has entries: each team but the initial one has a member that arrived at the
/// round that made it, and no arrival is at two rounds (ISO/IEC 1539-1:2018, 11.6.9).
pub fn law_teams_are_few()
    ensures { (n : ℕ) (h : List Entry) → length (teams_after n h) ≤ suc (length h) }
{}
