//! The laws of teams. A team's own number is its place in `teams_after`, counted from 1; its team number is the one
//! that FORM TEAM was given.

ghost use Rattle.std.specs.Prelude.{◌≡◌, ◌≤◌, ◌<◌, ◌⊎◌, ◌++◌, ◌&&◌, ℕ, suc, ℤ, pos, IsTrue, nat_eq, nat_le, List, [], ◌∷◌, length, Some, slice_get};
ghost use Rattle.std.specs.List.{list_all, filter};
ghost use Rattle.trace_theory.specs.Entries.{Each};
ghost use Rattle.caf_base.specs.declared.place.TeamNo.{TeamNo};
ghost use Rattle.caf_events.specs.declared.ask.Ask.TheVariants.{Leave};
ghost use Rattle.caf_events.specs.declared.reply.Reply.TheVariants.{Left};
ghost use Rattle.caf_events.specs.declared.reply.FormedTeam.{FormedTeam};
ghost use Rattle.caf_events.specs.declared.event.Entry.{Entry};
ghost use Rattle.object_rules.specs.Happenings.{Happening, control, happened};
ghost use Rattle.object_rules.specs.TeamRounds.{Opening, has_closed, opening_of};
ghost use Rattle.object_rules.specs.ImagePairs.{names};
ghost use Rattle.object_rules.specs.BoardTeams.{Team, teams_made, teams_after, members_at, closing, is_form};
ghost use Rattle.object_rules.specs.BoardRules.{all_differ, board_reply};
ghost use Rattle.object_rules.specs.Answering.{is_one_of, are_teams};
ghost use Rattle.team_laws.specs.Named.{IsNamed};

/// The teams of a run stay as they were made: whatever happens only adds teams behind those that are there.
pub fn law_teams_stay()
    ensures { (n : ℕ) (before after : List Entry) → (made : List Team) × (teams_after n (before ++ after) ≡ teams_after n before ++ made) }
{}

/// No image is twice a member of a team. Each team but the initial one has a parent, whose own number is lower than its
/// own, and at least one member; and all its members are members of the parent (ISO/IEC 1539-1:2018, 5.3.4, 11.6.9).
pub fn law_team_members()
    ensures once { (n : ℕ) (h : List Entry) (k : ℕ) (x : Team) → slice_get (teams_after n h) k ≡ Some x → IsTrue (all_differ x.members) }
    ensures some { (n : ℕ) (h : List Entry) (k : ℕ) (x : Team) → slice_get (teams_after n h) (suc k) ≡ Some x → IsTrue (nat_le 1 (length x.members)) }
    ensures parent { (n : ℕ) (h : List Entry) (k : ℕ) (x : Team) → slice_get (teams_after n h) (suc k) ≡ Some x → 1 ≤ x.parent × x.parent < suc (suc k) }
    ensures members { (n : ℕ) (h : List Entry) (k : ℕ) (x : Team) → slice_get (teams_after n h) (suc k) ≡ Some x
        → IsTrue (list_all (λ m. names m (members_at (teams_after n h) x.parent)) x.members) }
{}

/// A round has made no teams, or those of its close, by what the members gave that had arrived; nothing that happens
/// later adds to them.
pub fn law_made_at_close()
    ensures { (n : ℕ) (h : List Entry) (team round : ℕ) → 1 ≤ team
        → (filter (λ x. nat_eq x.parent team && nat_eq x.round round) (teams_after n h) ≡ [])
        ⊎ ((front : List Entry) × (closing control team round (members_at (teams_after n h) team) h ≡ Some front)
        × (filter (λ x. nat_eq x.parent team && nat_eq x.round round) (teams_after n h) ≡ teams_made team round (members_at (teams_after n h) team) front)) }
{}

/// The first arrival of a round, whose kind is the round's, stays the first one whatever happens then; and a round that
/// has closed has one.
pub fn law_first_arrival()
    ensures stays { (team round : ℕ) (hs more : List Happening) (o : Opening) → opening_of team round hs ≡ Some o → opening_of team round (hs ++ more) ≡ Some o }
    ensures there { (members : List ℕ) (team round : ℕ) (hs : List Happening) → 1 ≤ round → IsTrue (has_closed members team round hs)
        → (o : Opening) × (opening_of team round hs ≡ Some o) }
{}

/// What the departure from a round tells its image. The status is 0, STAT_STOPPED_IMAGE (6000), STAT_FAILED_IMAGE
/// (6001), or 6006 for a bad argument. It tells teams only after a round of FORM TEAM, with status 0 or
/// STAT_FAILED_IMAGE: each has a member, all their members are members of the round's team, and no image is in two of
/// them or twice in one. Each team that it tells is one of the run's, with its own number, its team number and its
/// members (ISO/IEC 1539-1:2018, 11.6.9, 11.6.11).
pub fn law_departure_told()
    ensures status { (n : ℕ) (h : List Entry) (i : ℕ) (team : TeamNo) (round : ℕ) (status : ℤ) (teams : List FormedTeam)
        → board_reply n h i (Leave team round) ≡ Left status teams → IsTrue (is_one_of (pos 0 ∷ pos 6000 ∷ pos 6001 ∷ pos 6006 ∷ []) status) }
    ensures teams { (n : ℕ) (h : List Entry) (i : ℕ) (team : TeamNo) (round : ℕ) (status : ℤ) (teams : List FormedTeam)
        → board_reply n h i (Leave team round) ≡ Left status teams
        → (teams ≡ []) ⊎ (IsTrue (is_form (opening_of team.0 round (happened control h))) × IsTrue (is_one_of (pos 0 ∷ pos 6001 ∷ []) status)
        × IsTrue (are_teams (members_at (teams_after n h) team.0) teams)) }
    ensures named { (n : ℕ) (h : List Entry) (i : ℕ) (team : TeamNo) (round : ℕ) (status : ℤ) (teams : List FormedTeam)
        → board_reply n h i (Leave team round) ≡ Left status teams → Each (IsNamed (teams_after n h)) teams }
{}
