//! The current teams, the initial team first.

ghost use Rattle.std.specs.Prelude.{◌≡◌, ◌<◌, ◌^◌, reverse};
ghost use Rattle.image_acts.specs.Teams.{is_in, from_team, behind_first};
ghost use Rattle.team_tables.specs.Tables.{AreSmall, first_of};

/// The newest one, or the initial team where there is none.
pub(crate) fn newest_of(teams: &[u64]) -> u64
    ensures value { result ≡ first_of (reverse teams.now) }
    ensures small { AreSmall teams.now → result < 2 ^ 63 }
{
    match teams.split_last() {
        None => 1,
        Some((newest, _)) => *newest,
    }
}

/// Those before the newest one.
pub(crate) fn older(teams: &[u64]) -> &[u64]
    ensures value { reverse result.now ≡ behind_first (reverse teams.now) }
    ensures small { AreSmall teams.now → AreSmall result.now }
{
    match teams.split_last() {
        None => teams,
        Some((_, older)) => older,
    }
}

/// Whether a team is one of these.
pub(crate) fn holds(teams: &[u64], team: u64) -> bool
    ensures { result ≡ is_in team (reverse teams.now) }
{
    let mut left = teams;
    while let Some((newest, older)) = left.split_last() {
        if *newest == team {
            return true;
        }
        left = older;
    }
    false
}

/// The teams up to this one, none where it isn't one of them.
pub(crate) fn up_to(teams: &[u64], team: u64) -> &[u64]
    ensures { reverse result.now ≡ from_team team (reverse teams.now) }
{
    let mut left = teams;
    while let Some((newest, older)) = left.split_last() {
        if *newest == team {
            return left;
        }
        left = older;
    }
    left
}
