//! What an object replies to an ask.

ghost use Rattle.std.specs.Prelude.{◌≡◌, IfOk};

use caf_base::copying::TryCopy;
use caf_base::few::Few;
use caf_base::listing::Listing;
use caf_base::place::{ImageNo, TeamNo};
use caf_base::refusal::NoMemory;
use caf_base::value::Value;

/// A team that a closed FORM TEAM round made: its number in the run, its team number, and its members in index order.
#[derive(Drop, Debug)]
pub struct FormedTeam {
    pub team: TeamNo,
    pub number: i64,
    pub members: Listing<ImageNo>,
}

impl TryCopy for FormedTeam {
    fn copy(&self) -> Result<FormedTeam, NoMemory> {
        Ok(FormedTeam {
            team: self.team,
            number: self.number,
            members: self.members.copy()?,
        })
    }
}

/// A reply.
#[derive(Drop, Debug)]
pub enum Reply {
    /// The step was made, and there is nothing to tell.
    Done,
    /// The memory's owner has failed.
    Dead,
    /// The coarray isn't allocated there, or the span leaves it.
    Absent,
    /// The result of an atomic action leaves its kind.
    Overflow,
    /// The lock is held by another image.
    Busy,
    /// The values of the cells of a read.
    Values {
        values: Few<Value>,
    },
    /// The value that an atomic action found.
    Old {
        value: Value,
    },
    /// A status number, 0 for success.
    Number {
        status: i32,
    },
    /// The count of an event variable.
    Count {
        count: u64,
    },
    /// The arrival joined this round of its team, from 1.
    Round {
        round: u64,
    },
    /// The arrival is of another kind than the round's first one, which has this image and line.
    Clash {
        image: ImageNo,
        line: u32,
    },
    /// Image indices in rising order.
    Indices {
        indices: Listing<u32>,
    },
    /// The status of a collective, and where it is 0 the values.
    Taken {
        status: i32,
        values: Few<Value>,
    },
    /// The status of a round, and for FORM TEAM the teams that it made.
    Left {
        status: i32,
        teams: Listing<FormedTeam>,
    },
}

impl TryCopy for Reply {
    fn copy(&self) -> Result<Reply, NoMemory> {
        match self {
            Reply::Done => Ok(Reply::Done),
            Reply::Dead => Ok(Reply::Dead),
            Reply::Absent => Ok(Reply::Absent),
            Reply::Overflow => Ok(Reply::Overflow),
            Reply::Busy => Ok(Reply::Busy),
            Reply::Values { values } => Ok(Reply::Values {
                values: values.copy()?,
            }),
            Reply::Old { value } => Ok(Reply::Old { value: *value }),
            Reply::Number { status } => Ok(Reply::Number { status: *status }),
            Reply::Count { count } => Ok(Reply::Count { count: *count }),
            Reply::Round { round } => Ok(Reply::Round { round: *round }),
            Reply::Clash { image, line } => Ok(Reply::Clash {
                image: *image,
                line: *line,
            }),
            Reply::Indices { indices } => Ok(Reply::Indices {
                indices: indices.copy()?,
            }),
            Reply::Taken { status, values } => Ok(Reply::Taken {
                status: *status,
                values: values.copy()?,
            }),
            Reply::Left { status, teams } => Ok(Reply::Left {
                status: *status,
                teams: teams.copy_each()?,
            }),
        }
    }
}
