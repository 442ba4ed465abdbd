//! Rounds, collective subroutines, SYNC IMAGES, CRITICAL, failures and stops of two and three images, and FORM TEAM of
//! four.

use caf_base::few::Few;
use caf_base::listing::Listing;
use caf_base::place::{INITIAL_TEAM, ImageNo, TeamNo};
use caf_base::value::{Kind, Value};
use caf_events::ask::Ask;
use caf_events::object::Object;
use caf_events::reply::{FormedTeam, Reply};
use caf_events::round::{Arriving, GatherOp};
use control_board::board::Board;
use std::alloc::Global;
use std::fmt::Debug;
use std::process::Abort;

// The words of `Debug` for a value, which is given up.
fn shown<R: Abort, T: Debug + Drop>(rt: &R, alloc: Global, value: T) -> String {
    let text = format!(in alloc; "{value:?}");
    drop(value);
    text.expect(rt, "memory")
}

// One step of an image, which is told this reply.
fn step<R: Abort>(rt: &R, alloc: Global, board: &mut Board, image: u32, ask: Ask, wanted: Reply) {
    assert!(rt; board.ready(ImageNo(image), &ask));
    assert!(rt; board.last_stamp() < 4_611_686_018_427_387_904);
    let told = board.reserve(ImageNo(image), &ask).expect(rt, "memory");
    let event = board.apply(ImageNo(image), ask, told, 7, 0);
    let heard = shown(rt, alloc, event.reply(alloc));
    drop(event);
    assert!(rt; heard == shown(rt, alloc, wanted));
}

// The ask of an image can't come now.
fn waits<R: Abort>(rt: &R, board: &Board, image: u32, ask: Ask) {
    assert!(rt; !board.ready(ImageNo(image), &ask));
    drop(ask);
}

fn sync_of(team: TeamNo) -> Ask {
    Ask::Arrive {
        team,
        arriving: Arriving::Sync,
    }
}

fn sync() -> Ask {
    sync_of(INITIAL_TEAM)
}

fn leave_of(team: TeamNo, round: u64) -> Ask {
    Ask::Leave { team, round }
}

fn leave(round: u64) -> Ask {
    leave_of(INITIAL_TEAM, round)
}

fn pair<R: Abort>(rt: &R, alloc: Global, set: &[ImageNo]) -> Ask {
    Ask::Pair {
        images: Listing::from_slice(alloc, set).expect(rt, "memory"),
    }
}

fn enter() -> Ask {
    Ask::Enter { construct: 1 }
}

// Image indices that have one alone.
fn index<R: Abort>(rt: &R, alloc: Global, index: u32) -> Reply {
    Reply::Indices {
        indices: Listing::of_one(alloc, index).expect(rt, "memory"),
    }
}

fn number(status: i32) -> Reply {
    Reply::Number { status }
}

fn sum(value: i64) -> Ask {
    Ask::Gather {
        team: INITIAL_TEAM,
        op: GatherOp::Sum,
        root: 0,
        kind: Kind::I4,
        values: Few::of_one(Value::Int(value)),
    }
}

fn take(round: u64) -> Ask {
    Ask::Take {
        team: INITIAL_TEAM,
        round,
    }
}

fn left(alloc: Global, status: i32) -> Reply {
    Reply::Left {
        status,
        teams: Listing::new(alloc),
    }
}

fn form(number: i64) -> Ask {
    Ask::Arrive {
        team: INITIAL_TEAM,
        arriving: Arriving::Form {
            number,
            new_index: 0,
        },
    }
}

// A team of two images, as a departure tells it.
fn formed<R: Abort>(rt: &R, alloc: Global, team: u32, number: i64, images: [u32; 2]) -> FormedTeam {
    let members = Listing::from_slice(alloc, &[ImageNo(images[0]), ImageNo(images[1])]);
    FormedTeam {
        team: TeamNo(team),
        number,
        members: members.expect(rt, "memory"),
    }
}

// What is told where images 1 and 3 gave the number 1, and images 2 and 4 the number 2.
fn told_teams<R: Abort>(rt: &R, alloc: Global) -> Reply {
    let mut teams = Listing::new(alloc);
    teams
        .push(formed(rt, alloc, 2, 1, [1, 3]))
        .expect(rt, "memory");
    teams
        .push(formed(rt, alloc, 3, 2, [2, 4]))
        .expect(rt, "memory");
    Reply::Left { status: 0, teams }
}

#[test]
fn all_come(rt: HostRuntime) {
    let alloc = rt.alloc();
    let mut board = Board::new(alloc, 2).expect(&rt, "memory");
    step(&rt, alloc, &mut board, 1, sync(), Reply::Round { round: 1 });
    waits(&rt, &board, 1, leave(1));
    step(&rt, alloc, &mut board, 2, sync(), Reply::Round { round: 1 });
    step(&rt, alloc, &mut board, 1, leave(1), left(alloc, 0));
    step(&rt, alloc, &mut board, 2, sum(5), Reply::Round { round: 1 });
    step(&rt, alloc, &mut board, 1, sum(2), Reply::Round { round: 1 });
    let total = Reply::Taken {
        status: 0,
        values: Few::of_one(Value::Int(7)),
    };
    step(&rt, alloc, &mut board, 1, take(1), total);
    drop(board);
}

#[test]
fn one_fails(rt: HostRuntime) {
    let alloc = rt.alloc();
    let mut board = Board::new(alloc, 2).expect(&rt, "memory");
    step(&rt, alloc, &mut board, 2, enter(), number(0));
    step(&rt, alloc, &mut board, 1, sync(), Reply::Round { round: 1 });
    step(&rt, alloc, &mut board, 2, Ask::Gone, Reply::Done);
    step(&rt, alloc, &mut board, 1, leave(1), left(alloc, 6001));
    step(&rt, alloc, &mut board, 1, enter(), number(6001));
    drop(board);
}

// An arrival of another kind joins no round, a round that closed before a failure keeps its status, and a sum that
// leaves its kind is told.
#[test]
fn one_fails_after_the_close(rt: HostRuntime) {
    let alloc = rt.alloc();
    let mut board = Board::new(alloc, 2).expect(&rt, "memory");
    let greatest = sum(2_147_483_647);
    step(
        &rt,
        alloc,
        &mut board,
        2,
        greatest,
        Reply::Round { round: 1 },
    );
    step(&rt, alloc, &mut board, 1, sum(1), Reply::Round { round: 1 });
    let over = Reply::Taken {
        status: 6006,
        values: Few::new(alloc),
    };
    step(&rt, alloc, &mut board, 2, take(1), over);
    step(&rt, alloc, &mut board, 1, sync(), Reply::Round { round: 1 });
    let clash = Reply::Clash {
        image: ImageNo(1),
        line: 7,
    };
    step(&rt, alloc, &mut board, 2, form(1), clash);
    waits(&rt, &board, 1, leave(1));
    step(&rt, alloc, &mut board, 2, sync(), Reply::Round { round: 1 });
    step(&rt, alloc, &mut board, 2, Ask::Gone, Reply::Done);
    step(&rt, alloc, &mut board, 1, leave(1), left(alloc, 0));
    let all = Ask::Failed { team: INITIAL_TEAM };
    step(&rt, alloc, &mut board, 1, all, index(&rt, alloc, 2));
    drop(board);
}

// SYNC IMAGES with one that comes and with one that stops, and a CRITICAL construct that is left.
#[test]
fn three_in_pairs(rt: HostRuntime) {
    let alloc = rt.alloc();
    let mut board = Board::new(alloc, 3).expect(&rt, "memory");
    let with_2 = pair(&rt, alloc, &[ImageNo(2)]);
    step(&rt, alloc, &mut board, 1, with_2, Reply::Done);
    waits(&rt, &board, 1, Ask::Unpair);
    let with_1 = pair(&rt, alloc, &[ImageNo(1)]);
    step(&rt, alloc, &mut board, 2, with_1, Reply::Done);
    step(&rt, alloc, &mut board, 1, Ask::Unpair, number(0));
    let twice = pair(&rt, alloc, &[ImageNo(1), ImageNo(1)]);
    waits(&rt, &board, 2, twice);
    let with_3 = pair(&rt, alloc, &[ImageNo(3)]);
    step(&rt, alloc, &mut board, 1, with_3, Reply::Done);
    step(
        &rt,
        alloc,
        &mut board,
        3,
        Ask::Stop { code: 0 },
        Reply::Done,
    );
    step(&rt, alloc, &mut board, 1, Ask::Unpair, number(6000));
    let all = Ask::Stopped { team: INITIAL_TEAM };
    step(&rt, alloc, &mut board, 1, all, index(&rt, alloc, 3));
    let third = Ask::Status {
        team: INITIAL_TEAM,
        index: 3,
    };
    step(&rt, alloc, &mut board, 1, third, number(6000));
    step(&rt, alloc, &mut board, 1, enter(), number(0));
    waits(&rt, &board, 2, enter());
    let exit = Ask::Exit { construct: 1 };
    step(&rt, alloc, &mut board, 1, exit, Reply::Done);
    step(&rt, alloc, &mut board, 2, enter(), number(0));
    drop(board);
}

#[test]
fn four_form_teams(rt: HostRuntime) {
    let alloc = rt.alloc();
    let mut board = Board::new(alloc, 4).expect(&rt, "memory");
    step(
        &rt,
        alloc,
        &mut board,
        4,
        form(2),
        Reply::Round { round: 1 },
    );
    step(
        &rt,
        alloc,
        &mut board,
        1,
        form(1),
        Reply::Round { round: 1 },
    );
    step(
        &rt,
        alloc,
        &mut board,
        3,
        form(1),
        Reply::Round { round: 1 },
    );
    waits(&rt, &board, 3, leave(1));
    step(
        &rt,
        alloc,
        &mut board,
        2,
        form(2),
        Reply::Round { round: 1 },
    );
    step(&rt, alloc, &mut board, 3, leave(1), told_teams(&rt, alloc));
    step(&rt, alloc, &mut board, 4, leave(1), told_teams(&rt, alloc));
    waits(&rt, &board, 3, sync_of(TeamNo(3)));
    let third = sync_of(TeamNo(3));
    step(&rt, alloc, &mut board, 4, third, Reply::Round { round: 1 });
    step(&rt, alloc, &mut board, 2, Ask::Gone, Reply::Done);
    let second = sync_of(TeamNo(2));
    step(&rt, alloc, &mut board, 1, second, Reply::Round { round: 1 });
    let second = sync_of(TeamNo(2));
    step(&rt, alloc, &mut board, 3, second, Reply::Round { round: 1 });
    let end = leave_of(TeamNo(2), 1);
    step(&rt, alloc, &mut board, 3, end, left(alloc, 0));
    let end = leave_of(TeamNo(3), 1);
    step(&rt, alloc, &mut board, 4, end, left(alloc, 6001));
    drop(board);
}
