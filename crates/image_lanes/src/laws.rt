//! The laws of lanes.

ghost use Rattle.std.specs.Prelude.{◌+◌, ◌*◌, ◌≤◌, ℕ, List, []};
ghost use Rattle.caf_events.specs.declared.ask.Ask.{Ask};
ghost use Rattle.caf_events.specs.declared.reply.Reply.{Reply};
ghost use Rattle.trace_theory.specs.Machines.{Said, Walk, WalkTo};
ghost use Rattle.image_lanes.specs.Lanes.{OnLane, lane_left, lane_step, lane_start};
ghost use Rattle.image_lanes.specs.Courses.{Course, NoLaterSteps};
ghost use Rattle.core_runs.specs.Failures.{FailsFrom};

use caf_events::walker::Walker;

/// What a lane says is a walk of its program, and behind it nothing, its failure, or its limit of recorded words.
pub fn law_course<M: Walker>()
    ensures { (image fails_at limit : ℕ) (c : M.Config) (es : List (Said Ask Reply)) (to : OnLane M.Config)
        → Walk (lane_step M.step) (lane_start image fails_at limit c) es to
        → Course M.step (lane_start image fails_at limit c) es }
{}

/// Where the program makes none of the steps of a failure but the first, the failure stands in the lane's events as the
/// list of its steps says:
/// the mark, the release of each lock that the image holds then, in the order in which it got them last, and its end.
pub fn law_fails<M: Walker>()
    ensures { (image fails_at limit : ℕ) (c : M.Config) (es : List (Said Ask Reply)) (to : OnLane M.Config)
        → ((walked : List (Said Ask Reply)) (d : M.Config) → WalkTo M.step c walked d → NoLaterSteps walked)
        → Walk (lane_step M.step) (lane_start image fails_at limit c) es to
        → FailsFrom image es [] }
{}

/// The bound on the asks that a lane still makes (`asks_left` of its `Walker`) is at first twice its limit of recorded
/// words, and four: each step of its program but the last records four words at least, and may get a lock that its
/// failure frees.
pub fn law_few<M: Walker>()
    ensures { (image fails_at limit : ℕ) (c : M.Config) → lane_left M.step (lane_start image fails_at limit c) ≤ 2 * limit + 4 }
{}
