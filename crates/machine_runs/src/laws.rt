//! What a machine says, and the runs of lanes over machines.

ghost use Rattle.std.specs.Prelude.{ℕ, ◌≡◌, List};
ghost use Rattle.trace_theory.specs.Equivalence.{SameWalks};
ghost use Rattle.trace_theory.specs.Simulations.{AllAnswer};
ghost use Rattle.walk_theory.specs.Code.{code_step};
ghost use Rattle.walk_theory.specs.Walks.{Config};
ghost use Rattle.caf_events.specs.declared.ask.Ask.{Ask};
ghost use Rattle.caf_events.specs.declared.reply.Reply.{Reply};
ghost use Rattle.caf_events.specs.declared.event.Entry.{Entry};
ghost use Rattle.caf_events.specs.Answers.{Answers};
ghost use Rattle.object_rules.specs.Cells.{Declared, MadeMemory};
ghost use Rattle.core_runs.specs.Beginnings.{IsOneOf};
ghost use Rattle.core_runs.specs.CoreRuns.{said_by, IsCoreRun, IsFit};
ghost use Rattle.core_runs.specs.Lanes.{IsMoment, HearsDue};
ghost use Rattle.core_runs.specs.Moments.{Moment};
ghost use Rattle.core_runs.specs.Orders.{IsOrderTrace};
ghost use Rattle.core_runs.specs.Same.{SaysAs};
ghost use Rattle.core_runs.specs.Sequences.{EndsByItself};
ghost use Rattle.core_runs.specs.Waits.{IsWaiting};
ghost use Rattle.image_lanes.specs.Lanes.{OnLane, lane_step, lane_start};
ghost use Rattle.image_lanes.specs.LaneRuns.{lane_rules};
ghost use Rattle.checked_tree.specs.Statements as checked;
ghost use Rattle.image_acts.specs.Acts.{Act};
ghost use Rattle.image_acts.specs.Core.{Core};
ghost use Rattle.image_acts.specs.Meaning.{image_language};
ghost use Rattle.image_code.specs.Code.{Whole, code_of};
ghost use Rattle.image_state.specs.declared.state.Rooms.{Rooms};
ghost use Rattle.image_machine.specs.Engine.{Engine, start_of};
ghost use Rattle.image_machine.specs.Start.{first_state};
ghost use Rattle.image_machine.specs.Walk.{machine_step};
ghost use Rattle.tree_meaning.specs.Start as tree;
ghost use Rattle.program_walks.specs.Runs.{program_rules, program_begins};
ghost use Rattle.machine_runs.specs.Runs.{StandsAt, StandsAfter, HasComputed, HasWalksFrom, HasWalksOn, machines_begin};

use core_runs::order_laws::Choices;

/// Which replies a machine can hear.
pub trait Hearing {
    ghost hears: { Engine → Reply → Type 0 };
}

/// The machine has the walks of its code, and stands where its code stands.
pub fn law_machine_has_the_walks_of_its_code()
    ensures { (w : Whole) (limit : ℕ) (rooms : Rooms) (me images : ℕ)
        → SameWalks Answers (StandsAt (start_of w limit rooms me images)) (StandsAt (start_of w limit rooms me images)) (code_step image_language (code_of w.program) limit) (first_state w me images)
        machine_step (start_of w limit rooms me images) }
{}

/// The machine of code that has the walks of a program says what the program says, and says nothing else.
pub fn law_machine_says_as_its_program()
    ensures onward { (p : checked.Program) (w : Whole) (limit : ℕ) (rooms : Rooms) (me images : ℕ) → HasWalksFrom p limit me images w
        → SaysAs machine_step (tree.walk_step p limit) (start_of w limit rooms me images) (tree.start_of p me images) }
    ensures backward { (p : checked.Program) (w : Whole) (limit : ℕ) (rooms : Rooms) (me images : ℕ) → HasWalksFrom p limit me images w
        → SaysAs (tree.walk_step p limit) machine_step (tree.start_of p me images) (start_of w limit rooms me images) }
{}

/// A trace is a core run of such machines exactly where it is one of the program.
pub fn law_machine_core_runs<H: Hearing>()
    ensures onward { (p : checked.Program) (w : Whole) (limit : ℕ) (rooms : ℕ → Rooms) (coarrays : List Declared) (n : ℕ) (fails_at : ℕ → ℕ) (words : ℕ) → HasWalksOn p limit n w
        → (t : List Entry) → IsCoreRun (lane_rules machine_step H.hears) (machines_begin w limit rooms coarrays n fails_at words) t
        → IsCoreRun (program_rules p limit) (program_begins p coarrays n fails_at words) t }
    ensures backward { (p : checked.Program) (w : Whole) (limit : ℕ) (rooms : ℕ → Rooms) (coarrays : List Declared) (n : ℕ) (fails_at : ℕ → ℕ) (words : ℕ) → HasWalksOn p limit n w
        → (t : List Entry) → IsCoreRun (program_rules p limit) (program_begins p coarrays n fails_at words) t
        → IsCoreRun (lane_rules machine_step H.hears) (machines_begin w limit rooms coarrays n fails_at words) t }
{}

/// And the trace of an ordered run of such machines exactly where it is that of an ordered run of the program, by the
/// same choices.
pub fn law_machine_ordered<H: Hearing, S: Choices>()
    ensures onward { (p : checked.Program) (w : Whole) (limit : ℕ) (rooms : ℕ → Rooms) (coarrays : List Declared) (n : ℕ) (fails_at : ℕ → ℕ) (words : ℕ) → HasWalksOn p limit n w
        → (s : S.State) (t : List Entry) → IsOrderTrace (lane_rules machine_step H.hears) (machines_begin w limit rooms coarrays n fails_at words) S.chooser s t
        → IsOrderTrace (program_rules p limit) (program_begins p coarrays n fails_at words) S.chooser s t }
    ensures backward { (p : checked.Program) (w : Whole) (limit : ℕ) (rooms : ℕ → Rooms) (coarrays : List Declared) (n : ℕ) (fails_at : ℕ → ℕ) (words : ℕ) → HasWalksOn p limit n w
        → (s : S.State) (t : List Entry) → IsOrderTrace (program_rules p limit) (program_begins p coarrays n fails_at words) S.chooser s t
        → IsOrderTrace (lane_rules machine_step H.hears) (machines_begin w limit rooms coarrays n fails_at words) S.chooser s t }
{}

/// After a core run of such machines the images wait that wait in the program, at the same asks and lines. (Which have
/// ended is told by the trace alone.)
pub fn law_machine_waits<H: Hearing>()
    ensures onward { (p : checked.Program) (w : Whole) (limit : ℕ) (rooms : ℕ → Rooms) (coarrays : List Declared) (n : ℕ) (fails_at : ℕ → ℕ) (words : ℕ) → HasWalksOn p limit n w
        → (t : List Entry) → IsCoreRun (lane_rules machine_step H.hears) (machines_begin w limit rooms coarrays n fails_at words) t
        → (i line : ℕ) (ask : Ask) → IsWaiting (lane_rules machine_step H.hears) (machines_begin w limit rooms coarrays n fails_at words) t i line ask
        → IsWaiting (program_rules p limit) (program_begins p coarrays n fails_at words) t i line ask }
    ensures backward { (p : checked.Program) (w : Whole) (limit : ℕ) (rooms : ℕ → Rooms) (coarrays : List Declared) (n : ℕ) (fails_at : ℕ → ℕ) (words : ℕ) → HasWalksOn p limit n w
        → (t : List Entry) → IsCoreRun (program_rules p limit) (program_begins p coarrays n fails_at words) t
        → (i line : ℕ) (ask : Ask) → IsWaiting (program_rules p limit) (program_begins p coarrays n fails_at words) t i line ask
        → IsWaiting (lane_rules machine_step H.hears) (machines_begin w limit rooms coarrays n fails_at words) t i line ask }
{}

/// Where an image stands after a trace whose replies answer their asks, that of the program stands, and it has computed
/// what the machine has.
pub fn law_machine_stands<H: Hearing>()
    ensures { (p : checked.Program) (w : Whole) (limit : ℕ) (rooms : ℕ → Rooms) (coarrays : List Declared) (n : ℕ) (fails_at : ℕ → ℕ) (words : ℕ) → HasWalksOn p limit n w
        → (t : List Entry) (i : ℕ) → IsOneOf n i → AllAnswer Answers (said_by i t)
        → (l : OnLane Engine) → StandsAfter (lane_rules machine_step H.hears) (machines_begin w limit rooms coarrays n fails_at words) t i l
        → (c : OnLane (Config Act Core)) × StandsAfter (program_rules p limit) (program_begins p coarrays n fails_at words) t i c × HasComputed l.program c.program }
{}

/// The run of such machines is fit, where they hear the replies that are due to them; and each image is over only
/// behind a step that ended it.
pub fn law_machine_fit<H: Hearing>()
    ensures fit { (p : checked.Program) (w : Whole) (limit : ℕ) (rooms : ℕ → Rooms) (coarrays : List Declared) (n : ℕ) (fails_at : ℕ → ℕ) (words : ℕ) → HasWalksOn p limit n w
        → ((m : Moment (OnLane Engine) MadeMemory ℕ) → IsMoment (lane_rules machine_step H.hears) (machines_begin w limit rooms coarrays n fails_at words) m
        → HearsDue (lane_rules machine_step H.hears) m)
        → IsFit (lane_rules machine_step H.hears) (machines_begin w limit rooms coarrays n fails_at words) }
    ensures ends { (p : checked.Program) (w : Whole) (limit : ℕ) (rooms : Rooms) (me images fails_at words : ℕ) → HasWalksFrom p limit me images w
        → EndsByItself (lane_step machine_step) (lane_start me fails_at words (start_of w limit rooms me images)) }
{}
