//! The order of the asks of a program's walk, and of a lane over it.

ghost use Rattle.std.specs.Prelude.{ℕ, ◌≡◌, true, List, [], IsTrue};
ghost use Rattle.std.specs.List.{list_all};
ghost use Rattle.caf_events.specs.declared.ask.Ask.{Ask};
ghost use Rattle.caf_events.specs.declared.reply.Reply.{Reply};
ghost use Rattle.caf_events.specs.declared.event.Entry.{Entry};
ghost use Rattle.caf_events.specs.Answers.{Answers};
ghost use Rattle.trace_theory.specs.Machines.{Said, Walk};
ghost use Rattle.trace_theory.specs.Simulations.{AllAnswer};
ghost use Rattle.object_rules.specs.BoardRules.{board_ready, board_reply};
ghost use Rattle.object_rules.specs.Cells.{Declared, MadeMemory};
ghost use Rattle.object_rules.specs.MemoryRules.{has_first_values, memory_ready, memory_reply};
ghost use Rattle.core_runs.specs.Beginnings.{IsOneOf};
ghost use Rattle.core_runs.specs.Failures.{FailsFrom};
ghost use Rattle.core_runs.specs.Lanes.{IsMoment, HearsDue};
ghost use Rattle.core_runs.specs.CoreRuns.{IsFit, IsCoreRun};
ghost use Rattle.core_runs.specs.Kept.{IsKept};
ghost use Rattle.core_runs.specs.Lawful.{IsLawfulTrace};
ghost use Rattle.core_runs.specs.Orders.{IsOrderTrace};
ghost use Rattle.core_runs.specs.Same.{SaysAs};
ghost use Rattle.core_runs.specs.Traces.{IsTraceOf};
ghost use Rattle.core_runs.specs.Waits.{IsWaiting};
ghost use Rattle.core_runs.specs.Moments.{Moment};
ghost use Rattle.core_runs.specs.Sequences.{IsOrderly, EndsByItself, Joins, NothingAfterEnd};
ghost use Rattle.image_lanes.specs.Lanes.{OnLane, lane_step, lane_start};
ghost use Rattle.image_lanes.specs.LaneRuns.{lane_rules, lanes_begin};
ghost use Rattle.walk_theory.specs.Code.{Line, at_place, code_step};
ghost use Rattle.walk_theory.specs.Programs.{HasWalksOf};
ghost use Rattle.checked_tree.specs.Statements as checked;
ghost use Rattle.image_acts.specs.Acts.{Act, ask, end_program};
ghost use Rattle.image_acts.specs.Core.{Core};
ghost use Rattle.walk_theory.specs.Walks.{Config};
ghost use Rattle.image_acts.specs.Meaning.{image_language};
ghost use Rattle.tree_meaning.specs.Forms.{bodies};
ghost use Rattle.tree_meaning.specs.Start.{first_core, start_of, walk_step};
ghost use Rattle.program_walks.specs.Dues.{GoesInOrder};
ghost use Rattle.program_walks.specs.Keeping.{BodiesKeep};
ghost use Rattle.program_walks.specs.Ordered.{IsOrdered, EndsInOrder};
ghost use Rattle.program_walks.specs.Hearing.{TellsNoTeam, HearsEach, DueToPrograms};
ghost use Rattle.program_walks.specs.Runs.{program_rules, program_begins, code_rules, code_begins};

use caf_events::walker::Walker;
use core_runs::order_laws::Choices;

/// Each statement and construct of a program keeps the order of arrivals and departures, whatever has been computed and
/// whatever the replies are.
pub fn law_bodies_keep()
    ensures { (p : checked.Program) → BodiesKeep (bodies p) }
{}

/// Each walk of a program is in order: an arrival that joined a round is directly followed by its departure, a
/// departure comes nowhere else, nothing follows the step that ends the image or begins its failure, and the program
/// asks for none of its lane's steps.
pub fn law_program_goes_in_order()
    ensures { (p : checked.Program) (limit me images : ℕ) → GoesInOrder (walk_step p limit) (start_of p me images) }
{}

/// It is over only behind a step that ended its image, or behind FAIL IMAGE, whatever the replies are that answer its
/// asks: it never ends by itself for want of an operand or of a frame.
pub fn law_program_ends_in_order()
    ensures { (p : checked.Program) (limit me images : ℕ) → EndsInOrder (walk_step p limit) (start_of p me images) }
{}

/// In the words of runs: such walks are ordered, and nothing follows FAIL IMAGE, which is the only step of a failure
/// that a program makes.
pub fn law_order_in_words<M: Walker>()
    ensures { (first : M.Config) → GoesInOrder M.step first → IsOrdered M.step first }
{}

/// A lane over a program whose walks are in order keeps arrivals and departures together, says nothing behind the
/// image's end, and makes the steps of its failure by the list of them.
pub fn law_lane_goes_in_order<M: Walker>()
    ensures { (image fails_at limit : ℕ) (first : M.Config) → GoesInOrder M.step first
        → (es : List (Said Ask Reply)) (c : OnLane M.Config) → AllAnswer Answers es → Walk (lane_step M.step) (lane_start image fails_at limit first) es c
        → Joins es × NothingAfterEnd es × FailsFrom image es [] }
{}

/// It is orderly; and it is over only behind a step that ended its image, where the program is so or behind FAIL IMAGE,
/// and is in order.
pub fn law_lane_orderly<M: Walker>()
    ensures orderly { (image fails_at limit : ℕ) (first : M.Config) → GoesInOrder M.step first → IsOrderly (lane_step M.step) (lane_start image fails_at limit first) }
    ensures ends { (image fails_at limit : ℕ) (first : M.Config) → GoesInOrder M.step first → EndsInOrder M.step first → EndsByItself (lane_step M.step) (lane_start image fails_at limit first) }
{}

/// The reply of the control board is one of the forms that answer the ask, and so is that of a memory.
pub fn law_objects_answer()
    ensures board { (n : ℕ) (h : List Entry) (i : ℕ) (ask : Ask) → IsTrue (board_ready n h i ask) → Answers ask (board_reply n h i ask) }
    ensures memory { (made : MadeMemory) (h : List Entry) (i : ℕ) (ask : Ask) → IsTrue (memory_ready made h i ask) → Answers ask (memory_reply made h i ask) }
{}

/// At each moment of a run of lanes an image hears the reply that is due, where its machine hears every reply; or where
/// it hears those that tell of no team, and no other is due to a program then.
pub fn law_lane_hears_due<M: Walker>()
    ensures all { HearsEach M.step M.hears (λ reply. Unit {0}) → (m : Moment (OnLane M.Config) MadeMemory ℕ) → HearsDue (lane_rules M.step M.hears) m }
    ensures no_team { HearsEach M.step M.hears TellsNoTeam
        → (m : Moment (OnLane M.Config) MadeMemory ℕ) → DueToPrograms M.step TellsNoTeam (lane_rules M.step M.hears) m → HearsDue (lane_rules M.step M.hears) m }
{}

/// A run of lanes over programs whose walks are in order is fit, where their machines hear every reply; or where they
/// hear those that tell of no team, and at each moment of the run no other is due to a program.
pub fn law_lanes_fit<M: Walker>()
    ensures all { (coarrays : List Declared) (n : ℕ) (first : ℕ → M.Config) (fails_at : ℕ → ℕ) (words : ℕ) → ((i : ℕ) → IsOneOf n i → GoesInOrder M.step (first i))
        → HearsEach M.step M.hears (λ reply. Unit {0})
        → IsFit (lane_rules M.step M.hears) (lanes_begin coarrays n first fails_at words) }
    ensures no_team { (coarrays : List Declared) (n : ℕ) (first : ℕ → M.Config) (fails_at : ℕ → ℕ) (words : ℕ) → ((i : ℕ) → IsOneOf n i → GoesInOrder M.step (first i))
        → HearsEach M.step M.hears TellsNoTeam
        → ((m : Moment (OnLane M.Config) MadeMemory ℕ) → IsMoment (lane_rules M.step M.hears) (lanes_begin coarrays n first fails_at words) m
        → DueToPrograms M.step TellsNoTeam (lane_rules M.step M.hears) m)
        → IsFit (lane_rules M.step M.hears) (lanes_begin coarrays n first fails_at words) }
{}

/// The run of a checked program is fit, on every number of images, with every list of failures and every limit: its
/// traces are core runs, and lawful.
pub fn law_program_fit()
    ensures { (p : checked.Program) (limit : ℕ) (coarrays : List Declared) (n : ℕ) (fails_at : ℕ → ℕ) (words : ℕ) → IsFit (program_rules p limit) (program_begins p coarrays n fails_at words) }
{}

/// So its traces are lawful: the trace of each moment that its steps lead to is a core run, and each core run is a
/// lawful trace, where each static coarray of values has a first value of its kind for each of its cells.
pub fn law_program_runs()
    ensures kept { (p : checked.Program) (limit : ℕ) (coarrays : List Declared) (n : ℕ) (fails_at : ℕ → ℕ) (words : ℕ) (m : Moment (OnLane (Config Act Core)) MadeMemory ℕ) (t : List Entry)
        → IsKept (program_rules p limit) (program_begins p coarrays n fails_at words) m → IsTraceOf m.events t
        → IsCoreRun (program_rules p limit) (program_begins p coarrays n fails_at words) t }
    ensures lawful { (p : checked.Program) (limit : ℕ) (coarrays : List Declared) (n : ℕ) (fails_at : ℕ → ℕ) (words : ℕ) (t : List Entry)
        → list_all has_first_values coarrays ≡ true → IsCoreRun (program_rules p limit) (program_begins p coarrays n fails_at words) t → IsLawfulTrace coarrays n t }
{}

/// Code that has the walks of a program goes in order as the program does.
pub fn law_code_goes_in_order()
    ensures { (p : checked.Program) (limit me images : ℕ) (code : List (Line Act))
        → HasWalksOf image_language Answers (ask end_program) (bodies p) p.end_line limit (first_core p me images) code
        → GoesInOrder (code_step image_language code limit) (at_place 0 [] (first_core p me images) 0) }
{}

/// And it ends in order as the program does.
pub fn law_code_ends_in_order()
    ensures { (p : checked.Program) (limit me images : ℕ) (code : List (Line Act))
        → HasWalksOf image_language Answers (ask end_program) (bodies p) p.end_line limit (first_core p me images) code
        → EndsInOrder (code_step image_language code limit) (at_place 0 [] (first_core p me images) 0) }
{}

/// So an image that runs a checked program, or code that has its walks, is over only behind a step that ended it.
pub fn law_images_end_by_themselves()
    ensures program { (p : checked.Program) (limit image images fails_at words : ℕ) → EndsByItself (lane_step (walk_step p limit)) (lane_start image fails_at words (start_of p image images)) }
    ensures code { (p : checked.Program) (limit image images fails_at words : ℕ) (code : List (Line Act))
        → HasWalksOf image_language Answers (ask end_program) (bodies p) p.end_line limit (first_core p image images) code
        → EndsByItself (lane_step (code_step image_language code limit)) (lane_start image fails_at words (at_place 0 [] (first_core p image images) 0)) }
{}

/// Lanes over programs that say the same say the same, up to where they stop and on the way.
pub fn law_lanes_say_the_same<M: Walker, N: Walker>()
    ensures says { (image fails_at limit : ℕ) (c : M.Config) (d : N.Config) → SaysAs M.step N.step c d
        → SaysAs (lane_step M.step) (lane_step N.step) (lane_start image fails_at limit c) (lane_start image fails_at limit d) }
    ensures walks { (image fails_at limit : ℕ) (c : M.Config) (d : N.Config) → SaysAs M.step N.step c d
        → (es : List (Said Ask Reply)) (m : OnLane M.Config) → AllAnswer Answers es → Walk (lane_step M.step) (lane_start image fails_at limit c) es m
        → (o : OnLane N.Config) × Walk (lane_step N.step) (lane_start image fails_at limit d) es o }
{}

/// So their runs are the same: the core runs, the ordered runs, and who waits after a core run.
pub fn law_lanes_run_the_same<M: Walker, N: Walker, S: Choices>()
    ensures core { (coarrays : List Declared) (n : ℕ) (first : ℕ → M.Config) (first' : ℕ → N.Config) (fails_at : ℕ → ℕ) (words : ℕ)
        → ((i : ℕ) → IsOneOf n i → SaysAs M.step N.step (first i) (first' i)) → (t : List Entry)
        → IsCoreRun (lane_rules M.step M.hears) (lanes_begin coarrays n first fails_at words) t
        → IsCoreRun (lane_rules N.step N.hears) (lanes_begin coarrays n first' fails_at words) t }
    ensures ordered { (coarrays : List Declared) (n : ℕ) (first : ℕ → M.Config) (first' : ℕ → N.Config) (fails_at : ℕ → ℕ) (words : ℕ)
        → ((i : ℕ) → IsOneOf n i → SaysAs M.step N.step (first i) (first' i)) → (s : S.State) (t : List Entry)
        → IsOrderTrace (lane_rules M.step M.hears) (lanes_begin coarrays n first fails_at words) S.chooser s t
        → IsOrderTrace (lane_rules N.step N.hears) (lanes_begin coarrays n first' fails_at words) S.chooser s t }
    ensures waits { (coarrays : List Declared) (n : ℕ) (first : ℕ → M.Config) (first' : ℕ → N.Config) (fails_at : ℕ → ℕ) (words : ℕ)
        → ((i : ℕ) → IsOneOf n i → SaysAs M.step N.step (first i) (first' i)) → (t : List Entry)
        → IsCoreRun (lane_rules M.step M.hears) (lanes_begin coarrays n first fails_at words) t
        → (i line : ℕ) (ask : Ask) → IsWaiting (lane_rules M.step M.hears) (lanes_begin coarrays n first fails_at words) t i line ask
        → IsWaiting (lane_rules N.step N.hears) (lanes_begin coarrays n first' fails_at words) t i line ask }
{}

/// The runs of a program's code are the runs of the program: a trace is a core run of lanes over the code exactly where
/// it is one of lanes over the tree's walk.
pub fn law_code_runs()
    ensures onward { (p : checked.Program) (limit : ℕ) (coarrays : List Declared) (n : ℕ) (fails_at : ℕ → ℕ) (words : ℕ) (t : List Entry)
        → IsCoreRun (program_rules p limit) (program_begins p coarrays n fails_at words) t → IsCoreRun (code_rules p limit) (code_begins p coarrays n fails_at words) t }
    ensures backward { (p : checked.Program) (limit : ℕ) (coarrays : List Declared) (n : ℕ) (fails_at : ℕ → ℕ) (words : ℕ) (t : List Entry)
        → IsCoreRun (code_rules p limit) (code_begins p coarrays n fails_at words) t → IsCoreRun (program_rules p limit) (program_begins p coarrays n fails_at words) t }
{}
