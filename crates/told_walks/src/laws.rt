//! From the teams that acts name to those that an image was told of (ISO/IEC 1539-1:2018, 5.3.4, 11.6.9).

ghost use Rattle.std.specs.Prelude.{ℕ, List, [], Option};
ghost use Rattle.trace_theory.specs.Machines.{Said};
ghost use Rattle.caf_events.specs.declared.ask.Ask.{Ask};
ghost use Rattle.caf_events.specs.declared.reply.Reply.{Reply};
ghost use Rattle.walk_theory.specs.Syntax.{Steps};
ghost use Rattle.walk_theory.specs.Walks.{start, step};
ghost use Rattle.image_acts.specs.Acts.{Act, ask, end_program};
ghost use Rattle.image_acts.specs.Core.{Core};
ghost use Rattle.image_acts.specs.Meaning.{image_language};
ghost use Rattle.core_runs.specs.Sequences.{Joins};
ghost use Rattle.answer_laws.specs.Told.{AllTold};
ghost use Rattle.told_walks.specs.Asked.{Told, StepsName, IsKnown, AllName, WalksTold, at_first};

/// Where the statements of all procedures name no team but those that the image was told, from wherever the image knows
/// no others, its walk names none, whatever the replies are that answer its asks and whose teams have numbers of 32
/// bits.
pub fn law_bodies_walk_told()
    ensures { (procedures : ℕ → Steps Act) (limit line : ℕ) (first : Core) (k : Told) → ((n : ℕ) → StepsName (procedures n)) → IsKnown k first
        → WalksTold k (step image_language procedures limit) (start (ask end_program) line first) }
{}

/// Where each ask of an image names a team that it was told with itself among the members, and each departure follows
/// its arrival, every team that it names, departures included, is the initial one or was named by an earlier reply.
pub fn law_named_teams_are_told()
    ensures { (me n : ℕ) (sizes : List (Option ℕ)) (es : List (Said Ask Reply)) → Joins es → AllName (at_first me n sizes) es → AllTold [] es }
{}
