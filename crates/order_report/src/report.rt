//! The end of a run from where its parts are, and its report.

ghost use Rattle.std.specs.Prelude.{◌≡◌, IfOk, OnOk, List, Some, None};
ghost use Rattle.object_rules.specs.Cells.{Declared};
ghost use Rattle.core_runs.specs.Beginnings.{Beginning, IsFirst};
ghost use Rattle.core_runs.specs.Kept.{IsKept};
ghost use Rattle.core_runs.specs.Moments.{rules};
ghost use Rattle.image_core.specs.declared.choices.Choices.TheVariants.{Rotate};
ghost use Rattle.image_core.specs.Parts.{moment, AreNumbered, AreSound};
ghost use Rattle.caf_report.specs.Ends.{HasEnd};
ghost use Rattle.order_report.specs.Reports.{choices_of, AreLawful, EndByThemselves, GoesNoFurther, IsEndMoment, IsRunReport, IsTraceOn, RunsOn};

use crate::race::first_race;
use crate::waits::{choices_of_seed, held};
use caf_base::listing::{Listing, Text};
use caf_base::refusal::NoMemory;
use caf_events::object::Object;
use caf_events::walker::Walker;
use caf_report::report::Report;
use image_core::choices::Choices;
use image_core::parts::PartsOf;
use inert_steps::inert::Inert;
use std::alloc::Global;

// The report of a run whose parts go no further, with these names of the coarrays.
fn report_here<M: Walker, O: Object, B: Object>(
    alloc: Global,
    parts: &PartsOf<M, O, B>,
    names: Listing<Text>,
) -> Result<Report, NoMemory>
    requires sound { AreSound M.Walker O.Object B.Object parts.now }
    requires lawful { (b : Beginning M.Config O.Made B.Made) × (coarrays : List Declared) × IsKept (rules M.Walker O.Object B.Object) b (moment M.Walker O.Object B.Object parts.now)
        × AreLawful (rules M.Walker O.Object B.Object) b coarrays }
    requires over { GoesNoFurther (rules M.Walker O.Object B.Object) (moment M.Walker O.Object B.Object parts.now) }
    ensures report { IfOk result (λ report. (b : Beginning M.Config O.Made B.Made) (coarrays : List Declared)
        → IsKept (rules M.Walker O.Object B.Object) b (moment M.Walker O.Object B.Object parts.now)
        → EndByThemselves (rules M.Walker O.Object B.Object) b → AreLawful (rules M.Walker O.Object B.Object) b coarrays
        → IsRunReport (rules M.Walker O.Object B.Object) b coarrays None report) }
    ensures has_end { IfOk result HasEnd }
    ensures names { IfOk result (λ report. report.names ≡ names) }
    ensures at_end { IfOk result (λ report. (b : Beginning M.Config O.Made B.Made)
        → IsKept (rules M.Walker O.Object B.Object) b (moment M.Walker O.Object B.Object parts.now)
        → IsEndMoment (rules M.Walker O.Object B.Object) b report.trace.entries (moment M.Walker O.Object B.Object parts.now)) }
{
    let n = parts.images.len() as u32;
    let trace = parts.trace(alloc)?;
    let held = held(alloc, parts)?;
    let race = first_race(alloc, &trace, n)?;
    let finals = Listing::new(alloc);
    Ok(Report::with_race(n, trace, race, held, names, finals))
}

/// The run of these parts from before their first step, in the order of a SEED, and its report with these names of the
/// coarrays. Condition: the traces of a run of which the parts are a moment are lawful for some coarrays.
pub fn report_order<M: Walker, O: Inert, B: Inert>(
    alloc: Global,
    parts: &mut PartsOf<M, O, B>,
    seed: u32,
    names: Listing<Text>,
) -> Result<Report, NoMemory>
    requires sound { AreSound M.Walker O.Object B.Object parts.old }
    requires lawful { (b : Beginning M.Config O.Made B.Made) × (coarrays : List Declared) × IsKept (rules M.Walker O.Object B.Object) b (moment M.Walker O.Object B.Object parts.old)
        × AreLawful (rules M.Walker O.Object B.Object) b coarrays }
    // It is that of each run of which the parts are the first moment.
    ensures report { IfOk result (λ report. (b : Beginning M.Config O.Made B.Made) (coarrays : List Declared)
        → IsFirst (rules M.Walker O.Object B.Object) b (moment M.Walker O.Object B.Object parts.old)
        → IsKept (rules M.Walker O.Object B.Object) b (moment M.Walker O.Object B.Object parts.old)
        → EndByThemselves (rules M.Walker O.Object B.Object) b → AreLawful (rules M.Walker O.Object B.Object) b coarrays
        → IsRunReport (rules M.Walker O.Object B.Object) b coarrays (Some seed) report) }
    ensures has_end { IfOk result HasEnd }
    ensures names { IfOk result (λ report. report.names ≡ names) }
    // After it the parts are at the end of that run.
    ensures at_end { IfOk result (λ report. (b : Beginning M.Config O.Made B.Made)
        → IsKept (rules M.Walker O.Object B.Object) b (moment M.Walker O.Object B.Object parts.old)
        → IsEndMoment (rules M.Walker O.Object B.Object) b report.trace.entries (moment M.Walker O.Object B.Object parts.new)) }
    // The steps made are those of the SEED's order from where the parts were.
    ensures on { IfOk result (λ report. IsTraceOn (rules M.Walker O.Object B.Object) (choices_of seed) (moment M.Walker O.Object B.Object parts.old)
        (moment M.Walker O.Object B.Object parts.new) report.trace.entries) }
    ensures numbered { IfOk result (λ _. AreNumbered parts.new.images.items) }
{
    let mut choices = choices_of_seed(seed);
    parts.run_order(&mut choices)?;
    let report = report_here(alloc, parts, names)?;
    Ok(report)
}

// The run from where the parts are to its end: by rotation, where no step has ended it.
fn finish<M: Walker, O: Inert, B: Inert>(parts: &mut PartsOf<M, O, B>) -> Result<(), NoMemory>
    requires sound { AreSound M.Walker O.Object B.Object parts.old }
    ensures sound { AreSound M.Walker O.Object B.Object parts.new }
    ensures kept { (b : Beginning M.Config O.Made B.Made) → IsKept (rules M.Walker O.Object B.Object) b (moment M.Walker O.Object B.Object parts.old)
        → IsKept (rules M.Walker O.Object B.Object) b (moment M.Walker O.Object B.Object parts.new) }
    ensures over { OnOk result (GoesNoFurther (rules M.Walker O.Object B.Object) (moment M.Walker O.Object B.Object parts.new)) }
    ensures on { OnOk result (RunsOn (rules M.Walker O.Object B.Object) (Rotate 0) (moment M.Walker O.Object B.Object parts.old) (moment M.Walker O.Object B.Object parts.new)) }
{
    parts.run_order(&mut Choices::Rotate { last: 0 })?;
    Ok(())
}

/// The end of the run of these parts from where they are, by rotation where no step has ended it, and its report with
/// these names of the coarrays. Condition: the traces of a run of which the parts are a moment are lawful for some
/// coarrays.
pub fn report_rest<M: Walker, O: Inert, B: Inert>(
    alloc: Global,
    parts: &mut PartsOf<M, O, B>,
    names: Listing<Text>,
) -> Result<Report, NoMemory>
    requires sound { AreSound M.Walker O.Object B.Object parts.old }
    requires lawful { (b : Beginning M.Config O.Made B.Made) × (coarrays : List Declared) × IsKept (rules M.Walker O.Object B.Object) b (moment M.Walker O.Object B.Object parts.old)
        × AreLawful (rules M.Walker O.Object B.Object) b coarrays }
    // It is that of each run of which the parts are a moment.
    ensures report { IfOk result (λ report. (b : Beginning M.Config O.Made B.Made) (coarrays : List Declared)
        → IsKept (rules M.Walker O.Object B.Object) b (moment M.Walker O.Object B.Object parts.old)
        → EndByThemselves (rules M.Walker O.Object B.Object) b → AreLawful (rules M.Walker O.Object B.Object) b coarrays
        → IsRunReport (rules M.Walker O.Object B.Object) b coarrays None report) }
    ensures has_end { IfOk result HasEnd }
    ensures names { IfOk result (λ report. report.names ≡ names) }
    // After it the parts are at the end of that run.
    ensures at_end { IfOk result (λ report. (b : Beginning M.Config O.Made B.Made)
        → IsKept (rules M.Walker O.Object B.Object) b (moment M.Walker O.Object B.Object parts.old)
        → IsEndMoment (rules M.Walker O.Object B.Object) b report.trace.entries (moment M.Walker O.Object B.Object parts.new)) }
    // The steps made are those of the rotation from where the parts were.
    ensures on { IfOk result (λ report. IsTraceOn (rules M.Walker O.Object B.Object) (Rotate 0) (moment M.Walker O.Object B.Object parts.old)
        (moment M.Walker O.Object B.Object parts.new) report.trace.entries) }
    ensures numbered { IfOk result (λ _. AreNumbered parts.new.images.items) }
{
    finish(parts)?;
    let report = report_here(alloc, parts, names)?;
    Ok(report)
}
