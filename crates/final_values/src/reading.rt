//! The final values of a run.

ghost use Rattle.std.specs.Prelude.{◌≡◌, ◌++◌, length, IfOk, OnOk};
ghost use Rattle.image_lanes.specs.Lanes.{is_failure};
ghost use Rattle.final_values.specs.Finals as spec;

use crate::holding::held;
use crate::listing::Listed;
use caf_base::listing::{Listing, Text};
use caf_base::place::ImageNo;
use caf_base::refusal::NoMemory;
use caf_base::value::Value;
use caf_events::ask::Ask;
use caf_events::event::Event;
use caf_report::report::{Final, Report};
use coarray_memory::memory::Memory;
use image_core::run::ImageRun;
use image_lanes::lane::Lane;
use image_machine::machine::Machine;
use std::alloc::Global;

// Whether an ask begins a failure.
fn fails(ask: &Ask) -> bool
    ensures { result ≡ is_failure ask.now }
{
    matches!(ask, Ask::Fail)
}

// Whether an event began a failure.
fn began_failure(alloc: Global, event: &Event) -> bool
    ensures { result ≡ is_failure event.now.ask }
{
    let asked = event.told().ask(alloc);
    let fails = fails(&asked);
    drop(asked);
    fails
}

// Whether one of these events began a failure.
fn has_failed(alloc: Global, events: &[Event]) -> bool
    ensures { result ≡ spec.has_failed events.now }
{
    for event in events {
        if began_failure(alloc, event) {
            return true;
        }
    }
    false
}

// The final value of a variable with this name that holds these values.
fn final_with(alloc: Global, image: ImageNo, name: Text, held: Option<Listing<Value>>) -> Final
    ensures { result ≡ spec.final_with image.0 name held }
{
    match held {
        None => Final {
            image,
            name,
            is_allocated: false,
            values: Listing::new(alloc),
        },
        Some(values) => Final {
            image,
            name,
            is_allocated: true,
            values,
        },
    }
}

// The final value of a variable.
fn final_of(
    alloc: Global,
    image: ImageNo,
    machine: &Machine,
    memory: &Memory,
    listed: &Listed,
) -> Result<Final, NoMemory>
    ensures { IfOk result (λ f. f ≡ spec.final_of image.0 machine.now.state.core memory.now.made memory.now.history listed.now) }
{
    let name = listed.name.copy()?;
    let held = held(alloc, machine, memory, listed)?;
    Ok(final_with(alloc, image, name, held))
}

// Adds the final values of an image.
fn add_image(
    alloc: Global,
    finals: &mut Vec<Final>,
    image: ImageNo,
    machine: &Machine,
    memory: &Memory,
    listed: &[Listed],
) -> Result<(), NoMemory>
    ensures { OnOk result (finals.new.items ≡ finals.old.items ++ spec.image_finals listed.now image.0 machine.now.state.core memory.now.made memory.now.history) }
{
    for one in listed {
        finals.push(final_of(alloc, image, machine, memory, one)?)?;
    }
    Ok(())
}

// Adds those of an image of a run, if it hasn't failed.
fn add(
    alloc: Global,
    finals: &mut Vec<Final>,
    run: &ImageRun<Lane<Machine>>,
    memory: &Memory,
    listed: &[Listed],
) -> Result<(), NoMemory>
    ensures { OnOk result (finals.new.items ≡ finals.old.items ++ spec.own_finals listed.now run.now memory.now) }
{
    if has_failed(alloc, run.events()) {
        return Ok(());
    }
    add_image(
        alloc,
        finals,
        run.image(),
        run.machine().machine(),
        memory,
        listed,
    )
}

/// What these variables hold at the end of a run, by image in rising order: of the images that made no step of a
/// failure. Condition: there is a memory for each image, in the same order.
pub fn finals(
    alloc: Global,
    images: &[ImageRun<Lane<Machine>>],
    memories: &[Memory],
    listed: &[Listed],
) -> Result<Listing<Final>, NoMemory>
    requires { length images.now ≡ length memories.now }
    ensures { IfOk result (λ fs. fs ≡ spec.run_finals listed.now images.now memories.now) }
{
    let mut finals = Vec::new(alloc);
    for (k, run) in images.iter().enumerate() {
        add(alloc, &mut finals, run, &memories[k], listed)?;
    }
    Ok(Listing::from_vec(finals))
}

/// The report with these final values.
pub fn with_finals(report: Report, finals: Listing<Final>) -> Report
    ensures { result ≡ record report { finals = finals } }
{
    let Report {
        images,
        trace,
        end,
        names,
        finals: earlier,
    } = report;
    drop(earlier);
    Report {
        images,
        trace,
        end,
        names,
        finals,
    }
}
