//! How often an image has made steps of a kind, and whether it has ended.

ghost use Rattle.std.specs.Prelude.{◌≡◌, IfOk};
ghost use Rattle.object_rules.specs.Happenings.{control, images, happened, has_stopped, has_ended, numbers_of};
ghost use Rattle.object_rules.specs.ImagePairs as object;
ghost use Rattle.wait_chain.specs.Counts.{joins, gathers, is_naming, is_stop, is_end, is_step, tally, named_by};

use caf_base::place::ImageNo;
use caf_base::refusal::NoMemory;
use caf_events::ask::Ask;
use caf_events::event::Entry;
use caf_events::reply::Reply;
use std::alloc::Global;

/// A kind of step: an image joins a round of a team by an image control statement or by a collective subroutine, or
/// begins a SYNC IMAGES that names another image.
#[derive(Clone, Copy)]
pub enum Step {
    Joins { team: u32, image: u32 },
    Gathers { team: u32, image: u32 },
    Names { image: u32, other: u32 },
}

// Whether the ask joins a round of the team by an image control statement.
fn joins(team: u32, ask: &Ask, reply: &Reply) -> bool
    ensures { result ≡ joins team ask.now reply.now }
{
    match ask {
        Ask::Arrive { team: other, .. } => matches!(reply, Reply::Round { .. }) && other.0 == team,
        _ => false,
    }
}

// The same by a collective subroutine.
fn gathers(team: u32, ask: &Ask, reply: &Reply) -> bool
    ensures { result ≡ gathers team ask.now reply.now }
{
    match ask {
        Ask::Gather { team: other, .. } => matches!(reply, Reply::Round { .. }) && other.0 == team,
        _ => false,
    }
}

/// Whether the image is one of these.
pub(crate) fn contains(images: &[u32], image: u32) -> bool
    ensures { result ≡ object.names image images.now }
{
    for other in images {
        if image == *other {
            return true;
        }
    }
    false
}

/// The same of images by their numbers.
pub(crate) fn names(images: &[ImageNo], image: u32) -> bool
    ensures { result ≡ object.names image (numbers_of images.now) }
{
    for other in images {
        if image == other.0 {
            return true;
        }
    }
    false
}

// Whether the ask begins a SYNC IMAGES that names the image.
fn is_naming(image: u32, ask: &Ask) -> bool
    ensures { result ≡ is_naming image ask.now }
{
    match ask {
        Ask::Pair { images } => names(images.as_slice(), image),
        _ => false,
    }
}

// Whether an ask with its reply, of this image, is such a step.
fn is_step(step: Step, by: ImageNo, ask: &Ask, reply: &Reply, _e: &Entry) -> bool
    requires { (by ≡ _e.now.image) × (ask.now ≡ _e.now.event.ask) × (reply.now ≡ _e.now.event.reply) }
    ensures { result ≡ is_step step _e.now }
{
    match step {
        Step::Joins { team, image } => joins(team, ask, reply) && by.0 == image,
        Step::Gathers { team, image } => gathers(team, ask, reply) && by.0 == image,
        Step::Names { image, other } => by.0 == image && is_naming(other, ask),
    }
}

// Whether the entry is such a step.
fn makes(alloc: Global, step: Step, e: &Entry) -> bool
    ensures { result ≡ is_step step e.now }
{
    let ask = e.event.told().ask(alloc);
    let reply = e.event.reply(alloc);
    let made = is_step(step, e.image, &ask, &reply, e);
    drop(ask);
    drop(reply);
    made
}

/// How many such steps there are.
pub(crate) fn tally(alloc: Global, step: Step, before: &[Entry]) -> u64
    ensures { result ≡ tally step before.now }
{
    let mut count = 0u64;
    for e in before {
        if makes(alloc, step, e) {
            count += 1;
        }
    }
    count
}

// Whether an image has stopped, or failed, by this ask.
fn is_end(ask: &Ask) -> bool
    ensures { result ≡ is_end ask.now }
{
    matches!(ask, Ask::Stop { .. } | Ask::Gone)
}

// Whether the entry's image has stopped, or failed, by it.
fn ends(alloc: Global, e: &Entry) -> bool
    ensures { result ≡ is_end e.now.event.ask }
{
    let ask = e.event.told().ask(alloc);
    let is = is_end(&ask);
    drop(ask);
    is
}

/// Whether the image has stopped, or has failed.
pub(crate) fn has_ended(alloc: Global, image: u32, before: &[Entry]) -> bool
    ensures { result ≡ has_ended image (happened control before.now) }
{
    for e in before {
        if e.image.0 == image && ends(alloc, e) {
            return true;
        }
    }
    false
}

// Whether the entry's image has stopped by it.
fn stops(alloc: Global, e: &Entry) -> bool
    ensures { result ≡ is_stop e.now.event.ask }
{
    let ask = e.event.told().ask(alloc);
    let is = matches!(&*ask, Ask::Stop { .. });
    drop(ask);
    is
}

/// Whether the image has stopped.
pub(crate) fn has_stopped(alloc: Global, image: u32, before: &[Entry]) -> bool
    ensures { result ≡ has_stopped image (happened control before.now) }
{
    for e in before {
        if e.image.0 == image && stops(alloc, e) {
            return true;
        }
    }
    false
}

/// The numbers of these images.
pub(crate) fn numbers(alloc: Global, images: &[ImageNo]) -> Result<Vec<u32>, NoMemory>
    ensures { IfOk result (λ v. v.items ≡ numbers_of images.now) }
{
    Ok(images.iter().map(|i| i.0).collect(alloc)?)
}

// Keeps the images that image `image` names by this ask of an image.
fn keep_named(
    alloc: Global,
    image: u32,
    by: ImageNo,
    ask: &Ask,
    named: &mut Vec<u32>,
) -> Result<(), NoMemory>
    ensures { IfOk result (λ _. named.new.items ≡ named_by image by.0 ask.now named.old.items) }
{
    match ask {
        Ask::Pair { images } if by.0 == image => {
            *named = numbers(alloc, images.as_slice())?;
            Ok(())
        }
        _ => Ok(()),
    }
}

// The same of the entry's ask.
fn keep(alloc: Global, image: u32, e: &Entry, named: &mut Vec<u32>) -> Result<(), NoMemory>
    ensures { IfOk result (λ _. named.new.items ≡ named_by image e.now.image.0 e.now.event.ask named.old.items) }
{
    let ask = e.event.told().ask(alloc);
    let kept = keep_named(alloc, image, e.image, &ask, named);
    drop(ask);
    kept
}

/// The images that the image named in its last SYNC IMAGES.
pub(crate) fn named(alloc: Global, image: u32, before: &[Entry]) -> Result<Vec<u32>, NoMemory>
    ensures { IfOk result (λ v. v.items ≡ object.last_named image (happened images before.now)) }
{
    let mut named = Vec::new(alloc);
    for e in before {
        keep(alloc, image, e, &mut named)?;
    }
    Ok(named)
}
