//! Which drafts are refused. All heights are learned first, sweep by sweep; then one look at each place takes the first
//! bad one.

ghost use Rattle.std.specs.Prelude.{◌≡◌, ◌≢◌, ◌<◌, ◌≤◌, ◌+◌, ◌-◌, ◌⊎◌, ℕ, length, slice_get, slice_set, Some, None, IsTrue, IsFalse, IfSome, IfNone};
ghost use Rattle.image_code.specs.Draft.{shapes, nothing, Within, after, lead, leads, leads_on, leads_aside, IsLead, WayAt, LooksAt, LooksThrough, JumpsWell, Stays, Sound, Known, KnowsMore, AreHeights, IsFaulty, Meets, IsEndOrBad, Lowest, Judged};
ghost use Rattle.image_code.specs.declared.shape.Flow.TheVariants as flows;

use crate::shape::{Flow, Height, Shape, step_shape};
use crate::step::Step;

/// A place where an instruction goes on, and what stands on the stack there.
#[derive(Clone, Copy)]
pub(crate) struct Lead {
    pub place: usize,
    pub height: Height,
}

/// A way on.
#[derive(Clone, Copy)]
pub(crate) enum Found {
    Nowhere,
    To(Lead),
    Full,
}

/// Whether heights are known wherever those that are known lead to.
#[derive(Clone, Copy)]
pub(crate) enum Search {
    Closed,
    New(Lead),
    Full,
}

/// What was found of a draft.
#[derive(Clone, Copy)]
pub(crate) enum Verdict {
    Fine,
    Bad(usize),
    Full,
}

/// How long the code is.
fn size(code: &[Step]) -> usize
    ensures { result ≡ length (shapes code.now) }
{
    code.len()
}

/// The shape of the instruction at a place.
fn shape_at(code: &[Step], p: usize) -> Shape
    requires { p < length (shapes code.now) }
    ensures { slice_get (shapes code.now) p ≡ Some result }
{
    let step = step_at(code, p);
    step_shape(step)
}

/// The instruction at a place.
fn step_at(code: &[Step], p: usize) -> Step
    requires { p < length code.now }
    ensures { slice_get code.now p ≡ Some result }
{
    code[p]
}

/// The height at a place, where it is known.
fn height_at(heights: &[Option<Height>], p: usize) -> Option<Height>
    requires { p < length heights.now }
    ensures { slice_get heights.now p ≡ Some result }
{
    heights[p]
}

fn set(heights: &mut [Option<Height>], q: usize, h: Height)
    requires { q < length heights.old }
    ensures { heights.new ≡ slice_set heights.old q (Some h) }
{
    heights[q] = Some(h);
}

/// Whether there is no more of each part than that.
fn within(a: Height, b: Height) -> bool
    ensures well { IsTrue result → Within a b }
    ensures not { IsFalse result → Within a b → ⊥ }
{
    a.numbers <= b.numbers && a.arrays <= b.arrays && a.texts <= b.texts
}

/// Whether two heights are alike.
fn same(h: Height, k: Height) -> bool
    ensures well { IsTrue result → h ≡ k }
    ensures not { IsFalse result → h ≢ k }
{
    h.numbers == k.numbers && h.arrays == k.arrays && h.texts == k.texts
}

/// What stands there after an instruction, if it can be counted in 64 bits.
fn height_after(s: Shape, h: Height) -> Option<Height>
    requires { Within s.takes h }
    ensures { IfSome result (λ k. k ≡ after s h) }
{
    Some(Height {
        numbers: (h.numbers - s.takes.numbers).checked_add(s.leaves.numbers)?,
        arrays: (h.arrays - s.takes.arrays).checked_add(s.leaves.arrays)?,
        texts: (h.texts - s.takes.texts).checked_add(s.leaves.texts)?,
    })
}

/// Whether a jump from p to q stays in the code, and goes back to a count alone.
fn jumps_well(code: &[Step], p: usize, q: u32) -> bool
    ensures well { IsTrue result → JumpsWell (shapes code.now) p q }
    ensures not { IsFalse result → JumpsWell (shapes code.now) p q → ⊥ }
{
    let to = q as usize;
    if to >= size(code) {
        return false;
    }
    if p < to {
        return true;
    }
    let target = shape_at(code, to);
    target.counts
}

/// Whether the way on from here is in the code, by this instruction alone.
fn stays(code: &[Step], p: usize, flow: Flow) -> bool
    requires { p < length (shapes code.now) }
    ensures well { IsTrue result → Stays (shapes code.now) p flow }
    ensures not { IsFalse result → Stays (shapes code.now) p flow → ⊥ }
{
    let end = size(code);
    match flow {
        Flow::On => end - p > 1,
        Flow::Jump(q) => jumps_well(code, p, q),
        Flow::Branch(q) => end - p > 1 && jumps_well(code, p, q),
        Flow::Skip(n) => end - p - 1 > n as usize,
        Flow::SkipIf(n) => end - p > 1 && end - p - 1 > n as usize,
        Flow::Call(q) => end - p > 1 && (q as usize) < end,
        Flow::Back | Flow::End => true,
    }
}

/// A place, if it is before the end.
fn before(end: usize, q: usize, h: Height) -> Option<Lead>
    ensures { IsLead end (Some (lead q h)) result }
{
    if q < end {
        Some(Lead {
            place: q,
            height: h,
        })
    } else {
        None
    }
}

/// A place so many behind the next one, if it is before the end.
fn skipped(end: usize, p: usize, n: u32, h: Height) -> Option<Lead>
    requires { p < end }
    ensures { IsLead end (Some (lead (p + 1 + n) h)) result }
{
    if (n as usize) < end - p - 1 {
        Some(Lead {
            place: p + 1 + n as usize,
            height: h,
        })
    } else {
        None
    }
}

/// Where an instruction goes on.
fn on_from(end: usize, p: usize, flow: Flow, h: Height) -> Option<Lead>
    requires { p < end }
    ensures { IsLead end (leads_on p flow h) result }
{
    match flow {
        Flow::On | Flow::Branch(_) | Flow::SkipIf(_) | Flow::Call(_) => before(end, p + 1, h),
        Flow::Jump(q) => before(end, q as usize, h),
        Flow::Skip(n) => skipped(end, p, n, h),
        Flow::Back | Flow::End => None,
    }
}

/// Its second way on.
fn aside_from(end: usize, p: usize, flow: Flow, h: Height) -> Option<Lead>
    requires { p < end }
    ensures { IsLead end (leads_aside p flow h) result }
{
    match flow {
        Flow::Branch(q) => before(end, q as usize, h),
        Flow::SkipIf(n) => skipped(end, p, n, h),
        Flow::Call(q) => before(
            end,
            q as usize,
            Height {
                numbers: 0,
                arrays: 0,
                texts: 0,
            },
        ),
        Flow::On | Flow::Jump(_) | Flow::Skip(_) | Flow::Back | Flow::End => None,
    }
}

/// One of the two.
fn lead_from(aside: bool, end: usize, p: usize, flow: Flow, h: Height) -> Option<Lead>
    requires { p < end }
    ensures { IsLead end (leads aside p flow h) result }
{
    if aside {
        aside_from(end, p, flow, h)
    } else {
        on_from(end, p, flow, h)
    }
}

/// A way on from p, under the height that is known there.
fn way(code: &[Step], heights: &[Option<Height>], p: usize, aside: bool) -> Found
    requires within { p < length (shapes code.now) }
    requires long { length heights.now ≡ length (shapes code.now) }
    ensures { WayAt (shapes code.now) heights.now p aside result }
{
    let end = size(code);
    let s = shape_at(code, p);
    let h = match height_at(heights, p) {
        None => return Found::Nowhere,
        Some(h) => h,
    };
    if !within(s.takes, h) {
        return Found::Nowhere;
    }
    let k = match height_after(s, h) {
        None => return Found::Full,
        Some(k) => k,
    };
    match lead_from(aside, end, p, s.flow, k) {
        None => Found::Nowhere,
        Some(l) => Found::To(l),
    }
}

/// Whether the height is known where that way leads to.
fn look(code: &[Step], heights: &[Option<Height>], p: usize, aside: bool) -> Search
    requires within { p < length (shapes code.now) }
    requires long { length heights.now ≡ length (shapes code.now) }
    ensures { LooksAt (shapes code.now) heights.now p aside result }
{
    match way(code, heights, p, aside) {
        Found::Nowhere => Search::Closed,
        Found::Full => Search::Full,
        Found::To(l) => match height_at(heights, l.place) {
            None => Search::New(l),
            Some(_) => Search::Closed,
        },
    }
}

/// Whether it is known wherever a known one leads to.
fn look_through(code: &[Step], heights: &[Option<Height>]) -> Search
    requires { length heights.now ≡ length (shapes code.now) }
    ensures { LooksThrough (shapes code.now) heights.now result }
{
    let end = size(code);
    for p in 0..end {
        match look(code, heights, p, false) {
            Search::Closed => {}
            Search::New(l) => return Search::New(l),
            Search::Full => return Search::Full,
        }
        match look(code, heights, p, true) {
            Search::Closed => {}
            Search::New(l) => return Search::New(l),
            Search::Full => return Search::Full,
        }
    }
    Search::Closed
}

/// Learns the height where one way leads to, if none is known.
fn learn(code: &[Step], heights: &mut [Option<Height>], p: usize, aside: bool)
    requires within { p < length (shapes code.now) }
    requires long { length heights.old ≡ length (shapes code.now) }
    ensures { KnowsMore (shapes code.now) heights.old heights.new }
{
    match look(code, heights, p, aside) {
        Search::New(l) => set(heights, l.place, l.height),
        Search::Closed | Search::Full => {}
    }
}

/// Learns heights from the first place to the last one.
fn sweep(code: &[Step], heights: &mut [Option<Height>])
    requires { length heights.old ≡ length (shapes code.now) }
    ensures { KnowsMore (shapes code.now) heights.old heights.new }
{
    let end = size(code);
    for p in 0..end {
        learn(code, heights, p, false);
        learn(code, heights, p, true);
    }
}

/// Learns all heights; false where one is beyond 64 bits.
fn close(code: &[Step], heights: &mut [Option<Height>]) -> bool
    requires long { length heights.old ≡ length (shapes code.now) }
    requires sound { Sound (shapes code.now) heights.old }
    requires first { Known heights.old 0 nothing }
    ensures { IsTrue result → AreHeights (shapes code.now) heights.new }
{
    'passes: loop {
        sweep(code, heights);
        match look_through(code, heights) {
            Search::New(l) => set(heights, l.place, l.height),
            Search::Closed => return true,
            Search::Full => return false,
        }
    }
}

/// Whether the instruction at p is bad by itself.
fn faulty(code: &[Step], heights: &[Option<Height>], p: usize) -> bool
    requires within { p < length (shapes code.now) }
    requires long { length heights.now ≡ length (shapes code.now) }
    ensures well { IsTrue result → IsFaulty (shapes code.now) heights.now p }
    ensures not { IsFalse result → IsFaulty (shapes code.now) heights.now p → ⊥ }
{
    let s = shape_at(code, p);
    if !stays(code, p, s.flow) {
        return true;
    }
    let h = match height_at(heights, p) {
        None => return false,
        Some(h) => h,
    };
    if !within(s.takes, h) {
        return true;
    }
    goes_back(s.flow)
        && !same(
            h,
            Height {
                numbers: 0,
                arrays: 0,
                texts: 0,
            },
        )
}

/// Whether an instruction goes back behind a call.
fn goes_back(flow: Flow) -> bool
    ensures well { IsTrue result → flow ≡ flows.Back }
    ensures not { IsFalse result → flow ≢ flows.Back }
{
    match flow {
        Flow::Back => true,
        Flow::On
        | Flow::Jump(_)
        | Flow::Branch(_)
        | Flow::Skip(_)
        | Flow::SkipIf(_)
        | Flow::Call(_)
        | Flow::End => false,
    }
}

/// The lesser of `least` and a place where a way on from p comes with another height than the one that is known there.
fn meeting(
    code: &[Step],
    heights: &[Option<Height>],
    p: usize,
    aside: bool,
    least: usize,
) -> Option<usize>
    requires within { p < length (shapes code.now) }
    requires long { length heights.now ≡ length (shapes code.now) }
    requires bad { IsEndOrBad (shapes code.now) heights.now least }
    ensures { IfSome result (λ q. IsEndOrBad (shapes code.now) heights.now q × (q ≤ least) × ((r : ℕ) → Meets (shapes code.now) heights.now p aside r → q ≤ r)) }
{
    let l = match way(code, heights, p, aside) {
        Found::Nowhere => return Some(least),
        Found::Full => return None,
        Found::To(l) => l,
    };
    let known = match height_at(heights, l.place) {
        None => return Some(least),
        Some(k) => k,
    };
    if l.place >= least || same(known, l.height) {
        return Some(least);
    }
    Some(l.place)
}

/// The lesser of `least` and p, where p is bad by itself.
fn fault(code: &[Step], heights: &[Option<Height>], p: usize, least: usize) -> usize
    requires within { p < length (shapes code.now) }
    requires long { length heights.now ≡ length (shapes code.now) }
    requires bad { IsEndOrBad (shapes code.now) heights.now least }
    ensures bad { IsEndOrBad (shapes code.now) heights.now result }
    ensures less { result ≤ least }
    ensures least { IsFaulty (shapes code.now) heights.now p → result ≤ p }
{
    if p < least && faulty(code, heights, p) {
        return p;
    }
    least
}

/// The least of `least` and the places that a look at p finds bad.
fn lower(code: &[Step], heights: &[Option<Height>], p: usize, least: usize) -> Option<usize>
    requires within { p < length (shapes code.now) }
    requires long { length heights.now ≡ length (shapes code.now) }
    requires bad { IsEndOrBad (shapes code.now) heights.now least }
    ensures { IfSome result (λ q. IsEndOrBad (shapes code.now) heights.now q × (q ≤ least) × Lowest (shapes code.now) heights.now p q) }
{
    let a = fault(code, heights, p, least);
    let b = match meeting(code, heights, p, false, a) {
        None => return None,
        Some(b) => b,
    };
    match meeting(code, heights, p, true, b) {
        None => None,
        Some(q) => Some(q),
    }
}

/// The first bad place under these heights.
fn first_bad(code: &[Step], heights: &[Option<Height>]) -> Verdict
    requires { AreHeights (shapes code.now) heights.now }
    ensures { Judged (shapes code.now) heights.now result }
{
    let end = size(code);
    let mut least = end;
    for p in 0..end {
        match lower(code, heights, p, least) {
            None => return Verdict::Full,
            Some(q) => least = q,
        }
    }
    if least < end {
        Verdict::Bad(least)
    } else {
        Verdict::Fine
    }
}

/// Whether a draft has a bad instruction. At place 0 nothing stands on the stack.
pub(crate) fn judge(code: &[Step], heights: &mut [Option<Height>]) -> Verdict
    requires long { length heights.old ≡ length (shapes code.now) }
    requires sound { Sound (shapes code.now) heights.old }
    requires first { Known heights.old 0 nothing }
    ensures { Judged (shapes code.now) heights.new result }
{
    if !close(code, heights) {
        return Verdict::Full;
    }
    first_bad(code, heights)
}
