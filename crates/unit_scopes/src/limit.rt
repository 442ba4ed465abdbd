//! Rule 30, a limit of this profile: static coarrays, or local variables of the main program, of more than 65,536
//! cells.

ghost use Rattle.std.specs.Prelude.{◌≡◌, ◌≤◌, ◌*◌, ◌+◌, true, map};
ghost use Rattle.coarray_types.specs.Places.{extent_of};
ghost use Rattle.rule_definitions.specs.Constants.{all_bounds};
ghost use Rattle.rule_definitions.specs.Declarations.{cells_breaks, cells_of, limit_breaks, passing_breaks};
ghost use Rattle.rule_definitions.specs.Judgements.{first_of};
ghost use Rattle.rule_definitions.specs.Names.{variables_of};
ghost use Rattle.scope_table.specs.Symbols.{entry, symbol as symbol_seen};
ghost use Rattle.unit_scopes.specs.Limits.{capped, cells_from, chosen, is_chosen, next_breaks, next_sum, with_extent};

use caf_base::limits::COARRAY_CELLS;
use caf_base::place::Pos;
use rule_definitions::broken::Broken;
use rule_definitions::rule;
use scope_table::broken::note;
use scope_table::symbol::{Entry, KnownBounds, Symbol};
use scope_table::table::Table;

/// The most cells that static coarrays may have, and as many may the local variables of the main program.
const LIMIT: u64 = COARRAY_CELLS as u64;

// How many subscripts lie between bounds.
fn extent_between(bounds: (i64, i64)) -> u64
    ensures extent { result ≡ capped (extent_of bounds) }
    ensures below { result ≤ 65537 }
{
    let (lower, upper) = bounds;
    if upper < lower {
        return 0;
    }
    let distance = upper.abs_diff(lower);
    if distance >= LIMIT {
        return LIMIT + 1;
    }
    distance + 1
}

fn product(one: u64, other: u64) -> u64
    requires one { one ≤ 65537 }
    requires other { other ≤ 65537 }
    ensures product { result ≡ capped (one * other) }
    ensures below { result ≤ 65537 }
{
    let all = one * other;
    if all > LIMIT {
        return LIMIT + 1;
    }
    all
}

fn sum(one: u64, other: u64) -> u64
    requires one { one ≤ 65537 }
    requires other { other ≤ 65537 }
    ensures sum { result ≡ capped (one + other) }
    ensures below { result ≤ 65537 }
{
    let all = one + other;
    if all > LIMIT {
        return LIMIT + 1;
    }
    all
}

// So many cells times those of one dimension more; none where its bounds are unknown.
fn with_dimension(all: u64, next: &KnownBounds) -> u64
    requires { all ≤ 65537 }
    ensures cells { result ≡ with_extent all next.now }
    ensures below { result ≤ 65537 }
{
    match next {
        Some(known) => product(all, extent_between(*known)),
        None => 0,
    }
}

// The cells between bounds, where they are all known.
fn cells_between(bounds: &[KnownBounds]) -> u64
    ensures cells { result ≡ cells_from 1 (all_bounds bounds.now) }
    ensures below { result ≤ 65537 }
{
    let mut all: u64 = 1;
    for next in bounds {
        let more = with_dimension(all, next);
        all = more;
    }
    all
}

// The cells of a variable.
fn cells(symbol: &Symbol) -> u64
    ensures cells { result ≡ capped (cells_of (symbol_seen symbol.now)) }
    ensures below { result ≤ 65537 }
{
    if symbol.is_allocatable {
        return 0;
    }
    cells_between(symbol.bounds.as_slice())
}

// Notes the variable that passes the limit.
fn note_passing(first: &mut Option<Broken>, sum: u64, more: u64, at: Pos)
    ensures { first.new ≡ first_of first.old (passing_breaks sum more at) }
{
    if sum > LIMIT {
        return;
    }
    if more > LIMIT - sum {
        note(first, rule::TOO_MANY_CELLS, at);
    }
}

fn is_coarray(symbol: &Symbol) -> bool
    ensures { result ≡ is_chosen true (symbol_seen symbol.now) }
{
    symbol.corank != 0
}

fn is_meant(symbol: &Symbol, of_coarrays: bool) -> bool
    ensures { result ≡ is_chosen of_coarrays (symbol_seen symbol.now) }
{
    if of_coarrays {
        return is_coarray(symbol);
    }
    symbol.corank == 0
}

// The next entry, behind variables of so many cells; how many there are behind it.
#[tactic(auto, using(crate::proofs::Caps::passing_capped, crate::proofs::Caps::sum_capped))]
fn judge_next(first: &mut Option<Broken>, passed: u64, next: &Entry, of_coarrays: bool) -> u64
    requires { passed ≤ 65537 }
    ensures first { first.new ≡ first_of first.old (next_breaks of_coarrays passed next.now) }
    ensures sum { result ≡ next_sum of_coarrays passed next.now }
    ensures below { result ≤ 65537 }
{
    let Entry::Variable(symbol) = next else {
        return passed;
    };
    if !is_meant(symbol, of_coarrays) {
        return passed;
    }
    let more = cells(symbol);
    note_passing(first, passed, more, symbol.at);
    sum(passed, more)
}

// The coarrays, or the variables that are none.
fn judge_cells(first: &mut Option<Broken>, entries: &[Entry], of_coarrays: bool)
    ensures { first.new ≡ first_of first.old (cells_breaks 0 (chosen of_coarrays (variables_of (map entry entries.now)))) }
{
    let mut passed: u64 = 0;
    for next in entries {
        let sum = judge_next(first, passed, next, of_coarrays);
        passed = sum;
    }
}

/// Rule 30: the variable of the main program that passes the limit, at its name; coarrays and other variables apart.
pub fn judge_limits(first: &mut Option<Broken>, own: &Table)
    ensures { first.new ≡ first_of first.old (limit_breaks (variables_of own.now)) }
{
    let entries = own.entries();
    judge_cells(first, entries, true);
    judge_cells(first, entries, false);
}
