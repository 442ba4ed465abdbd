//! The groups of those who give one team number.

ghost use Rattle.std.specs.Prelude.{◌≡◌, ◌+◌, ◌<◌, ◌≤◌, ◌^◌, pos, length, filter, IfOk, int_lt, int_le};
ghost use Rattle.std.specs.List.{list_any, list_all, range_with_len};
ghost use Rattle.std.specs.Ordering.{int_eq};
ghost use Rattle.object_rules.specs.FormedTeams.{is_indexed as is_indexed_by};
ghost use Rattle.team_tree.specs.Args.{plain_args};

use crate::arg::FormArg;
use crate::numbers::gives;
use caf_base::refusal::NoMemory;
use std::alloc::Global;

/// Those who give the same number as this one.
pub(crate) fn group_with(
    alloc: Global,
    giver: &FormArg,
    args: &[FormArg],
) -> Result<Vec<FormArg>, NoMemory>
    ensures group { IfOk result (λ v. v.items ≡ filter (λ a. int_eq a.number giver.now.number) args.now) }
    ensures few { IfOk result (λ v. length v.items ≤ length args.now) }
{
    let mut group = Vec::new(alloc);
    for arg in args {
        if gives(arg, giver) {
            group.push(*arg)?;
        }
    }
    Ok(group)
}

// Whether the argument gives this NEW_INDEX, or with 0 none.
fn has_index(arg: &FormArg, index: usize) -> bool
    requires { index < 2 ^ 33 }
    ensures { result ≡ int_eq arg.now.new_index (pos index) }
{
    arg.new_index == index as i64
}

// Whether one of the group gives this NEW_INDEX.
fn is_given(group: &[FormArg], index: usize) -> bool
    requires { index < 2 ^ 33 }
    ensures { result ≡ list_any (λ a. int_eq a.new_index (pos index)) group.now }
{
    let mut found = false;
    for arg in group {
        if has_index(arg, index) {
            found = true;
        }
    }
    found
}

// Whether none of the group gives a NEW_INDEX.
fn is_without(group: &[FormArg]) -> bool
    ensures { result ≡ list_all (λ a. int_eq a.new_index (pos 0)) group.now }
{
    let mut all = true;
    for arg in group {
        if !has_index(arg, 0) {
            all = false;
        }
    }
    all
}

// Whether each NEW_INDEX from 1 to the group's size is given.
fn is_permutation(group: &[FormArg]) -> bool
    requires { length group.now < 2 ^ 32 }
    ensures { result ≡ list_all (λ k. list_any (λ a. int_eq a.new_index (pos k)) group.now) (range_with_len 1 (length group.now)) }
{
    let mut all = true;
    for k in 0..group.len() {
        if !is_given(group, k + 1) {
            all = false;
        }
    }
    all
}

/// Whether the NEW_INDEXes of a group are fine: none is given, or they are a permutation of 1 to the group's size.
pub(crate) fn is_indexed(group: &[FormArg]) -> bool
    requires { length group.now < 2 ^ 32 }
    ensures { result ≡ is_indexed_by (plain_args group.now) }
{
    is_without(group) || is_permutation(group)
}

// Whether the argument's number is below 1.
fn is_low(arg: &FormArg) -> bool
    ensures { result ≡ int_lt arg.now.number (pos 1) }
{
    arg.number < 1
}

/// Whether a number below 1 is given.
pub(crate) fn has_low(args: &[FormArg]) -> bool
    ensures { result ≡ list_any (λ a. int_lt a.number (pos 1)) args.now }
{
    let mut found = false;
    for arg in args {
        if is_low(arg) {
            found = true;
        }
    }
    found
}

/// Whether the argument's number is a team number.
pub(crate) fn is_positive(arg: &FormArg) -> bool
    ensures { result ≡ int_le (pos 1) arg.now.number }
{
    1 <= arg.number
}
