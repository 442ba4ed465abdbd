//! Cosubscripts, offsets and the cells of sections, on values worked out by hand.

ghost use Rattle.std.specs.Prelude.{◌≡◌};

use caf_base::short::Short;
use caf_base::span::Span;
use coarray_types::coshape::{CoShape, cosubscripts_of, image_of};
use coarray_types::section::section_cells;
use coarray_types::shape::{Shape, offset_of};
use std::alloc::Global;
use std::process::Abort;

fn coshape<R: Abort>(rt: &R, alloc: Global, lower: &[i64], extent: &[i64]) -> CoShape
    ensures lower { result.lower ≡ lower.now }
    ensures extent { result.extent ≡ extent.now }
{
    CoShape {
        lower: Short::from_slice(alloc, lower).expect(rt, "memory"),
        extent: Short::from_slice(alloc, extent).expect(rt, "memory"),
    }
}

fn shape<R: Abort>(rt: &R, alloc: Global, dims: &[(i64, i64)]) -> Shape
    ensures { result.dims ≡ dims.now }
{
    Shape {
        dims: Short::from_slice(alloc, dims).expect(rt, "memory"),
    }
}

fn span<R: Abort>(rt: &R, alloc: Global, start: u32, dims: &[(u32, i32)]) -> Span
    ensures start { result.start ≡ start }
    ensures dims { result.dims ≡ dims.now }
{
    Span {
        coarray: 1,
        start,
        dims: Short::from_slice(alloc, dims).expect(rt, "memory"),
    }
}

// integer :: x[0:1,*]
#[test]
fn two_codimensions(rt: HostRuntime) {
    let co = coshape(&rt, rt.alloc(), &[0, 1], &[2]);
    for (first, second, want) in [
        (0, 1, 1),
        (1, 1, 2),
        (0, 3, 5),
        (1, 3, 0),
        (2, 1, 0),
        (-1, 1, 0),
        (0, 0, 0),
        (0, i64::MAX, 0),
        (i64::MIN, 1, 0),
    ] {
        assert_eq!(rt;
            image_of(&co, &[first, second], 5),
            want,
            "at {first}, {second}"
        );
    }
    assert_eq!(rt; cosubscripts_of(&co, 5), [0, 3, 0]);
}

// integer :: y[-1:1,0:1,2:*], and the widest cobounds of kind 4
#[test]
fn one_and_three_codimensions(rt: HostRuntime) {
    let co = coshape(&rt, rt.alloc(), &[-1, 0, 2], &[3, 2]);
    assert_eq!(rt; image_of(&co, &[1, 1, 3], 12), 12);
    assert_eq!(rt; image_of(&co, &[1, 1, 3], 11), 0);
    assert_eq!(rt; cosubscripts_of(&co, 12), [1, 1, 3]);
    let least = coshape(&rt, rt.alloc(), &[-2_147_483_648], &[]);
    assert_eq!(rt; image_of(&least, &[-2_147_483_648], 64), 1);
    assert_eq!(rt; cosubscripts_of(&least, u32::MAX), [2_147_483_646, 0, 0]);
    let widest = coshape(&rt, rt.alloc(), &[-2_147_483_648, 1], &[4_294_967_296]);
    assert_eq!(rt; image_of(&widest, &[2_147_483_646, 1], u32::MAX), u32::MAX);
    assert_eq!(rt; image_of(&widest, &[2_147_483_647, 1], u32::MAX), 0);
}

// x(2,3,2); the bounds (-1:1, 0:1); a dimension without elements beside the widest ones
#[test]
fn offsets_are_in_array_element_order(rt: HostRuntime) {
    let x = shape(&rt, rt.alloc(), &[(1, 2), (1, 3), (1, 2)]);
    assert_eq!(rt; offset_of(&x, &[1, 1, 1]), Some(0));
    assert_eq!(rt; offset_of(&x, &[2, 1, 1]), Some(1));
    assert_eq!(rt; offset_of(&x, &[1, 3, 2]), Some(10));
    assert_eq!(rt; offset_of(&x, &[2, 3, 3]), None);
    assert_eq!(rt; offset_of(&x, &[0, 1, 1]), None);
    let below = shape(&rt, rt.alloc(), &[(-1, 1), (0, 1)]);
    assert_eq!(rt; offset_of(&below, &[-1, 1]), Some(3));
    assert_eq!(rt; offset_of(&below, &[i64::MIN, i64::MAX]), None);
    let all = (-2_147_483_648, 2_147_483_647);
    let none = shape(&rt, rt.alloc(), &[(1, 0), all, all]);
    assert_eq!(rt; offset_of(&none, &[1, 2_147_483_647, 0]), None);
    let scalar = shape(&rt, rt.alloc(), &[]);
    assert_eq!(rt; offset_of(&scalar, &[]), Some(0));
}

// x(:, 1:3:2, 2) of x(2,3,2)
#[test]
fn cells_of_a_section_are_in_array_element_order(rt: HostRuntime) {
    let section = span(&rt, rt.alloc(), 6, &[(2, 1), (2, 4)]);
    let cells = section_cells(rt.alloc(), &section).expect(&rt, "memory");
    assert_eq!(rt; cells.as_slice(), [6, 7, 10, 11].as_slice());
}
