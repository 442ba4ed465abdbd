//! The start of the neighbour read: `integer :: x[*]`, `x = this_image()`, `sync all`,
//! `if (this_image() == 1) print *, x[4]`, `end`.

use caf_base::listing::{Listing, Text};
use caf_base::place::ImageNo;
use caf_base::short::Short;
use caf_base::value::Kind;
use checked_tree::data::{Codimensions, DataType, Dimensions, Initial, Object, Variable};
use checked_tree::expr::{
    Designator, ExprForm, Intrinsic, RelationalOperator, SelectedTeam, Selector, TypedExpr,
};
use checked_tree::format::Format;
use checked_tree::program::{Checked, Unit};
use checked_tree::statement::{Item, StatementForm, TypedStatement};
use coarray_types::coshape::CoShape;
use coarray_types::shape::Shape;
use std::alloc::Global;
use std::process::Abort;
use tree_meaning::start::first;

const INTEGER: DataType = DataType::Intrinsic(Kind::I4);

const LOGICAL: DataType = DataType::Intrinsic(Kind::L4);

fn list<R: Abort, T: Drop>(rt: &R, alloc: Global, item: T) -> Vec<T> {
    let mut items = Vec::with_capacity(alloc, 1).expect(rt, "memory");
    items.push_reserved(item);
    items
}

fn boxed<R: Abort, T: Drop>(rt: &R, alloc: Global, item: T) -> Box<T> {
    Box::new(alloc, item).expect(rt, "memory")
}

fn integer(form: ExprForm) -> TypedExpr {
    TypedExpr {
        form,
        of_type: INTEGER,
        rank: 0,
    }
}

fn this_image() -> TypedExpr {
    integer(ExprForm::Intrinsic(Intrinsic::ThisImage { team: None }))
}

fn x(alloc: Global, selector: Option<Selector>) -> Designator {
    Designator {
        object: Object::Coarray(0),
        subscripts: Vec::new(alloc),
        selector,
    }
}

fn statement(form: StatementForm, line: u32) -> TypedStatement {
    TypedStatement { form, line }
}

// `print *, x[4]`
fn print<R: Abort>(rt: &R, alloc: Global) -> TypedStatement {
    let selector = Selector {
        cosubscripts: list(rt, alloc, integer(ExprForm::Number(4))),
        team: SelectedTeam::Current,
        stat: None,
    };
    let value = integer(ExprForm::Designator(x(alloc, Some(selector))));
    let items = list(rt, alloc, Item::Value(value));
    let form = StatementForm::Print {
        format: Format::Free,
        items,
    };
    statement(form, 4)
}

// `if (this_image() == 1) print *, x[4]`
fn one_line_if<R: Abort>(rt: &R, alloc: Global) -> TypedStatement {
    let relation = ExprForm::Relation {
        operator: RelationalOperator::Equal,
        left: boxed(rt, alloc, this_image()),
        right: boxed(rt, alloc, integer(ExprForm::Number(1))),
    };
    let condition = TypedExpr {
        form: relation,
        of_type: LOGICAL,
        rank: 0,
    };
    let form = StatementForm::If {
        condition,
        body: list(rt, alloc, print(rt, alloc)),
        else_ifs: Vec::new(alloc),
        otherwise: Vec::new(alloc),
    };
    statement(form, 4)
}

fn statements<R: Abort>(rt: &R, alloc: Global) -> Vec<TypedStatement> {
    let assign = StatementForm::Assign {
        variable: x(alloc, None),
        of_type: INTEGER,
        rank: 0,
        value: this_image(),
    };
    let mut all = Vec::with_capacity(alloc, 3).expect(rt, "memory");
    all.push_reserved(statement(assign, 2));
    all.push_reserved(statement(StatementForm::SyncAll { stat: None }, 3));
    all.push_reserved(one_line_if(rt, alloc));
    all
}

// `integer :: x[*]`
fn variable<R: Abort>(rt: &R, alloc: Global) -> Variable {
    let lower = Short::from_slice(alloc, &[1]).expect(rt, "memory");
    let coshape = CoShape {
        lower,
        extent: Short::new(alloc),
    };
    Variable {
        name: Text::from_slice(alloc, b"x").expect(rt, "memory"),
        of_type: INTEGER,
        dimensions: Dimensions::Explicit(Shape {
            dims: Short::new(alloc),
        }),
        codimensions: Codimensions::Explicit(coshape),
        is_allocatable: false,
        initial: Initial::Unstated,
    }
}

fn neighbour_read<R: Abort>(rt: &R, alloc: Global) -> Checked {
    let main = Unit {
        variables: list(rt, alloc, variable(rt, alloc)),
        hidden: 0,
        statements: statements(rt, alloc),
    };
    Checked {
        main,
        end_line: 5,
        procedures: Vec::new(alloc),
        coarrays: Listing::of_one(alloc, 0).expect(rt, "memory"),
        constants: Vec::new(alloc),
        literals: Vec::new(alloc),
        criticals: 0,
    }
}

#[test]
fn start_of_the_neighbour_read(rt: HostRuntime) {
    let alloc = rt.alloc();
    let checked = neighbour_read(&rt, alloc);
    let start = first(alloc, &checked, ImageNo(2), 4).expect(&rt, "memory");
    drop(checked);
    assert!(rt; start.me == ImageNo(2) && start.images == 4 && start.end_line == 5);
    assert!(rt; start.cells.as_slice() == [0].as_slice());
    assert!(rt; start.arrays.len() == 1 && start.coarrays.len() == 1);
    assert!(rt; start.arrays[0].is_none());
    assert!(rt; start.local_cells == 0 && start.coarray_cells == 1);
    match &start.coarrays[0] {
        Some(own) => {
            assert!(rt; own.bounds.is_empty() && own.extents.is_empty());
            assert!(rt; own.lowers.as_slice() == [1].as_slice());
        }
        None => assert!(rt; false),
    }
    drop(start);
}
