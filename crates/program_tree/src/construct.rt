//! Constructs that are open, with what has been read of them.

ghost use Rattle.std.specs.Prelude.{◌≡◌, ◌∷◌, List, IfOk};
ghost use Rattle.fortran_tree.specs.StatementViews.{statement, statement_list, bracketed_specifier};
ghost use Rattle.program_reader.specs.Nesting.{statement_parts, statements_parts};
ghost use Rattle.statement_reader.specs.Parts.{Part as Seen};
ghost use Rattle.statement_reader.specs.Parts as f;
ghost use Rattle.program_tree.specs.Blocks as view;

use caf_base::place::Pos;
use caf_base::refusal::NoMemory;
use fortran_tree::expr::{Expr, Specifier};
use fortran_tree::name::Name;
use fortran_tree::statement::{
    BracketedSpecifier, CaseBlock, CaseSelector, ElseIf, End, LoopControl, Otherwise, Statement,
};
use std::alloc::Global;

/// An IF construct up to an ELSE IF or ELSE: its condition, its first block, and the ELSE IF blocks that are over.
#[derive(Drop)]
pub struct IfPart {
    pub condition: Expr,
    pub at: Pos,
    pub body: Vec<Statement>,
    pub else_ifs: Vec<ElseIf>,
}

/// A construct that is open, up to the block that is being read.
#[derive(Drop)]
pub enum Construct {
    /// In the block behind THEN.
    If {
        condition: Expr,
        at: Pos,
    },
    /// Behind an ELSE IF.
    ElseIf {
        first: IfPart,
        condition: Expr,
        at: Pos,
    },
    /// Behind ELSE.
    Else {
        first: IfPart,
        at: Pos,
    },
    Do {
        construct: Option<Name>,
        control: LoopControl,
        at: Pos,
    },
    /// Behind a CASE, with the CASE blocks that are over.
    Case {
        expression: Expr,
        at: Pos,
        cases: Vec<CaseBlock>,
        selector: CaseSelector,
        case_at: Pos,
    },
    Critical {
        specifier: BracketedSpecifier,
        at: Pos,
    },
    Team {
        team: Expr,
        specifiers: Vec<Specifier>,
        at: Pos,
    },
}

/// An IF construct whose block behind THEN or ELSE IF is over.
#[tactic(auto, using(crate::proofs::Fronts::front_laws))]
pub(crate) fn if_part(
    alloc: Global,
    construct: Construct,
    body: Vec<Statement>,
) -> Result<IfPart, NoMemory>
    requires { view.IsThen construct }
    ensures { IfOk result (λ part. (es : List Seen) → view.construct_front construct (statements_parts (statement_list body.items) es) ≡ view.if_front part es) }
{
    match construct {
        Construct::If { condition, at } => Ok(IfPart {
            condition,
            at,
            body,
            else_ifs: Vec::new(alloc),
        }),
        Construct::ElseIf {
            mut first,
            condition,
            at,
        } => {
            first.else_ifs.push(ElseIf {
                condition,
                body,
                at,
            })?;
            Ok(first)
        }
        _ => unreachable!(),
    }
}

/// An IF construct whose last block is over.
#[tactic(auto, using(crate::proofs::Fronts::front_laws))]
pub(crate) fn whole_if(
    alloc: Global,
    construct: Construct,
    body: Vec<Statement>,
    end: Pos,
) -> Result<Statement, NoMemory>
    requires { view.IsIf construct }
    ensures { IfOk result (λ whole. (es : List Seen) → view.construct_front construct (statements_parts (statement_list body.items) (f.end_if_part end ∷ es)) ≡ statement_parts (statement whole) es) }
{
    match construct {
        Construct::Else { first, at } => Ok(Statement::If {
            condition: first.condition,
            body: first.body,
            else_ifs: first.else_ifs,
            otherwise: Some(Otherwise { body, at }),
            at: first.at,
            end,
        }),
        other => {
            let first = if_part(alloc, other, body)?;
            Ok(Statement::If {
                condition: first.condition,
                body: first.body,
                else_ifs: first.else_ifs,
                otherwise: None,
                at: first.at,
                end,
            })
        }
    }
}

/// A DO construct whose block is over.
#[tactic(auto, using(crate::proofs::Fronts::front_laws))]
pub(crate) fn whole_do(construct: Construct, body: Vec<Statement>, end: End) -> Statement
    requires { view.IsDo construct }
    ensures { (es : List Seen) → view.construct_front construct (statements_parts (statement_list body.items) (f.end_do_part end.name end.at ∷ es)) ≡ statement_parts (statement result) es }
{
    let Construct::Do {
        construct,
        control,
        at,
    } = construct
    else {
        unreachable!()
    };
    Statement::Do {
        construct,
        control,
        body,
        at,
        end,
    }
}

/// A CRITICAL construct whose block is over.
#[tactic(auto, using(crate::proofs::Fronts::front_laws))]
pub(crate) fn whole_critical(construct: Construct, body: Vec<Statement>, end: Pos) -> Statement
    requires { view.IsCritical construct }
    ensures { (es : List Seen) → view.construct_front construct (statements_parts (statement_list body.items) (f.end_critical_part end ∷ es)) ≡ statement_parts (statement result) es }
{
    let Construct::Critical { specifier, at } = construct else {
        unreachable!()
    };
    Statement::Critical {
        specifier,
        body,
        at,
        end,
    }
}

/// A CHANGE TEAM construct whose block is over.
#[tactic(auto, using(crate::proofs::Fronts::front_laws))]
pub(crate) fn whole_team(
    construct: Construct,
    body: Vec<Statement>,
    end_specifier: BracketedSpecifier,
    end: Pos,
) -> Statement
    requires { view.IsTeam construct }
    ensures { (es : List Seen) → view.construct_front construct (statements_parts (statement_list body.items) (f.end_team_part (bracketed_specifier end_specifier) end ∷ es)) ≡ statement_parts (statement result) es }
{
    let Construct::Team {
        team,
        specifiers,
        at,
    } = construct
    else {
        unreachable!()
    };
    Statement::ChangeTeam {
        team,
        specifiers,
        body,
        end_specifier,
        at,
        end,
    }
}

/// A SELECT CASE construct up to a CASE or END SELECT: its expression, and the CASE blocks that are over.
#[derive(Drop)]
pub struct Cases {
    pub expression: Expr,
    pub at: Pos,
    pub cases: Vec<CaseBlock>,
}

/// A SELECT CASE construct whose block behind CASE is over.
#[tactic(auto, using(crate::proofs::Fronts::front_laws))]
pub(crate) fn cases_of(construct: Construct, body: Vec<Statement>) -> Result<Cases, NoMemory>
    requires { view.IsCase construct }
    ensures { IfOk result (λ x. (es : List Seen) → view.construct_front construct (statements_parts (statement_list body.items) es) ≡ view.cases_front x es) }
{
    let Construct::Case {
        expression,
        at,
        mut cases,
        selector,
        case_at,
    } = construct
    else {
        unreachable!()
    };
    cases.push(CaseBlock {
        selector,
        body,
        at: case_at,
    })?;
    Ok(Cases {
        expression,
        at,
        cases,
    })
}
