//! A block that is being read, within those that are open.

ghost use Rattle.std.specs.Prelude.{◌≡◌, ◌<◌, ◌∷◌, [], true, List, length, vec_len, IfOk, OnOk};
ghost use Rattle.fortran_tree.specs.ActionViews.{action_statement};
ghost use Rattle.fortran_tree.specs.ExpressionViews as expressions;
ghost use Rattle.fortran_tree.specs.ExpressionViews.{expression};
ghost use Rattle.fortran_tree.specs.StatementViews.{statement, statement_list, case_selector, bracketed_specifier};
ghost use Rattle.part_reader.specs.Views.{part as seen};
ghost use Rattle.program_reader.specs.Nesting.{statement_parts, statements_parts};
ghost use Rattle.program_tree.specs.Following.{executes};
ghost use Rattle.program_tree.specs.Blocks as view;
ghost use Rattle.statement_reader.specs.Parts.{Part as Seen};
ghost use Rattle.statement_reader.specs.Parts as f;

use crate::construct::{
    Construct, cases_of, if_part, whole_critical, whole_do, whole_if, whole_team,
};
use caf_base::place::Pos;
use caf_base::refusal::NoMemory;
use fortran_tree::action::{Action, ActionForm};
use fortran_tree::expr::Expr;
use fortran_tree::statement::{BracketedSpecifier, CaseSelector, End, Statement};
use part_reader::part::Part;
use std::alloc::Global;
use std::mem;

/// IF and the condition of a one-line IF.
#[derive(Drop)]
pub struct Condition {
    pub condition: Expr,
    pub at: Pos,
}

/// What has been read of the statement that comes next.
#[derive(Drop)]
pub enum Begun {
    /// The conditions of one-line IFs, the outermost first.
    Line(Vec<Condition>),
    /// SELECT CASE, whose first CASE hasn't come.
    Select { expression: Expr, at: Pos },
}

/// A construct that is open, and the statements before it in its block.
#[derive(Drop)]
pub struct Frame {
    pub before: Vec<Statement>,
    pub construct: Construct,
}

/// A block that is being read: the constructs around it, the outermost first, and its statements so far.
#[derive(Drop)]
pub struct Block {
    pub frames: Vec<Frame>,
    pub statements: Vec<Statement>,
    pub begun: Begun,
}

/// An action under the conditions of one-line IFs.
#[tactic(auto, using(crate::proofs::Fronts::front_laws))]
fn under(alloc: Global, mut conditions: Vec<Condition>, action: Action) -> Result<Action, NoMemory>
    ensures { IfOk result (λ whole. (es : List Seen) → view.conditions_front conditions.items (view.action_front action es) ≡ view.action_front whole es) }
{
    let mut whole = action;
    while let Some(outer) = conditions.pop() {
        let form = ActionForm::If {
            condition: outer.condition,
            action: Box::new(alloc, whole)?,
        };
        whole = Action { form, at: outer.at };
    }
    Ok(whole)
}

impl Block {
    /// The statements of a program unit, of which nothing has been read.
    pub fn new(alloc: Global) -> Block
        ensures frames { result.frames.items ≡ [] }
        ensures statements { result.statements.items ≡ [] }
        ensures begun { view.IsClear result.begun }
    {
        Block {
            frames: Vec::new(alloc),
            statements: Vec::new(alloc),
            begun: Begun::Line(Vec::new(alloc)),
        }
    }

    /// The statements of a program unit, where nothing is open.
    pub fn finish(self) -> Vec<Statement>
        ensures { result ≡ self.statements }
    {
        let Block {
            frames,
            statements,
            begun,
        } = self;
        drop(frames);
        drop(begun);
        statements
    }

    /// Adds a statement.
    #[tactic(auto, using(crate::proofs::Fronts::front_laws))]
    fn push(&mut self, whole: Statement) -> Result<(), NoMemory>
        ensures statements { OnOk result ((es : List Seen) → statements_parts (statement_list self.new.statements.items) es ≡ statements_parts (statement_list self.old.statements.items) (statement_parts (statement whole) es)) }
        ensures frames { self.new.frames ≡ self.old.frames }
        ensures begun { self.new.begun ≡ self.old.begun }
    {
        self.statements.push(whole)?;
        Ok(())
    }

    /// Opens a construct.
    #[tactic(auto, using(crate::proofs::Fronts::front_laws))]
    fn enter(&mut self, alloc: Global, construct: Construct) -> Result<(), NoMemory>
        ensures front { OnOk result ((es : List Seen) → view.frames_front self.new.frames.items es ≡ view.frames_front self.old.frames.items (statements_parts (statement_list self.old.statements.items) (view.construct_front construct es))) }
        ensures opens { OnOk result (view.opens self.new.frames.items [] ≡ view.open_of construct ∷ view.opens self.old.frames.items []) }
        ensures statements { OnOk result (self.new.statements.items ≡ []) }
        ensures begun { self.new.begun ≡ self.old.begun }
    {
        let before = mem::replace(&mut self.statements, Vec::new(alloc));
        self.frames.push(Frame { before, construct })?;
        Ok(())
    }

    /// The innermost construct that is open, and its block; what stands before it goes on.
    #[tactic(auto, using(crate::proofs::Fronts::front_laws))]
    fn leave(&mut self) -> (Construct, Vec<Statement>)
        requires { 0 < length self.old.frames.items }
        ensures front { (es : List Seen) → view.frames_front self.old.frames.items es ≡ view.frames_front self.new.frames.items (statements_parts (statement_list self.new.statements.items) (view.construct_front result.0 es)) }
        ensures opens { view.opens self.old.frames.items [] ≡ view.open_of result.0 ∷ view.opens self.new.frames.items [] }
        ensures body { result.1 ≡ self.old.statements }
        ensures begun { self.new.begun ≡ self.old.begun }
    {
        let Some(Frame { before, construct }) = self.frames.pop() else {
            unreachable!()
        };
        (construct, mem::replace(&mut self.statements, before))
    }

    /// The conditions that have been read, which are taken out.
    fn conditions(&mut self, alloc: Global) -> Vec<Condition>
        requires { view.IsLine self.old.begun }
        ensures taken { self.old.begun ≡ Begun.Line result }
        ensures clear { view.IsClear self.new.begun }
        ensures frames { self.new.frames ≡ self.old.frames }
        ensures statements { self.new.statements ≡ self.old.statements }
    {
        match mem::replace(&mut self.begun, Begun::Line(Vec::new(alloc))) {
            Begun::Line(conditions) => conditions,
            Begun::Select { .. } => unreachable!(),
        }
    }

    /// Takes an action.
    fn act(&mut self, alloc: Global, form: ActionForm, at: Pos) -> Result<(), NoMemory>
        requires { view.May self.old (f.action_part (action_statement form) at) }
        ensures { OnOk result (view.Takes self.old self.new (f.action_part (action_statement form) at)) }
    {
        let conditions = self.conditions(alloc);
        let action = under(alloc, conditions, Action { form, at })?;
        self.push(Statement::Action(action))
    }

    /// Takes the condition of a one-line IF.
    fn condition(&mut self, alloc: Global, condition: Expr, at: Pos) -> Result<(), NoMemory>
        requires { view.May self.old (f.condition_part (expression condition) at) }
        ensures { OnOk result (view.Takes self.old self.new (f.condition_part (expression condition) at)) }
    {
        let mut conditions = self.conditions(alloc);
        conditions.push(Condition { condition, at })?;
        drop(mem::replace(&mut self.begun, Begun::Line(conditions)));
        Ok(())
    }

    /// Takes the statement that begins a construct.
    fn begin(&mut self, alloc: Global, construct: Construct) -> Result<(), NoMemory>
        requires { (p : Seen) × view.IsFresh construct p × view.May self.old p }
        ensures { OnOk result ((p : Seen) → view.IsFresh construct p → view.Takes self.old self.new p) }
    {
        self.enter(alloc, construct)
    }

    /// Takes SELECT CASE.
    fn select(&mut self, expression: Expr, at: Pos)
        requires { view.May self.old (f.select_part (expressions.expression expression) at) }
        ensures { view.Takes self.old self.new (f.select_part (expressions.expression expression) at) }
    {
        drop(mem::replace(&mut self.begun, Begun::Select { expression, at }));
    }

    /// Takes CASE.
    fn case(&mut self, alloc: Global, selector: CaseSelector, at: Pos) -> Result<(), NoMemory>
        requires { view.May self.old (f.case_part (case_selector selector) at) }
        ensures { OnOk result (view.Takes self.old self.new (f.case_part (case_selector selector) at)) }
    {
        match mem::replace(&mut self.begun, Begun::Line(Vec::new(alloc))) {
            Begun::Select {
                expression,
                at: select_at,
            } => {
                let cases = Vec::new(alloc);
                let first = Construct::Case {
                    expression,
                    at: select_at,
                    cases,
                    selector,
                    case_at: at,
                };
                self.enter(alloc, first)
            }
            Begun::Line(conditions) => {
                drop(conditions);
                self.next_case(alloc, selector, at)
            }
        }
    }

    /// Takes a CASE behind a CASE block.
    fn next_case(&mut self, alloc: Global, selector: CaseSelector, at: Pos) -> Result<(), NoMemory>
        requires clear { view.IsClear self.old.begun }
        requires may { view.May self.old (f.case_part (case_selector selector) at) }
        ensures { OnOk result (view.Takes self.old self.new (f.case_part (case_selector selector) at)) }
    {
        let (construct, body) = self.leave();
        let before = cases_of(construct, body)?;
        let next = Construct::Case {
            expression: before.expression,
            at: before.at,
            cases: before.cases,
            selector,
            case_at: at,
        };
        self.enter(alloc, next)
    }

    /// Takes ELSE IF.
    fn else_if(&mut self, alloc: Global, condition: Expr, at: Pos) -> Result<(), NoMemory>
        requires { view.May self.old (f.else_if_part (expression condition) at) }
        ensures { OnOk result (view.Takes self.old self.new (f.else_if_part (expression condition) at)) }
    {
        let (construct, body) = self.leave();
        let first = if_part(alloc, construct, body)?;
        let next = Construct::ElseIf {
            first,
            condition,
            at,
        };
        self.enter(alloc, next)
    }

    /// Takes ELSE.
    fn otherwise(&mut self, alloc: Global, at: Pos) -> Result<(), NoMemory>
        requires { view.May self.old (f.else_part at) }
        ensures { OnOk result (view.Takes self.old self.new (f.else_part at)) }
    {
        let (construct, body) = self.leave();
        let first = if_part(alloc, construct, body)?;
        self.enter(alloc, Construct::Else { first, at })
    }

    /// Takes END IF.
    fn end_if(&mut self, alloc: Global, at: Pos) -> Result<(), NoMemory>
        requires { view.May self.old (f.end_if_part at) }
        ensures { OnOk result (view.Takes self.old self.new (f.end_if_part at)) }
    {
        let (construct, body) = self.leave();
        let whole = whole_if(alloc, construct, body, at)?;
        self.push(whole)
    }

    /// Takes END DO.
    fn end_do(&mut self, end: End) -> Result<(), NoMemory>
        requires { view.May self.old (f.end_do_part end.name end.at) }
        ensures { OnOk result (view.Takes self.old self.new (f.end_do_part end.name end.at)) }
    {
        let (construct, body) = self.leave();
        self.push(whole_do(construct, body, end))
    }

    /// Takes END SELECT.
    fn end_select(&mut self, alloc: Global, end: Pos) -> Result<(), NoMemory>
        requires { view.May self.old (f.end_select_part end) }
        ensures { OnOk result (view.Takes self.old self.new (f.end_select_part end)) }
    {
        match mem::replace(&mut self.begun, Begun::Line(Vec::new(alloc))) {
            Begun::Select { expression, at } => {
                let cases = Vec::new(alloc);
                self.push(Statement::SelectCase {
                    expression,
                    cases,
                    at,
                    end,
                })
            }
            Begun::Line(conditions) => {
                drop(conditions);
                self.end_cases(end)
            }
        }
    }

    /// Takes END SELECT behind a CASE block.
    fn end_cases(&mut self, end: Pos) -> Result<(), NoMemory>
        requires clear { view.IsClear self.old.begun }
        requires may { view.May self.old (f.end_select_part end) }
        ensures { OnOk result (view.Takes self.old self.new (f.end_select_part end)) }
    {
        let (construct, body) = self.leave();
        let before = cases_of(construct, body)?;
        self.push(Statement::SelectCase {
            expression: before.expression,
            cases: before.cases,
            at: before.at,
            end,
        })
    }

    /// Takes END CRITICAL.
    fn end_critical(&mut self, end: Pos) -> Result<(), NoMemory>
        requires { view.May self.old (f.end_critical_part end) }
        ensures { OnOk result (view.Takes self.old self.new (f.end_critical_part end)) }
    {
        let (construct, body) = self.leave();
        self.push(whole_critical(construct, body, end))
    }

    /// Takes END TEAM.
    fn end_team(&mut self, specifier: BracketedSpecifier, end: Pos) -> Result<(), NoMemory>
        requires { view.May self.old (f.end_team_part (bracketed_specifier specifier) end) }
        ensures { OnOk result (view.Takes self.old self.new (f.end_team_part (bracketed_specifier specifier) end)) }
    {
        let (construct, body) = self.leave();
        self.push(whole_team(construct, body, specifier, end))
    }

    /// Takes a part of an execution part.
    pub fn take(&mut self, alloc: Global, part: Part) -> Result<(), NoMemory>
        requires executes { executes (seen part) ≡ true }
        requires may { view.May self.old (seen part) }
        ensures { OnOk result (view.Takes self.old self.new (seen part)) }
    {
        match part {
            Part::Action { form, at } => self.act(alloc, form, at),
            Part::Condition { condition, at } => self.condition(alloc, condition, at),
            Part::IfThen { condition, at } => self.begin(alloc, Construct::If { condition, at }),
            Part::ElseIf { condition, at } => self.else_if(alloc, condition, at),
            Part::Else(at) => self.otherwise(alloc, at),
            Part::EndIf(at) => self.end_if(alloc, at),
            Part::Do {
                construct,
                control,
                at,
            } => {
                let construct = Construct::Do {
                    construct,
                    control,
                    at,
                };
                self.begin(alloc, construct)
            }
            Part::EndDo(end) => self.end_do(end),
            Part::SelectCase { expression, at } => {
                self.select(expression, at);
                Ok(())
            }
            Part::Case { selector, at } => self.case(alloc, selector, at),
            Part::EndSelect(at) => self.end_select(alloc, at),
            Part::Critical { specifier, at } => {
                self.begin(alloc, Construct::Critical { specifier, at })
            }
            Part::EndCritical(at) => self.end_critical(at),
            Part::ChangeTeam {
                team,
                specifiers,
                at,
            } => {
                let construct = Construct::Team {
                    team,
                    specifiers,
                    at,
                };
                self.begin(alloc, construct)
            }
            Part::EndTeam { specifier, at } => self.end_team(specifier, at),
            _ => unreachable!(),
        }
    }
}
