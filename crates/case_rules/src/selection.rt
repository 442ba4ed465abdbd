//! The blocks of SELECT CASE (11.1.9): rule 44 for a second CASE DEFAULT.

ghost use Rattle.std.specs.Prelude.{◌≡◌, ◌∷◌, ◌++◌, [], IfOk, None, not, OnOk, Option, Some, map, true};
ghost use Rattle.std.specs.Option.{option_map};
ghost use Rattle.checked_tree.specs.ExpressionViews.{expression};
ghost use Rattle.fortran_tree.specs.StatementViews.{case_range as range_written, case_selector as selector_written};
ghost use Rattle.part_rules.specs.Views.{judgement, list_of};
ghost use Rattle.rule_definitions.specs.Judgements.{Judgement, fine as fine_of, is_there, made, made_of_both, made_of_three, ruled, three, unless};
ghost use Rattle.rule_definitions.specs.Statements as rules;
ghost use Rattle.case_rules.specs.Blocks.{backwards, block, joined_cases, known, selection as selection_seen, whole, with_cases, with_otherwise};

use crate::case::judge_ranges;
use caf_base::place::Pos;
use caf_base::refusal::NoMemory;
use case_ranges::ranges::CaseRanges;
use checked_tree::expr::TypedExpr;
use checked_tree::statement::{Case, CaseRange as TypedRange, TypedStatement};
use fortran_tree::statement::{CaseRange, CaseSelector};
use part_rules::judged::{Judged, add_all};
use rule_definitions::broken::Broken;
use rule_definitions::rule;
use scope_table::scope::Scope;
use std::alloc::Global;

/// The blocks of a SELECT: those with ranges, and that of CASE DEFAULT.
#[derive(Drop)]
pub struct Selection {
    pub cases: Vec<Case>,
    pub otherwise: Vec<TypedStatement>,
}

/// The blocks of a SELECT so far.
#[derive(Drop)]
pub struct CaseList {
    pub breaks: Vec<Broken>,
    /// Those with ranges.
    pub cases: Option<Vec<Case>>,
    /// That of CASE DEFAULT, where there is one.
    pub otherwise: Option<Option<Vec<TypedStatement>>>,
    /// The ranges of all of them, as far as they are known.
    pub ranges: CaseRanges,
    /// What is said of further CASE DEFAULTs.
    pub repeated: Vec<Broken>,
}

// One block more.
#[tactic(auto, using(crate::proofs::Blocks::block_laws))]
fn push_case(cases: &mut Option<Vec<Case>>, case: Case) -> Result<(), NoMemory>
    ensures { OnOk result ((r : Option rules.Selected) → joined_cases cases.new r ≡ joined_cases cases.old (made (with_cases (case ∷ [])) r)) }
{
    if let Some(cases) = cases {
        cases.push(case)?;
    }
    Ok(())
}

#[tactic(auto, using(crate::proofs::Blocks::block_laws))]
fn case_made(ranges: Vec<TypedRange>, body: Vec<TypedStatement>, at: Pos) -> Case
    ensures { (x : rules.Selected) → with_cases (result ∷ []) x ≡ rules.with_case at.line ranges.items (block body) x }
{
    Case {
        ranges,
        body,
        line: at.line,
    }
}

// One block more, where its ranges and its statements have a meaning.
#[tactic(auto, using(crate::proofs::Blocks::block_laws))]
fn add_case(
    cases: &mut Option<Vec<Case>>,
    ranges: Option<Vec<TypedRange>>,
    body: Option<Vec<TypedStatement>>,
    at: Pos,
) -> Result<(), NoMemory>
    ensures { OnOk result ((r : Option rules.Selected) → joined_cases cases.new r ≡ joined_cases cases.old (three (rules.with_case at.line) (option_map list_of ranges) (option_map block body) r)) }
{
    let Some(ranges) = ranges else {
        drop(body);
        *cases = None;
        return Ok(());
    };
    let Some(body) = body else {
        drop(ranges);
        *cases = None;
        return Ok(());
    };
    push_case(cases, case_made(ranges, body, at))
}

// Puts broken rules behind the earlier ones, the last one first.
fn add_backwards(breaks: &mut Vec<Broken>, further: Vec<Broken>) -> Result<(), NoMemory>
    ensures { OnOk result (breaks.new.items ≡ breaks.old.items ++ backwards further.items) }
{
    let mut further = further;
    while let Some(last) = further.pop() {
        breaks.push(last)?;
    }
    Ok(())
}

#[tactic(auto, using(crate::proofs::Blocks::block_laws))]
fn selected(
    alloc: Global,
    cases: Option<Vec<Case>>,
    otherwise: Option<Option<Vec<TypedStatement>>>,
) -> Option<Selection>
    ensures { option_map selection_seen result ≡ joined_cases cases (with_otherwise otherwise (Some rules.no_selected)) }
{
    let Some(cases) = cases else {
        drop(otherwise);
        return None;
    };
    match otherwise {
        None => Some(Selection {
            cases,
            otherwise: Vec::new(alloc),
        }),
        Some(Some(otherwise)) => Some(Selection { cases, otherwise }),
        Some(None) => {
            drop(cases);
            None
        }
    }
}

fn is_some<T>(part: &Option<T>) -> bool
    ensures { result ≡ is_there part.now }
{
    match part {
        Some(_) => true,
        None => false,
    }
}

impl CaseList {
    /// No blocks.
    pub fn new(alloc: Global) -> CaseList
        ensures breaks { result.breaks.items ≡ [] }
        ensures cases { option_map list_of result.cases ≡ Some [] }
        ensures otherwise { result.otherwise ≡ None }
        ensures ranges { result.ranges ≡ [] }
        ensures repeated { result.repeated.items ≡ [] }
    {
        CaseList {
            breaks: Vec::new(alloc),
            cases: Some(Vec::new(alloc)),
            otherwise: None,
            ranges: CaseRanges::new(alloc),
            repeated: Vec::new(alloc),
        }
    }

    // The block of CASE DEFAULT: rule 44 for a second one.
    fn add_default(&mut self, body: Judged<Vec<TypedStatement>>, at: Pos) -> Result<(), NoMemory>
        ensures whole { OnOk result ((r : Judgement rules.Selected) → whole self.new r ≡ whole self.old (ruled (made_of_both rules.with_default (judgement block body) r) (unless (not (is_there self.old.otherwise)) 44 at))) }
        ensures ranges { OnOk result (self.new.ranges ≡ self.old.ranges) }
        ensures otherwise { OnOk result (is_there self.new.otherwise ≡ true) }
    {
        let Judged { breaks, meaning } = body;
        add_all(&mut self.breaks, breaks)?;
        if is_some(&self.otherwise) {
            drop(meaning);
            self.cases = None;
            self.repeated.push(Broken {
                rule: rule::CASE_VALUE,
                at,
            })?;
            return Ok(());
        }
        self.otherwise = Some(meaning);
        Ok(())
    }

    // A block with ranges.
    fn add_ranges(
        &mut self,
        alloc: Global,
        scope: &Scope<'_>,
        selector: &Option<TypedExpr>,
        ranges: &[CaseRange],
        body: Judged<Vec<TypedStatement>>,
        at: Pos,
    ) -> Result<(), NoMemory>
        ensures whole { OnOk result ((r : Judgement rules.Selected) → whole self.new r ≡ whole self.old (made_of_three (rules.with_case at.line) (rules.judged_ranges scope.now (option_map expression selector.now) self.old.ranges (map range_written ranges.now)) (judgement block body) r)) }
        ensures ranges { OnOk result (self.new.ranges ≡ rules.ranges_behind scope.now (option_map expression selector.now) self.old.ranges (map range_written ranges.now)) }
        ensures otherwise { OnOk result (self.new.otherwise ≡ self.old.otherwise) }
    {
        let Judged {
            breaks: of_ranges,
            meaning: ranges,
        } = judge_ranges(alloc, scope, selector, &mut self.ranges, ranges)?;
        let Judged { breaks, meaning } = body;
        add_case(&mut self.cases, ranges, meaning, at)?;
        add_all(&mut self.breaks, of_ranges)?;
        add_all(&mut self.breaks, breaks)
    }

    /// A block behind its CASE statement.
    pub fn add(
        &mut self,
        alloc: Global,
        scope: &Scope<'_>,
        selector: &Option<TypedExpr>,
        case: &CaseSelector,
        body: Judged<Vec<TypedStatement>>,
        at: Pos,
    ) -> Result<(), NoMemory>
        ensures whole { OnOk result ((r : Judgement rules.Selected) → whole self.new r ≡ whole self.old (rules.case_joined scope.now (known (option_map expression selector.now) self.old) (selector_written case.now) at (judgement block body) r)) }
        ensures known { OnOk result (known (option_map expression selector.now) self.new ≡ rules.behind_case scope.now (known (option_map expression selector.now) self.old) (selector_written case.now)) }
    {
        match case {
            CaseSelector::Default => self.add_default(body, at),
            CaseSelector::Ranges(ranges) => {
                self.add_ranges(alloc, scope, selector, ranges, body, at)
            }
        }
    }

    /// All blocks, where none follows.
    pub fn finish(self, alloc: Global) -> Result<Judged<Selection>, NoMemory>
        ensures breaks { IfOk result (λ j. j.breaks.items ≡ (whole self (fine_of rules.no_selected)).breaks) }
        ensures meaning { IfOk result (λ j. option_map selection_seen j.meaning ≡ (whole self (fine_of rules.no_selected)).meaning) }
    {
        let CaseList {
            mut breaks,
            cases,
            otherwise,
            ranges,
            repeated,
        } = self;
        drop(ranges);
        let meaning = selected(alloc, cases, otherwise);
        add_backwards(&mut breaks, repeated)?;
        Ok(Judged { breaks, meaning })
    }
}
