//! What each pass drew that is live at a check, found on the way from the check back to the first command: the new symbols of
//! live assertions with the terms that they stand for, the other new symbols that are live, and the functions with arguments.
//! SMT-LIB 2.6, sections 4.1.4, 4.1.7 and 4.2.2, for levels, global declarations and resets.

ghost use Rattle.std.specs.Prelude.{◌≡◌, ◌≤◌, ◌<◌, ◌+◌, ◌^◌, ◌++◌, [], ◌∷◌, map, Option, false, All, IfOk, OnOk};
ghost use Rattle.term_groups.specs.Seen.{named_at};
ghost use Rattle.term_table.specs.Formulas.{Formulas, symbol_at, IsSymbol};
ghost use Rattle.pass_laws.specs.LiveGroups.{Met, nothing_met, with_drawn, with_declared, met_before, met_in, met_at, before_check, global_behind};
ghost use Rattle.passes.specs.LiveRows.{AreLiveStages};
ghost use Rattle.passes.specs.LiveSymbols.{live_of, given_by, given_at, live_at, IsLiveOver, AreLiveOver, HasUseOf, AreLiveAt, IsSearched, IsSearchOver};
ghost use Rattle.passes.specs.Plans.{step_of, steps_of, told_in, Uses, HasUse, HaveUses, IsPlanOver, IsStepOver, IsPairOver};

use crate::plan::{Plan, Step};
use smt_terms::{NodeId, SymId};
use std::alloc::{AllocError, Global};
use term_subst::SymPairs;
use term_walk::Stack;

/// A new symbol of a live assertion, with the term that it stands for.
#[derive(Clone, Copy)]
pub(crate) struct LiveSymbol {
    pub(crate) assertion: u64,
    pub(crate) symbol: SymId,
    pub(crate) term: NodeId,
}

/// What a pass drew that is live at a check.
#[derive(Drop)]
pub(crate) struct Live {
    /// The new symbols of live assertions.
    pub(crate) given: Vec<LiveSymbol>,
    /// The other new symbols that are live.
    pub(crate) idle: Vec<SymId>,
    /// The functions with arguments that are live.
    pub(crate) functions: Vec<SymId>,
}

/// A search for what is live at a check, on the way from there back to the first command.
#[derive(Drop)]
struct Search {
    /// No assertion before is live at the check.
    is_anew: bool,
    /// No declaration before is.
    is_gone: bool,
    /// So many levels that were open before are closed at the check.
    closed: u128,
    /// What was found so far of live assertions.
    given: Stack<LiveSymbol>,
    /// What was found so far of others.
    idle: Stack<SymId>,
    /// The functions with arguments that were found so far.
    functions: Stack<SymId>,
}

impl Search {
    /// Nothing found yet.
    fn new(alloc: Global) -> Search
        ensures searched { (t : Formulas) → IsSearched t result nothing_met }
        ensures over { (t : Formulas) → IsSearchOver t result }
        ensures uses { (t : Formulas) (uses : Option Uses) → All (HasUseOf t uses) result.given }
        ensures closed { result.closed ≡ 0 }
    {
        Search {
            is_anew: false,
            is_gone: false,
            closed: 0,
            given: Stack::new(alloc),
            idle: Stack::new(alloc),
            functions: Stack::new(alloc),
        }
    }

    /// Goes back over a step.
    fn meet(&mut self, step: &Step, is_global: bool) -> Result<(), AllocError>
        requires { self.old.closed + 2 ^ 64 ≤ 2 ^ 128 }
        ensures searched { OnOk result ((t : Formulas) (g : Met) → IsSearched t self.old g → IsSearched t self.new (met_before is_global (step_of t step.now) g)) }
        ensures over { OnOk result ((t : Formulas) → IsStepOver t step.now → IsSearchOver t self.old → IsSearchOver t self.new) }
        ensures uses { OnOk result ((t : Formulas) (uses : Option Uses) → HaveUses t uses step.now → All (HasUseOf t uses) self.old.given → All (HasUseOf t uses) self.new.given) }
        ensures closed { OnOk result (self.new.closed < self.old.closed + 2 ^ 64) }
    {
        match step {
            Step::Declare(function) => {
                self.meet_function(*function, is_global)?;
                Ok(())
            }
            Step::Group { number, symbols } => {
                self.meet_group(*number, symbols, is_global)?;
                Ok(())
            }
            Step::Push(levels) => {
                self.closed = self.closed.saturating_sub(u128::from(*levels));
                Ok(())
            }
            Step::Pop(levels) => {
                self.closed += u128::from(*levels);
                Ok(())
            }
            Step::Reset => {
                self.is_anew = true;
                self.is_gone = true;
                Ok(())
            }
            Step::ResetAssertions => {
                self.is_anew = true;
                self.is_gone = self.is_gone || !is_global;
                Ok(())
            }
            Step::Check | Step::Globals(_) => Ok(()),
        }
    }

    /// Goes back over the declaration of a function with arguments.
    fn meet_function(&mut self, function: SymId, is_global: bool) -> Result<(), AllocError>
        ensures searched { OnOk result ((t : Formulas) (g : Met) → IsSearched t self.old g → IsSearched t self.new (with_declared is_global (symbol_at t function) g)) }
        ensures over { OnOk result ((t : Formulas) → IsSymbol t function → IsSearchOver t self.old → IsSearchOver t self.new) }
        ensures given { OnOk result (self.new.given ≡ self.old.given) }
        ensures closed { OnOk result (self.new.closed ≡ self.old.closed) }
    {
        if !self.is_gone && (is_global || self.closed == 0) {
            self.functions.push(function)?;
        }
        Ok(())
    }

    /// Goes back over an assertion, for which these symbols were drawn.
    fn meet_group(
        &mut self,
        assertion: u64,
        symbols: &SymPairs,
        is_global: bool,
    ) -> Result<(), AllocError>
        ensures searched { OnOk result ((t : Formulas) (g : Met) → IsSearched t self.old g → IsSearched t self.new (with_drawn is_global (record { number = assertion; symbols = named_at t symbols.now }) g)) }
        ensures over { OnOk result ((t : Formulas) → All (IsPairOver t) symbols.now → IsSearchOver t self.old → IsSearchOver t self.new) }
        ensures uses { OnOk result ((t : Formulas) (uses : Option Uses) → All (HasUse t uses) symbols.now → All (HasUseOf t uses) self.old.given → All (HasUseOf t uses) self.new.given) }
        ensures closed { OnOk result (self.new.closed ≡ self.old.closed) }
    {
        if !self.is_anew && self.closed == 0 {
            push_given(&mut self.given, assertion, symbols)?;
            return Ok(());
        }
        if is_global && !self.is_gone {
            push_idle(&mut self.idle, symbols)?;
            return Ok(());
        }
        Ok(())
    }
}

/// Puts these symbols with their terms before the others, as those of this assertion.
fn push_given(
    given: &mut Stack<LiveSymbol>,
    assertion: u64,
    symbols: &SymPairs,
) -> Result<(), AllocError>
    ensures given { OnOk result ((t : Formulas) → map (given_at t) given.new ≡ given_by assertion (named_at t symbols.now) ++ map (given_at t) given.old) }
    ensures over { OnOk result ((t : Formulas) → All (IsPairOver t) symbols.now → All (IsLiveOver t) given.old → All (IsLiveOver t) given.new) }
    ensures uses { OnOk result ((t : Formulas) (uses : Option Uses) → All (HasUse t uses) symbols.now → All (HasUseOf t uses) given.old → All (HasUseOf t uses) given.new) }
{
    for place in (0..symbols.len()).rev() {
        let (symbol, term) = symbols.get(place);
        given.push(LiveSymbol {
            assertion,
            symbol,
            term,
        })?;
    }
    Ok(())
}

/// Puts these symbols before the others.
fn push_idle(idle: &mut Stack<SymId>, symbols: &SymPairs) -> Result<(), AllocError>
    ensures idle { OnOk result ((t : Formulas) → map (symbol_at t) idle.new ≡ map (λ n. n.0) (named_at t symbols.now) ++ map (symbol_at t) idle.old) }
    ensures over { OnOk result ((t : Formulas) → All (IsPairOver t) symbols.now → All (IsSymbol t) idle.old → All (IsSymbol t) idle.new) }
{
    for place in (0..symbols.len()).rev() {
        let (symbol, _) = symbols.get(place);
        idle.push(symbol)?;
    }
    Ok(())
}

/// The items of a stack, the last one first.
fn items_of<T: Drop>(alloc: Global, stack: Stack<T>) -> Result<Vec<T>, AllocError>
    ensures { IfOk result (λ v. v.items ≡ stack) }
{
    let mut left = stack;
    let mut items = Vec::new(alloc);
    while let Some(item) = left.pop() {
        items.push(item)?;
    }
    Ok(items)
}

/// What of a pass is live at a check for each pass that makes groups.
pub(crate) fn live_at_each(alloc: Global, plan: &Plan, check: u64) -> Result<Vec<Live>, AllocError>
    requires { 1 ≤ check }
    ensures live { IfOk result (λ v. (t : Formulas) → AreLiveAt t check (told_in t plan.now) v.items) }
    ensures over { IfOk result (λ v. (t : Formulas) → IsPlanOver t plan.now → AreLiveStages t plan.now.stages.items v.items) }
{
    let mut lives = Vec::new(alloc);
    for stage in &plan.stages {
        let live = live_at_check(alloc, stage.steps.as_slice(), check)?;
        lives.push(live)?;
    }
    Ok(lives)
}

/// What is live at a check, of a pass with these steps.
fn live_at_check(alloc: Global, steps: &[Step], check: u64) -> Result<Live, AllocError>
    requires { 1 ≤ check }
    ensures live { IfOk result (λ r. (t : Formulas) → live_at t r ≡ live_of (met_at check (steps_of t steps.now))) }
    ensures over { IfOk result (λ r. (t : Formulas) → All (IsStepOver t) steps.now → AreLiveOver t r) }
    ensures uses { IfOk result (λ r. (t : Formulas) (uses : Option Uses) → All (HaveUses t uses) steps.now → All (HasUseOf t uses) r.given.items) }
{
    let before = before_check(steps, check);
    let live = live_behind(alloc, before, is_global_behind(before))?;
    Ok(live)
}

/// The steps before the check of this number.
fn before_check(steps: &[Step], check: u64) -> &[Step]
    requires { 1 ≤ check }
    ensures steps { (t : Formulas) → steps_of t result.now ≡ before_check check (steps_of t steps.now) }
    ensures over { (t : Formulas) → All (IsStepOver t) steps.now → All (IsStepOver t) result.now }
    ensures uses { (t : Formulas) (uses : Option Uses) → All (HaveUses t uses) steps.now → All (HaveUses t uses) result.now }
{
    let mut left = check;
    for (place, step) in steps.iter().enumerate() {
        let Step::Check = step else {
            continue;
        };
        if left == 1 {
            return &steps[..place];
        }
        left -= 1;
    }
    steps
}

/// Whether declarations outlive their levels behind these steps.
fn is_global_behind(steps: &[Step]) -> bool
    ensures { (t : Formulas) → global_behind false (steps_of t steps.now) ≡ result }
{
    let mut is_global = false;
    for step in steps {
        is_global = is_global_after(step, is_global);
    }
    is_global
}

/// Whether declarations outlive their levels behind a step.
fn is_global_after(step: &Step, before: bool) -> bool
    ensures { (t : Formulas) → global_behind before (step_of t step.now ∷ []) ≡ result }
{
    match step {
        Step::Globals(is_global) => *is_global,
        Step::Reset => false,
        _ => before,
    }
}

/// What is live behind these steps.
fn live_behind(alloc: Global, steps: &[Step], is_global: bool) -> Result<Live, AllocError>
    ensures live { IfOk result (λ r. (t : Formulas) → live_at t r ≡ live_of (met_in is_global (steps_of t steps.now))) }
    ensures over { IfOk result (λ r. (t : Formulas) → All (IsStepOver t) steps.now → AreLiveOver t r) }
    ensures uses { IfOk result (λ r. (t : Formulas) (uses : Option Uses) → All (HaveUses t uses) steps.now → All (HasUseOf t uses) r.given.items) }
{
    let mut search = Search::new(alloc);
    for place in (0..steps.len()).rev() {
        search.meet(&steps[place], is_global)?;
    }
    let given = items_of(alloc, search.given)?;
    let idle = items_of(alloc, search.idle)?;
    let functions = items_of(alloc, search.functions)?;
    Ok(Live {
        given,
        idle,
        functions,
    })
}
