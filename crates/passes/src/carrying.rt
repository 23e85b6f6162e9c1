//! Models carried over the passes that a script went through: from behind them to before them, and the other way. SMT-LIB 2.6,
//! section 5.3, for the values of terms.
//!
//! Back, the values of all new symbols are dropped; where applications were removed, each function that is live at the check
//! gets a row for each live application, with the values of its operands and of its constant. Forth, a new symbol whose
//! assertion is live at the check gets the value of the term that it stands for, in the model before the pass, and one that is
//! only declared there its sort's default; where applications were removed, functions with arguments are left out.

ghost use Rattle.std.specs.Prelude.{◌≡◌, ◌≤◌, ◌<◌, ◌+◌, ◌⊎◌, ◌++◌, ℕ, None, Some, List, [], ◌∷◌, map, Option, false, All, IfOk, OnOk, MatchResult};
ghost use Rattle.smt_terms.specs.Fresh.{Supply};
ghost use Rattle.smt_terms.specs.Models.{IsModel};
ghost use Rattle.smt_terms.specs.Term.{Term};
ghost use Rattle.smt_terms.specs.Val.{bits_bound};
ghost use Rattle.term_table.specs.Formulas.{Formulas, symbol_at, tree, IsSymbol, IsTable};
ghost use Rattle.script_read.specs.Commands.{Command};
ghost use Rattle.models.specs.ModelView.{model_at, IsModelOf};
ghost use Rattle.evaluation.specs.Evaluated.{told_bits};
ghost use Rattle.evaluation.specs.KeptValues.{KeepsBounds, KeepsValues};
ghost use Rattle.pass_laws.specs.declared.names.Pass.{Pass};
ghost use Rattle.pass_laws.specs.Carry.{Asked};
ghost use Rattle.passes.specs.Carrying.{CarriesBack, CarriesForth};
ghost use Rattle.pass_laws.specs.Laws.{IsReady};
ghost use Rattle.pass_laws.specs.Lists.{groups_after_rules};
ghost use Rattle.pass_laws.specs.LiveGroups.{without_drawn, back_by, back_stages_by, forth_by, forth_stages_by};
ghost use Rattle.passes.specs.LiveRows.{asked_at, all_asked_at, IsLiveStage, AreLiveStages, Returns, AreAppliedAt};
ghost use Rattle.passes.specs.LiveSymbols.{Given, asked_in, all_asked_in, kept_over, with_defaults, with_each, widest_of, given_at, live_at, lives_at, dropped_at, valued_at, IsLiveOver, AreLiveOver, AreLiveAt, IsWidest, IsTooWide, IsValueFor, IsValuation, AreValues, IsBeyondAmong, is_settled, Gives, Answers};
ghost use Rattle.passes.specs.Plans.{steps_of, told_of, IsPlanOf, IsPlanOver, IsStageOver, IsPairOver};

use crate::plan::{Plan, Stage, Step};
use crate::searching::{Live, LiveSymbol, live_at_each};
use crate::tables::{add_rows, rows_of, widest_operands};
use evaluation::{ValueFault, bits_bound, value_of};
use models::Model;
use pass_laws::laws::{
    groups_carry_models, passes_keep_commands, removals_carry_models, removals_tell_models,
    steps_tell_models,
};
use smt_terms::{NodeId, SymId};
use smt_values::{Value, default_value};
use std::alloc::{AllocError, Global};
use term_subst::SymPairs;
use term_table::{Table, know_table};
use term_walk::Kept;
use thiserror::Error;

/// Why a model isn't carried over passes.
#[derive(Clone, Copy, Debug, PartialEq, Eq, Error)]
pub enum CarryFault {
    /// The script hasn't got this check; it has so many.
    #[error("check {check} of {checks}")]
    NoSuchCheck { check: u64, checks: u64 },
    /// A term for this assertion binds so many bits on a path, more than 16.
    #[error("{bits} bits are bound on a path in assertion {assertion}")]
    EvalWidth { assertion: u64, bits: u32 },
    /// A term for this assertion has this subterm, a whole number outside the range.
    #[error("a value beyond 128 bits in assertion {assertion}")]
    Beyond128 { assertion: u64, node: NodeId },
    /// There is no memory.
    #[error("want of memory")]
    Memory,
}

impl From<AllocError> for CarryFault {
    ghost use Rattle.std.specs.Prelude.{◌≡◌};
    ghost use Rattle.passes.specs.declared.carrying.CarryFault.TheVariants.{Memory};

    ghost from_gives = { λ _ made. made ≡ Memory };

    fn from(_error: AllocError) -> CarryFault {
        CarryFault::Memory
    }
}

/// As many bits may be bound on a path.
const MOST_BITS: u32 = 16;

/// The model of the script before the passes that a model of the script behind them stands for, at a check.
pub fn back(
    alloc: Global,
    table: &Table,
    plan: &Plan,
    model: Model,
    check: u64,
) -> Result<Model, CarryFault>
    requires plan { IsPlanOver table.now plan.now }
    requires numbers { IsModelOf table.now model }
    requires valid { IsModel (model_at table.now model) }
    ensures { (ps : List Pass) (cs : List (Command Term)) (s : Supply) → IsPlanOf table.now plan.now ps cs s → IsReady cs s → groups_after_rules ps ≡ false
        → CarriesBack table.now ps cs s check (model_at table.now model) result }
{
    passes_keep_commands();
    groups_carry_models();
    steps_tell_models();
    removals_carry_models();
    removals_tell_models();
    find_check(plan, check)?;
    let found = live_at_each(alloc, plan, check)?;
    let stages = plan.stages.as_slice();
    let lives = found.as_slice();
    check_operand_widths(alloc, table, stages, lives)?;
    let model = return_all(alloc, table, stages, lives, model)?;
    Ok(model)
}

/// The model of the script behind the passes that a model of the script before them stands for, at a check.
pub fn forth(
    alloc: Global,
    table: &Table,
    plan: &Plan,
    model: Model,
    check: u64,
) -> Result<Model, CarryFault>
    requires plan { IsPlanOver table.now plan.now }
    requires numbers { IsModelOf table.now model }
    requires valid { IsModel (model_at table.now model) }
    ensures { (ps : List Pass) (cs : List (Command Term)) (s : Supply) → IsPlanOf table.now plan.now ps cs s → IsReady cs s → groups_after_rules ps ≡ false
        → CarriesForth table.now ps cs s check (model_at table.now model) result }
{
    passes_keep_commands();
    groups_carry_models();
    steps_tell_models();
    removals_carry_models();
    removals_tell_models();
    find_check(plan, check)?;
    let found = live_at_each(alloc, plan, check)?;
    let stages = plan.stages.as_slice();
    let lives = found.as_slice();
    check_widths(alloc, table, lives)?;
    let model = give_all(alloc, table, stages, lives, model)?;
    Ok(model)
}

/// Refuses a check that the script hasn't got.
fn find_check(plan: &Plan, check: u64) -> Result<(), CarryFault>
    ensures { MatchResult result
        (λ _. (1 ≤ check) × (check ≤ plan.now.checks))
        (λ e. (e ≡ CarryFault.NoSuchCheck check plan.now.checks) × ((check ≡ 0) ⊎ (plan.now.checks < check))) }
{
    let checks = plan.checks;
    if check == 0 {
        return Err(CarryFault::NoSuchCheck { check, checks });
    }
    if check > checks {
        return Err(CarryFault::NoSuchCheck { check, checks });
    }
    Ok(())
}

// ---- back

/// The model before the passes, from the last to the first.
fn return_all(
    alloc: Global,
    table: &Table,
    stages: &[Stage],
    lives: &[Live],
    model: Model,
) -> Result<Model, CarryFault>
    requires live { AreLiveStages table.now stages.now lives.now }
    requires narrow { widest_of (all_asked_at table.now stages.now lives.now) ≡ None }
    requires valid { IsModel (model_at table.now model) }
    requires numbers { IsModelOf table.now model }
    ensures { (k : ℕ) → AreLiveAt table.now k (map (told_of table.now) stages.now) lives.now → AreAppliedAt k (map (told_of table.now) stages.now)
        → Answers table.now (back_stages_by k (map (told_of table.now) stages.now) (model_at table.now model)) (back_by k (map (told_of table.now) stages.now) (model_at table.now model)) result }
{
    let mut model = model;
    for place in (0..stages.len()).rev() {
        return_over(alloc, table, &stages[place], &lives[place], &mut model)?;
    }
    Ok(model)
}

/// The model before a pass.
fn return_over(
    alloc: Global,
    table: &Table,
    stage: &Stage,
    live: &Live,
    model: &mut Model,
) -> Result<(), CarryFault>
    requires live { IsLiveStage table.now stage.now live.now }
    requires narrow { widest_of (asked_at table.now stage.now live.now) ≡ None }
    requires valid { IsModel (model_at table.now model.old) }
    requires numbers { IsModelOf table.now model.old }
    ensures { MatchResult result (λ _. Returns table.now stage.now live.now model.old model.new) (IsBeyondAmong table.now (model_at table.now model.old) (asked_at table.now stage.now live.now)) }
{
    know_table(table);
    let Some(uses) = &stage.uses else {
        forget_drawn(stage, model);
        return Ok(());
    };
    let given = live.given.as_slice();
    let functions = live.functions.as_slice();
    let rows = rows_of(alloc, table, uses, given, model)?;
    forget_drawn(stage, model);
    define_defaults(alloc, table, functions, model)?;
    add_rows(table, rows, model)?;
    Ok(())
}

/// Drops the values of all symbols that a pass drew.
fn forget_drawn(stage: &Stage, model: &mut Model)
    ensures model { (t : Formulas) → IsTable t → IsStageOver t stage.now → model_at t model.new ≡ without_drawn (steps_of t stage.now.steps.items) (model_at t model.old) }
    ensures valid { (t : Formulas) → IsTable t → IsStageOver t stage.now → IsModel (model_at t model.old) → IsModel (model_at t model.new) }
    ensures numbers { (t : Formulas) → IsModelOf t model.old → IsModelOf t model.new }
{
    for step in &stage.steps {
        if let Step::Group { symbols, .. } = step {
            forget_symbols(symbols, model);
        }
    }
}

/// Drops the values of these symbols.
fn forget_symbols(symbols: &SymPairs, model: &mut Model)
    ensures model { (t : Formulas) → IsTable t → All (IsPairOver t) symbols.now → model_at t model.new ≡ dropped_at t symbols.now (model_at t model.old) }
    ensures valid { (t : Formulas) → IsTable t → All (IsPairOver t) symbols.now → IsModel (model_at t model.old) → IsModel (model_at t model.new) }
    ensures numbers { (t : Formulas) → IsModelOf t model.old → IsModelOf t model.new }
{
    for place in 0..symbols.len() {
        let (symbol, _) = symbols.get(place);
        model.forget(symbol);
    }
}

// ---- terms that bind too many bits

/// An assertion with a term that binds too many bits, and the greatest bound of its terms.
#[derive(Clone, Copy)]
pub(crate) struct Wide {
    assertion: u64,
    bits: u32,
}

/// Refuses the least assertion with a term that binds too many bits.
fn check_widths(alloc: Global, table: &Table, lives: &[Live]) -> Result<(), CarryFault>
    requires { All (AreLiveOver table.now) lives.now }
    ensures { MatchResult result (λ _. widest_of (all_asked_in (lives_at table.now lives.now)) ≡ None) (IsTooWide (all_asked_in (lives_at table.now lives.now))) }
{
    let mut kept = Kept::new(alloc);
    let mut widest = None;
    for live in lives {
        let given = live.given.as_slice();
        widest = widest_with(alloc, table, given, &mut kept, widest)?;
    }
    within_width(widest)?;
    Ok(())
}

/// Refuses the least assertion with a live application that has an operand which binds too many bits.
fn check_operand_widths(
    alloc: Global,
    table: &Table,
    stages: &[Stage],
    lives: &[Live],
) -> Result<(), CarryFault>
    requires { AreLiveStages table.now stages.now lives.now }
    ensures { MatchResult result (λ _. widest_of (all_asked_at table.now stages.now lives.now) ≡ None) (IsTooWide (all_asked_at table.now stages.now lives.now)) }
{
    let mut kept = Kept::new(alloc);
    let mut widest = None;
    for place in (0..stages.len()).rev() {
        widest = widest_of_stage(
            alloc,
            table,
            &stages[place],
            &lives[place],
            &mut kept,
            widest,
        )?;
    }
    within_width(widest)?;
    Ok(())
}

/// The least assertion with a live application that has an operand which binds too many bits, among earlier ones and those of a
/// stage.
fn widest_of_stage(
    alloc: Global,
    table: &Table,
    stage: &Stage,
    live: &Live,
    kept: &mut Kept<u32>,
    earlier: Option<Wide>,
) -> Result<Option<Wide>, AllocError>
    requires live { IsLiveStage table.now stage.now live.now }
    requires kept { KeepsBounds table.now kept.old }
    ensures widest { IfOk result (λ w. (qs : List Asked) → IsWidest qs earlier → IsWidest (qs ++ asked_at table.now stage.now live.now) w) }
    ensures kept { KeepsBounds table.now kept.new }
{
    let Some(uses) = &stage.uses else {
        return Ok(earlier);
    };
    let given = live.given.as_slice();
    let widest = widest_operands(alloc, table, uses, given, kept, earlier)?;
    Ok(widest)
}

/// Refuses an assertion with a term that binds too many bits.
fn within_width(widest: Option<Wide>) -> Result<(), CarryFault>
    ensures { (qs : List Asked) → IsWidest qs widest → MatchResult result (λ _. widest_of qs ≡ None) (IsTooWide qs) }
{
    match widest {
        None => Ok(()),
        Some(Wide { assertion, bits }) => Err(CarryFault::EvalWidth { assertion, bits }),
    }
}

/// The least assertion with a term that binds too many bits, among earlier ones and these.
fn widest_with(
    alloc: Global,
    table: &Table,
    given: &[LiveSymbol],
    kept: &mut Kept<u32>,
    earlier: Option<Wide>,
) -> Result<Option<Wide>, AllocError>
    requires given { All (IsLiveOver table.now) given.now }
    requires kept { KeepsBounds table.now kept.old }
    ensures widest { IfOk result (λ w. (qs : List Asked) → IsWidest qs earlier → IsWidest (qs ++ asked_in (map (given_at table.now) given.now)) w) }
    ensures kept { KeepsBounds table.now kept.new }
{
    let mut widest = earlier;
    for one in given {
        let bits = bits_bound(alloc, table, one.term, kept)?;
        widest = with_bits(widest, one.assertion, bits);
    }
    Ok(widest)
}

/// The least assertion so far with a term that binds too many bits, where this one has a term that binds so many.
pub(crate) fn with_bits(widest: Option<Wide>, assertion: u64, bits: u32) -> Option<Wide>
    ensures { (qs : List Asked) (u : Term) → bits ≡ told_bits (bits_bound u) → IsWidest qs widest → IsWidest (qs ++ record { number = assertion; term = u } ∷ []) result }
{
    let Some(wide) = widest else {
        if bits > MOST_BITS {
            return Some(Wide { assertion, bits });
        }
        return None;
    };
    if assertion == wide.assertion {
        return Some(Wide {
            assertion,
            bits: wide.bits.max(bits),
        });
    }
    if bits <= MOST_BITS || wide.assertion < assertion {
        return Some(wide);
    }
    Some(Wide { assertion, bits })
}

// ---- values

/// A subterm of a term of an assertion that is a whole number outside the range.
#[derive(Clone, Copy)]
pub(crate) struct Beyond {
    pub(crate) assertion: u64,
    pub(crate) node: NodeId,
}

/// Symbols with the values of their terms, as far as these are within the range.
#[derive(Drop)]
struct Valuation {
    kept: Kept<Value>,
    values: Vec<(SymId, Value)>,
    /// In the least assertion that has one.
    beyond: Option<Beyond>,
}

impl Valuation {
    /// Values the term of a symbol, unless a value beyond the range was found in its assertion or in one of a lesser number.
    fn value(
        &mut self,
        alloc: Global,
        table: &Table,
        one: LiveSymbol,
        model: &Model,
    ) -> Result<(), AllocError>
        requires one { IsLiveOver table.now one }
        requires narrow { bits_bound (tree table.now one.term) ≤ 16 }
        requires valid { IsModel (model_at table.now model.now) }
        requires numbers { IsModelOf table.now model.now }
        requires kept { KeepsValues table.now (model_at table.now model.now) self.old.kept }
        ensures kept { KeepsValues table.now (model_at table.now model.now) self.new.kept }
        ensures values { OnOk result ((gs : List Given) → IsValuation table.now model.now gs self.old → IsValuation table.now model.now (gs ++ given_at table.now one ∷ []) self.new) }
    {
        if is_settled(self.beyond, one.assertion) {
            return Ok(());
        }
        match value_of(alloc, table, one.term, model, &mut self.kept) {
            Ok(value) => {
                self.values.push((one.symbol, value))?;
                Ok(())
            }
            Err(ValueFault::Beyond128 { node }) => {
                self.beyond = Some(Beyond {
                    assertion: one.assertion,
                    node,
                });
                Ok(())
            }
            Err(ValueFault::Memory) => Err(AllocError),
        }
    }
}

/// Whether a value beyond the range was found in this assertion or in one of a lesser number.
pub(crate) fn is_settled(beyond: Option<Beyond>, assertion: u64) -> bool
    ensures { result ≡ is_settled beyond assertion }
{
    match beyond {
        Some(found) => found.assertion <= assertion,
        None => false,
    }
}

/// The symbols with the values of their terms.
fn values_of(
    alloc: Global,
    table: &Table,
    given: &[LiveSymbol],
    model: &Model,
) -> Result<Vec<(SymId, Value)>, CarryFault>
    requires given { All (IsLiveOver table.now) given.now }
    requires narrow { widest_of (asked_in (map (given_at table.now) given.now)) ≡ None }
    requires valid { IsModel (model_at table.now model.now) }
    requires numbers { IsModelOf table.now model.now }
    ensures { MatchResult result (λ vs. AreValues table.now model.now (map (given_at table.now) given.now) vs.items) (IsBeyondAmong table.now (model_at table.now model.now) (asked_in (map (given_at table.now) given.now))) }
{
    let mut valuation = Valuation {
        kept: Kept::new(alloc),
        values: Vec::new(alloc),
        beyond: None,
    };
    for one in given {
        valuation.value(alloc, table, *one, model)?;
    }
    match valuation.beyond {
        None => Ok(valuation.values),
        Some(Beyond { assertion, node }) => Err(CarryFault::Beyond128 { assertion, node }),
    }
}

/// Gives symbols these values; of a symbol that stands twice the first value counts.
fn define_each(
    table: &Table,
    values: Vec<(SymId, Value)>,
    model: &mut Model,
) -> Result<(), AllocError>
    requires { All (IsValueFor table.now model.old) values.items }
    ensures model { OnOk result (model_at table.now model.new ≡ with_each (map (valued_at table.now) values.items) (model_at table.now model.old)) }
    ensures valid { OnOk result (IsModel (model_at table.now model.old) → IsModel (model_at table.now model.new)) }
    ensures numbers { OnOk result (IsModelOf table.now model.old → IsModelOf table.now model.new) }
{
    let mut values = values;
    while let Some((symbol, value)) = values.pop() {
        model.define(table, symbol, value)?;
    }
    Ok(())
}

/// Gives symbols the defaults of their sorts.
fn define_defaults(
    alloc: Global,
    table: &Table,
    symbols: &[SymId],
    model: &mut Model,
) -> Result<(), AllocError>
    requires symbols { All (IsSymbol table.now) symbols.now }
    requires valid { IsModel (model_at table.now model.old) }
    ensures model { OnOk result (model_at table.now model.new ≡ with_defaults (map (symbol_at table.now) symbols.now) (model_at table.now model.old)) }
    ensures valid { OnOk result (IsModel (model_at table.now model.new)) }
    ensures numbers { OnOk result (IsModelOf table.now model.old → IsModelOf table.now model.new) }
    ensures sizes { OnOk result (model.new.sizes ≡ model.old.sizes) }
{
    for symbol in symbols {
        let (_, sort) = table.symbol_rank(*symbol);
        let value = default_value(alloc, table.sorts(), sort)?;
        model.define(table, *symbol, value)?;
    }
    Ok(())
}

/// Gives the symbols of live assertions the values of their terms, and others that are live the defaults of their sorts. Where
/// applications were removed, functions with arguments are left out.
fn give(
    alloc: Global,
    table: &Table,
    live: &Live,
    is_removal: bool,
    model: &mut Model,
) -> Result<(), CarryFault>
    requires live { AreLiveOver table.now live.now }
    requires narrow { widest_of (asked_in (live_at table.now live.now).given) ≡ None }
    requires valid { IsModel (model_at table.now model.old) }
    requires numbers { IsModelOf table.now model.old }
    ensures { MatchResult result (λ _. Gives table.now (live_at table.now live.now) is_removal model.old model.new) (IsBeyondAmong table.now (model_at table.now model.old) (asked_in (live_at table.now live.now).given)) }
{
    let given = live.given.as_slice();
    let idle = live.idle.as_slice();
    let values = values_of(alloc, table, given, model)?;
    leave_out(table, is_removal, model);
    define_defaults(alloc, table, idle, model)?;
    define_each(table, values, model)?;
    Ok(())
}

/// Leaves functions with arguments out where applications were removed.
fn leave_out(table: &Table, is_removal: bool, model: &mut Model)
    requires valid { IsModel (model_at table.now model.old) }
    requires numbers { IsModelOf table.now model.old }
    ensures model { model_at table.now model.new ≡ kept_over is_removal (model_at table.now model.old) }
    ensures valid { IsModel (model_at table.now model.new) }
    ensures numbers { IsModelOf table.now model.new }
    ensures sizes { model.new.sizes ≡ model.old.sizes }
{
    if is_removal {
        model.forget_functions(table);
    }
}

/// The same for each pass, from the first to the last.
fn give_all(
    alloc: Global,
    table: &Table,
    stages: &[Stage],
    lives: &[Live],
    model: Model,
) -> Result<Model, CarryFault>
    requires live { AreLiveStages table.now stages.now lives.now }
    requires narrow { widest_of (all_asked_in (lives_at table.now lives.now)) ≡ None }
    requires valid { IsModel (model_at table.now model) }
    requires numbers { IsModelOf table.now model }
    ensures { (k : ℕ) → AreLiveAt table.now k (map (told_of table.now) stages.now) lives.now
        → Answers table.now (forth_stages_by k (map (told_of table.now) stages.now) (model_at table.now model)) (forth_by k (map (told_of table.now) stages.now) (model_at table.now model)) result }
{
    let mut model = model;
    for place in 0..stages.len() {
        let is_removal = stages[place].uses.is_some();
        give(alloc, table, &lives[place], is_removal, &mut model)?;
    }
    Ok(model)
}
