//! The tables of functions whose applications were removed: a row for each application that is live at a check, with the values
//! of what took the places of its operands, and that of its constant. SMT-LIB 2.6, section 5.3.

ghost use Rattle.std.specs.Prelude.{◌≡◌, ◌++◌, ◌∷◌, [], None, Some, List, map, option_map, All, IfOk, IfSome, OnOk, MatchResult};
ghost use Rattle.smt_terms.specs.Models.{IsModel};
ghost use Rattle.smt_terms.specs.Term.{constant};
ghost use Rattle.smt_terms.specs.Val.{no_variables, val, bits_bound};
ghost use Rattle.smt_values.specs.Meaning.{meaning};
ghost use Rattle.smt_values.specs.Valid.{IsValue};
ghost use Rattle.term_table.specs.Formulas.{Formulas, symbol_at, trees_at, AreNodes, IsSymbol};
ghost use Rattle.models.specs.ModelView.{model_at, IsModelOf};
ghost use Rattle.evaluation.specs.KeptValues.{KeepsBounds, KeepsValues};
ghost use Rattle.pass_laws.specs.Carry.{Asked, asked_for};
ghost use Rattle.passes.specs.LiveRows.{operands_by, asked_for_rows, row_at, with_rows_for, IsNarrowTerm, IsOneBeyond, AreValuesIn, IsRowFor, IsTabling, AreRows};
ghost use Rattle.passes.specs.LiveSymbols.{Given, given_at, widest_of, IsLiveOver, HasUseOf, IsWidest, IsBeyondAmong};
ghost use Rattle.passes.specs.Plans.{use_of, operands_at, IsUse};

use crate::carrying::{Beyond, CarryFault, Wide, is_settled, with_bits};
use crate::plan::Use;
use crate::searching::LiveSymbol;
use evaluation::{ValueFault, bits_bound, value_of};
use indexmap::IndexMap;
use models::Model;
use smt_terms::{NodeId, SymId};
use smt_values::{Value, copy_value, default_value};
use std::alloc::{AllocError, Global};
use term_table::laws::equal_formulas_have_one_number;
use term_table::{Table, know_table};
use term_walk::Kept;

/// The application that a constant stands for.
fn use_of(uses: &IndexMap<SymId, Use>, constant: SymId) -> Option<&Use>
    ensures { option_map (λ u. u.now) result ≡ use_of uses.now.entries constant }
{
    uses.get(&constant)
}

/// What took the places of the operands of an application, by its constant.
fn operands_of(uses: &IndexMap<SymId, Use>, constant: SymId) -> &[NodeId]
    ensures operands { (t : Formulas) → trees_at t result.now ≡ operands_at t (use_of uses.now.entries constant) }
    ensures nodes { (t : Formulas) (k : NodeId) → IfSome (use_of uses.now.entries constant) (IsUse t k) → AreNodes t result.now }
{
    match use_of(uses, constant) {
        Some(found) => found.operands.as_slice(),
        None => &[],
    }
}

/// The least assertion with an operand that binds too many bits, among earlier ones and those of these applications.
pub(crate) fn widest_operands(
    alloc: Global,
    table: &Table,
    uses: &IndexMap<SymId, Use>,
    given: &[LiveSymbol],
    kept: &mut Kept<u32>,
    earlier: Option<Wide>,
) -> Result<Option<Wide>, AllocError>
    requires given { All (IsLiveOver table.now) given.now }
    requires uses { All (HasUseOf table.now (Some uses.now.entries)) given.now }
    requires kept { KeepsBounds table.now kept.old }
    ensures widest { IfOk result (λ w. (qs : List Asked) → IsWidest qs earlier → IsWidest (qs ++ asked_for_rows (Some (operands_by table.now uses.now.entries)) (map (given_at table.now) given.now)) w) }
    ensures kept { KeepsBounds table.now kept.new }
{
    know_table(table);
    let mut widest = earlier;
    for one in given {
        let operands = operands_of(uses, one.symbol);
        widest = widest_terms(alloc, table, operands, one.assertion, kept, widest)?;
    }
    Ok(widest)
}

/// The least assertion with a term that binds too many bits, among earlier ones and this one, which has these terms.
fn widest_terms(
    alloc: Global,
    table: &Table,
    terms: &[NodeId],
    assertion: u64,
    kept: &mut Kept<u32>,
    earlier: Option<Wide>,
) -> Result<Option<Wide>, AllocError>
    requires nodes { AreNodes table.now terms.now }
    requires kept { KeepsBounds table.now kept.old }
    ensures widest { IfOk result (λ w. (qs : List Asked) → IsWidest qs earlier → IsWidest (qs ++ asked_for assertion (trees_at table.now terms.now)) w) }
    ensures kept { KeepsBounds table.now kept.new }
{
    let mut widest = earlier;
    for term in terms {
        let bits = bits_bound(alloc, table, *term, kept)?;
        widest = with_bits(widest, assertion, bits);
    }
    Ok(widest)
}

/// A row of a function: the values of an application's operands, and that of its constant.
#[derive(Drop)]
pub(crate) struct NewRow {
    function: SymId,
    keys: Vec<Value>,
    value: Value,
}

/// Rows of functions, as far as the values of operands are within the range.
#[derive(Drop)]
struct Tabling {
    kept: Kept<Value>,
    rows: Vec<NewRow>,
    /// In the least assertion that has one.
    beyond: Option<Beyond>,
}

impl Tabling {
    /// Makes the row of a live application, unless a value beyond the range was found in its assertion or in one of a lesser
    /// number.
    fn tabulate(
        &mut self,
        alloc: Global,
        table: &Table,
        uses: &IndexMap<SymId, Use>,
        one: LiveSymbol,
        model: &Model,
    ) -> Result<(), AllocError>
        requires one { IsLiveOver table.now one }
        requires used { HasUseOf table.now (Some uses.now.entries) one }
        requires narrow { All IsNarrowTerm (operands_at table.now (use_of uses.now.entries one.symbol)) }
        requires valid { IsModel (model_at table.now model.now) }
        requires numbers { IsModelOf table.now model.now }
        requires kept { KeepsValues table.now (model_at table.now model.now) self.old.kept }
        ensures kept { KeepsValues table.now (model_at table.now model.now) self.new.kept }
        ensures rows { OnOk result ((gs : List Given) → IsTabling table.now model.now (operands_by table.now uses.now.entries) gs self.old
            → IsTabling table.now model.now (operands_by table.now uses.now.entries) (gs ++ given_at table.now one ∷ []) self.new) }
    {
        equal_formulas_have_one_number(table);
        know_table(table);
        if is_settled(self.beyond, one.assertion) {
            return Ok(());
        }
        let Some(found) = use_of(uses, one.symbol) else {
            return Ok(());
        };
        let operands = found.operands.as_slice();
        match values_of_all(alloc, table, operands, model, &mut self.kept) {
            Ok(keys) => {
                let value = constant_value(alloc, table, one.symbol, model)?;
                let function = found.function;
                self.rows.push(NewRow {
                    function,
                    keys,
                    value,
                })?;
                Ok(())
            }
            Err(ValueFault::Beyond128 { node }) => {
                self.beyond = Some(Beyond {
                    assertion: one.assertion,
                    node,
                });
                Ok(())
            }
            Err(ValueFault::Memory) => Err(AllocError),
        }
    }
}

/// The values of these terms.
fn values_of_all(
    alloc: Global,
    table: &Table,
    terms: &[NodeId],
    model: &Model,
    kept: &mut Kept<Value>,
) -> Result<Vec<Value>, ValueFault>
    requires nodes { AreNodes table.now terms.now }
    requires narrow { All IsNarrowTerm (trees_at table.now terms.now) }
    requires valid { IsModel (model_at table.now model.now) }
    requires numbers { IsModelOf table.now model.now }
    requires kept { KeepsValues table.now (model_at table.now model.now) kept.old }
    ensures values { MatchResult result (λ vs. AreValuesIn (model_at table.now model.now) (trees_at table.now terms.now) vs.items) (IsOneBeyond table.now (model_at table.now model.now) terms.now) }
    ensures kept { KeepsValues table.now (model_at table.now model.now) kept.new }
{
    let mut values = Vec::new(alloc);
    for term in terms {
        let value = value_of(alloc, table, *term, model, kept)?;
        push_value(&mut values, value)?;
    }
    Ok(values)
}

/// Puts a value last.
fn push_value(values: &mut Vec<Value>, value: Value) -> Result<(), AllocError>
    ensures { OnOk result (values.new.items ≡ values.old.items ++ value ∷ []) }
{
    values.push(value)?;
    Ok(())
}

/// The value of a constant, which is its sort's default where the model hasn't the constant.
fn constant_value(
    alloc: Global,
    table: &Table,
    symbol: SymId,
    model: &Model,
) -> Result<Value, AllocError>
    requires symbol { IsSymbol table.now symbol }
    requires valid { IsModel (model_at table.now model.now) }
    ensures value { IfOk result (λ v. meaning v ≡ val (model_at table.now model.now) (constant (symbol_at table.now symbol)) no_variables) }
    ensures valid { IfOk result (λ v. IsValue (symbol_at table.now symbol).result (model_at table.now model.now).sizes v) }
{
    know_table(table);
    match model.otherwise(symbol) {
        Some(value) => {
            let copy = copy_value(alloc, value)?;
            Ok(copy)
        }
        None => {
            let (_, sort) = table.symbol_rank(symbol);
            let value = default_value(alloc, table.sorts(), sort)?;
            Ok(value)
        }
    }
}

/// A row for each live application, in the order drawn.
pub(crate) fn rows_of(
    alloc: Global,
    table: &Table,
    uses: &IndexMap<SymId, Use>,
    given: &[LiveSymbol],
    model: &Model,
) -> Result<Vec<NewRow>, CarryFault>
    requires given { All (IsLiveOver table.now) given.now }
    requires uses { All (HasUseOf table.now (Some uses.now.entries)) given.now }
    requires narrow { widest_of (asked_for_rows (Some (operands_by table.now uses.now.entries)) (map (given_at table.now) given.now)) ≡ None }
    requires valid { IsModel (model_at table.now model.now) }
    requires numbers { IsModelOf table.now model.now }
    ensures { MatchResult result (λ rs. AreRows table.now model.now (operands_by table.now uses.now.entries) (map (given_at table.now) given.now) rs.items)
        (IsBeyondAmong table.now (model_at table.now model.now) (asked_for_rows (Some (operands_by table.now uses.now.entries)) (map (given_at table.now) given.now))) }
{
    know_table(table);
    let mut tabling = Tabling {
        kept: Kept::new(alloc),
        rows: Vec::new(alloc),
        beyond: None,
    };
    for one in given {
        tabling.tabulate(alloc, table, uses, *one, model)?;
    }
    match tabling.beyond {
        None => Ok(tabling.rows),
        Some(Beyond { assertion, node }) => Err(CarryFault::Beyond128 { assertion, node }),
    }
}

/// Gives functions these rows, one after the other. A function that isn't in the model gets none.
pub(crate) fn add_rows(
    table: &Table,
    rows: Vec<NewRow>,
    model: &mut Model,
) -> Result<(), AllocError>
    requires rows { All (IsRowFor table.now model.old) rows.items }
    requires valid { IsModel (model_at table.now model.old) }
    ensures model { OnOk result (model_at table.now model.new ≡ with_rows_for (map (row_at table.now) rows.items) (model_at table.now model.old)) }
    ensures valid { OnOk result (IsModel (model_at table.now model.new)) }
    ensures numbers { OnOk result (IsModelOf table.now model.old → IsModelOf table.now model.new) }
{
    let mut left = rows;
    left.reverse();
    while let Some(row) = left.pop() {
        add_row(table, row, model)?;
    }
    Ok(())
}

/// Gives a function a row. A function that isn't in the model gets none.
fn add_row(table: &Table, row: NewRow, model: &mut Model) -> Result<(), AllocError>
    requires row { IsRowFor table.now model.old row }
    requires valid { IsModel (model_at table.now model.old) }
    ensures model { OnOk result (model_at table.now model.new ≡ with_rows_for (row_at table.now row ∷ []) (model_at table.now model.old)) }
    ensures valid { OnOk result (IsModel (model_at table.now model.new)) }
    ensures numbers { OnOk result (IsModelOf table.now model.old → IsModelOf table.now model.new) }
    ensures sizes { OnOk result (model.new.sizes ≡ model.old.sizes) }
{
    know_table(table);
    let NewRow {
        function,
        keys,
        value,
    } = row;
    if model.graph(function).is_some() {
        model.add_row(table, function, keys, value)?;
        return Ok(());
    }
    Ok(())
}
