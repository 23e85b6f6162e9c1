//! The value of a node at values of its operands.

ghost use Rattle.std.specs.Prelude.{◌≡◌, ◌<◌, false, length, IfOk, IfSome, IfNone, IsFalse};
ghost use Rattle.smt_terms.specs.Models.{IsModel, symbol_value};
ghost use Rattle.smt_terms.specs.Operators.{first_sort};
ghost use Rattle.smt_terms.specs.Val.{value_in_range};
ghost use Rattle.smt_terms.specs.Values as plain;
ghost use Rattle.smt_values.specs.Meaning.{meaning, IsHeld};
ghost use Rattle.smt_values.specs.SizeTable.{sizes_by};
ghost use Rattle.smt_values.specs.SortIds.{sort_at, IsSortId};
ghost use Rattle.term_table.specs.Formulas.{tree, symbol_at, IsNode, IsSymbol};
ghost use Rattle.term_walk.specs.Binders.{is_quantified};
ghost use Rattle.models.specs.GraphRows.{meanings, AreValues};
ghost use Rattle.models.specs.ModelView.{model_at};
ghost use Rattle.evaluation.specs.Operated.{operand_sorts, applied_at};

mod arrays;
mod equality;
mod scalars;

use arrays::{filled, read, written};
use equality::{are_distinct, are_equal, chosen};
use models::Model;
use scalars::value_at_scalars;
use smt_terms::{NodeId, SortId};
use smt_values::{Op, Scalar, SymId, Value, copy_value, default_value};
use std::alloc::{AllocError, Global};
use term_table::{Table, know_table};

fn truth(truth: bool) -> Value
    ensures value { meaning result ≡ plain.truth truth }
    ensures held { IsHeld result }
{
    Value::Scalar(Scalar::Truth(truth))
}

// The sort of a node's first operand.
fn first_sort(table: &Table, id: NodeId) -> SortId
    requires node { IsNode table.now id }
    requires there { 0 < length (operand_sorts (tree table.now id)) }
    ensures sort { sort_at table.now.sorts result ≡ first_sort (operand_sorts (tree table.now id)) }
    ensures within { IsSortId table.now.sorts result }
{
    table.sort_of(table.kids(id)[0])
}

// The value of a symbol at these arguments, which is the default of its sort where the model hasn't the symbol.
fn symbol_value(
    alloc: Global,
    table: &Table,
    model: &Model,
    symbol: SymId,
    args: &[Value],
) -> Result<Value, AllocError>
    requires symbol { IsSymbol table.now symbol }
    requires valid { IsModel (model_at table.now model.now) }
    requires args { AreValues (symbol_at table.now symbol).args (sizes_by table.now.sorts model.now.sizes) args.now }
    ensures value { IfOk result (λ v. meaning v ≡ symbol_value (model_at table.now model.now) (symbol_at table.now symbol) (meanings args.now)) }
    ensures held { IfOk result IsHeld }
{
    match model.value_at(table, symbol, args) {
        Some(value) => copy_value(alloc, value),
        None => {
            let (_, sort) = table.symbol_rank(symbol);
            default_value(alloc, table.sorts(), sort)
        }
    }
}

// The value of a node that is no quantifier, at these values of its operands and where no variable is bound. None where it is
// a whole number outside the range.
pub(crate) fn applied_value(
    alloc: Global,
    table: &Table,
    model: &Model,
    id: NodeId,
    args: Vec<Value>,
) -> Result<Option<Value>, AllocError>
    requires node { IsNode table.now id }
    requires applied { is_quantified (tree table.now id) ≡ false }
    requires valid { IsModel (model_at table.now model.now) }
    requires args { AreValues (operand_sorts (tree table.now id)) (sizes_by table.now.sorts model.now.sizes) args.items }
    ensures value { IfOk result (λ found. IfSome found (λ v. meaning v ≡ applied_at (model_at table.now model.now) (tree table.now id) (meanings args.items))) }
    ensures held { IfOk result (λ found. IfSome found IsHeld) }
    ensures beyond { IfOk result (λ found. IfNone found (IsFalse (value_in_range (applied_at (model_at table.now model.now) (tree table.now id) (meanings args.items))))) }
{
    know_table(table);
    let (sorts, sizes) = (table.sorts(), model.sizes());
    match table.op(id) {
        Op::Sym(symbol) => Ok(Some(symbol_value(alloc, table, model, symbol, args.as_slice())?)),
        Op::ConstArray(_) => Ok(Some(filled(alloc, args)?)),
        Op::Equal => {
            let equal = are_equal(args.as_slice(), first_sort(table, id), sorts, sizes);
            Ok(Some(truth(equal)))
        }
        Op::Distinct => {
            let distinct = are_distinct(args.as_slice(), first_sort(table, id), sorts, sizes);
            Ok(Some(truth(distinct)))
        }
        Op::Ite => Ok(Some(chosen(args))),
        Op::Select => {
            let value = read(alloc, args.as_slice(), first_sort(table, id), sorts, sizes)?;
            Ok(Some(value))
        }
        Op::Store => {
            let array = written(alloc, args, first_sort(table, id), sorts, sizes)?;
            Ok(Some(array))
        }
        op => value_at_scalars(alloc, model, op, args.as_slice()),
    }
}
