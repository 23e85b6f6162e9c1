//! The variables that are bound above a place of a formula, with their values.

ghost use Rattle.std.specs.Prelude.{◌≡◌, ◌<◌, ◌^◌, ◌++◌, ◌∷◌, [], false, IfSome, IfNone, OnOk, option_map};
ghost use Rattle.smt_terms.specs.Models.{Model};
ghost use Rattle.smt_terms.specs.Term.{constant_of};
ghost use Rattle.smt_terms.specs.Val.{sort_bits, val};
ghost use Rattle.smt_values.specs.Meaning.{scalar_value, IsScalar};
ghost use Rattle.smt_values.specs.Numbered.{numbered};
ghost use Rattle.term_table.specs.Formulas.{tree, symbol_at, variable_of, operands, IsNode, IsSymbol};
ghost use Rattle.term_walk.specs.Binders.{is_quantified};
ghost use Rattle.evaluation.specs.Bindings.{env_of, IsBinding, AreBindings};
ghost use Rattle.evaluation.specs.Choices.{IsVariable};
ghost use Rattle.evaluation.specs.Operated.{applied_at, operand_values};

use smt_terms::NodeId;
use smt_values::{Op, Scalar, SortId, SymId};
use std::alloc::AllocError;
use term_table::{Table, know_table};

// A variable, as the symbol of its constant, and its value.
#[derive(Clone, Copy)]
pub(crate) struct Binding {
    pub(crate) symbol: SymId,
    pub(crate) value: Scalar,
}

// The value of a symbol that is bound. Of two bindings the later one counts.
fn bound_value(table: &Table, bindings: &[Binding], symbol: SymId) -> Option<Scalar>
    requires symbol { IsSymbol table.now symbol }
    requires bindings { AreBindings table.now bindings.now }
    ensures value { option_map scalar_value result ≡ env_of table.now bindings.now (symbol_at table.now symbol) }
    ensures scalar { IfSome result IsScalar }
{
    know_table(table);
    let mut found = None;
    for binding in bindings {
        if binding.symbol == symbol {
            found = Some(binding.value);
        }
    }
    found
}

// The value of a node that is a bound variable.
#[tactic(auto, unfolding(term_table::specs::Formulas::kind))]
pub(crate) fn variable_value(table: &Table, bindings: &[Binding], id: NodeId) -> Option<Scalar>
    requires node { IsNode table.now id }
    requires bindings { AreBindings table.now bindings.now }
    ensures value { (m : Model) → IfSome result (λ s. val m (tree table.now id) (env_of table.now bindings.now) ≡ scalar_value s) }
    ensures scalar { IfSome result IsScalar }
    ensures leaf { IfSome result (λ _. operands (tree table.now id) ≡ []) }
    ensures none { (m : Model) → is_quantified (tree table.now id) ≡ false → IfNone result (val m (tree table.now id) (env_of table.now bindings.now) ≡ applied_at m (tree table.now id) (operand_values m (env_of table.now bindings.now) (tree table.now id))) }
{
    if !table.kids(id).is_empty() {
        return None;
    }
    match table.op(id) {
        Op::Sym(symbol) => bound_value(table, bindings, symbol),
        _ => None,
    }
}

// How many bits a variable binds.
#[tactic(auto, unfolding(term_table::specs::Formulas::kind))]
pub(crate) fn bits_of(table: &Table, id: NodeId) -> u32
    requires { IsVariable table.now id }
    ensures { result ≡ sort_bits (variable_of (tree table.now id)).sort }
{
    let sort = table.sort_of(id);
    if sort == SortId::BOOL {
        return 1;
    }
    sort.0 as u32 - 1
}

// A variable with the value of this number.
#[tactic(auto, unfolding(term_table::specs::Formulas::kind))]
pub(crate) fn chosen(table: &Table, id: NodeId, number: u32) -> Binding
    requires variable { IsVariable table.now id }
    requires number { number < 2 ^ sort_bits (variable_of (tree table.now id)).sort }
    ensures symbol { symbol_at table.now result.symbol ≡ constant_of (variable_of (tree table.now id)) }
    ensures value { scalar_value result.value ≡ numbered (variable_of (tree table.now id)).sort number }
    ensures binding { IsBinding table.now result }
{
    let Op::Sym(symbol) = table.op(id) else {
        unreachable!()
    };
    if table.sort_of(id) == SortId::BOOL {
        let value = Scalar::Truth(number == 1);
        return Binding { symbol, value };
    }
    let value = Scalar::Bits {
        width: bits_of(table, id),
        bits: u128::from(number),
    };
    Binding { symbol, value }
}

// Puts a binding behind the others.
pub(crate) fn enter(bindings: &mut Vec<Binding>, binding: Binding) -> Result<(), AllocError>
    ensures { OnOk result (bindings.new.items ≡ bindings.old.items ++ binding ∷ []) }
{
    bindings.push(binding)?;
    Ok(())
}
