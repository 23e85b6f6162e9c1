//! What is below a node, up to the quantifiers, in the order in which values are found.

ghost use Rattle.std.specs.Prelude.{◌≡◌, ◌≤◌, IfOk};
ghost use Rattle.smt_terms.specs.Val.{bits_bound};
ghost use Rattle.term_table.specs.Formulas.{tree, IsNode};
ghost use Rattle.evaluation.specs.Evaluated.{most_bits};
ghost use Rattle.evaluation.specs.Orders.{IsOrder};

use quantifier_forms::listing::{Choice, list};
use smt_terms::NodeId;
use smt_values::Value;
use std::alloc::{AllocError, Global};
use term_table::{Table, know_table};
use term_walk::{Kept, is_binder};

// Without the nodes that have a value, and without what is below quantifiers.
#[derive(Drop)]
struct Unknown<'a> {
    kept: &'a Kept<Value>,
}

impl<'a> Choice for Unknown<'a> {
    ghost use Rattle.std.specs.Prelude.{not, is_some};
    ghost use Rattle.term_table.specs.Formulas.{tree};
    ghost use Rattle.term_walk.specs.Binders.{is_quantified};
    ghost use Rattle.term_walk.specs.Places.{result_at};

    ghost skips = { λ s k. is_some (result_at s.kept.now k.0) };

    ghost opens = { λ _ t k. not (is_quantified (tree t k)) };

    fn skips(&self, id: NodeId) -> bool {
        self.kept.get(id).is_some()
    }

    fn opens(&self, table: &Table, id: NodeId) -> bool {
        !is_binder(table, id)
    }
}

// The nodes below a node that have no value, each behind its operands. What is below a quantifier isn't among them.
pub(crate) fn order_below(
    alloc: Global,
    table: &Table,
    kept: &Kept<Value>,
    root: NodeId,
) -> Result<Vec<NodeId>, AllocError>
    requires root { IsNode table.now root }
    requires narrow { bits_bound (tree table.now root) ≤ most_bits }
    ensures { IfOk result (λ order. IsOrder table.now kept.now root order.items) }
{
    know_table(table);
    let order = list(alloc, table, &Unknown { kept }, root)?;
    Ok(order)
}
