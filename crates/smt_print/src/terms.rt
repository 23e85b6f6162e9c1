//! The text of a term.

ghost use Rattle.std.specs.Prelude.{◌≡◌, ◌++◌, IfOk, OnOk, OnErr};
ghost use Rattle.term_table.specs.Formulas.{tree, IsNode};
ghost use Rattle.smt_print.specs.Prefix.{AppendsPrefix, Drafts};
ghost use Rattle.smt_print.specs.Text.{text};

use crate::dag::print_dag;
use crate::draft::{Draft, pass_all};
use crate::layout::Layout;
use crate::names::Printed;
use crate::output::Output;
use crate::tree::print_tree;
use smt_terms::NodeId;
use std::alloc::{AllocError, Global};
use term_table::Table;

// Prints a term.
pub(crate) fn print_term<O: Output>(
    alloc: Global,
    table: &Printed,
    id: NodeId,
    layout: Layout,
    draft: &mut Draft,
    out: &mut O,
) -> Result<(), AllocError>
    requires { IsNode table.now id }
    ensures ok { OnOk result (Drafts (O.text out.old) draft.old.text (O.text out.new) draft.new.text (text layout (tree table.now id))) }
    ensures prefix { OnErr result (AppendsPrefix (O.text out.old) (O.text out.new) (draft.old.text ++ text layout (tree table.now id))) }
{
    match layout {
        Layout::Tree => print_tree(alloc, table, id, draft, out),
        Layout::Dag => print_dag(alloc, table, id, draft, out),
    }
}

/// The text of a term (SMT-LIB 2.6, section 3.6). Only want of memory refuses it. A term that shares subterms can have a
/// text in layout tree that is exponentially longer than its nodes are many; the time is that of writing the text.
pub fn term_text(
    alloc: Global,
    table: &Table,
    id: NodeId,
    layout: Layout,
) -> Result<Vec<u8>, AllocError>
    requires { IsNode table.now id }
    ensures { IfOk result (λ bytes. bytes.items ≡ text layout (tree table.now id)) }
{
    let printed = Printed::new(alloc, table);
    let mut draft = Draft::new(alloc);
    let mut bytes = Vec::new(alloc);
    print_term(alloc, &printed, id, layout, &mut draft, &mut bytes)?;
    pass_all(&mut draft.text, &mut bytes)?;
    Ok(bytes)
}
