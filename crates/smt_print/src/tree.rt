//! Terms in layout tree: each as it is, with its subterms wherever they occur.

ghost use Rattle.std.specs.Prelude.{◌≡◌, ◌<◌, ◌++◌, ◌∷◌, ℕ, List, OnOk, OnErr};
ghost use Rattle.smt_lex.specs.FormText.{form_text};
ghost use Rattle.term_table.specs.Formulas.{tree, IsNode};
ghost use Rattle.smt_print.specs.Prefix.{AppendsPrefix, Drafts};
ghost use Rattle.smt_print.specs.TermForms.{tree_form};
ghost use Rattle.smt_print.specs.TreeSteps.{Leads, weights, operand_steps};

use crate::draft::{Draft, pass_on};
use crate::heads::{binding, push_application, push_binder, push_head};
use crate::names::Printed;
use crate::output::Output;
use crate::page::Page;
use smt_terms::NodeId;
use std::alloc::{AllocError, Global};
use term_walk::Stack;

// What is still to be printed of a term.
#[derive(Clone, Copy)]
pub(crate) enum Step {
    // A space and a term.
    Operand(NodeId),
    // The end of a list.
    Close,
}

// Lets these terms be printed next, in their order.
fn push_operands(steps: &mut Stack<Step>, ids: &[NodeId]) -> Result<(), AllocError>
    ensures { OnOk result (steps.new ≡ operand_steps ids.now ++ steps.old) }
{
    for place in (0..ids.len()).rev() {
        steps.push(Step::Operand(ids[place]))?;
    }
    Ok(())
}

// Appends a term that has no operands, or the beginning of another one, of which the rest is left to be printed.
fn open_term(
    alloc: Global,
    table: &Printed,
    id: NodeId,
    steps: &mut Stack<Step>,
    text: &mut Page,
) -> Result<(), AllocError>
    requires { IsNode table.now id }
    ensures leads { (done whole : List ℕ) → Leads table.now steps.old (done ++ (text.old ++ form_text (tree_form (tree table.now id)))) whole
        → OnOk result (Leads table.now steps.new (done ++ text.new) whole) }
    ensures nearer { OnOk result (weights table.now steps.new < weights table.now (Step.Operand id ∷ steps.old)) }
{
    let kids = table.kids(id);
    if kids.is_empty() {
        push_head(alloc, table, id, text)?;
        return Ok(());
    }
    match binding(table, id) {
        Some((_, body)) => {
            push_binder(alloc, table, id, text)?;
            steps.push(Step::Close)?;
            push_operands(steps, &[body])?;
            Ok(())
        }
        None => {
            push_application(alloc, table, id, text)?;
            steps.push(Step::Close)?;
            push_operands(steps, kids)?;
            Ok(())
        }
    }
}

// Appends what a step prints.
fn take_step(
    alloc: Global,
    table: &Printed,
    step: Step,
    steps: &mut Stack<Step>,
    text: &mut Page,
) -> Result<(), AllocError>
    requires { (done whole : List ℕ) × Leads table.now (step ∷ steps.old) done whole }
    ensures leads { (done whole : List ℕ) → Leads table.now (step ∷ steps.old) (done ++ text.old) whole → OnOk result (Leads table.now steps.new (done ++ text.new) whole) }
    ensures nearer { OnOk result (weights table.now steps.new < weights table.now (step ∷ steps.old)) }
{
    match step {
        Step::Operand(id) => {
            text.push(b' ')?;
            open_term(alloc, table, id, steps, text)?;
            Ok(())
        }
        Step::Close => {
            text.push(b')')?;
            Ok(())
        }
    }
}

// Prints a term. The terms that are begun wait on a stack.
pub(crate) fn print_tree<O: Output>(
    alloc: Global,
    table: &Printed,
    root: NodeId,
    draft: &mut Draft,
    out: &mut O,
) -> Result<(), AllocError>
    requires { IsNode table.now root }
    ensures ok { OnOk result (Drafts (O.text out.old) draft.old.text (O.text out.new) draft.new.text (form_text (tree_form (tree table.now root)))) }
    ensures prefix { OnErr result (AppendsPrefix (O.text out.old) (O.text out.new) (draft.old.text ++ form_text (tree_form (tree table.now root)))) }
{
    draft.tree.clear();
    open_term(alloc, table, root, &mut draft.tree, &mut draft.text)?;
    while let Some(step) = draft.tree.pop() {
        take_step(alloc, table, step, &mut draft.tree, &mut draft.text)?;
        pass_on(&mut draft.text, out)?;
    }
    Ok(())
}
