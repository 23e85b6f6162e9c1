//! Terms in layout dag: each distinct subterm that has operands once, below the names of those before it.

ghost use Rattle.std.specs.Prelude.{◌≡◌, ◌<◌, ◌++◌, ◌∷◌, [], ℕ, List, OnOk, OnErr, length, true};
ghost use Rattle.smt_lex.specs.FormText.{form_text};
ghost use Rattle.smt_lex.specs.Lexicon.{space};
ghost use Rattle.term_table.specs.Formulas.{tree, operands, IsNode};
ghost use Rattle.smt_print.specs.DagSteps.{definition_of, definitions_at, IsKnown, IsScope, AreScopes, IsDefinable, let_opening, let_text, end_text, visits, LeadsFrom, weights};
ghost use Rattle.smt_print.specs.NodeForms.{opening};
ghost use Rattle.term_walk.specs.Binders.{is_quantified};
ghost use Rattle.smt_print.specs.Prefix.{AppendsPrefix, Drafts};
ghost use Rattle.smt_print.specs.TermForms.{definition_name, reference, dag_form};

use crate::draft::{Draft, pass_on};
use crate::heads::{binding, push_application, push_binder, push_head};
use crate::names::Printed;
use crate::numbers::push_number;
use crate::output::Output;
use crate::page::Page;
use crate::scope::Scopes;
use smt_terms::NodeId;
use std::alloc::{AllocError, Global};
use term_walk::Stack;

// What is still to be printed of a term.
#[derive(Clone, Copy)]
pub(crate) enum Step {
    // The definitions of a term and of its subterms.
    Visit(NodeId),
    // The definition of an application whose operands have theirs.
    Define(NodeId),
    // The rest of a quantified term's definition, behind those in its body.
    Close(NodeId),
}

// Appends the name of a definition.
fn push_name(number: usize, text: &mut Page) -> Result<(), AllocError>
    ensures { OnOk result (text.new ≡ text.old ++ definition_name number) }
{
    text.push_short(b".def_")?;
    push_number(number as u64, text)?;
    Ok(())
}

// Appends the beginning of a `let` that gives a name.
#[tactic(auto, unfolding(crate::specs::DagSteps::let_opening))]
fn push_let(number: usize, text: &mut Page) -> Result<(), AllocError>
    ensures { OnOk result (text.new ≡ text.old ++ let_opening number) }
{
    text.push_short(b"(let ((.def_")?;
    push_number(number as u64, text)?;
    text.push(b' ')?;
    Ok(())
}

// Appends a term as it stands behind definitions: by its name, or as it is where it has no operands.
fn push_reference(
    alloc: Global,
    table: &Printed,
    scopes: &Scopes,
    id: NodeId,
    text: &mut Page,
) -> Result<(), AllocError>
    requires node { IsNode table.now id }
    requires scope { IsScope table.now scopes.now.current }
    requires known { IsKnown (definitions_at table.now scopes.now.current) (tree table.now id) }
    ensures { OnOk result (text.new ≡ text.old ++ form_text (reference (definitions_at table.now scopes.now.current) (tree table.now id))) }
{
    let kids = table.kids(id);
    if kids.is_empty() {
        push_head(alloc, table, id, text)?;
        return Ok(());
    }
    push_name(scopes.number(id).unwrap(), text)?;
    Ok(())
}

// Appends the end of a term below definitions: the term, and the ends of their `let`s.
fn push_end(
    alloc: Global,
    table: &Printed,
    scopes: &Scopes,
    id: NodeId,
    text: &mut Page,
) -> Result<(), AllocError>
    requires node { IsNode table.now id }
    requires scope { IsScope table.now scopes.now.current }
    requires known { IsKnown (definitions_at table.now scopes.now.current) (tree table.now id) }
    ensures { OnOk result (text.new ≡ text.old ++ end_text (definitions_at table.now scopes.now.current) (tree table.now id)) }
{
    push_reference(alloc, table, scopes, id, text)?;
    for _ in 0..scopes.len() {
        text.push(b')')?;
    }
    Ok(())
}

// Lets the definitions of these terms be printed next, in their order.
fn push_visits(steps: &mut Stack<Step>, ids: &[NodeId]) -> Result<(), AllocError>
    ensures { OnOk result (steps.new ≡ visits ids.now ++ steps.old) }
{
    for place in (0..ids.len()).rev() {
        steps.push(Step::Visit(ids[place]))?;
    }
    Ok(())
}

// Appends the definition of an application, over the names of its operands.
fn define(
    alloc: Global,
    table: &Printed,
    id: NodeId,
    scopes: &mut Scopes,
    text: &mut Page,
) -> Result<(), AllocError>
    requires scope { IsScope table.now scopes.old.current }
    requires definable { IsDefinable table.now (definitions_at table.now scopes.old.current) id }
    ensures text { OnOk result (text.new ≡ text.old ++ let_text (length scopes.old.current) (definition_of (tree table.now id) (definitions_at table.now scopes.old.current)).form) }
    ensures current { OnOk result (scopes.new.current ≡ id ∷ scopes.old.current) }
    ensures outer { OnOk result (scopes.new.outer ≡ scopes.old.outer) }
{
    push_let(scopes.len(), text)?;
    push_application(alloc, table, id, text)?;
    for kid in table.kids(id) {
        text.push(b' ')?;
        push_reference(alloc, table, scopes, *kid, text)?;
    }
    text.push_short(b"))) ")?;
    scopes.define(id)?;
    Ok(())
}

// Begins the definition of a quantified term, whose body has definitions of its own.
fn enter(
    alloc: Global,
    table: &Printed,
    id: NodeId,
    body: NodeId,
    scopes: &mut Scopes,
    steps: &mut Stack<Step>,
    text: &mut Page,
) -> Result<(), AllocError>
    requires node { IsNode table.now id }
    requires quantified { is_quantified (tree table.now id) ≡ true }
    ensures text { OnOk result (text.new ≡ text.old ++ (let_opening (length scopes.old.current) ++ (opening (tree table.now id) ++ space ∷ []))) }
    ensures current { OnOk result (scopes.new.current ≡ []) }
    ensures outer { OnOk result (scopes.new.outer ≡ scopes.old.current ∷ scopes.old.outer) }
    ensures steps { OnOk result (steps.new ≡ Step.Visit body ∷ (Step.Close id ∷ steps.old)) }
{
    push_let(scopes.len(), text)?;
    push_binder(alloc, table, id, text)?;
    text.push(b' ')?;
    scopes.enter(alloc)?;
    steps.push(Step::Close(id))?;
    steps.push(Step::Visit(body))?;
    Ok(())
}

// Lets the definitions that a term still needs be printed next: none where it has a name or no operands.
fn visit(
    alloc: Global,
    table: &Printed,
    id: NodeId,
    scopes: &mut Scopes,
    steps: &mut Stack<Step>,
    text: &mut Page,
) -> Result<(), AllocError>
    requires node { IsNode table.now id }
    requires scopes { AreScopes table.now scopes.old }
    ensures leads { (root : NodeId) (done whole : List ℕ) → LeadsFrom table.now root scopes.old (Step.Visit id ∷ steps.old) (done ++ text.old) whole
        → OnOk result (LeadsFrom table.now root scopes.new steps.new (done ++ text.new) whole) }
    ensures scopes { OnOk result (AreScopes table.now scopes.new) }
    ensures nearer { OnOk result (weights table.now steps.new < weights table.now (Step.Visit id ∷ steps.old)) }
{
    let kids = table.kids(id);
    if kids.is_empty() {
        return Ok(());
    }
    if scopes.number(id).is_some() {
        return Ok(());
    }
    match binding(table, id) {
        Some((_, body)) => {
            enter(alloc, table, id, body, scopes, steps, text)?;
            Ok(())
        }
        None => {
            steps.push(Step::Define(id))?;
            push_visits(steps, kids)?;
            Ok(())
        }
    }
}

// Appends the rest of a quantified term's definition, which stands in the scope around its body.
fn close(
    alloc: Global,
    table: &Printed,
    id: NodeId,
    scopes: &mut Scopes,
    text: &mut Page,
) -> Result<(), AllocError>
    requires scopes { AreScopes table.now scopes.old }
    requires closable { (root : NodeId) × (steps : List Step) × (done : List ℕ) × (whole : List ℕ) × LeadsFrom table.now root scopes.old (Step.Close id ∷ steps) done whole }
    ensures leads { (root : NodeId) (steps : List Step) (done whole : List ℕ) → LeadsFrom table.now root scopes.old (Step.Close id ∷ steps) (done ++ text.old) whole
        → OnOk result (LeadsFrom table.now root scopes.new steps (done ++ text.new) whole) }
    ensures scopes { OnOk result (AreScopes table.now scopes.new) }
{
    let (_, body) = binding(table, id).unwrap();
    push_end(alloc, table, scopes, body, text)?;
    text.push_short(b"))) ")?;
    scopes.leave();
    scopes.define(id)?;
    Ok(())
}

// Appends what a step prints.
fn take_step(
    alloc: Global,
    table: &Printed,
    step: Step,
    scopes: &mut Scopes,
    steps: &mut Stack<Step>,
    text: &mut Page,
) -> Result<(), AllocError>
    requires scopes { AreScopes table.now scopes.old }
    requires standing { (root : NodeId) × (done : List ℕ) × (whole : List ℕ) × LeadsFrom table.now root scopes.old (step ∷ steps.old) done whole }
    ensures leads { (root : NodeId) (done whole : List ℕ) → LeadsFrom table.now root scopes.old (step ∷ steps.old) (done ++ text.old) whole
        → OnOk result (LeadsFrom table.now root scopes.new steps.new (done ++ text.new) whole) }
    ensures scopes { OnOk result (AreScopes table.now scopes.new) }
    ensures nearer { OnOk result (weights table.now steps.new < weights table.now (step ∷ steps.old)) }
{
    match step {
        Step::Visit(id) => {
            visit(alloc, table, id, scopes, steps, text)?;
            Ok(())
        }
        Step::Define(id) => {
            define(alloc, table, id, scopes, text)?;
            Ok(())
        }
        Step::Close(id) => {
            close(alloc, table, id, scopes, text)?;
            Ok(())
        }
    }
}

// Prints a term. What is begun waits on a stack.
pub(crate) fn print_dag<O: Output>(
    alloc: Global,
    table: &Printed,
    root: NodeId,
    draft: &mut Draft,
    out: &mut O,
) -> Result<(), AllocError>
    requires { IsNode table.now root }
    ensures ok { OnOk result (Drafts (O.text out.old) draft.old.text (O.text out.new) draft.new.text (form_text (dag_form (tree table.now root)))) }
    ensures prefix { OnErr result (AppendsPrefix (O.text out.old) (O.text out.new) (draft.old.text ++ form_text (dag_form (tree table.now root)))) }
{
    draft.scopes.clear();
    draft.dag.clear();
    draft.dag.push(Step::Visit(root))?;
    while let Some(step) = draft.dag.pop() {
        take_step(
            alloc,
            table,
            step,
            &mut draft.scopes,
            &mut draft.dag,
            &mut draft.text,
        )?;
        pass_on(&mut draft.text, out)?;
    }
    push_end(alloc, table, &draft.scopes, root, &mut draft.text)?;
    Ok(())
}
