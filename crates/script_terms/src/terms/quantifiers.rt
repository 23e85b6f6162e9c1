//! Quantifiers under way: `(forall ((x S) ..) b)` has each name with its sort, in order; then constants are drawn for the
//! names, and b is read below them.

ghost use Rattle.std.specs.Prelude.{◌≡◌, ℕ, ◌<◌, ◌≤◌, ◌++◌, ◌∷◌, [], length, map, true, not, IfOk, OnOk, Result, All, Ok};
ghost use Rattle.smt_lex.specs.Forest.{token_at};
ghost use Rattle.smt_terms.specs.Fresh.{Supply};
ghost use Rattle.smt_terms.specs.Rank.{are_bindable};
ghost use Rattle.smt_terms.specs.Sorts.{bool};
ghost use Rattle.smt_terms.specs.Term.{Term, quantified};
ghost use Rattle.term_table.specs.Formulas.{tree};
ghost use Rattle.term_walk.specs.Walking.{GrowsTo};
ghost use Rattle.script_terms.specs.Refusals.{Refused, unless};
ghost use Rattle.script_terms.specs.Reading.{Sofar as Known};
ghost use Rattle.script_terms.specs.Parts.{quantifier_word};
ghost use Rattle.script_terms.specs.Read.{has_sort};
ghost use Rattle.script_terms.specs.Quantifiers.{quantifier_of, operator_of};
ghost use Rattle.script_terms.specs.Known.{IsSpared, IsConstant};
ghost use Rattle.script_terms.specs.Bound.{variables_of, entered};
ghost use Rattle.script_terms.specs.Places.{IsRead, IsForm, SparesText};
ghost use Rattle.script_terms.specs.TermClauses.{ReadsAlone};

use crate::binders::{Binder, SortedName, draw_constants, read_variables};
use crate::causes::Cause;
use crate::faults::ReadFault;
use crate::locals::{Constant, Local, Locals};
use crate::node_sorts::has_sort;
use crate::places::fault;
use crate::sofar::Sofar;
use crate::terms::frames::{Frame, Next, Quantifier, Scoped};
use crate::terms::shapes::bound_and_body;
use crate::terms::term_reader::TermReader;
use smt_lex::Forest;
use smt_terms::{NodeId, Op, SortId};
use std::alloc::{AllocError, Global};
use term_table::{Table, know_table};

impl<'a> TermReader<'a> {
    ghost use Rattle.script_terms.specs.declared.sofar.Sofar.{Sofar as SofarSeen};
    ghost use Rattle.script_terms.specs.Waiting.{Going, GoingBack, Stepped, SomeGoing, Keeps, left_of, left_behind, Opens};

    /// Reads the variables of the quantifier of token `list`, and begins its body.
    pub fn open_quantifier(
        &mut self,
        table: &mut Table,
        forest: &'a Forest,
        sofar: &mut Sofar,
        list: usize,
        first: usize,
        quantifier: Quantifier,
    ) -> Result<Next, ReadFault>
        requires read { IsRead forest.now }
        requires text { SparesText forest.now.tokens sofar.old.fresh }
        requires going { SomeGoing forest.now.tokens table.old sofar.old self.old (Next.Form list) }
        requires opens { Opens forest.now.tokens list first (quantifier_word (quantifier_of quantifier)) }
        ensures steps { (r : Result (Term × Known) Refused) → Going forest.now.tokens table.old sofar.old self.old (Next.Form list) r → Stepped forest.now.tokens table.new sofar.new self.new r result }
        ensures less { IfOk result (λ next. left_of forest.now.tokens self.new next < left_of forest.now.tokens self.old (Next.Form list)) }
        ensures keeps { Keeps table.old table.new sofar.old sofar.new self.old self.new }
    {
        know_table(table);
        let (part, body) = bound_and_body(forest, list, first)?;
        let scope = &sofar.scope;
        let variables = read_variables(self.alloc, table, forest, part, scope, Binder::Quantifier)?;
        let constants = draw_constants(
            self.alloc,
            table,
            forest,
            &variables,
            scope,
            &self.locals,
            &mut sofar.fresh,
        )?;
        enter(forest, &mut self.locals, &variables, &constants)?;
        self.frames.push(Frame::Quantified(Scoped {
            list,
            quantifier,
            constants,
        }))?;
        Ok(Next::Form(body))
    }

    /// Goes on behind the body of a quantifier, and makes it.
    pub fn resume_quantified(
        &mut self,
        table: &mut Table,
        forest: &Forest,
        frame: &Scoped,
        node: NodeId,
    ) -> Result<Next, ReadFault>
        requires list { IsForm forest.now.tokens frame.now.list }
        requires names { length frame.now.constants.items ≤ length self.old.locals }
        requires constants { (supply : Supply) × All (IsConstant table.old supply) frame.now.constants.items × IsSpared table.old supply node }
        requires bindable { are_bindable (variables_of table.old frame.now.constants.items) ≡ true }
        ensures steps { (s : SofarSeen) (at : ℕ) (r : Result (Term × Known) Refused) → GoingBack forest.now.tokens table.old s self.old (Frame.Quantified frame.now) node at r → Stepped forest.now.tokens table.new s self.new r result }
        ensures less { (at : ℕ) → IfOk result (λ next. left_of forest.now.tokens self.new next < left_behind forest.now.tokens self.old (Frame.Quantified frame.now) at) }
        ensures defines { self.new.defines ≡ self.old.defines }
        ensures grows { GrowsTo table.old table.new }
    {
        self.locals.leave(frame.constants.len());
        let node = quantified(self.alloc, table, forest, frame, node)?;
        Ok(Next::Term {
            node,
            behind: forest.after(frame.list),
        })
    }
}

// Binds quantified names, each by its constant.
fn enter<'a>(
    forest: &'a Forest,
    locals: &mut Locals<'a>,
    variables: &[SortedName],
    constants: &[Constant],
) -> Result<(), AllocError>
    requires count { length variables.now ≡ length constants.now }
    requires tokens { All (λ x. x.name < length forest.now.tokens) variables.now }
    ensures { OnOk result (locals.new ≡ entered forest.now.tokens variables.now constants.now locals.old) }
{
    for (i, variable) in variables.iter().enumerate() {
        locals.enter(forest.name(variable.name), Local::Quantified(constants[i]))?;
    }
    Ok(())
}

// The quantifier over its constants and a body that was read.
fn quantified(
    alloc: Global,
    table: &mut Table,
    forest: &Forest,
    frame: &Scoped,
    body: NodeId,
) -> Result<NodeId, ReadFault>
    requires list { IsForm forest.now.tokens frame.now.list }
    requires constants { (supply : Supply) × All (IsConstant table.old supply) frame.now.constants.items × IsSpared table.old supply body }
    requires bindable { are_bindable (variables_of table.old frame.now.constants.items) ≡ true }
    ensures term { (supply : Supply) → All (IsConstant table.old supply) frame.now.constants.items → IsSpared table.old supply body → ReadsAlone table.new supply (unless (not (has_sort bool (tree table.old body))) Cause.WrongSort (token_at forest.now.tokens frame.now.list).start (Ok (quantified (quantifier_of frame.now.quantifier) (variables_of table.old frame.now.constants.items) (tree table.old body)))) result }
    ensures grows { GrowsTo table.old table.new }
{
    if !has_sort(table, body, SortId::BOOL) {
        return Err(fault(forest, frame.list, Cause::WrongSort).into());
    }
    let operands = operands(alloc, &frame.constants, body)?;
    let node = table.intern(operator(frame.quantifier), &operands)?;
    Ok(node)
}

// The operands of a quantifier's node: its constants, and its body last.
fn operands(alloc: Global, constants: &[Constant], body: NodeId) -> Result<Vec<NodeId>, AllocError>
    ensures { IfOk result (λ ks. ks.items ≡ map (λ c. c.node) constants.now ++ body ∷ []) }
{
    let mut operands = Vec::new(alloc);
    for constant in constants {
        operands.push(constant.node)?;
    }
    operands.push(body)?;
    Ok(operands)
}

fn operator(quantifier: Quantifier) -> Op
    ensures { result ≡ operator_of quantifier }
{
    match quantifier {
        Quantifier::Universal => Op::Forall,
        Quantifier::Existential => Op::Exists,
    }
}
