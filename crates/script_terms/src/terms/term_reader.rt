//! The machine that reads a term: it goes through the tokens from left to right, and what waits for a term stands on a stack
//! of its own. At each step what is left to do gives the term, or the refusal, of the whole.

ghost use Rattle.std.specs.Prelude.{◌≡◌, ◌<◌, [], false, length, IfOk, IfSome, Result, Some};
ghost use Rattle.smt_lex.specs.Forms.{atom};
ghost use Rattle.smt_lex.specs.Forest.{token_at};
ghost use Rattle.smt_terms.specs.Term.{Term};
ghost use Rattle.script_terms.specs.PlaceClauses.{IsListAt};
ghost use Rattle.script_terms.specs.Refusals.{Refused};
ghost use Rattle.script_terms.specs.Reading.{Sofar as Known};
ghost use Rattle.script_terms.specs.Known.{ReadsTerm};
ghost use Rattle.script_terms.specs.Places.{IsRead, SparesText, form_from};

use crate::faults::ReadFault;
use crate::locals::Locals;
use crate::places::{bad_form, begins, inside};
use crate::sofar::Sofar;
use crate::terms::atoms::read_atom;
use crate::terms::callees::Callee;
use crate::terms::frames::{Frame, Next};
use crate::terms::openings::{Opening, opening_of};
use crate::terms::vectors::read_vector;
use smt_lex::Forest;
use smt_terms::NodeId;
use std::alloc::Global;
use std::mem::replace;
use term_table::Table;

/// A term under way. What its stacks took of memory is kept for the next term.
#[derive(Drop)]
pub struct TermReader<'a> {
    pub alloc: Global,
    /// The token of the name that the command defines.
    pub defines: Option<usize>,
    pub locals: Locals<'a>,
    pub frames: Vec<Frame<'a>>,
    /// The operands of all applications under way, the outermost first.
    pub operands: Vec<NodeId>,
    /// What these applications call.
    pub callees: Vec<Callee>,
}

impl<'a> TermReader<'a> {
    ghost use Rattle.script_terms.specs.Waiting.{Going, GoingBack, Stepped, SomeGoing, SomeGoingBack, Keeps, left_of, left_behind, is_call};

    /// No term is under way. It takes no memory.
    pub fn new(alloc: Global) -> TermReader<'a>
        ensures frames { result.frames.items ≡ [] }
        ensures operands { result.operands.items ≡ [] }
        ensures callees { result.callees.items ≡ [] }
    {
        TermReader {
            alloc,
            defines: None,
            locals: Locals::new(alloc),
            frames: Vec::new(alloc),
            operands: Vec::new(alloc),
            callees: Vec::new(alloc),
        }
    }

    /// Gives up what is under way, and begins below these local bindings. It takes no memory.
    pub fn begin(&mut self, locals: Locals<'a>, defines: Option<usize>)
        ensures frames { self.new.frames.items ≡ [] }
        ensures locals { self.new.locals ≡ locals.entry }
        ensures defines { self.new.defines ≡ defines }
    {
        self.defines = defines;
        drop(replace(&mut self.locals, locals));
        self.frames.clear();
        self.operands.clear();
        self.callees.clear();
    }

    /// Begins the form of token `i`.
    pub fn open(
        &mut self,
        table: &mut Table,
        forest: &'a Forest,
        sofar: &mut Sofar<'a>,
        i: usize,
    ) -> Result<Next, ReadFault>
        requires read { IsRead forest.now }
        requires text { SparesText forest.now.tokens sofar.old.fresh }
        requires going { SomeGoing forest.now.tokens table.old sofar.old self.old (Next.Form i) }
        ensures steps { (r : Result (Term × Known) Refused) → Going forest.now.tokens table.old sofar.old self.old (Next.Form i) r → Stepped forest.now.tokens table.new sofar.new self.new r result }
        ensures less { IfOk result (λ next. left_of forest.now.tokens self.new next < left_of forest.now.tokens self.old (Next.Form i)) }
        ensures keeps { Keeps table.old table.new sofar.old sofar.new self.old self.new }
    {
        match inside(forest, i) {
            None => self.open_token(table, forest, sofar, i),
            Some(first) => self.open_list(table, forest, sofar, i, first),
        }
    }

    fn open_token(
        &mut self,
        table: &mut Table,
        forest: &'a Forest,
        sofar: &mut Sofar<'a>,
        i: usize,
    ) -> Result<Next, ReadFault>
        requires read { IsRead forest.now }
        requires token { form_from forest.now.tokens i ≡ atom (token_at forest.now.tokens i) }
        requires going { SomeGoing forest.now.tokens table.old sofar.old self.old (Next.Form i) }
        ensures steps { (r : Result (Term × Known) Refused) → Going forest.now.tokens table.old sofar.old self.old (Next.Form i) r → Stepped forest.now.tokens table.new sofar.new self.new r result }
        ensures less { IfOk result (λ next. left_of forest.now.tokens self.new next < left_of forest.now.tokens self.old (Next.Form i)) }
        ensures keeps { Keeps table.old table.new sofar.old sofar.new self.old self.new }
    {
        let node = read_atom(table, forest, i, &sofar.scope, &self.locals)?;
        Ok(Next::Term {
            node,
            behind: forest.after(i),
        })
    }

    fn open_list(
        &mut self,
        table: &mut Table,
        forest: &'a Forest,
        sofar: &mut Sofar<'a>,
        list: usize,
        first: usize,
    ) -> Result<Next, ReadFault>
        requires read { IsRead forest.now }
        requires text { SparesText forest.now.tokens sofar.old.fresh }
        requires going { SomeGoing forest.now.tokens table.old sofar.old self.old (Next.Form list) }
        requires inside { IsListAt forest.now.tokens list (Some first) }
        ensures steps { (r : Result (Term × Known) Refused) → Going forest.now.tokens table.old sofar.old self.old (Next.Form list) r → Stepped forest.now.tokens table.new sofar.new self.new r result }
        ensures less { IfOk result (λ next. left_of forest.now.tokens self.new next < left_of forest.now.tokens self.old (Next.Form list)) }
        ensures keeps { Keeps table.old table.new sofar.old sofar.new self.old self.new }
    {
        if !begins(forest, first) {
            return Err(ReadFault::Refused(bad_form(forest, list)));
        }
        match opening_of(forest, first) {
            Opening::Let => self.open_let(forest, list, first),
            Opening::Quantifier(quantifier) => {
                self.open_quantifier(table, forest, sofar, list, first, quantifier)
            }
            Opening::Annotation => self.open_annotation(forest, list, first),
            Opening::Index => {
                let node = read_vector(table, forest, list, forest.after(first))?;
                Ok(Next::Term {
                    node,
                    behind: forest.after(list),
                })
            }
            Opening::Head => self.open_application(table, forest, sofar, list, first),
        }
    }

    // Goes on behind a form that was read as this term, for which this frame waits, which is no application.
    fn resume(
        &mut self,
        table: &mut Table,
        forest: &'a Forest,
        sofar: &mut Sofar<'a>,
        frame: Frame<'a>,
        node: NodeId,
        behind: usize,
    ) -> Result<Next, ReadFault>
        requires read { IsRead forest.now }
        requires text { SparesText forest.now.tokens sofar.old.fresh }
        requires defined { IfSome self.old.defines (λ i. i < length forest.now.tokens) }
        requires other { is_call frame ≡ false }
        requires going { SomeGoingBack forest.now.tokens table.old sofar.old self.old frame node behind }
        ensures steps { (r : Result (Term × Known) Refused) → GoingBack forest.now.tokens table.old sofar.old self.old frame.entry node behind r → Stepped forest.now.tokens table.new sofar.new self.new r result }
        ensures less { IfOk result (λ next. left_of forest.now.tokens self.new next < left_behind forest.now.tokens self.old frame.entry behind) }
        ensures keeps { Keeps table.old table.new sofar.old sofar.new self.old self.new }
    {
        match frame {
            Frame::Operands(_) => unreachable!(),
            Frame::Binding(lets) => self.resume_binding(forest, lets, node),
            Frame::Body(body) => Ok(self.resume_body(forest, body, node)),
            Frame::Quantified(scoped) => self.resume_quantified(table, forest, &scoped, node),
            Frame::Annotated(annotation) => {
                self.resume_annotated(table, forest, sofar, annotation, node, behind)
            }
        }
    }

    /// Reads the form of token `i` and goes on until nothing waits: the term of all that was under way.
    pub fn run(
        &mut self,
        table: &mut Table,
        forest: &'a Forest,
        sofar: &mut Sofar<'a>,
        i: usize,
    ) -> Result<NodeId, ReadFault>
        requires read { IsRead forest.now }
        requires text { SparesText forest.now.tokens sofar.old.fresh }
        requires defined { IfSome self.old.defines (λ j. j < length forest.now.tokens) }
        requires going { SomeGoing forest.now.tokens table.old sofar.old self.old (Next.Form i) }
        ensures term { (r : Result (Term × Known) Refused) → Going forest.now.tokens table.old sofar.old self.old (Next.Form i) r → ReadsTerm table.new sofar.new.scope sofar.new.fresh r result }
        ensures keeps { Keeps table.old table.new sofar.old sofar.new self.old self.new }
    {
        let mut next = Next::Form(i);
        loop {
            match next {
                Next::Form(form) => next = self.open(table, forest, sofar, form)?,
                Next::Term { node, behind } => {
                    if self.awaits_operand() {
                        next = self.resume_operands(table, forest, sofar, node, behind)?;
                    } else {
                        let Some(frame) = self.frames.pop() else {
                            return Ok(node);
                        };
                        next = self.resume(table, forest, sofar, frame, node, behind)?;
                    }
                }
            }
        }
    }
}
