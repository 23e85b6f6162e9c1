//! Applications under way: `(f t ..)` has the head f, then its operands from left to right, and then itself.

ghost use Rattle.std.specs.Prelude.{◌≡◌, ◌<◌, ◌++◌, ◌∷◌, [], true, reverse, IfOk, Result};
ghost use Rattle.smt_terms.specs.Term.{Term};
ghost use Rattle.script_terms.specs.Refusals.{Refused};
ghost use Rattle.script_terms.specs.Reading.{Sofar as Known};
ghost use Rattle.script_terms.specs.Parts.{head};
ghost use Rattle.script_terms.specs.Places.{IsRead, form_from};
ghost use Rattle.script_terms.specs.Waiting.{awaits_operand};

use crate::faults::ReadFault;
use crate::places::{bad_form, begins};
use crate::sofar::Sofar;
use crate::terms::applications::apply;
use crate::terms::frames::{Call, Frame, Next};
use crate::terms::heads::read_callee;
use crate::terms::term_reader::TermReader;
use smt_lex::Forest;
use smt_terms::NodeId;
use term_table::Table;

impl TermReader<'_> {
    ghost use Rattle.script_terms.specs.Waiting.{Going, Stepped, SomeGoing, Keeps, left_of, Opens};

    /// Reads the head of the application of token `list`, and begins its first operand.
    pub fn open_application(
        &mut self,
        table: &mut Table,
        forest: &Forest,
        sofar: &Sofar,
        list: usize,
        first: usize,
    ) -> Result<Next, ReadFault>
        requires read { IsRead forest.now }
        requires going { SomeGoing forest.now.tokens table.old sofar.now self.old (Next.Form list) }
        requires opens { Opens forest.now.tokens list first (head (form_from forest.now.tokens first)) }
        ensures steps { (r : Result (Term × Known) Refused) → Going forest.now.tokens table.old sofar.now self.old (Next.Form list) r → Stepped forest.now.tokens table.new sofar.now self.new r result }
        ensures less { IfOk result (λ next. left_of forest.now.tokens self.new next < left_of forest.now.tokens self.old (Next.Form list)) }
        ensures keeps { Keeps table.old table.new sofar.now sofar.now self.old self.new }
    {
        let operand = forest.after(first);
        if !begins(forest, operand) {
            return Err(ReadFault::Refused(bad_form(forest, list)));
        }
        let callee = read_callee(self.alloc, table, forest, first, &sofar.scope, &self.locals)?;
        self.callees.push(callee)?;
        self.frames.push(Frame::Operands(Call {
            list,
            first: self.operands.len(),
        }))?;
        Ok(Next::Form(operand))
    }

    /// Whether an application waits for the term that is read.
    pub fn awaits_operand(&self) -> bool
        ensures { result ≡ awaits_operand (reverse self.now.frames.items) }
    {
        matches!(self.frames.last(), Some(Frame::Operands(_)))
    }

    /// Goes on behind an operand: begins the next one, or makes the application.
    pub fn resume_operands(
        &mut self,
        table: &mut Table,
        forest: &Forest,
        sofar: &mut Sofar,
        node: NodeId,
        behind: usize,
    ) -> Result<Next, ReadFault>
        requires read { IsRead forest.now }
        requires awaits { awaits_operand (reverse self.old.frames.items) ≡ true }
        requires going { SomeGoing forest.now.tokens table.old sofar.old self.old (Next.Term node behind) }
        ensures steps { (r : Result (Term × Known) Refused) → Going forest.now.tokens table.old sofar.old self.old (Next.Term node behind) r → Stepped forest.now.tokens table.new sofar.new self.new r result }
        ensures less { IfOk result (λ next. left_of forest.now.tokens self.new next < left_of forest.now.tokens self.old (Next.Term node behind)) }
        ensures keeps { Keeps table.old table.new sofar.old sofar.new self.old self.new }
    {
        self.operands.push(node)?;
        if begins(forest, behind) {
            return Ok(Next::Form(behind));
        }
        let call = take_call(&mut self.frames);
        let Some(callee) = self.callees.pop() else {
            unreachable!()
        };
        let node = apply(
            self.alloc,
            table,
            forest,
            call.list,
            &callee,
            &self.operands[call.first..],
            sofar,
        )?;
        self.operands.truncate(call.first);
        Ok(Next::Term {
            node,
            behind: forest.after(call.list),
        })
    }
}

// Takes off the application that waits last.
fn take_call(frames: &mut Vec<Frame>) -> Call
    requires { awaits_operand (reverse frames.old.items) ≡ true }
    ensures { frames.old.items ≡ frames.new.items ++ Frame.Operands result ∷ [] }
{
    match frames.pop() {
        Some(Frame::Operands(call)) => call,
        _ => unreachable!(),
    }
}
