//! `let` under way: `(let ((x t) ..) b)` has each name with its term, in order, and then b, in which all names are bound at
//! once.

ghost use Rattle.std.specs.Prelude.{◌≡◌, ℕ, suc, ◌+◌, ◌<◌, ◌≤◌, List, length, reverse, IfOk, Result};
ghost use Rattle.smt_lex.specs.Lex.{Token};
ghost use Rattle.smt_lex.specs.Forest.{after_at};
ghost use Rattle.smt_lex.specs.Forms.{none};
ghost use Rattle.smt_terms.specs.Term.{Term};
ghost use Rattle.term_table.specs.Formulas.{Formulas};
ghost use Rattle.script_terms.specs.Refusals.{Refused};
ghost use Rattle.script_terms.specs.Reading.{Sofar as Known};
ghost use Rattle.script_terms.specs.Parts.{let_word};
ghost use Rattle.script_terms.specs.PlaceClauses.{BeginsForm};
ghost use Rattle.script_terms.specs.Places.{IsForm, form_from, forms_from};

use crate::faults::ReadFault;
use crate::places::begins;
use crate::terms::frames::{Frame, LetBody, Lets, Next};
use crate::terms::let_names::{LetNames, binding_term};
use crate::terms::shapes::bound_and_body;
use crate::terms::term_reader::TermReader;
use smt_lex::Forest;
use smt_terms::NodeId;

impl<'a> TermReader<'a> {
    ghost use Rattle.script_terms.specs.declared.sofar.Sofar.{Sofar as SofarSeen};
    ghost use Rattle.script_terms.specs.Waiting.{Going, GoingBack, Stepped, BindingNext, left_of, left_behind, frames_left, Opens};
    ghost use Rattle.script_terms.specs.Sizes.{forms_size, form_size};

    /// Begins the first binding of the `let` of token `list`.
    pub fn open_let(
        &mut self,
        forest: &'a Forest,
        list: usize,
        first: usize,
    ) -> Result<Next, ReadFault>
        requires list { IsForm forest.now.tokens list }
        requires opens { Opens forest.now.tokens list first let_word }
        ensures steps { (t : Formulas) (s : SofarSeen) (r : Result (Term × Known) Refused) → Going forest.now.tokens t s self.old (Next.Form list) r → Stepped forest.now.tokens t s self.new r result }
        ensures less { IfOk result (λ next. left_of forest.now.tokens self.new next < left_of forest.now.tokens self.old (Next.Form list)) }
        ensures defines { self.new.defines ≡ self.old.defines }
    {
        let (part, body) = bound_and_body(forest, list, first)?;
        let names = Box::new(self.alloc, LetNames::new(self.alloc))?;
        self.open_binding(
            forest,
            Lets {
                list,
                part,
                body,
                names,
            },
        )
    }

    // Begins the term of a binding.
    fn open_binding(&mut self, forest: &'a Forest, lets: Lets<'a>) -> Result<Next, ReadFault>
        requires part { BeginsForm forest.now.tokens lets.part }
        ensures steps { (t : Formulas) (s : SofarSeen) (r : Result (Term × Known) Refused) → BindingNext forest.now.tokens t s self.old lets.entry r → Stepped forest.now.tokens t s self.new r result }
        ensures less { IfOk result (λ next. left_of forest.now.tokens self.new next < forms_size (forms_from forest.now.tokens lets.entry.part) + form_size (form_from forest.now.tokens lets.entry.body) + frames_left forest.now.tokens (reverse self.old.frames.items) (after_at forest.now.tokens lets.entry.list)) }
        ensures defines { self.new.defines ≡ self.old.defines }
    {
        let term = binding_term(forest, lets.part, &lets.names)?;
        self.frames.push(Frame::Binding(lets))?;
        Ok(Next::Form(term))
    }

    /// Goes on behind the term of a binding: begins the next one, or the body.
    pub fn resume_binding(
        &mut self,
        forest: &'a Forest,
        lets: Lets<'a>,
        node: NodeId,
    ) -> Result<Next, ReadFault>
        requires part { IsForm forest.now.tokens lets.part }
        requires token { suc lets.part < length forest.now.tokens }
        ensures steps { (t : Formulas) (s : SofarSeen) (at : ℕ) (r : Result (Term × Known) Refused) → GoingBack forest.now.tokens t s self.old (Frame.Binding lets.entry) node at r → Stepped forest.now.tokens t s self.new r result }
        ensures less { (at : ℕ) → IfOk result (λ next. left_of forest.now.tokens self.new next < left_behind forest.now.tokens self.old (Frame.Binding lets.entry) at) }
        ensures defines { self.new.defines ≡ self.old.defines }
    {
        let mut lets = lets;
        let _ = forest.len();
        let name = forest.name(lets.part + 1);
        lets.names.add(name, node)?;
        lets.part = forest.after(lets.part);
        if begins(forest, lets.part) {
            return self.open_binding(forest, lets);
        }
        self.open_body(lets)
    }

    // Begins the body of a `let` whose terms were read.
    fn open_body(&mut self, lets: Lets<'a>) -> Result<Next, ReadFault>
        ensures steps { (ts : List Token) (t : Formulas) (s : SofarSeen) (r : Result (Term × Known) Refused) → forms_from ts lets.entry.part ≡ none → BindingNext ts t s self.old lets.entry r → Stepped ts t s self.new r result }
        ensures less { (ts : List Token) → IfOk result (λ next. left_of ts self.new next ≤ form_size (form_from ts lets.entry.body) + 1 + frames_left ts (reverse self.old.frames.items) (after_at ts lets.entry.list)) }
        ensures defines { self.new.defines ≡ self.old.defines }
    {
        lets.names.enter(&mut self.locals)?;
        self.frames.push(Frame::Body(LetBody {
            list: lets.list,
            names: lets.names.len(),
        }))?;
        Ok(Next::Form(lets.body))
    }

    /// Goes on behind the body.
    pub fn resume_body(&mut self, forest: &Forest, frame: LetBody, node: NodeId) -> Next
        requires list { IsForm forest.now.tokens frame.list }
        requires names { frame.names ≤ length self.old.locals }
        ensures steps { (t : Formulas) (s : SofarSeen) (at : ℕ) (r : Result (Term × Known) Refused) → GoingBack forest.now.tokens t s self.old (Frame.Body frame) node at r → Stepped forest.now.tokens t s self.new r (Ok result) }
        ensures less { (at : ℕ) → left_of forest.now.tokens self.new result < left_behind forest.now.tokens self.old (Frame.Body frame) at }
        ensures defines { self.new.defines ≡ self.old.defines }
    {
        self.locals.leave(frame.names);
        Next::Term {
            node,
            behind: forest.after(frame.list),
        }
    }
}
