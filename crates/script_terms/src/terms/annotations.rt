//! Annotations under way: `(! t A ..)` has t, then the names that its attributes give it.

ghost use Rattle.std.specs.Prelude.{◌≡◌, ◌<◌, ◌≤◌, List, length, IfOk, IfSome, Result};
ghost use Rattle.std.specs.List.{list_any};
ghost use Rattle.smt_lex.specs.Forest.{token_at};
ghost use Rattle.smt_lex.specs.Forms.{Form};
ghost use Rattle.smt_terms.specs.Fresh.{Supply};
ghost use Rattle.smt_terms.specs.Term.{Term};
ghost use Rattle.term_table.specs.Formulas.{Formulas, tree};
ghost use Rattle.script_terms.specs.Refusals.{Refused};
ghost use Rattle.script_terms.specs.Reading.{Sofar as Known, ReadBinding, ReadLocal};
ghost use Rattle.script_terms.specs.Parts.{annotation_word};
ghost use Rattle.script_terms.specs.Read.{Context, mentions_local};
ghost use Rattle.script_terms.specs.Known.{Shows, IsSpared};
ghost use Rattle.script_terms.specs.Bound.{ShowsLocals};
ghost use Rattle.script_terms.specs.Places.{IsForm, SparesText, forms_from};
ghost use Rattle.script_terms.specs.TermClauses.{defined_name, naming, NamesGiven};
ghost use Rattle.script_terms.specs.SymbolClauses.{has_symbol};

use crate::faults::ReadFault;
use crate::locals::Locals;
use crate::places::bad_form;
use crate::scopes::Scope;
use crate::sofar::Sofar;
use crate::terms::frames::{Annotation, Frame, Next};
use crate::terms::shapes::annotated_parts;
use crate::terms::term_names::name_term;
use crate::terms::term_reader::TermReader;
use indexmap::IndexSet;
use smt_lex::Forest;
use smt_terms::{NodeId, SymId};
use std::alloc::{AllocError, Global};
use term_table::{Table, know_table};
use term_walk::free_symbols;

impl<'a> TermReader<'a> {
    ghost use Rattle.script_terms.specs.declared.sofar.Sofar.{Sofar as SofarSeen};
    ghost use Rattle.script_terms.specs.Waiting.{Going, GoingBack, Stepped, SomeGoingBack, Keeps, left_of, left_behind, Opens};

    /// Begins the term of the annotation of token `list`.
    pub fn open_annotation(
        &mut self,
        forest: &'a Forest,
        list: usize,
        first: usize,
    ) -> Result<Next, ReadFault>
        requires list { IsForm forest.now.tokens list }
        requires opens { Opens forest.now.tokens list first annotation_word }
        ensures steps { (t : Formulas) (s : SofarSeen) (r : Result (Term × Known) Refused) → Going forest.now.tokens t s self.old (Next.Form list) r → Stepped forest.now.tokens t s self.new r result }
        ensures less { IfOk result (λ next. left_of forest.now.tokens self.new next < left_of forest.now.tokens self.old (Next.Form list)) }
        ensures defines { self.new.defines ≡ self.old.defines }
    {
        let (term, attributes) = annotated_parts(forest, list, first)?;
        self.frames
            .push(Frame::Annotated(Annotation { list, attributes }))?;
        Ok(Next::Form(term))
    }

    /// Goes on behind the term of an annotation: gives it its names.
    pub fn resume_annotated(
        &mut self,
        table: &Table,
        forest: &'a Forest,
        sofar: &mut Sofar<'a>,
        frame: Annotation,
        node: NodeId,
        behind: usize,
    ) -> Result<Next, ReadFault>
        requires text { SparesText forest.now.tokens sofar.old.fresh }
        requires defined { IfSome self.old.defines (λ i. i < length forest.now.tokens) }
        requires going { SomeGoingBack forest.now.tokens table.now sofar.old self.old (Frame.Annotated frame) node behind }
        ensures steps { (r : Result (Term × Known) Refused) → GoingBack forest.now.tokens table.now sofar.old self.old (Frame.Annotated frame) node behind r → Stepped forest.now.tokens table.now sofar.new self.new r result }
        ensures less { IfOk result (λ next. left_of forest.now.tokens self.new next < left_behind forest.now.tokens self.old (Frame.Annotated frame) behind) }
        ensures keeps { Keeps table.now table.now sofar.old sofar.new self.old self.new }
    {
        give_names(
            self.alloc,
            table,
            forest,
            &mut sofar.scope,
            &self.locals,
            self.defines,
            frame,
            node,
        )?;
        Ok(Next::Term {
            node,
            behind: forest.after(frame.list),
        })
    }
}

// Gives a term the names that its annotation has. A term with a name has no quantified name and no parameter free.
fn give_names<'a>(
    alloc: Global,
    table: &Table,
    forest: &'a Forest,
    scope: &mut Scope<'a>,
    locals: &Locals,
    defines: Option<usize>,
    frame: Annotation,
    node: NodeId,
) -> Result<(), ReadFault>
    requires list { IsForm forest.now.tokens frame.list }
    requires attributes { frame.attributes ≤ length forest.now.tokens }
    requires defined { IfSome defines (λ i. i < length forest.now.tokens) }
    requires known { (supply : Supply) × (bound : List ReadLocal) × ShowsLocals table.now supply locals.now bound × IsSpared table.now supply node }
    ensures names { (supply : Supply) (live : List ReadBinding) (c : Context) (f : Form) → Shows table.now supply scope.old live → ShowsLocals table.now supply locals.now c.locals → c.defines ≡ defined_name forest.now.tokens defines → IsSpared table.now supply node → NamesGiven table.now supply scope.new node (naming (token_at forest.now.tokens frame.list).start (forms_from forest.now.tokens frame.attributes) c f (tree table.now node) (record { live = live; supply = supply })) result }
    ensures definitions { scope.new.definitions ≡ scope.old.definitions }
{
    let is_named = name_term(forest, scope, defines, frame, node)?;
    if !is_named {
        return Ok(());
    }
    let mentions = mentions_local(alloc, table, locals, node)?;
    if mentions {
        return Err(ReadFault::Refused(bad_form(forest, frame.list)));
    }
    Ok(())
}

// Whether a quantified name or a parameter occurs free in the term.
fn mentions_local(
    alloc: Global,
    table: &Table,
    locals: &Locals,
    node: NodeId,
) -> Result<bool, AllocError>
    requires locals { (supply : Supply) × (bound : List ReadLocal) × ShowsLocals table.now supply locals.now bound × IsSpared table.now supply node }
    ensures { (supply : Supply) (bound : List ReadLocal) → ShowsLocals table.now supply locals.now bound → IfOk result (λ mentions. mentions ≡ mentions_local bound (tree table.now node)) }
{
    know_table(table);
    let constants = locals.constants();
    if constants.is_empty() {
        return Ok(false);
    }
    let bound = set_of(alloc, constants)?;
    let free = free_symbols(alloc, table, node)?;
    Ok(has_any(&bound, &free))
}

// The set of these symbols.
fn set_of(alloc: Global, symbols: &[SymId]) -> Result<IndexSet<SymId>, AllocError>
    ensures { IfOk result (λ set. (f : SymId) → has_symbol set.keys f ≡ has_symbol symbols.now f) }
{
    let mut set = IndexSet::new(alloc);
    for symbol in symbols {
        set.insert(*symbol)?;
    }
    Ok(set)
}

// Whether one of these symbols is in the set.
fn has_any(set: &IndexSet<SymId>, symbols: &[SymId]) -> bool
    ensures { result ≡ list_any (has_symbol set.now.keys) symbols.now }
{
    for symbol in symbols {
        if set.contains(symbol) {
            return true;
        }
    }
    false
}
