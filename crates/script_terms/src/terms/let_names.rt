//! The names of a `let`, while their terms are read.

ghost use Rattle.std.specs.Prelude.{◌≡◌, ◌+◌, ◌<◌, ◌≤◌, ◌++◌, ◌∷◌, [], length, map, reverse, suc, false, Some, slice_get, OnOk, IfOk};
ghost use Rattle.smt_lex.specs.Names.{Name, is_among};
ghost use Rattle.smt_terms.specs.declared.ids.NodeId.{NodeId};
ghost use Rattle.script_terms.specs.Bound.{let_local};
ghost use Rattle.script_terms.specs.Bound.{name_at};
ghost use Rattle.script_terms.specs.Known.{IsOwnName};
ghost use Rattle.script_terms.specs.Openings.{binding_in};
ghost use Rattle.script_terms.specs.Places.{IsForm, form_from};
ghost use Rattle.script_terms.specs.Replies.{Agrees};
ghost use Rattle.script_terms.specs.Sizes.{form_size};

use crate::causes::Cause;
use crate::faults::Fault;
use crate::locals::{Local, Locals};
use crate::names::is_theory_name;
use crate::places::{bad_form, fault, is_symbol, two_inside};
use indexmap::IndexMap;
use smallvec::SmallVec;
use smt_lex::Forest;
use smt_terms::{BuildNameHasher, NodeId};
use std::alloc::{AllocError, Global};
use std::marker::Model;

// How many names are compared one by one. A table is made for those behind them alone.
const FEW: usize = 8;

/// Names, each once, with their terms, in order.
#[derive(Drop)]
pub struct LetNames<'a> {
    first: SmallVec<(&'a [u8], NodeId), 2>,
    later: IndexMap<&'a [u8], NodeId, BuildNameHasher>,
}

impl<'a> Model for LetNames<'a> {
    ghost use Rattle.std.specs.Prelude.{List, ◌++◌, ◌≤◌, length};
    ghost use Rattle.smt_lex.specs.Names.{Name};
    ghost use Rattle.smt_terms.specs.declared.ids.NodeId.{NodeId};
    ghost use Rattle.script_terms.specs.Laid.{borrowed};

    ghost Value = { List (Name × NodeId) };

    ghost view = { λ s. borrowed (s.first.items ++ s.later.entries) };

    ghost invariant = { λ s. length s.first.items ≤ 8 };
}

impl<'a> LetNames<'a> {
    /// No names. It takes no memory.
    pub fn new(alloc: Global) -> LetNames<'a>
        ensures { result ≡ [] }
    {
        LetNames {
            first: SmallVec::new(alloc),
            later: IndexMap::with_hasher(alloc, BuildNameHasher::new()),
        }
    }

    /// Whether a name is among them.
    pub fn has(&self, name: &[u8]) -> bool
        ensures { result ≡ is_among (map (λ p. p.0) self.now) name.now }
    {
        is_in(&self.first, name) || !self.later.is_empty() && self.later.get(name).is_some()
    }

    /// The number of names.
    pub fn len(&self) -> usize
        ensures { result ≡ length self.now }
    {
        self.first.len() + self.later.len()
    }

    /// Puts a name last that isn't among them.
    pub fn add(&mut self, name: &'a [u8], term: NodeId) -> Result<(), AllocError>
        ensures { is_among (map (λ p. p.0) self.old) name.now ≡ false → OnOk result (self.new ≡ self.old ++ (name.now, term) ∷ []) }
    {
        if self.first.len() < FEW && self.later.is_empty() {
            self.first.push((name, term))?;
        } else {
            self.later.insert(name, term)?;
        }
        Ok(())
    }

    /// Binds the names, all at once.
    pub fn enter(&self, locals: &mut Locals<'a>) -> Result<(), AllocError>
        ensures { OnOk result (locals.new ≡ map let_local self.now ++ locals.old) }
    {
        for place in (0..self.len()).rev() {
            self.enter_one(locals, place)?;
        }
        Ok(())
    }

    fn enter_one(&self, locals: &mut Locals<'a>, place: usize) -> Result<(), AllocError>
        ensures { (p : Name × NodeId) → slice_get self.now place ≡ Some p → OnOk result (locals.new ≡ let_local p ∷ locals.old) }
    {
        if let Some((name, term)) = self.first.get(place) {
            return locals.enter(*name, Local::Let(*term));
        }
        match self.later.get_index(place - self.first.len()) {
            Some((name, term)) => locals.enter(*name, Local::Let(*term)),
            None => Ok(()),
        }
    }
}

// Whether a name is one of these.
fn is_in(terms: &[(&[u8], NodeId)], name: &[u8]) -> bool
    ensures { result ≡ is_among (map (λ e. e.0.now) terms.now) name.now }
{
    for (other, _) in terms {
        if name == *other {
            return true;
        }
    }
    false
}

/// The term of the binding of token `part`, whose name is that of the token behind it; or why it binds no name behind these.
pub fn binding_term(forest: &Forest, part: usize, names: &LetNames) -> Result<usize, Fault>
    requires { IsForm forest.now.tokens part }
    ensures name { Agrees (binding_in (reverse (map (λ p. p.0) names.now)) (form_from forest.now.tokens part)) (λ j. (name_at forest.now.tokens (suc part), form_from forest.now.tokens j)) result }
    ensures form { IfOk result (IsForm forest.now.tokens) }
    ensures new { IfOk result (λ _. is_among (map (λ p. p.0) names.now) (name_at forest.now.tokens (suc part)) ≡ false) }
    ensures own { IfOk result (λ _. IsOwnName (name_at forest.now.tokens (suc part))) }
    ensures token { IfOk result (λ _. suc part < length forest.now.tokens) }
    ensures size { IfOk result (λ j. form_size (form_from forest.now.tokens j) + 3 ≤ form_size (form_from forest.now.tokens part)) }
{
    let Some((name, term)) = two_inside(forest, part) else {
        return Err(bad_form(forest, part));
    };
    if !is_symbol(forest, name) {
        return Err(bad_form(forest, part));
    }
    if is_theory_name(forest.name(name)) {
        return Err(fault(forest, name, Cause::ReservedName));
    }
    if names.has(forest.name(name)) {
        return Err(fault(forest, name, Cause::Redeclared));
    }
    Ok(term)
}
