//! Local bindings: names of `let`, of quantifiers and of parameters.

ghost use Rattle.std.specs.Prelude.{◌≡◌, ◌≤◌, ◌<◌, ◌||◌, ◌∷◌, [], length, drop, reverse, List, Some, IsSome, IfSome, IsOk, OnOk, if◌then◌else◌, vec_len, vec_capacity};
ghost use Rattle.smt_lex.specs.Names.{Name};
ghost use Rattle.smt_terms.specs.Equal.{name_eq};
ghost use Rattle.script_terms.specs.Bound.{innermost, is_quantified_local, quantified_among, constants_before, constants_in};
ghost use Rattle.script_terms.specs.Linked.{at_name, names_bound, place_in, AreLinked};

use indexmap::IndexMap;
use smt_terms::{BuildNameHasher, NodeId, SymId};
use std::alloc::{AllocError, Global};
use std::marker::Model;

/// A symbol without arguments, and its node.
#[derive(Clone, Copy, Debug, PartialEq, Eq)]
pub struct Constant {
    pub symbol: SymId,
    pub node: NodeId,
}

/// What a name is read as that is bound locally.
#[derive(Clone, Copy, Debug, PartialEq, Eq)]
pub enum Local {
    /// A name of a `let`: its term.
    Let(NodeId),
    /// A name of a quantifier.
    Quantified(Constant),
    /// A parameter of a definition.
    Parameter(Constant),
}

// A name that is bound.
#[derive(Drop)]
struct Binding<'a> {
    name: &'a [u8],
    local: Local,
    // the next binding of this name outwards
    outer: Option<usize>,
    // this one or one of this name around it is a quantifier's
    is_quantified: bool,
}

/// The names that are bound locally, of which the innermost counts.
#[derive(Drop)]
pub struct Locals<'a> {
    bindings: Vec<Binding<'a>>,
    // the innermost binding of each name that is bound
    places: IndexMap<&'a [u8], usize, BuildNameHasher>,
    constants: Vec<SymId>,
}

impl<'a> Model for Locals<'a> {
    ghost use Rattle.std.specs.Prelude.{List, reverse};
    ghost use Rattle.smt_lex.specs.Names.{Name};
    ghost use Rattle.script_terms.specs.declared.locals.Local.{Local};
    ghost use Rattle.script_terms.specs.Linked.{names_bound, IsLinked};

    ghost Value = { List (Name × Local) };

    ghost view = { λ s. names_bound (reverse s.bindings.items) };

    ghost invariant = { λ s. IsLinked (reverse s.bindings.items) s.places.entries s.constants.items };
}

impl<'a> Locals<'a> {
    /// Nothing is bound. It takes no memory.
    pub fn new(alloc: Global) -> Locals<'a>
        ensures { result ≡ [] }
    {
        Locals {
            bindings: Vec::new(alloc),
            places: IndexMap::with_hasher(alloc, BuildNameHasher::new()),
            constants: Vec::new(alloc),
        }
    }

    /// What the innermost binding of a name has. Where nothing is bound, the name isn't looked at.
    #[inline(always)]
    pub fn find(&self, name: &[u8]) -> Option<Local>
        ensures { result ≡ innermost self.now name.now }
    {
        if self.bindings.is_empty() {
            return None;
        }
        self.find_bound(name)
    }

    fn find_bound(&self, name: &[u8]) -> Option<Local>
        ensures { result ≡ innermost self.now name.now }
    {
        match self.places.get(name) {
            Some(place) => Some(self.bindings[*place].local),
            None => None,
        }
    }

    /// Whether a quantifier binds this name.
    pub fn is_quantified(&self, name: &[u8]) -> bool
        ensures { result ≡ quantified_among self.now name.now }
    {
        if self.bindings.is_empty() {
            return false;
        }
        is_quantified_at(&self.bindings, self.places.get(name).copied())
    }

    /// The symbols of quantified names and parameters, the outermost first.
    pub fn constants(&self) -> &[SymId]
        ensures { reverse result.now ≡ constants_in self.now }
    {
        self.constants.as_slice()
    }

    /// The number of bindings.
    pub fn len(&self) -> usize
        ensures { result ≡ length self.now }
    {
        self.bindings.len()
    }

    /// Binds a name inside all others.
    pub fn enter(&mut self, name: &'a [u8], local: Local) -> Result<(), AllocError>
        ensures { OnOk result (self.new ≡ (name.now, local) ∷ self.old) }
    {
        self.bindings.reserve(1)?;
        self.constants.reserve(1)?;
        let outer = self.places.insert(name, self.bindings.len())?;
        let is_quantified = is_quantified_with(&self.bindings, outer, local);
        self.bindings.push(Binding {
            name,
            local,
            outer,
            is_quantified,
        })?;
        push_constant(&mut self.constants, local)?;
        Ok(())
    }

    /// Takes the n innermost bindings away. It takes no memory.
    pub fn leave(&mut self, n: usize)
        requires { n ≤ length self.old }
        ensures { self.new ≡ drop n self.old }
    {
        for _ in 0..n {
            self.leave_one();
        }
    }

    fn leave_one(&mut self)
        ensures { self.new ≡ drop 1 self.old }
    {
        let Some(binding) = self.bindings.pop() else {
            return;
        };
        pop_constant(&mut self.constants, binding.local);
        point_to(&mut self.places, binding.name, binding.outer);
    }
}

// Whether a quantifier binds the name that has its innermost binding at this place, if any.
fn is_quantified_at(bindings: &[Binding], place: Option<usize>) -> bool
    requires { IfSome place (λ i. i < length bindings.now) }
    ensures { (n : Name) → AreLinked (reverse bindings.now) → place ≡ place_in (reverse bindings.now) n → result ≡ quantified_among (names_bound (reverse bindings.now)) n }
{
    match place {
        Some(place) => bindings[place].is_quantified,
        None => false,
    }
}

// Whether a quantifier binds a name, below this binding of it; the innermost of the others is at this place, if any.
fn is_quantified_with(bindings: &[Binding], outer: Option<usize>, local: Local) -> bool
    requires { IfSome outer (λ i. i < length bindings.now) }
    ensures { (n : Name) → AreLinked (reverse bindings.now) → outer ≡ place_in (reverse bindings.now) n → result ≡ (is_quantified_local local || quantified_among (names_bound (reverse bindings.now)) n) }
{
    match local {
        Local::Quantified(_) => true,
        Local::Let(_) | Local::Parameter(_) => is_quantified_at(bindings, outer),
    }
}

// Gives a name that is bound the place of another of its bindings, or none.
fn point_to<'a>(
    places: &mut IndexMap<&'a [u8], usize, BuildNameHasher>,
    name: &'a [u8],
    place: Option<usize>,
)
    requires { IsSome (at_name places.old.entries name.now) }
    ensures { (n : Name) → at_name places.new.entries n ≡ (if name_eq name.now n then place else at_name places.old.entries n) }
{
    match place {
        Some(place) => {
            // the name is there, so this takes no memory
            let _ = places.insert(name, place);
        }
        None => {
            places.swap_remove(name);
        }
    }
}

fn push_constant(constants: &mut Vec<SymId>, local: Local) -> Result<(), AllocError>
    ensures ok { OnOk result (reverse constants.new.items ≡ constants_before local (reverse constants.old.items)) }
    ensures succeeds { vec_len constants.old < vec_capacity constants.old → IsOk result }
{
    match local {
        Local::Quantified(constant) | Local::Parameter(constant) => {
            constants.push(constant.symbol)?;
            Ok(())
        }
        Local::Let(_) => Ok(()),
    }
}

fn pop_constant(constants: &mut Vec<SymId>, local: Local)
    ensures { (fs : List SymId) → reverse constants.old.items ≡ constants_before local fs → reverse constants.new.items ≡ fs }
{
    match local {
        Local::Quantified(_) | Local::Parameter(_) => {
            constants.pop();
        }
        Local::Let(_) => {}
    }
}
