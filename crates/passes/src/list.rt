//! Lists of passes as they are written: names joined by commas, at most 32 of them.

ghost use Rattle.std.specs.Prelude.{◌≡◌, ◌<◌, ◌≤◌, [], ◌∷◌, ◌++◌, length, map, slice_get, MatchResult, false};
ghost use Rattle.pass_laws.specs.declared.names.Pass.{Pass as APass};
ghost use Rattle.pass_laws.specs.Lists.{groups_after_rules, in_order, makes_groups, pass_among, pass_list, pass_named};

use arrayvec::ArrayVec;
use pass_laws::{ListFault, Pass};
use std::marker::Model;

/// The most passes that a list may have.
const MOST: usize = 32;

/// The passes by their names.
const NAMES: [(&str, Pass); 11] = [
    ("simplify", Pass::Simplify),
    ("nnf", Pass::Nnf),
    ("aig", Pass::Aig),
    ("prenex", Pass::Prenex),
    ("reads", Pass::Reads),
    ("shannon", Pass::Shannon),
    ("selfsub", Pass::SelfSub),
    ("rules", Pass::Rules),
    ("ite", Pass::Ite),
    ("cnf", Pass::Cnf),
    ("ackermann", Pass::Ackermann),
];

/// A list of at most 32 passes, in the order in which they are applied. It lies in the value itself and takes no memory.
#[derive(Drop)]
pub struct Passes {
    passes: ArrayVec<Pass, MOST>,
}

impl Model for Passes {
    ghost use Rattle.std.specs.Prelude.{◌≡◌, List, false};
    ghost use Rattle.pass_laws.specs.declared.names.Pass.{Pass as APass};
    ghost use Rattle.pass_laws.specs.Lists.{groups_after_rules};

    ghost Value = { List APass };

    ghost view = { λ s. s.passes.items };

    ghost invariant = { λ s. groups_after_rules s.passes.items ≡ false };
}

impl Passes {
    /// The empty list.
    pub fn new() -> Passes
        ensures { result ≡ [] }
    {
        Passes {
            passes: ArrayVec::new(),
        }
    }

    /// How many passes there are. None that makes groups stands behind `rules`.
    pub fn len(&self) -> usize
        ensures number { result ≡ length self.now }
        ensures bound { result ≤ 32 }
        ensures order { groups_after_rules self.now ≡ false }
    {
        self.passes.len()
    }

    /// The pass at place `i`, counted from 0.
    pub fn pass(&self, i: usize) -> Pass
        requires { i < length self.now }
        ensures { slice_get self.now i ≡ Some result }
    {
        self.passes.as_slice()[i]
    }
}

/// Puts a pass last, where there is a place for it.
fn push(passes: &mut ArrayVec<Pass, MOST>, pass: Pass) -> Result<(), ListFault>
    ensures { MatchResult result
        (λ _. (length passes.old.items < 32) × (passes.new.items ≡ passes.old.items ++ pass ∷ []))
        (λ e. (length passes.old.items ≡ 32) × (e ≡ ListFault.BadPass)) }
{
    match passes.try_push(pass) {
        Ok(()) => Ok(()),
        Err(_) => Err(ListFault::BadPass),
    }
}

/// The list of these passes, unless one that makes groups stands behind `rules`.
fn in_order(passes: ArrayVec<Pass, MOST>) -> Result<Passes, ListFault>
    ensures { result ≡ in_order passes.items }
{
    if groups_after_rules(passes.as_slice()) {
        return Err(ListFault::AfterRules);
    }
    Ok(Passes { passes })
}

/// Whether a pass that makes groups stands behind `rules`.
fn groups_after_rules(passes: &[Pass]) -> bool
    ensures { result ≡ groups_after_rules passes.now }
{
    passes
        .iter()
        .skip_while(|pass| **pass != Pass::Rules)
        .any(|pass| makes_groups(*pass))
}

fn named_among(names: &[(&str, Pass)], name: &str) -> Option<Pass>
    ensures { result ≡ pass_among (map (λ p. (p.0.now, p.1)) names.now) name.now }
{
    for (other, pass) in names {
        if *other == name {
            return Some(*pass);
        }
    }
    None
}

/// The pass of this name.
#[tactic(auto, unfolding(pass_laws::specs::Lists::pass_named))]
fn named(name: &str) -> Option<Pass>
    ensures { result ≡ pass_named name.now }
{
    named_among(&NAMES, name)
}

/// The pass of this name.
fn listed(name: &str) -> Result<Pass, ListFault>
    ensures { MatchResult result (λ p. pass_named name.now ≡ Some p) (λ e. (e ≡ ListFault.BadPass) × (pass_named name.now ≡ None)) }
{
    match named(name) {
        Some(pass) => Ok(pass),
        None => Err(ListFault::BadPass),
    }
}

/// Whether the pass puts groups in the place of assertions, with new symbols.
fn makes_groups(pass: Pass) -> bool
    ensures { result ≡ makes_groups pass }
{
    matches!(pass, Pass::Ite | Pass::Cnf | Pass::Ackermann)
}

/// Reads a list of passes: their names, with a comma between each two. `BadPass` comes for a name that isn't that of a
/// pass, and for more than 32 names; else `AfterRules` for a pass that makes groups behind `rules`. It takes no memory.
pub fn parse_list(text: &str) -> Result<Passes, ListFault>
    ensures { result ≡ pass_list text.now }
{
    let mut passes = ArrayVec::new();
    for name in text.split(',') {
        push(&mut passes, listed(name)?)?;
    }
    in_order(passes)
}
