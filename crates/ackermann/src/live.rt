//! The removal of applications over the levels of a script. An application that has no constant on an open level gets one on the
//! innermost, and keeps it until this level is closed; an assertion is replaced behind all that are live then.

ghost use Rattle.std.specs.Prelude.{◌≡◌, ◌+◌, ◌<◌, ◌≤◌, true, false, length, slice_get, Some, MatchResult, OnOk, OnErr, IfOk};
ghost use Rattle.normal_forms.specs.Nodes.{IsFormula};
ghost use Rattle.term_groups.specs.Seen.{IsGroup};
ghost use Rattle.term_subst.specs.Substituting.{IsLater, NeverGivesGained};
ghost use Rattle.smt_terms.specs.Sorts.{Symbol};
ghost use Rattle.smt_terms.specs.Term.{Term};
ghost use Rattle.term_table.specs.Formulas.{Formulas, tree, trees_at, symbol_at, AreNodes, IsSymbol};
ghost use Rattle.term_walk.specs.Walking.{GrowsTo};
ghost use Rattle.ackermann.specs.Ackermann as plain;
ghost use Rattle.ackermann.specs.LevelsAt.{levels_at, open_levels, closed, AreLiveIn, IsApplicationOf};
ghost use Rattle.ackermann.specs.declared.fault.AckFault.TheVariants.{QuantifiedUse};

use crate::fault::AckFault;
use crate::quantified::has_quantified_use;
use crate::removal::remove_applications;
use crate::uses::LiveUses;
use smt_terms::{NodeId, SymId};
use std::alloc::{AllocError, Global};
use std::marker::Model;
use term_subst::{Fresh, Group};
use term_table::Table;

// Levels that were opened at once: how many of them are open, and how many applications were live when they were opened.
#[derive(Clone, Copy)]
struct Opened {
    levels: u32,
    below: usize,
}

/// The live applications, level by level, each with its constant.
#[derive(Drop)]
pub struct Ack {
    uses: LiveUses,
    // the inner levels, the outermost first
    opened: Vec<Opened>,
}

impl Model for Ack {
    ghost use Rattle.std.specs.Prelude.{length};
    ghost use Rattle.ackermann.specs.LevelsAt.{Live, starts_of, AreOpened, AreStarts};

    ghost Value = { Live };

    ghost view = { λ a. record { uses = a.uses; starts = starts_of a.opened.items } };

    ghost invariant = { λ a. AreOpened a.opened.items × AreStarts (length a.uses) (starts_of a.opened.items) };
}

impl Ack {
    /// One level, with nothing live. It takes no memory.
    pub fn new(alloc: Global) -> Ack
        ensures levels { (t : Formulas) → levels_at t result ≡ plain.one_level }
        ensures live { (t : Formulas) → AreLiveIn t result }
        ensures open { open_levels result ≡ 0 }
    {
        Ack {
            uses: LiveUses::new(alloc),
            opened: Vec::new(alloc),
        }
    }

    /// How many applications are live.
    pub fn len(&self) -> usize
        ensures { (t : Formulas) → result ≡ length (plain.live (levels_at t self.now)) }
    {
        self.uses.len()
    }

    /// A live application, by its place in the order drawn: its function, and what took the places of its operands.
    pub fn application(&self, place: usize) -> (SymId, &[NodeId])
        requires { place < length self.now.uses }
        ensures function { (t : Formulas) → AreLiveIn t self.now → IsSymbol t result.0 }
        ensures operands { (t : Formulas) → AreLiveIn t self.now → AreNodes t result.1.now }
        ensures application { (t : Formulas) (p : Symbol × Term) → AreLiveIn t self.now → slice_get (plain.live (levels_at t self.now)) place ≡ Some p
            → IsApplicationOf (plain.live (levels_at t self.now)) (symbol_at t result.0) (trees_at t result.1.now) p.1 }
    {
        let live = self.uses.at(place);
        (live.function, live.operands.as_slice())
    }

    /// Opens so many levels. They take the memory of one. Where it is refused, all is as before.
    pub fn push(&mut self, levels: u32) -> Result<(), AllocError>
        ensures levels { OnOk result ((t : Formulas) → levels_at t self.new ≡ plain.pushed levels (levels_at t self.old)) }
        ensures live { OnOk result ((t : Formulas) → AreLiveIn t self.old → AreLiveIn t self.new) }
        ensures open { OnOk result (open_levels self.new ≡ open_levels self.old + levels) }
        ensures err { OnErr result (self.new ≡ self.old) }
    {
        if levels == 0 {
            return Ok(());
        }
        let below = self.uses.len();
        self.opened.push(Opened { levels, below })?;
        Ok(())
    }

    /// Closes so many of the innermost levels: what became live on them is no longer so. It takes no memory, and no longer
    /// than there are applications to go and calls that opened these levels.
    pub fn pop(&mut self, levels: u32)
        requires { levels ≤ open_levels self.old }
        ensures levels { (t : Formulas) → levels_at t self.new ≡ plain.popped levels (levels_at t self.old) }
        ensures live { (t : Formulas) → AreLiveIn t self.old → AreLiveIn t self.new }
        ensures open { open_levels self.new + levels ≡ open_levels self.old }
    {
        let mut left = levels;
        while left > 0 {
            left -= self.close(left);
        }
    }

    // Closes the innermost of the levels that were opened at once, so many at most, and tells how many.
    fn close(&mut self, most: u32) -> u32
        requires some { 0 < most }
        requires open { 0 < open_levels self.old }
        ensures some { 0 < result }
        ensures most { result ≤ most }
        ensures within { result ≤ open_levels self.old }
        ensures closed { self.new ≡ closed result self.old }
    {
        let innermost = *self.opened.last().unwrap();
        self.uses.truncate(innermost.below);
        if innermost.levels <= most {
            self.opened.pop();
            return innermost.levels;
        }
        let last = self.opened.len() - 1;
        self.opened[last] = Opened {
            levels: innermost.levels - most,
            below: innermost.below,
        };
        most
    }

    /// The group in the place of an assertion. What it means over the steps of a script: `laws::removals_keep_models`. Where an
    /// application stands below a quantifier, it is refused. What is refused leaves what is live as it was; no name is drawn
    /// twice, also then.
    pub fn assert(
        &mut self,
        alloc: Global,
        table: &mut Table,
        id: NodeId,
        fresh: &mut Fresh,
    ) -> Result<Group, AckFault>
        requires formula { IsFormula table.old id }
        requires live { AreLiveIn table.old self.old }
        ensures group { IfOk result (λ g. IsGroup table.new g (plain.ack (tree table.old id) (levels_at table.old self.old) fresh.old).group) }
        ensures levels { OnOk result (levels_at table.new self.new ≡ (plain.ack (tree table.old id) (levels_at table.old self.old) fresh.old).levels) }
        ensures left { OnOk result (fresh.new ≡ (plain.ack (tree table.old id) (levels_at table.old self.old) fresh.old).names) }
        ensures refused { MatchResult result (λ _. plain.has_quantified_use (tree table.old id) ≡ false) (λ e. e ≡ QuantifiedUse → plain.has_quantified_use (tree table.old id) ≡ true) }
        ensures kept { OnErr result (self.new ≡ self.old) }
        ensures open { open_levels self.new ≡ open_levels self.old }
        ensures live { AreLiveIn table.new self.new }
        ensures later { IsLater fresh.old fresh.new }
        ensures drawn { NeverGivesGained fresh.new table.old.symbols table.new.symbols }
        ensures grows { GrowsTo table.old table.new }
    {
        if has_quantified_use(alloc, table, id)? {
            return Err(AckFault::QuantifiedUse);
        }
        let before = self.uses.len();
        let removed = remove_applications(alloc, table, &mut self.uses, id, fresh);
        match removed {
            Ok(group) => Ok(group),
            Err(_) => {
                self.uses.truncate(before);
                Err(AckFault::Memory)
            }
        }
    }
}
