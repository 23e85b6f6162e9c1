//! The machine that substitutes, with a stack of its own. It implements `subst_from m t s`: the result of a term t under the
//! map m, from what is kept in s; one result for each node under one map, and one for each quantified term under one cut map.

ghost use Rattle.std.specs.Prelude.{◌≡◌, ◌<◌, ◌∷◌, [], None, OnOk, IfOk, true};
ghost use Rattle.smt_terms.specs.Free.{free};
ghost use Rattle.smt_terms.specs.Fresh.{Supply};
ghost use Rattle.smt_terms.specs.Rank.{sort_of};
ghost use Rattle.smt_terms.specs.Subst.{cut_to, subst};
ghost use Rattle.term_table.specs.Formulas.{Formulas, tree, IsNode, GrowsByOne};
ghost use Rattle.term_walk.specs.Binders.{is_quantified};
ghost use Rattle.term_subst.specs.declared.todo.Frame.TheVariants.{Visit, Build, Close};
ghost use Rattle.term_subst.specs.Keys.{chosen_in};
ghost use Rattle.term_subst.specs.Maps.{map_at};
ghost use Rattle.term_subst.specs.Running.{Runs};
ghost use Rattle.term_subst.specs.State.{AreFindings, Gains, Spares, steps_at};
ghost use Rattle.term_subst.specs.Steps.{End, load};
ghost use Rattle.term_subst.specs.Substituting.{IsMap};

use crate::by_node::ByNode;
use crate::chosen::{Chosen, Key};
use crate::cut::{as_map, cut_down};
use crate::findings::Findings;
use crate::nodes::{rebuild, requantify, split};
use crate::renaming::rename;
use crate::todo::{Frame, Level, Opened, push_visits};
use crate::{Fresh, SymMap};
use smt_terms::NodeId;
use std::alloc::{AllocError, Global};
use std::mem;
use term_table::{Table, know_table};
use term_walk::{Stack, is_binder};

// The state of one substitution: the level of the node that is next, what is to do, the results of what was done, and those
// that are kept of quantified terms.
#[derive(Drop)]
struct Machine {
    alloc: Global,
    level: Level,
    todo: Stack<Frame>,
    values: Vec<NodeId>,
    chosen: Chosen,
    findings: Findings,
}

// A quantified node with the map cut down to its free symbols.
fn key_of(
    alloc: Global,
    table: &Table,
    map: &SymMap,
    findings: &mut Findings,
    node: NodeId,
) -> Result<Key, AllocError>
    requires node { IsNode table.now node }
    requires map { IsMap table.now map.now }
    requires findings { AreFindings table.now findings.old }
    ensures findings { OnOk result (AreFindings table.now findings.new) }
    ensures node { IfOk result (λ k. k.node ≡ node) }
    ensures cut { IfOk result (λ k. IsMap table.now k.cut.items) }
    ensures fits { IfOk result (λ k. map_at table.now k.cut.items ≡ cut_to (free (tree table.now node)) (map_at table.now map.now)) }
{
    findings.find(table, node)?;
    let cut = cut_down(alloc, table, map, findings.symbols(node))?;
    Ok(Key { node, cut })
}

impl Machine {
    fn new(alloc: Global, map: SymMap) -> Machine
        ensures level { result.level.map ≡ map }
        ensures kept { result.level.kept ≡ [] }
        ensures todo { result.todo ≡ [] }
        ensures values { result.values.items ≡ [] }
        ensures chosen { result.chosen ≡ [] }
        ensures findings { (t : Formulas) → AreFindings t result.findings }
    {
        Machine {
            alloc,
            level: Level {
                map,
                kept: ByNode::new(alloc),
            },
            todo: Stack::new(alloc),
            values: Vec::new(alloc),
            chosen: Chosen::new(alloc),
            findings: Findings::new(alloc),
        }
    }

    // Puts the result of a node among the values, or what there is to do for it before the rest.
    fn visit(
        &mut self,
        table: &mut Table,
        node: NodeId,
        fresh: &mut Fresh,
    ) -> Result<(), AllocError>
        requires going { (first : Supply) × (end : End) × Runs table.old fresh.old first self.old (Visit node ∷ self.old.todo) end }
        ensures going { (first : Supply) (end : End) → Runs table.old fresh.old first self.old (Visit node ∷ self.old.todo) end → OnOk result (Runs table.new fresh.new first self.new self.new.todo end) }
        ensures nearer { OnOk result (load (steps_at table.new self.new.todo) < load (steps_at table.old (Visit node ∷ self.old.todo))) }
        ensures gains { Gains table.old table.new fresh.old fresh.new }
    {
        if let Some(result) = self.level.kept.get(node) {
            self.values.push(*result)?;
            return Ok(());
        }
        if is_binder(table, node) {
            self.visit_binder(table, node, fresh)?;
            return Ok(());
        }
        self.todo.push(Frame::Build(node))?;
        push_visits(&mut self.todo, table.kids(node))?;
        Ok(())
    }

    fn visit_binder(
        &mut self,
        table: &mut Table,
        node: NodeId,
        fresh: &mut Fresh,
    ) -> Result<(), AllocError>
        requires binder { is_quantified (tree table.old node) ≡ true }
        requires going { (first : Supply) × (end : End) × Runs table.old fresh.old first self.old (Visit node ∷ self.old.todo) end }
        ensures going { (first : Supply) (end : End) → Runs table.old fresh.old first self.old (Visit node ∷ self.old.todo) end → OnOk result (Runs table.new fresh.new first self.new self.new.todo end) }
        ensures nearer { OnOk result (load (steps_at table.new self.new.todo) < load (steps_at table.old (Visit node ∷ self.old.todo))) }
        ensures gains { Gains table.old table.new fresh.old fresh.new }
    {
        know_table(table);
        let key = key_of(self.alloc, table, &self.level.map, &mut self.findings, node)?;
        match self.chosen.get(&key) {
            Some(result) => {
                self.level.kept.put(node, result)?;
                self.values.push(result)?;
                Ok(())
            }
            None => {
                self.open(table, key, fresh)?;
                Ok(())
            }
        }
    }

    // Goes to the level of a quantified node's body.
    fn open(&mut self, table: &mut Table, key: Key, fresh: &mut Fresh) -> Result<(), AllocError>
        requires binder { is_quantified (tree table.old key.node) ≡ true }
        requires cut { IsMap table.old key.cut.items }
        requires fits { map_at table.old key.cut.items ≡ cut_to (free (tree table.old key.node)) (map_at table.old self.old.level.map) }
        requires none { chosen_in self.old.chosen key.node key.cut.items ≡ None }
        requires going { (first : Supply) × (end : End) × Runs table.old fresh.old first self.old (Visit key.node ∷ self.old.todo) end }
        ensures going { (first : Supply) (end : End) → Runs table.old fresh.old first self.old (Visit key.node ∷ self.old.todo) end → OnOk result (Runs table.new fresh.new first self.new self.new.todo end) }
        ensures nearer { OnOk result (load (steps_at table.new self.new.todo) < load (steps_at table.old (Visit key.node ∷ self.old.todo))) }
        ensures gains { Gains table.old table.new fresh.old fresh.new }
    {
        let mut map = as_map(self.alloc, &key.cut)?;
        let (variables, body) = split(table, key.node);
        let variables = Vec::from_slice(self.alloc, variables)?;
        let variables = rename(
            self.alloc,
            &mut self.findings,
            table,
            &key.cut,
            &variables,
            &mut map,
            fresh,
        )?;
        know_table(table);
        let level = Level {
            map,
            kept: ByNode::new(self.alloc),
        };
        let outer = mem::replace(&mut self.level, level);
        self.todo.push(Frame::Close(Opened {
            key,
            variables,
            outer,
        }))?;
        self.todo.push(Frame::Visit(body))?;
        Ok(())
    }

    // Makes the result of a node of those of its operands.
    fn build(&mut self, table: &mut Table, node: NodeId) -> Result<(), AllocError>
        requires going { (names : Supply) × (first : Supply) × (end : End) × Runs table.old names first self.old (Build node ∷ self.old.todo) end }
        ensures going { (names first : Supply) (end : End) → Runs table.old names first self.old (Build node ∷ self.old.todo) end → OnOk result (Runs table.new names first self.new self.new.todo end) }
        ensures todo { self.new.todo ≡ self.old.todo }
        ensures grows { GrowsByOne table.old.trees table.new.trees }
        ensures symbols { table.new.symbols ≡ table.old.symbols }
        ensures sorts { table.new.sorts ≡ table.old.sorts }
    {
        let start = self.values.len() - table.kids(node).len();
        let result = rebuild(table, &self.level.map, node, &self.values[start..])?;
        self.level.kept.put(node, result)?;
        self.values.truncate(start);
        self.values.push(result)?;
        Ok(())
    }

    // Makes the result of a quantified node of that of its body, and goes back to the level outside.
    fn close(&mut self, table: &mut Table, opened: Opened) -> Result<(), AllocError>
        requires going { (names : Supply) × (first : Supply) × (end : End) × Runs table.old names first self.old (Close opened ∷ self.old.todo) end }
        ensures going { (names first : Supply) (end : End) → Runs table.old names first self.old (Close opened ∷ self.old.todo) end → OnOk result (Runs table.new names first self.new self.new.todo end) }
        ensures todo { self.new.todo ≡ self.old.todo }
        ensures grows { GrowsByOne table.old.trees table.new.trees }
        ensures symbols { table.new.symbols ≡ table.old.symbols }
        ensures sorts { table.new.sorts ≡ table.old.sorts }
    {
        let Opened {
            key,
            variables,
            outer,
        } = opened;
        know_table(table);
        let body = self.values.pop().unwrap();
        let result = requantify(self.alloc, table, key.node, &variables, body)?;
        know_table(table);
        self.level = outer;
        self.level.kept.put(key.node, result)?;
        self.values.push(result)?;
        self.chosen.put(key, result)?;
        Ok(())
    }

    // Does a step that was taken off.
    fn turn(&mut self, table: &mut Table, frame: Frame, fresh: &mut Fresh) -> Result<(), AllocError>
        requires going { (first : Supply) × (end : End) × Runs table.old fresh.old first self.old (frame ∷ self.old.todo) end }
        ensures going { (first : Supply) (end : End) → Runs table.old fresh.old first self.old (frame ∷ self.old.todo) end → OnOk result (Runs table.new fresh.new first self.new self.new.todo end) }
        ensures nearer { OnOk result (load (steps_at table.new self.new.todo) < load (steps_at table.old (frame ∷ self.old.todo))) }
        ensures gains { Gains table.old table.new fresh.old fresh.new }
    {
        match frame {
            Frame::Visit(node) => {
                self.visit(table, node, fresh)?;
                Ok(())
            }
            Frame::Build(node) => {
                self.build(table, node)?;
                Ok(())
            }
            Frame::Close(opened) => {
                self.close(table, opened)?;
                Ok(())
            }
        }
    }
}

// The result of a node under a map, as `subst` has it.
pub(crate) fn run(
    alloc: Global,
    table: &mut Table,
    map: SymMap,
    root: NodeId,
    fresh: &mut Fresh,
) -> Result<NodeId, AllocError>
    requires root { IsNode table.old root }
    requires map { IsMap table.old map }
    requires names { Spares fresh.old (tree table.old root) }
    ensures node { IfOk result (λ k. IsNode table.new k) }
    ensures term { IfOk result (λ k. tree table.new k ≡ (subst (map_at table.old map) (tree table.old root) fresh.old).0) }
    ensures left { OnOk result (fresh.new ≡ (subst (map_at table.old map) (tree table.old root) fresh.old).1) }
    ensures sort { IfOk result (λ k. sort_of (tree table.new k) ≡ sort_of (tree table.old root)) }
    ensures gains { Gains table.old table.new fresh.old fresh.new }
{
    let mut machine = Machine::new(alloc, map);
    machine.todo.push(Frame::Visit(root))?;
    while let Some(frame) = machine.todo.pop() {
        machine.turn(table, frame, fresh)?;
    }
    Ok(machine.values[0])
}
