//! Models, by the numbers of a table's sorts and symbols.

ghost use Rattle.std.specs.Prelude.{◌≡◌, ◌<◌, [], length, option_map, is_some, None, Some, All, IfOk, IfSome, IfNone, IsSome, List, OnOk, OnErr};
ghost use Rattle.smt_terms.specs.Models.{IsModel, IsModelOver, symbol_value};
ghost use Rattle.smt_terms.specs.Sorts.{Name, Symbol};
ghost use Rattle.smt_terms.specs.Values.{default_value};
ghost use Rattle.smt_values.specs.Meaning.{meaning, IsHeld};
ghost use Rattle.smt_values.specs.SizeTable.{sizes_by};
ghost use Rattle.smt_values.specs.Valid.{IsValue};
ghost use Rattle.term_table.specs.Formulas.{Formulas, symbol_at, IsSymbol, IsTable};
ghost use Rattle.models.specs.GraphRows.{meanings, constant_graph, has_row, with_row, AreValues};
ghost use Rattle.models.specs.LiveNumbers.{signature_of, AreLiveNumbersOf};
ghost use Rattle.models.specs.ModelView.{graph_in, model_at, IsModelOf, AreSizesOf, no_numbers, default_model, default_model_of, with_graph, with_row_for, without_functions};
ghost use Rattle.models.specs.Division.{numbers_of, with_numbers};

use crate::graph::Graph;
use crate::numbers::NumberGraph;
use crate::signature::Signature;
use indexmap::IndexMap;
use smt_terms::SymId;
use smt_values::{Sizes, Value, default_value};
use std::alloc::{AllocError, Global};
use std::marker;
use term_table::Table;

/// The two parts of what division by zero gives: the quotients, of `div`, and the remainders, of `mod`.
#[derive(Clone, Copy, Debug, PartialEq, Eq)]
pub enum Division {
    Quotient,
    Remainder,
}

/// A model over a signature: the sizes of the declared sorts, a function for each symbol that it has, and the results of
/// `div` and `mod` by zero.
#[derive(Drop)]
pub struct Model {
    alloc: Global,
    sizes: Sizes,
    graphs: IndexMap<SymId, Graph>,
    div_by_zero: NumberGraph,
    mod_by_zero: NumberGraph,
}

impl marker::Model for Model {
    ghost use Rattle.models.specs.ModelView.{ModelLists, coded_model_lists};

    ghost Value = { ModelLists };

    ghost coded = { coded_model_lists };

    ghost view = { λ m. record { sizes = m.sizes; graphs = m.graphs.entries; div_by_zero = m.div_by_zero; mod_by_zero = m.mod_by_zero } };
}

impl Model {
    // The model of these sizes that has no symbol.
    fn empty(alloc: Global, sizes: Sizes) -> Model
        ensures { result ≡ record { sizes = sizes; graphs = []; div_by_zero = no_numbers; mod_by_zero = no_numbers } }
    {
        Model {
            alloc,
            sizes,
            graphs: IndexMap::new(alloc),
            div_by_zero: NumberGraph::new(alloc, 0),
            mod_by_zero: NumberGraph::new(alloc, 0),
        }
    }

    /// The model in which each declared sort has one element and each symbol of the signature has the default of its sort
    /// everywhere. Division by zero gives 0, and so does its remainder.
    pub fn new(alloc: Global, table: &Table, signature: &Signature) -> Result<Model, AllocError>
        requires { AreLiveNumbersOf table.now signature.now }
        ensures model { IfOk result (λ m. model_at table.now m ≡ default_model (signature_of table.now signature.now)) }
        ensures over { IfOk result (λ m. IsModelOver (signature_of table.now signature.now).sorts (signature_of table.now signature.now).symbols (model_at table.now m)) }
        ensures sizes { IfOk result (λ m. m.sizes ≡ []) }
        ensures numbers { IfOk result (IsModelOf table.now) }
    {
        Model::with_sizes(alloc, table, signature, Sizes::new(alloc))
    }

    /// The same with these sizes of the declared sorts; a sort that the signature hasn't has size 1.
    pub fn with_sizes(
        alloc: Global,
        table: &Table,
        signature: &Signature,
        sizes: Sizes,
    ) -> Result<Model, AllocError>
        requires signature { AreLiveNumbersOf table.now signature.now }
        requires sizes { AreSizesOf table.now signature.now.sorts sizes }
        ensures model { IfOk result (λ m. model_at table.now m ≡ default_model_of (sizes_by table.now.sorts sizes) (signature_of table.now signature.now)) }
        ensures over { IfOk result (λ m. IsModelOver (signature_of table.now signature.now).sorts (signature_of table.now signature.now).symbols (model_at table.now m)) }
        ensures sizes { IfOk result (λ m. m.sizes ≡ sizes) }
        ensures numbers { IfOk result (IsModelOf table.now) }
    {
        let mut model = Model::empty(alloc, sizes);
        let symbols = signature.symbols();
        for s in symbols {
            let (_, to) = table.symbol_rank(*s);
            let otherwise = default_value(alloc, table.sorts(), to)?;
            model.define(table, *s, otherwise)?;
        }
        Ok(model)
    }

    /// How many elements each declared sort has. It takes no memory.
    pub fn sizes(&self) -> &Sizes
        ensures { result.now ≡ self.now.sizes }
    {
        &self.sizes
    }

    /// The function of a symbol, and None exactly where the model hasn't the symbol. It takes no memory.
    pub fn graph(&self, s: SymId) -> Option<&Graph>
        ensures graph { (t : Formulas) → IsTable t → IsSymbol t s → option_map (λ g. g.now) result ≡ (model_at t self.now).graphs (symbol_at t s) }
        ensures listed { option_map (λ g. g.now) result ≡ graph_in self.now.graphs s }
    {
        self.graphs.get(&s)
    }

    /// The value of a symbol of the model at these arguments, and None exactly where the model hasn't the symbol. It needs no
    /// memory.
    pub fn value_at(&self, table: &Table, s: SymId, args: &[Value]) -> Option<&Value>
        requires symbol { IsSymbol table.now s }
        requires args { AreValues (symbol_at table.now s).args (sizes_by table.now.sorts self.now.sizes) args.now }
        requires valid { IsModel (model_at table.now self.now) }
        ensures there { is_some result ≡ is_some (graph_in self.now.graphs s) }
        ensures value { IfSome result (λ v. meaning v.now ≡ symbol_value (model_at table.now self.now) (symbol_at table.now s) (meanings args.now)) }
        ensures none { IfNone result (symbol_value (model_at table.now self.now) (symbol_at table.now s) (meanings args.now) ≡ default_value (symbol_at table.now s).result) }
        ensures held { IfSome result (λ v. IsHeld v.now) }
    {
        let (sorts, _) = table.symbol_rank(s);
        match self.graph(s) {
            Some(graph) => Some(graph.value_at(args, sorts, table.sorts(), &self.sizes)),
            None => None,
        }
    }

    /// A part of the results of division by zero. It takes no memory.
    pub fn by_zero(&self, part: Division) -> &NumberGraph
        ensures { result.now ≡ numbers_of part self.now }
    {
        match part {
            Division::Quotient => &self.div_by_zero,
            Division::Remainder => &self.mod_by_zero,
        }
    }

    /// Gives a part of the results of division by zero. It takes no memory.
    pub fn set_by_zero(&mut self, part: Division, numbers: NumberGraph)
        ensures numbers { self.new ≡ with_numbers part numbers self.old }
        ensures valid { (t : Formulas) → IsModel (model_at t self.old) → IsModel (model_at t self.new) }
        ensures over { (t : Formulas) (sorts : List Name) (symbols : List Symbol) → IsModelOver sorts symbols (model_at t self.old) → IsModelOver sorts symbols (model_at t self.new) }
        ensures of { (t : Formulas) → IsModelOf t self.old → IsModelOf t self.new }
    {
        numbers.rows_are_distinct();
        match part {
            Division::Quotient => self.div_by_zero = numbers,
            Division::Remainder => self.mod_by_zero = numbers,
        }
    }

    // Gives a symbol this function, in the place of an earlier one. Where it is refused, the model is as before.
    fn set_graph(&mut self, s: SymId, graph: Graph) -> Result<(), AllocError>
        ensures model { OnOk result ((t : Formulas) → IsTable t → IsSymbol t s → model_at t self.new ≡ with_graph (symbol_at t s) (Some graph) (model_at t self.old)) }
        ensures sizes { self.new.sizes ≡ self.old.sizes }
        ensures numbers { OnOk result ((t : Formulas) → IsSymbol t s → IsModelOf t self.old → IsModelOf t self.new) }
        ensures err { OnErr result (self.new ≡ self.old) }
    {
        self.graphs.insert(s, graph)?;
        Ok(())
    }

    /// Takes a symbol out of the model. It takes no memory.
    pub fn forget(&mut self, s: SymId)
        ensures model { (t : Formulas) → IsTable t → IsSymbol t s → model_at t self.new ≡ with_graph (symbol_at t s) None (model_at t self.old) }
        ensures valid { (t : Formulas) → IsTable t → IsSymbol t s → IsModel (model_at t self.old) → IsModel (model_at t self.new) }
        ensures sizes { self.new.sizes ≡ self.old.sizes }
        ensures numbers { (t : Formulas) → IsModelOf t self.old → IsModelOf t self.new }
    {
        self.graphs.swap_remove(&s);
    }

    /// Takes all symbols that have arguments out of the model. It takes no memory.
    pub fn forget_functions(&mut self, table: &Table)
        requires numbers { IsModelOf table.now self.old }
        ensures model { model_at table.now self.new ≡ without_functions (model_at table.now self.old) }
        ensures valid { IsModel (model_at table.now self.old) → IsModel (model_at table.now self.new) }
        ensures sizes { self.new.sizes ≡ self.old.sizes }
        ensures numbers { IsModelOf table.now self.new }
    {
        self.graphs
            .retain(|symbol, _| table.symbol_rank(*symbol).0.is_empty());
    }

    /// Gives a symbol, which may be new to the model, this value everywhere. Where it is refused, the model is as before.
    pub fn define(&mut self, table: &Table, s: SymId, otherwise: Value) -> Result<(), AllocError>
        requires symbol { IsSymbol table.now s }
        requires value { IsValue (symbol_at table.now s).result (sizes_by table.now.sorts self.old.sizes) otherwise }
        ensures model { OnOk result (model_at table.now self.new ≡ with_graph (symbol_at table.now s) (Some (constant_graph (meaning otherwise))) (model_at table.now self.old)) }
        ensures valid { OnOk result (IsModel (model_at table.now self.old) → IsModel (model_at table.now self.new)) }
        ensures sizes { self.new.sizes ≡ self.old.sizes }
        ensures numbers { OnOk result (IsModelOf table.now self.old → IsModelOf table.now self.new) }
        ensures err { OnErr result (self.new ≡ self.old) }
    {
        // No two symbols of a table are equal.
        prove!(table.len() <= u64::MAX);
        let graph = Graph::new(self.alloc, otherwise);
        self.set_graph(s, graph)
    }

    /// The value of a symbol at the arguments that no row has, and None exactly where the model hasn't the symbol. It takes
    /// no memory.
    pub fn otherwise(&self, s: SymId) -> Option<&Value>
        ensures value { (t : Formulas) → IsTable t → IsSymbol t s → option_map (λ v. meaning v.now) result ≡ option_map (λ g. g.otherwise) ((model_at t self.now).graphs (symbol_at t s)) }
        ensures held { IfSome result (λ v. IsHeld v.now) }
    {
        match self.graph(s) {
            Some(graph) => Some(graph.otherwise()),
            None => None,
        }
    }

    // Puts a row last for a symbol of the model. Where it is refused, the model is as before.
    fn push_row(&mut self, s: SymId, keys: Vec<Value>, value: Value) -> Result<(), AllocError>
        requires keys { All IsHeld keys.items }
        requires value { IsHeld value }
        requires there { IsSome (graph_in self.old.graphs s) }
        ensures model { OnOk result ((t : Formulas) → IsTable t → IsSymbol t s → model_at t self.new ≡ with_graph (symbol_at t s) (option_map (with_row (meanings keys.items) (meaning value)) (graph_in self.old.graphs s)) (model_at t self.old)) }
        ensures sizes { self.new.sizes ≡ self.old.sizes }
        ensures numbers { OnOk result ((t : Formulas) → IsSymbol t s → IsModelOf t self.old → IsModelOf t self.new) }
        ensures err { OnErr result (self.new ≡ self.old) }
    {
        let Some(graph) = self.graphs.get_mut(&s) else {
            unreachable!()
        };
        graph.push(keys, value)
    }

    // Whether a symbol of the model has a row with keys that are the same as these.
    fn has_row(&self, table: &Table, s: SymId, keys: &[Value]) -> bool
        requires symbol { IsSymbol table.now s }
        requires there { IsSome (graph_in self.now.graphs s) }
        requires keys { AreValues (symbol_at table.now s).args (sizes_by table.now.sorts self.now.sizes) keys.now }
        requires valid { IsModel (model_at table.now self.now) }
        ensures row { IfSome (graph_in self.now.graphs s) (λ g. result ≡ has_row (symbol_at table.now s).args (sizes_by table.now.sorts self.now.sizes) (meanings keys.now) g.rows) }
        ensures table { IsTable table.now }
    {
        let (args, _) = table.symbol_rank(s);
        match self.graph(s) {
            Some(graph) => graph.has_row(keys, args, table.sorts(), &self.sizes),
            None => false,
        }
    }

    /// Puts a row last for a symbol of the model that has arguments, unless it has a row with keys that are the same. Where
    /// it is refused, the model is as before.
    pub fn add_row(
        &mut self,
        table: &Table,
        s: SymId,
        keys: Vec<Value>,
        value: Value,
    ) -> Result<(), AllocError>
        requires symbol { IsSymbol table.now s }
        requires there { IsSome (graph_in self.old.graphs s) }
        requires arguments { 0 < length (symbol_at table.now s).args }
        requires keys { AreValues (symbol_at table.now s).args (sizes_by table.now.sorts self.old.sizes) keys.items }
        requires value { IsValue (symbol_at table.now s).result (sizes_by table.now.sorts self.old.sizes) value }
        requires valid { IsModel (model_at table.now self.old) }
        ensures model { OnOk result (model_at table.now self.new ≡ with_row_for (symbol_at table.now s) (meanings keys.items) (meaning value) (model_at table.now self.old)) }
        ensures valid { OnOk result (IsModel (model_at table.now self.new)) }
        ensures sizes { self.new.sizes ≡ self.old.sizes }
        ensures numbers { OnOk result (IsModelOf table.now self.old → IsModelOf table.now self.new) }
        ensures err { OnErr result (self.new ≡ self.old) }
    {
        if self.has_row(table, s, keys.as_slice()) {
            return Ok(());
        }
        self.push_row(s, keys, value)
    }
}
