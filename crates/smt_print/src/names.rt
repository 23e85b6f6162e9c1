//! What terms are printed of: a table, and which of its symbols need no bars.

ghost use Rattle.std.specs.Prelude.{◌≡◌, ◌<◌, ◌++◌, ◌⊎◌, ℕ, get_or, map, IfOk, OnOk, All, Some, true, false, IsTrue};
ghost use Rattle.smt_lex.specs.FormText.{form_text};
ghost use Rattle.smt_lex.specs.Names.{is_simple, printed_symbol};
ghost use Rattle.smt_terms.specs.Rank.{sort_of};
ghost use Rattle.smt_values.specs.SortIds.{sort_at, IsSortId};
ghost use Rattle.term_table.specs.Formulas.{tree, trees_at, symbol_at, term_over, operands, IsNode, IsSymbol, IsOpOf, IsTable};
ghost use Rattle.term_table.specs.WrittenForms.{sort_form};
ghost use Rattle.script_read.specs.CommandLists.{AreCommandsOf};

use crate::page::Page;
use script_read::{Command, Script};
use smt_lex::symbol_text;
use smt_terms::NodeId;
use smt_values::{Op, SortId, SortTable, SymId};
use std::alloc::{AllocError, Global};
use std::marker::Model;
use term_table::Table;

// A table, and which of its symbols are known to be printed without bars, so that a name is looked through once and not
// wherever it occurs. Contracts see the table.
#[derive(Drop)]
pub(crate) struct Printed<'a> {
    table: &'a Table,
    plain: Vec<bool>,
}

impl<'a> Model for Printed<'a> {
    ghost use Rattle.term_table.specs.Formulas.{Formulas, coded_formulas};
    ghost use Rattle.smt_print.specs.PlainNames.{ArePlain};

    ghost Value = { Formulas };

    ghost coded = { coded_formulas };

    ghost view = { λ p. p.table.now };

    ghost invariant = { λ p. ArePlain p.table.now p.plain.items };
}

impl<'a> Printed<'a> {
    // Nothing is known of the symbols yet.
    pub(crate) fn new(alloc: Global, table: &'a Table) -> Printed<'a>
        ensures { result ≡ table.now }
    {
        Printed {
            table,
            plain: Vec::new(alloc),
        }
    }

    // Looks through the name of a symbol. The text is any, and memory for it is used anew.
    fn learn(&mut self, alloc: Global, symbol: SymId, text: &mut Vec<u8>) -> Result<(), AllocError>
        requires { IsSymbol self.old symbol }
        ensures { self.new ≡ self.old }
    {
        let name = self.table.symbol_name(symbol);
        text.clear();
        symbol_text(alloc, name, text)?;
        if text.len() == name.len() {
            set_plain(&mut self.plain, symbol.0 as usize)?;
        }
        Ok(())
    }

    // Looks through the names of all symbols that a script declares.
    pub(crate) fn of_script(
        alloc: Global,
        table: &'a Table,
        script: &Script,
    ) -> Result<Printed<'a>, AllocError>
        requires { AreCommandsOf table.now script.now.commands }
        ensures { IfOk result (λ p. p ≡ table.now) }
    {
        let mut printed = Printed::new(alloc, table);
        let mut text = Vec::new(alloc);
        for i in 0..script.commands.len() {
            if let Command::Declare(symbol) = script.commands.get(i) {
                printed.learn(alloc, *symbol, &mut text)?;
            }
        }
        Ok(printed)
    }

    // The sorts of the table.
    pub(crate) fn sorts(&self) -> &SortTable
        ensures { result.now ≡ self.now.sorts }
    {
        self.table.sorts()
    }

    // The sorts of a symbol's arguments, and that of its result.
    pub(crate) fn symbol_rank(&self, symbol: SymId) -> (&[SortId], SortId)
        requires { IsSymbol self.now symbol }
        ensures args { map (sort_at self.now.sorts) result.0.now ≡ (symbol_at self.now symbol).args }
        ensures to { sort_at self.now.sorts result.1 ≡ (symbol_at self.now symbol).result }
        ensures args_within { All (IsSortId self.now.sorts) result.0.now }
        ensures to_within { IsSortId self.now.sorts result.1 }
    {
        self.table.symbol_rank(symbol)
    }

    // The operator of a node.
    pub(crate) fn op(&self, id: NodeId) -> Op
        requires { IsNode self.now id }
        ensures term { tree self.now id ≡ term_over self.now result (operands (tree self.now id)) }
        ensures numbers { IsOpOf self.now result }
        ensures table { IsTable self.now }
    {
        self.table.op(id)
    }

    // The operands of a node.
    pub(crate) fn kids(&self, id: NodeId) -> &[NodeId]
        requires { IsNode self.now id }
        ensures terms { trees_at self.now result.now ≡ operands (tree self.now id) }
        ensures below { All (λ k. k.0 < id.0) result.now }
        ensures table { IsTable self.now }
    {
        self.table.kids(id)
    }

    // The sort of a node.
    pub(crate) fn sort_of(&self, id: NodeId) -> SortId
        requires { IsNode self.now id }
        ensures sort { sort_of (tree self.now id) ≡ Some (sort_at self.now.sorts result) }
        ensures within { IsSortId self.now.sorts result }
        ensures table { IsTable self.now }
    {
        self.table.sort_of(id)
    }

    // Appends the text of a sort.
    pub(crate) fn push_sort(
        &self,
        alloc: Global,
        sort: SortId,
        out: &mut Page,
    ) -> Result<(), AllocError>
        requires { IsSortId self.now.sorts sort }
        ensures { OnOk result (out.new ≡ out.old ++ form_text (sort_form (sort_at self.now.sorts sort))) }
    {
        out.push_sort(alloc, self.table, sort)
    }

    // Appends a symbol.
    pub(crate) fn push_symbol(
        &self,
        alloc: Global,
        symbol: SymId,
        out: &mut Page,
    ) -> Result<(), AllocError>
        requires { IsSymbol self.now symbol }
        ensures { OnOk result (out.new ≡ out.old ++ printed_symbol (symbol_at self.now symbol).name) }
    {
        let name = self.table.symbol_name(symbol);
        if self.is_plain(symbol) {
            return out.extend_from_slice(name);
        }
        out.push_symbol(alloc, name)
    }

    // Whether a symbol is known to be printed without bars.
    fn is_plain(&self, symbol: SymId) -> bool
        ensures { IsTrue result → is_simple (symbol_at self.now symbol).name ≡ true }
    {
        match self.plain.get(symbol.0 as usize) {
            Some(plain) => *plain,
            None => false,
        }
    }
}

// Sets a place, before which others are filled up.
fn set_plain(plain: &mut Vec<bool>, place: usize) -> Result<(), AllocError>
    ensures { (i : ℕ) → get_or plain.new.items i false ≡ true → (i ≡ place) ⊎ (get_or plain.old.items i false ≡ true) }
{
    if plain.len() <= place {
        let len = place.checked_add(1).ok_or(AllocError)?;
        plain.resize(len, false)?;
    }
    plain[place] = true;
    Ok(())
}
