//! The names of a text, which no fresh name may be.

ghost use Rattle.std.specs.Prelude.{◌≡◌, ◌<◌, [], length, None, Some, if◌then◌else◌, IfOk, OnOk};
ghost use Rattle.smt_lex.specs.Lex.{symbol_of};
ghost use Rattle.smt_lex.specs.Names.{is_reserved};
ghost use Rattle.smt_lex.specs.Forest.{token_at};
ghost use Rattle.script_terms.specs.Places.{forms_from};
ghost use Rattle.script_terms.specs.TextNames.{names_with_all};
ghost use Rattle.script_read.specs.Script.{fresh};
ghost use Rattle.script_read.specs.DrawnNames.{drawn_among, KeepsWith};

use memchr::memmem;
use smt_lex::{Forest, Item, is_reserved};
use std::alloc::{AllocError, Global};
use term_subst::{Fresh, NameSet, NotedNames, begins_as_drawn};

/// The names to draw beside a text, which are no symbols of it. Memory is taken for those symbols alone that begin as
/// names that are drawn.
pub fn fresh_beside(alloc: Global, forest: &Forest) -> Result<Fresh, AllocError>
    ensures { IfOk result (λ names. names ≡ fresh (forms_from forest.now.tokens 0)) }
{
    let names = names_in(alloc, forest)?;
    Ok(Fresh::beside(alloc, noted_in(forest), names))
}

// The symbols of a text, each once, in the order of their first places.
fn noted_in(_forest: &Forest) -> NotedNames
    ensures { result.names ≡ names_with_all [] (forms_from _forest.now.tokens 0) }
{
    NotedNames {}
}

// Those of them that begin as names that are drawn. Most texts have nowhere the bytes that these begin with.
fn names_in(alloc: Global, forest: &Forest) -> Result<NameSet, AllocError>
    ensures { IfOk result (λ names. names ≡ drawn_among (names_with_all [] (forms_from forest.now.tokens 0))) }
{
    let mut names = NameSet::new(alloc);
    let count = forest.len();
    if memmem::find(forest.bytes(), b"FV").is_none() {
        return Ok(names);
    }
    for token in 0..count {
        add_symbol(&mut names, forest, token)?;
    }
    Ok(names)
}

// Adds the symbol that token `i` is, without bars, if it is one and begins so.
fn add_symbol(names: &mut NameSet, forest: &Forest, i: usize) -> Result<(), AllocError>
    requires { i < length forest.now.tokens }
    ensures { OnOk result (KeepsWith names.old (symbol_of (token_at forest.now.tokens i)) names.new) }
{
    match forest.item(i) {
        Item::Word => add_word(names, forest.text(i)),
        Item::Quoted => add_name(names, forest.name(i)),
        _ => Ok(()),
    }
}

// Adds a word, where it begins so and is no reserved one.
fn add_word(names: &mut NameSet, word: &[u8]) -> Result<(), AllocError>
    ensures { OnOk result (KeepsWith names.old (if is_reserved word.now then None else Some word.now) names.new) }
{
    if begins_as_drawn(word) && !is_reserved(word) {
        return names.add(word);
    }
    Ok(())
}

// Adds a name, where it begins so.
fn add_name(names: &mut NameSet, name: &[u8]) -> Result<(), AllocError>
    ensures { OnOk result (KeepsWith names.old (Some name.now) names.new) }
{
    if begins_as_drawn(name) {
        return names.add(name);
    }
    Ok(())
}
