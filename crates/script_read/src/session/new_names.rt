//! Names that are declared or defined: reserved names and live ones are refused.

ghost use Rattle.std.specs.Prelude.{◌≡◌, List, None, Ok, OnOk};
ghost use Rattle.smt_terms.specs.Fresh.{Supply};
ghost use Rattle.term_table.specs.Formulas.{Formulas};
ghost use Rattle.script_read.specs.Script.{declarable, sort_declarable};
ghost use Rattle.script_terms.specs.Reading.{ReadBinding};
ghost use Rattle.script_terms.specs.Bound.{name_at};
ghost use Rattle.script_terms.specs.Known.{Shows, IsOwnName, find};
ghost use Rattle.script_terms.specs.Replies.{Agrees};
ghost use Rattle.script_read.specs.ShapeClauses.{IsNameAt, named_at};

use script_terms::causes::Cause;
use script_terms::faults::Fault;
use script_terms::names::{is_reserved_for_declaring, is_reserved_for_sorts};
use script_terms::places::fault;
use script_terms::scopes::Scope;
use smt_lex::Forest;

/// Refuses a name that no function, definition or term is given, or that is live as that of one.
pub fn check_new_name(forest: &Forest, name: usize, scope: &Scope) -> Result<(), Fault>
    requires { IsNameAt forest.now.tokens name }
    ensures test { (t : Formulas) (supply : Supply) (live : List ReadBinding) → Shows t supply scope.now live → Agrees (declarable live (named_at forest.now.tokens name) (Ok tt)) (λ u. u) result }
    ensures free { OnOk result (find scope.now.terms (name_at forest.now.tokens name) ≡ None) }
    ensures own { OnOk result (IsOwnName (name_at forest.now.tokens name)) }
{
    let text = forest.name(name);
    if is_reserved_for_declaring(text) {
        return Err(fault(forest, name, Cause::ReservedName));
    }
    if scope.find(text).is_some() {
        return Err(fault(forest, name, Cause::Redeclared));
    }
    Ok(())
}

/// The same of a name that is given to a sort.
pub fn check_new_sort_name(forest: &Forest, name: usize, scope: &Scope) -> Result<(), Fault>
    requires { IsNameAt forest.now.tokens name }
    ensures test { (t : Formulas) (supply : Supply) (live : List ReadBinding) → Shows t supply scope.now live → Agrees (sort_declarable live (named_at forest.now.tokens name) (Ok tt)) (λ u. u) result }
    ensures free { OnOk result (find scope.now.sorts (name_at forest.now.tokens name) ≡ None) }
{
    let text = forest.name(name);
    if is_reserved_for_sorts(text) {
        return Err(fault(forest, name, Cause::ReservedName));
    }
    if scope.find_sort(text).is_some() {
        return Err(fault(forest, name, Cause::Redeclared));
    }
    Ok(())
}
