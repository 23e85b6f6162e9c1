//! Names of terms: `:named` in annotations (SMT-LIB 2.6, section 3.6).

ghost use Rattle.std.specs.Prelude.{◌≡◌, ◌≤◌, ◌<◌, [], List, None, codes, length, IfSome, OnOk};
ghost use Rattle.smt_lex.specs.Forest.{token_at};
ghost use Rattle.smt_lex.specs.Names.{Name};
ghost use Rattle.script_terms.specs.Parts.{is_name, keyword_in, value_first, named_parts};
ghost use Rattle.script_terms.specs.Reading.{ReadBinding};
ghost use Rattle.script_terms.specs.Read.{is_the, term_name_in, term_names};
ghost use Rattle.script_terms.specs.Bound.{name_at};
ghost use Rattle.script_terms.specs.Known.{find};
ghost use Rattle.script_terms.specs.Places.{IsForm, form_from, forms_from};
ghost use Rattle.script_terms.specs.Replies.{Agrees};
ghost use Rattle.script_terms.specs.TermClauses.{defined_name, HasNames, NamesTerm};

use crate::causes::Cause;
use crate::faults::{Fault, ReadFault};
use crate::names::is_reserved_for_declaring;
use crate::places::{bad_form, begins, fault, is_keyword, is_symbol, keyword_at};
use crate::scopes::{Entry, Scope};
use crate::terms::frames::Annotation;
use smt_lex::Forest;
use smt_terms::NodeId;

/// Gives a term the names that the attributes of its annotation have, and tells whether there is one.
pub fn name_term<'a>(
    forest: &'a Forest,
    scope: &mut Scope<'a>,
    defines: Option<usize>,
    frame: Annotation,
    node: NodeId,
) -> Result<bool, ReadFault>
    requires list { IsForm forest.now.tokens frame.list }
    requires attributes { frame.attributes ≤ length forest.now.tokens }
    requires defined { IfSome defines (λ i. i < length forest.now.tokens) }
    ensures names { NamesTerm (λ live. term_names (defined_name forest.now.tokens defines) (token_at forest.now.tokens frame.list).start [] (named_parts (forms_from forest.now.tokens frame.attributes)) live) node scope.old scope.new result }
    ensures definitions { scope.new.definitions ≡ scope.old.definitions }
{
    let mut is_named = false;
    let mut i = frame.attributes;
    while begins(forest, i) {
        let value = forest.after(i);
        if names(forest, i) {
            check_term_name(forest, scope, defines, frame.list, value)?;
            scope.bind(forest.name(value), Entry::Term(node))?;
            is_named = true;
        }
        i = value;
    }
    Ok(is_named)
}

// Whether the form of token `i` is `:named`.
fn names(forest: &Forest, i: usize) -> bool
    requires { IsForm forest.now.tokens i }
    ensures { result ≡ is_name (codes ":named") (keyword_in (form_from forest.now.tokens i)) }
{
    match keyword_at(forest, i) {
        Some(keyword) => keyword == b":named".as_slice(),
        None => false,
    }
}

// Whether the form of token `i`, if one stands there that is no keyword, is a new name of a term, in an annotation of token
// `list`.
fn check_term_name(
    forest: &Forest,
    scope: &Scope,
    defines: Option<usize>,
    list: usize,
    i: usize,
) -> Result<(), Fault>
    requires list { IsForm forest.now.tokens list }
    requires within { i ≤ length forest.now.tokens }
    requires defined { IfSome defines (λ j. j < length forest.now.tokens) }
    ensures test { (live : List ReadBinding) (earlier : List Name) → HasNames scope.now live earlier → Agrees (term_name_in live (defined_name forest.now.tokens defines) earlier (token_at forest.now.tokens list).start (value_first (forms_from forest.now.tokens i))) (λ u. name_at forest.now.tokens i) result }
    ensures free { OnOk result (find scope.now.terms (name_at forest.now.tokens i) ≡ None) }
    ensures token { OnOk result (i < length forest.now.tokens) }
{
    if !begins(forest, i) || is_keyword(forest, i) {
        return Err(bad_form(forest, list));
    }
    if !is_symbol(forest, i) {
        return Err(bad_form(forest, i));
    }
    let name = forest.name(i);
    if is_reserved_for_declaring(name) {
        return Err(fault(forest, i, Cause::ReservedName));
    }
    if scope.find(name).is_some() || is_defined(forest, defines, name) {
        return Err(fault(forest, i, Cause::Redeclared));
    }
    Ok(())
}

// Whether the command defines this name.
fn is_defined(forest: &Forest, defines: Option<usize>, name: &[u8]) -> bool
    requires { IfSome defines (λ i. i < length forest.now.tokens) }
    ensures { result ≡ is_the (defined_name forest.now.tokens defines) name.now }
{
    match defines {
        Some(i) => forest.name(i) == name,
        None => false,
    }
}
