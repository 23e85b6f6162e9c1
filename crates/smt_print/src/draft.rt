//! Text on its way to an output.

ghost use Rattle.std.specs.Prelude.{◌≡◌, ◌++◌, [], OnOk, OnErr};
ghost use Rattle.smt_print.specs.Prefix.{AppendsPrefix, Drafts};

use crate::output::Output;
use crate::page::Page;
use crate::scope::Scopes;
use crate::{dag, tree};
use std::alloc::{AllocError, Global};
use term_walk::Stack;

// Text is appended once it has so many bytes.
const PART: usize = 16_384;

// What is at hand while terms are printed: the text that isn't appended yet, and memory that each term uses anew.
#[derive(Drop)]
pub(crate) struct Draft {
    pub(crate) text: Page,
    pub(crate) tree: Stack<tree::Step>,
    pub(crate) dag: Stack<dag::Step>,
    pub(crate) scopes: Scopes,
}

impl Draft {
    pub(crate) fn new(alloc: Global) -> Draft
        ensures { result.text ≡ [] }
    {
        Draft {
            text: Page::new(alloc),
            tree: Stack::new(alloc),
            dag: Stack::new(alloc),
            scopes: Scopes::new(alloc),
        }
    }
}

// Appends the text where it is long.
pub(crate) fn pass_on<O: Output>(text: &mut Page, out: &mut O) -> Result<(), AllocError>
    ensures ok { OnOk result (Drafts (O.text out.old) text.old (O.text out.new) text.new []) }
    ensures prefix { OnErr result (AppendsPrefix (O.text out.old) (O.text out.new) text.old) }
{
    if text.len() < PART {
        return Ok(());
    }
    pass_all(text, out)?;
    Ok(())
}

// Appends the text.
pub(crate) fn pass_all<O: Output>(text: &mut Page, out: &mut O) -> Result<(), AllocError>
    ensures ok { OnOk result (O.text out.new ≡ O.text out.old ++ text.old) }
    ensures empty { OnOk result (text.new ≡ []) }
    ensures prefix { OnErr result (AppendsPrefix (O.text out.old) (O.text out.new) text.old) }
{
    out.append(text.as_slice())?;
    text.clear();
    Ok(())
}
