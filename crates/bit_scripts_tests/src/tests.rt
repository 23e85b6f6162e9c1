//! Texts with one check, each with the script over truth values that takes its place, or with what it is refused for. Expected
//! texts were worked out by hand.

ghost use Rattle.std.specs.Prelude.{◌≡◌, IfOk, IsTrue, Ok};
ghost use Rattle.smt_lex.specs.declared.items.Until.TheVariants.{Exit};
ghost use Rattle.smt_lex.specs.Forms.{tokens_of};
ghost use Rattle.script_read.specs.CommandLists.{commands_of, AreCommandsOf};
ghost use Rattle.script_read.specs.Printable.{printable};

use bit_scripts::{BlastScriptFault, Blasting, blast_check};
use script_read::{Script, checks, read_script, reading_gives_a_printable_script};
use smt_lex::{Forest, Until, scan};
use smt_print::{Layout, script_text};
use std::alloc::Global;
use std::process::Abort;
use std::test::Fail;
use term_subst::{Fresh, NameSet};
use term_table::Table;

// The tokens of a text.
fn tokens(rt: &impl Abort, alloc: Global, text: &[u8]) -> Result<Forest, Fail>
    ensures { IfOk result (λ forest. tokens_of Exit forest.bytes ≡ Ok forest.tokens) }
{
    assert!(rt; text.len() < 1_000_000);
    Ok(scan(alloc, Vec::from_slice(alloc, text)?, Until::Exit)?)
}

// Reads a text.
fn read(rt: &impl Abort, alloc: Global, table: &mut Table, text: &[u8]) -> Result<Script, Fail>
    ensures commands { IfOk result (λ s. AreCommandsOf table.new s.commands) }
    ensures printable { IfOk result (λ s. IsTrue (printable (commands_of table.new s.commands))) }
{
    reading_gives_a_printable_script();
    let forest = tokens(rt, alloc, text)?;
    let (script, _) = read_script(alloc, table, &forest)?;
    Ok(script)
}

// Blasts the only check of a script, with names from `FV0` on.
fn blasted(
    rt: &impl Abort,
    alloc: Global,
    table: &mut Table,
    script: &Script,
) -> Result<Blasting, BlastScriptFault>
    requires commands { AreCommandsOf table.old script.now.commands }
    requires printable { IsTrue (printable (commands_of table.old script.now.commands)) }
    ensures { IfOk result (λ b. AreCommandsOf table.new b.script.commands) }
{
    assert!(rt; checks(script) == 1);
    let mut fresh = Fresh::new(alloc, NameSet::new(alloc));
    blast_check(alloc, table, script, 1, &mut fresh)
}

// Prints what takes the place of the only check of a script.
fn printed(
    rt: &impl Abort,
    alloc: Global,
    table: &mut Table,
    script: &Script,
) -> Result<Vec<u8>, BlastScriptFault>
    requires commands { AreCommandsOf table.old script.now.commands }
    requires printable { IsTrue (printable (commands_of table.old script.now.commands)) }
{
    let blasting = blasted(rt, alloc, table, script)?;
    Ok(script_text(alloc, table, &blasting.script, Layout::Dag)?)
}

// Asserts that a script gives this.
fn script_gives(
    rt: &impl Abort,
    alloc: Global,
    table: &mut Table,
    script: &Script,
    expected: Result<&[u8], BlastScriptFault>,
)
    requires commands { AreCommandsOf table.old script.now.commands }
    requires printable { IsTrue (printable (commands_of table.old script.now.commands)) }
{
    match (printed(rt, alloc, table, script), expected) {
        (Ok(found), Ok(expected)) => assert!(rt; found.as_slice() == expected),
        (Err(found), Err(expected)) => assert!(rt; found == expected),
        _ => panic!(rt; "a script in place of a refusal, or a refusal in place of a script"),
    }
}

// Asserts that a text gives this.
fn text_gives(
    rt: &impl Abort,
    alloc: Global,
    table: &mut Table,
    text: &[u8],
    expected: Result<&[u8], BlastScriptFault>,
) -> Result<(), Fail> {
    let script = read(rt, alloc, table, text)?;
    script_gives(rt, alloc, table, &script, expected);
    Ok(())
}

// Asserts the same over a new table.
fn gives(
    rt: &impl Abort,
    alloc: Global,
    text: &[u8],
    expected: Result<&[u8], BlastScriptFault>,
) -> Result<(), Fail> {
    let mut table = Table::new(alloc);
    text_gives(rt, alloc, &mut table, text, expected)
}

#[test]
fn a_check_over_bit_vectors_is_blasted(rt: HostRuntime) -> Result<(), Fail> {
    let text = b"(declare-fun x () (_ BitVec 1))\n(assert (= (bvadd x #b1) #b0))\n(check-sat)\n";
    let blasted = b"(declare-fun FV0 () Bool)\n\
        (assert (let ((.def_0 (xor FV0 true))) (let ((.def_1 (xor .def_0 false))) (let ((.def_2 (= .def_1 false))) .def_2))))\n\
        (check-sat)\n";
    gives(&rt, rt.alloc(), text, Ok(blasted))
}

#[test]
fn a_check_over_numbers_is_refused(rt: HostRuntime) -> Result<(), Fail> {
    let text = b"(declare-fun x () Int)(assert (< x 3))(check-sat)";
    gives(
        &rt,
        rt.alloc(),
        text,
        Err(BlastScriptFault::NotBits { assertion: 1 }),
    )
}
