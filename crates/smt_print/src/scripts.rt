//! The texts of scripts: each command on a line of its own.

ghost use Rattle.std.specs.Prelude.{◌≡◌, ◌++◌, ◌∷◌, [], IfOk, OnOk, OnErr, map, codes, false};
ghost use Rattle.script_read.specs.CommandLists.{command_of, commands_of, IsCommandOf, AreCommandsOf};
ghost use Rattle.smt_lex.specs.FormText.{form_text};
ghost use Rattle.smt_lex.specs.Lexicon.{line_feed};
ghost use Rattle.smt_print.specs.CommandTexts.{holds_terms};
ghost use Rattle.smt_print.specs.Prefix.{AppendsPrefix, Drafts};
ghost use Rattle.smt_print.specs.declared.layout.Layout.{Layout};
ghost use Rattle.smt_print.specs.TermForms.{tree_form};
ghost use Rattle.smt_print.specs.Text.{term_form, command_form, command_text, lines};
ghost use Rattle.term_table.specs.Formulas.{tree, trees_at, IsNode, AreNodes};
ghost use Rattle.term_table.specs.WrittenForms.{list_form};

use crate::commands::push_command;
use crate::draft::{Draft, pass_all, pass_on};
use crate::layout::Layout;
use crate::names::Printed;
use crate::numbers::push_separator;
use crate::output::Output;
use crate::page::Page;
use crate::terms::print_term;
use crate::tree::print_tree;
use script_read::{Command, Script};
use smt_io::Pieces;
use smt_terms::NodeId;
use std::alloc::{AllocError, Global};
use term_table::{Nodes, Table};

// Prints the line of an assertion.
fn print_assertion<O: Output>(
    alloc: Global,
    table: &Printed,
    id: NodeId,
    layout: Layout,
    draft: &mut Draft,
    out: &mut O,
) -> Result<(), AllocError>
    requires { IsNode table.now id }
    ensures ok { OnOk result (Drafts (O.text out.old) draft.old.text (O.text out.new) draft.new.text (form_text (command_form (codes "assert") (term_form layout (tree table.now id) ∷ [])) ++ line_feed ∷ [])) }
    ensures prefix { OnErr result (AppendsPrefix (O.text out.old) (O.text out.new) (draft.old.text ++ (form_text (command_form (codes "assert") (term_form layout (tree table.now id) ∷ [])) ++ line_feed ∷ []))) }
{
    draft.text.push_short(b"(assert ")?;
    print_term(alloc, table, id, layout, draft, out)?;
    draft.text.push_short(b")\n")?;
    Ok(())
}

// Prints the line of a check under literals, which are trees in either layout.
fn print_assumptions<O: Output>(
    alloc: Global,
    table: &Printed,
    literals: &Nodes,
    draft: &mut Draft,
    out: &mut O,
) -> Result<(), AllocError>
    requires { AreNodes table.now literals.now }
    ensures ok { OnOk result (Drafts (O.text out.old) draft.old.text (O.text out.new) draft.new.text (form_text (command_form (codes "check-sat-assuming") (list_form (map tree_form (trees_at table.now literals.now)) ∷ [])) ++ line_feed ∷ [])) }
    ensures prefix { OnErr result (AppendsPrefix (O.text out.old) (O.text out.new) (draft.old.text ++ (form_text (command_form (codes "check-sat-assuming") (list_form (map tree_form (trees_at table.now literals.now)) ∷ [])) ++ line_feed ∷ []))) }
{
    draft.text.push_short(b"(check-sat-assuming (")?;
    for i in 0..literals.len() {
        push_separator(i, &mut draft.text)?;
        print_tree(alloc, table, literals.get(i), draft, out)?;
    }
    draft.text.push_short(b"))\n")?;
    Ok(())
}

// Prints the line of a command that holds no terms.
fn print_short(
    alloc: Global,
    table: &Printed,
    command: &Command,
    text: &mut Page,
) -> Result<(), AllocError>
    requires numbers { IsCommandOf table.now command.now }
    requires plain { holds_terms command.now ≡ false }
    ensures { (layout : Layout) → OnOk result (text.new ≡ text.old ++ (command_text (term_form layout) (command_of table.now command.now) ++ line_feed ∷ [])) }
{
    push_command(alloc, table, command, text)?;
    text.push(b'\n')?;
    Ok(())
}

// Prints the line of a command.
fn print_command<O: Output>(
    alloc: Global,
    table: &Printed,
    command: &Command,
    layout: Layout,
    draft: &mut Draft,
    out: &mut O,
) -> Result<(), AllocError>
    requires { IsCommandOf table.now command.now }
    ensures ok { OnOk result (Drafts (O.text out.old) draft.old.text (O.text out.new) draft.new.text (command_text (term_form layout) (command_of table.now command.now) ++ line_feed ∷ [])) }
    ensures prefix { OnErr result (AppendsPrefix (O.text out.old) (O.text out.new) (draft.old.text ++ (command_text (term_form layout) (command_of table.now command.now) ++ line_feed ∷ []))) }
{
    match command {
        Command::Assert { id, .. } => print_assertion(alloc, table, *id, layout, draft, out),
        Command::CheckAssuming(literals) => print_assumptions(alloc, table, literals, draft, out),
        _ => print_short(alloc, table, command, &mut draft.text),
    }
}

// Prints the commands of a script.
fn print_commands<O: Output>(
    alloc: Global,
    table: &Printed,
    script: &Script,
    layout: Layout,
    out: &mut O,
) -> Result<(), AllocError>
    requires { AreCommandsOf table.now script.now.commands }
    ensures ok { OnOk result (O.text out.new ≡ O.text out.old ++ lines layout (commands_of table.now script.now.commands)) }
    ensures prefix { OnErr result (AppendsPrefix (O.text out.old) (O.text out.new) (lines layout (commands_of table.now script.now.commands))) }
{
    let mut draft = Draft::new(alloc);
    for i in 0..script.commands.len() {
        print_command(
            alloc,
            table,
            script.commands.get(i),
            layout,
            &mut draft,
            out,
        )?;
        pass_on(&mut draft.text, out)?;
    }
    pass_all(&mut draft.text, out)?;
    Ok(())
}

// Prints a script.
fn print_script<O: Output>(
    alloc: Global,
    table: &Table,
    script: &Script,
    layout: Layout,
    out: &mut O,
) -> Result<(), AllocError>
    requires { AreCommandsOf table.now script.now.commands }
    ensures ok { OnOk result (O.text out.new ≡ O.text out.old ++ lines layout (commands_of table.now script.now.commands)) }
    ensures prefix { OnErr result (AppendsPrefix (O.text out.old) (O.text out.new) (lines layout (commands_of table.now script.now.commands))) }
{
    let printed = Printed::of_script(alloc, table, script)?;
    print_commands(alloc, &printed, script, layout, out)?;
    Ok(())
}

/// The text of a script (SMT-LIB 2.6, section 3.9), with its assertions in this layout. Only want of memory refuses it.
pub fn script_text(
    alloc: Global,
    table: &Table,
    script: &Script,
    layout: Layout,
) -> Result<Vec<u8>, AllocError>
    requires { AreCommandsOf table.now script.now.commands }
    ensures { IfOk result (λ bytes. bytes.items ≡ lines layout (commands_of table.now script.now.commands)) }
{
    let mut bytes = Vec::new(alloc);
    print_script(alloc, table, script, layout, &mut bytes)?;
    Ok(bytes)
}

/// Appends the text of a script, as `script_text` gives it, without a copy of the whole. Only want of memory refuses it, and
/// then a prefix of the text was appended.
pub fn script_into(
    alloc: Global,
    table: &Table,
    script: &Script,
    layout: Layout,
    out: &mut Pieces,
) -> Result<(), AllocError>
    requires { AreCommandsOf table.now script.now.commands }
    ensures ok { OnOk result (out.new ≡ out.old ++ lines layout (commands_of table.now script.now.commands)) }
    ensures prefix { OnErr result (AppendsPrefix out.old out.new (lines layout (commands_of table.now script.now.commands))) }
{
    print_script(alloc, table, script, layout, out)
}
