//! Texts of forms: their tokens as they are written, with one space between forms and none inside the parentheses' edges.

ghost use Rattle.std.specs.Prelude.{◌≡◌, ◌++◌, ◌<◌, length, IfOk, OnOk};
ghost use Rattle.smt_lex.specs.Forest.{token_at};
ghost use Rattle.smt_lex.specs.Forms.{is_left, is_right};
ghost use Rattle.smt_lex.specs.FormText.{form_text};
ghost use Rattle.script_terms.specs.Places.{IsRead, IsForm, form_from};

use smt_lex::{Forest, Item};
use std::alloc::{AllocError, Global};
use term_table::Bytes;

/// The text of the form that begins at token `i`. Depth takes no stack.
pub fn form_text(alloc: Global, forest: &Forest, i: usize) -> Result<Bytes, AllocError>
    requires read { IsRead forest.now }
    requires form { IsForm forest.now.tokens i }
    ensures { IfOk result (λ text. text ≡ form_text (form_from forest.now.tokens i)) }
{
    let mut text = Bytes::new(alloc);
    let mut behind = false;
    for token in i..forest.after(i) {
        if behind && !is_right(forest, token) {
            text.push(b' ')?;
        }
        append(&mut text, forest.text(token))?;
        behind = !is_left(forest, token);
    }
    Ok(text)
}

fn append(text: &mut Bytes, more: &[u8]) -> Result<(), AllocError>
    ensures { OnOk result (text.new ≡ text.old ++ more.now) }
{
    for byte in more {
        text.push(*byte)?;
    }
    Ok(())
}

fn is_left(forest: &Forest, token: usize) -> bool
    requires { token < length forest.now.tokens }
    ensures { result ≡ is_left (token_at forest.now.tokens token).item }
{
    matches!(forest.item(token), Item::Left)
}

fn is_right(forest: &Forest, token: usize) -> bool
    requires { token < length forest.now.tokens }
    ensures { result ≡ is_right (token_at forest.now.tokens token).item }
{
    matches!(forest.item(token), Item::Right)
}
