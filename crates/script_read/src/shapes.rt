//! The outer shapes of commands (SMT-LIB 2.6, section 3.9).

ghost use Rattle.std.specs.Prelude.{◌≡◌, ◌≤◌, length, map, option_map, if◌then◌else◌, IfOk, IfSome};
ghost use Rattle.smt_lex.specs.Names.{is_command_word};
ghost use Rattle.script_terms.specs.declared.causes.Cause.TheVariants.{UnknownCommand, UnsupportedCommand};
ghost use Rattle.script_read.specs.Outlines.{outline, word_among, supported, shape, symbol_at, numeral_at, list_in, is_globals, option_shape, set_logic_word, set_info_word, set_option_word, get_info_word, get_option_word, echo_word, declare_sort_word, define_sort_word, declare_const_word, declare_fun_word, define_fun_word, assert_word, check_sat_assuming_word, push_word, pop_word};
ghost use Rattle.script_read.specs.ShapeClauses.{outline_seen, IsOutline, named_at, counted_at, IsNameAt, IsNumeralAt, IsPlaceIn, IfGiven};
ghost use Rattle.script_terms.specs.Parts.{keyword_in, is_text, word_in};
ghost use Rattle.script_read.specs.ShapeSteps.{word_seen, entry_seen, alone};
ghost use Rattle.script_terms.specs.Places.{IsForm, form_from, forms_from};
ghost use Rattle.script_terms.specs.Replies.{Agrees};

use script_terms::causes::Cause;
use script_terms::faults::Fault;
use script_terms::lists::{Few, few_from};
use script_terms::places::{bad_form, begins, fault, inside, is_keyword, is_symbol, keyword_at};
use smt_lex::{Forest, Item, is_command_word};

/// Which parts a command has, by the numbers of their first tokens; a list is given by the first token inside it.
#[derive(Clone, Copy, Debug, PartialEq, Eq)]
pub enum Outline {
    /// Passed on as it is written.
    Passing,
    /// `:global-declarations`, with its value if there is one.
    GlobalOption(Option<usize>),
    SortDeclaration {
        name: usize,
        arity: usize,
    },
    SortDefinition {
        name: usize,
        parameters: usize,
        sort: usize,
    },
    /// `declare-const` has no list of arguments.
    SymbolDeclaration {
        name: usize,
        arguments: Option<usize>,
        sort: usize,
    },
    SymbolDefinition {
        name: usize,
        parameters: usize,
        sort: usize,
        body: usize,
    },
    Assertion(usize),
    Checking,
    Assuming(usize),
    /// With the number of levels, where it is written.
    Pushing(Option<usize>),
    Popping(Option<usize>),
    Resetting,
    ResettingAssertions,
    Ending,
}

// The commands that are supported.
#[derive(Clone, Copy, Debug, PartialEq, Eq)]
enum CommandWord {
    Assert,
    CheckSat,
    CheckSatAssuming,
    DeclareConst,
    DeclareFun,
    DeclareSort,
    DefineFun,
    DefineSort,
    Echo,
    Exit,
    GetInfo,
    GetModel,
    GetOption,
    Pop,
    Push,
    Reset,
    ResetAssertions,
    SetInfo,
    SetLogic,
    SetOption,
}

// Their names.
const COMMANDS: [(&[u8], CommandWord); 20] = [
    (b"assert", CommandWord::Assert),
    (b"check-sat", CommandWord::CheckSat),
    (b"check-sat-assuming", CommandWord::CheckSatAssuming),
    (b"declare-const", CommandWord::DeclareConst),
    (b"declare-fun", CommandWord::DeclareFun),
    (b"declare-sort", CommandWord::DeclareSort),
    (b"define-fun", CommandWord::DefineFun),
    (b"define-sort", CommandWord::DefineSort),
    (b"echo", CommandWord::Echo),
    (b"exit", CommandWord::Exit),
    (b"get-info", CommandWord::GetInfo),
    (b"get-model", CommandWord::GetModel),
    (b"get-option", CommandWord::GetOption),
    (b"pop", CommandWord::Pop),
    (b"push", CommandWord::Push),
    (b"reset", CommandWord::Reset),
    (b"reset-assertions", CommandWord::ResetAssertions),
    (b"set-info", CommandWord::SetInfo),
    (b"set-logic", CommandWord::SetLogic),
    (b"set-option", CommandWord::SetOption),
];

// The command of this name in a table of commands.
fn command_among(table: &[(&[u8], CommandWord)], word: &[u8]) -> Option<CommandWord>
    ensures { option_map word_seen result ≡ word_among (map entry_seen table.now) word.now }
{
    for (name, command) in table {
        if *name == word {
            return Some(*command);
        }
    }
    None
}

// The supported command of this name.
fn supported_command(word: &[u8]) -> Option<CommandWord>
    ensures { option_map word_seen result ≡ supported word.now }
{
    command_among(&COMMANDS, word)
}

// The token `i`, where it is a symbol.
fn named(forest: &Forest, i: usize) -> Option<usize>
    requires { IsForm forest.now.tokens i }
    ensures name { option_map (named_at forest.now.tokens) result ≡ symbol_at (form_from forest.now.tokens i) }
    ensures within { IfSome result (IsNameAt forest.now.tokens) }
{
    if is_symbol(forest, i) { Some(i) } else { None }
}

// The token `i`, where it is a numeral.
fn counted(forest: &Forest, i: usize) -> Option<usize>
    requires { IsForm forest.now.tokens i }
    ensures number { option_map (counted_at forest.now.tokens) result ≡ numeral_at (form_from forest.now.tokens i) }
    ensures within { IfSome result (IsNumeralAt forest.now.tokens) }
{
    match forest.item(i) {
        Item::Numeral => Some(i),
        _ => None,
    }
}

// The first token inside the form of token `i`, where it is a list.
fn listed(forest: &Forest, i: usize) -> Option<usize>
    requires { IsForm forest.now.tokens i }
    ensures forms { option_map (forms_from forest.now.tokens) result ≡ list_in (form_from forest.now.tokens i) }
    ensures within { IfSome result (IsPlaceIn forest.now.tokens) }
{
    inside(forest, i)
}

// Whether the form of token `i` is `:global-declarations`.
fn is_globals(forest: &Forest, i: usize) -> bool
    requires { IsForm forest.now.tokens i }
    ensures { result ≡ is_globals (keyword_in (form_from forest.now.tokens i)) }
{
    match keyword_at(forest, i) {
        Some(keyword) => keyword == b":global-declarations".as_slice(),
        None => false,
    }
}

// Whether the form of token `i` is a string literal.
fn is_text(forest: &Forest, i: usize) -> bool
    requires { IsForm forest.now.tokens i }
    ensures { result ≡ is_text (form_from forest.now.tokens i) }
{
    match forest.item(i) {
        Item::Text => true,
        _ => false,
    }
}

// The word that the form of token `i` is, reserved or not.
fn word_at(forest: &Forest, i: usize) -> Option<&[u8]>
    requires { IsForm forest.now.tokens i }
    ensures { option_map (λ w. w.now) result ≡ word_in (form_from forest.now.tokens i) }
{
    match forest.item(i) {
        Item::Word => Some(forest.text(i)),
        _ => None,
    }
}

// The outlines of the commands, from the forms behind their words, which begin at token `i`.

// `(set-logic L)`
fn logic_setting(forest: &Forest, i: usize) -> Option<Outline>
    requires { i ≤ length forest.now.tokens }
    ensures outline { option_map (outline_seen forest.now.tokens) result ≡ shape set_logic_word (forms_from forest.now.tokens i) }
    ensures parts { IfSome result (IsOutline forest.now.tokens) }
{
    match few_from(forest, i) {
        Few::One(logic) if is_symbol(forest, logic) => Some(Outline::Passing),
        _ => None,
    }
}

// `(set-info k)` and `(set-info k v)`
fn info_setting(forest: &Forest, i: usize) -> Option<Outline>
    requires { i ≤ length forest.now.tokens }
    ensures outline { option_map (outline_seen forest.now.tokens) result ≡ shape set_info_word (forms_from forest.now.tokens i) }
    ensures parts { IfSome result (IsOutline forest.now.tokens) }
{
    match few_from(forest, i) {
        Few::One(keyword) if is_keyword(forest, keyword) => Some(Outline::Passing),
        Few::Two(keyword, _) if is_keyword(forest, keyword) => Some(Outline::Passing),
        _ => None,
    }
}

// `(set-option k)` and `(set-option k v)`, by their keyword and value.
fn option_outline(forest: &Forest, keyword: usize, value: Option<usize>) -> Option<Outline>
    requires keyword { IsForm forest.now.tokens keyword }
    requires value { IfGiven (IsForm forest.now.tokens) value }
    ensures outline { option_map (outline_seen forest.now.tokens) result ≡ option_shape (form_from forest.now.tokens keyword) (option_map (form_from forest.now.tokens) value) }
    ensures parts { IfSome result (IsOutline forest.now.tokens) }
{
    if !is_keyword(forest, keyword) {
        return None;
    }
    if is_globals(forest, keyword) {
        return Some(Outline::GlobalOption(value));
    }
    Some(Outline::Passing)
}

// `(set-option k)` and `(set-option k v)`
fn option_setting(forest: &Forest, i: usize) -> Option<Outline>
    requires { i ≤ length forest.now.tokens }
    ensures outline { option_map (outline_seen forest.now.tokens) result ≡ shape set_option_word (forms_from forest.now.tokens i) }
    ensures parts { IfSome result (IsOutline forest.now.tokens) }
{
    match few_from(forest, i) {
        Few::One(keyword) => option_outline(forest, keyword, None),
        Few::Two(keyword, value) => option_outline(forest, keyword, Some(value)),
        _ => None,
    }
}

// `(get-info k)`
fn info_question(forest: &Forest, i: usize) -> Option<Outline>
    requires { i ≤ length forest.now.tokens }
    ensures outline { option_map (outline_seen forest.now.tokens) result ≡ shape get_info_word (forms_from forest.now.tokens i) }
    ensures parts { IfSome result (IsOutline forest.now.tokens) }
{
    match few_from(forest, i) {
        Few::One(keyword) if is_keyword(forest, keyword) => Some(Outline::Passing),
        _ => None,
    }
}

// `(get-option k)`
fn option_question(forest: &Forest, i: usize) -> Option<Outline>
    requires { i ≤ length forest.now.tokens }
    ensures outline { option_map (outline_seen forest.now.tokens) result ≡ shape get_option_word (forms_from forest.now.tokens i) }
    ensures parts { IfSome result (IsOutline forest.now.tokens) }
{
    match few_from(forest, i) {
        Few::One(keyword) if is_keyword(forest, keyword) => Some(Outline::Passing),
        _ => None,
    }
}

// `(echo s)`
fn echo(forest: &Forest, i: usize) -> Option<Outline>
    requires { i ≤ length forest.now.tokens }
    ensures outline { option_map (outline_seen forest.now.tokens) result ≡ shape echo_word (forms_from forest.now.tokens i) }
    ensures parts { IfSome result (IsOutline forest.now.tokens) }
{
    match few_from(forest, i) {
        Few::One(text) if is_text(forest, text) => Some(Outline::Passing),
        _ => None,
    }
}

// `(declare-sort N k)`
fn sort_declaration(forest: &Forest, i: usize) -> Option<Outline>
    requires { i ≤ length forest.now.tokens }
    ensures outline { option_map (outline_seen forest.now.tokens) result ≡ shape declare_sort_word (forms_from forest.now.tokens i) }
    ensures parts { IfSome result (IsOutline forest.now.tokens) }
{
    let Few::Two(name, arity) = few_from(forest, i) else {
        return None;
    };
    let name = named(forest, name)?;
    let arity = counted(forest, arity)?;
    Some(Outline::SortDeclaration { name, arity })
}

// `(define-sort N (P ..) S)`
fn sort_definition(forest: &Forest, i: usize) -> Option<Outline>
    requires { i ≤ length forest.now.tokens }
    ensures outline { option_map (outline_seen forest.now.tokens) result ≡ shape define_sort_word (forms_from forest.now.tokens i) }
    ensures parts { IfSome result (IsOutline forest.now.tokens) }
{
    let Few::Three(name, parameters, sort) = few_from(forest, i) else {
        return None;
    };
    let name = named(forest, name)?;
    let parameters = listed(forest, parameters)?;
    Some(Outline::SortDefinition {
        name,
        parameters,
        sort,
    })
}

// `(declare-const f S)`
fn constant_declaration(forest: &Forest, i: usize) -> Option<Outline>
    requires { i ≤ length forest.now.tokens }
    ensures outline { option_map (outline_seen forest.now.tokens) result ≡ shape declare_const_word (forms_from forest.now.tokens i) }
    ensures parts { IfSome result (IsOutline forest.now.tokens) }
{
    let Few::Two(name, sort) = few_from(forest, i) else {
        return None;
    };
    let name = named(forest, name)?;
    Some(Outline::SymbolDeclaration {
        name,
        arguments: None,
        sort,
    })
}

// `(declare-fun f (S ..) S)`
fn symbol_declaration(forest: &Forest, i: usize) -> Option<Outline>
    requires { i ≤ length forest.now.tokens }
    ensures outline { option_map (outline_seen forest.now.tokens) result ≡ shape declare_fun_word (forms_from forest.now.tokens i) }
    ensures parts { IfSome result (IsOutline forest.now.tokens) }
{
    let Few::Three(name, arguments, sort) = few_from(forest, i) else {
        return None;
    };
    let name = named(forest, name)?;
    let arguments = listed(forest, arguments)?;
    Some(Outline::SymbolDeclaration {
        name,
        arguments: Some(arguments),
        sort,
    })
}

// `(define-fun f ((x S) ..) S t)`
fn symbol_definition(forest: &Forest, i: usize) -> Option<Outline>
    requires { i ≤ length forest.now.tokens }
    ensures outline { option_map (outline_seen forest.now.tokens) result ≡ shape define_fun_word (forms_from forest.now.tokens i) }
    ensures parts { IfSome result (IsOutline forest.now.tokens) }
{
    let Few::Four(name, parameters, sort, body) = few_from(forest, i) else {
        return None;
    };
    let name = named(forest, name)?;
    let parameters = listed(forest, parameters)?;
    Some(Outline::SymbolDefinition {
        name,
        parameters,
        sort,
        body,
    })
}

// `(assert t)`
fn assertion(forest: &Forest, i: usize) -> Option<Outline>
    requires { i ≤ length forest.now.tokens }
    ensures outline { option_map (outline_seen forest.now.tokens) result ≡ shape assert_word (forms_from forest.now.tokens i) }
    ensures parts { IfSome result (IsOutline forest.now.tokens) }
{
    match few_from(forest, i) {
        Few::One(term) => Some(Outline::Assertion(term)),
        _ => None,
    }
}

// `(check-sat-assuming (l ..))`
fn assuming(forest: &Forest, i: usize) -> Option<Outline>
    requires { i ≤ length forest.now.tokens }
    ensures outline { option_map (outline_seen forest.now.tokens) result ≡ shape check_sat_assuming_word (forms_from forest.now.tokens i) }
    ensures parts { IfSome result (IsOutline forest.now.tokens) }
{
    let Few::One(literals) = few_from(forest, i) else {
        return None;
    };
    let literals = listed(forest, literals)?;
    Some(Outline::Assuming(literals))
}

// `(push)` and `(push n)`
fn pushing(forest: &Forest, i: usize) -> Option<Outline>
    requires { i ≤ length forest.now.tokens }
    ensures outline { option_map (outline_seen forest.now.tokens) result ≡ shape push_word (forms_from forest.now.tokens i) }
    ensures parts { IfSome result (IsOutline forest.now.tokens) }
{
    match few_from(forest, i) {
        Few::Empty => Some(Outline::Pushing(None)),
        Few::One(levels) => {
            let levels = counted(forest, levels)?;
            Some(Outline::Pushing(Some(levels)))
        }
        _ => None,
    }
}

// `(pop)` and `(pop n)`
fn popping(forest: &Forest, i: usize) -> Option<Outline>
    requires { i ≤ length forest.now.tokens }
    ensures outline { option_map (outline_seen forest.now.tokens) result ≡ shape pop_word (forms_from forest.now.tokens i) }
    ensures parts { IfSome result (IsOutline forest.now.tokens) }
{
    match few_from(forest, i) {
        Few::Empty => Some(Outline::Popping(None)),
        Few::One(levels) => {
            let levels = counted(forest, levels)?;
            Some(Outline::Popping(Some(levels)))
        }
        _ => None,
    }
}

// A command without parts.
fn without_parts(forest: &Forest, i: usize, outline: Outline) -> Option<Outline>
    requires within { i ≤ length forest.now.tokens }
    requires parts { IsOutline forest.now.tokens outline }
    ensures outline { option_map (outline_seen forest.now.tokens) result ≡ alone (outline_seen forest.now.tokens outline) (forms_from forest.now.tokens i) }
    ensures parts { IfSome result (IsOutline forest.now.tokens) }
{
    match few_from(forest, i) {
        Few::Empty => Some(outline),
        _ => None,
    }
}

// The outline of the command of this word.
fn shape_of(forest: &Forest, word: CommandWord, i: usize) -> Option<Outline>
    requires { i ≤ length forest.now.tokens }
    ensures outline { option_map (outline_seen forest.now.tokens) result ≡ shape (word_seen word) (forms_from forest.now.tokens i) }
    ensures parts { IfSome result (IsOutline forest.now.tokens) }
{
    match word {
        CommandWord::Assert => assertion(forest, i),
        CommandWord::CheckSat => without_parts(forest, i, Outline::Checking),
        CommandWord::CheckSatAssuming => assuming(forest, i),
        CommandWord::DeclareConst => constant_declaration(forest, i),
        CommandWord::DeclareFun => symbol_declaration(forest, i),
        CommandWord::DeclareSort => sort_declaration(forest, i),
        CommandWord::DefineFun => symbol_definition(forest, i),
        CommandWord::DefineSort => sort_definition(forest, i),
        CommandWord::Echo => echo(forest, i),
        CommandWord::Exit => without_parts(forest, i, Outline::Ending),
        CommandWord::GetInfo => info_question(forest, i),
        CommandWord::GetModel => without_parts(forest, i, Outline::Passing),
        CommandWord::GetOption => option_question(forest, i),
        CommandWord::Pop => popping(forest, i),
        CommandWord::Push => pushing(forest, i),
        CommandWord::Reset => without_parts(forest, i, Outline::Resetting),
        CommandWord::ResetAssertions => without_parts(forest, i, Outline::ResettingAssertions),
        CommandWord::SetInfo => info_setting(forest, i),
        CommandWord::SetLogic => logic_setting(forest, i),
        CommandWord::SetOption => option_setting(forest, i),
    }
}

// Why a command has no outline whose word isn't supported.
fn unsupported_cause(word: &[u8]) -> Cause
    ensures { result ≡ (if is_command_word word.now then UnsupportedCommand else UnknownCommand) }
{
    if is_command_word(word) {
        Cause::UnsupportedCommand
    } else {
        Cause::UnknownCommand
    }
}

/// The outline of the command that begins at token `i`, or why it has none. It takes no memory.
#[tactic(auto, using(crate::proofs::CommandWords::supported_is_command))]
pub fn outline_of(forest: &Forest, i: usize) -> Result<Outline, Fault>
    requires { IsForm forest.now.tokens i }
    ensures outline { Agrees (outline (form_from forest.now.tokens i)) (outline_seen forest.now.tokens) result }
    ensures parts { IfOk result (IsOutline forest.now.tokens) }
{
    let Some(first) = inside(forest, i) else {
        return Err(bad_form(forest, i));
    };
    if !begins(forest, first) {
        return Err(bad_form(forest, i));
    }
    let Some(word) = word_at(forest, first) else {
        return Err(bad_form(forest, i));
    };
    let Some(command) = supported_command(word) else {
        return Err(fault(forest, i, unsupported_cause(word)));
    };
    match shape_of(forest, command, forest.after(first)) {
        Some(outline) => Ok(outline),
        None => Err(bad_form(forest, i)),
    }
}
