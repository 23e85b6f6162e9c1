//! The grammar of the program's words: their first fault, met from the left, or what they name.

ghost use Rattle.std.specs.Prelude.{◌≡◌, List, [], ◌∷◌, ◌++◌, false, None, Some, codes, map, nat_le, option_map, string_bytes};
ghost use Rattle.std.specs.List.{list_any};
ghost use Rattle.pass_laws.specs.Lists.{pass_list_of};
ghost use Rattle.smtrw_answers.specs.Words.{asked, at_end as end_of, blasting, command_named, file_word, is_dashed, is_number_for, is_rules, layout_named, needed, number_in, number_word, of_check, of_layout, of_passes, option_word, plain_word, setting_among, settings_of, takes_pass, translating, value_word, with_value, word_behind, Given as WordsGiven, Numbered};
ghost use Rattle.smtrw_answers.specs.Asking.{Agrees, EndFits, HasOperands, StepFits, TakesOperand, check_named, command_of, has_setting, option_seen, setting_of, size_named};

use crate::status::{Usage, Why};
use pass_laws::{ListFault, Pass};
use passes::{Passes, parse_list};
use smt_lex::is_numeral;
use smt_print::Layout;

/// The most digits that a number may have.
const MOST_DIGITS: usize = 18;

/// The most steps of a demonstration.
const GREATEST_SIZE: u64 = 10_000;

/// A command that the program has.
#[derive(Clone, Copy)]
pub(crate) enum Name {
    Rewrite,
    Translate,
    Extend,
    Blast,
    Unblast,
    Dimacs,
    Answer,
    Stats,
    Demo,
}

impl Name {
    /// Whether the command takes two words that are no options.
    fn takes_two(self) -> bool
        ensures { result ≡ nat_le 2 (needed (command_of self)) }
    {
        matches!(
            self,
            Name::Translate | Name::Extend | Name::Unblast | Name::Answer | Name::Demo
        )
    }

    /// The word that names the command.
    pub(crate) fn word(self) -> &'static str
        ensures { command_named result.now ≡ Some (command_of self) }
    {
        match self {
            Name::Rewrite => "rewrite",
            Name::Translate => "translate",
            Name::Extend => "extend",
            Name::Blast => "blast",
            Name::Unblast => "unblast",
            Name::Dimacs => "dimacs",
            Name::Answer => "answer",
            Name::Stats => "stats",
            Name::Demo => "demo",
        }
    }
}

/// An option of a command.
#[derive(Clone, Copy)]
enum Setting {
    Passes,
    Layout,
    Check,
}

/// The numbers of the words that are no options, in order: of those that name files, or write a seed and a size.
#[derive(Clone, Copy)]
enum Operands {
    Absent,
    One(u32),
    Two(u32, u32),
}

impl Operands {
    /// These and one more, where the command takes it.
    fn with(self, command: Name, word: u32) -> Option<Operands>
        ensures { (plain : List Numbered) (f : Numbered) → HasOperands self plain → f.number ≡ word
            → TakesOperand (command_of command) plain f result }
    {
        match self {
            Operands::Absent => Some(Operands::One(word)),
            Operands::One(first) if command.takes_two() => Some(Operands::Two(first, word)),
            _ => None,
        }
    }
}

/// What the words up to a place gave.
#[derive(Clone, Copy)]
struct Seen {
    /// The list of passes was given.
    passes: bool,
    /// The layout was given.
    layout: bool,
    /// The number of a check was given.
    check: bool,
    /// The words so far that are no options.
    operands: Operands,
    /// One of the files is standard input.
    reads_input: bool,
    /// The option whose value is the next word.
    awaited: Option<Setting>,
}

impl Seen {
    fn has(&self, setting: Setting) -> bool
        ensures { result ≡ has_setting setting self.now }
    {
        match setting {
            Setting::Passes => self.passes,
            Setting::Layout => self.layout,
            Setting::Check => self.check,
        }
    }
}

/// What words without a fault name: the command, and the numbers of the words that name its files.
#[derive(Clone, Copy)]
pub(crate) enum Plan {
    Rewrite { file: u32 },
    Translate { script: u32, model: u32 },
    Extend { script: u32, model: u32 },
    Blast { script: u32 },
    Unblast { script: u32, model: u32 },
    Dimacs { script: u32 },
    Answer { script: u32, answer: u32 },
    Stats { file: u32 },
    Demo,
}

const NOTHING_SEEN: Seen = Seen {
    passes: false,
    layout: false,
    check: false,
    operands: Operands::Absent,
    reads_input: false,
    awaited: None,
};

/// The command and the places of its files, or the first fault. It takes no memory.
pub(crate) fn plan_of(words: &[String]) -> Result<Plan, Usage>
    ensures { EndFits result (asked (map string_bytes words.now)) }
{
    let Some((name, rest)) = words.split_first() else {
        return Err(fault(1, Why::Missing));
    };
    let Some(command) = command_of_word(name.as_str()) else {
        return Err(fault(1, Why::UnknownCommand));
    };
    let mut seen = NOTHING_SEEN;
    let mut number = 2;
    for word in rest {
        seen = word_met(command, seen, number, word.as_str())?;
        number += 1;
    }
    at_end(command, seen, number)
}

fn fault(word: u32, why: Why) -> Usage
    ensures { result ≡ record { word = word; why = why } }
{
    Usage { word, why }
}

fn command_of_word(word: &str) -> Option<Name>
    ensures { option_map command_of result ≡ command_named word.now }
{
    if word == "rewrite" {
        Some(Name::Rewrite)
    } else if word == "translate" {
        Some(Name::Translate)
    } else if word == "extend" {
        Some(Name::Extend)
    } else if word == "blast" {
        Some(Name::Blast)
    } else if word == "unblast" {
        Some(Name::Unblast)
    } else if word == "dimacs" {
        Some(Name::Dimacs)
    } else if word == "answer" {
        Some(Name::Answer)
    } else if word == "stats" {
        Some(Name::Stats)
    } else if word == "demo" {
        Some(Name::Demo)
    } else {
        None
    }
}

/// What is seen behind one more word.
fn word_met(command: Name, seen: Seen, number: u32, word: &str) -> Result<Seen, Usage>
    ensures { (g : WordsGiven) → Agrees seen g
        → StepFits seen result (word_behind (takes_pass (command_of command)) (command_of command) number word.now g g.awaited) }
{
    match seen.awaited {
        Some(setting) => value_met(command, setting, seen, number, word),
        None if is_option(word) => option_met(command, seen, number, word),
        None => operand_met(command, seen, number, word),
    }
}

/// Whether the word begins with `-` and isn't `-` itself.
fn is_option(word: &str) -> bool
    ensures { result ≡ is_dashed word.now }
{
    word.starts_with("-") && word != "-"
}

/// The value of an option, in a word of its own.
fn value_met(
    command: Name,
    setting: Setting,
    seen: Seen,
    number: u32,
    word: &str,
) -> Result<Seen, Usage>
    ensures { (g : WordsGiven) → Agrees seen g → has_setting setting seen ≡ false
        → StepFits seen result (value_word (takes_pass (command_of command)) number (setting_of setting) word.now g) }
{
    if is_option(word) {
        return Err(fault(number, Why::BadValue));
    }
    value_given(command, setting, seen, number, word)
}

/// The value of an option.
fn value_given(
    command: Name,
    setting: Setting,
    seen: Seen,
    number: u32,
    value: &str,
) -> Result<Seen, Usage>
    ensures { (g : WordsGiven) → Agrees seen g → has_setting setting seen ≡ false
        → StepFits seen result (with_value (takes_pass (command_of command)) number (setting_of setting) value.now g) }
{
    match setting {
        Setting::Passes => match list_for(command, value) {
            Ok(_) => Ok(Seen {
                passes: true,
                awaited: None,
                ..seen
            }),
            Err(ListFault::BadPass) => Err(fault(number, Why::BadPass)),
            Err(ListFault::AfterRules) => Err(fault(number, Why::AfterRules)),
        },
        Setting::Layout => match layout_of_word(value) {
            Some(_) => Ok(Seen {
                layout: true,
                awaited: None,
                ..seen
            }),
            None => Err(fault(number, Why::BadValue)),
        },
        Setting::Check => match check_of_word(value) {
            Some(_) => Ok(Seen {
                check: true,
                awaited: None,
                ..seen
            }),
            None => Err(fault(number, Why::BadValue)),
        },
    }
}

/// The passes of a list, by those that the command takes: stored rules may not stand in the list of one that works on bits
/// or clauses.
pub(crate) fn list_for(command: Name, list: &str) -> Result<Passes, ListFault>
    ensures { result ≡ pass_list_of (takes_pass (command_of command)) list.now }
{
    match command {
        Name::Blast | Name::Unblast | Name::Dimacs | Name::Answer => list_without_rules(list),
        _ => parse_list(list),
    }
}

/// The passes of a list in which stored rules may not stand.
fn list_without_rules(list: &str) -> Result<Passes, ListFault>
    ensures { result ≡ pass_list_of (takes_pass blasting) list.now }
{
    let Ok(passes) = parse_list(list) else {
        return Err(ListFault::BadPass);
    };
    if has_rules(&passes) {
        return Err(ListFault::BadPass);
    }
    Ok(passes)
}

/// Whether stored rules are among the passes.
fn has_rules(passes: &Passes) -> bool
    ensures { result ≡ list_any is_rules passes.now }
{
    for i in 0..passes.len() {
        if is_rules(passes.pass(i)) {
            return true;
        }
    }
    false
}

fn is_rules(pass: Pass) -> bool
    ensures { result ≡ is_rules pass }
{
    matches!(pass, Pass::Rules)
}

/// The layout of this name.
pub(crate) fn layout_of_word(word: &str) -> Option<Layout>
    ensures { result ≡ layout_named word.now }
{
    if word == "tree" {
        Some(Layout::Tree)
    } else if word == "dag" {
        Some(Layout::Dag)
    } else {
        None
    }
}

/// The number of a check: checks are counted from 1.
pub(crate) fn check_of_word(word: &str) -> Option<u64>
    ensures { result ≡ check_named word.now }
{
    match number_of_word(word) {
        Some(0) => None,
        number => number,
    }
}

/// The number of steps of a demonstration, at least 1 and at most 10,000.
fn size_of_word(word: &str) -> Option<u64>
    ensures { result ≡ size_named word.now }
{
    number_of_word(word).filter(|size| (1..=GREATEST_SIZE).contains(size))
}

/// The number that the digits of a word write, unless there are too many or a 0 leads them.
pub(crate) fn number_of_word(word: &str) -> Option<u64>
    ensures { result ≡ number_in word.now }
{
    if word.len() > MOST_DIGITS || !is_numeral(word.as_bytes()) {
        return None;
    }
    word.parse::<u64>().ok()
}

/// A word that begins with `-`, where no value is awaited.
fn option_met(command: Name, seen: Seen, number: u32, word: &str) -> Result<Seen, Usage>
    ensures { (g : WordsGiven) → Agrees seen g → g.awaited ≡ None
        → StepFits seen result (option_word (takes_pass (command_of command)) number (setting_among (settings_of (command_of command)) word.now) g) }
{
    match option_in(command, word) {
        None => Err(fault(number, Why::BadOption)),
        Some((setting, _)) if seen.has(setting) => Err(fault(number, Why::Repeated)),
        Some((setting, None)) => Ok(Seen {
            awaited: Some(setting),
            ..seen
        }),
        Some((setting, Some(value))) => value_given(command, setting, seen, number, value),
    }
}

/// The option of the command that a word is, and its value where the word holds it.
fn option_in(command: Name, word: &str) -> Option<(Setting, Option<&str>)>
    ensures { option_map option_seen result ≡ setting_among (settings_of (command_of command)) word.now }
{
    match command {
        Name::Rewrite => passes_option(word).or(layout_option(word)),
        Name::Stats | Name::Demo => None,
        _ => option_for_check(word),
    }
}

/// The option of a command that looks at one check.
fn option_for_check(word: &str) -> Option<(Setting, Option<&str>)>
    ensures { option_map option_seen result ≡ setting_among (settings_of translating) word.now }
{
    passes_option(word).or(check_option(word))
}

fn passes_option(word: &str) -> Option<(Setting, Option<&str>)>
    ensures { option_map option_seen result ≡ setting_among ((codes "--passes", of_passes) ∷ []) word.now }
{
    if word == "--passes" {
        return Some((Setting::Passes, None));
    }
    let list = word.strip_prefix("--passes=")?;
    Some((Setting::Passes, Some(list)))
}

fn layout_option(word: &str) -> Option<(Setting, Option<&str>)>
    ensures { option_map option_seen result ≡ setting_among ((codes "--layout", of_layout) ∷ []) word.now }
{
    if word == "--layout" {
        return Some((Setting::Layout, None));
    }
    let layout = word.strip_prefix("--layout=")?;
    Some((Setting::Layout, Some(layout)))
}

fn check_option(word: &str) -> Option<(Setting, Option<&str>)>
    ensures { option_map option_seen result ≡ setting_among ((codes "--check", of_check) ∷ []) word.now }
{
    if word == "--check" {
        return Some((Setting::Check, None));
    }
    let number = word.strip_prefix("--check=")?;
    Some((Setting::Check, Some(number)))
}

/// A word that is no option: the name of a file, or a number.
fn operand_met(command: Name, seen: Seen, number: u32, word: &str) -> Result<Seen, Usage>
    ensures { (g : WordsGiven) → Agrees seen g → g.awaited ≡ None
        → StepFits seen result (plain_word (command_of command) number word.now g) }
{
    if word.is_empty() {
        return Err(fault(number, Why::BadValue));
    }
    let Some(operands) = seen.operands.with(command, number) else {
        return Err(fault(number, Why::Extra));
    };
    match command {
        Name::Demo => number_met(seen, operands, number, word),
        _ => file_met(seen, operands, number, word),
    }
}

/// The name of a file, which makes these operands of those that were seen.
fn file_met(seen: Seen, operands: Operands, number: u32, word: &str) -> Result<Seen, Usage>
    ensures { (g : WordsGiven) → Agrees seen g → g.awaited ≡ None
        → HasOperands operands (g.plain ++ record { number = number; word = word.now } ∷ [])
        → StepFits seen result (file_word number word.now g) }
{
    let is_input = word == "-";
    if is_input && seen.reads_input {
        return Err(fault(number, Why::TwoInputs));
    }
    Ok(Seen {
        operands,
        reads_input: seen.reads_input || is_input,
        ..seen
    })
}

/// The seed of a demonstration, or its size behind the seed, which makes these operands of those that were seen.
fn number_met(seen: Seen, operands: Operands, number: u32, word: &str) -> Result<Seen, Usage>
    ensures { (g : WordsGiven) → Agrees seen g → g.awaited ≡ None
        → HasOperands operands (g.plain ++ record { number = number; word = word.now } ∷ [])
        → StepFits seen result (number_word number word.now g) }
{
    if !is_number_behind(seen.operands, word) {
        return Err(fault(number, Why::BadValue));
    }
    Ok(Seen { operands, ..seen })
}

/// Whether the word is the number that may stand behind these: a seed, or a size behind the seed.
fn is_number_behind(operands: Operands, word: &str) -> bool
    ensures { (plain : List Numbered) → HasOperands operands plain → result ≡ is_number_for plain (number_in word.now) }
{
    match operands {
        Operands::Absent => number_of_word(word).is_some(),
        _ => size_of_word(word).is_some(),
    }
}

/// What the words name, behind the last of them.
fn at_end(command: Name, seen: Seen, number: u32) -> Result<Plan, Usage>
    ensures { (g : WordsGiven) → Agrees seen g
        → EndFits result (end_of (command_of command) number g g.awaited) }
{
    if seen.awaited.is_some() {
        return Err(fault(number, Why::Missing));
    }
    match (command, seen.operands) {
        (Name::Rewrite, Operands::One(file)) => Ok(Plan::Rewrite { file }),
        (Name::Translate, Operands::Two(script, model)) => Ok(Plan::Translate { script, model }),
        (Name::Extend, Operands::Two(script, model)) => Ok(Plan::Extend { script, model }),
        (Name::Blast, Operands::One(script)) => Ok(Plan::Blast { script }),
        (Name::Unblast, Operands::Two(script, model)) => Ok(Plan::Unblast { script, model }),
        (Name::Dimacs, Operands::One(script)) => Ok(Plan::Dimacs { script }),
        (Name::Answer, Operands::Two(script, answer)) => Ok(Plan::Answer { script, answer }),
        (Name::Stats, Operands::One(file)) => Ok(Plan::Stats { file }),
        (Name::Demo, Operands::Two(_, _)) => Ok(Plan::Demo),
        _ => Err(fault(number, Why::Missing)),
    }
}
