//! `demo`: a script of let-bound connectives, drawn from a seed, is rewritten by `nnf`, `simplify` and `cnf`, and what came of it
//! is counted.

ghost use Rattle.std.specs.Prelude.{◌≡◌, ◌≤◌, ◌<◌, ◌^◌, ◌%◌, ◌++◌, ◌∷◌, [], IfErr, IfOk, OnOk};
ghost use Rattle.script_terms.specs.Places.{IsRead};
ghost use Rattle.smt_io.specs.Told.{longest_text};
ghost use Rattle.smt_terms.specs.Numeral.{numeral};
ghost use Rattle.smtrw_answers.specs.Outputs.{demo_line, demo_script as script_of, drawn, flag_lines, next_state, pool_name, step_term, steps_from};
ghost use Rattle.smtrw_answers.specs.Words.{greatest_size};
ghost use Rattle.smtrw_run.specs.Demo.{line_of, opening, state_behind};

use crate::rewriting::rewritten;
use itoa::Buffer;
use passes::parse_list;
use rule_book::{Named, RuleBook};
use smt_io::Pieces;
use smt_lex::Forest;
use smt_print::Layout;
use smtrw_answers::{Status, demo_scripts_are_accepted, without_rules_one_list};
use std::alloc::{AllocError, Global};

/// The modulus of the generator.
const MODULUS: u64 = 1 << 31;

/// How many constants are declared.
const FLAGS: u64 = 8;

/// A linear congruential generator of numbers below 2^15.
#[derive(Clone, Copy)]
struct Generator {
    state: u64,
}

impl Generator {
    fn new(seed: u64) -> Generator
        ensures { result.state ≡ seed % 2 ^ 31 }
    {
        Generator {
            state: seed % MODULUS,
        }
    }

    /// The next number.
    fn draw(&mut self) -> u64
        requires { self.old.state < 2 ^ 31 }
        ensures state { self.new.state ≡ next_state self.old.state }
        ensures drawn { result ≡ drawn self.old.state }
    {
        self.state = (self.state * 1_103_515_245 + 12_345) % MODULUS;
        self.state / 65_536
    }
}

/// The script of so many steps that are drawn from a seed: eight Boolean constants, and an assertion whose lets name the steps.
/// Each step is a connective over two of the names before.
pub fn demo_script(alloc: Global, seed: u64, size: u64) -> Result<Vec<u8>, AllocError>
    requires least { 1 ≤ size }
    requires most { size ≤ greatest_size }
    ensures { IfOk result (λ b. b.items ≡ script_of seed size) }
{
    let mut text = Vec::new(alloc);
    text.extend_from_slice(b"(set-logic QF_UF)\n")?;
    push_flags(&mut text)?;
    text.extend_from_slice(b"(assert ")?;
    push_steps(seed, size, &mut text)?;
    text.extend_from_slice(b")\n(check-sat)\n")?;
    Ok(text)
}

/// Appends the declarations of the constants.
fn push_flags(text: &mut Vec<u8>) -> Result<(), AllocError>
    ensures { OnOk result (text.new.items ≡ text.old.items ++ flag_lines (0 ∷ 1 ∷ 2 ∷ 3 ∷ 4 ∷ 5 ∷ 6 ∷ 7 ∷ [])) }
{
    for flag in 0..FLAGS {
        text.extend_from_slice(b"(declare-fun b")?;
        push_number(flag, text)?;
        text.extend_from_slice(b" () Bool)\n")?;
    }
    Ok(())
}

/// Appends so many steps, each within the binding of the one before, and within all of them the last one's name.
fn push_steps(seed: u64, size: u64, text: &mut Vec<u8>) -> Result<(), AllocError>
    requires least { 1 ≤ size }
    requires most { size ≤ greatest_size }
    ensures { OnOk result (text.new.items ≡ text.old.items ++ steps_from size 0 (seed % 2 ^ 31)) }
{
    let mut generator = Generator::new(seed);
    for step in 0..size {
        push_step(step, &mut generator, text)?;
    }
    text.push(b't')?;
    push_number(size - 1, text)?;
    for _ in 0..size {
        text.push(b')')?;
    }
    Ok(())
}

/// Appends the binding of a step, which is open for what follows.
fn push_step(step: u64, generator: &mut Generator, text: &mut Vec<u8>) -> Result<(), AllocError>
    requires state { generator.old.state < 2 ^ 31 }
    requires step { step < greatest_size }
    ensures state { OnOk result (generator.new.state ≡ state_behind generator.old.state) }
    ensures text { OnOk result (text.new.items ≡ text.old.items ++ opening step generator.old.state) }
{
    let operator = generator.draw() % 5;
    let first = generator.draw() % (FLAGS + step);
    let second = generator.draw() % (FLAGS + step);
    text.extend_from_slice(b"(let ((t")?;
    push_number(step, text)?;
    text.push(b' ')?;
    push_term(operator, first, second, text)?;
    text.extend_from_slice(b")) ")?;
    Ok(())
}

/// Appends a term: an operator, drawn by its number, over one or two names.
fn push_term(operator: u64, first: u64, second: u64, text: &mut Vec<u8>) -> Result<(), AllocError>
    requires { operator < 5 }
    ensures { OnOk result (text.new.items ≡ text.old.items ++ step_term operator first second) }
{
    let opening: &[u8] = match operator {
        0 => b"(and ",
        1 => b"(or ",
        2 => b"(not ",
        3 => b"(xor ",
        _ => b"(= ",
    };
    text.extend_from_slice(opening)?;
    push_name(first, text)?;
    if operator != 2 {
        text.push(b' ')?;
        push_name(second, text)?;
    }
    text.push(b')')?;
    Ok(())
}

/// Appends the name of a constant or of a step: the constants come first.
fn push_name(place: u64, text: &mut Vec<u8>) -> Result<(), AllocError>
    ensures { OnOk result (text.new.items ≡ text.old.items ++ pool_name place) }
{
    if place < FLAGS {
        text.push(b'b')?;
        return push_number(place, text);
    }
    text.push(b't')?;
    push_number(place - FLAGS, text)
}

fn push_number(number: u64, text: &mut Vec<u8>) -> Result<(), AllocError>
    ensures { OnOk result (text.new.items ≡ text.old.items ++ numeral number) }
{
    let mut digits = Buffer::new();
    text.extend_from_slice(digits.format(number).as_bytes())?;
    Ok(())
}

/// What is counted of a demonstration.
#[derive(Clone, Copy)]
struct Counts {
    seed: u64,
    size: u64,
    bytes_in: u64,
    assertions: u64,
    bytes_out: u64,
}

/// The line of a demonstration, whose script was read.
pub fn demonstrated(
    alloc: Global,
    forest: Forest,
    seed: u64,
    size: u64,
    book: &RuleBook,
) -> Result<Pieces, Status>
    requires read { IsRead forest }
    requires made { forest.bytes ≡ script_of seed size }
    requires least { 1 ≤ size }
    requires most { size ≤ greatest_size }
    ensures line { IfOk result (λ w. w ≡ demo_line seed size) }
    ensures memory { IfErr result (λ status. status ≡ Status.OutOfMemory) }
{
    demo_scripts_are_accepted();
    without_rules_one_list();
    let Ok(passes) = parse_list("nnf,simplify,cnf") else {
        unreachable!()
    };
    let bytes_in = forest.bytes().len() as u64;
    let rewriting = rewritten(alloc, forest, &passes, Layout::Dag, book)?;
    let counts = Counts {
        seed,
        size,
        bytes_in,
        assertions: rewriting.assertions,
        bytes_out: rewriting.text.len() as u64,
    };
    let line = line(alloc, &counts)?;
    Ok(line)
}

fn line(alloc: Global, counts: &Counts) -> Result<Pieces, AllocError>
    ensures { IfOk result (λ w. w ≡ line_of counts.now) }
{
    let mut text = Pieces::new(alloc);
    push_count(&mut text, "demo seed ", counts.seed)?;
    push_count(&mut text, " size ", counts.size)?;
    push_count(&mut text, ": ", counts.bytes_in)?;
    push_count(&mut text, " bytes in, ", counts.assertions)?;
    push_count(&mut text, " assertions out, ", counts.bytes_out)?;
    text.push(b" bytes out\n")?;
    Ok(text)
}

/// Appends words and a number.
fn push_count(text: &mut Pieces, words: &str, number: u64) -> Result<(), AllocError>
    ensures { OnOk result (text.new ≡ text.old ++ words.now ++ numeral number) }
{
    let mut digits = Buffer::new();
    text.push(words.as_bytes())?;
    text.push(digits.format(number).as_bytes())?;
    Ok(())
}
