//! An answer while it is read.

ghost use Rattle.std.specs.Prelude.{◌≡◌, ℕ, true, ◌+◌, ◌<◌, ◌≤◌, ◌^◌, List, [], ◌∷◌, length, flat_map, IfOk, IfErr};
ghost use Rattle.std.specs.List.{list_any};
ghost use Rattle.std.specs.Option.{ok_or};
ghost use Rattle.smt_lex.specs.Lexicon.{space};
ghost use Rattle.dimacs_link.specs.declared.items.Item.{Item};
ghost use Rattle.dimacs_link.specs.declared.items.Item.TheVariants.{Status, Values, Number, End};
ghost use Rattle.dimacs_link.specs.AnswerTexts.{pieces, word_items, word_items_at, value_items, items_at, line_items, items, answer_by, answer_of, checked, is_end, ending_of, named};
ghost use Rattle.dimacs_link.specs.Readings.{HasRead, IsWithin, Accepts, Reads};

use crate::answers::Answer;
use crate::items::{Ending, Item, are_words, status_item, word_item};
use crate::literals::Literal;
use crate::pieces::{cut, without_return};
use crate::progress::Progress;
use crate::truths::Truths;
use std::alloc::{AllocError, Global};

impl Progress {
    // Nothing of so many constants.
    pub(crate) fn new(alloc: Global, constants: u64) -> Result<Progress, AllocError>
        ensures { IfOk result (HasRead constants []) }
    {
        Ok(Progress {
            constants,
            ending: None,
            has_values: false,
            is_ended: false,
            positive: Truths::all_false(alloc, constants as usize)?,
            negative: Truths::all_false(alloc, constants as usize)?,
        })
    }

    // Whether the search may be said to end so here, which is noted.
    fn end_search(&mut self, ending: Ending) -> bool
        ensures { Accepts self.old (Status ending) result self.new }
    {
        let is_first = self.ending.is_none();
        self.ending = Some(ending);
        is_first && (ending == Ending::Satisfiable || !self.has_values)
    }

    // Whether a line of values may stand here, which is noted.
    fn begin_values(&mut self) -> bool
        ensures { Accepts self.old Values result self.new }
    {
        self.has_values = true;
        matches!(self.ending, None | Some(Ending::Satisfiable))
    }

    // Whether a literal may stand here, which is noted.
    fn name(&mut self, literal: Literal) -> bool
        requires { IsWithin self.old.constants (Number literal) }
        ensures { Accepts self.old (Number literal) result self.new }
    {
        let place = literal.constant as usize - 1;
        if literal.positive {
            self.positive.set(place);
            !self.is_ended && !self.negative.get(place)
        } else {
            self.negative.set(place);
            !self.is_ended && !self.positive.get(place)
        }
    }

    // Whether the values may end here, which is noted.
    fn end_values(&mut self) -> bool
        ensures { Accepts self.old End result self.new }
    {
        let is_first = !self.is_ended;
        self.is_ended = true;
        is_first
    }

    // Whether a line or a word may stand here, which is noted.
    fn accept(&mut self, item: Item) -> bool
        requires { IsWithin self.old.constants item }
        ensures { Accepts self.old item result self.new }
    {
        match item {
            Item::Status(ending) => self.end_search(ending),
            Item::Values => self.begin_values(),
            Item::Number(literal) => self.name(literal),
            Item::End => self.end_values(),
            Item::Wrong => false,
        }
    }

    // Reads a line or a word, or gives back its place where it may not stand here.
    fn read_item(&mut self, place: usize, item: Item) -> Result<(), usize>
        requires { IsWithin self.old.constants item }
        ensures read { Reads self.old (λ _. (place, item) ∷ []) result self.new }
        ensures fault { IfErr result (λ at. at ≡ place) }
    {
        if self.accept(item) {
            Ok(())
        } else {
            Err(place)
        }
    }

    // Reads what stands between two spaces.
    fn read_word(&mut self, place: usize, word: &[u8]) -> Result<(), usize>
        ensures read { Reads self.old (λ constants. word_items_at constants place word.now) result self.new }
        ensures fault { IfErr result (λ at. at ≡ place) }
    {
        if word.is_empty() {
            return Ok(());
        }
        self.read_item(place, word_item(word, self.constants))
    }

    // Reads the words of a line of values, which begin at this place.
    fn read_words(&mut self, place: usize, words: &[u8]) -> Result<(), usize>
        requires { place + length words.now < 2 ^ 64 }
        ensures read { Reads self.old (λ constants. flat_map (word_items constants) (pieces space place words.now)) result self.new }
        ensures fault { IfErr result (λ at. at ≤ place + length words.now) }
    {
        let mut start = place;
        let mut rest = words;
        'words: loop {
            let (word, behind) = cut(rest, b' ');
            self.read_word(start, word)?;
            let Some(text) = behind else { return Ok(()) };
            start += word.len() + 1;
            rest = text;
        }
    }

    // Reads what stands behind the `v` of a line at this place.
    fn read_values(&mut self, place: usize, words: &[u8]) -> Result<(), usize>
        requires { place + 1 + length words.now < 2 ^ 64 }
        ensures read { Reads self.old (λ constants. value_items constants place words.now) result self.new }
        ensures fault { IfErr result (λ at. at ≤ place + 1 + length words.now) }
    {
        if !are_words(words) {
            return Err(place);
        }
        self.read_item(place, Item::Values)?;
        self.read_words(place + 1, words)
    }

    // Reads a line at this place.
    fn read_line(&mut self, place: usize, line: &[u8]) -> Result<(), usize>
        requires { place + length line.now < 2 ^ 64 }
        ensures read { Reads self.old (λ constants. items_at constants place line.now) result self.new }
        ensures fault { IfErr result (λ at. at ≤ place + length line.now) }
    {
        match line {
            [] | [b'c', ..] => Ok(()),
            [b'v', words @ ..] => self.read_values(place, words),
            _ => self.read_item(place, status_item(line)),
        }
    }

    // Reads a whole text.
    fn read_text(&mut self, text: &[u8]) -> Result<(), usize>
        ensures read { Reads self.old (λ constants. items constants text.now) result self.new }
        ensures fault { IfErr result (λ at. at ≤ length text.now) }
    {
        let mut start = 0;
        let mut rest = text;
        'lines: loop {
            let (line, behind) = cut(rest, b'\n');
            self.read_line(start, without_return(line))?;
            let Some(text) = behind else { return Ok(()) };
            start += line.len() + 1;
            rest = text;
        }
    }

    // The answer, or None where a part is missing.
    fn answer(self) -> Option<Answer>
        ensures { (constants size : ℕ) (before : List Item) → HasRead constants before self → ok_or result size ≡ answer_by size (ending_of before) (named true before constants) (list_any is_end before) }
    {
        match self.ending? {
            Ending::Satisfiable if self.is_ended => Some(Answer::Sat(self.positive)),
            Ending::Satisfiable => None,
            Ending::Unsatisfiable => Some(Answer::Unsat),
            Ending::Unknown => Some(Answer::Unknown),
        }
    }
}

// What a text answers behind what has been read, or the place of its first fault.
pub(crate) fn answer_in(mut progress: Progress, text: &[u8]) -> Result<Answer, usize>
    ensures answer { (constants : ℕ) → HasRead constants [] progress → result ≡ answer_of constants (length text.now) (checked [] (items constants text.now)) }
    ensures fault { IfErr result (λ at. at ≤ length text.now) }
{
    progress.read_text(text)?;
    progress.answer().ok_or(text.len())
}
