// The words of a line, handed out one at a time, each as what the line's form expects next.
ghost use Rattle.std.specs.Prelude.{◌≡◌, true, length};
ghost use Rattle.std.specs.Iterator.{at_most, YieldsFirstRef};
ghost use Rattle.std.specs.Option.{ok_or};
ghost use Rattle.terms.specs.declared.faults.ReaderFault.TheVariants.{Form, Number};
ghost use Rattle.evening_file.specs.Letters.{only};
ghost use Rattle.evening_file.specs.Numbers.{number};
ghost use Rattle.evening_file.specs.Words.{parted, text_of, is_number, is_letter, left, Followed, Handed, Valued, Lettered};

use crate::numbers::number_value;
use terms::ReaderFault;

// A word, by what its form takes it for; each case holds its part of the line. The enum is a form that
// docs/DECISIONS.md settles.
#[derive(Clone, Copy)]
pub(crate) enum Word<'a> {
    Code(&'a [u8]),
    Number(&'a [u8]),
    Letter(&'a [u8]),
}

impl<'a> Word<'a> {
    // The word's part of the line.
    pub(crate) fn text(self) -> &'a [u8]
        ensures { result.now ≡ text_of self.entry }
    {
        match self {
            Word::Code(text) | Word::Number(text) | Word::Letter(text) => text,
        }
    }

    // The value of a number; another word has none.
    pub(crate) fn value(self) -> Result<i64, ReaderFault>
        ensures { is_number self.entry ≡ true → result ≡ ok_or (number (text_of self.entry)) Number }
    {
        match self {
            Word::Number(text) => number_value(text).ok_or(ReaderFault::Number),
            _ => Err(ReaderFault::Number),
        }
    }

    // The one byte of a letter word; another word has none.
    pub(crate) fn byte(self) -> Result<u8, ReaderFault>
        ensures { is_letter self.entry ≡ true → result ≡ ok_or (only (text_of self.entry)) Form }
    {
        match self {
            Word::Letter([byte]) => Ok(*byte),
            _ => Err(ReaderFault::Form),
        }
    }
}

// The words that a line still has to hand out.
#[derive(Clone, Copy)]
pub(crate) struct Words<'a> {
    rest: &'a [u8],
}

impl<'a> Iterator for Words<'a> {
    type Item = &'a [u8];

    ghost next_gives = { YieldsFirstRef left };

    ghost remaining = { λ s. at_most (length s.rest.now) };

    // The next word's part of the line: what stands behind the spaces in front, up to the next space.
    fn next(&mut self) -> Option<&'a [u8]> {
        let start = self.rest.iter().position(|byte| *byte != b' ')?;
        let rest = &self.rest[start..];
        let end = rest
            .iter()
            .position(|byte| *byte == b' ')
            .unwrap_or(rest.len());
        let (word, after) = rest.split_at(end);
        self.rest = after;
        Some(word)
    }
}

impl<'a> Words<'a> {
    // The words behind a line's letter; refused unless the letter is a word of its own and `count` words follow it.
    pub(crate) fn after_letter(rest: &'a [u8], count: usize) -> Result<Words<'a>, ReaderFault>
        ensures { Followed rest.now count result }
    {
        let words = Words { rest };
        if !begins_apart(rest) || words.count() != count {
            return Err(ReaderFault::Form);
        }
        Ok(words)
    }

    // The next word's part of the line, which is empty where no word is left: the words were counted, so a form asks for none that is not there.
    fn part(&mut self) -> &'a [u8]
        ensures { Handed self.old self.new result.now }
    {
        self.next().unwrap_or_default()
    }

    // The text of the next word, a code.
    pub(crate) fn text(&mut self) -> &'a [u8]
        ensures { Handed self.old self.new result.now }
    {
        Word::Code(self.part()).text()
    }

    // The next word, a number whose value is asked for in its turn.
    pub(crate) fn number(&mut self) -> Word<'a>
        ensures handed { Handed self.old self.new (text_of result) }
        ensures kind { is_number result ≡ true }
    {
        Word::Number(self.part())
    }

    // The byte of the next word, a letter word.
    pub(crate) fn letter(&mut self) -> Result<u8, ReaderFault>
        ensures { Lettered self.old self.new result }
    {
        Word::Letter(self.part()).byte()
    }

    // The value of the next word, a number.
    pub(crate) fn value(&mut self) -> Result<i64, ReaderFault>
        ensures { Valued self.old self.new result }
    {
        self.number().value()
    }
}

// Whether a word before these bytes ends there.
fn begins_apart(bytes: &[u8]) -> bool
    ensures { result ≡ parted bytes.now }
{
    matches!(bytes, [] | [b' ', ..])
}
