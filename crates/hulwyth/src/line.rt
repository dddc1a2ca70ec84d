// The words of a line, and the numbers that they spell.
ghost use Rattle.std.specs.Prelude.{length};
ghost use Rattle.std.specs.Iterator.{at_most};

use crate::problem::Problem;

// Is it a space, a tab or the carriage return before a line break?
fn is_blank(byte: u8) -> bool {
    matches!(byte, b' ' | b'\t' | b'\r')
}

// The words of a line, with blanks around them.
#[derive(Drop)]
pub struct Words<'a> {
    rest: &'a [u8],
}

impl<'a> Words<'a> {
    pub fn of(line: &'a [u8]) -> Words<'a> {
        Words { rest: line }
    }
}

impl<'a> Iterator for Words<'a> {
    type Item = &'a [u8];

    ghost remaining = { λ s. at_most (length s.rest.now) };

    fn next(&mut self) -> Option<&'a [u8]> {
        let line = self.rest;
        let start = line.iter().position(|byte| !is_blank(*byte))?;
        let second = start + 1;
        let end = match line[second..].iter().position(|byte| is_blank(*byte)) {
            Some(more) => second + more,
            None => line.len(),
        };
        self.rest = &line[end..];
        Some(&line[start..end])
    }
}

// The number that a word spells.
pub fn value_of(word: Option<&[u8]>) -> Result<u32, Problem> {
    let value = text::number(word.ok_or(Problem::Missing)?).ok_or(Problem::NoNumber)?;
    u32::try_from(value).map_err(|_| Problem::Wide)
}

// The numbers that words spell: so many, and nothing else stands there.
pub fn numbers<const N: usize>(mut words: Words<'_>) -> Result<[u32; N], Problem> {
    let mut numbers = [0; N];
    for number in numbers.iter_mut() {
        *number = value_of(words.next())?;
    }
    match words.next() {
        None => Ok(numbers),
        Some(_) => Err(Problem::More),
    }
}

// Is it a record's line?
pub fn is_record(line: &[u8]) -> bool {
    matches!(
        line.iter().find(|byte| !is_blank(**byte)),
        Some(b'0'..=b'9')
    )
}
