// Internal.
// What the programs share: lines of text and their numbers, numbers in rows, answers line after line.
#![tactic(auto)]

mod answers;
mod rows;

ghost use Rattle.std.specs.Prelude.{◌≡◌, ◌≢◌, ℕ, ◌<◌, ◌≤◌, ◌↔◌, length, min, slice_index, EachIndex, IfSome, IsTrue, MatchOption};
ghost use Rattle.std.specs.Int.{IsInRange};
ghost use Rattle.text.specs.Lines.{IsLine};
ghost use Rattle.std.specs.Str.Parse.{IsNumeral, digits_value};
ghost use Rattle.std.specs.Iterator.{at_most};

pub use answers::{Fault, narrow, replay, told};
pub use rows::{Spaced, print_rows};

// A number of so many or more is kept as this one, so that no number of digits is too long to read.
pub const MOST: u64 = 1000000000000000000;

// Is each byte a decimal digit?
fn all_digits(word: &[u8]) -> bool
    ensures { IsTrue result ↔ EachIndex word.now (λ k. IsInRange 48 57 (slice_index word.now k)) }
{
    word.iter().all(|byte| byte.is_ascii_digit())
}

// Is it a word of decimal digits, one or more?
fn is_numeral(word: &[u8]) -> bool
    ensures { IsTrue result ↔ IsNumeral 10 word.now }
{
    !word.is_empty() && all_digits(word)
}

// The number that a word of decimal digits spells; none where it holds anything else, or nothing.
pub fn number(word: &[u8]) -> Option<u64>
    ensures { MatchOption result (¬ (IsNumeral 10 word.now)) (λ value. IsNumeral 10 word.now × (value ≡ min (digits_value 10 word.now) 1000000000000000000)) }
{
    if !is_numeral(word) {
        return None;
    }
    let mut value: u64 = 0;
    for byte in word {
        value = (value * 10 + u64::from(byte - b'0')).min(MOST);
    }
    Some(value)
}

// The number that a word spells, in decimal digits and with a '-' before them where it is negative, in one word: a
// negative one in two's complement.
fn signed(word: &[u8]) -> Option<u64> {
    match word {
        [b'-', digits @ ..] => Some(number(digits)?.wrapping_neg()),
        _ => number(word),
    }
}

// The numbers of a line, with a space between any two, at the front of `out`; none where the line holds anything else or
// more numbers than there is room for.
pub fn numbers<'a>(line: &[u8], out: &'a mut [u64]) -> Option<&'a [u64]>
    ensures { IfSome result (λ given. length given.now ≤ length out.old) }
{
    let mut count: usize = 0;
    for word in line.split(|byte| *byte == b' ') {
        *out.get_mut(count)? = signed(word)?;
        count += 1;
    }
    Some(&out[..count])
}

// One of the words that `numbers` leaves, as a number of 8 bits with a sign.
pub fn small_of(word: u64) -> Option<i8> {
    i8::try_from(word.cast_signed()).ok()
}

// Where the first line of a text ends: the place of its line break, or the end of the text.
fn line_end(text: &[u8]) -> usize
    ensures bound { result ≤ length text.now }
    ensures before { (k : ℕ) → k < result → slice_index text.now k ≢ 10 }
    ensures at { result < length text.now → slice_index text.now result ≡ 10 }
{
    match text.iter().position(|byte| *byte == b'\n') {
        Some(end) => end,
        None => text.len(),
    }
}

// The lines of a text, each without its line break.
#[derive(Drop)]
pub struct TextLines<'a> {
    rest: &'a [u8],
}

pub fn lines(text: &[u8]) -> TextLines<'_>
    ensures { result.rest.now ≡ text.now }
{
    TextLines { rest: text }
}

impl<'a> Iterator for TextLines<'a> {
    type Item = &'a [u8];

    // A line stands in front of what is left, holds no line break, and has one behind it unless the text ends there.
    ghost next_gives = { λ s next t. MatchOption next (length s.rest.now ≡ 0) (λ line. IsLine s.rest.now line.now t.rest.now) };

    ghost remaining = { λ s. at_most (length s.rest.now) };

    fn next(&mut self) -> Option<&'a [u8]> {
        if self.rest.is_empty() {
            return None;
        }
        let text = self.rest;
        let end = line_end(text);
        self.rest = &text[text.len().min(end + 1)..];
        Some(&text[..end])
    }
}

// Room for the whole input. It comes from a function, so that no proof of what is done with it holds its every byte.
pub fn input_room() -> [u8; 1048576]
    ensures { 1048576 ≡ length result }
{
    [0; 1048576]
}
