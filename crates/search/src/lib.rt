// The search in a packed part, as find_buffer_child and check_side of the source do it.
#![tactic(auto)]

ghost use Rattle.std.specs.Prelude.{◌≡◌, ◌+◌, ◌≤◌, length};
ghost use Rattle.std.specs.Iterator.{YieldsFirst, item_count};
ghost use Rattle.words.specs.Words.{record_width};
ghost use Rattle.search.specs.Side.{on_side};
ghost use Rattle.search.specs.Search.{way_to, matching, meets, beyond, child, search_part};
ghost use Rattle.search.specs.Way.{Linked};
ghost use Rattle.search.specs.Answer.{searched_outcome};

use words::{RECORD_WIDTH, Refusal};

// The sides, as C hands them in: of an i8 every value has a meaning, so it is matched once, where it is used, and made no enum before.
pub const SIDE_BEFORE: i8 = -2;

pub const SIDE_AT_OR_BEFORE: i8 = -1;

pub const SIDE_AROUND: i8 = 0;

pub const SIDE_AT_OR_AFTER: i8 = 1;

pub const SIDE_AFTER: i8 = 2;

pub const SIDE_DONT_CARE: i8 = 4;

// Whether a node from `from` to `to` is on the given side of a position. An unknown side matches nothing.
fn check_side(side: i8, position: u64, from: u64, to: u64) -> bool
    ensures { result ≡ on_side side position from to }
{
    match side {
        SIDE_BEFORE => from < position,
        SIDE_AT_OR_BEFORE => to >= position && from < position,
        SIDE_AROUND => from < position && to > position,
        SIDE_AT_OR_AFTER => from <= position && to > position,
        SIDE_AFTER => to > position,
        SIDE_DONT_CARE => true,
        _ => false,
    }
}

// The way from an offset to a bound: the offsets of the records met, each of which names the place after it.
#[derive(Clone, Copy)]
struct Way<'a> {
    words: &'a [u16],
    at: usize,
    to: usize,
}

impl<'a> Way<'a> {
    fn new(words: &'a [u16], at: usize, to: usize) -> Way<'a>
        ensures { result ≡ record { words = words.entry; at = at; to = to } }
    {
        Way { words, at, to }
    }
}

impl<'a> Iterator for Way<'a> {
    type Item = usize;

    ghost can_next = { λ s. Linked s.words.now s.at s.to };

    ghost next_gives = { YieldsFirst (λ s. way_to s.words.now s.at s.to) };

    ghost remaining = { item_count (λ s. way_to s.words.now s.at s.to) };

    fn next(&mut self) -> Option<usize> {
        let at = self.at;
        if self.to <= at {
            return None;
        }
        self.at = usize::from(self.words[at + 3]);
        Some(at)
    }
}

// Whether following end indices from one bound meets the other.
fn way_meets(words: &[u16], from: usize, to: usize) -> bool
    requires { Linked words.now from to }
    ensures { result ≡ meets words.now (length words.now) from to }
{
    // Where the last record met leads.
    let mut end = from;
    for at in Way::new(words, from, to) {
        end = usize::from(words[at + 3]);
    }
    end == to
}

// The first record on the way whose end, with the base, is past 32 bits. An end has 16 bits, so a base that leaves
// room for them needs no walk.
#[tactic(auto, using(crate::proofs::Near::none_beyond))]
fn way_beyond(words: &[u16], from: usize, to: usize, base: u32) -> Option<usize>
    requires { Linked words.now from to }
    ensures { result ≡ beyond words.now from to base }
{
    if base <= 4294901760 {
        return None;
    }
    let base64 = u64::from(base);
    for at in Way::new(words, from, to) {
        if 4294967295 < base64 + u64::from(words[at + 2]) {
            return Some(at);
        }
    }
    None
}

// Whether the record at an offset is on the given side of a position.
fn matches(words: &[u16], at: usize, position: u32, base: u32, side: i8) -> bool
    requires { at + record_width ≤ length words.now }
    ensures { result ≡ matching words.now position base side at }
{
    let base64 = u64::from(base);
    let from = base64 + u64::from(words[at + 1]);
    let to = base64 + u64::from(words[at + 2]);
    check_side(side, u64::from(position), from, to)
}

// The first match on the way in a direction above 0, else the last.
#[tactic(auto, using(crate::proofs::Found::found_forward))]
fn find_buffer_child(
    words: &[u16],
    from: usize,
    to: usize,
    direction: i8,
    position: u32,
    base: u32,
    side: i8,
) -> Option<usize>
    requires { Linked words.now from to }
    ensures { result ≡ child words.now from to direction position base side }
{
    let mut found = None;
    for at in Way::new(words, from, to) {
        if matches(words, at, position, base, side) {
            if direction > 0 {
                return Some(at);
            }
            found = Some(at);
        }
    }
    found
}

// Searching a part: the part check, 21, 22, 24, 25, then the word offset of the match, if there is one.
pub fn search(
    words: &[u16],
    types: u32,
    from: usize,
    to: usize,
    direction: i8,
    position: u32,
    base: u32,
    side: i8,
) -> Result<Option<usize>, Refusal>
    ensures { searched_outcome result ≡ search_part words.now types from to direction position base side }
{
    part::part_check(words, types)?;
    if to < from {
        return Err(Refusal::Bounds);
    }
    if words.len() < to {
        return Err(Refusal::Bounds);
    }
    if from % RECORD_WIDTH != 0 {
        return Err(Refusal::UnevenBounds);
    }
    if to % RECORD_WIDTH != 0 {
        return Err(Refusal::UnevenBounds);
    }
    if !way_meets(words, from, to) {
        return Err(Refusal::NoWay);
    }
    if let Some(at) = way_beyond(words, from, to, base) {
        return Err(Refusal::FarEnd(at));
    }
    Ok(find_buffer_child(words, from, to, direction, position, base, side))
}
