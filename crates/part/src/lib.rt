// The check of a packed part, as validate_buffer of the source does it.
#![tactic(auto)]

ghost use Rattle.std.specs.Prelude.{◌≡◌, ◌+◌, ◌*◌, ◌/◌, ◌%◌, ◌≤◌, min, length};
ghost use Rattle.words.specs.Words.{record_width};
ghost use Rattle.words.specs.Refusal.{answered};
ghost use Rattle.words.specs.declared.refusal.Refusal.{Refusal};
ghost use Rattle.part.specs.Part.{end_index, own_fault, faults_from, part_check};
ghost use Rattle.part.specs.Rebased.{rebased};
ghost use Rattle.part.specs.Open.{Innermost, Stack, Tested};
ghost use Rattle.part.specs.Answer.{figures, number_or_none, outcome_of};

use words::{PackedFault, RECORD_WIDTH, Refusal};

// What an accepted part has: how many records, the greatest end of any and the deepest nesting.
#[derive(Clone, Copy, Debug, PartialEq, Eq)]
pub struct Figures {
    pub records: usize,
    pub greatest: u16,
    pub deepest: usize,
}

// A record at fault, by its word offset.
#[derive(Clone, Copy, Debug, PartialEq, Eq)]
pub struct BadRecord {
    pub fault: PackedFault,
    pub at: usize,
}

impl From<BadRecord> for Refusal {
    ghost from_gives = { λ bad r. r ≡ Refusal.Packed bad.fault bad.at };

    fn from(bad: BadRecord) -> Refusal {
        Refusal::Packed(bad.fault, bad.at)
    }
}

// How far the walk over the records has come: how many ends are open, and the greatest end and the deepest nesting so far.
#[derive(Clone, Copy)]
pub struct Progress {
    pub top: usize,
    pub greatest: u16,
    pub deepest: usize,
}

impl Progress {
    // Before the first record.
    pub const START: Progress = Progress {
        top: 0,
        greatest: 0,
        deepest: 0,
    };
}

// The end index of record i, counted from the word offset `from`; 0 if it is below.
#[tactic(auto, using(crate::proofs::OneRecord::from_on))]
fn end_index(words: &[u16], from: u16, i: usize) -> u16
    requires { i * record_width + record_width ≤ length words.now }
    ensures { result ≡ end_index (rebased from 0 words.now) i }
{
    words[i * RECORD_WIDTH + 3].saturating_sub(from)
}

// Tests record i by itself: 17 to 19.
#[tactic(auto, unfolding(crate::specs::Part::own_fault), using(crate::proofs::OneRecord::id_same, crate::proofs::OneRecord::start_same, crate::proofs::OneRecord::end_same, crate::proofs::OneRecord::same_length))]
fn check_own(words: &[u16], types: u32, from: u16, i: usize) -> Result<(), PackedFault>
    requires record_width_len { length words.now % record_width ≡ 0 }
    requires record_width_in_bounds { i * record_width + record_width ≤ length words.now }
    ensures { number_or_none result ≡ own_fault (rebased from 0 words.now) types i }
{
    let at = i * RECORD_WIDTH;
    if types <= u32::from(words[at]) {
        return Err(PackedFault::Id);
    }
    if words[at + 2] < words[at + 1] {
        return Err(PackedFault::Range);
    }
    let end = usize::from(end_index(words, from, i));
    if end < at + RECORD_WIDTH {
        return Err(PackedFault::EndIndex);
    }
    if words.len() < end {
        return Err(PackedFault::EndIndex);
    }
    if end % RECORD_WIDTH != 0 {
        return Err(PackedFault::EndIndex);
    }
    Ok(())
}

// Internal. How many of the ends stay open at an offset: those above it, counted from the bottom. `part_lines::open_ends` is the same over
// words of 32 bits: one function for both would ask for a conversion to `usize` that u32 has not.
pub fn still_open(ends: &[u16], at: usize) -> usize
    ensures { Innermost ends.now (length ends.now) at result }
{
    match ends.iter().rposition(|&end| at < usize::from(end)) {
        Some(t) => t + 1,
        None => 0,
    }
}

// Internal. 17 to 20 at record i, in a part whose end indices count from `from`; without a fault its end index is put on the open ends,
// and its end and its nesting are counted in. `ends` is room for the end indices of the records that enclose the present one, the
// outermost first: no more than there are records, and at most 16,383, since an end index has 16 bits.
pub fn check_record(
    words: &[u16],
    types: u32,
    from: u16,
    i: usize,
    ends: &mut [u16],
    s: Progress,
) -> Result<Progress, PackedFault>
    requires record_width_len { length words.now % record_width ≡ 0 }
    requires record_width_in_bounds { i * record_width + record_width ≤ length words.now }
    requires stack { Stack (rebased from 0 words.now) ends.old i s.top }
    ensures { Tested (rebased from 0 words.now) types i ends.old ends.new s result }
{
    check_own(words, types, from, i)?;
    let end = end_index(words, from, i);
    let top = still_open(&ends[..s.top], i * RECORD_WIDTH);
    if 0 < top {
        if ends[top - 1] < end {
            return Err(PackedFault::Nesting);
        }
    }
    ends[top] = end;
    Ok(Progress {
        top: top + 1,
        greatest: s.greatest.max(words[i * RECORD_WIDTH + 2]),
        deepest: s.deepest.max(top + 1),
    })
}

// 17 to 20 record by record, with the ends of the open records in `ends`.
fn validate_buffer(
    words: &[u16],
    types: u32,
    from: u16,
    ends: &mut [u16],
) -> Result<Figures, BadRecord>
    requires record_width_len { length words.now % record_width ≡ 0 }
    requires record_width_in_bounds { min (length words.now / record_width) 16383 ≤ length ends.old }
    ensures { outcome_of result ≡ faults_from (rebased from 0 words.now) types 0 (length words.now / record_width) }
{
    let records = words.len() / RECORD_WIDTH;
    let mut s = Progress::START;
    for i in 0..records {
        match check_record(words, types, from, i, ends, s) {
            Ok(next) => s = next,
            Err(fault) => {
                return Err(BadRecord {
                    fault,
                    at: i * RECORD_WIDTH,
                });
            }
        }
    }
    Ok(Figures {
        records,
        greatest: s.greatest,
        deepest: s.deepest,
    })
}

// The same with an array of N ends, which is large enough for the part.
fn check_within<const N: usize>(words: &[u16], types: u32, from: u16) -> Result<Figures, BadRecord>
    requires record_width_len { length words.now % record_width ≡ 0 }
    requires room { min (length words.now / record_width) 16383 ≤ N }
    requires size { N ≤ 16383 }
    ensures { outcome_of result ≡ faults_from (rebased from 0 words.now) types 0 (length words.now / record_width) }
{
    let mut ends = [0u16; N];
    validate_buffer(words, types, from, &mut ends)
}

// Internal. 17 to 20 in words of whole records whose end indices count from `from`. For a short part a small array of ends is enough:
// clearing a large one would take longer than the check.
pub fn check_cut(words: &[u16], types: u32, from: u16) -> Result<Figures, BadRecord>
    requires { length words.now % record_width ≡ 0 }
    ensures { outcome_of result ≡ faults_from (rebased from 0 words.now) types 0 (length words.now / record_width) }
{
    if words.len() <= 1024 {
        return check_within::<256>(words, types, from);
    }
    check_within::<16383>(words, types, from)
}

// The part check: 1, 16, then 17 to 20 record by record.
#[tactic(auto, unfolding(crate::specs::Part::part_check))]
pub fn part_check(words: &[u16], types: u32) -> Result<Figures, Refusal>
    ensures { answered figures result ≡ part_check words.now types }
{
    if 65536 < types {
        return Err(Refusal::ManyTypes);
    }
    if words.len() % RECORD_WIDTH != 0 {
        return Err(Refusal::UnevenPart);
    }
    Ok(check_cut(words, types, 0)?)
}
