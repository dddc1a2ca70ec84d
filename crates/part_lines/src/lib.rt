// Internal, for listing.
// The lines of a packed part. Its records are read once, from the first on; the end indices of the listed records around the present one
// stand in a slice that is lent.
#![tactic(auto)]

ghost use Rattle.std.specs.Prelude.{◌≡◌, [], ◌∷◌, ◌+◌, ◌*◌, ◌≤◌, length};
ghost use Rattle.words.specs.Words.{front, record_width, id_of, start_of, end_of};
ghost use Rattle.tree.specs.Listing.{line_width};
ghost use Rattle.part_lines.specs.Steps.{listed_in, listed_part, still_open, Lent};

use tree::LINE_WIDTH;
use words::RECORD_WIDTH;

// How many packed records have a line: "it leaves out repeat ids".
#[tactic(auto, using(crate::proofs::Counts::listed_hit, crate::proofs::Counts::listed_miss, crate::proofs::Counts::listed_end))]
pub fn count_listed(words: &[u16], first_repeat: u32) -> usize
    ensures { result ≡ listed_in first_repeat words.now }
{
    let mut count: usize = 0;
    for i in 0..words.len() / RECORD_WIDTH {
        if u32::from(words[i * RECORD_WIDTH]) < first_repeat {
            count += 1;
        }
    }
    count
}

// Writes the line of record i of a part that starts at `start`.
fn put_record(part: &[u16], i: usize, start: u32, depth: u32, line: &mut [u32])
    requires record_width_in_bounds { i * record_width + record_width ≤ length part.now }
    requires i_bound { (start + start_of part.now i ≤ 4294967295) × (start + end_of part.now i ≤ 4294967295) }
    requires line_width_in_bounds { line_width ≤ length line.old }
    ensures { line.new ≡ front (depth ∷ id_of part.now i ∷ (start + start_of part.now i) ∷ (start + end_of part.now i) ∷ []) line.old }
{
    let word = i * RECORD_WIDTH;
    words::put(
        line,
        0,
        [
            depth,
            u32::from(part[word]),
            start + u32::from(part[word + 1]),
            start + u32::from(part[word + 2]),
        ],
    );
}

// How many of the end indices lie past the word offset, the latest first: `part::still_open` over words of 32 bits, which have no conversion
// to `usize` that one function for both could ask for.
#[tactic(auto, using(crate::proofs::Ends::still_last, crate::proofs::Ends::still_none))]
fn open_ends(ends: &[u32], off: usize) -> usize
    ensures { result ≡ still_open ends.now off (length ends.now) }
{
    match ends.iter().rposition(|&end| off < end as usize) {
        Some(t) => t + 1,
        None => 0,
    }
}

// Writes the lines of a part that starts at `start`, and answers how many words they have. `depth` is that of its first level; `ends` is
// for the end indices of the listed records around the present one.
#[tactic(auto, using(crate::proofs::Ends::taken_few))]
pub fn list_part(
    part: &[u16],
    first_repeat: u32,
    start: u32,
    depth: u32,
    ends: &mut [u32],
    lines: &mut [u32],
) -> usize
    requires { Lent first_repeat start depth part.now (length ends.old) (length lines.old) }
    ensures value { result ≡ length (listed_part first_repeat start depth part.now) }
    ensures lines_after { lines.new ≡ front (listed_part first_repeat start depth part.now) lines.old }
{
    let mut top: usize = 0;
    let mut to: usize = 0;
    for i in 0..part.len() / RECORD_WIDTH {
        top = open_ends(&ends[..top], i * RECORD_WIDTH);
        if u32::from(part[i * RECORD_WIDTH]) < first_repeat {
            put_record(part, i, start, depth + top as u32, &mut lines[to..]);
            ends[top] = u32::from(part[i * RECORD_WIDTH + 3]);
            top += 1;
            to += LINE_WIDTH;
        }
    }
    to
}
