// A slice of a packed part, as TreeBuffer::slice of the source makes it.
#![tactic(auto)]

ghost use Rattle.std.specs.Prelude.{◌≡◌, [], ◌∷◌, length};
ghost use Rattle.words.specs.Words.{front};
ghost use Rattle.words.specs.Refusal.{answered};
ghost use Rattle.part.specs.Rebased.{rebased};
ghost use Rattle.slicing.specs.Slice.{starts_below, slice_part};
ghost use Rattle.slicing.specs.Rebasing.{Rebasable};
ghost use Rattle.slicing.specs.Answer.{slice_counts};

use words::{RECORD_WIDTH, Refusal};

// What an accepted slice has: how many words are written, and its length.
#[derive(Clone, Copy, Debug, PartialEq, Eq)]
pub struct Sliced {
    pub words: usize,
    pub length: u16,
}

// 23: the first record of the cut that starts below the base.
fn starts_below(cut: &[u16], base: u32) -> Option<usize>
    ensures { result ≡ starts_below cut.now base }
{
    for i in 0..cut.len() / RECORD_WIDTH {
        if u32::from(cut[i * RECORD_WIDTH + 1]) < base {
            return Some(i);
        }
    }
    None
}

// Rebases a cut's records into the front of `out`.
fn rebase(cut: &[u16], from: u16, base: u16, out: &mut [u16])
    requires { Rebasable cut.now from base (length out.old) }
    ensures { out.new ≡ front (rebased from base cut.now) out.old }
{
    for i in 0..cut.len() / RECORD_WIDTH {
        words::put_record(
            out,
            i * RECORD_WIDTH,
            cut[i * RECORD_WIDTH],
            cut[i * RECORD_WIDTH + 1] - base,
            cut[i * RECORD_WIDTH + 2] - base,
            cut[i * RECORD_WIDTH + 3] - from,
        );
    }
}

// A slice of a part: the part check, 21, 22, 23, 19 on the cut part, 13; then the rebased words.
#[tactic(auto, using(crate::proofs::Room::lacks_room))]
pub fn slice(
    words: &[u16],
    types: u32,
    from: usize,
    to: usize,
    base: u32,
    out: &mut [u16],
) -> Result<Sliced, Refusal>
    ensures { record { outcome = answered slice_counts result; outputs = out.new ∷ [] } ≡ slice_part words.now types from to base out.old }
{
    part::part_check(words, types)?;
    if to < from {
        return Err(Refusal::Bounds);
    }
    if words.len() < to {
        return Err(Refusal::Bounds);
    }
    if from % RECORD_WIDTH != 0 {
        return Err(Refusal::UnevenBounds);
    }
    if to % RECORD_WIDTH != 0 {
        return Err(Refusal::UnevenBounds);
    }
    let cut = &words[from..to];
    if let Some(i) = starts_below(cut, base) {
        return Err(Refusal::BaseAbove(from + i * RECORD_WIDTH));
    }
    let checked = part::check_cut(cut, types, from as u16);
    let figures = checked.map_err(|bad| Refusal::Packed(bad.fault, from + bad.at))?;
    if out.len() < to - from {
        return Err(Refusal::LittleWords);
    }
    if from == to {
        return Ok(Sliced {
            words: 0,
            length: 0,
        });
    }
    rebase(cut, from as u16, base as u16, out);
    Ok(Sliced {
        words: to - from,
        length: figures.greatest - base as u16,
    })
}
