// Replays recorded calls on packed parts: reads one call a line and writes one answer a line. The recorded answers are
// the source's own, and stand in the file stdout. A line is, in decimal numbers with a space between any two,
//   1 T n words                                            the part check
//   2 T from to base room n words                          a slice, into `room` words that hold 7 before
//   3 T from to direction position base side n words       a search
// where T is the number of types and n that of the words. n and room are at most 512, a word has 16 bits, direction and
// side 8 with a sign, and every other number 32. The whole text is at most 1 MiB. Any other line is a bad one.
#![tactic(auto)]

use std::alloc::Global;
use std::io;
use text::{Fault, Spaced};

// What the output slice of a slice call holds before it.
const BEFORE: u16 = 7;

// How many words a part and the output of a slice have at most, and how many numbers a line.
const MOST_WORDS: usize = 512;

const MOST_NUMBERS: usize = MOST_WORDS + 9;

// The words of a part, as many as the line says.
fn part(alloc: Global, count: u64, words: &[u64]) -> Result<Vec<u16>, Fault> {
    if MOST_WORDS < words.len() || count != words.len() as u64 {
        return Err(Fault::BadLine);
    }
    text::narrow(alloc, words)
}

fn small(number: u64) -> Result<i8, Fault> {
    text::small_of(number).ok_or(Fault::BadLine)
}

fn check(alloc: Global, types: u64, part: &[u16]) -> Result<String, Fault> {
    Ok(match part::part_check(part, u32::try_from(types)?) {
        Ok(figures) => format!(in alloc;
            "records {} end {} nesting {}",
            figures.records, figures.greatest, figures.deepest
        )?,
        Err(_) => String::from_str(alloc, "refused")?,
    })
}

// A slice, and the output behind it.
fn slice(alloc: Global, asked: [u64; 5], part: &[u16]) -> Result<String, Fault> {
    let [types, from, to, base, room] = asked;
    let (from, to) = (u32::try_from(from)? as usize, u32::try_from(to)? as usize);
    if (MOST_WORDS as u64) < room {
        return Err(Fault::BadLine);
    }
    let mut out = vec![in alloc; BEFORE; room as usize]?;
    let sliced = slicing::slice(
        part,
        u32::try_from(types)?,
        from,
        to,
        u32::try_from(base)?,
        &mut out,
    );
    let out = Spaced(&out);
    Ok(match sliced {
        Ok(slice) => format!(in alloc; "words {} length {} :{out}", slice.words, slice.length)?,
        Err(_) => format!(in alloc; "refused :{out}")?,
    })
}

fn search(alloc: Global, asked: [u64; 7], part: &[u16]) -> Result<String, Fault> {
    let [types, from, to, direction, position, base, side] = asked;
    let searched = search::search(
        part,
        u32::try_from(types)?,
        u32::try_from(from)? as usize,
        u32::try_from(to)? as usize,
        small(direction)?,
        u32::try_from(position)?,
        u32::try_from(base)?,
        small(side)?,
    );
    Ok(match searched {
        Ok(Some(at)) => format!(in alloc; "match {at}")?,
        Ok(None) => String::from_str(alloc, "none")?,
        Err(_) => String::from_str(alloc, "refused")?,
    })
}

// Answers the call that a line's numbers ask for.
fn answer(alloc: Global, given: &[u64]) -> Result<String, Fault> {
    match given {
        [1, types, n, words @ ..] => check(alloc, *types, &part(alloc, *n, words)?),
        [2, types, from, to, base, room, n, words @ ..] => {
            let part = part(alloc, *n, words)?;
            slice(alloc, [*types, *from, *to, *base, *room], &part)
        }
        [3, types, from, to, way, position, base, side, n, words @ ..] => {
            let part = part(alloc, *n, words)?;
            search(
                alloc,
                [*types, *from, *to, *way, *position, *base, *side],
                &part,
            )
        }
        _ => Err(Fault::BadLine),
    }
}

fn main(rt: HostRuntime) -> io::Result<()> {
    let alloc = rt.alloc();
    text::replay(&rt, MOST_NUMBERS, |given| answer(alloc, given))
}
