// Replays recorded builds: reads one list a line and writes one answer a line. The recorded answers are the source's own, and
// stand in the file stdout. A line is, in decimal numbers with a space between any two,
//   T F b S top given length room packed records
// where T is the number of types, F the first repeat id, b the length bound, S the build start, top the top id, given 0 where no
// length is given, room the number of words that the output for cells has, packed that of the output for packed words, which
// all hold 7 before. There are at most 240 words of records, room is at most 900 and packed at most 300; every number has 32
// bits. The whole text is at most 1 MiB. Any other line is a bad one.
#![tactic(auto)]

use std::alloc::Global;
use std::io;
use text::{Fault, Spaced};

// What the output slices of a call hold before it.
const BEFORE: u32 = 7;

const PACKED_BEFORE: u16 = 7;

// How many numbers a line has at most: nine, and the words of the records.
const MOST_NUMBERS: usize = 9 + 240;

// How many words the outputs have at most.
const MOST_ROOM: usize = 900;

const MOST_PACKED: usize = 300;

// The work slice for 60 records.
const WORK: usize = 5856;

// Answers the build that a line's numbers ask for, and shows both outputs.
fn answer(alloc: Global, given: &[u64], work: &mut [u32]) -> Result<String, Fault> {
    let line = text::narrow::<u32>(alloc, given)?;
    let [
        types,
        first_repeat,
        bound,
        start,
        top,
        given,
        length,
        room,
        packed,
        records @ ..,
    ] = line.as_slice()
    else {
        return Err(Fault::BadLine);
    };
    let (room, packed) = (*room as usize, *packed as usize);
    if MOST_ROOM < room || MOST_PACKED < packed {
        return Err(Fault::BadLine);
    }
    let mut cells = vec![in alloc; BEFORE; room]?;
    let mut words = vec![in alloc; PACKED_BEFORE; packed]?;
    let given = if *given == 0 { None } else { Some(*length) };
    let built = build::build(
        *types,
        *first_repeat,
        *bound,
        *start,
        *top,
        given,
        records,
        work,
        &mut cells,
        &mut words,
    );
    let (cells, words) = (Spaced(&cells), Spaced(&words));
    Ok(match built {
        Ok(written) => format!(in alloc;
            "cells {} words {} :{cells} :{words}",
            written.cells, written.words
        )?,
        Err(_) => format!(in alloc; "refused :{cells} :{words}")?,
    })
}

fn main(rt: HostRuntime) -> io::Result<()> {
    let alloc = rt.alloc();
    let mut work = vec![in alloc; 0; WORK]?;
    text::replay(&rt, MOST_NUMBERS, |given| answer(alloc, given, &mut work))
}
