// Replays recorded calls on trees: reads one call a line and writes one answer a line. The recorded answers are the source's
// own, and stand in the file stdout. A line is, in decimal numbers with a space between any two,
//   call T F S room n m cells words
// where call is 1 for materialise, 2 for listing and 3 for balancing, T the number of types, F the first repeat id, S the start
// of a listing, room the number of words that the output has, which hold 7 before, n that of the cells' words and m that of the
// packed words. Materialise uses no F and S. For balance F says whether place 0 of the set is none, 0 that it is not, and S is not used; it
// has a second output of m packed words.
// n is at most 700, m at most 400 and room at most 1,400; a packed word has 16 bits and every other number 32. The whole text
// is at most 1 MiB. Any other line is a bad one.
#![tactic(auto)]

use std::alloc::{AllocError, Global};
use std::io;
use text::{Fault, Spaced};

// What the output slices of a call hold before it.
const BEFORE: u32 = 7;

const PACKED_BEFORE: u16 = 7;

// How many words the cells, the packed words and the output have at most, and how many numbers a line.
const MOST_CELLS: usize = 700;

const MOST_WORDS: usize = 400;

const MOST_ROOM: usize = 1400;

const MOST_NUMBERS: usize = 7 + MOST_CELLS + MOST_WORDS;

// The work slice for 100 cells and 100 packed records.
const WORK: usize = 19296;

// The calls.
#[derive(Clone, Copy)]
enum Call {
    Materialise,
    List,
    Balance,
}

impl Call {
    // By its number in a line.
    fn of(number: u64) -> Result<Call, Fault> {
        match number {
            1 => Ok(Call::Materialise),
            2 => Ok(Call::List),
            3 => Ok(Call::Balance),
            _ => Err(Fault::BadLine),
        }
    }
}

// What a line asks for.
#[derive(Drop)]
struct Asked {
    call: Call,
    types: u32,
    first_repeat: u32,
    start: u32,
    room: usize,
    cells: Vec<u32>,
    words: Vec<u16>,
}

impl Asked {
    // By a line's numbers.
    fn of(alloc: Global, given: &[u64]) -> Result<Asked, Fault> {
        let [call, types, first_repeat, start, room, n, m, rest @ ..] = given else {
            return Err(Fault::BadLine);
        };
        let (room, n) = (usize::try_from(*room)?, usize::try_from(*n)?);
        if rest.len() < n || MOST_CELLS < n || MOST_ROOM < room {
            return Err(Fault::BadLine);
        }
        let (cells, words) = rest.split_at(n);
        if MOST_WORDS < words.len() || *m != words.len() as u64 {
            return Err(Fault::BadLine);
        }
        Ok(Asked {
            call: Call::of(*call)?,
            types: u32::try_from(*types)?,
            first_repeat: u32::try_from(*first_repeat)?,
            start: u32::try_from(*start)?,
            room,
            cells: text::narrow(alloc, cells)?,
            words: text::narrow(alloc, words)?,
        })
    }

    fn materialise(
        &self,
        alloc: Global,
        work: &mut [u32],
        out: &mut [u32],
    ) -> Result<String, AllocError> {
        match materialize::materialize(self.types, &self.cells, &self.words, work, out) {
            Ok(count) => format!(in alloc; "cells {count}"),
            Err(_) => String::from_str(alloc, "refused"),
        }
    }

    fn list(&self, alloc: Global, work: &mut [u32], out: &mut [u32]) -> Result<String, AllocError> {
        match listing::list(
            self.types,
            self.first_repeat,
            self.start,
            &self.cells,
            &self.words,
            work,
            out,
        ) {
            Ok(count) => format!(in alloc; "lines {count}"),
            Err(_) => String::from_str(alloc, "refused"),
        }
    }

    fn balance(
        &self,
        alloc: Global,
        work: &mut [u32],
        out: &mut [u32],
        packed: &mut [u16],
    ) -> Result<String, AllocError> {
        match balance::balance(
            self.types,
            self.first_repeat != 0,
            &self.cells,
            &self.words,
            work,
            out,
            packed,
        ) {
            Ok(written) => format!(in alloc; "cells {} words {}", written.cells, written.words),
            Err(_) => String::from_str(alloc, "refused"),
        }
    }

    // The answer, and behind it the output, of balance both outputs.
    fn answer(&self, alloc: Global, work: &mut [u32]) -> Result<String, Fault> {
        let mut out = vec![in alloc; BEFORE; self.room]?;
        let answer = match self.call {
            Call::Materialise => self.materialise(alloc, work, &mut out)?,
            Call::List => self.list(alloc, work, &mut out)?,
            Call::Balance => {
                let mut packed = vec![in alloc; PACKED_BEFORE; self.words.len()]?;
                let answer = self.balance(alloc, work, &mut out, &mut packed)?;
                return Ok(format!(in alloc; "{answer} :{} :{}", Spaced(&out), Spaced(&packed))?);
            }
        };
        Ok(format!(in alloc; "{answer} :{}", Spaced(&out))?)
    }
}

fn main(rt: HostRuntime) -> io::Result<()> {
    let alloc = rt.alloc();
    let mut work = vec![in alloc; 0; WORK]?;
    text::replay(
        &rt,
        MOST_NUMBERS,
        |given| Asked::of(alloc, given)?.answer(alloc, &mut work),
    )
}
