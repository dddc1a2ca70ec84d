// Runs the check on examples of record lists and on one list or more for each refusal; writes number, place and count.
#![tactic(auto)]

use std::io;

// The first repeat id, the same in every call.
const FIRST_REPEAT: u32 = 4;

// Three records, of which the last holds the two others.
const P: [u32; 12] = [1, 0, 2, 4, 2, 3, 5, 4, 3, 0, 6, 12];

// What a list is read with: T, b, S and the top's id.
#[derive(Clone, Copy)]
struct Numbers {
    types: u32,
    bound: u32,
    start: u32,
    top: u32,
}

const PLAIN: Numbers = Numbers {
    types: 4,
    bound: 1024,
    start: 0,
    top: 0,
};

impl Numbers {
    fn show_with(self, rt: &impl Print, list: &[u32], work: &mut [u32]) -> io::Result<()> {
        let Numbers {
            types,
            bound,
            start,
            top,
        } = self;
        match records::check(types, FIRST_REPEAT, bound, start, top, list, work) {
            Ok(count) => println!(rt; "0 0 {count}"),
            Err(refusal) => println!(rt; "{} {} 0", refusal.number(), refusal.place()),
        }
    }

    // With a work slice of 576 words, enough for five records.
    fn show(self, rt: &impl Print, list: &[u32]) -> io::Result<()> {
        self.show_with(rt, list, &mut [4294967295; 576])
    }
}

// Lists that are read with the plain numbers.
fn show_lists(rt: &impl Print, lists: &[&[u32]]) -> io::Result<()> {
    for list in lists {
        PLAIN.show(rt, list)?;
    }
    Ok(())
}

// Lists that are accepted.
fn accepted(rt: &impl Print) -> io::Result<()> {
    PLAIN.show(rt, &P)?;
    Numbers { bound: 5, ..PLAIN }.show_with(rt, &P, &mut [7; 384])?;
    PLAIN.show(rt, &[])?;
    let groups = [1, 0, 2, 4, 2, 0, 2, 8, 1, 2, 4, 4, 2, 2, 4, 8, 2, 0, 4, 20];
    Numbers {
        types: 3,
        bound: 2,
        ..PLAIN
    }
    .show(rt, &groups)?;
    Numbers { start: 5, ..PLAIN }.show(rt, &[1, 5, 7, 4])?;
    let empty_ranges = [0, 3, 3, 4, 0, 3, 3, 4, 0, 3, 3, 12];
    PLAIN.show(rt, &empty_ranges)
}

// 1, 2, 3, 4 and 11; the earlier one where several apply. The last call is at each limit.
fn refused_calls(rt: &impl Print) -> io::Result<()> {
    Numbers {
        types: 65537,
        bound: 65536,
        top: 65537,
        ..PLAIN
    }
    .show(rt, &P)?;
    Numbers {
        bound: 65536,
        top: 4,
        ..PLAIN
    }
    .show(rt, &P)?;
    Numbers {
        bound: 65535,
        top: 4,
        ..PLAIN
    }
    .show(rt, &P)?;
    Numbers { types: 0, ..PLAIN }.show(rt, &P)?;
    PLAIN.show_with(rt, &P[..11], &mut [0; 1])?;
    Numbers { types: 3, ..PLAIN }.show_with(rt, &P, &mut [0; 383])?;
    Numbers {
        types: 65536,
        bound: 65535,
        top: 65535,
        ..PLAIN
    }
    .show(rt, &P)
}

// 6 to 8, with the number of the record.
fn refused_records(rt: &impl Print) -> io::Result<()> {
    show_lists(
        rt,
        &[
            // The id.
            &[3, 0, 2, 4, 4, 9, 3, 0],
            // The end before the start.
            &[1, 0, 2, 4, 2, 5, 3, 0],
            // A size of nothing, of three and of six words, past the list's beginning, and the most.
            &[1, 0, 2, 4, 2, 3, 5, 0],
            &[1, 0, 2, 3],
            &[1, 0, 2, 4, 2, 0, 5, 6],
            &[1, 0, 2, 4, 2, 0, 5, 12],
            &[1, 0, 2, 4, 2, 0, 5, 4294967295],
        ],
    )
}

// 9, also where 10 applies to an earlier record.
fn refused_spans(rt: &impl Print) -> io::Result<()> {
    show_lists(
        rt,
        &[
            &[1, 0, 2, 4, 2, 0, 5, 8, 3, 0, 6, 8],
            &[1, 0, 4, 4, 2, 3, 5, 4, 1, 3, 5, 8, 1, 3, 6, 8],
        ],
    )
}

// 10: before S, outside the parent, before the preceding sibling's end; the lowest record; 6 to 9 of any record go first.
fn refused_ranges(rt: &impl Print) -> io::Result<()> {
    Numbers { start: 6, ..PLAIN }.show(rt, &[1, 5, 7, 4])?;
    show_lists(
        rt,
        &[
            // It starts before its parent, and ends after it.
            &[1, 0, 2, 4, 2, 1, 5, 8],
            &[1, 0, 2, 4, 1, 2, 6, 4, 2, 0, 5, 12],
            // Siblings.
            &[1, 0, 4, 4, 2, 3, 5, 4],
            // Two records, and one whose id goes first.
            &[1, 0, 9, 4, 2, 3, 5, 4, 3, 1, 6, 12, 1, 5, 7, 4],
            &[1, 0, 9, 4, 2, 3, 5, 4, 9, 1, 6, 12],
        ],
    )
}

fn show_all(rt: &impl Print) -> io::Result<()> {
    accepted(rt)?;
    refused_calls(rt)?;
    refused_records(rt)?;
    refused_spans(rt)?;
    refused_ranges(rt)
}

fn main(rt: HostRuntime) {
    // A failed write is not told.
    let _ = show_all(&rt);
}
