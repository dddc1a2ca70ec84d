// Runs the tree check on cells of examples and on damaged trees, one or more for each rule; writes the place, or "none", or "11" where
// the work slice is too small.
#![tactic(auto)]

use std::io;
use tree::{CELL_WIDTH, HandedIn};
use words::Refusal;

// How many types of records there are.
const TYPES: u32 = 4;

type Cell = [u32; CELL_WIDTH];

// The answer on a tree. Each example writes its cells and words apart.
fn show_with(
    rt: &impl Print,
    cells: &[u32],
    words: &[u16],
    start: u32,
    work: &mut [u32],
) -> io::Result<()> {
    let t = HandedIn { cells, words };
    match cells::accept(t, TYPES, start, work) {
        Err(Refusal::Cell(place)) => println!(rt; "{place}"),
        Err(refusal) => println!(rt; "{}", refusal.number()),
        Ok(()) => println!(rt; "none"),
    }
}

// With S 0 and a work slice of 1,152 words, enough for eleven items.
fn show(rt: &impl Print, cells: &[u32], words: &[u16]) -> io::Result<()> {
    show_with(rt, cells, words, 0, &mut [4294967295; 1152])
}

// Trees with no packed words.
fn show_trees(rt: &impl Print, trees: &[&[Cell]]) -> io::Result<()> {
    for cells in trees {
        show(rt, cells.as_flattened(), &[])?;
    }
    Ok(())
}

// P with b 1,024: as it is, at the last end that fits and past it, with a work slice one word short. P with b 1:
// as it is, and with the chain of cell 2 cut.
fn examples(rt: &impl Print) -> io::Result<()> {
    let packed = [1, 0, 0, 6, 2, 1, 0, 2, 0, 0, 6, 0, 12, 0];
    let words = [3, 0, 6, 12, 1, 0, 2, 8, 2, 3, 5, 12];
    show(rt, &packed, &words)?;
    for start in [4294967289, 4294967290] {
        show_with(rt, &packed, &words, start, &mut [7; 576])?;
    }
    show_with(rt, &packed, &words, 0, &mut [0; 575])?;
    let top = [1, 0, 0, 6, 2, 1, 0];
    let outer = [1, 3, 0, 6, 3, 2, 0];
    let last = [1, 2, 3, 2, 0, 0, 0];
    show_trees(
        rt,
        &[
            &[top, outer, [1, 1, 0, 2, 0, 0, 4], last],
            &[top, outer, [1, 1, 0, 2, 0, 0, 0], last],
        ],
    )
}

// Links: past the last cell, back, to itself; a first child that is not the next cell; two links to one cell; a cell that nothing
// names; a next that jumps over cells.
fn links(rt: &impl Print) -> io::Result<()> {
    let top = [1, 0, 0, 0, 2, 1, 0];
    let two = [1, 0, 0, 0, 2, 2, 0];
    let leaf = [3, 0, 0, 0, 0, 0, 0];
    show_trees(
        rt,
        &[
            &[top, [1, 0, 0, 0, 0, 0, 3]],
            &[top, [3, 0, 0, 0, 1, 1, 0]],
            &[top, [3, 0, 0, 0, 0, 0, 2]],
            &[
                [1, 0, 0, 6, 3, 1, 0],
                [3, 0, 1, 5, 3, 1, 0],
                [3, 0, 0, 5, 0, 0, 0],
            ],
            &[two, [3, 0, 0, 0, 3, 1, 3], leaf],
            &[[1, 0, 0, 0, 0, 0, 0], [0; CELL_WIDTH]],
            &[two, [3, 0, 0, 0, 0, 0, 4], [3, 0, 0, 0, 4, 1, 0], leaf],
        ],
    )
}

// The top's kind, an id of kind 3, an id of T, siblings that touch, siblings that overlap, an end past the parent's.
fn rules(rt: &impl Print) -> io::Result<()> {
    let top = [1, 0, 0, 0, 2, 1, 0];
    let two = [1, 0, 0, 0, 2, 2, 0];
    let first = [1, 0, 0, 4, 0, 0, 3];
    show_trees(
        rt,
        &[
            &[[3, 0, 0, 0, 0, 0, 0]],
            &[top, [3, 1, 0, 0, 0, 0, 0]],
            &[top, [1, 4, 0, 0, 0, 0, 0]],
            &[two, first, [1, 0, 4, 1, 0, 0, 0]],
            &[two, first, [1, 0, 3, 1, 0, 0, 0]],
            &[top, [1, 0, 0, 4, 3, 1, 0], [1, 0, 2, 3, 0, 0, 0]],
        ],
    )
}

// No cells, one word less than a cell; words after the last part, and no part at all; a part past the words, siblings that overlap
// in a part, a record past its parent's end.
fn slices(rt: &impl Print) -> io::Result<()> {
    let packed = [1, 0, 0, 6, 2, 1, 0, 2, 0, 0, 6, 0, 12, 0];
    let words = [3, 0, 6, 12, 1, 0, 2, 8, 2, 3, 5, 12, 0];
    show(rt, &[], &[])?;
    show(rt, &packed[..CELL_WIDTH - 1], &[])?;
    show(rt, &packed, &words)?;
    show(rt, &[1, 0, 0, 6, 0, 0, 0], &words)?;
    show(rt, &packed, &words[..8])?;
    show(rt, &packed, &[3, 0, 6, 12, 1, 0, 2, 8, 2, 1, 5, 12])?;
    show(rt, &packed, &[3, 0, 6, 12, 1, 0, 2, 12, 2, 3, 5, 12])
}

fn show_all(rt: &impl Print) -> io::Result<()> {
    examples(rt)?;
    links(rt)?;
    rules(rt)?;
    slices(rt)
}

fn main(rt: HostRuntime) {
    // A failed write is not told.
    let _ = show_all(&rt);
}
