// Listing at its limits: the work slice for packed words, and the last absolute end, which is counted from the start.
use crate::show::Tree;
use std::io;
use tree::{CELL_WIDTH, LINE_WIDTH};

// P with b 1,024 has two cells and three packed records, which are five items: 576 words of work, and one less is too little.
fn work(rt: &(impl Print + AllocGlobal), p: Tree) -> io::Result<()> {
    for work in [575, 576] {
        println!(rt; "P with b 1,024, {work} words of work")?;
        p.list_with(rt, work, 3 * LINE_WIDTH)?;
    }
    Ok(())
}

// From the last number of 32 bits: a part ends at its own length, though no record of it does, and though materialise leaves nothing of
// it. The top's length is free.
fn ends(rt: &(impl Print + AllocGlobal), p: Tree) -> io::Result<()> {
    let last = Tree {
        start: u32::MAX,
        words: &[],
        ..p
    };
    println!(rt; "An empty part of length 1, from 4,294,967,295")?;
    Tree {
        cells: &[1, 0, 0, 1, 2, 1, 0, 2, 0, 0, 1, 0, 0, 0],
        ..last
    }
    .list_both(rt, CELL_WIDTH, 0)?;
    println!(rt; "A top of length 1 alone, from 4,294,967,295")?;
    Tree {
        cells: &[1, 0, 0, 1, 0, 0, 0],
        ..last
    }
    .list_both(rt, CELL_WIDTH, 0)
}

pub fn run(rt: &(impl Print + AllocGlobal), p: Tree) -> io::Result<()> {
    work(rt, p)?;
    ends(rt, p)
}
