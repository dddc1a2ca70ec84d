// Lists the trees of three records P with b 1,024, 5 and 1, each straight and after materialising, and trees that are refused; then
// trees at the limits of listing; then trees with nodes of id 0, balanced on a set without none and on one whose place 0 is none. Each
// line of a listing is depth, id, start and end.
#![tactic(auto)]

mod limits;
mod sets;
mod show;

use show::Tree;
use std::io;
use tree::{CELL_WIDTH, LINE_WIDTH};

// The words of so many cells, and of the lines of P.
const FOUR: usize = 4 * CELL_WIDTH;

const THREE: usize = 3 * CELL_WIDTH;

const LINES: usize = 3 * LINE_WIDTH;

fn show_all(rt: &(impl Print + AllocGlobal)) -> io::Result<()> {
    let p = Tree {
        types: 4,
        first_repeat: 4,
        start: 0,
        cells: &[1, 0, 0, 6, 2, 1, 0, 2, 0, 0, 6, 0, 12, 0],
        words: &[3, 0, 6, 12, 1, 0, 2, 8, 2, 3, 5, 12],
    };
    println!(rt; "P with b 1,024")?;
    p.list_both(rt, FOUR, LINES)?;
    println!(rt; "P with b 1,024, from 10")?;
    Tree { start: 10, ..p }.list_both(rt, FOUR, LINES)?;
    println!(rt; "P with b 5")?;
    Tree {
        cells: &[
            1, 0, 0, 6, 2, 1, 0, 1, 3, 0, 6, 3, 1, 0, 2, 0, 0, 5, 0, 8, 0,
        ],
        words: &[1, 0, 2, 4, 2, 3, 5, 8],
        ..p
    }
    .list_both(rt, FOUR, LINES)?;
    println!(rt; "P with b 1, from 10")?;
    Tree {
        start: 10,
        cells: &[
            1, 0, 0, 6, 2, 1, 0, 1, 3, 0, 6, 3, 2, 0, 1, 1, 0, 2, 0, 0, 4, 1, 2, 3, 2, 0, 0, 0,
        ],
        words: &[],
        ..p
    }
    .list_both(rt, FOUR, LINES)?;
    println!(rt; "P with b 1,024, its part one word too long")?;
    Tree {
        cells: &[1, 0, 0, 6, 2, 1, 0, 2, 0, 0, 6, 0, 11, 0],
        ..p
    }
    .list_both(rt, FOUR, LINES)?;
    println!(rt; "P with b 1,024, room for three cells")?;
    p.list_both(rt, THREE, LINES)?;
    limits::run(rt, p)?;
    sets::run(rt)
}

fn main(rt: HostRuntime) -> io::Result<()> {
    text::told(show_all(&rt))
}
