// Trees with nodes of id 0. Materialise and list do not look at the set: id 0 stays, and is listed where it is ordinary. Balance goes
// by whether place 0 of the set is none.
use crate::show;
use crate::show::Tree;
use std::io;
use tree::{CELL_WIDTH, LINE_WIDTH};

// How many types there are: ids 0 and 1.
const TYPES: u32 = 2;

// A part with a record of id 0 that holds one of id 1, once with both ids ordinary and once with none.
fn packed_record(rt: &(impl Print + AllocGlobal)) -> io::Result<()> {
    let tree = Tree {
        types: TYPES,
        first_repeat: TYPES,
        start: 0,
        cells: &[1, 1, 0, 2, 2, 1, 0, 2, 0, 0, 2, 0, 8, 0],
        words: &[0, 0, 2, 8, 1, 0, 1, 8],
    };
    println!(rt; "A packed record of id 0, first repeat id 2")?;
    tree.list_both(rt, 3 * CELL_WIDTH, 2 * LINE_WIDTH)?;
    println!(rt; "A packed record of id 0, first repeat id 0")?;
    Tree {
        first_repeat: 0,
        ..tree
    }
    .list_both(rt, 3 * CELL_WIDTH, 0)
}

// A top of id 1 with eight leaves of id 1, and a ninth child of id 0 that holds three leaves of kind 3.
const NINTH_OF_ID_0: [[u32; CELL_WIDTH]; 13] = [
    [1, 1, 0, 11, 2, 9, 0],
    [1, 1, 0, 1, 0, 0, 3],
    [1, 1, 1, 1, 0, 0, 4],
    [1, 1, 2, 1, 0, 0, 5],
    [1, 1, 3, 1, 0, 0, 6],
    [1, 1, 4, 1, 0, 0, 7],
    [1, 1, 5, 1, 0, 0, 8],
    [1, 1, 6, 1, 0, 0, 9],
    [1, 1, 7, 1, 0, 0, 10],
    [1, 0, 8, 3, 11, 3, 0],
    [3, 0, 0, 1, 0, 0, 12],
    [3, 0, 1, 1, 0, 0, 13],
    [3, 0, 2, 1, 0, 0, 0],
];

// Balances that tree and lists the cells that come.
fn balanced(
    rt: &(impl Print + AllocGlobal),
    none_first: bool,
    out: usize,
    lines: usize,
) -> io::Result<()> {
    let cells = show::balance(rt, TYPES, none_first, NINTH_OF_ID_0.as_flattened(), out)?;
    Tree {
        types: TYPES,
        first_repeat: TYPES,
        start: 0,
        cells: &cells,
        words: &[],
    }
    .list_both(rt, out, lines)
}

// Balanced on a set without none it stays as it is. Where place 0 of the set is none, the ninth child counts as none and gives way to
// its children: of nine lines eight are left.
pub fn run(rt: &(impl Print + AllocGlobal)) -> io::Result<()> {
    packed_record(rt)?;
    println!(rt; "A ninth child of id 0 over three of kind 3, place 0 of the set is not none")?;
    balanced(rt, false, 13 * CELL_WIDTH, 9 * LINE_WIDTH)?;
    println!(rt; "The same tree, place 0 of the set is none")?;
    balanced(rt, true, 17 * CELL_WIDTH, 8 * LINE_WIDTH)
}
