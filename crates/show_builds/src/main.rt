// Runs examples of the build: each line says what was asked and what came. Behind an answer that is not the one that is due stands
// WRONG. Cells are shown seven words to a line, packed records and listed lines four.
#![tactic(auto)]

mod calls;
mod lists;
mod show;

use calls::{Numbers, Tree};
use show::Against;
use std::io;
use tree::{CELL_WIDTH, COUNT, LINE_WIDTH, Written};
use words::{RECORD_WIDTH, RecordFault, Refusal};

// The work slice of 16,384 records.
const WORK: usize = 1572960;

// T 4, F 4, b 1,024 and S 0.
const PLAIN: Numbers = Numbers {
    types: 4,
    first_repeat: 4,
    bound: 1024,
    start: 0,
};

// Three records, of which the last holds the two others.
const P: [u32; 12] = [1, 0, 2, 4, 2, 3, 5, 4, 3, 0, 6, 12];

// A record alone.
const ONE: [u32; 4] = [1, 5, 7, 4];

// A record that holds two groups.
const GROUPS: [u32; 20] = [1, 0, 2, 4, 2, 0, 2, 8, 1, 2, 4, 4, 2, 2, 4, 8, 2, 0, 4, 20];

// Small lists: the cells and packed words that are built, and the lines of their listing.
fn small_lists(rt: &(impl Print + AllocGlobal), work: &mut [u32]) -> io::Result<()> {
    let in_groups = Numbers {
        types: 3,
        first_repeat: 2,
        bound: 2,
        start: 0,
    };
    let from_5 = Numbers { start: 5, ..PLAIN };
    for (what, numbers, records, cells, words, due_lines) in [
        ("P, b 1024", PLAIN, &P[..], 2, 12, 3),
        ("P, b 5", Numbers { bound: 5, ..PLAIN }, &P, 3, 8, 3),
        ("P, b 1", Numbers { bound: 1, ..PLAIN }, &P, 4, 0, 3),
        ("No records", PLAIN, &[], 1, 0, 0),
        ("Record 1 5 7 4, S 5", from_5, &ONE, 2, 0, 1),
        ("Two groups, T 3, F 2, b 2", in_groups, &GROUPS, 6, 0, 2),
    ] {
        let mut tree = Tree::room(rt.alloc(), 6 * CELL_WIDTH, 5 * RECORD_WIDTH)?;
        let mut lines = calls::room(rt.alloc(), 5 * LINE_WIDTH)?;
        print!(rt; "{what}")?;
        let due = Written { cells, words };
        show::built(rt, tree.build(numbers, records, work), Ok(due))?;
        text::print_rows(rt, &tree.cells, CELL_WIDTH)?;
        text::print_rows(rt, &tree.words, RECORD_WIDTH)?;
        show::listed(rt, tree.list(numbers, work, &mut lines), due_lines)?;
        text::print_rows(rt, &lines, LINE_WIDTH)?;
    }
    Ok(())
}

// A record before the build start.
fn early(rt: &(impl Print + AllocGlobal), work: &mut [u32]) -> io::Result<()> {
    let mut tree = Tree::room(rt.alloc(), 2 * CELL_WIDTH, 12)?;
    print!(rt; "Record 1 5 7 4, S 6")?;
    let answer = tree.build(Numbers { start: 6, ..PLAIN }, &ONE, work);
    let due = Refusal::Record(RecordFault::Place, 0);
    show::built(rt, answer, Err(due))
}

// P with b 1,024, and room for one word less than it needs in each slice, and for just those that it needs.
fn rooms(rt: &(impl Print + AllocGlobal)) -> io::Result<()> {
    let enough = Written {
        cells: 2,
        words: 12,
    };
    for (what, work, cells, words, due) in [
        (
            "a work slice of 383 words",
            383,
            14,
            12,
            Err(Refusal::LittleWork),
        ),
        (
            "room for 13 words of cells",
            384,
            13,
            12,
            Err(Refusal::LittleCells),
        ),
        (
            "room for 11 packed words",
            384,
            14,
            11,
            Err(Refusal::LittleWords),
        ),
        (
            "384 words of work, 14 of cells, 12 packed",
            384,
            14,
            12,
            Ok(enough),
        ),
    ] {
        let mut work = calls::room(rt.alloc(), work)?;
        let mut tree = Tree::room(rt.alloc(), cells, words)?;
        print!(rt; "P, b 1024, {what}")?;
        show::built(rt, tree.build(PLAIN, &P, &mut work), due)?;
    }
    Ok(())
}

// Empty siblings: the cells and packed words, and the kinds of the second and the third cell.
fn siblings(rt: &(impl Print + AllocGlobal), work: &mut [u32]) -> io::Result<()> {
    for (count, cells, third) in [(16383, 2, 0), (16384, 3, 1)] {
        let records = lists::siblings(rt.alloc(), count)?;
        let mut tree = Tree::room(rt.alloc(), 3 * CELL_WIDTH, 65532)?;
        print!(rt; "{count} empty siblings, b 1024")?;
        let due = Written {
            cells,
            words: 65532,
        };
        show::built(rt, tree.build(PLAIN, &records, work), Ok(due))?;
        println!(rt;
            "kinds {} {}",
            Against(tree.kind(1), 2),
            Against(tree.kind(2), third)
        )?;
    }
    Ok(())
}

// Chains: the cells and packed words, the kind of the last cell, and the lines that are listed.
fn chains(rt: &(impl Print + AllocGlobal), work: &mut [u32]) -> io::Result<()> {
    for (count, end, words, kind) in [(2503, 2000, 4, 2), (2504, 2000, 4, 2), (2503, 70000, 0, 1)] {
        let records = lists::chain(rt.alloc(), count, end)?;
        let mut tree = Tree::room(rt.alloc(), 2505 * CELL_WIDTH, 4)?;
        let mut lines = calls::room(rt.alloc(), 2504 * LINE_WIDTH)?;
        print!(rt; "A chain of {count} records from 0 to {end}, b 1024")?;
        let due = Written { cells: 2504, words };
        show::built(rt, tree.build(PLAIN, &records, work), Ok(due))?;
        print!(rt; "the last cell's kind {}, ", Against(tree.kind(2503), kind))?;
        show::listed(rt, tree.list(PLAIN, work, &mut lines), 2503)?;
    }
    Ok(())
}

// A top with leaves: the children that it has once it is balanced, and the cells.
fn balances(rt: &(impl Print + AllocGlobal), work: &mut [u32]) -> io::Result<()> {
    for (count, children) in [(10, 10), (11, 6)] {
        let cells = lists::leaves(rt.alloc(), count)?;
        let mut out = calls::room(rt.alloc(), 20 * CELL_WIDTH)?;
        print!(rt; "{count} leaf trees balanced")?;
        match calls::balance(&cells, work, &mut out) {
            Ok(()) => {
                let came = out.get(COUNT).copied().unwrap_or(0);
                println!(rt; ": children {}", Against(came, children))?;
                text::print_rows(rt, &out, CELL_WIDTH)?;
            }
            Err(refusal) => println!(rt; ": WRONG, refused {}", refusal.number())?,
        }
    }
    Ok(())
}

fn show_all(rt: &(impl Print + AllocGlobal)) -> io::Result<()> {
    let mut work = calls::room(rt.alloc(), WORK)?;
    small_lists(rt, &mut work)?;
    early(rt, &mut work)?;
    rooms(rt)?;
    siblings(rt, &mut work)?;
    chains(rt, &mut work)?;
    balances(rt, &mut work)
}

fn main(rt: HostRuntime) -> io::Result<()> {
    text::told(show_all(&rt))
}
