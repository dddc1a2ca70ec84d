// Runs a call and prints what it answers: a listing's lines, a tree's cells, each on a line of its own.
use std::io;
use tree::{CELL_WIDTH, LINE_WIDTH};

// What the lent slices hold before a call.
const BEFORE: u32 = 9;

const PACKED_BEFORE: u16 = 9;

// Work enough for 17 items.
const WORK: usize = 1728;

// A tree, and the numbers that it is read with: T, F and S.
#[derive(Clone, Copy)]
pub struct Tree<'a> {
    pub types: u32,
    pub first_repeat: u32,
    pub start: u32,
    pub cells: &'a [u32],
    pub words: &'a [u16],
}

impl Tree<'_> {
    // Lists it, lending so many words of work, and of lines just those that it fills.
    pub fn list_with(
        self,
        rt: &(impl Print + AllocGlobal),
        work: usize,
        lines: usize,
    ) -> io::Result<()> {
        let mut work = vec![in rt.alloc(); BEFORE; work]?;
        let mut lines = vec![in rt.alloc(); BEFORE; lines]?;
        let Tree {
            types,
            first_repeat,
            start,
            cells,
            words,
        } = self;
        match listing::list(
            types,
            first_repeat,
            start,
            cells,
            words,
            &mut work,
            &mut lines,
        ) {
            Ok(count) => {
                println!(rt; "lines {count}")?;
                text::print_rows(rt, &lines, LINE_WIDTH)
            }
            Err(refusal) => println!(rt; "refused {} at {}", refusal.number(), refusal.place()),
        }
    }

    // Materialises it into so many words of cells, which it fills, and lists these, which have no packed words.
    fn materialise_and_list(
        self,
        rt: &(impl Print + AllocGlobal),
        out: usize,
        lines: usize,
    ) -> io::Result<()> {
        let mut work = vec![in rt.alloc(); BEFORE; WORK]?;
        let mut out = vec![in rt.alloc(); BEFORE; out]?;
        match materialize::materialize(self.types, self.cells, self.words, &mut work, &mut out) {
            Ok(count) => {
                println!(rt; "materialised cells {count}")?;
                Tree {
                    cells: &out,
                    words: &[],
                    ..self
                }
                .list_with(rt, WORK, lines)
            }
            Err(refusal) => println!(rt;
                "materialise refused {} at {}",
                refusal.number(),
                refusal.place()
            ),
        }
    }

    // Lists it straight, then in two calls: the lines are the same.
    pub fn list_both(
        self,
        rt: &(impl Print + AllocGlobal),
        out: usize,
        lines: usize,
    ) -> io::Result<()> {
        self.list_with(rt, WORK, lines)?;
        self.materialise_and_list(rt, out, lines)
    }
}

// Balances a tree without packed parts into so many words of cells, which it fills, and prints these.
pub fn balance<R: Print + AllocGlobal>(
    rt: &R,
    types: u32,
    none_first: bool,
    cells: &[u32],
    out: usize,
) -> io::Result<Vec<u32>> {
    let mut work = vec![in rt.alloc(); BEFORE; WORK]?;
    let mut out = vec![in rt.alloc(); BEFORE; out]?;
    match balance::balance(
        types,
        none_first,
        cells,
        &[],
        &mut work,
        &mut out,
        &mut [PACKED_BEFORE],
    ) {
        Ok(written) => {
            println!(rt; "balanced cells {}", written.cells)?;
            text::print_rows(rt, &out, CELL_WIDTH)?;
        }
        Err(refusal) => println!(rt; "refused {} at {}", refusal.number(), refusal.place())?,
    }
    Ok(out)
}
