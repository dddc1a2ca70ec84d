// The calls, and the slices that are lent to them.
use std::alloc::{AllocError, Global};
use tree::{CELL_WIDTH, LINE_WIDTH, Written};
use words::Refusal;

// What the lent slices hold before a call.
const BEFORE: u32 = 9;

const PACKED_BEFORE: u16 = 9;

// The numbers that a list is read with: T, F, b and S.
#[derive(Clone, Copy)]
pub struct Numbers {
    pub types: u32,
    pub first_repeat: u32,
    pub bound: u32,
    pub start: u32,
}

pub fn room(alloc: Global, words: usize) -> Result<Vec<u32>, AllocError> {
    Ok(vec![in alloc; BEFORE; words]?)
}

// The cells and the packed words of a tree.
#[derive(Drop)]
pub struct Tree {
    pub cells: Vec<u32>,
    pub words: Vec<u16>,
}

impl Tree {
    // Room for so many words of both.
    pub fn room(alloc: Global, cells: usize, words: usize) -> Result<Tree, AllocError> {
        let cells = room(alloc, cells)?;
        let words = vec![in alloc; PACKED_BEFORE; words]?;
        Ok(Tree { cells, words })
    }

    // Builds a list under a top of id 0, without a given length. What is written is then all of the tree.
    pub fn build(
        &mut self,
        numbers: Numbers,
        records: &[u32],
        work: &mut [u32],
    ) -> Result<Written, Refusal> {
        let Numbers {
            types,
            first_repeat,
            bound,
            start,
        } = numbers;
        let written = build::build(
            types,
            first_repeat,
            bound,
            start,
            0,
            None,
            records,
            work,
            &mut self.cells,
            &mut self.words,
        )?;
        self.cells
            .truncate(written.cells.saturating_mul(CELL_WIDTH));
        self.words.truncate(written.words);
        Ok(written)
    }

    // Lists the tree, and answers how many lines there are. What is written is then all of them.
    pub fn list(
        &self,
        numbers: Numbers,
        work: &mut [u32],
        lines: &mut Vec<u32>,
    ) -> Result<usize, Refusal> {
        let Numbers {
            types,
            first_repeat,
            start,
            ..
        } = numbers;
        let count = listing::list(
            types,
            first_repeat,
            start,
            &self.cells,
            &self.words,
            work,
            lines,
        )?;
        lines.truncate(count.saturating_mul(LINE_WIDTH));
        Ok(count)
    }

    // The kind of a cell; 0 behind the last one.
    pub fn kind(&self, cell: usize) -> u32 {
        self.cells
            .chunks(CELL_WIDTH)
            .nth(cell)
            .and_then(|words| words.first())
            .copied()
            .unwrap_or(0)
    }
}

// Balances cells without packed words, on a set without none. What is written is then all of the output.
pub fn balance(cells: &[u32], work: &mut [u32], out: &mut Vec<u32>) -> Result<(), Refusal> {
    let written = balance::balance(4, false, cells, &[], work, out, &mut [0])?;
    out.truncate(written.cells.saturating_mul(CELL_WIDTH));
    Ok(())
}
