// A tree that is handed in as cells and packed words, as an indented outline. Links and parts that lie outside the slices,
// which no tree of the build has, are passed over.
ghost use Rattle.std.specs.Prelude.{◌*◌, ◌≤◌, length};

use crate::names::Names;
use crate::output::Page;
use crate::packed::{Part, print_indent, print_part};
use std::fmt;
use std::fmt::Write;
use tree::{CELL_WIDTH, COUNT, FIRST, ID, KIND, Kind, LENGTH, NEXT, POSITION};

type Cell = [u32; CELL_WIDTH];

// The start that a cell counts its position from, and its depth.
type Note = [u32; 2];

// What an outline is made of: a tree, and how its ids are shown.
#[derive(Clone, Copy)]
pub struct Outline<'a> {
    pub names: &'a Names,
    pub first_repeat: u32,
    pub cells: &'a [Cell],
    pub words: &'a [u16],
}

// Notes something for cell x, counted from 1. What is noted for cell 0 is not read.
fn note(notes: &mut [Note], x: u32, noted: Note) {
    if let Some(place) = notes.get_mut(x as usize) {
        *place = noted;
    }
}

// Notes what the next sibling and the first child of a cell need.
fn note_links(notes: &mut [Note], cell: &Cell, [base, depth]: Note) {
    note(notes, cell[NEXT], [base, depth]);
    if !Kind::Part.is(cell[KIND]) {
        note(
            notes,
            cell[FIRST],
            [base.wrapping_add(cell[POSITION]), depth.wrapping_add(1)],
        );
    }
}

impl Outline<'_> {
    // What a cell is, by its words: a tree is shown by its id.
    fn print_label(&self, page: &mut Page, kind: u32, id: u32) -> fmt::Result {
        if Kind::Tree.is(kind) {
            return self.names.print_id(page, id);
        }
        if Kind::Part.is(kind) {
            return page.write_str("part");
        }
        page.write_str("tree of no type")
    }

    // The line of a cell, and of a part's records. The end can be above 32 bits: the length of the top is any that is given.
    fn print_cell(&self, page: &mut Page, cell: &Cell, noted: Note, ends: &mut [u16]) -> fmt::Result
        requires { length self.now.words.now ≤ length ends.old }
    {
        let [base, depth] = noted;
        let (kind, id) = (cell[KIND], cell[ID]);
        let start = base.wrapping_add(cell[POSITION]);
        print_indent(page, depth as usize);
        self.print_label(page, kind, id)?;
        write!(
            page,
            " {start}..{}",
            u64::from(start) + u64::from(cell[LENGTH])
        )?;
        if Kind::Tree.is(kind) && self.first_repeat <= id {
            page.put(b" repeat");
        }
        page.put(b"\n");
        if Kind::Part.is(kind) {
            let (first, count) = (cell[FIRST] as usize, cell[COUNT] as usize);
            if let Some(words) = self.words.get(first..first + count) {
                print_part(
                    page,
                    self.names,
                    Part {
                        words,
                        start,
                        depth,
                    },
                    ends,
                )?;
            }
        }
        Ok(())
    }

    // The outline of a tree whose top starts at `start`. `work` has room for the notes, `ends` for the ends of a part's records.
    pub fn print(
        &self,
        page: &mut Page,
        start: u32,
        work: &mut [u32],
        ends: &mut [u16],
    ) -> fmt::Result
        requires cells_in_bounds { length self.now.cells.now * 7 ≤ length work.old }
        requires words_in_bounds { length self.now.words.now ≤ length ends.old }
    {
        let (notes, _) = work.as_chunks_mut::<2>();
        note(notes, 1, [start, 0]);
        for (i, cell) in self.cells.iter().enumerate() {
            let noted = notes[i + 1];
            self.print_cell(page, cell, noted, ends)?;
            note_links(notes, cell, noted);
        }
        Ok(())
    }
}
