// A tree that was built, shown: its outline, its tables and its listing.
ghost use Rattle.std.specs.Prelude.{◌≤◌, length};

use crate::options::Options;
use crate::outline::Outline;
use crate::output::Page;
use crate::reading::List;
use crate::settings::Numbers;
use crate::{messages, rooms, tables};
use std::fmt;
use std::fmt::Write;
use tree::{CELL_WIDTH, LINE_WIDTH};
use words::RECORD_WIDTH;

// The words of 4,096 lines.
const LINES: usize = 16384;

// What is shown: a list, the numbers that it was built with, its tree as cells and packed words, and what the arguments ask for.
#[derive(Clone, Copy)]
pub struct Shown<'a> {
    pub list: &'a List,
    pub numbers: Numbers,
    pub cells: &'a [u32],
    pub words: &'a [u16],
    pub options: Options,
}

// So many items, as far as the slice goes.
pub fn front<T>(items: &[T], count: usize) -> &[T]
    ensures { length result.now ≤ length items.now }
{
    &items[..items.len().min(count)]
}

// How many records of a list are ordinary: their ids are below the first repeat id.
fn ordinary(records: &[[u32; RECORD_WIDTH]], first_repeat: u32) -> usize {
    records
        .iter()
        .filter(|record| record[0] < first_repeat)
        .count()
}

impl Shown<'_> {
    // Lists the tree, and says how many of the ordinary records of its list are missing.
    fn print_list(&self, page: &mut Page, work: &mut [u32]) -> fmt::Result {
        let Numbers {
            types,
            first_repeat,
            start,
            ..
        } = self.numbers;
        let (cells, words) = (self.cells, self.words);
        let mut lines = rooms::words32::<LINES>();
        match listing::list(types, first_repeat, start, cells, words, work, &mut lines) {
            Ok(count) => {
                let lines = front(&lines, count.saturating_mul(LINE_WIDTH));
                tables::print_lines(page, &self.list.names, lines)?;
                messages::print_missing(page, ordinary(self.list.records(), first_repeat), count)
            }
            Err(refusal) => messages::print_refused(page, refusal),
        }
    }

    // The sizes and the outline of the tree.
    fn print_outline(&self, page: &mut Page, work: &mut [u32]) -> fmt::Result
        requires cells_in_bounds { length self.now.cells.now ≤ length work.old }
        requires words_len_bound { length self.now.words.now ≤ 16384 }
    {
        let records = self.list.records().len();
        let (cells, words) = (self.cells.as_chunks::<CELL_WIDTH>().0, self.words);
        writeln!(
            page,
            "accepted: records {records}, cells {}, packed words {}",
            cells.len(),
            words.len()
        )?;
        page.put(b"tree: id range\n");
        let outline = Outline {
            names: &self.list.names,
            first_repeat: self.numbers.first_repeat,
            cells,
            words,
        };
        let mut ends = rooms::words16();
        outline.print(page, self.numbers.start, work, &mut ends)
    }

    // Shows the tree, with its cells and words where they are asked for.
    pub fn print(&self, page: &mut Page, work: &mut [u32]) -> fmt::Result
        requires cells_in_bounds { length self.now.cells.now ≤ length work.old }
        requires words_len_bound { length self.now.words.now ≤ 16384 }
    {
        self.print_outline(page, work)?;
        if self.options.cells {
            tables::print_cells(page, self.cells.as_chunks::<CELL_WIDTH>().0)?;
        }
        if self.options.words {
            tables::print_words(page, self.words)?;
        }
        self.print_list(page, work)
    }
}
