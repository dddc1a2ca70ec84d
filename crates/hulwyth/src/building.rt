// The tree of a text: its list is read, built and shown.
use crate::messages::print_refusal;
use crate::options::Options;
use crate::output::Page;
use crate::reading::List;
use crate::rooms;
use crate::settings::Numbers;
use crate::showing::{Shown, front};
use std::fmt;
use std::fmt::Write;
use tree::{CELL_WIDTH, Written};
use words::Refusal;

// Work for 8,192 cells and packed records: 96 words for each, and 96 more.
const WORK: usize = 786528;

// The words of 8,192 cells.
const CELLS: usize = 57344;

// The tree of a list.
fn built(
    numbers: Numbers,
    list: &List,
    work: &mut [u32],
    cells: &mut [u32],
    words: &mut [u16],
) -> Result<Written, Refusal> {
    build::build(
        numbers.types,
        numbers.first_repeat,
        numbers.bound,
        numbers.start,
        numbers.top,
        numbers.length,
        list.records().as_flattened(),
        work,
        cells,
        words,
    )
}

// Builds the tree of a text's list, and shows it or says why the list is refused.
fn print_built(
    page: &mut Page,
    text: &[u8],
    list: &List,
    numbers: Numbers,
    options: Options,
) -> fmt::Result {
    let mut work = rooms::words32::<WORK>();
    let mut cells = rooms::words32::<CELLS>();
    let mut words = rooms::words16();
    match built(numbers, list, &mut work, &mut cells, &mut words) {
        Ok(written) => {
            let shown = Shown {
                list,
                numbers,
                cells: front(&cells, written.cells.saturating_mul(CELL_WIDTH)),
                words: front(&words, written.words),
                options,
            };
            shown.print(page, &mut work)
        }
        Err(refusal) => print_refusal(page, refusal, text),
    }
}

// Reads the list of a text, and builds it or says what is wrong with the text.
pub fn run(page: &mut Page, text: &[u8], options: Options) -> fmt::Result {
    let mut list = List::new();
    if let Err(fault) = list.read(text) {
        return writeln!(page, "{fault}");
    }
    let Some(numbers) = list.settings.numbers() else {
        return writeln!(page, "the text has no line 'types N', the number of types");
    };
    print_built(page, text, &list, numbers, options)
}
