// What is said of a refusal, of what a listing lacks, and of the program.
use crate::output::Page;
use crate::reading::line_of;
use std::fmt;
use std::fmt::Write;
use words::{RecordFault, Refusal};

// What is wrong with a record at fault.
fn record_fault(fault: RecordFault) -> &'static str {
    match fault {
        RecordFault::Id => "its id is not below the number of types",
        RecordFault::Range => "it starts after its end",
        RecordFault::Size => {
            "its size is below 4, no multiple of 4, or reaches before the first record"
        }
        RecordFault::Span => {
            "its span begins inside the span of an earlier record without covering it whole"
        }
        RecordFault::Place => {
            "it starts before the build start, leaves its parent's range, or starts before the end of the record before it"
        }
    }
}

// What any other refusal means.
fn other_fault(refusal: Refusal) -> &'static str {
    match refusal {
        Refusal::ManyTypes => "there are more than 65536 types",
        Refusal::WideBound => "the bound is above 65535",
        Refusal::TopId => "the top's id is not below the number of types",
        Refusal::LittleWork => "the tree needs more work space than this program lends",
        Refusal::LittleCells => "the tree has more cells than this program has room for",
        Refusal::LittleWords => "the tree has more packed words than this program has room for",
        Refusal::LittleLines => "the listing has more lines than this program has room for",
        _ => "see the table of refusals in README.md",
    }
}

// A refusal in words that names no record.
pub fn print_refused(page: &mut Page, refusal: Refusal) -> fmt::Result {
    writeln!(
        page,
        "refused {}: {}",
        refusal.number(),
        other_fault(refusal)
    )
}

// A refusal of a list in words. Of a record at fault: its number, counted from 0, and its line in the text.
pub fn print_refusal(page: &mut Page, refusal: Refusal, text: &[u8]) -> fmt::Result {
    let Refusal::Record(fault, place) = refusal else {
        return print_refused(page, refusal);
    };
    write!(page, "refused {} at record {place}", fault.number())?;
    if let Some(line) = line_of(text, place) {
        write!(page, ", line {line}")?;
    }
    writeln!(page, ": {}", record_fault(fault))
}

// How to use the program.
pub fn print_help(page: &mut Page) {
    page.put(b"usage: hulwyth [--cells] [--words] [FILE]\n\n");
    page.put(
        b"Reads a record list as a text, builds its tree, and shows the tree and its listing.\n",
    );
    page.put(b"Without FILE, or where FILE is -, the text comes from standard input.\n\n");
    page.put(b"  --cells     shows the cells of the tree, too\n");
    page.put(b"  --words     shows its packed words, too\n");
    page.put(b"  -h, --help  shows this text, and nothing else\n\n");
    page.put(b"The form of the text is described in docs/FORMAT.md, the refusals in README.md.\n");
}

// Says how many ordinary records of a list the listing lacks, if any.
pub fn print_missing(page: &mut Page, ordinary: usize, listed: usize) -> fmt::Result {
    match ordinary.saturating_sub(listed) {
        0 => Ok(()),
        1 => writeln!(
            page,
            "missing: 1 ordinary record of the list is not in the tree"
        ),
        more => writeln!(
            page,
            "missing: {more} ordinary records of the list are not in the tree"
        ),
    }
}
