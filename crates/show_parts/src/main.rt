// The three calls on packed parts, shown on the names of a small trade message.
#![tactic(auto)]

use std::io;
use words::{RECORD_WIDTH, Refusal};

// How many types of records there are: their ids lie below it.
const TYPES: u32 = 4;

// A Message (id 3) holds a FirmName (id 1) with an Escape (id 2) in it for the ampersand, and a second FirmName.
// Starts and ends are places in the message; an end index is the word behind the last record inside the record.
const MESSAGE: [u16; 16] = [3, 0, 62, 16, 1, 13, 29, 12, 2, 19, 24, 12, 1, 42, 47, 16];

// Where the first FirmName begins, and the words of both.
const NAMES: usize = 4;

const NAMES_WIDTH: usize = 12;

fn print_refusal(rt: &impl Print, refusal: Refusal) -> io::Result<()> {
    println!(rt;
        ": refused {} at word {}",
        refusal.number(),
        refusal.place()
    )
}

fn show_check(rt: &impl Print, words: &[u16]) -> io::Result<()> {
    print!(rt; "part check of {} words", words.len())?;
    match part::part_check(words, TYPES) {
        Ok(figures) => println!(rt;
            ": {} records, greatest end {}, nesting {}",
            figures.records, figures.greatest, figures.deepest
        ),
        Err(refusal) => print_refusal(rt, refusal),
    }
}

// A part in which the greatest end is that of a record inside another, and a part without records.
fn show_greatest_end(rt: &impl Print) -> io::Result<()> {
    let inside: [u16; 8] = [1, 0, 2, 8, 1, 0, 9, 8];
    println!(rt;
        "\nWhich end is the greatest? It may be any record's: here one ends behind the record that holds it."
    )?;
    text::print_rows(rt, &inside, RECORD_WIDTH)?;
    show_check(rt, &inside)?;
    println!(rt; "Without records there is no end and no nesting: both are 0.")?;
    show_check(rt, &[])
}

// The slice of both names, with its starts and ends counted from `base`, and then the words that it leaves.
fn show_slice(rt: &impl Print, base: u32) -> io::Result<()> {
    let to = NAMES + NAMES_WIDTH;
    let mut out = [0; NAMES_WIDTH];
    print!(rt; "slice {NAMES} to {to} from base {base}")?;
    match slicing::slice(&MESSAGE, TYPES, NAMES, to, base, &mut out) {
        Ok(slice) => {
            println!(rt; ": {} words, length {}", slice.words, slice.length)?;
            text::print_rows(rt, &out, RECORD_WIDTH)
        }
        Err(refusal) => print_refusal(rt, refusal),
    }
}

// The first name up to a bound that ends after a position; records inside another are passed over.
fn show_search(rt: &impl Print, to: usize, position: u32) -> io::Result<()> {
    print!(rt; "search {NAMES} to {to} after position {position}")?;
    match search::search(
        &MESSAGE,
        TYPES,
        NAMES,
        to,
        1,
        position,
        0,
        search::SIDE_AFTER,
    ) {
        Ok(Some(at)) => println!(rt; ": match at word {at}"),
        Ok(None) => println!(rt; ": no match"),
        Err(refusal) => print_refusal(rt, refusal),
    }
}

fn show_all(rt: &impl Print) -> io::Result<()> {
    println!(rt; "The message: <trade><firm>Smith &amp; Sons</firm><firm>Baker</firm></trade>")?;
    println!(rt; "Its packed part, a record a line, with id, start, end and end index:")?;
    text::print_rows(rt, &MESSAGE, RECORD_WIDTH)?;
    println!(rt;
        "\nIs the part sound? Yes; without its last record it is not, since the message ends behind that."
    )?;
    show_check(rt, &MESSAGE)?;
    show_check(rt, &MESSAGE[..12])?;
    show_greatest_end(rt)?;
    println!(rt;
        "\nThe names alone, counted from the start of the first; no record may start before the base."
    )?;
    for base in [13, 20] {
        show_slice(rt, base)?;
    }
    println!(rt; "\nWhich name is next? The bounds must be met on the way from name to name.")?;
    for (to, position) in [(16, 9), (16, 29), (16, 47), (8, 9)] {
        show_search(rt, to, position)?;
    }
    Ok(())
}

fn main(rt: HostRuntime) {
    // A failed write is not told.
    let _ = show_all(&rt);
}
