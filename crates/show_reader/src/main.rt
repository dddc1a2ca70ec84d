// Reads three lists from the last record back; writes the words of each record and the place before it.
#![tactic(auto)]

use reader::{Reader, Record};
use std::io;

// Three records, of which the last holds the two others.
const P: [u32; 12] = [1, 0, 2, 4, 2, 3, 5, 4, 3, 0, 6, 12];

// A record that holds two groups.
const GROUPS: [u32; 20] = [1, 0, 2, 4, 2, 0, 2, 8, 1, 2, 4, 4, 2, 2, 4, 8, 2, 0, 4, 20];

fn show_list(rt: &impl Print, list: &[u32]) -> io::Result<()> {
    for Record { own, before } in Reader::new(list) {
        let records::Record {
            id,
            start,
            end,
            size,
        } = own;
        println!(rt; "{id} {start} {end} {size} {before} ")?;
    }
    Ok(())
}

fn show_lists(rt: &impl Print) -> io::Result<()> {
    show_list(rt, &P)?;
    show_list(rt, &GROUPS)?;
    show_list(rt, &[])
}

fn main(rt: HostRuntime) {
    // A failed write is not told.
    let _ = show_lists(&rt);
}
