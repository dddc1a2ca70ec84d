// Replays recorded lists: reads one list a line and writes whether the check takes it. The recorded answers are the
// source's own, and stand in the file stdout. A line is, in decimal numbers with a space between any two,
//   T F b S top n words
// where T is the number of types, F the first repeat id, b the length bound, S the build start and n the number of the
// words. n is at most 512, and every number has 32 bits. The whole text is at most 1 MiB. Any other line is a bad one.
#![tactic(auto)]

use std::alloc::Global;
use std::io;
use text::Fault;

// How many numbers a line has at most: six, and the words.
const MOST_NUMBERS: usize = 6 + 512;

// How many words of work the most records need.
const WORK: usize = 12384;

// Answers whether the list that a line's numbers give is taken.
fn answer(alloc: Global, given: &[u64], work: &mut [u32]) -> Result<&'static str, Fault> {
    let line = text::narrow::<u32>(alloc, given)?;
    let [types, first_repeat, bound, start, top, n, words @ ..] = line.as_slice() else {
        return Err(Fault::BadLine);
    };
    if *n as usize != words.len() {
        return Err(Fault::BadLine);
    }
    Ok(
        match records::check(*types, *first_repeat, *bound, *start, *top, words, work) {
            Ok(_) => "taken",
            Err(_) => "refused",
        },
    )
}

fn main(rt: HostRuntime) -> io::Result<()> {
    let alloc = rt.alloc();
    let mut work = vec![in alloc; 0; WORK]?;
    text::replay(&rt, MOST_NUMBERS, |given| answer(alloc, given, &mut work))
}
