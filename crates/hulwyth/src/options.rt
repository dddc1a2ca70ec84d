// The arguments that the program is started with.
use crate::output::Page;
use std::env::{Env, FillError};
use std::fmt;
use std::fmt::Write;

// What they ask for.
#[derive(Clone, Copy, Default)]
pub struct Options {
    // The usage, and nothing else.
    pub help: bool,
    // The cells and the packed words, too.
    pub cells: bool,
    pub words: bool,
    // The number of the argument that names the file; without one the text comes from standard input.
    pub file: Option<usize>,
    // The number of the first argument that means nothing.
    pub bad: Option<usize>,
}

// Is it written as an option? A - alone is standard input.
fn is_option(word: &[u8]) -> bool {
    matches!(word, [b'-', _, ..])
}

impl Options {
    // Argument i means nothing.
    fn refuse(&mut self, i: usize) {
        self.bad = self.bad.or(Some(i));
    }

    // Adds what argument i asks for, by its text.
    fn add(&mut self, word: &[u8], i: usize) {
        match word {
            b"--cells" => self.cells = true,
            b"--words" => self.words = true,
            b"--help" | b"-h" => self.help = true,
            _ if is_option(word) || self.file.is_some() => self.refuse(i),
            _ => self.file = Some(i),
        }
    }
}

// What all arguments ask for. One that no path has the length of means nothing.
pub fn asked(rt: HostRuntime) -> Options {
    let mut options = Options::default();
    for i in 1..usize::MAX {
        let mut word = io::buffer();
        match rt.arg(i, &mut word) {
            Ok(count) => options.add(&word[..count], i),
            Err(FillError::TooLong) => options.refuse(i),
            Err(FillError::NotPresent) => break,
        }
    }
    options
}

// Says why argument i means nothing.
pub fn print_bad(rt: HostRuntime, page: &mut Page, i: usize) -> fmt::Result {
    let mut word = io::buffer();
    match rt.arg(i, &mut word) {
        Ok(count) => {
            let word = &word[..count];
            page.put(if is_option(word) {
                b"unknown option "
            } else {
                b"one file is read, and this is another: "
            });
            page.put(word);
            page.put(b"; hulwyth --help shows what can be given\n");
            Ok(())
        }
        Err(_) => writeln!(page, "argument {i} is longer than any path"),
    }
}
