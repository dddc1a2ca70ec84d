// The text that the program reads: from the file that an argument names, or from standard input.
ghost use Rattle.std.specs.Prelude.{◌≤◌, length, IfOk};

use crate::output::Page;
use std::env::Env;
use std::fs::File;
use std::io::{Read, Stdin};

// Where a text comes from.
#[derive(Drop)]
pub enum Source {
    Input(Stdin),
    File(File),
}

// The path of standard input.
const INPUT: &[u8] = b"-";

// Reads to the end of the text, or until the room is full. An error says that a read failed before that.
fn read_all<R: Read>(from: &mut R, room: &mut [u8]) -> std::io::Result<usize>
    ensures { IfOk result (λ count. count ≤ length room.new) }
{
    let mut count = 0;
    // A `while`, since each turn goes on by as much as the read gave.
    while count < room.len() {
        match from.read(&mut room[count..])? {
            0 => break,
            more => count += more,
        }
    }
    Ok(count)
}

impl Source {
    // The source that a path names, where - is standard input; none where it cannot be opened. The path of a file is text in
    // UTF-8.
    pub fn open(rt: HostRuntime, path: &[u8]) -> Option<Source> {
        if path == INPUT {
            return Some(Source::Input(rt.stdin()));
        }
        let name = str::from_utf8(path).ok()?;
        Some(Source::File(File::open(&rt, name).ok()?))
    }

    // Reads the text, and answers how long it is.
    pub fn read(self, room: &mut [u8]) -> std::io::Result<usize>
        ensures { IfOk result (λ count. count ≤ length room.new) }
    {
        match self {
            Source::Input(mut from) => read_all(&mut from, room),
            Source::File(mut from) => read_all(&mut from, room),
        }
    }
}

// The path that argument `file` gives, or that of standard input without one; it is put into `room`, and empty where it does
// not fit.
pub fn path_of(rt: HostRuntime, file: Option<usize>, room: &mut [u8]) -> &[u8] {
    match file {
        None => INPUT,
        Some(i) => {
            let count = rt.arg(i, room).unwrap_or(0);
            &room[..count]
        }
    }
}

// Says what cannot be done with the text of a path.
pub fn print_fault(page: &mut Page, said: &[u8], path: &[u8]) {
    page.put(said);
    if path == INPUT {
        page.put(b"standard input\n");
        return;
    }
    page.put(b"the file ");
    page.put(path);
    page.put(b"\n");
}
