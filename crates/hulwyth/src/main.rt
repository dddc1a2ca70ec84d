// The command line: reads a record list as a text (docs/FORMAT.md), builds its tree and shows it.
#![tactic(auto)]

mod building;
mod input;
mod line;
mod messages;
mod names;
mod options;
mod outline;
mod output;
mod packed;
mod problem;
mod reading;
mod rooms;
mod settings;
mod showing;
mod tables;

use input::Source;
use options::Options;
use output::Page;
use std::fmt;

// Reads the text that is asked for, and shows what is made of it or says why it cannot be read.
fn read(rt: HostRuntime, page: &mut Page, options: Options) -> fmt::Result {
    let mut word = io::buffer();
    let path = input::path_of(rt, options.file, &mut word);
    let Some(source) = Source::open(rt, path) else {
        input::print_fault(page, b"cannot open ", path);
        return Ok(());
    };
    let mut room = text::input_room();
    let Ok(count) = source.read(&mut room) else {
        input::print_fault(page, b"cannot read ", path);
        return Ok(());
    };
    if count == room.len() {
        page.put(b"the text is longer than 1048575 bytes, which is all that this program takes\n");
        return Ok(());
    }
    building::run(page, &room[..count], options)
}

// Does what the arguments ask for, or says which of them means nothing.
fn answer(rt: HostRuntime, page: &mut Page) -> fmt::Result {
    let options = options::asked(rt);
    if options.help {
        messages::print_help(page);
        return Ok(());
    }
    match options.bad {
        Some(i) => options::print_bad(rt, page, i),
        None => read(rt, page, options),
    }
}

fn main(rt: HostRuntime) {
    let mut page = Page::new();
    // A page takes all that is put in it.
    let _ = answer(rt, &mut page);
    page.flush();
}
