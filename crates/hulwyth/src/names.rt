// The names that ids are shown with.
use crate::line::{Words, value_of};
use crate::output::Page;
use crate::problem::Problem;
use std::fmt;
use std::fmt::Write;

// How many ids can have a name, and how many bytes a name has room for.
const NAMED: usize = 1024;

const NAME: usize = 32;

// A room for each name, filled up with zeros: the program allocates nothing.
#[derive(Drop)]
pub struct Names {
    rooms: [[u8; NAME]; NAMED],
}

impl Names {
    pub fn new() -> Names {
        Names {
            rooms: [[0; NAME]; NAMED],
        }
    }

    // Keeps the name of an id, with zeros behind it.
    fn keep(&mut self, id: u32, name: &[u8]) -> Result<(), Problem> {
        if NAME < name.len() {
            return Err(Problem::LongName);
        }
        let room = self.rooms.get_mut(id as usize).ok_or(Problem::HighId)?;
        if room[0] != 0 {
            return Err(Problem::Twice);
        }
        room[..name.len()].copy_from_slice(name);
        Ok(())
    }

    // Reads an id and its name.
    pub fn read(&mut self, mut words: Words<'_>) -> Result<(), Problem> {
        let id = value_of(words.next());
        let name = words.next();
        if words.next().is_some() {
            return Err(Problem::More);
        }
        self.keep(id?, name.ok_or(Problem::NoName)?)
    }

    // The name of an id, up to the first zero; none where it is empty.
    fn name_of(&self, id: u32) -> Option<&[u8]> {
        match self.rooms.get(id as usize)?.split(|byte| *byte == 0).next() {
            Some([]) => None,
            name => name,
        }
    }

    // An id and the name that it has, if any.
    pub fn print_id(&self, page: &mut Page, id: u32) -> fmt::Result {
        write!(page, "{id}")?;
        if let Some(name) = self.name_of(id) {
            page.put(b" ");
            page.put(name);
        }
        Ok(())
    }
}
