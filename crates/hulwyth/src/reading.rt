// A record list out of a text: docs/FORMAT.md says how it is written.
ghost use Rattle.std.specs.Prelude.{◌≤◌};

use crate::line::{Words, is_record, numbers};
use crate::names::Names;
use crate::problem::{Fault, Problem};
use crate::settings::{Settings, read_setting};
use words::RECORD_WIDTH;

// The records that a list can have.
const RECORDS: usize = 4096;

// A list as far as its text was read. The records stand in an array, since the program allocates nothing.
#[derive(Drop)]
pub struct List {
    pub settings: Settings,
    pub names: Names,
    rooms: [[u32; RECORD_WIDTH]; RECORDS],
    held: usize,
    ghost within: { held ≤ 4096 },
}

// A line without its comment.
fn before_comment(line: &[u8]) -> &[u8] {
    match line.iter().position(|byte| *byte == b'#') {
        Some(end) => &line[..end],
        None => line,
    }
}

impl List {
    pub fn new() -> List {
        List {
            settings: Settings::default(),
            names: Names::new(),
            rooms: [[0; RECORD_WIDTH]; RECORDS],
            held: 0,
        }
    }

    pub fn records(&self) -> &[[u32; RECORD_WIDTH]] {
        &self.rooms[..self.held]
    }

    // Reads a record behind those that are held.
    fn read_record(&mut self, words: Words<'_>) -> Result<(), Problem> {
        if self.held == RECORDS {
            return Err(Problem::Full);
        }
        self.rooms[self.held] = numbers(words)?;
        self.held += 1;
        Ok(())
    }

    // Reads a line that starts with a word, from behind it.
    fn read_word(&mut self, word: &[u8], words: Words<'_>) -> Result<(), Problem> {
        let settings = &mut self.settings;
        match word {
            b"types" => read_setting(&mut settings.types, words),
            b"first-repeat" => read_setting(&mut settings.first_repeat, words),
            b"bound" => read_setting(&mut settings.bound, words),
            b"start" => read_setting(&mut settings.start, words),
            b"top" => read_setting(&mut settings.top, words),
            b"length" => read_setting(&mut settings.length, words),
            b"name" => self.names.read(words),
            _ => Err(Problem::Unknown),
        }
    }

    // Reads a line without its comment.
    fn read_line(&mut self, line: &[u8]) -> Result<(), Problem> {
        let mut words = Words::of(line);
        if is_record(line) {
            return self.read_record(words);
        }
        match words.next() {
            None => Ok(()),
            Some(word) => self.read_word(word, words),
        }
    }

    // Reads a text, up to the first line that is at fault.
    pub fn read(&mut self, text: &[u8]) -> Result<(), Fault> {
        for (i, line) in text::lines(text).enumerate() {
            if let Err(problem) = self.read_line(before_comment(line)) {
                return Err(Fault {
                    line: i + 1,
                    problem,
                });
            }
        }
        Ok(())
    }
}

// The line of record `number` of a text, which is counted from 0; lines are counted from 1.
pub fn line_of(text: &[u8], number: usize) -> Option<usize> {
    let mut lines = text::lines(text)
        .enumerate()
        .filter(|(_, line)| is_record(line));
    let (before, _) = lines.nth(number)?;
    Some(before + 1)
}
