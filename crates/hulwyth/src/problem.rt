// What can be wrong with the text of a list.
use std::fmt;

// What is wrong with a line.
#[derive(Clone, Copy)]
pub enum Problem {
    // A number is missing, is none, or is above 32 bits.
    Missing,
    NoNumber,
    Wide,
    // Something stands behind the last word that the line can have.
    More,
    // The first word is none of those that can stand there.
    Unknown,
    // A setting, or the name of an id, stands in a line above, too.
    Twice,
    // A name is missing, is longer than its room, or is for an id that can have none.
    NoName,
    LongName,
    HighId,
    // There is no room for one more record.
    Full,
}

impl fmt::Display for Problem {
    fn fmt<W: fmt::Write>(&self, f: &mut fmt::Formatter<W>) -> fmt::Result {
        f.write_str(match self {
            Problem::Missing => "a number is missing",
            Problem::NoNumber => "a word that is no number stands where a number belongs",
            Problem::Wide => "a number is above 4294967295, the largest of 32 bits",
            Problem::More => "more words than the line can have",
            Problem::Unknown => {
                "unknown word; a line starts with a number, types, first-repeat, bound, start, top, length or name"
            }
            Problem::Twice => "this is already given in a line above",
            Problem::NoName => "the name is missing",
            Problem::LongName => "the name is longer than 32 bytes",
            Problem::HighId => "only the ids 0 to 1023 can have a name",
            Problem::Full => "more than 4096 records, which is all that this program takes",
        })
    }
}

// The first line that is at fault, counted from 1, and what is wrong with it.
#[derive(Clone, Copy)]
pub struct Fault {
    pub line: usize,
    pub problem: Problem,
}

impl fmt::Display for Fault {
    fn fmt<W: fmt::Write>(&self, f: &mut fmt::Formatter<W>) -> fmt::Result {
        write!(f, "line {}: {}", self.line, self.problem)
    }
}
