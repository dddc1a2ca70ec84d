// Internal: the build reads the record of a tree through it.
// The reader: a record list with a place in it, read from the last record back. A place is the number of records before it.
#![tactic(auto)]

ghost use Rattle.std.specs.Prelude.{◌≡◌, ◌/◌, length};
ghost use Rattle.std.specs.Iterator.{item_count};
ghost use Rattle.words.specs.Words.{record_width};
ghost use Rattle.reader.specs.Before.{Readable, StepsBack, record_before, records_before};

use records::record_at;
use words::RECORD_WIDTH;

// A record, and the place before it.
#[derive(Clone, Copy)]
pub struct Record {
    pub own: records::Record,
    pub before: usize,
}

// The records before a place, which come from the last one back.
#[derive(Clone, Copy)]
pub struct Reader<'a> {
    pub records: &'a [u32],
    pub at: usize,
}

impl<'a> Reader<'a> {
    // At the end of the list, where reading begins.
    pub fn new(records: &'a [u32]) -> Reader<'a>
        ensures { (result.records ≡ records.entry) × (result.at ≡ length records.now / record_width) }
    {
        Reader {
            records,
            at: records.len() / RECORD_WIDTH,
        }
    }

    // The record before the place.
    pub fn read(self) -> Record
        requires { Readable self.records.now self.at }
        ensures { result ≡ record_before self.entry.records.now self.entry.at }
    {
        let Reader { records, at } = self;
        let before = at - 1;
        Record {
            own: record_at(records, before),
            before,
        }
    }
}

impl<'a> Iterator for Reader<'a> {
    type Item = Record;

    ghost next_gives = { StepsBack };

    ghost remaining = { item_count (λ s. records_before s.records.now s.at) };

    // One record back. Before a place behind the list stands none.
    fn next(&mut self) -> Option<Record> {
        if self.at == 0 {
            return None;
        }
        if self.records.len() / RECORD_WIDTH < self.at {
            self.at -= 1;
            return None;
        }
        let last = self.read();
        self.at = last.before;
        Some(last)
    }
}

// The last record before place p, which the build keeps as a number.
pub fn last_record(records: &[u32], p: usize) -> Record
    requires { Readable records.now p }
    ensures { result ≡ record_before records.now p }
{
    Reader { records, at: p }.read()
}
