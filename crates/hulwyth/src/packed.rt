// The packed records of a part, as lines of the outline.
ghost use Rattle.std.specs.Prelude.{◌≤◌, length};

use crate::names::Names;
use crate::output::Page;
use std::fmt;
use std::fmt::Write;
use words::RECORD_WIDTH;

// The records of a part, where its range starts, and how deep its own line stands in the outline.
#[derive(Clone, Copy)]
pub struct Part<'a> {
    pub words: &'a [u16],
    pub start: u32,
    pub depth: u32,
}

pub fn print_indent(page: &mut Page, depth: usize) {
    for _ in 0..depth {
        page.put(b"  ");
    }
}

// The records of a part, each under the one around it. `ends` has room for the end indices of those around a record, and
// `held` says how many are in it: the program allocates nothing.
pub fn print_part(page: &mut Page, names: &Names, part: Part<'_>, ends: &mut [u16]) -> fmt::Result
    requires { length part.words.now ≤ length ends.old }
{
    let from = u64::from(part.start);
    let mut held = 0;
    for (i, record) in part.words.as_chunks::<RECORD_WIDTH>().0.iter().enumerate() {
        let [id, start, end, end_index] = *record;
        held = part::still_open(&ends[..held], i * RECORD_WIDTH);
        print_indent(page, part.depth as usize + 1 + held);
        names.print_id(page, u32::from(id))?;
        writeln!(
            page,
            " {}..{}",
            from + u64::from(start),
            from + u64::from(end)
        )?;
        ends[held] = end_index;
        held += 1;
    }
    Ok(())
}
