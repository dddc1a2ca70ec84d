// The words of a tree and of its listing, as tables.
use crate::names::Names;
use crate::output::Page;
use std::fmt;
use std::fmt::Write;
use text::Spaced;
use tree::{CELL_WIDTH, LINE_WIDTH};
use words::RECORD_WIDTH;

// The cells, one a line, each with its number.
pub fn print_cells(page: &mut Page, cells: &[[u32; CELL_WIDTH]]) -> fmt::Result {
    page.put(b"cells: kind id position length first count next\n");
    for (i, cell) in cells.iter().enumerate() {
        writeln!(page, " {}:{}", i + 1, Spaced(cell))?;
    }
    Ok(())
}

// The packed words, a record's four a line, each with its offset.
pub fn print_words(page: &mut Page, words: &[u16]) -> fmt::Result {
    page.put(b"words: id start end end-index\n");
    for (i, record) in words.chunks_exact(RECORD_WIDTH).enumerate() {
        writeln!(page, " {}:{}", i * RECORD_WIDTH, Spaced(record))?;
    }
    Ok(())
}

// The lines of a listing: depth, id with its name, start, end.
pub fn print_lines(page: &mut Page, names: &Names, lines: &[u32]) -> fmt::Result {
    page.put(b"listing: depth id start end\n");
    for line in lines.as_chunks::<LINE_WIDTH>().0 {
        let [depth, id, start, end] = *line;
        write!(page, " {depth} ")?;
        names.print_id(page, id)?;
        writeln!(page, " {start} {end}")?;
    }
    Ok(())
}
