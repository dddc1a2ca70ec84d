// Listing: the lines of a tree that is handed in as cells and packed words. After the tree check the lines are counted, then written, in
// passes over the cells in order, no recursion; the records of a part are read where its cell stands.
#![tactic(auto)]

ghost use Rattle.std.specs.Prelude.{◌≡◌, cond, [], ◌∷◌, ◌+◌, ◌-◌, ◌*◌, ◌/◌, ◌<◌, ◌≤◌, length};
ghost use Rattle.tree.specs.Cells.{cell_width, cell_next};
ghost use Rattle.words.specs.Words.{front};
ghost use Rattle.tree.specs.Calls.{list_cells};
ghost use Rattle.rules.specs.Calls.{list_call};
ghost use Rattle.words.specs.Refusal.{answered};
ghost use Rattle.listing.specs.Answer.{listed_counts};
ghost use Rattle.listing.specs.Steps.{is_listed, own_line, cell_lines, lines_from, noted, child_of, links_noted, Ready, LineReady, PartLinesReady, CellReady, Lent};

use tree::{
    CELL_WIDTH, COUNT, FIRST, HandedIn, ID, KIND, Kind, LENGTH, LINE_WIDTH, NEXT, POSITION,
};
use words::Refusal;

// The most lines: the depth of each fits 32 bits.
const MOST_LINES: usize = 4294967295;

// Where a cell stands: the start of its parent, and its depth.
#[derive(Clone, Copy)]
struct Level {
    base: u32,
    depth: u32,
}

// Does cell i, counted from 0, have a line of its own? The top aside.
#[tactic(auto, unfolding(crate::specs::Steps::is_listed))]
fn is_listed(cells: &[u32], first_repeat: u32, i: usize) -> bool
    requires { i * cell_width + cell_width ≤ length cells.now }
    ensures { result ≡ is_listed first_repeat cells.now i }
{
    Kind::Tree.is(cells[i * CELL_WIDTH + KIND]) && cells[i * CELL_WIDTH + ID] < first_repeat
}

// How many of the cells have a line of their own.
#[tactic(auto, using(crate::proofs::Writes::count_hit, crate::proofs::Writes::count_miss, crate::proofs::Writes::count_end))]
fn count_lines(cells: &[u32], first_repeat: u32) -> usize
    ensures { result ≡ lines_from first_repeat cells.now 1 (length cells.now / cell_width - 1) }
{
    let mut count: usize = 0;
    for i in 1..cells.len() / CELL_WIDTH {
        if is_listed(cells, first_repeat, i) {
            count += 1;
        }
    }
    count
}

// Notes where cell x, counted from 1, stands, unless x names none.
#[tactic(auto, unfolding(crate::specs::Steps::noted))]
fn note(notes: &mut [u32], x: u32, level: Level)
    requires { x * 2 ≤ length notes.old }
    ensures { notes.new ≡ noted notes.old x level.base level.depth }
{
    if x == 0 {
        return;
    }
    let at = (x as usize - 1) * 2;
    notes[at] = level.base;
    notes[at + 1] = level.depth;
}

// The depth below a cell.
fn depth_below(depth: u32, listed: bool) -> u32
    requires { depth < 4294967295 }
    ensures { result ≡ cond listed (depth + 1) depth }
{
    if listed { depth + 1 } else { depth }
}

// Writes the line of cell i, a tree, if it has one, and answers how many words it has.
#[tactic(auto, using(crate::proofs::Writes::own_some, crate::proofs::Writes::four_words, crate::proofs::Writes::no_words, crate::proofs::Writes::front_none))]
fn put_tree(cells: &[u32], first_repeat: u32, i: usize, level: Level, lines: &mut [u32]) -> usize
    requires { LineReady first_repeat cells.now i level.base level.depth (length lines.old) }
    ensures value { result ≡ length (own_line first_repeat cells.now i level.base level.depth) }
    ensures lines_after { lines.new ≡ front (own_line first_repeat cells.now i level.base level.depth) lines.old }
{
    if is_listed(cells, first_repeat, i) {
        let start = level.base + cells[i * CELL_WIDTH + POSITION];
        let end = start + cells[i * CELL_WIDTH + LENGTH];
        words::put(
            lines,
            0,
            [level.depth, cells[i * CELL_WIDTH + ID], start, end],
        );
        return LINE_WIDTH;
    }
    0
}

// Writes the lines of cell i, a part, and answers how many words they have. `ends` is for the end indices of the records around the
// present one.
fn put_part(
    t: HandedIn<'_>,
    first_repeat: u32,
    i: usize,
    level: Level,
    ends: &mut [u32],
    lines: &mut [u32],
) -> usize
    requires { PartLinesReady first_repeat t.cells.now t.words.now i level.base level.depth (length ends.old) (length lines.old) }
    ensures value { result ≡ length (cell_lines first_repeat t.entry.cells.now t.entry.words.now i level.base level.depth) }
    ensures lines_after { lines.new ≡ front (cell_lines first_repeat t.entry.cells.now t.entry.words.now i level.base level.depth) lines.old }
{
    let Level { base, depth } = level;
    let from = t.cells[i * CELL_WIDTH + FIRST] as usize;
    let count = t.cells[i * CELL_WIDTH + COUNT] as usize;
    let part = &t.words[from..from + count];
    let position = t.cells[i * CELL_WIDTH + POSITION];
    let start = base + position;
    part_lines::list_part(part, first_repeat, start, depth, ends, lines)
}

// Writes the lines of cell i.
#[tactic(auto, using(crate::proofs::Lines::lines_other))]
fn put_lines(
    t: HandedIn<'_>,
    first_repeat: u32,
    i: usize,
    level: Level,
    ends: &mut [u32],
    lines: &mut [u32],
) -> usize
    requires { CellReady first_repeat t.cells.now t.words.now i level.base level.depth (length ends.old) (length lines.old) }
    ensures value { result ≡ length (cell_lines first_repeat t.entry.cells.now t.entry.words.now i level.base level.depth) }
    ensures lines_after { lines.new ≡ front (cell_lines first_repeat t.entry.cells.now t.entry.words.now i level.base level.depth) lines.old }
{
    if tree::is_part(t.cells, i) {
        return put_part(t, first_repeat, i, level, ends, lines);
    }
    put_tree(t.cells, first_repeat, i, level, lines)
}

// The first child's cell; a part has none.
#[tactic(auto, unfolding(crate::specs::Steps::child_of))]
fn first_child(cells: &[u32], i: usize) -> u32
    requires { i * cell_width + cell_width ≤ length cells.now }
    ensures { result ≡ child_of cells.now i }
{
    if tree::is_part(cells, i) {
        return 0;
    }
    cells[i * CELL_WIDTH + FIRST]
}

// Notes what the cells that cell i names by next and by first need.
#[tactic(auto, unfolding(crate::specs::Steps::links_noted))]
fn note_links(cells: &[u32], first_repeat: u32, i: usize, level: Level, notes: &mut [u32])
    requires ready { Ready cells.now i level.base level.depth }
    requires i_in_bounds { (child_of cells.now i * 2 ≤ length notes.old) × (cell_next cells.now i * 2 ≤ length notes.old) }
    ensures { notes.new ≡ links_noted first_repeat cells.now notes.old i level.base level.depth }
{
    let inner = Level {
        base: level.base + cells[i * CELL_WIDTH + POSITION],
        depth: depth_below(level.depth, is_listed(cells, first_repeat, i)),
    };
    note(notes, cells[i * CELL_WIDTH + NEXT], level);
    note(notes, first_child(cells, i), inner);
}

// Writes the lines of accepted cells. Two words of `notes` for each cell, noted before it is reached: the start of its parent and its
// depth. `ends` has a word for each packed record.
#[tactic(auto, using(crate::proofs::Writes::at_fits))]
fn write_lines(
    t: HandedIn<'_>,
    first_repeat: u32,
    start: u32,
    notes: &mut [u32],
    ends: &mut [u32],
    lines: &mut [u32],
)
    requires { Lent first_repeat start t.cells.now t.words.now (length notes.old) (length ends.old) (length lines.old) }
    ensures { lines.new ≡ front (list_cells first_repeat start t.entry.cells.now t.entry.words.now) lines.old }
{
    let cells = t.cells;
    let n = cells.len() / CELL_WIDTH;
    let top = Level {
        base: start,
        depth: 0,
    };
    note(notes, cells[FIRST], top);
    let mut at: usize = 0;
    for i in 1..n {
        let level = Level {
            base: notes[i * 2],
            depth: notes[i * 2 + 1],
        };
        note_links(cells, first_repeat, i, level, notes);
        at += put_lines(t, first_repeat, i, level, ends, &mut lines[at..]);
    }
}

// The call `list`: 1, 11, 15, 14; then the lines. How many they are. It does not look at the node set: id 0 is listed where it is
// ordinary, whatever place 0 of the set is. The two slices of the tree stand apart, as in the export; a struct
// would ask more of callers.
#[tactic(auto, using(crate::proofs::Cases::too_many, crate::proofs::Cases::little_room, crate::proofs::Cases::all_written))]
pub fn list(
    types: u32,
    first_repeat: u32,
    start: u32,
    cells: &[u32],
    words: &[u16],
    work: &mut [u32],
    lines: &mut [u32],
) -> Result<usize, Refusal>
    ensures { record { outcome = answered listed_counts result; outputs = lines.new ∷ [] } ≡ list_call types first_repeat start cells.now words.now (length work.old) lines.old }
{
    let t = HandedIn { cells, words };
    cells::accept(t, types, start, work)?;
    let n = cells.len() / CELL_WIDTH;
    let own = count_lines(cells, first_repeat);
    let packed = part_lines::count_listed(words, first_repeat);
    let count = own + packed;
    if MOST_LINES < count {
        return Err(Refusal::LittleLines);
    }
    if lines.len() / LINE_WIDTH < count {
        return Err(Refusal::LittleLines);
    }
    let (notes, ends) = work.split_at_mut(n * 2);
    write_lines(t, first_repeat, start, notes, ends, lines);
    Ok(count)
}
