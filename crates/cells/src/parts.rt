// The packed parts of cells: whether a part keeps its rules, abuts and fits, and whether words are left.
ghost use Rattle.std.specs.Prelude.{◌≡◌, cond, ◌+◌, ◌*◌, ◌<◌, ◌≤◌, length, get_or, ltb};
ghost use Rattle.tree.specs.Cells.{cell_width};
ghost use Rattle.rules.specs.PartLowest.{part_kept};
ghost use Rattle.rules.specs.Lowest.{part_broken, words_end};
ghost use Rattle.cells.specs.Read.{cell_of};
ghost use Rattle.cells.specs.Steps.{Last, stray_test};
ghost use Rattle.cells.specs.Parts.{past_parent, Room};

use crate::Setting;
use part::Progress;
use tree::{CELL_WIDTH, Cell, KIND, Kind};
use words::RECORD_WIDTH;

// The number of the last part's cell; 0 for none, which names no cell, as in the cells themselves: it is compared at each cell.
pub fn last_part(cells: &[u32], n: usize) -> usize
    requires { n * cell_width ≡ length cells.now }
    ensures { Last cells.now n result }
{
    for last in (1..=n).rev() {
        if Kind::Part.is(cells[(last - 1) * CELL_WIDTH + KIND]) {
            return last;
        }
    }
    0
}

// Does a record that ends at `end` end past its parent? `ends` has the ends of the t records around it, the outermost first.
#[tactic(auto, unfolding(crate::specs::Parts::past_parent))]
fn past_parent(ends: &[u32], t: usize, end: u32) -> bool
    requires { t ≤ length ends.now }
    ensures { result ≡ past_parent ends.now t end }
{
    t != 0 && ends[t - 1] < end
}

// Where the next record starts at the earliest: at the end of the outermost record that ended, or at `low`.
fn earliest_start(ends: &[u32], t: usize, top: usize, low: u32) -> u32
    requires { (t ≤ top) × (top ≤ length ends.now) }
    ensures { result ≡ cond (ltb t top) (get_or ends.now t 0) low }
{
    if t < top {
        return ends[t];
    }
    low
}

// Does a part of this length keep the rules: 16 to 20, the greatest end within the length, and its records' ranges? `indices` and
// `ends` are room for the end indices of the records around the present one, and for their ends.
fn part_kept(part: &[u16], types: u32, len: u32, indices: &mut [u16], ends: &mut [u32]) -> bool
    requires room { Room (length part.now) (length indices.old) (length ends.old) }
    requires types_bound { types ≤ 65536 }
    ensures { result ≡ part_kept types len part.now }
{
    if part.len() % RECORD_WIDTH != 0 {
        return false;
    }
    let mut s = Progress::START;
    let mut low: u32 = 0;
    for i in 0..part.len() / RECORD_WIDTH {
        let Ok(next) = part::check_record(part, types, 0, i, indices, s) else {
            return false;
        };
        let t = next.top - 1;
        let start = u32::from(part[i * RECORD_WIDTH + 1]);
        let end = u32::from(part[i * RECORD_WIDTH + 2]);
        if past_parent(ends, t, end) {
            return false;
        }
        if start < earliest_start(ends, t, s.top, low) {
            return false;
        }
        ends[t] = end;
        s = next;
        low = start;
    }
    u32::from(s.greatest) <= len
}

// Words after the last part: against that part's cell, or cell 1.
#[tactic(auto, unfolding(crate::specs::Steps::stray_test))]
pub fn stray_broken(g: Setting<'_>, i: usize, k: Cell) -> bool
    requires { i < length g.lengths.now }
    ensures { result ≡ stray_test (length g.entry.tree.words.now) i g.entry.last (cell_of k) }
{
    let size = g.tree.words.len();
    if i + 1 < g.last {
        return false;
    }
    if Kind::Part.is(k.kind) {
        return k.first as usize + k.count as usize != size;
    }
    i == 0 && size != 0
}

// Does the part of a cell not abut, not fit or not keep its rules? The parts before it end at the word w.
#[tactic(auto, unfolding(rules::specs::Lowest::part_broken))]
pub fn part_broken(k: Cell, g: Setting<'_>, w: usize, indices: &mut [u16], ends: &mut [u32]) -> bool
    requires room { Room (length g.tree.words.now) (length indices.old) (length ends.old) }
    requires types_bound { g.types ≤ 65536 }
    ensures { result ≡ part_broken g.entry.types g.entry.tree.words.now w (cell_of k) }
{
    if !Kind::Part.is(k.kind) {
        return false;
    }
    let first = k.first as usize;
    if first != w {
        return true;
    }
    let end = first + k.count as usize;
    if g.tree.words.len() < end {
        return true;
    }
    let part = &g.tree.words[first..end];
    !part_kept(part, g.types, k.length, indices, ends)
}

// Where the parts up to this cell end.
#[tactic(auto, unfolding(rules::specs::Lowest::words_end))]
pub fn words_end(k: Cell, w: usize) -> usize
    ensures { result ≡ words_end w (cell_of k) }
{
    if Kind::Part.is(k.kind) {
        return k.first as usize + k.count as usize;
    }
    w
}
