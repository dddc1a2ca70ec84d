// Internal, for the calls that take a tree: what they test first.
// Most of it is the tree check: the cell rules of document 01 (refusal 15) and the lowest cell that breaks one. Two passes over the
// cells and no recursion: chain lengths from the last cell back, then the rules from cell 1 on, with the open links in a part of the
// work slice.
#![tactic(auto)]

mod broken;
mod linking;
mod parts;

ghost use Rattle.std.specs.Prelude.{◌≡◌, [], ◌∷◌, ◌+◌, ◌*◌, ◌/◌, ◌≤◌, min, length, ltb};
ghost use Rattle.words.specs.Words.{record_width};
ghost use Rattle.tree.specs.Cells.{cell_width};
ghost use Rattle.rules.specs.Cell.{cells_of};
ghost use Rattle.rules.specs.Lowest.{lowest_from, top_named, bad_cell};
ghost use Rattle.rules.specs.Calls.{items};
ghost use Rattle.cells.specs.Accept.{Tested};
ghost use Rattle.cells.specs.Read.{cell_of};
ghost use Rattle.cells.specs.Steps.{cell_at, cell_or_none, Given};
ghost use Rattle.cells.specs.Parts.{Room};

use broken::cell_broken;
use linking::{chain_lengths, name_if, placed, push_names, read_link};
use parts::{last_part, words_end};
use tree::{CELL_WIDTH, COUNT, Cell, FIRST, HandedIn, ID, KIND, LENGTH, NEXT, POSITION};
use words::{RECORD_WIDTH, Refusal};

// What a link says of the cell that it names: where the sibling before it ends, the length of its parent (the largest word
// where that is the top) and its parent's absolute start.
#[derive(Clone, Copy)]
pub struct Link {
    pub after: u32,
    pub within: u32,
    pub base: u32,
}

// The open links: how many there are, and the lowest cell that is sure to be out of place, one past the last cell for none, so
// that the lower of two is a minimum.
#[derive(Clone, Copy)]
pub struct Names {
    pub top: usize,
    pub limit: usize,
}

// What is the same for every cell: the tree, the type count, the lengths of the chains from each cell on, and the last part's cell, 0
// for none.
#[derive(Clone, Copy)]
pub struct Setting<'a> {
    pub tree: HandedIn<'a>,
    pub types: u32,
    pub lengths: &'a [u32],
    pub last: usize,
}

// Cell i + 1.
fn read_cell(cells: &[u32], i: usize) -> Cell
    requires { i * cell_width + cell_width ≤ length cells.now }
    ensures { cell_of result ≡ cell_at cells.now i }
{
    Cell {
        kind: cells[i * CELL_WIDTH + KIND],
        id: cells[i * CELL_WIDTH + ID],
        position: cells[i * CELL_WIDTH + POSITION],
        length: cells[i * CELL_WIDTH + LENGTH],
        first: cells[i * CELL_WIDTH + FIRST],
        count: cells[i * CELL_WIDTH + COUNT],
        next: cells[i * CELL_WIDTH + NEXT],
    }
}

// The number of the lowest cell that breaks a rule. `links` is room for the open links, four words each; `indices` and `ends` are
// room for the part check.
fn check_cells(
    g: Setting<'_>,
    start: u32,
    links: &mut [u32],
    indices: &mut [u16],
    ends: &mut [u32],
) -> Option<usize>
    requires given { Given g.tree.cells.now g.types g.last g.lengths.now (length links.old) }
    requires room { Room (length g.tree.words.now) (length indices.old) (length ends.old) }
    ensures { result ≡ cell_or_none (lowest_from g.entry.types g.entry.tree.words.now (length g.entry.lengths.now) 1 0 (top_named start ∷ []) (cells_of g.entry.tree.cells.now)) }
{
    let n = g.lengths.len();
    let none = Names {
        top: 0,
        limit: n + 1,
    };
    let first = Link {
        after: 0,
        within: u32::MAX,
        base: start,
    };
    let mut s = name_if(links, none, 1, first);
    let mut w: usize = 0;
    for i in 0..n {
        let c = i + 1;
        if !placed(links, s, c) {
            return Some(i + 1);
        }
        let d = read_link(links, s.top);
        let k = read_cell(g.tree.cells, i);
        if cell_broken(k, g, i, w, d, indices, ends) {
            return Some(c);
        }
        let older = Names {
            top: s.top - 1,
            ..s
        };
        s = push_names(links, i, older, k, d);
        w = words_end(k, w);
    }
    None
}

// 11: "work slice below 96 × items + 96 words of 32 bits".
#[tactic(auto, unfolding(rules::specs::Calls::items))]
pub fn too_little_work(t: HandedIn<'_>, work: &[u32]) -> bool
    ensures { result ≡ ltb (length work.now) (96 * items t.entry.cells.now t.entry.words.now + 96) }
{
    work.len() < 96
        || (work.len() - 96) / 96 < t.cells.len() / CELL_WIDTH + t.words.len() / RECORD_WIDTH
}

// The tree check with room for the end indices of the records around one. The work slice is divided: the lengths of the chains, the open
// links, and the ends of the records around.
#[tactic(auto, using(crate::proofs::Walking::bad_empty, crate::proofs::Walking::bad_ragged, crate::proofs::Walking::bad_named), unfolding(rules::specs::Calls::items))]
fn check_tree(
    t: HandedIn<'_>,
    types: u32,
    start: u32,
    indices: &mut [u16],
    work: &mut [u32],
) -> Option<usize>
    requires types_bound { types ≤ 65536 }
    requires words_in_bounds { 96 * items t.cells.now t.words.now + 96 ≤ length work.old }
    requires record_width_in_bounds { min (length t.words.now / record_width) 16383 ≤ length indices.old }
    ensures { result ≡ bad_cell types start t.entry.cells.now t.entry.words.now }
{
    if t.cells.is_empty() || t.cells.len() % CELL_WIDTH != 0 {
        return Some(0);
    }
    let n = t.cells.len() / CELL_WIDTH;
    let last = last_part(t.cells, n);
    let (lengths, rest) = work.split_at_mut(n);
    let (links, ends) = rest.split_at_mut(n * 4 + 8);
    chain_lengths(t.cells, lengths);
    let g = Setting {
        tree: t,
        types,
        lengths,
        last,
    };
    check_cells(g, start, links, indices, ends)
}

// The tree check with an array of N end indices, which is large enough for the packed words.
fn check_within<const N: usize>(
    t: HandedIn<'_>,
    types: u32,
    start: u32,
    work: &mut [u32],
) -> Option<usize>
    requires types_bound { types ≤ 65536 }
    requires words_in_bounds { 96 * items t.cells.now t.words.now + 96 ≤ length work.old }
    requires room { min (length t.words.now / record_width) 16383 ≤ N }
    requires size { N ≤ 16383 }
    ensures { result ≡ bad_cell types start t.entry.cells.now t.entry.words.now }
{
    let mut indices = [0u16; N];
    check_tree(t, types, start, &mut indices, work)
}

// The tree check, after refusals 1 and 11: the lowest cell that breaks a cell rule; 0 where the cells' slice is empty or no multiple of
// 7. Absolute ends are counted from `start`. For few packed words a small array of end indices is enough: clearing a large one would take
// longer than the check. The array is made before anything else is tested here: a function that returns before it sets up so large a
// frame was seen to be compiled wrong. `tests/c/frames` looks in the compiled code that each is set up first.
pub fn tree_check(t: HandedIn<'_>, types: u32, start: u32, work: &mut [u32]) -> Option<usize>
    requires types_bound { types ≤ 65536 }
    requires words_in_bounds { 96 * items t.cells.now t.words.now + 96 ≤ length work.old }
    ensures { result ≡ bad_cell types start t.entry.cells.now t.entry.words.now }
{
    if t.words.len() <= 1024 {
        return check_within::<256>(t, types, start, work);
    }
    check_within::<16383>(t, types, start, work)
}

// What a call that takes a tree tests first: `ManyTypes`, `LittleWork`, `Cell`. Absolute ends are counted from `start`.
#[tactic(auto, using(rules::proofs::CallLaws::types_refused, rules::proofs::CallLaws::work_refused, rules::proofs::CallLaws::cell_refused))]
pub fn accept(t: HandedIn<'_>, types: u32, start: u32, work: &mut [u32]) -> Result<(), Refusal>
    ensures { Tested types start t.entry.cells.now t.entry.words.now (length work.old) result }
{
    if 65536 < types {
        return Err(Refusal::ManyTypes);
    }
    if too_little_work(t, &*work) {
        return Err(Refusal::LittleWork);
    }
    if let Some(at) = tree_check(t, types, start, work) {
        return Err(Refusal::Cell(at));
    }
    Ok(())
}
