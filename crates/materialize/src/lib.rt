// Materialise: a tree's packed parts become trees. The output goes whole with the number of a cell in it, since links name numbers.
#![tactic(auto)]

ghost use Rattle.std.specs.Prelude.{◌≡◌, ℕ, ◌+◌, ◌-◌, ◌*◌, ◌/◌, ◌≤◌, ◌<◌, List, [], ◌∷◌, length, get_or};
ghost use Rattle.words.specs.Words.{front, last_of, record_width};
ghost use Rattle.tree.specs.Cells.{cells, cell_width, next_place};
ghost use Rattle.rules.specs.Calls.{materialise_call};
ghost use Rattle.words.specs.Refusal.{answered};
ghost use Rattle.materialize.specs.Answer.{materialized_counts};
ghost use Rattle.materialize.specs.Steps.{ended, first_link, next_link, Taken, Put, Open, Moved, inner_count, Packed, Unpacked, trees_left, cells_before, NextCell, NextPart, Next, Wrote, Ready, weight, unpacked, ahead};

use tree::{CELL_WIDTH, COUNT, Cell, FIRST, HandedIn, ID, KIND, Kind, LENGTH, NEXT, POSITION};
use words::{RECORD_WIDTH, Refusal};

// A tree by itself: what its cell says of it, the links aside. The kind goes from cell to cell as the word that it is.
#[derive(Clone, Copy)]
struct Node {
    kind: u32,
    id: u32,
    start: u32,
    len: u32,
}

// Where the writing stands: how many cells are still to come, and how many trees and siblings have no parent yet.
#[derive(Clone, Copy)]
struct Place {
    cell: usize,
    trees: usize,
    marks: usize,
}

// Ends the links of the siblings that are taken: the last one of them has no next.
#[tactic(auto, unfolding(crate::specs::Steps::ended))]
fn end_links(roots: &[u32], kept: usize, sp: usize, out: &mut [u32])
    requires kept_in_bounds { kept < sp → kept < length roots.now }
    requires next_place_in_bounds { kept < sp → get_or roots.now kept 0 * cell_width + next_place < length out.old }
    ensures { out.new ≡ ended roots.now out.old kept sp }
{
    if sp <= kept {
        return;
    }
    out[roots[kept] as usize * CELL_WIDTH + NEXT] = 0;
}

// A cell's link to its first child.
#[tactic(auto, unfolding(crate::specs::Steps::first_link))]
fn first_child(cell: usize, kept: usize, sp: usize) -> u32
    requires { kept < sp → cell + 2 < 4294967296 }
    ensures { result ≡ first_link cell kept sp }
{
    if sp <= kept {
        return 0;
    }
    (cell + 2) as u32
}

// The link to the first of the siblings that are not taken.
#[tactic(auto, unfolding(crate::specs::Steps::next_link))]
fn next_sibling(roots: &[u32], kept: usize) -> u32
    requires kept_in_bounds { kept ≤ length roots.now }
    requires kept_bound { 0 < kept → get_or roots.now (kept - 1) 0 < 4294967295 }
    ensures { result ≡ next_link roots.now kept }
{
    if kept == 0 {
        return 0;
    }
    roots[kept - 1] + 1
}

// Writes a tree before its siblings: of the `sp` that have no parent yet it takes all but `kept` as its children.
// The stack `roots` is lent whole, with its height: a tree without children goes on top of it.
fn push(roots: &mut [u32], kept: usize, sp: usize, out: &mut [u32], cell: usize, node: Node)
    requires { Taken roots.old out.old cell kept sp }
    ensures { Put roots.old roots.new out.old out.new cell kept sp node.kind node.id node.start node.len }
{
    let first = first_child(cell, kept, sp);
    let next = next_sibling(&*roots, kept);
    end_links(&*roots, kept, sp, out);
    tree::put_cell(
        out,
        cell * CELL_WIDTH,
        Cell {
            kind: node.kind,
            id: node.id,
            position: node.start,
            length: node.len,
            first,
            count: (sp - kept) as u32,
            next,
        },
    );
    roots[kept] = cell as u32;
}

// Hands the siblings before the cell `limit` on to a tree that starts at `start`: they count their positions from there. How many are
// left.
fn hand_over(roots: &[u32], limit: usize, start: u32, out: &mut [u32]) -> usize
    requires { Open roots.now out.old limit }
    ensures { Moved roots.now out.old out.new limit start result }
{
    for left in (0..roots.len()).rev() {
        let root = roots[left] as usize;
        if limit <= root {
            return left + 1;
        }
        out[root * CELL_WIDTH + POSITION] = out[root * CELL_WIDTH + POSITION].saturating_sub(start);
    }
    0
}

// How many records stand in record i, by its end index.
#[tactic(auto, unfolding(crate::specs::Steps::inner_count))]
fn inside(part: &[u16], i: usize) -> usize
    requires { i * record_width + record_width ≤ length part.now }
    ensures { result ≡ inner_count (last_of part.now i) (i * record_width) }
{
    let end = usize::from(part[i * RECORD_WIDTH + 3]);
    end.saturating_sub(i * RECORD_WIDTH + RECORD_WIDTH) / RECORD_WIDTH
}

// Writes the records of a part as trees, from the last one back: the first becomes the cell `cell`. `position` is the part's; `sp`
// siblings follow. How many siblings there are then.
fn unpack_part(
    part: &[u16],
    position: u32,
    roots: &mut [u32],
    sp: usize,
    out: &mut [u32],
    cell: usize,
) -> usize
    requires { Packed roots.old out.old cell position sp part.now }
    ensures { Unpacked roots.old roots.new out.old out.new cell position sp part.now result }
{
    let mut left = sp;
    for i in (0..part.len() / RECORD_WIDTH).rev() {
        let at = i * RECORD_WIDTH;
        let start = position + u32::from(part[at + 1]);
        let limit = cell + i + 1 + inside(part, i);
        let kept = sp + hand_over(&roots[sp..left], limit, start, out);
        let node = Node {
            kind: Kind::Tree as u32,
            id: u32::from(part[at]),
            start,
            len: u32::from(part[at + 2].saturating_sub(part[at + 1])),
        };
        push(roots, kept, left, out, cell + i, node);
        left = kept + 1;
    }
    left
}

// How many of the trees stay where `left` of `at.marks` siblings do.
#[tactic(auto, unfolding(crate::specs::Steps::trees_left))]
fn staying(marks: &[u32], at: Place, left: usize) -> usize
    requires { at.marks ≤ length marks.now }
    ensures { result ≡ trees_left marks.now at.trees at.marks left }
{
    if at.marks <= left {
        return at.trees;
    }
    marks[left] as usize
}

// Writes the cell i, a tree, before the siblings behind it: as many as it counts are its children.
fn place_tree(
    cells: &[u32],
    i: usize,
    roots: &mut [u32],
    marks: &mut [u32],
    out: &mut [u32],
    at: Place,
) -> Place
    requires { NextCell roots.old marks.old out.old cells.now i at.cell at.trees at.marks }
    ensures { (ws : List ℕ) → Wrote roots.old roots.new marks.old marks.new out.old out.new cells.now ws i at.cell at.trees at.marks result.cell result.trees result.marks }
{
    let left = at
        .marks
        .saturating_sub(cells[i * CELL_WIDTH + COUNT] as usize);
    let kept = staying(&*marks, at, left);
    let node = Node {
        kind: cells[i * CELL_WIDTH + KIND],
        id: cells[i * CELL_WIDTH + ID],
        start: cells[i * CELL_WIDTH + POSITION],
        len: cells[i * CELL_WIDTH + LENGTH],
    };
    push(roots, kept, at.trees, out, at.cell - 1, node);
    marks[left] = kept as u32;
    Place {
        cell: at.cell - 1,
        trees: kept + 1,
        marks: left + 1,
    }
}

// Writes the records of the cell i, a part, before the siblings behind it.
fn place_part(
    t: HandedIn<'_>,
    i: usize,
    roots: &mut [u32],
    marks: &mut [u32],
    out: &mut [u32],
    at: Place,
) -> Place
    requires { NextPart roots.old marks.old out.old t.cells.now t.words.now i at.cell at.trees at.marks }
    ensures { Wrote roots.old roots.new marks.old marks.new out.old out.new t.entry.cells.now t.entry.words.now i at.cell at.trees at.marks result.cell result.trees result.marks }
{
    let from = t.cells[i * CELL_WIDTH + FIRST] as usize;
    let count = t.cells[i * CELL_WIDTH + COUNT] as usize;
    let part = &t.words[from..from + count];
    let cell = at.cell - count / RECORD_WIDTH;
    let position = t.cells[i * CELL_WIDTH + POSITION];
    let trees = unpack_part(part, position, roots, at.trees, out, cell);
    marks[at.marks] = at.trees as u32;
    Place {
        cell,
        trees,
        marks: at.marks + 1,
    }
}

// Writes the cell i before the siblings behind it.
fn place_cell(
    t: HandedIn<'_>,
    i: usize,
    roots: &mut [u32],
    marks: &mut [u32],
    out: &mut [u32],
    at: Place,
) -> Place
    requires { Next roots.old marks.old out.old t.cells.now t.words.now i at.cell at.trees at.marks }
    ensures { Wrote roots.old roots.new marks.old marks.new out.old out.new t.entry.cells.now t.entry.words.now i at.cell at.trees at.marks result.cell result.trees result.marks }
{
    if Kind::Part.is(t.cells[i * CELL_WIDTH + KIND]) {
        return place_part(t, i, roots, marks, out, at);
    }
    place_tree(t.cells, i, roots, marks, out, at)
}

// Writes the cells of a tree that keeps the rules, with its parts unpacked, from the last one back. `roots` has a word for each of them,
// `marks` one for each cell that is handed in.
fn write_back(t: HandedIn<'_>, roots: &mut [u32], marks: &mut [u32], out: &mut [u32])
    requires { Ready roots.old marks.old out.old t.cells.now t.words.now }
    ensures { out.new ≡ front (Rattle.tree.specs.Cells.cells 1 0 (unpacked (ahead t.entry.cells.now t.entry.words.now 0))) out.old }
{
    let mut at = Place {
        cell: roots.len(),
        trees: 0,
        marks: 0,
    };
    for i in (0..t.cells.len() / CELL_WIDTH).rev() {
        at = place_cell(t, i, roots, marks, out, at);
    }
}

// How many cells come of one, by its words.
#[tactic(auto, unfolding(crate::specs::Steps::weight))]
fn cell_weight(kind: u32, count: u32) -> usize
    ensures { result ≡ weight kind count }
{
    if Kind::Part.is(kind) {
        return count as usize / RECORD_WIDTH;
    }
    1
}

// How many cells the result has.
#[tactic(auto, using(crate::proofs::Finishing::before_more))]
fn count_cells(cells: &[u32]) -> usize
    requires { cells_before cells.now (length cells.now / cell_width) ≤ 18446744073709551615 }
    ensures { result ≡ cells_before cells.now (length cells.now / cell_width) }
{
    let mut total: usize = 0;
    for i in 0..cells.len() / CELL_WIDTH {
        total += cell_weight(cells[i * CELL_WIDTH + KIND], cells[i * CELL_WIDTH + COUNT]);
    }
    total
}

// Materialise: 1, 11, 15, 12; then the cells of the tree with its packed records as trees: how many cells. It does not look at the node
// set: a tree or record of id 0 is one of kind 1 with id 0, whatever place 0 of the set is. The two slices of the tree stand apart, as in
// the export; a struct would ask more of callers.
#[tactic(auto, using(crate::proofs::Calling::many_cells, crate::proofs::Calling::little_room, crate::proofs::Calling::all_written, crate::proofs::Calling::total_small))]
pub fn materialize(
    types: u32,
    cells: &[u32],
    words: &[u16],
    work: &mut [u32],
    out: &mut [u32],
) -> Result<usize, Refusal>
    ensures { record { outcome = answered materialized_counts result; outputs = out.new ∷ [] } ≡ materialise_call types cells.now words.now (length work.old) out.old }
{
    let t = HandedIn { cells, words };
    cells::accept(t, types, 0, work)?;
    let total = count_cells(cells);
    if 4294967295 < total {
        return Err(Refusal::LittleCells);
    }
    if out.len() / CELL_WIDTH < total {
        return Err(Refusal::LittleCells);
    }
    let (roots, marks) = work.split_at_mut(total);
    write_back(t, roots, marks, out);
    Ok(total)
}
