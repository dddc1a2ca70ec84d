// `Tree::balance` of a tree that is handed in as cells and packed words. After the tree check the cells become nodes of the store:
// one pass in order notes where each cell's parent starts, one from the last cell back adds the nodes. The top's children are then
// balanced, and one pass writes the result out. The work slice goes whole where nodes stand in it, as in `store`.
#![tactic(auto)]

ghost use Rattle.std.specs.Prelude.{◌≡◌, [], ◌∷◌, ℕ, ◌+◌, ◌*◌, ◌/◌, ◌<◌, ◌≤◌, length, get_or};
ghost use Rattle.tree.specs.Cells.{cell_width};
ghost use Rattle.words.specs.Refusal.{answered};
ghost use Rattle.tree.specs.Trees.{Trees};
ghost use Rattle.tree.specs.Written.{written_counts};
ghost use Rattle.tree.specs.Balance.{balanced};
ghost use Rattle.store.specs.Store.{node_width};
ghost use Rattle.rules.specs.Calls.{handed_in, balance_call};
ghost use Rattle.balance.specs.Steps.{Given, noted, Linked, links_noted, Based, kind_stored, address, Building, Standing, settled_tree, Lent};

use balance_core::{Made, Parent};
use store::{FIRST_OF_SET, NODE_CELLS, NODE_WIDTH, NODE_WORDS, NONE, NodeType};
use tree::{CELL_WIDTH, COUNT, FIRST, HandedIn, ID, KIND, Kind, LENGTH, NEXT, POSITION, Written};
use words::{RECORD_WIDTH, Refusal};

// Puts the packed words into words of 32 bits.
fn stage_words(words: &[u16], staged: &mut [u32])
    requires { length words.now ≤ length staged.old }
    ensures { (k : ℕ) → k < length words.now → get_or staged.new k 0 ≡ get_or words.now k 0 }
{
    for i in 0..words.len() {
        staged[i] = u32::from(words[i]);
    }
}

// Notes the start of the parent of cell x, counted from 1, unless x names none.
#[tactic(auto, unfolding(crate::specs::Steps::noted))]
fn note(bases: &mut [u32], x: u32, base: u32)
    requires { x ≤ length bases.old }
    ensures { bases.new ≡ noted bases.old x base }
{
    if x != 0 {
        bases[x as usize - 1] = base;
    }
}

// Notes what the cells that cell i names by next and by first need.
#[tactic(auto, unfolding(crate::specs::Steps::links_noted))]
fn note_links(cells: &[u32], i: usize, bases: &mut [u32])
    requires { Linked cells.now bases.old i }
    ensures { bases.new ≡ links_noted cells.now bases.old i }
{
    let base = bases[i];
    note(bases, cells[i * CELL_WIDTH + NEXT], base);
    if tree::is_part(cells, i) {
        return;
    }
    note(
        bases,
        cells[i * CELL_WIDTH + FIRST],
        base + cells[i * CELL_WIDTH + POSITION],
    );
}

// Notes the start of each cell's parent, one word for each cell.
fn note_bases(t: HandedIn<'_>, bases: &mut [u32])
    requires given { Given t.cells.now t.words.now (length t.cells.now / cell_width) }
    requires room { length t.cells.now / cell_width ≤ length bases.old }
    ensures { Based bases.new (length t.entry.cells.now / cell_width) (handed_in t.entry.cells.now t.entry.words.now) }
{
    bases[0] = 0;
    for i in 0..t.cells.len() / CELL_WIDTH {
        note_links(t.cells, i, bases);
    }
}

// The address of the node of cell x, counted from 1; 0 for none.
#[tactic(auto, unfolding(crate::specs::Steps::address))]
fn node_of(high: u32, x: u32) -> u32
    requires { x * node_width ≤ high }
    ensures { result ≡ address high x }
{
    if x == 0 {
        return 0;
    }
    high - x * NODE_WIDTH
}

// The kind by which the store has a tree's cell, by the cell's two words (see `NodeType`): where place 0 of the set is none, that of kind 1
// with id 0 compares as none.
fn stored_kind(none_first: bool, kind: u32, id: u32) -> u32
    ensures { result ≡ kind_stored none_first kind id }
{
    if none_first && Kind::Tree.is(kind) && id == 0 {
        return FIRST_OF_SET;
    }
    kind
}

// Adds the node of cell i before those of the cells after it.
fn push_cell(none_first: bool, t: HandedIn<'_>, i: usize, high: u32, low: u32, work: &mut [u32])
    requires i_in_bounds { i < length t.cells.now / cell_width }
    requires building { Building none_first work.old t.cells.now t.words.now (length t.cells.now / cell_width) high low (i + 1) }
    ensures { Building none_first work.new t.entry.cells.now t.entry.words.now (length t.entry.cells.now / cell_width) high low i }
{
    let cells = t.cells;
    let top = high - (i as u32 + 1) * NODE_WIDTH;
    let start = work[i] + cells[i * CELL_WIDTH + POSITION];
    let next = node_of(high, cells[i * CELL_WIDTH + NEXT]);
    if tree::is_part(cells, i) {
        store::push_part(
            work,
            top,
            start,
            cells[i * CELL_WIDTH + LENGTH],
            low + cells[i * CELL_WIDTH + FIRST],
            cells[i * CELL_WIDTH + COUNT],
            next,
        );
        return;
    }
    let first = node_of(high, cells[i * CELL_WIDTH + FIRST]);
    let id = cells[i * CELL_WIDTH + ID];
    let own = NodeType {
        kind: stored_kind(none_first, cells[i * CELL_WIDTH + KIND], id),
        id,
    };
    store::push_tree(
        work,
        top,
        own,
        start,
        cells[i * CELL_WIDTH + LENGTH],
        first,
        next,
    );
}

// Adds the nodes of all cells.
fn push_cells(none_first: bool, t: HandedIn<'_>, high: u32, low: u32, work: &mut [u32])
    requires { Building none_first work.old t.cells.now t.words.now (length t.cells.now / cell_width) high low (length t.cells.now / cell_width) }
    ensures { Building none_first work.new t.entry.cells.now t.entry.words.now (length t.entry.cells.now / cell_width) high low 0 }
{
    for i in (0..t.cells.len() / CELL_WIDTH).rev() {
        push_cell(none_first, t, i, high, low, work);
    }
}

// The tree with its children balanced, if there are more than 8.
#[tactic(auto, using(crate::proofs::Rebuilding::left_alone))]
fn rebuild(none_first: bool, t: HandedIn<'_>, high: u32, low: u32, work: &mut [u32]) -> Made
    requires building { Building none_first work.old t.cells.now t.words.now (length t.cells.now / cell_width) high low 0 }
    requires room { length t.cells.now / cell_width * 35 ≤ low }
    ensures { Standing work.new result.top result.node (balanced none_first (handed_in t.entry.cells.now t.entry.words.now)) }
{
    let cells = t.cells;
    let count = cells[COUNT];
    if count <= 8 {
        return Made {
            top: high,
            node: high - NODE_WIDTH,
        };
    }
    let kids = node_of(high, cells[FIRST]);
    let size = balance_core::row_size(work, kids, count, NONE);
    let id = cells[ID];
    let parent = Parent {
        own: NodeType {
            kind: stored_kind(none_first, Kind::Tree as u32, id),
            id,
        },
        start: 0,
        length: cells[LENGTH],
    };
    balance_core::balance_range(work, high, low, kids, count, size, NONE, parent, 0)
}

// `LittleCells`, `LittleWords`, or the tree is written out.
#[tactic(auto, using(crate::proofs::Writing::cells_refused, store::proofs::Counts::nodes_any))]
fn write_out(
    work: &mut [u32],
    top: u32,
    root: u32,
    out: &mut [u32],
    packed: &mut [u16],
) -> Result<Written, Refusal>
    requires { (ts : Trees) × Standing work.old top root ts }
    ensures { (ts : Trees) → Standing work.old top root ts → record { outcome = answered written_counts result; outputs = out.new ∷ packed.new ∷ [] } ≡ settled_tree ts out.old packed.old }
{
    let cells = store::tell(work, root, NODE_CELLS) as usize;
    let words = store::tell(work, root, NODE_WORDS) as usize;
    if out.len() / CELL_WIDTH < cells {
        return Err(Refusal::LittleCells);
    }
    if packed.len() < words {
        return Err(Refusal::LittleWords);
    }
    store::write_cells(work, top, root, 0, out, packed);
    Ok(Written { cells, words })
}

// Balance of accepted cells. Of the work slice the first 96 × items + 96 words are used: at their end the packed words, in front one
// word and a node of ten words for each cell, between them the nodes that balancing adds.
fn balance_accepted(
    none_first: bool,
    t: HandedIn<'_>,
    work: &mut [u32],
    out: &mut [u32],
    packed: &mut [u16],
) -> Result<Written, Refusal>
    requires { Lent t.cells.now t.words.now (length work.old) }
    ensures { record { outcome = answered written_counts result; outputs = out.new ∷ packed.new ∷ [] } ≡ settled_tree (balanced none_first (handed_in t.entry.cells.now t.entry.words.now)) out.old packed.old }
{
    let n = t.cells.len() / CELL_WIDTH;
    let end = (n + t.words.len() / RECORD_WIDTH) * 96 + 96;
    let first = end - t.words.len();
    stage_words(t.words, &mut work[first..end]);
    note_bases(t, &mut work[..n]);
    let high = (n * 11) as u32;
    let low = first as u32;
    push_cells(none_first, t, high, low, work);
    let made = rebuild(none_first, t, high, low, work);
    write_out(work, made.top, made.node, out, packed)
}

// The most items whose 96 × items + 96 words of work 32-bit words can name.
const MOST_ITEMS: usize = 44739241;

// Balance: `ManyTypes`, `LittleWork`, `Cell`, `LittleCells`, `LittleWords`; then the cells and words of the balanced tree. Where place 0 of the set is none, a cell of kind 1 with
// id 0 counts as one of kind 3 wherever types are compared. The two slices of the tree stand apart, as in the export; a
// struct would ask more of callers.
#[tactic(auto, using(crate::proofs::Calling::refuses_many, crate::proofs::Calling::settles))]
pub fn balance(
    types: u32,
    none_first: bool,
    cells: &[u32],
    words: &[u16],
    work: &mut [u32],
    out: &mut [u32],
    packed: &mut [u16],
) -> Result<Written, Refusal>
    ensures { record { outcome = answered written_counts result; outputs = out.new ∷ packed.new ∷ [] } ≡ balance_call types none_first cells.now words.now (length work.old) out.old packed.old }
{
    let t = HandedIn { cells, words };
    cells::accept(t, types, 0, work)?;
    if MOST_ITEMS < cells.len() / CELL_WIDTH + words.len() / RECORD_WIDTH {
        return Err(Refusal::LittleCells);
    }
    balance_accepted(none_first, t, work, out, packed)
}
