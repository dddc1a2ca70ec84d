// Internal, for the build and the balance call.
// A store of trees in the work slice. A node is written once and never changed, so what its address denotes stays true while
// the store grows; one pass writes a list of trees out as preorder cells and packed words.
// Functions take the work slice whole with a place in it: addresses count from its front, and nodes, lists that wait and staged words share
// the one slice that the caller lends, nodes upwards from its front and words downwards from its end. Whether an address can be read is a
// fact of both slice and address, so that it stands in each contract: a struct would have to hold the slice, which one node alone could then
// borrow.
#![tactic(auto)]

ghost use Rattle.std.specs.Prelude.{◌≡◌, ℕ, max, ◌+◌, ◌-◌, ◌*◌, ◌≤◌, ◌<◌, eqb, cond};
ghost use lib.ListN.{length, get_or};
ghost use Rattle.tree.specs.Cells.{cell_width};
ghost use Rattle.words.specs.Words.{put};
ghost use Rattle.store.specs.Store.{told, typed, kind_written, liked, liked_on, word, Readable, PushedTree, PushedPart, StagedMore, tree_cell, PartReady, PartWritten, Writable, Wrote, TopReady, TopWrote, node_width, node_kind, node_id, node_start, node_length, node_first, node_next, node_cells_place};

use tree::{CELL_WIDTH, Cell, Kind};

// How many words a node has.
pub const NODE_WIDTH: u32 = 10;

// The places of a node's words.
pub const NODE_KIND: usize = 0;

pub const NODE_ID: usize = 1;

pub const NODE_START: usize = 2;

pub const NODE_LENGTH: usize = 3;

pub const NODE_FIRST: usize = 4;

pub const NODE_NEXT: usize = 5;

pub const NODE_CELLS: usize = 6;

pub const NODE_WORDS: usize = 7;

pub const NODE_TREES: usize = 8;

pub const NODE_LIKE: usize = 9;

// A node's type as its two words: the kind of a tree with any id, of an untyped one with id 0, or `FIRST_OF_SET` with id 0. The kind stays
// a word: an enum would be made of it at each read and turned back at each write, for one comparison modulo 4.
#[derive(Clone, Copy)]
pub struct NodeType {
    pub kind: u32,
    pub id: u32,
}

// The type of trees that have none.
pub const NONE: NodeType = NodeType {
    kind: Kind::Untyped as u32,
    id: 0,
};

// The kind of a node that stands for a tree of id 0 where place 0 of the set is none.
pub const FIRST_OF_SET: u32 = 7;

// Kinds that are equal modulo this compare as equal: `FIRST_OF_SET` as that of `NONE`, any other as itself alone.
const KINDS: u32 = 4;

// Word k of a node, 0 where there is none.
pub fn tell(work: &[u32], node: u32, k: usize) -> u32
    requires readable { Readable work.now node }
    requires k_lt_node_width { k < node_width }
    ensures { result ≡ told work.now node k }
{
    if node == 0 {
        return 0;
    }
    work[node as usize + k]
}

// What a node says of its own tree. A part has kind 2; its id is how many words it has, and `first` where they stand.
#[derive(Clone, Copy)]
pub struct Node {
    pub own: NodeType,
    pub start: u32,
    pub length: u32,
    pub first: u32,
    pub next: u32,
}

// A node's words up to the next sibling's address.
pub fn node_at(work: &[u32], node: u32) -> Node
    requires { node + node_width ≤ length work.now }
    ensures kind { result.own.kind ≡ node_kind work.now node }
    ensures id { result.own.id ≡ node_id work.now node }
    ensures start { result.start ≡ node_start work.now node }
    ensures length { result.length ≡ node_length work.now node }
    ensures first { result.first ≡ node_first work.now node }
    ensures next { result.next ≡ node_next work.now node }
{
    let n = node as usize;
    Node {
        own: NodeType {
            kind: work[n + NODE_KIND],
            id: work[n + NODE_ID],
        },
        start: work[n + NODE_START],
        length: work[n + NODE_LENGTH],
        first: work[n + NODE_FIRST],
        next: work[n + NODE_NEXT],
    }
}

// Is a node's type this one?
pub fn same_type(work: &[u32], node: u32, own: NodeType) -> bool
    requires { node + node_width ≤ length work.now }
    ensures { result ≡ typed work.now node own.kind own.id }
{
    let n = node as usize;
    work[n + NODE_KIND] % KINDS == own.kind % KINDS && work[n + NODE_ID] == own.id
}

// One more than a list's balanced size where all its trees have this type, else 0.
pub fn like(work: &[u32], node: u32, own: NodeType) -> u32
    requires { Readable work.now node }
    ensures { result ≡ liked work.now node own.kind own.id }
{
    if node == 0 {
        return 1;
    }
    if same_type(work, node, own) {
        return work[node as usize + NODE_LIKE];
    }
    0
}

// What is told of a tree of this size before a list of which `b` is told.
fn like_on(size: u32, b: u32) -> u32
    ensures { result ≡ liked_on size b }
{
    if b == 0 {
        return 0;
    }
    size.saturating_add(b)
}

// A tree over the list `kids`, before the list `next`.
pub fn push_tree(
    work: &mut [u32],
    top: u32,
    own: NodeType,
    start: u32,
    length: u32,
    kids: u32,
    next: u32,
) -> u32
    requires node_width_bound { top + node_width ≤ lib.ListN.length work.old }
    requires readable { Readable work.old kids }
    requires readable_2 { Readable work.old next }
    ensures { PushedTree work.old work.new top own.kind own.id start length kids next result }
{
    let cells = tell(work, kids, NODE_CELLS)
        .saturating_add(tell(work, next, NODE_CELLS))
        .saturating_add(1);
    let words = tell(work, kids, NODE_WORDS).saturating_add(tell(work, next, NODE_WORDS));
    let trees = tell(work, next, NODE_TREES).saturating_add(1);
    let size = like(work, kids, own).max(1);
    let sizes = like_on(size, like(work, next, own));
    words::put(
        work,
        top as usize,
        [
            own.kind, own.id, start, length, kids, next, cells, words, trees, sizes,
        ],
    );
    top
}

// A part whose words stand at `from`, before the list `next`.
pub fn push_part(
    work: &mut [u32],
    top: u32,
    start: u32,
    length: u32,
    from: u32,
    count: u32,
    next: u32,
) -> u32
    requires node_width_bound { top + node_width ≤ lib.ListN.length work.old }
    requires readable { Readable work.old next }
    ensures { PushedPart work.old work.new top start length from count next result }
{
    let cells = tell(work, next, NODE_CELLS).saturating_add(1);
    let words = count.saturating_add(tell(work, next, NODE_WORDS));
    let trees = tell(work, next, NODE_TREES).saturating_add(1);
    words::put(
        work,
        top as usize,
        [
            Kind::Part as u32,
            count,
            start,
            length,
            from,
            next,
            cells,
            words,
            trees,
            0,
        ],
    );
    top
}

// Stages a word of a part below those that stand from `low` on.
pub fn stage(work: &mut [u32], low: u32, x: u16) -> u32
    requires le_low { 1 ≤ low }
    requires low_in_bounds { low ≤ length work.old }
    ensures { StagedMore work.old work.new low x result }
{
    let at = low - 1;
    work[at as usize] = u32::from(x);
    at
}

// A cell's number as a link, 0 where there is no node.
fn link(node: u32, number: usize) -> u32
    requires { number < 4294967296 }
    ensures { result ≡ cond (eqb node 0) 0 number }
{
    if node == 0 {
        return 0;
    }
    number as u32
}

// Copies words of 16 bits that stand in words of 32.
fn copy_words(words: &[u32], out: &mut [u16])
    requires same_length { length words.now ≡ length out.old }
    requires narrow { (k : ℕ) → k < length words.now → get_or words.now k 0 < 65536 }
    ensures { out.new ≡ words.now }
{
    for (i, x) in words.iter().enumerate() {
        out[i] = *x as u16;
    }
}

// The kind of the cell that a tree's node is written as, both as words (see `NodeType`).
fn kind_written(kind: u32) -> u32
    ensures { result ≡ kind_written kind }
{
    if kind == FIRST_OF_SET {
        return Kind::Tree as u32;
    }
    kind
}

// The cell of the tree at n, after `cell` others: cells go by their numbers in the whole output, which links name.
fn write_tree(work: &[u32], n: usize, from: u32, out: &mut [u32], cell: usize)
    requires node_width_in_bounds { n + node_width ≤ length work.now }
    requires readable { Readable work.now (node_first work.now n) }
    requires cell_width_in_bounds { cell * cell_width + cell_width ≤ length out.old }
    requires node_cells_place_bound { cell + 2 + told work.now (node_first work.now n) node_cells_place < 4294967296 }
    ensures { out.new ≡ put out.old (cell * cell_width) (tree_cell work.now n from cell) }
{
    let kids = work[n + NODE_FIRST];
    let below = tell(work, kids, NODE_CELLS);
    let made = Cell {
        kind: kind_written(work[n + NODE_KIND]),
        id: work[n + NODE_ID],
        position: work[n + NODE_START].saturating_sub(from),
        length: work[n + NODE_LENGTH],
        first: link(kids, cell + 2),
        count: tell(work, kids, NODE_TREES),
        next: link(work[n + NODE_NEXT], cell + 2 + below as usize),
    };
    tree::put_cell(out, cell * CELL_WIDTH, made);
}

// The cell of the part at n, after `cell` others, and its words, after `word` others: how many.
fn write_part(
    work: &[u32],
    n: usize,
    from: u32,
    out: &mut [u32],
    cell: usize,
    words: &mut [u16],
    word: usize,
) -> usize
    requires { PartReady work.now n cell (length out.old) word (length words.old) }
    ensures { PartWritten work.now n from cell word out.old out.new words.old words.new result }
{
    let first = work[n + NODE_FIRST] as usize;
    let count = work[n + NODE_ID] as usize;
    copy_words(&work[first..first + count], &mut words[word..word + count]);
    let made = Cell {
        kind: Kind::Part as u32,
        id: 0,
        position: work[n + NODE_START].saturating_sub(from),
        length: work[n + NODE_LENGTH],
        first: word as u32,
        count: work[n + NODE_ID],
        next: link(work[n + NODE_NEXT], cell + 2),
    };
    tree::put_cell(out, cell * CELL_WIDTH, made);
    count
}

// Writes a list of trees out as cells and packed words. Pending lists stand from `top` on, two words each.
pub fn write_cells(
    work: &mut [u32],
    top: u32,
    root: u32,
    start: u32,
    out: &mut [u32],
    words: &mut [u16],
)
    requires { Writable work.old top root (length out.old) (length words.old) }
    ensures { Wrote work.old top root start out.old out.new words.old words.new }
{
    let bottom = top as usize;
    let mut at = root;
    let mut from = start;
    let mut sp = bottom;
    let mut cell: usize = 0;
    let mut word: usize = 0;
    // A `loop`: links are followed, and lists wait on a stack.
    loop {
        if at == 0 {
            if sp == bottom {
                return;
            }
            at = work[sp - 2];
            from = work[sp - 1];
            sp -= 2;
            continue;
        }
        let n = at as usize;
        let next = work[n + NODE_NEXT];
        if Kind::Part.is(work[n + NODE_KIND]) {
            word += write_part(work, n, from, out, cell, words, word);
            cell += 1;
            at = next;
            continue;
        }
        write_tree(work, n, from, out, cell);
        at = work[n + NODE_FIRST];
        let own = work[n + NODE_START];
        words::put(work, sp, [next, from]);
        from = own;
        sp += 2;
        cell += 1;
    }
}

// A top over a list of trees, written out.
pub fn write_top(
    work: &mut [u32],
    top: u32,
    id: u32,
    start: u32,
    length: u32,
    kids: u32,
    out: &mut [u32],
    words: &mut [u16],
)
    requires { TopReady work.old top kids (lib.ListN.length out.old) (lib.ListN.length words.old) }
    ensures { TopWrote work.old top id start length kids out.old out.new words.old words.new }
{
    let own = NodeType {
        kind: Kind::Tree as u32,
        id,
    };
    let root = push_tree(work, top, own, start, length, kids, 0);
    write_cells(work, top + NODE_WIDTH, root, start, out, words);
}
