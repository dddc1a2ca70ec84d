// Internal.
// The build and the tree calls: definitions in specs/, their laws and the two-run theorem in proofs/. In code only a cell with its width,
// the places of its words and its kinds, the function that writes one, the width of a line, a tree that is handed in, and what a call tells that
// writes a tree.
#![tactic(auto)]

ghost use Rattle.std.specs.Prelude.{◌≡◌, ◌+◌, ◌*◌, ◌≤◌, length, eqb};
ghost use Rattle.words.specs.Words.{put};
ghost use Rattle.tree.specs.Cells.{cell_width, cell_kind, cell};
ghost use Rattle.tree.specs.Kind.{kind_word};

// How many words a cell has.
pub const CELL_WIDTH: usize = 7;

// The places of a cell's words.
pub const KIND: usize = 0;

pub const ID: usize = 1;

pub const POSITION: usize = 2;

pub const LENGTH: usize = 3;

pub const FIRST: usize = 4;

pub const COUNT: usize = 5;

pub const NEXT: usize = 6;

// "kind (1 tree, 2 packed part, 3 tree of `NodeType::none`)"
#[derive(Clone, Copy, Debug, PartialEq, Eq)]
pub enum Kind {
    Tree = 1,
    Part = 2,
    Untyped = 3,
}

impl Kind {
    // Is this the kind that a cell's word names?
    pub fn is(self, word: u32) -> bool
        ensures { result ≡ eqb word (kind_word self) }
    {
        word == self as u32
    }
}

// How many words a line has.
pub const LINE_WIDTH: usize = 4;

// A cell's words. The kind stays one: a cell that is handed in may hold any number there.
#[derive(Clone, Copy, Debug, PartialEq, Eq)]
pub struct Cell {
    pub kind: u32,
    pub id: u32,
    pub position: u32,
    pub length: u32,
    pub first: u32,
    pub count: u32,
    pub next: u32,
}

// A cell from an index on. The index stands beside the slice, since callers speak of the whole slice before and after.
pub fn put_cell(out: &mut [u32], at: usize, c: Cell)
    requires { at + cell_width ≤ length out.old }
    ensures { out.new ≡ put out.old at (cell c.kind c.id c.position c.length c.first c.count c.next) }
{
    words::put(
        out,
        at,
        [c.kind, c.id, c.position, c.length, c.first, c.count, c.next],
    );
}

// Internal. Is cell i a part?
pub fn is_part(cells: &[u32], i: usize) -> bool
    requires { i * cell_width + cell_width ≤ length cells.now }
    ensures { result ≡ eqb (cell_kind cells.now i) 2 }
{
    Kind::Part.is(cells[i * CELL_WIDTH + KIND])
}

// A tree that is handed in: its cells, and the words of its parts.
#[derive(Clone, Copy)]
pub struct HandedIn<'a> {
    pub cells: &'a [u32],
    pub words: &'a [u16],
}

// How many cells and packed words a call wrote.
#[derive(Clone, Copy, Debug, PartialEq, Eq)]
pub struct Written {
    pub cells: usize,
    pub words: usize,
}
