// Internal, for the build.
// The take loop of the build: records are read from the last one back, and each becomes a part, a tree, or a tree whose children are
// read next while the tree around it waits in a frame of the work slice.
#![tactic(auto)]

mod nodes;
mod stepping;
mod waiting;

ghost use Rattle.std.specs.Prelude.{◌≡◌, ℕ};
ghost use Rattle.take.specs.Loop.{ended, Begins, BeginsAt, TakenAll};

use stepping::step;

// A tree: its id, its range, and the record at which its span begins.
#[derive(Clone, Copy)]
pub struct Node {
    pub id: u32,
    pub start: u32,
    pub end: u32,
    pub floor: u32,
}

// A tree that waits while a tree inside it is read: what it has gathered, and the memo of its scans.
#[derive(Clone, Copy)]
pub struct Frame {
    pub tree: Node,
    pub groups: u32,
    pub loose: u32,
    pub edge: u32,
    pub memo: scan::Memo,
}

// Where the build stands: how many records are left, how many trees wait, the lowest packed word, the tree that is read, what it has
// gathered, and the memo of its scans.
#[derive(Clone, Copy)]
pub struct State {
    pub p: usize,
    pub depth: usize,
    pub low: u32,
    pub tree: Node,
    pub children: gathering::Gathering,
    pub memo: scan::Memo,
}

// A part that is built: the records left behind it, its lowest word and its node.
#[derive(Clone, Copy)]
pub struct BuiltNode {
    pub p: usize,
    pub low: u32,
    pub node: u32,
}

// A tree whose children are to be read, and the memo of the scan that found no run.
#[derive(Clone, Copy)]
pub struct PendingNode {
    pub node: Node,
    pub memo: scan::Memo,
}

// What a record that is taken has become: an enum of these two structs, as document 01 asks (docs/DECISIONS.md, Forms).
#[derive(Clone, Copy)]
pub enum StartedNode {
    Built(BuiltNode),
    Pending(PendingNode),
}

// Are all records read, and no tree waits?
fn finished(s: State) -> bool
    ensures { result ≡ ended s }
{
    s.depth == 0 && s.p <= s.tree.floor as usize
}

// The first-level trees of a list: their first node, the store's top and the lowest packed word.
#[derive(Clone, Copy)]
pub struct FirstLevel {
    pub top: u32,
    pub low: u32,
    pub kids: u32,
}

// Reads all records from the last one back. The work slice has the counts of repeat records in its front.
pub fn take_nodes(
    records: &[u32],
    first_repeat: u32,
    bound: u32,
    work: &mut [u32],
    from: State,
) -> FirstLevel
    requires { Begins first_repeat bound records.now work.old from }
    ensures { (S : ℕ) (q : BeginsAt first_repeat bound S records.now work.old from) → TakenAll first_repeat bound S records.now work.new result.top result.low result.kids }
{
    let mut s = from;
    // A `while`: a step takes up a record, a run or a tree, or closes a tree.
    while !finished(s) {
        s = step(records, first_repeat, bound, work, s);
    }
    FirstLevel {
        top: s.children.top,
        low: s.low,
        kids: s.children.loose,
    }
}
