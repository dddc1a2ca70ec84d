// One step of the take loop: a tree is closed, or the last record is passed over or taken.
ghost use Rattle.std.specs.Prelude.{◌≡◌, ◌+◌, ◌≤◌, ◌<◌};
ghost use Rattle.store.specs.Store.{node_width};
ghost use Rattle.take.specs.Starting.{Starts};
ghost use Rattle.take.specs.Loop.{own_at, WithPart, TookRecord, Unfinished, Stepped};
ghost use Rattle.take.specs.Steps.{Passes, Passed, Closes, Closed, Opens, Opened, Deepens, Deepened};

use crate::nodes::start_node;
use crate::waiting::{FRAME_WIDTH, pop_frame, push_frame};
use crate::{BuiltNode, PendingNode, StartedNode, State};
use gathering::Gathering;
use store::NODE_WIDTH;
use words::RECORD_WIDTH;

// A tree below more trees than these goes to flat parts.
const MOST_OPEN: usize = 2500;

// A memo of nothing: no walk got past place p.
fn no_memo(p: usize) -> scan::Memo
    requires { p < 4294967296 }
    ensures { p ≤ result.place }
{
    scan::Memo {
        place: p as u32,
        start: 0,
        mark: 0,
        edge: 0,
    }
}

// Passes over the last record, which has the tree's own id.
fn pass_record(records: &[u32], bound: u32, work: &mut [u32], s: State) -> State
    requires { Passes records.now work.old bound s }
    ensures { Passed records.now work.old work.new bound s result }
{
    let p = s.p - 1;
    let r = records::record_at(records, p);
    let children = gathering::pass_over(work, r.id, r.end, bound, s.children);
    State { p, children, ..s }
}

// Finishes the tree that is read, in front of the children of the tree around it, which is read on.
fn close_tree(records: &[u32], work: &mut [u32], s: State) -> State
    requires { Closes records.now work.old s }
    ensures { Closed records.now work.old work.new s result }
{
    let depth = s.depth - 1;
    let f = pop_frame(work, records.len() / RECORD_WIDTH + 1 + FRAME_WIDTH * depth);
    let made = gathering::finish_node(
        work,
        s.low,
        s.tree.id,
        s.tree.start,
        s.tree.end,
        s.children,
        f.loose,
    );
    let children = Gathering {
        top: made.top,
        groups: f.groups,
        loose: made.node,
        edge: f.edge,
    };
    State {
        depth,
        tree: f.tree,
        children,
        memo: f.memo,
        ..s
    }
}

// Reads on inside a tree: the tree around it waits, with the memo of its scans.
fn open_tree(records: &[u32], work: &mut [u32], s: State, next: PendingNode) -> State
    requires { Opens records.now work.old s next.node next.memo }
    ensures { Opened records.now work.old work.new s next.node next.memo result }
{
    let p = s.p - 1;
    push_frame(
        work,
        records.len() / RECORD_WIDTH + 1 + FRAME_WIDTH * s.depth,
        s.tree,
        s.children,
        next.memo,
    );
    let children = Gathering {
        groups: 0,
        loose: 0,
        edge: next.node.end,
        ..s.children
    };
    State {
        p,
        depth: s.depth + 1,
        tree: next.node,
        children,
        memo: no_memo(p),
        ..s
    }
}

// Takes a tree deeper than 2,500 whole: its records go to flat parts, and it stands in front of the children of the tree around it.
fn take_deep(
    records: &[u32],
    first_repeat: u32,
    bound: u32,
    work: &mut [u32],
    s: State,
    next: PendingNode,
) -> State
    requires { Deepens first_repeat bound records.now work.old s next.node next.memo }
    ensures { Deepened first_repeat bound records.now work.old work.new s next.node next.memo result }
{
    let node = next.node;
    let p = node.floor as usize;
    let own = cursor::in_repeat(first_repeat, node.id);
    let inner = Gathering {
        groups: 0,
        loose: 0,
        edge: node.end,
        ..s.children
    };
    let flat = flat::take_flat(records, s.p - 1, p, own, bound, work, s.low, inner);
    let made = gathering::finish_node(
        work,
        flat.low,
        node.id,
        node.start,
        node.end,
        flat.g,
        s.children.loose,
    );
    let children = Gathering {
        top: made.top,
        loose: made.node,
        ..s.children
    };
    State {
        p,
        low: flat.low,
        children,
        memo: next.memo,
        ..s
    }
}

// What the children of the tree that is read stand under: the outermost is the top, which is no repeat tree.
fn own_at(first_repeat: u32, depth: usize, id: u32) -> Option<u32>
    ensures { result ≡ own_at first_repeat depth id }
{
    if depth == 0 {
        return None;
    }
    cursor::in_repeat(first_repeat, id)
}

// The part stands in front of the children of the tree that is read.
fn with_part(s: State, node: BuiltNode) -> State
    requires node_width_bound { s.children.top + node_width < 4294967296 }
    requires p_bound { node.p < 4294967296 }
    ensures { WithPart s node result }
{
    let children = Gathering {
        top: s.children.top + NODE_WIDTH,
        loose: node.node,
        ..s.children
    };
    State {
        p: node.p,
        low: node.low,
        children,
        memo: no_memo(node.p),
        ..s
    }
}

// Takes the last record, which has not the tree's own id.
fn take_record(
    records: &[u32],
    first_repeat: u32,
    bound: u32,
    own: Option<u32>,
    work: &mut [u32],
    s: State,
) -> State
    requires { Starts first_repeat bound own records.now work.old s }
    ensures { TookRecord first_repeat bound own records.now work.old work.new s result }
{
    match start_node(records, first_repeat, bound, own, work, s) {
        StartedNode::Built(node) => with_part(s, node),
        StartedNode::Pending(next) => {
            if MOST_OPEN < s.depth {
                return take_deep(records, first_repeat, bound, work, s, next);
            }
            open_tree(records, work, s, next)
        }
    }
}

// One step of the take loop.
pub fn step(records: &[u32], first_repeat: u32, bound: u32, work: &mut [u32], s: State) -> State
    requires { Unfinished first_repeat bound records.now work.old s }
    ensures { Stepped first_repeat bound records.now work.old work.new s result }
{
    if s.p <= s.tree.floor as usize {
        return close_tree(records, work, s);
    }
    let own = own_at(first_repeat, s.depth, s.tree.id);
    if cursor::is_own(own, records::record_at(records, s.p - 1).id) {
        return pass_record(records, bound, work, s);
    }
    take_record(records, first_repeat, bound, own, work, s)
}
