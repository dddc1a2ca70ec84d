// Internal, for the build.
// What a tree gathers, closed and finished: the group rule for records of a repeat tree's own id, and `finish_node`. The work slice
// goes whole with places in it, as in `store`.
#![tactic(auto)]

ghost use Rattle.std.specs.Prelude.{◌+◌, ◌≤◌, ◌<◌, length};
ghost use Rattle.store.specs.Store.{Readable, node_width};
ghost use Rattle.gathering.specs.Gathering.{Closed, PassedOver, RestClosed, GroupsReady, GroupsBalanced, FinishReady, Finished};

use balance_core::{Made, Parent};
use store::{NODE_TREES, NODE_WIDTH, NodeType};
use tree::Kind;

// What a tree has gathered: closed groups, the children since then, the last group end.
#[derive(Clone, Copy)]
pub struct Gathering {
    pub top: u32,
    pub groups: u32,
    pub loose: u32,
    pub edge: u32,
}

// The loose children become a group of the id from `start` to the last group end.
fn make_repeat_leaf(work: &mut [u32], id: u32, start: u32, g: Gathering) -> Gathering
    requires node_width_in_bounds { g.top + node_width ≤ length work.old }
    requires node_width_bound { g.top + node_width < 4294967296 }
    requires readable { Readable work.old g.groups }
    requires readable_2 { Readable work.old g.loose }
    ensures { Closed work.old work.new g.top id start g.groups g.loose g.edge result.top result.groups result.loose result.edge }
{
    let length = g.edge.saturating_sub(start);
    let own = NodeType {
        kind: Kind::Tree as u32,
        id,
    };
    let groups = store::push_tree(work, g.top, own, start, length, g.loose, g.groups);
    Gathering {
        top: g.top + NODE_WIDTH,
        groups,
        loose: 0,
        edge: start,
    }
}

// Passes over a record of the tree's own id: where its end and the bound come to at most the last group end, the children
// since then form a group.
pub fn pass_over(work: &mut [u32], id: u32, end: u32, bound: u32, g: Gathering) -> Gathering
    requires node_width_in_bounds { g.top + node_width ≤ length work.old }
    requires node_width_bound { g.top + node_width < 4294967296 }
    requires readable { Readable work.old g.groups }
    requires readable_2 { Readable work.old g.loose }
    ensures { PassedOver work.old work.new g.top id end bound g.groups g.loose g.edge result.top result.groups result.loose result.edge }
{
    if u64::from(end) + u64::from(bound) <= u64::from(g.edge) {
        return make_repeat_leaf(work, id, end, g);
    }
    g
}

// Children left over after a first group form one from the tree's start.
fn close_rest(work: &mut [u32], id: u32, start: u32, g: Gathering) -> Gathering
    requires node_width_in_bounds { g.top + node_width ≤ length work.old }
    requires node_width_bound { g.top + node_width < 4294967296 }
    requires readable { Readable work.old g.groups }
    requires readable_2 { Readable work.old g.loose }
    ensures { RestClosed work.old work.new g.top id start g.groups g.loose g.edge result.top result.groups result.loose result.edge }
{
    if g.loose == 0 {
        return g;
    }
    make_repeat_leaf(work, id, start, g)
}

// The groups of a repeat tree, balanced under it by its own type, before the list `next`.
fn balance_repeat(
    work: &mut [u32],
    stack: u32,
    top: u32,
    id: u32,
    start: u32,
    end: u32,
    groups: u32,
    next: u32,
) -> Made
    requires { GroupsReady work.old stack top id start end groups next }
    ensures { GroupsBalanced work.old work.new stack top id start end groups next result.top result.node }
{
    let k = store::tell(work, groups, NODE_TREES);
    let own = NodeType {
        kind: Kind::Tree as u32,
        id,
    };
    let size = balance_core::row_size(work, groups, k, own);
    let parent = Parent {
        own,
        start,
        length: end.saturating_sub(start),
    };
    balance_core::balance_range(work, top, stack, groups, k, size, own, parent, next)
}

// The tree of a record over what it has gathered, before the list `next`; groups are balanced.
#[tactic(auto, using(crate::proofs::Finishing::finish_loose, crate::proofs::Passing::none_at), unfolding(tree::specs::Cells::kind, tree::specs::Cells::id_word))]
pub fn finish_node(
    work: &mut [u32],
    stack: u32,
    id: u32,
    start: u32,
    end: u32,
    g: Gathering,
    next: u32,
) -> Made
    requires { FinishReady work.old stack g.top id start end g.groups g.loose g.edge next }
    ensures { Finished work.old work.new stack g.top id start end g.groups g.loose g.edge next result.top result.node }
{
    if g.groups == 0 {
        let length = end.saturating_sub(start);
        let own = NodeType {
            kind: Kind::Tree as u32,
            id,
        };
        let made = store::push_tree(work, g.top, own, start, length, g.loose, next);
        return Made {
            top: g.top + NODE_WIDTH,
            node: made,
        };
    }
    let h = close_rest(work, id, start, g);
    balance_repeat(work, stack, h.top, id, start, end, h.groups, next)
}
