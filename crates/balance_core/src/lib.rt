// Internal, for the build and the balance call.
// Balancing on the store of trees: the core of `Tree::balance` and of repeat trees. A row of siblings is its first node and how
// many they are; the balanced size of each is read off its node. The work slice goes whole with places in it, as in `store`.
#![tactic(auto)]

ghost use Rattle.std.specs.Prelude.{◌≡◌, ◌+◌, ◌-◌, ◌*◌, ◌≤◌, ◌<◌, [], ◌∷◌, length};
ghost use Rattle.store.specs.Store.{Readable};
ghost use Rattle.tree.specs.Balance.{total, share};
ghost use Rattle.words.specs.Words.{put};
ghost use Rattle.balance_core.specs.Rows.{sized, Sizable, Row, Grouped};
ghost use Rattle.balance_core.specs.Pending.{GroupAt, PushReady, Pushed};
ghost use Rattle.balance_core.specs.Ready.{CopyReady, Copied, alone, JoinReady, Joined, DivideReady, Divided, BalanceReady, Balanced};

use store::{NODE_FIRST, NODE_START, NODE_TREES, NODE_WIDTH, NodeType};
use tree::Kind;

// The first group of a row: how many trees, their size, the list after them and their end.
#[derive(Clone, Copy)]
pub struct Front {
    pub count: u32,
    pub size: u32,
    pub next: u32,
    pub end: u32,
}

// A node's balanced size.
fn balanced_node_size(work: &[u32], node: u32, balance_type: NodeType) -> u32
    requires { Sizable work.now node balance_type.kind balance_type.id }
    ensures { result ≡ sized work.now node balance_type.kind balance_type.id }
{
    if store::same_type(work, node, balance_type) {
        return store::like(work, work[node as usize + NODE_FIRST], balance_type).max(1);
    }
    1
}

// Three sixteenths, rounded up.
#[tactic(auto, unfolding(tree::specs::Balance::share))]
fn share_of(n: u32) -> u32
    ensures { result ≡ share n }
{
    (3 * u64::from(n)).div_ceil(16) as u32
}

// The first group of a row of k trees: it grows while its size plus the next is below m.
fn first_group(work: &[u32], node: u32, k: u32, balance_type: NodeType, m: u32) -> Front
    requires row { Row work.now node k balance_type.kind balance_type.id }
    requires le_k { 1 ≤ k }
    ensures { (p : Row work.now node k balance_type.kind balance_type.id) → Grouped work.now node k balance_type.kind balance_type.id m p result.count result.size result.next result.end }
{
    let first = store::node_at(work, node);
    let mut g = Front {
        count: 1,
        size: balanced_node_size(work, node, balance_type),
        next: first.next,
        end: first.start.saturating_add(first.length),
    };
    // A `while`: each node names the next one.
    while g.count < k {
        let grown = g
            .size
            .saturating_add(balanced_node_size(work, g.next, balance_type));
        if m <= grown {
            return g;
        }
        let last = store::node_at(work, g.next);
        g = Front {
            count: g.count + 1,
            size: grown,
            next: last.next,
            end: last.start.saturating_add(last.length),
        };
    }
    g
}

// The size of a row of k trees: that of its first group under a share which no size reaches.
pub fn row_size(work: &[u32], node: u32, k: u32, balance_type: NodeType) -> u32
    requires row { Row work.now node k balance_type.kind balance_type.id }
    requires le_k { 1 ≤ k }
    ensures { (p : Row work.now node k balance_type.kind balance_type.id) → result ≡ total p.type p.us }
{
    first_group(work, node, k, balance_type, u32::MAX).size
}

// A list, and the store's new top.
#[derive(Clone, Copy)]
pub struct Made {
    pub top: u32,
    pub node: u32,
}

// A tree of the store again, before another list.
fn copy(work: &mut [u32], top: u32, node: u32, next: u32) -> Made
    requires { CopyReady work.old top node next }
    ensures { Copied work.old work.new top node next result.top result.node }
{
    let n = store::node_at(work, node);
    if Kind::Part.is(n.own.kind) {
        let made = store::push_part(work, top, n.start, n.length, n.first, n.own.id, next);
        return Made {
            top: top + NODE_WIDTH,
            node: made,
        };
    }
    let made = store::push_tree(work, top, n.own, n.start, n.length, n.first, next);
    Made {
        top: top + NODE_WIDTH,
        node: made,
    }
}

// The tree that siblings are put under: its type, its start and its length.
#[derive(Clone, Copy)]
pub struct Parent {
    pub own: NodeType,
    pub start: u32,
    pub length: u32,
}

// Is a list one tree of this type, start and length?
fn is_one(work: &[u32], node: u32, p: Parent) -> bool
    requires { Readable work.now node }
    ensures { result ≡ alone work.now node p.own.kind p.own.id p.start p.length }
{
    if node == 0 {
        return false;
    }
    let n = store::node_at(work, node);
    n.next == 0 && store::same_type(work, node, p.own) && n.start == p.start && n.length == p.length
}

// A tree over a list, before another; where the list is one tree of equal type, start and length, that tree.
fn join(work: &mut [u32], top: u32, node: u32, p: Parent, next: u32) -> Made
    requires { JoinReady work.old top node p.own.kind p.own.id next }
    ensures { Joined work.old work.new top node p.own.kind p.own.id p.start p.length next result.top result.node }
{
    if is_one(work, node, p) {
        return copy(work, top, node, next);
    }
    let made = store::push_tree(work, top, p.own, p.start, p.length, node, next);
    Made {
        top: top + NODE_WIDTH,
        node: made,
    }
}

// A group that waits to be placed: its first node, how many trees, their size, their end.
#[derive(Clone, Copy)]
pub struct Group {
    pub node: u32,
    pub count: u32,
    pub size: u32,
    pub end: u32,
}

// The group whose four words stand at `at`.
fn group_at(work: &[u32], at: u32) -> Group
    requires { at + 4 ≤ length work.now }
    ensures { GroupAt work.now at result.node result.count result.size result.end }
{
    let n = at as usize;
    Group {
        node: work[n],
        count: work[n + 1],
        size: work[n + 2],
        end: work[n + 3],
    }
}

// Puts a group's four words below the place `stack`: where they stand.
fn push_group(work: &mut [u32], stack: u32, g: Group) -> u32
    requires le_stack { 4 ≤ stack }
    requires stack_in_bounds { stack ≤ length work.old }
    ensures result_value { result + 4 ≡ stack }
    ensures work_after { work.new ≡ put work.old result (g.node ∷ g.count ∷ g.size ∷ g.end ∷ []) }
{
    let at = stack - 4;
    words::put(work, at as usize, [g.node, g.count, g.size, g.end]);
    at
}

// Lets the groups of a row of k trees wait below the place `stack`, the last one lowest: where they stand.
fn push_groups(
    work: &mut [u32],
    stack: u32,
    node: u32,
    k: u32,
    balance_type: NodeType,
    m: u32,
) -> u32
    requires { PushReady work.old stack node k balance_type.kind balance_type.id m }
    ensures { Pushed work.old work.new stack node k balance_type.kind balance_type.id m result }
{
    let mut sp = stack;
    let mut at = node;
    let mut left = k;
    // A `while`: each turn goes on by the count of a group.
    while left > 0 {
        let g = first_group(work, at, left, balance_type, m);
        let waiting = Group {
            node: at,
            count: g.count,
            size: g.size,
            end: g.end,
        };
        sp = push_group(work, sp, waiting);
        at = g.next;
        left -= g.count;
    }
    sp
}

// k siblings of this size divided under the share m, before the list `next`. The groups wait below the place `stack` and
// are placed from the last one back; `left` is the size of those that wait. A lone child above the share gives way to the
// groups of its children: however deep trees nest, this calls nothing for it.
#[cycle(balance_range_divide_balanced)]
fn divide_balanced(
    work: &mut [u32],
    top: u32,
    stack: u32,
    node: u32,
    k: u32,
    balance_type: NodeType,
    m: u32,
    size: u32,
    next: u32,
) -> Made
    requires { DivideReady work.old top stack node k balance_type.kind balance_type.id m size next }
    ensures { Divided work.old work.new top stack node k balance_type.kind balance_type.id m size next result.top result.node }
{
    let mut made = Made { top, node: next };
    let mut left = size;
    let mut sp = push_groups(work, stack, node, k, balance_type, m);
    // A `while`: groups are taken from a stack, and some put on it.
    while left > 0 {
        let g = group_at(work, sp);
        sp += 4;
        if g.count == 1 {
            if m < g.size {
                let kids = work[g.node as usize + NODE_FIRST];
                let n = store::tell(work, kids, NODE_TREES);
                sp = push_groups(work, sp, kids, n, balance_type, m);
                left -= 1;
                continue;
            }
            made = copy(work, made.top, g.node, made.node);
            left -= g.size;
            continue;
        }
        let start = work[g.node as usize + NODE_START];
        let length = g.end.saturating_sub(start);
        let parent = Parent {
            own: balance_type,
            start,
            length,
        };
        made = balance_range(
            work,
            made.top,
            sp,
            g.node,
            g.count,
            g.size,
            balance_type,
            parent,
            made.node,
        );
        left -= g.size;
    }
    made
}

// k siblings of this size, balanced under a parent, before the list `next`.
#[cycle(balance_range_divide_balanced)]
pub fn balance_range(
    work: &mut [u32],
    top: u32,
    stack: u32,
    node: u32,
    k: u32,
    size: u32,
    balance_type: NodeType,
    parent: Parent,
    next: u32,
) -> Made
    requires { BalanceReady work.old top stack node k balance_type.kind balance_type.id parent.own.kind parent.own.id size next }
    ensures { Balanced work.old work.new top stack node k balance_type.kind balance_type.id parent.own.kind parent.own.id parent.start parent.length size next result.top result.node }
{
    let made = divide_balanced(
        work,
        top,
        stack,
        node,
        k,
        balance_type,
        share_of(size),
        size,
        0,
    );
    join(work, made.top, made.node, parent, next)
}
