// The rules that a cell breaks by itself, and all its rules but that of its place.
ghost use Rattle.std.specs.Prelude.{◌≡◌, ◌+◌, ◌<◌, ◌≤◌, length};
ghost use Rattle.rules.specs.Cell.{first_child};
ghost use Rattle.rules.specs.Lowest.{top_broken, kind_broken, id_broken, link_broken};
ghost use Rattle.cells.specs.Read.{cell_of};
ghost use Rattle.cells.specs.Steps.{own_test, count_test, range_test, cell_test};
ghost use Rattle.cells.specs.Parts.{Room};

use crate::linking::follow;
use crate::parts::{part_broken, stray_broken};
use crate::{Link, Setting};
use tree::{Cell, Kind};

// "Cell 1 is the top, kind 1, position 0, next 0."
#[tactic(auto, unfolding(rules::specs::Lowest::top_broken))]
fn top_broken(i: usize, k: Cell) -> bool
    ensures { result ≡ top_broken (i + 1) (cell_of k) }
{
    i == 0 && (!Kind::Tree.is(k.kind) || k.position != 0 || k.next != 0)
}

// A kind that there is not.
#[tactic(auto, unfolding(rules::specs::Lowest::kind_broken))]
fn kind_broken(k: Cell) -> bool
    ensures { result ≡ kind_broken (cell_of k) }
{
    !(Kind::Tree.is(k.kind) || Kind::Untyped.is(k.kind) || Kind::Part.is(k.kind))
}

// "Ids are below T", 0 for kinds 2 and 3.
#[tactic(auto, unfolding(rules::specs::Lowest::id_broken))]
fn id_broken(types: u32, k: Cell) -> bool
    ensures { result ≡ id_broken types (cell_of k) }
{
    if Kind::Tree.is(k.kind) {
        return types <= k.id;
    }
    k.id != 0
}

// A link x of cell c that leads to no later cell.
#[tactic(auto, unfolding(rules::specs::Lowest::link_broken))]
fn link_broken(n: usize, c: usize, x: u32) -> bool
    ensures { result ≡ link_broken n c x }
{
    let to = x as usize;
    x != 0 && (to <= c || n < to)
}

// The first child's cell; a part has none.
#[tactic(auto, unfolding(rules::specs::Cell::first_child))]
pub fn first_child(k: Cell) -> u32
    ensures { result ≡ first_child (cell_of k) }
{
    if Kind::Part.is(k.kind) {
        return 0;
    }
    k.first
}

// The rules that cell i + 1 breaks by itself: top, kind, id, links.
#[tactic(auto, unfolding(crate::specs::Steps::own_test))]
fn own_broken(k: Cell, g: Setting<'_>, i: usize) -> bool
    requires { i < length g.lengths.now }
    ensures { result ≡ own_test g.entry.types (length g.entry.lengths.now) i (cell_of k) }
{
    let n = g.lengths.len();
    top_broken(i, k)
        || kind_broken(k)
        || id_broken(g.types, k)
        || link_broken(n, i + 1, k.next)
        || link_broken(n, i + 1, first_child(k))
}

// "A chain has count cells."
#[tactic(auto, unfolding(crate::specs::Steps::count_test))]
fn count_broken(k: Cell, i: usize, lengths: &[u32]) -> bool
    requires { i < length lengths.now }
    ensures { result ≡ count_test lengths.now i (cell_of k) }
{
    !Kind::Part.is(k.kind) && k.count != follow(lengths, i + 1, k.first)
}

// Order, the parent's end and the absolute end, by the link that names cell i + 1.
#[tactic(auto, unfolding(crate::specs::Steps::range_test))]
fn range_broken(i: usize, k: Cell, d: Link) -> bool
    ensures { result ≡ range_test i k.position k.length d.after d.within d.base }
{
    let end = k.position as usize + k.length as usize;
    k.position < d.after
        || (d.within as usize) < end
        || i != 0 && (u32::MAX as usize) < d.base as usize + end
}

// Does cell i + 1 break a rule other than its place? d is the link that names it; the parts before it end at the word w.
#[tactic(auto, unfolding(crate::specs::Steps::cell_test))]
pub fn cell_broken(
    k: Cell,
    g: Setting<'_>,
    i: usize,
    w: usize,
    d: Link,
    indices: &mut [u16],
    ends: &mut [u32],
) -> bool
    requires i_lt_lengths { i < length g.lengths.now }
    requires room { Room (length g.tree.words.now) (length indices.old) (length ends.old) }
    requires types_bound { g.types ≤ 65536 }
    ensures { result ≡ cell_test g.entry.types g.entry.tree.words.now (length g.entry.lengths.now) g.entry.last i w g.entry.lengths.now d.after d.within d.base (cell_of k) }
{
    own_broken(k, g, i)
        || count_broken(k, i, g.lengths)
        || range_broken(i, k, d)
        || part_broken(k, g, w, indices, ends)
        || stray_broken(g, i, k)
}
