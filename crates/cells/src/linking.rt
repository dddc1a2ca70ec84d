// The links of cells: the lengths of chains, and the links that are open.
ghost use Rattle.std.specs.Prelude.{◌≡◌, cond, ◌+◌, ◌-◌, ◌*◌, ◌<◌, ◌≤◌, length, eqb};
ghost use Rattle.tree.specs.Cells.{cell_width};
ghost use Rattle.rules.specs.Cell.{cells_of};
ghost use Rattle.rules.specs.Lowest.{chains};
ghost use Rattle.cells.specs.Read.{cell_of};
ghost use Rattle.cells.specs.Steps.{followed};
ghost use Rattle.cells.specs.Open.{in_place, lowered, ReadLink, Put, Pushed};

use crate::broken::first_child;
use crate::{Link, Names};
use tree::{CELL_WIDTH, Cell, NEXT};

// How many cells stand on the chain that the link x of cell c begins, by the lengths of the chains from each later cell on.
#[tactic(auto, unfolding(crate::specs::Steps::followed))]
pub fn follow(lengths: &[u32], c: usize, x: u32) -> u32
    ensures { result ≡ followed lengths.now c x }
{
    let to = x as usize;
    if to <= c || lengths.len() < to {
        return 0;
    }
    lengths[to - 1]
}

// The lengths of the chains from each cell on.
#[tactic(auto, using(crate::proofs::Reading::tail_start, crate::proofs::Reading::tail_set, crate::proofs::Reading::tail_all, crate::proofs::Reading::fits_at))]
pub fn chain_lengths(cells: &[u32], lengths: &mut [u32])
    requires { length lengths.old * cell_width ≡ length cells.now }
    ensures { lengths.new ≡ chains 1 (cells_of cells.now) }
{
    for c in (1..=lengths.len()).rev() {
        let length = follow(lengths, c, cells[(c - 1) * CELL_WIDTH + NEXT]);
        lengths[c - 1] = length + 1;
    }
}

// The limit after a link to cell x is put on. If the link below it names a cell m up to x, then m is out of place: at its turn
// the link to x is still open above it. So no search through the links is needed.
#[tactic(auto, unfolding(crate::specs::Open::lowered))]
fn lower(links: &[u32], s: Names, x: u32) -> usize
    requires { s.top * 4 ≤ length links.now }
    ensures { result ≡ lowered links.now s.top s.limit x }
{
    if s.top == 0 {
        return s.limit;
    }
    let m = links[(s.top - 1) * 4] as usize;
    if (x as usize) < m {
        return s.limit;
    }
    s.limit.min(m)
}

// Puts a link to cell x on the open links, if x names one.
pub fn name_if(links: &mut [u32], s: Names, x: u32, d: Link) -> Names
    requires { s.top * 4 + 4 ≤ length links.old }
    ensures { Put links.old links.new s.top s.limit result.top result.limit x d.after d.within d.base }
{
    if x == 0 {
        return s;
    }
    let limit = lower(links, s, x);
    words::put(links, s.top * 4, [x, d.after, d.within, d.base]);
    Names {
        top: s.top + 1,
        limit,
    }
}

// The length that bounds the children of cell i + 1.
fn inner_width(i: usize, len: u32) -> u32
    ensures { result ≡ cond (eqb i 0) 4294967295 len }
{
    if i == 0 {
        return u32::MAX;
    }
    len
}

// Puts on what cell i + 1 names, by next and by first. d is the link that named it.
pub fn push_names(links: &mut [u32], i: usize, s: Names, k: Cell, d: Link) -> Names
    requires top_in_bounds { s.top * 4 + 8 ≤ length links.old }
    requires len_bound { (k.position + k.length ≤ 4294967295) × (d.base + k.position ≤ 4294967295) }
    ensures { Pushed links.old links.new i s.top s.limit result.top result.limit (cell_of k) d.within d.base }
{
    let beside = Link {
        after: k.position + k.length,
        within: d.within,
        base: d.base,
    };
    let later = name_if(links, s, k.next, beside);
    let below = Link {
        after: 0,
        within: inner_width(i, k.length),
        base: d.base + k.position,
    };
    name_if(links, later, first_child(k), below)
}

// Does the latest link name cell c, and no other link?
#[tactic(auto, unfolding(crate::specs::Open::in_place))]
pub fn placed(links: &[u32], s: Names, c: usize) -> bool
    requires { s.top * 4 ≤ length links.now }
    ensures { result ≡ in_place links.now s.top s.limit c }
{
    c != s.limit && s.top != 0 && links[(s.top - 1) * 4] as usize == c
}

// What the latest of `top` links says.
pub fn read_link(links: &[u32], top: usize) -> Link
    requires { (0 < top) × (top * 4 ≤ length links.now) }
    ensures { ReadLink links.now top result.after result.within result.base }
{
    let at = (top - 1) * 4;
    Link {
        after: links[at + 1],
        within: links[at + 2],
        base: links[at + 3],
    }
}
