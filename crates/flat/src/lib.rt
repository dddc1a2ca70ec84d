// Internal, for the build.
// Flat parts: `take_flat_node`, and the loop over the records below a tree deeper than 2,500. Lists go
// whole with places that count records from their front, as spans do; the work slice goes whole as in `store`.
#![tactic(auto)]

ghost use Rattle.std.specs.Prelude.{◌≡◌, cond, ◌&&◌, ◌+◌, ◌*◌, ◌≤◌, ◌<◌, length, eqb, ltb};
ghost use Rattle.words.specs.Words.{record_width};
ghost use Rattle.flat.specs.Back.{Extends};
ghost use Rattle.flat.specs.Parts.{RecordReady, StagedRecord, StageReady, StagedFlat, NodeReady, TookFlat};
ghost use Rattle.flat.specs.Taking.{FlatReady, TakenFlat};

use records::record_at;
use store::{NODE_WIDTH, NodeType};
use tree::Kind;
use words::RECORD_SIZE;

// How far a flat part reaches: the place before it, how many records it holds, the number of the leftmost one, and where the
// first one held ends.
#[derive(Clone, Copy)]
pub struct Extent {
    pub p: usize,
    pub count: u32,
    pub first: usize,
    pub end: u32,
}

impl Extent {
    // One record more, of 4 words, that ends at `end`: it is held.
    fn held(self, q: usize, end: u32) -> Extent
        requires { self.count < 16383 }
        ensures p_value { result.p ≡ q }
        ensures count_value { result.count ≡ self.count + 1 }
        ensures first_value { result.first ≡ q }
        ensures end_value { result.end ≡ cond (eqb self.count 0) end self.end }
    {
        Extent {
            p: q,
            count: self.count + 1,
            first: q,
            end: if self.count == 0 { end } else { self.end },
        }
    }
}

// Reads back from p until 16,383 records are held or one of them starts before the first one's end less the bound; records
// above 4 words are dropped.
#[tactic(auto, using(crate::proofs::Extending::full_flat, crate::proofs::Extending::held_first))]
fn flat_extent(records: &[u32], p: usize, lo: usize, bound: u32) -> Extent
    requires record_width_in_bounds { p * record_width ≤ length records.now }
    requires lo_le_p { lo ≤ p }
    ensures { Extends records.now p lo bound result }
{
    let mut x = Extent {
        p,
        count: 0,
        first: lo,
        end: 0,
    };
    for q in (lo..p).rev() {
        if 16383 <= x.count {
            return x;
        }
        let r = record_at(records, q);
        if RECORD_SIZE < r.size {
            x = Extent { p: q, ..x };
            continue;
        }
        if r.start < x.end.saturating_sub(bound) {
            return x;
        }
        x = x.held(q, r.end);
    }
    x
}

// Stages the four words of a record in a part that starts at `start`.
#[tactic(auto, using(records::proofs::OneRecord::id_is, records::proofs::OneRecord::start_is, records::proofs::OneRecord::end_is))]
fn stage_record(
    records: &[u32],
    i: usize,
    start: u32,
    index: u32,
    work: &mut [u32],
    low: u32,
) -> u32
    requires { RecordReady records.now work.old i start index low }
    ensures { StagedRecord records.now work.old work.new i start index low result }
{
    let r = record_at(records, i);
    let from = r.start.saturating_sub(start);
    let to = r.end.saturating_sub(start);
    let third = store::stage(work, low, index as u16);
    let second = store::stage(work, third, to as u16);
    let first = store::stage(work, second, from as u16);
    store::stage(work, first, r.id as u16)
}

// Stages the held ones of the records from `to` up to p, from the last one back: each holds no other, so that its end index is
// the number of words up to its own last one.
fn stage_flat(
    records: &[u32],
    p: usize,
    to: usize,
    start: u32,
    count: u32,
    work: &mut [u32],
    low: u32,
) -> u32
    requires { StageReady records.now work.old p to start count low }
    ensures { StagedFlat records.now work.old work.new p to start low result }
{
    let mut left = count * RECORD_SIZE;
    let mut below = low;
    for q in (to..p).rev() {
        if RECORD_SIZE < record_at(records, q).size {
            continue;
        }
        below = stage_record(records, q, start, left, work, below);
        left -= RECORD_SIZE;
    }
    below
}

// Is one held alone and longer than a part can say?
fn is_lone_long(count: u32, length: u32) -> bool
    ensures { result ≡ (eqb count 1 && ltb 65535 length) }
{
    count == 1 && 65535 < length
}

// Where flat parts are put: the place up to which records are left, the bounds of the store, and the list that they stand before.
#[derive(Clone, Copy)]
pub struct FlatNode {
    pub p: usize,
    pub top: u32,
    pub low: u32,
    pub loose: u32,
}

// The records that a flat part holds, at least one, as a part before the list, or as a leaf.
fn push_flat(
    records: &[u32],
    lo: usize,
    bound: u32,
    x: Extent,
    work: &mut [u32],
    at: FlatNode,
) -> FlatNode
    requires node_ready { NodeReady records.now work.old lo bound at }
    requires extends { Extends records.now at.p lo bound x }
    requires le_count { 1 ≤ x.count }
    ensures { TookFlat records.now work.old work.new lo bound at result }
{
    let first = record_at(records, x.first);
    let start = first.start;
    let length = x.end.saturating_sub(start);
    let top = at.top + NODE_WIDTH;
    if is_lone_long(x.count, length) {
        let own = NodeType {
            kind: Kind::Tree as u32,
            id: first.id,
        };
        let loose = store::push_tree(work, at.top, own, start, length, 0, at.loose);
        return FlatNode {
            p: x.p,
            top,
            loose,
            ..at
        };
    }
    let low = stage_flat(records, at.p, x.p, start, x.count, work, at.low);
    let size = x.count * RECORD_SIZE;
    let loose = store::push_part(work, at.top, start, length, low, size, at.loose);
    FlatNode {
        p: x.p,
        top,
        low,
        loose,
    }
}

// One flat part before the list; nothing where all its records are dropped.
fn take_flat_node(
    records: &[u32],
    lo: usize,
    bound: u32,
    work: &mut [u32],
    at: FlatNode,
) -> FlatNode
    requires { NodeReady records.now work.old lo bound at }
    ensures { TookFlat records.now work.old work.new lo bound at result }
{
    let x = flat_extent(records, at.p, lo, bound);
    if x.count == 0 {
        return FlatNode { p: x.p, ..at };
    }
    push_flat(records, lo, bound, x, work, at)
}

// What a tree has gathered, and where the staged words begin.
#[derive(Clone, Copy)]
pub struct Flattened {
    pub low: u32,
    pub g: gathering::Gathering,
}

// The records from lo up to p, below a tree deeper than 2,500: its own id's records are passed over, the others go to flat parts.
pub fn take_flat(
    records: &[u32],
    p: usize,
    lo: usize,
    own: Option<u32>,
    bound: u32,
    work: &mut [u32],
    low: u32,
    g: gathering::Gathering,
) -> Flattened
    requires { FlatReady records.now work.old p lo own bound g.top low g.groups g.loose g.edge }
    ensures { TakenFlat records.now work.old work.new p lo own bound g.top low g.groups g.loose g.edge result.g.top result.low result.g.groups result.g.loose result.g.edge }
{
    let mut at = p;
    let mut below = low;
    let mut h = g;
    // A `while`: a turn takes up one record, or as many as a flat part holds.
    while lo < at {
        let q = at - 1;
        let r = record_at(records, q);
        if cursor::is_own(own, r.id) {
            h = gathering::pass_over(work, r.id, r.end, bound, h);
            at = q;
            continue;
        }
        let from = FlatNode {
            p: at,
            top: h.top,
            low: below,
            loose: h.loose,
        };
        let node = take_flat_node(records, lo, bound, work, from);
        at = node.p;
        below = node.low;
        h = gathering::Gathering {
            top: node.top,
            loose: node.loose,
            ..h
        };
    }
    Flattened { low: below, g: h }
}
