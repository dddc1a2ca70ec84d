// What the last record becomes: a part that is built, or a tree whose children are to be read. The list goes whole with a place that
// counts records from its front, as spans do.
ghost use Rattle.std.specs.Prelude.{◌≡◌, ◌-◌, ◌*◌, ◌/◌, ◌≤◌, ◌<◌, length};
ghost use Rattle.words.specs.Words.{last_of, record_width};
ghost use Rattle.take.specs.Starting.{PartReady, PartBuilt, pending, Starts, Started};

use crate::{BuiltNode, Node, PendingNode, StartedNode, State};

// The part of a run, in front of the children of the tree that is read.
fn built_part(work: &mut [u32], s: State, part: pack::Part) -> BuiltNode
    requires { PartReady work.old s.children.top s.low s.children.loose part.low }
    ensures { PartBuilt work.old work.new s part result }
{
    let low = part.low as u32;
    let node = store::push_part(
        work,
        s.children.top,
        part.start,
        part.length,
        low,
        s.low - low,
        s.children.loose,
    );
    BuiltNode {
        p: part.p,
        low,
        node,
    }
}

// The last record as a tree to be read.
fn pending_node(records: &[u32], p: usize, memo: scan::Memo) -> PendingNode
    requires p_nonzero { 0 < p }
    requires record_width_in_bounds { p * record_width ≤ length records.now }
    requires p_bound { p < 4294967296 }
    requires record_width_bound { last_of records.now (p - 1) / record_width ≤ p }
    ensures { result ≡ pending records.now p memo }
{
    let last = reader::last_record(records, p).own;
    let node = Node {
        id: last.id,
        start: last.start,
        end: last.end,
        floor: (p - last.span()) as u32,
    };
    PendingNode { node, memo }
}

// Takes the last record, which has not the tree's own id: a run that packs becomes a part, otherwise the record becomes a tree.
pub fn start_node(
    records: &[u32],
    first_repeat: u32,
    bound: u32,
    own: Option<u32>,
    work: &mut [u32],
    s: State,
) -> StartedNode
    requires { Starts first_repeat bound own records.now work.old s }
    ensures { (q : Starts first_repeat bound own records.now work.old s) → Started first_repeat bound own records.now work.old work.new s q result }
{
    let lo = s.tree.floor as usize;
    let low = s.low as usize;
    match pack::take_run(
        records,
        s.p,
        lo,
        first_repeat,
        own,
        bound,
        s.memo,
        work,
        low,
    ) {
        Ok(part) => StartedNode::Built(built_part(work, s, part)),
        Err(memo) => StartedNode::Pending(pending_node(records, s.p, memo)),
    }
}
