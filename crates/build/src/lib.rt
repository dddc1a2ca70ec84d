// The build: a record list becomes the cells and packed words of a tree.
#![tactic(auto)]

ghost use Rattle.std.specs.Prelude.{◌≡◌, [], ◌∷◌, ◌+◌, ◌-◌, ◌*◌, ◌/◌, ◌<◌, length};
ghost use Rattle.std.specs.Option.{unwrap_or};
ghost use Rattle.words.specs.Refusal.{answered};
ghost use Rattle.tree.specs.Written.{written_counts};
ghost use Rattle.tree.specs.Calls.{build_call};
ghost use Rattle.take.specs.Loop.{TakenAll};
ghost use Rattle.build.specs.Building.{list_end, Listed, Writes, written_out, built};

use store::{NODE_CELLS, NODE_WORDS};
use tree::{CELL_WIDTH, Written};
use words::{RECORD_WIDTH, Refusal};

// Where the last record ends; without one, the build start.
fn end_of_list(records: &[u32], start: u32) -> u32
    ensures { result ≡ list_end start records.now }
{
    let n = records.len() / RECORD_WIDTH;
    if n == 0 {
        return start;
    }
    records::record_at(records, n - 1).end
}

// Reads an accepted list into the store. In front of the work slice stand the counts of repeat records, behind them the frames of
// open trees, then the store's nodes; packed words stand at its end.
fn read_list(
    records: &[u32],
    first_repeat: u32,
    bound: u32,
    start: u32,
    end: u32,
    work: &mut [u32],
) -> take::FirstLevel
    requires listed { Listed bound start records.now (length work.old) }
    requires end_value { end ≡ list_end start records.now }
    ensures { TakenAll first_repeat bound start records.now work.new result.top result.low result.kids }
{
    scan::count_repeats(records, first_repeat, work);
    let n = records.len() / RECORD_WIDTH;
    let tree = take::Node {
        id: 0,
        start,
        end,
        floor: 0,
    };
    let children = gathering::Gathering {
        top: (12 * n + 1) as u32,
        groups: 0,
        loose: 0,
        edge: end,
    };
    let memo = scan::Memo {
        place: n as u32,
        start: 0,
        mark: 0,
        edge: 0,
    };
    let from = take::State {
        p: n,
        depth: 0,
        low: (96 * n + 96) as u32,
        tree,
        children,
        memo,
    };
    take::take_nodes(records, first_repeat, bound, work, from)
}

// 12, 13, or the whole tree over the first-level trees is written out.
#[tactic(auto, using(crate::proofs::Writing::cells_refused, store::proofs::Counts::nodes_any))]
fn write_result(
    work: &mut [u32],
    id: u32,
    start: u32,
    length: u32,
    first: take::FirstLevel,
    cells: &mut [u32],
    words: &mut [u16],
) -> Result<Written, Refusal>
    requires { Writes work.old first.top first.kids }
    ensures { (q : Writes work.old first.top first.kids) → record { outcome = answered written_counts result; outputs = cells.new ∷ words.new ∷ [] } ≡ written_out id start length q.trees cells.old words.old }
{
    let kids = first.kids;
    let count = store::tell(&*work, kids, NODE_CELLS) as usize + 1;
    let packed = store::tell(&*work, kids, NODE_WORDS) as usize;
    if cells.len() / CELL_WIDTH < count {
        return Err(Refusal::LittleCells);
    }
    if words.len() < packed {
        return Err(Refusal::LittleWords);
    }
    store::write_top(work, first.top, id, start, length, kids, cells, words);
    Ok(Written {
        cells: count,
        words: packed,
    })
}

// The build of an accepted list.
fn build_accepted(
    first_repeat: u32,
    bound: u32,
    start: u32,
    top: u32,
    given: Option<u32>,
    records: &[u32],
    work: &mut [u32],
    cells: &mut [u32],
    words: &mut [u16],
) -> Result<Written, Refusal>
    requires { Listed bound start records.now (length work.old) }
    ensures { record { outcome = answered written_counts result; outputs = cells.new ∷ words.new ∷ [] } ≡ built first_repeat bound start top given records.now cells.old words.old }
{
    let end = end_of_list(records, start);
    let first = read_list(records, first_repeat, bound, start, end, work);
    let length = given.unwrap_or(end.saturating_sub(start));
    write_result(work, top, start, length, first, cells, words)
}

// The build: the refusals of the check, then 12 and 13 by the size of the result. `given` is the length of the whole tree; without one it
// is the last child's end. What the work slice held decides nothing.
pub fn build(
    types: u32,
    first_repeat: u32,
    bound: u32,
    start: u32,
    top: u32,
    given: Option<u32>,
    records: &[u32],
    work: &mut [u32],
    cells: &mut [u32],
    words: &mut [u16],
) -> Result<Written, Refusal>
    ensures { record { outcome = answered written_counts result; outputs = cells.new ∷ words.new ∷ [] } ≡ build_call types first_repeat bound start top given (length work.old) records.now cells.old words.old }
{
    let count = records::check(types, first_repeat, bound, start, top, records, work)?;
    let front = &mut work[..96 * count + 96];
    build_accepted(
        first_repeat,
        bound,
        start,
        top,
        given,
        records,
        front,
        cells,
        words,
    )
}
