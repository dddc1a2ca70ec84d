// Internal, for the build.
// The scan for a run of sibling spans that packs into one part. Counts of the repeat records before each place give a run's
// words at once, and a memo of the walk lets the next scan under the same parent go on where this one ended. A
// place is the number of records before it, in the list and in the counts, so both go whole with places beside them.
#![tactic(auto)]

ghost use Rattle.std.specs.Prelude.{◌≡◌, cond, ℕ, ◌-◌, ◌*◌, ◌/◌, ◌<◌, ◌≤◌, min, leb, length};
ghost use Rattle.words.specs.Words.{id_of, record_width};
ghost use Rattle.tree.specs.Items.{Items, same};
ghost use Rattle.tree.specs.Pack.{run_from};
ghost use Rattle.scan.specs.Counted.{Counting, Rising};
ghost use Rattle.scan.specs.Walked.{Scans, Scannable};
ghost use Rattle.scan.specs.Steps.{resumed, between, packable, settles, decided, chosen};
ghost use Rattle.scan.specs.Found.{Found};

use cursor::is_own;
use records::record_at;
use words::{RECORD_SIZE, RECORD_WIDTH};

// A run: its words, where its leftmost span starts, and the words of its repeat records.
#[derive(Clone, Copy)]
pub struct BufferScan {
    pub size: usize,
    pub start: u32,
    pub skip: usize,
}

impl BufferScan {
    // Whether the run is neither too small nor too large to pack.
    #[tactic(auto, unfolding(crate::specs::Steps::packable))]
    fn packs(self) -> bool
        requires { self.skip ≤ self.size }
        ensures { result ≡ packable self.size self.skip }
    {
        RECORD_WIDTH < self.size && self.size - self.skip <= 65532
    }
}

// How far a walk got under one parent: its place, the start of the span walked last, the place behind the record of the own
// id passed last, and the start of the span walked last before that.
#[derive(Clone, Copy)]
pub struct Memo {
    pub place: u32,
    pub start: u32,
    pub mark: u32,
    pub edge: u32,
}

// The words that a record adds to the count.
fn skipped(first_repeat: u32, id: u32) -> u32
    ensures { result ≡ cond (leb first_repeat id) record_width 0 }
{
    if first_repeat <= id { RECORD_SIZE } else { 0 }
}

// Writes for each place how many words of repeat records stand before it.
pub fn count_repeats(records: &[u32], first_repeat: u32, work: &mut [u32])
    requires record_width_in_bounds { length records.now / record_width < length work.old }
    requires records_len_bound { length records.now < 4294967296 }
    ensures { Counting first_repeat records.now work.old work.new (length records.now / record_width) }
{
    let n = records.len() / RECORD_WIDTH;
    let mut count: u32 = 0;
    work[0] = 0;
    for i in 0..n {
        count += skipped(first_repeat, record_at(records, i).id);
        work[i + 1] = count;
    }
}

// Where a scan from `at` goes on: where the memo is, or at `at` if there is none. A mark passed by now is none.
fn resume(at: u32, memo: Memo) -> Memo
    ensures { result ≡ resumed at memo }
{
    if memo.place < at {
        return Memo {
            mark: memo.mark.min(at),
            ..memo
        };
    }
    Memo {
        place: at,
        start: 0,
        mark: at,
        edge: 0,
    }
}

// Does the record before place p count alone?
#[tactic(auto, using(records::proofs::OneRecord::id_is))]
fn is_mark(records: &[u32], own: Option<u32>, p: usize) -> bool
    requires p_nonzero { 0 < p }
    requires record_width_in_bounds { p * record_width ≤ length records.now }
    ensures { result ≡ same own (id_of records.now (p - 1)) }
{
    is_own(own, record_at(records, p - 1).id)
}

// The run from place `from` up to `at` whose leftmost span starts at `start`.
fn measure(work: &[u32], from: usize, at: usize, start: u32) -> BufferScan
    requires { Rising work.now from at }
    ensures { result ≡ between work.now from at start }
{
    BufferScan {
        size: (at - from) * RECORD_WIDTH,
        start,
        skip: (work[at] - work[from]) as usize,
    }
}

// Whether nothing can pack any more: the words seen are too many, and the run noted last does not pack.
#[tactic(auto, unfolding(crate::specs::Steps::settles))]
fn settled(work: &[u32], at: usize, walk: Memo) -> bool
    requires rising { Rising work.now walk.place at }
    requires rising_2 { Rising work.now walk.mark at }
    ensures { result ≡ settles work.now at walk }
{
    let seen = measure(work, walk.place as usize, at, walk.start);
    65532 < seen.size - seen.skip && !measure(work, walk.mark as usize, at, walk.edge).packs()
}

// The answer for a run: the run where it packs, else the memo.
fn decide(run: BufferScan, memo: Memo) -> Result<BufferScan, Memo>
    requires { run.skip ≤ run.size }
    ensures { result ≡ decided run memo }
{
    if run.packs() { Ok(run) } else { Err(memo) }
}

// The answer after a walk: the whole of it, or the run noted last.
fn choose(
    work: &[u32],
    lo: usize,
    at: usize,
    own: Option<u32>,
    walk: Memo,
) -> Result<BufferScan, Memo>
    requires rising { Rising work.now walk.place at }
    requires rising_2 { Rising work.now walk.mark at }
    ensures { result ≡ chosen own work.now lo at walk }
{
    let seen = measure(work, walk.place as usize, at, walk.start);
    let noted = measure(work, walk.mark as usize, at, walk.edge);
    if walk.place as usize <= lo || own.is_none() {
        return decide(seen, walk);
    }
    decide(noted, walk)
}

// The run of the span that ends with record at - 1, whose parent's records begin at record lo. The walk goes back over
// sibling spans, and is left at the parent's limit, before a span that starts too early, or once nothing can pack any more. Where
// no run packs, the answer is how far the walk got.
pub fn find_buffer_size(
    records: &[u32],
    work: &[u32],
    at: usize,
    lo: usize,
    own: Option<u32>,
    bound: u32,
    memo: Memo,
) -> Result<BufferScan, Memo>
    requires { Scannable own records.now work.now lo at bound memo }
    ensures { (F i s e : ℕ) (kids rest : Items) → Scans F own records.now work.now lo at bound memo i s e kids rest → Found F at (e - bound) i s e kids rest (run_from F bound own i s e kids rest) result }
{
    let least = record_at(records, at - 1).end.saturating_sub(bound);
    let mut walk = resume(at as u32, memo);
    // Nested loops left by a label, as document 01 asks (docs/DECISIONS.md, Forms); each span names the place before it.
    'walk: while lo < walk.place as usize {
        while is_mark(records, own, walk.place as usize) {
            walk = Memo {
                place: walk.place - 1,
                mark: walk.place,
                edge: walk.start,
                ..walk
            };
            if walk.place as usize <= lo {
                break 'walk;
            }
        }
        let p = walk.place as usize;
        let r = record_at(records, p - 1);
        if r.start < least {
            break 'walk;
        }
        walk = Memo {
            place: (p - r.span()) as u32,
            start: r.start,
            ..walk
        };
        if settled(work, at, walk) {
            break 'walk;
        }
    }
    choose(work, lo, at, own, walk)
}
