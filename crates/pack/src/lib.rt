// Internal, for the build.
// Packing a run: the words of its records, one 16-bit word to a word, are staged in the work slice from the top down.
// Where a list goes whole with a place beside it, the place counts records from the list's front, as the scan's counts and memos do; the work
// slice goes whole as in `store`.
#![tactic(auto)]

ghost use Rattle.std.specs.Prelude.{◌≡◌, ℕ, ◌-◌, ◌*◌, ◌/◌, ◌<◌, ◌≤◌, length, get_or, Option};
ghost use Rattle.words.specs.Words.{put, record_width};
ghost use Rattle.tree.specs.Items.{Items, span};
ghost use Rattle.tree.specs.Pack.{pack, run_from};
ghost use Rattle.scan.specs.Walked.{Scans};
ghost use Rattle.pack.specs.Copying.{span_start, behind, packed_record, Recorded, Ready, Copyable, Copies, Fills, Fillable};
ghost use Rattle.pack.specs.Taking.{Filled, Runs, Packable, Takable, Takes};
ghost use Rattle.tree.specs.Ordered.{Fits};

use records::record_at;
use scan::{BufferScan, Memo, find_buffer_size};
use words::RECORD_WIDTH;

// A part that is staged: the records still to read, its lowest word, where it starts and how long it is.
#[derive(Clone, Copy)]
pub struct Part {
    pub p: usize,
    pub low: usize,
    pub start: u32,
    pub length: u32,
}

// The word where the span of the record that ends before word p begins.
fn begins(records: &[u32], p: usize) -> usize
    requires p_nonzero { 0 < p }
    requires p_in_bounds { p ≤ length records.now }
    requires p_bound { get_or records.now (p - 1) 0 ≤ p }
    ensures { result ≡ span_start records.now p }
{
    p - records[p - 1] as usize
}

// The word to go on from behind the node that ends before word p: before its span, or of a repeat record behind its children.
fn skip_node(records: &[u32], first_repeat: u32, p: usize) -> usize
    requires record_width_le_p { record_width ≤ p }
    requires p_in_bounds { p ≤ length records.now }
    requires p_bound { get_or records.now (p - record_width) 0 < first_repeat → get_or records.now (p - 1) 0 ≤ p }
    ensures { result ≡ behind first_repeat records.now p }
{
    let id = records[p - RECORD_WIDTH];
    if first_repeat <= id {
        p - RECORD_WIDTH
    } else {
        begins(records, p)
    }
}

// Writes the packed form of the record that ends the records to word `to` of a part that its descendants end.
fn copy_record(records: &[u32], start: u32, part: &mut [u32], to: usize)
    requires { Recorded records.now start part.old to }
    ensures { part.new ≡ put part.old to (packed_record records.now start (length part.old)) }
{
    let p = records.len();
    let id = records[p - RECORD_WIDTH];
    let from = records[p - 3];
    let end = records[p - 2];
    let last = part.len();
    words::put_record(part, to, id, from - start, end - start, last as u32);
}

// Copies the node that ends the records to the end of the part: its descendants from the back, then the record itself below
// them. Of a repeat record nothing is copied. Answers how many words of the part are still to be written. The record's words
// are read again behind its descendants, so that one level of a deep nesting takes little of the stack.
fn copy_to_buffer(records: &[u32], first_repeat: u32, start: u32, part: &mut [u32]) -> usize
    requires { Copyable first_repeat records.now start part.old }
    ensures { (lo off : ℕ) (its : Items) → Ready first_repeat records.now start lo off its (length records.now / record_width) (length part.old) → lo < length records.now / record_width → Copies first_repeat records.now start lo off its part.old (behind first_repeat records.now (length records.now) / record_width) result part.new }
{
    let p = records.len();
    if first_repeat <= records[p - RECORD_WIDTH] {
        return part.len();
    }
    let mut q = p - RECORD_WIDTH;
    let mut k = part.len();
    // A `while`: the size of each node names the place before it.
    while begins(records, p) < q {
        k = copy_to_buffer(&records[..q], first_repeat, start, &mut part[..k]);
        q = skip_node(records, first_repeat, q);
    }
    let to = k - RECORD_WIDTH;
    copy_record(records, start, part, to);
    to
}

// Fills a part with the nodes from word `floor` up to the end of the records.
fn copy_nodes(records: &[u32], floor: usize, first_repeat: u32, start: u32, part: &mut [u32])
    requires { Fillable first_repeat records.now start floor part.old }
    ensures { (its : Items) → Fills first_repeat records.now start floor its part.old → part.new ≡ pack first_repeat start 0 its }
{
    let mut q = records.len();
    let mut k = part.len();
    // A `while`: the size of each node names the place before it.
    while floor < q {
        k = copy_to_buffer(&records[..q], first_repeat, start, &mut part[..k]);
        q = skip_node(records, first_repeat, q);
    }
}

// Stages the words of a run below `low`, and answers the lowest of them.
fn pack_node(
    records: &[u32],
    p: usize,
    first_repeat: u32,
    run: BufferScan,
    work: &mut [u32],
    low: usize,
) -> usize
    requires { Packable first_repeat records.now p run work.old low }
    ensures { (own : Option ℕ) (its : Items) → Runs first_repeat own records.now p run its → Filled work.old work.new result low (pack first_repeat run.start 0 its) }
{
    let base = low - (run.size - run.skip);
    let floor = p * RECORD_WIDTH - run.size;
    copy_nodes(
        &records[..p * RECORD_WIDTH],
        floor,
        first_repeat,
        run.start,
        &mut work[base..low],
    );
    base
}

// Packs the run of the span that ends with record p - 1, whose parent's records begin at record lo, if there is one; else the answer
// is what the next scan under the same parent goes on from. A record longer than the bound is not scanned.
#[tactic(auto, using(crate::proofs::Taking::long_leaves, records::proofs::OneRecord::start_is, records::proofs::OneRecord::end_is))]
pub fn take_run(
    records: &[u32],
    p: usize,
    lo: usize,
    first_repeat: u32,
    own: Option<u32>,
    bound: u32,
    memo: Memo,
    work: &mut [u32],
    low: usize,
) -> Result<Part, Memo>
    requires { Takable first_repeat own records.now lo p bound memo work.old low }
    ensures { (T from to i s e : ℕ) (kids rest : Items) → Scans first_repeat own records.now work.old lo p bound memo i s e kids rest → Fits first_repeat T from to (span i s e kids rest) → Takes first_repeat bound i s e kids rest p work.old low (run_from first_repeat bound own i s e kids rest) result work.new }
{
    let r = record_at(records, p - 1);
    if bound < r.end - r.start {
        return Err(memo);
    }
    let scanned = find_buffer_size(records, work, p, lo, own, bound, memo);
    // Taken apart by `let .. else`, as document 01 asks (docs/DECISIONS.md, Forms).
    let Ok(run) = scanned else {
        return Err(scanned.err().unwrap_or(memo));
    };
    let base = pack_node(records, p, first_repeat, run, work, low);
    Ok(Part {
        p: p - run.size / RECORD_WIDTH,
        low: base,
        start: run.start,
        length: r.end - run.start,
    })
}
