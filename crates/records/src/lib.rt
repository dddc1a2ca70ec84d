// Record lists: the check of document 01, a call for users; and functions that read one record, for other crates, which ask that it is
// there.
#![tactic(auto)]

ghost use Rattle.std.specs.Prelude.{◌≡◌, true, ◌&&◌, ◌+◌, ◌-◌, ◌*◌, ◌/◌, ◌%◌, ◌<◌, ◌≤◌, min, leb, length, set};
ghost use Rattle.words.specs.Words.{record_width};
ghost use Rattle.records.specs.OneRecord.{record_of};
ghost use Rattle.records.specs.Forest.{behind};
ghost use Rattle.records.specs.Parse.{nearest};
ghost use Rattle.records.specs.Check.{own_fault, fills, in_place, list_range_fault, range_outcome, list_check, check};
ghost use Rattle.records.specs.Taking.{finished, Spelt, reaches, begins_at, Says, Faultless, judged};
ghost use Rattle.words.specs.Refusal.{answered};
ghost use Rattle.records.specs.Answer.{record_count, number_or_none};

use words::{RECORD_SIZE, RECORD_WIDTH, RecordFault, Refusal};

// A record's words.
#[derive(Clone, Copy, Debug, PartialEq, Eq)]
pub struct Record {
    pub id: u32,
    pub start: u32,
    pub end: u32,
    pub size: u32,
}

impl Record {
    // How many records its span holds.
    pub fn span(self) -> usize
        ensures { result ≡ self.size / record_width }
    {
        (self.size / RECORD_SIZE) as usize
    }

    // Tests it by itself, as record i: 6 to 8.
    #[tactic(auto, unfolding(crate::specs::Check::own_fault))]
    fn check_own(self, types: u32, i: usize) -> Result<(), RecordFault>
        requires { i < 1048576 }
        ensures { number_or_none result ≡ own_fault types i self.id self.start self.end self.size }
    {
        if types <= self.id {
            return Err(RecordFault::Id);
        }
        if self.end < self.start {
            return Err(RecordFault::Range);
        }
        let size = self.size as usize;
        if size == RECORD_WIDTH {
            return Ok(());
        }
        if size < RECORD_WIDTH {
            return Err(RecordFault::Size);
        }
        if size % RECORD_WIDTH != 0 {
            return Err(RecordFault::Size);
        }
        if RECORD_WIDTH * (i + 1) < size {
            return Err(RecordFault::Size);
        }
        Ok(())
    }

    // Whether it reaches from its first child's start to its last child's end.
    #[tactic(auto, unfolding(crate::specs::Taking::reaches))]
    fn covers(self, first: u32, last: u32) -> bool
        ensures { result ≡ reaches self.start self.end first last }
    {
        self.start <= first && last <= self.end
    }

    // Whether it stands from lo to hi and starts at or after `after`.
    #[tactic(auto, unfolding(crate::specs::Check::in_place))]
    fn stands(self, lo: u32, hi: u32, after: u32) -> bool
        ensures { result ≡ in_place lo hi after self.start self.end }
    {
        lo.max(after) <= self.start && self.end <= hi
    }
}

// Record i.
#[tactic(auto, unfolding(crate::specs::OneRecord::record_of))]
pub fn record_at(records: &[u32], i: usize) -> Record
    requires { i * record_width + record_width ≤ length records.now }
    ensures { result ≡ record_of records.now i }
{
    let at = i * RECORD_WIDTH;
    Record {
        id: records[at],
        start: records[at + 1],
        end: records[at + 2],
        size: records[at + 3],
    }
}

// Where the last of the first p records ends, if it is one of the `left` still to be taken up; else lo. The list goes whole with p, since
// spans and definitions count from its front.
fn behind_at(records: &[u32], p: usize, left: usize, lo: u32) -> u32
    requires spelt { Spelt records.now p }
    requires left_le_p { left ≤ p }
    ensures { result ≡ behind lo (nearest (finished records.now p) left) }
{
    if left == 0 {
        return lo;
    }
    record_at(records, p - 1).end
}

// Whether a record starts at or after the end of the record before `from`, or at or after `start` if there is none.
fn follows(records: &[u32], r: Record, from: usize, start: u32) -> bool
    requires { Spelt records.now from }
    ensures { result ≡ leb (behind start (finished records.now from)) r.start }
{
    behind_at(records, from, from, start) <= r.start
}

// Whether `level` is the number of a sibling, one of `height`, whose span begins at record `from`.
#[tactic(auto, unfolding(crate::specs::Taking::begins_at))]
fn begins(siblings: &[u32], level: usize, from: usize, height: usize) -> bool
    requires { height * 2 ≤ length siblings.now }
    ensures { result ≡ begins_at siblings.now level from height }
{
    level < height && siblings[level * 2] as usize == from
}

// One sibling more: its span begins at record `from`.
fn push(levels: &mut [u32], siblings: &mut [u32], height: usize, from: usize, start: u32)
    requires from_bound { from < 1048576 }
    requires height_le_from { height ≤ from }
    requires from_in_bounds { from < length levels.old }
    requires height_in_bounds { height * 2 + 1 < length siblings.old }
    ensures level_set { levels.new ≡ set levels.old from height }
    ensures sibling_set { siblings.new ≡ set (set siblings.old (height * 2) from) (height * 2 + 1) start }
{
    levels[from] = height as u32;
    siblings[height * 2] = from as u32;
    siblings[height * 2 + 1] = start;
}

// 6 to 9, record by record; without one of them, whether the list is in order, so that 10 does not apply. The two tables hold the
// first-level siblings so far (Stacked): the first child of a record is found at once, by the record at which both spans begin. Only its
// start and the last child's end are compared with the record's range: the children are in order.
#[tactic(auto, unfolding(crate::specs::Taking::begins_at))]
fn scan_records(
    types: u32,
    start: u32,
    records: &[u32],
    levels: &mut [u32],
    siblings: &mut [u32],
) -> Result<bool, Refusal>
    requires record_width_len { length records.now % record_width ≡ 0 }
    requires record_width_len_bound { length records.now / record_width ≤ 1048576 }
    requires levels_in_bounds { length records.now / record_width ≤ length levels.old }
    requires siblings_in_bounds { length records.now / record_width * 2 ≤ length siblings.old }
    ensures { Says types start records.now result }
{
    let n = records.len() / RECORD_WIDTH;
    let mut ordered = true;
    let mut height: usize = 0;
    for i in 0..n {
        let r = record_at(records, i);
        if let Err(fault) = r.check_own(types, i) {
            return Err(Refusal::Record(fault, i));
        }
        if r.size == RECORD_SIZE {
            ordered &= follows(records, r, i, start);
            push(levels, siblings, height, i, r.start);
            height += 1;
            continue;
        }
        let from = i + 1 - r.span();
        let level = levels[from] as usize;
        if !begins(siblings, level, from, height) {
            return Err(Refusal::Record(RecordFault::Span, i));
        }
        let held = r.covers(siblings[level * 2 + 1], record_at(records, i - 1).end);
        ordered &= held & follows(records, r, from, start);
        siblings[level * 2 + 1] = r.start;
        height = level + 1;
    }
    Ok(ordered)
}

// The children of a record from lo to hi, which are the last k of the i records before it with their descendants, from the
// last child back. The size of a child says where the one before it ends: the list itself is the stack.
#[tactic(auto, using(crate::proofs::Judging::child_some, crate::proofs::Judging::child_within, crate::proofs::Judging::child_fits, crate::proofs::Judging::child_earlier))]
fn judge(records: &[u32], i: usize, k: usize, lo: u32, hi: u32, lowest: usize) -> usize
    requires spelt { Spelt records.now i }
    requires k_le_i { k ≤ i }
    requires k_value { fills (finished records.now i) k ≡ true }
    ensures { result ≡ judged lowest lo hi (finished records.now i) k }
{
    let mut p = i;
    let mut left = k;
    let mut low = lowest;
    // A `while`: the size of each child names the place before it.
    while 0 < left {
        let last = p - 1;
        let child = record_at(records, last);
        let span = child.span();
        left -= span;
        p -= span;
        let after = behind_at(records, p, left, lo);
        if !child.stands(lo, hi, after) {
            low = low.min(last);
        }
    }
    low
}

// 10, lowest record first, where none of 6 to 9 applies. `low` is the lowest record below the first level to which 10
// applies, n for none.
fn check_ranges(start: u32, records: &[u32]) -> Result<usize, Refusal>
    requires record_width_len { length records.now % record_width ≡ 0 }
    requires record_width_len_bound { length records.now / record_width ≤ 1048576 }
    requires faultless { Faultless records.now }
    ensures { answered record_count result ≡ range_outcome (length records.now / record_width) (list_range_fault start records.now) }
{
    let n = records.len() / RECORD_WIDTH;
    let mut low = n;
    for i in 0..n {
        let r = record_at(records, i);
        low = judge(records, i, r.span() - 1, r.start, r.end, low);
    }
    let lowest = judge(records, n, n, start, u32::MAX, low);
    if lowest < n {
        return Err(Refusal::Record(RecordFault::Place, lowest));
    }
    Ok(n)
}

// 6 to 9 record by record, then 10. The work slice is divided into the two tables of the scan.
fn check_records(
    types: u32,
    start: u32,
    records: &[u32],
    work: &mut [u32],
) -> Result<usize, Refusal>
    requires record_width_len { length records.now % record_width ≡ 0 }
    requires record_width_len_bound { length records.now / record_width ≤ 1048576 }
    requires record_width_in_bounds { length records.now / record_width * 3 ≤ length work.old }
    ensures { answered record_count result ≡ list_check types start records.now }
{
    let n = records.len() / RECORD_WIDTH;
    let (levels, siblings) = work.split_at_mut(n);
    if scan_records(types, start, records, levels, siblings)? {
        return Ok(n);
    }
    check_ranges(start, records)
}

// The call check, which tells how many records there are. What the work slice held decides nothing.
#[tactic(auto, unfolding(crate::specs::Check::check))]
pub fn check(
    types: u32,
    first_repeat: u32,
    bound: u32,
    start: u32,
    top: u32,
    records: &[u32],
    work: &mut [u32],
) -> Result<usize, Refusal>
    ensures { answered record_count result ≡ check types bound top start (length work.old) records.now }
{
    if 65536 < types {
        return Err(Refusal::ManyTypes);
    }
    if 65535 < bound {
        return Err(Refusal::WideBound);
    }
    if types <= top {
        return Err(Refusal::TopId);
    }
    if records.len() % RECORD_WIDTH != 0 {
        return Err(Refusal::UnevenList);
    }
    if 1048576 < records.len() / RECORD_WIDTH {
        return Err(Refusal::ManyRecords);
    }
    if work.len() < 96 * (records.len() / RECORD_WIDTH) + 96 {
        return Err(Refusal::LittleWork);
    }
    check_records(types, start, records, work)
}
