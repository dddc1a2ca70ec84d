// The functions that the crate gateway_c exports for C and Rust: the number is returned, and place and counts go to the front of
// `info`, as many as it holds. Every call tells two counts, the part check three; one that a call does not have is 0. Slices stand apart
// and refusals are numbers, as C has them.
#![tactic(auto)]

ghost use Rattle.std.specs.Prelude.{◌≡◌, [], ◌∷◌, map};
ghost use lib.ListN;
ghost use lib.ListN.{length, set};
ghost use Rattle.words.specs.Outcome.{number_of, place_of};
ghost use Rattle.words.specs.Refusal.{refused_by};
ghost use Rattle.records.specs.Check.{check};
ghost use Rattle.tree.specs.Calls.{build_call};
ghost use Rattle.rules.specs.Calls.{materialise_call, balance_call, list_call};
ghost use Rattle.part.specs.Part.{part_check};
ghost use Rattle.slicing.specs.Slice.{slice_part};
ghost use Rattle.search.specs.Search.{search_part};
ghost use Rattle.gateway.specs.Told.{as_word, laid, told, told_result};
ghost use Rattle.gateway.specs.Given.{given_as, flag_as};

use words::Refusal;

// A number as a word of `info`.
fn word(n: usize) -> u32
    ensures { result ≡ as_word n }
{
    u32::try_from(n).unwrap_or(u32::MAX)
}

// One word, if the slice reaches so far.
fn put(info: &mut [u32], at: usize, n: usize)
    ensures { info.new ≡ set info.old at (as_word n) }
{
    if at < info.len() {
        info[at] = word(n);
    }
}

// Place and counts of an outcome, one after the other.
fn tell(info: &mut [u32], numbers: &[usize])
    ensures { info.new ≡ laid (map as_word numbers.now) info.old }
{
    for i in 0..numbers.len() {
        put(info, i, numbers[i]);
    }
}

// Tells the place of a refusal, without counts, and answers its number.
fn refuse(info: &mut [u32], refusal: Refusal) -> u32
    ensures number { result ≡ number_of (refused_by refusal) }
    ensures place { info.new ≡ laid (map as_word (place_of (refused_by refusal) ∷ 0 ∷ 0 ∷ [])) info.old }
{
    tell(info, &[refusal.place(), 0, 0]);
    refusal.number()
}

// The call check of document 01; the count is that of the records.
pub fn hulwyth_check(
    types: u32,
    first_repeat: u32,
    bound: u32,
    start: u32,
    top: u32,
    records: &[u32],
    work: &mut [u32],
    info: &mut [u32],
) -> u32
    ensures { record { number = result; info = info.new; outputs = [] } ≡ told 2 (check types bound top start (length work.old) records.now) info.old }
{
    match records::check(types, first_repeat, bound, start, top, records, work) {
        Ok(count) => {
            tell(info, &[0, count, 0]);
            0
        }
        Err(refusal) => refuse(info, refusal),
    }
}

// A length that is given, or none: `given` 0 says that there is none.
fn given_length(given: u32, length: u32) -> Option<u32>
    ensures { result ≡ given_as given length }
{
    if given == 0 { None } else { Some(length) }
}

// The call build of document 01; the counts are cells and words.
pub fn hulwyth_build(
    types: u32,
    first_repeat: u32,
    bound: u32,
    start: u32,
    top: u32,
    given: u32,
    length: u32,
    records: &[u32],
    work: &mut [u32],
    cells: &mut [u32],
    words: &mut [u16],
    info: &mut [u32],
) -> u32
    ensures { record { number = result; info = info.new; outputs = cells.new ∷ words.new ∷ [] } ≡ told_result 2 (build_call types first_repeat bound start top (given_as given length) (lib.ListN.length work.old) records.now cells.old words.old) info.old }
{
    let last = given_length(given, length);
    match build::build(
        types,
        first_repeat,
        bound,
        start,
        top,
        last,
        records,
        work,
        cells,
        words,
    ) {
        Ok(built) => {
            tell(info, &[0, built.cells, built.words]);
            0
        }
        Err(refusal) => refuse(info, refusal),
    }
}

// The call materialise of document 01; the counts are cells and words, of which there are none.
pub fn hulwyth_materialise(
    types: u32,
    cells: &[u32],
    words: &[u16],
    work: &mut [u32],
    out: &mut [u32],
    info: &mut [u32],
) -> u32
    ensures { record { number = result; info = info.new; outputs = out.new ∷ [] } ≡ told_result 2 (materialise_call types cells.now words.now (length work.old) out.old) info.old }
{
    match materialize::materialize(types, cells, words, work, out) {
        Ok(count) => {
            tell(info, &[0, count, 0]);
            0
        }
        Err(refusal) => refuse(info, refusal),
    }
}

// The call balance of document 01, with whether place 0 of the set is none; the counts are cells and words.
pub fn hulwyth_balance(
    types: u32,
    none_first: u32,
    cells: &[u32],
    words: &[u16],
    work: &mut [u32],
    out: &mut [u32],
    packed: &mut [u16],
    info: &mut [u32],
) -> u32
    ensures { record { number = result; info = info.new; outputs = out.new ∷ packed.new ∷ [] } ≡ told_result 2 (balance_call types (flag_as none_first) cells.now words.now (length work.old) out.old packed.old) info.old }
{
    match balance::balance(types, none_first != 0, cells, words, work, out, packed) {
        Ok(written) => {
            tell(info, &[0, written.cells, written.words]);
            0
        }
        Err(refusal) => refuse(info, refusal),
    }
}

// The call list of document 01, on a tree with packed parts; the count is that of the lines.
pub fn hulwyth_list(
    types: u32,
    first_repeat: u32,
    start: u32,
    cells: &[u32],
    words: &[u16],
    work: &mut [u32],
    lines: &mut [u32],
    info: &mut [u32],
) -> u32
    ensures { record { number = result; info = info.new; outputs = lines.new ∷ [] } ≡ told_result 2 (list_call types first_repeat start cells.now words.now (length work.old) lines.old) info.old }
{
    match listing::list(types, first_repeat, start, cells, words, work, lines) {
        Ok(count) => {
            tell(info, &[0, count, 0]);
            0
        }
        Err(refusal) => refuse(info, refusal),
    }
}

// The part check of document 01; the counts are records, greatest end and deepest nesting.
pub fn hulwyth_part_check(types: u32, words: &[u16], info: &mut [u32]) -> u32
    ensures { record { number = result; info = info.new; outputs = [] } ≡ told 3 (part_check words.now types) info.old }
{
    match part::part_check(words, types) {
        Ok(figures) => {
            tell(
                info,
                &[
                    0,
                    figures.records,
                    usize::from(figures.greatest),
                    figures.deepest,
                ],
            );
            0
        }
        Err(refusal) => {
            tell(info, &[refusal.place(), 0, 0, 0]);
            refusal.number()
        }
    }
}

// Slicing of document 01; the counts are words and length.
pub fn hulwyth_part_slice(
    types: u32,
    from: usize,
    to: usize,
    base: u32,
    words: &[u16],
    out: &mut [u16],
    info: &mut [u32],
) -> u32
    ensures { record { number = result; info = info.new; outputs = out.new ∷ [] } ≡ told_result 2 (slice_part words.now types from to base out.old) info.old }
{
    match slicing::slice(words, types, from, to, base, out) {
        Ok(slice) => {
            tell(info, &[0, slice.words, usize::from(slice.length)]);
            0
        }
        Err(refusal) => refuse(info, refusal),
    }
}

// Searching of document 01; the counts are 1 and the match's word offset, or 0 and 0.
pub fn hulwyth_part_search(
    types: u32,
    from: usize,
    to: usize,
    direction: i8,
    position: u32,
    base: u32,
    side: i8,
    words: &[u16],
    info: &mut [u32],
) -> u32
    ensures { record { number = result; info = info.new; outputs = [] } ≡ told 2 (search_part words.now types from to direction position base side) info.old }
{
    match search::search(words, types, from, to, direction, position, base, side) {
        Ok(Some(at)) => {
            tell(info, &[0, 1, at]);
            0
        }
        Ok(None) => {
            tell(info, &[0, 0, 0]);
            0
        }
        Err(refusal) => refuse(info, refusal),
    }
}
