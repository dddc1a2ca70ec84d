// The exported functions as C and Rust link them: each calls the function of the same name of the crate gateway, and promises the same.
// Slices stand apart, as C has them. A crate is a library or a static library, so that there are two functions of each name.
#![tactic(auto)]

ghost use Rattle.std.specs.Prelude.{◌≡◌, [], ◌∷◌};
ghost use lib.ListN;
ghost use lib.ListN.{length};
ghost use Rattle.records.specs.Check.{check};
ghost use Rattle.tree.specs.Calls.{build_call};
ghost use Rattle.rules.specs.Calls.{materialise_call, balance_call, list_call};
ghost use Rattle.part.specs.Part.{part_check};
ghost use Rattle.slicing.specs.Slice.{slice_part};
ghost use Rattle.search.specs.Search.{search_part};
ghost use Rattle.gateway.specs.Told.{told, told_result};
ghost use Rattle.gateway.specs.Given.{given_as, flag_as};

// The call check of document 01; the count is that of the records.
#[unsafe(no_mangle)]
pub extern "C" fn hulwyth_check(
    types: u32,
    first_repeat: u32,
    bound: u32,
    start: u32,
    top: u32,
    records: &[u32],
    work: &mut [u32],
    info: &mut [u32],
) -> u32
    ensures { record { number = result; info = info.new; outputs = [] } ≡ told 2 (check types bound top start (length work.old) records.now) info.old }
{
    gateway::hulwyth_check(types, first_repeat, bound, start, top, records, work, info)
}

// The call build of document 01; the counts are cells and words.
#[unsafe(no_mangle)]
pub extern "C" fn hulwyth_build(
    types: u32,
    first_repeat: u32,
    bound: u32,
    start: u32,
    top: u32,
    given: u32,
    length: u32,
    records: &[u32],
    work: &mut [u32],
    cells: &mut [u32],
    words: &mut [u16],
    info: &mut [u32],
) -> u32
    ensures { record { number = result; info = info.new; outputs = cells.new ∷ words.new ∷ [] } ≡ told_result 2 (build_call types first_repeat bound start top (given_as given length) (lib.ListN.length work.old) records.now cells.old words.old) info.old }
{
    gateway::hulwyth_build(
        types,
        first_repeat,
        bound,
        start,
        top,
        given,
        length,
        records,
        work,
        cells,
        words,
        info,
    )
}

// The call materialise of document 01; the counts are cells and words, of which there are none.
#[unsafe(no_mangle)]
pub extern "C" fn hulwyth_materialise(
    types: u32,
    cells: &[u32],
    words: &[u16],
    work: &mut [u32],
    out: &mut [u32],
    info: &mut [u32],
) -> u32
    ensures { record { number = result; info = info.new; outputs = out.new ∷ [] } ≡ told_result 2 (materialise_call types cells.now words.now (length work.old) out.old) info.old }
{
    gateway::hulwyth_materialise(types, cells, words, work, out, info)
}

// The call balance of document 01, with whether place 0 of the set is none; the counts are cells and words.
#[unsafe(no_mangle)]
pub extern "C" fn hulwyth_balance(
    types: u32,
    none_first: u32,
    cells: &[u32],
    words: &[u16],
    work: &mut [u32],
    out: &mut [u32],
    packed: &mut [u16],
    info: &mut [u32],
) -> u32
    ensures { record { number = result; info = info.new; outputs = out.new ∷ packed.new ∷ [] } ≡ told_result 2 (balance_call types (flag_as none_first) cells.now words.now (length work.old) out.old packed.old) info.old }
{
    gateway::hulwyth_balance(types, none_first, cells, words, work, out, packed, info)
}

// The call list of document 01, on a tree with packed parts; the count is that of the lines.
#[unsafe(no_mangle)]
pub extern "C" fn hulwyth_list(
    types: u32,
    first_repeat: u32,
    start: u32,
    cells: &[u32],
    words: &[u16],
    work: &mut [u32],
    lines: &mut [u32],
    info: &mut [u32],
) -> u32
    ensures { record { number = result; info = info.new; outputs = lines.new ∷ [] } ≡ told_result 2 (list_call types first_repeat start cells.now words.now (length work.old) lines.old) info.old }
{
    gateway::hulwyth_list(types, first_repeat, start, cells, words, work, lines, info)
}

// The part check of document 01; the counts are records, greatest end and deepest nesting.
#[unsafe(no_mangle)]
pub extern "C" fn hulwyth_part_check(types: u32, words: &[u16], info: &mut [u32]) -> u32
    ensures { record { number = result; info = info.new; outputs = [] } ≡ told 3 (part_check words.now types) info.old }
{
    gateway::hulwyth_part_check(types, words, info)
}

// Slicing of document 01; the counts are words and length.
#[unsafe(no_mangle)]
pub extern "C" fn hulwyth_part_slice(
    types: u32,
    from: usize,
    to: usize,
    base: u32,
    words: &[u16],
    out: &mut [u16],
    info: &mut [u32],
) -> u32
    ensures { record { number = result; info = info.new; outputs = out.new ∷ [] } ≡ told_result 2 (slice_part words.now types from to base out.old) info.old }
{
    gateway::hulwyth_part_slice(types, from, to, base, words, out, info)
}

// Searching of document 01; the counts are 1 and the match's word offset, or 0 and 0.
#[unsafe(no_mangle)]
pub extern "C" fn hulwyth_part_search(
    types: u32,
    from: usize,
    to: usize,
    direction: i8,
    position: u32,
    base: u32,
    side: i8,
    words: &[u16],
    info: &mut [u32],
) -> u32
    ensures { record { number = result; info = info.new; outputs = [] } ≡ told 2 (search_part words.now types from to direction position base side) info.old }
{
    gateway::hulwyth_part_search(
        types, from, to, direction, position, base, side, words, info,
    )
}
