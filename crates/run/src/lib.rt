// The run: a build, then listing on the cells and words it wrote.
#![tactic(auto)]

ghost use Rattle.std.specs.Prelude.{◌≡◌, [], ◌∷◌, length};
ghost use Rattle.run.specs.Running.{one_work, run_call};
ghost use Rattle.run.specs.Answer.{ran_outcome, ran_calls};

use tree::CELL_WIDTH;
use words::Refusal;

// How many cells and packed words the build of a run wrote, and how many lines listing did.
#[derive(Clone, Copy, Debug, PartialEq, Eq)]
pub struct Figures {
    pub cells: usize,
    pub words: usize,
    pub lines: usize,
}

// Why a call of a run is refused, and how many calls were accepted before it.
#[derive(Clone, Copy, Debug, PartialEq, Eq)]
pub struct Stopped {
    pub refusal: Refusal,
    pub calls: u32,
}

// The two calls with one T, F and S. Listing is handed what the build wrote, and a build that is refused ends the run.
pub fn run(
    types: u32,
    first_repeat: u32,
    bound: u32,
    start: u32,
    top: u32,
    given: Option<u32>,
    records: &[u32],
    work: &mut [u32],
    cells: &mut [u32],
    words: &mut [u16],
    lines: &mut [u32],
) -> Result<Figures, Stopped>
    ensures { record { outcome = ran_outcome result; calls = ran_calls result; outputs = cells.new ∷ words.new ∷ lines.new ∷ [] } ≡ run_call types first_repeat bound start top given (one_work (length work.old)) records.now cells.old words.old lines.old }
{
    let written = match build::build(
        types,
        first_repeat,
        bound,
        start,
        top,
        given,
        records,
        work,
        cells,
        words,
    ) {
        Ok(written) => written,
        Err(refusal) => return Err(Stopped { refusal, calls: 0 }),
    };
    let built = &cells[..CELL_WIDTH * written.cells];
    let parts = &words[..written.words];
    match listing::list(types, first_repeat, start, built, parts, work, lines) {
        Ok(count) => Ok(Figures {
            cells: written.cells,
            words: written.words,
            lines: count,
        }),
        Err(refusal) => Err(Stopped { refusal, calls: 1 }),
    }
}
