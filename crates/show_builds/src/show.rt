// What came beside what is due.
use std::{fmt, io};
use tree::Written;
use words::Refusal;

// A number that came and the one that is due: behind one that is not the other stands WRONG.
#[derive(Clone, Copy)]
pub struct Against<T>(pub T, pub T);

impl<T: fmt::Display + PartialEq> fmt::Display for Against<T> {
    fn fmt<W: fmt::Write>(&self, f: &mut fmt::Formatter<W>) -> fmt::Result {
        let Against(came, due) = self;
        write!(f, "{came}")?;
        if came != due {
            write!(f, " WRONG, not {due}")?;
        }
        Ok(())
    }
}

// A refusal's number, and the place that it names.
#[derive(Clone, Copy)]
struct Refused(Refusal);

impl fmt::Display for Refused {
    fn fmt<W: fmt::Write>(&self, f: &mut fmt::Formatter<W>) -> fmt::Result {
        write!(f, "refused {} at {}", self.0.number(), self.0.place())
    }
}

// Ends a line with what a build answered.
pub fn built(
    rt: &impl Print,
    came: Result<Written, Refusal>,
    due: Result<Written, Refusal>,
) -> io::Result<()> {
    match (came, due) {
        (Ok(came), Ok(due)) => {
            let cells = Against(came.cells, due.cells);
            let words = Against(came.words, due.words);
            println!(rt; ": cells {cells}, packed words {words}")
        }
        (Err(came), Err(due)) => {
            let number = Against(came.number(), due.number());
            let place = Against(came.place(), due.place());
            println!(rt; ": refused {number} at {place}")
        }
        (Ok(_), Err(due)) => println!(rt; ": WRONG, not {}", Refused(due)),
        (Err(came), Ok(_)) => println!(rt; ": WRONG, {}", Refused(came)),
    }
}

// A line with what a listing answered: so many lines are due.
pub fn listed(rt: &impl Print, came: Result<usize, Refusal>, due: usize) -> io::Result<()> {
    match came {
        Ok(came) => println!(rt; "lines listed {}", Against(came, due)),
        Err(came) => println!(rt; "lines listed WRONG, {}", Refused(came)),
    }
}
