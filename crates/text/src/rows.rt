// Numbers in rows.
ghost use Rattle.std.specs.Prelude.{◌<◌};

use std::{fmt, io};

// Each number, with a space before it.
#[derive(Clone, Copy)]
pub struct Spaced<'a, T>(pub &'a [T]);

impl<T: fmt::Display> fmt::Display for Spaced<'_, T> {
    fn fmt<W: fmt::Write>(&self, f: &mut fmt::Formatter<W>) -> fmt::Result {
        for number in self.0 {
            write!(f, " {number}")?;
        }
        Ok(())
    }
}

// Prints numbers, so many to a line.
pub fn print_rows<T: fmt::Display>(rt: &impl Print, numbers: &[T], width: usize) -> io::Result<()>
    requires { 0 < width }
{
    for row in numbers.chunks(width) {
        println!(rt; "{}", Spaced(row))?;
    }
    Ok(())
}
