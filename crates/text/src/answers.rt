// Answers line after line.
ghost use Rattle.std.specs.Prelude.{IfOk, IfErr, IsErrOf, Any, ◌≡◌};
ghost use Rattle.std.specs.IoError.{error_kind};
ghost use Rattle.std.specs.declared.io.ErrorKind.{ErrorKind};
ghost use Rattle.text.specs.Narrow.{BecomeItems, IsRefused};
ghost use Rattle.text.specs.declared.answers.Fault.TheVariants.{BadLine, OutOfMemory};

use crate::{lines, numbers};
use std::alloc::{AllocError, AllocFailed, Global};
use std::io::{BufWriter, Read, Write};
use std::num::TryFromIntError;
use std::{fmt, io};

// How many bytes of the input are read.
const MOST_BYTES: usize = 1048576;

// Why a line is given no answer.
#[derive(Clone, Copy, Debug, PartialEq, Eq)]
pub enum Fault {
    // It asks for none that the program gives.
    BadLine,
    OutOfMemory,
}

impl From<AllocError> for Fault {
    ghost from_gives = { λ _ fault. fault ≡ OutOfMemory };

    fn from(_: AllocError) -> Fault {
        Fault::OutOfMemory
    }
}

impl<T: Drop> From<AllocFailed<T>> for Fault {
    ghost from_gives = { λ _ fault. fault ≡ OutOfMemory };

    fn from(_: AllocFailed<T>) -> Fault {
        Fault::OutOfMemory
    }
}

// A number that is too large for its place.
impl From<TryFromIntError> for Fault {
    ghost from_gives = { λ _ fault. fault ≡ BadLine };

    fn from(_: TryFromIntError) -> Fault {
        Fault::BadLine
    }
}

// Numbers in fewer bits; a bad line where one of them is larger, which is said of the first such number.
pub fn narrow<T: TryFrom<u64, Error = TryFromIntError> + Drop>(
    alloc: Global,
    numbers: &[u64],
) -> Result<Vec<T>, Fault>
    ensures ok { IfOk result (λ narrowed. BecomeItems T.try_from_gives numbers.now narrowed.items) }
    ensures bad_line { IsErrOf result Fault.BadLine → Any (IsRefused T.try_from_gives) numbers.now }
{
    let mut narrowed = Vec::with_capacity(alloc, numbers.len())?;
    for number in numbers {
        narrowed.push(T::try_from(*number)?)?;
    }
    Ok(narrowed)
}

// What a program tells at its end: that an allocation failed. A failed write is not told.
pub fn told(done: io::Result<()>) -> io::Result<()>
    ensures memory { IfErr done (λ fault. error_kind fault ≡ ErrorKind.OutOfMemory → result ≡ done) }
    ensures alone { IfErr result (λ fault. (done ≡ Err fault) × (error_kind fault ≡ ErrorKind.OutOfMemory)) }
{
    match done {
        Err(fault) if fault.kind() == io::ErrorKind::OutOfMemory => Err(fault),
        _ => Ok(()),
    }
}

// What prints, as a writer that goes on where a write fails: what was to be written then is dropped, and not told.
#[derive(Drop)]
struct Untold<'a, P> {
    to: &'a P,
}

impl<P: Print> Write for Untold<'_, P> {
    fn write(&mut self, bytes: &[u8]) -> io::Result<usize> {
        let _ = io::writer(self.to).write_all(bytes);
        Ok(bytes.len())
    }

    fn flush(&mut self) -> io::Result<()> {
        Ok(())
    }
}

// Reads the input, and answers each line by its numbers, of which there may be so many; what has no answer is a bad line. What was
// read before a failure is answered.
pub fn replay<
    R: Input + Print + AllocGlobal,
    A: fmt::Display + Drop,
    F: FnMut(&[u64]) -> Result<A, Fault>,
>(rt: &R, most: usize, mut answer: F) -> io::Result<()>
    requires { F.IsAlwaysCallable answer }
    ensures { IfErr result (λ fault. error_kind fault ≡ ErrorKind.OutOfMemory) }
{
    // Room for all of it at once, so that reading asks for no more.
    let mut input = Vec::with_capacity(rt.alloc(), MOST_BYTES + 1)?;
    let _ = rt.reader().take(MOST_BYTES as u64).read_to_end(&mut input);
    let mut room = vec![in rt.alloc(); 0; most]?;
    let mut out = BufWriter::new(rt.alloc(), Untold { to: rt })?;
    for line in lines(&input) {
        let answered = match numbers(line, &mut room) {
            Some(given) => answer(given),
            None => Err(Fault::BadLine),
        };
        let written = match answered {
            Ok(answer) => writeln!(out, "{answer}"),
            Err(Fault::BadLine) => writeln!(out, "bad line"),
            Err(Fault::OutOfMemory) => return Err(AllocError.into()),
        };
        told(written)?;
    }
    told(out.flush())
}

#[cfg(test)]
mod tests {
    use super::*;
    use std::test::Fail;

    #[test]
    fn narrow_takes_what_fits(rt: HostRuntime) -> Result<(), Fail> {
        let alloc = rt.alloc();
        let taken = narrow::<u16>(alloc, &[0, 65535])?;
        assert_eq!(rt; taken.as_slice(), [0u16, 65535].as_slice());
        let refused = narrow::<u16>(alloc, &[0, 65536]);
        assert!(rt; matches!(refused, Err(Fault::BadLine)));
        Ok(())
    }
}
