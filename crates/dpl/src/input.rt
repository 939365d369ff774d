// Input, read to its end. A read that fails is told from the end: the part of a book that came before it is never taken for the whole.
ghost use Rattle.std.specs.Prelude.{◌<◌, ◌≤◌, length, take, IfOk, IfErr};
ghost use Rattle.std.specs.Io.KnownBytes.{Consumes, IsAtEnd};

use std::io::Read;

// A read failed, after so many bytes.
#[derive(Clone, Copy, Debug, PartialEq, Eq)]
pub struct ReadFailed {
    pub bytes: usize,
}

// Reads until the input ends, the area is full or a read fails, and returns how many bytes were read.
#[tactic(auto, using(crate::proofs::Filling::filled_on))]
pub fn read<R: Read>(from: &mut R, text: &mut [u8]) -> Result<usize, ReadFailed>
    ensures whole { IfOk result (λ n. (n ≤ length text.new)
        × Consumes (R.remaining from.old) (R.remaining from.new) (take n text.new)
        × (n < length text.new → IsAtEnd (R.remaining from.new))) }
    ensures part { IfErr result (λ e. (e.bytes ≤ length text.new)
        × Consumes (R.remaining from.old) (R.remaining from.new) (take e.bytes text.new)) }
{
    let mut at = 0;
    while at < text.len() {
        let n = from
            .read(&mut text[at..])
            .map_err(|_| ReadFailed { bytes: at })?;
        if n == 0 {
            return Ok(at);
        }
        at += n;
    }
    Ok(at)
}
