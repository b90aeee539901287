// Reading: bytes from a reader, and where a part of them ends.
#![tactic(auto)]

ghost use Rattle.std.specs.Prelude.{◌==◌, ◌<◌, ◌≤◌, length, take, IfOk};
ghost use Rattle.std.specs.Io.KnownBytes.{Consumes, IsAtEnd};
ghost use Rattle.std.specs.List.{IsFirstMatchOrLen};

use std::io;
use std::io::Read;

// Reads until the bytes are full or the input ends; how many were read.
pub fn read_full<R: Read>(from: &mut R, bytes: &mut [u8]) -> io::Result<usize>
    ensures within { IfOk result (λ n. n ≤ length bytes.new) }
    ensures read { IfOk result (λ n. Consumes (R.remaining from.old) (R.remaining from.new) (take n bytes.new)) }
    ensures ends { IfOk result (λ n. n < length bytes.new → IsAtEnd (R.remaining from.new)) }
{
    let mut done: usize = 0;
    while done < bytes.len() {
        let n = from.read(&mut bytes[done..])?;
        if n == 0 {
            return Ok(done);
        }
        done += n;
    }
    Ok(done)
}

// The place of the first such byte, or the length where there is none.
pub fn place_of(s: &[u8], byte: u8) -> usize
    ensures within { result ≤ length s.now }
    ensures first { IsFirstMatchOrLen (λ b. b == byte) s.now result }
{
    s.iter().position(|b| *b == byte).unwrap_or(s.len())
}
