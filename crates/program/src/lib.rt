// The program: reads a text, and writes its listing chunk by chunk.
#![tactic(auto)]

ghost use Rattle.std.specs.Prelude.{IfSome, OnOk};
ghost use Rattle.std.specs.Io.KnownBytes.{Appends};
ghost use Rattle.output.specs.Output.{output_of};

use std::io;
use std::io::{Read, Write};

// Writes the listing of a text, until it is at its end or nobody takes it.
fn write_listing<W: Write>(text: &[u8], to: &mut W) -> io::Result<()>
    ensures is { OnOk result (Appends (W.contents to.old) (W.contents to.new) (output_of text.now)) }
{
    let mut out = [0u8; 65536];
    let mut c = course::first();
    while !course::is_ended(c.stage) {
        let written = listing::next(text, c, &mut out);
        to.write_all(&out[..written.len])?;
        c = written.cursor;
    }
    Ok(())
}

// Reads a text and writes its listing. A text of more than 65,537 bytes need not be read to its end.
pub fn list_from<R: Read, W: Write>(from: &mut R, to: &mut W) -> io::Result<()>
    ensures is { OnOk result (IfSome (R.remaining from.old)
        (λ text. Appends (W.contents to.old) (W.contents to.new) (output_of text))) }
{
    let mut text = [0u8; 65537];
    let n = reading::read_full(from, &mut text)?;
    write_listing(&text[..n], to)
}
