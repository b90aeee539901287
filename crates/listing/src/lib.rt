// The listing of a text, 65,536 bytes at a time.
#![tactic(auto)]

ghost use Rattle.std.specs.Prelude.{◌≡◌};
ghost use Rattle.text.specs.Puts.{Put, Counts};
ghost use Rattle.course.specs.Moves.{Falls};
ghost use Rattle.listing.specs.Listing.{PartFits, part_lines, cursor_of, chunk_of, Pays};

use course::{Cursor, Part};

// The cursor afterwards, and how many bytes were written.
#[derive(Clone, Copy)]
pub struct Written {
    pub cursor: Cursor,
    pub len: usize,
}

// The lines of a part, if there is one, at the front of the lent bytes; their length.
fn put_part(out: &mut [u8; 65536], room: &[u8; 22752], part: Option<Part>) -> usize
    requires fits { PartFits part }
    ensures is { Put out.old 0 (part_lines part room.now) out.new result }
    ensures counts { Counts result out.new }
{
    let Some(part) = part else {
        return 0;
    };
    match part {
        Part::Scale(scale) => print::put_scale(out, scale),
        Part::Records { count, m } => print::put_records(out, room, count, m),
        Part::Refused { refusal, line } => {
            print::put_refused(out, u64::from(u32::from(refusal)), line)
        }
    }
}

// Writes the next bytes of the listing at the front of the lent bytes. Any cursor is answered.
pub fn next(text: &[u8], c: Cursor, out: &mut [u8; 65536]) -> Written
    ensures is { (result.cursor ≡ cursor_of text.now c) × Put out.old 0 (chunk_of text.now c) out.new result.len }
    ensures counts { Counts result.len out.new }
    ensures pays { Pays text.now c result.cursor result.len out.new }
    ensures ends { Falls text.now c result.cursor }
{
    let mut room = [0u8; 22752];
    let t = course::turn(text, c, &mut room);
    let len = put_part(out, &room, t.part);
    Written {
        cursor: t.cursor,
        len,
    }
}
