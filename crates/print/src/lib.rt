// The lines that the program writes.
#![tactic(auto)]

ghost use Rattle.std.specs.Prelude.{◌≡◌, [], ◌∷◌, ◌+◌, ◌*◌, ◌≤◌, ◌<◌, length, take, drop};
ghost use Rattle.rules.specs.Record.{slots_from, read_record};
ghost use Rattle.text.specs.Parts.{space};
ghost use Rattle.text.specs.Puts.{Put, Counts};
ghost use Rattle.print.specs.Decimals.{decimal_of};
ghost use Rattle.print.specs.Pens.{Writes, SamePen};
ghost use Rattle.print.specs.Printed.{scale_line, refused_line, spaced, record_line, record_lines};

// How many digits the number has.
fn digit_count(x: u64) -> usize
    ensures is { result ≡ length (decimal_of x) }
{
    let mut n: usize = 0;
    let mut y = x;
    while 10000 <= y {
        y /= 10000;
        n += 4;
    }
    if y < 10 {
        return n + 1;
    }
    if y < 100 {
        return n + 2;
    }
    if y < 1000 {
        return n + 3;
    }
    n + 4
}

// A number in decimal digits at a place; the next place.
pub fn put_decimal(out: &mut [u8], at: usize, x: u64) -> usize
    requires room { at + length (decimal_of x) ≤ length out.old }
    ensures is { Put out.old at (decimal_of x) out.new result }
{
    let n = digit_count(x);
    let mut y = x;
    for i in (0..n).rev() {
        out[at + i] = b'0' + (y % 10) as u8;
        y /= 10;
    }
    at + n
}

// Bytes that are lent, and the place of the next one to be written.
#[derive(Drop)]
pub struct Pen<'a> {
    pub out: &'a mut [u8],
    pub at: usize,
}

impl Pen<'_> {
    // A byte.
    fn byte(&mut self, b: u8)
        requires room { self.old.at < length self.old.out.now }
        ensures is { Writes self.old self.new (b ∷ []) }
        ensures same { SamePen self.old self.new }
    {
        self.out[self.at] = b;
        self.at += 1;
    }

    // Fixed bytes.
    fn word(&mut self, word: &[u8])
        requires room { self.old.at + length word.now ≤ length self.old.out.now }
        ensures is { Writes self.old self.new word.now }
        ensures same { SamePen self.old self.new }
    {
        let end = self.at + word.len();
        self.out[self.at..end].copy_from_slice(word);
        self.at = end;
    }

    // A number in decimal digits.
    pub fn decimal(&mut self, x: u64)
        requires room { self.old.at + length (decimal_of x) ≤ length self.old.out.now }
        ensures is { Writes self.old self.new (decimal_of x) }
        ensures same { SamePen self.old self.new }
    {
        self.at = put_decimal(self.out, self.at, x);
    }

    // A space and a number.
    fn spaced(&mut self, x: u64)
        requires room { self.old.at + 1 + length (decimal_of x) ≤ length self.old.out.now }
        ensures is { Writes self.old self.new (space ∷ decimal_of x) }
        ensures same { SamePen self.old self.new }
    {
        self.byte(b' ');
        self.decimal(x);
    }

    // The first m slots from place `from` of the room, each after a space.
    fn slots(&mut self, room: &[u8], from: usize, m: usize)
        requires room { (m ≤ 16) × (from + 32 ≤ length room.now) × (self.old.at + 6 * m ≤ length self.old.out.now) }
        ensures is { Writes self.old self.new (spaced (take m (slots_from 16 (drop from room.now)))) × (self.new.at ≤ self.old.at + 6 * m) }
        ensures same { SamePen self.old self.new }
    {
        for k in 0..m {
            self.spaced(ground::get(room, from + 2 * k, 2));
        }
    }

    // The line of the record at a place of the room: from, to, then m task numbers.
    fn line(&mut self, room: &[u8], place: usize, m: usize)
        requires room { (m ≤ 16) × (place + 48 ≤ length room.now) × (self.old.at + 138 ≤ length self.old.out.now) }
        ensures is { Writes self.old self.new (record_line m (read_record (drop place room.now))) × (self.new.at ≤ self.old.at + 138) }
        ensures same { SamePen self.old self.new }
    {
        let from = ground::get(room, place, 8);
        let to = ground::get(room, place + 8, 8);
        self.decimal(from);
        self.spaced(to);
        self.slots(room, place + 16, m);
        self.byte(b'\n');
    }
}

// The line "scale L"; its length.
pub fn put_scale(out: &mut [u8], scale: u64) -> usize
    requires room { 27 ≤ length out.old }
    ensures is { Put out.old 0 (scale_line scale) out.new result }
    ensures counts { Counts result out.new }
{
    let mut pen = Pen { out, at: 0 };
    pen.word(b"scale ");
    pen.decimal(scale);
    pen.byte(b'\n');
    pen.at
}

// The line "refused N LINE"; its length.
pub fn put_refused(out: &mut [u8], number: u64, line: u64) -> usize
    requires room { 50 ≤ length out.old }
    ensures is { Put out.old 0 (refused_line number line) out.new result }
    ensures counts { Counts result out.new }
{
    let mut pen = Pen { out, at: 0 };
    pen.word(b"refused ");
    pen.decimal(number);
    pen.spaced(line);
    pen.byte(b'\n');
    pen.at
}

// The lines of n records of 48 bytes each; their length.
pub fn put_records(out: &mut [u8], room: &[u8], n: usize, m: usize) -> usize
    requires room { (m ≤ 16) × (48 * n ≤ length room.now) × (138 * n ≤ length out.old) }
    ensures is { Put out.old 0 (record_lines m n room.now) out.new result }
    ensures counts { Counts result out.new }
{
    let mut pen = Pen { out, at: 0 };
    for i in 0..n {
        pen.line(room, 48 * i, m);
    }
    pen.at
}
