// The program's text: its form and what it means.
#![tactic(auto)]

ghost use Rattle.std.specs.Prelude.{◌≡◌, true, ◌+◌, ◌-◌, ◌*◌, ◌≤◌, length, ◌++◌};
ghost use Rattle.ground.specs.Bytes.{le, pasted};
ghost use Rattle.text.specs.Numbers.{most_number, is_digit, plain, numeral_of};
ghost use Rattle.text.specs.Lines.{with_one, with_two, with_three, item_of};
ghost use Rattle.text.specs.declared.Stage.TheVariants.{Start};
ghost use Rattle.text.specs.Form.{flaw_line, may_stand, stage_after, form_from, form_of};
ghost use Rattle.text.specs.Parts.{same, split_by, newline};
ghost use Rattle.text.specs.Meaning.{items_of, line_at, processors_by, processors_in, is_task, row_line_of, row_by, table_of};
ghost use Rattle.text.specs.Puts.{Put, Counts, RowsPut};

// What a line says.
#[derive(Clone, Copy)]
pub enum Item {
    Processors(u64),
    Task(u64, u64, u64),
    Arrive(u64, u64),
    Until(u64),
}

// Why a text breaks the form: it is too long, or the number of the first line that breaks it.
#[derive(Clone, Copy)]
pub enum Flaw {
    TooLong,
    Line(u64),
}

impl Flaw {
    // The line that it names: 0 where the text is too long.
    pub fn line(self) -> u64
        ensures is { result ≡ flaw_line self }
    {
        match self {
            Flaw::TooLong => 0,
            Flaw::Line(line) => line,
        }
    }
}

// How far a text has come.
#[derive(Clone, Copy, PartialEq, PartialOrd)]
pub enum Stage {
    Start,
    Tasks,
    Arrivals,
    Ended,
}

// A line of the text: what it says, if it is of the form, and the place where the next one begins.
#[derive(Clone, Copy)]
pub struct Line {
    pub item: Option<Item>,
    pub next: usize,
}

// Has the part a byte, and no zero in front of others?
fn is_plain(part: &[u8]) -> bool
    ensures is { result ≡ plain part.now }
{
    match part {
        [] => false,
        [_] => true,
        [first, ..] => *first != b'0',
    }
}

// Is the byte a digit?
fn is_digit(b: u8) -> bool
    ensures is { result ≡ is_digit b }
{
    b.is_ascii_digit()
}

// The largest number of a text.
const MOST_NUMBER: u64 = 4294967295;

// The number that v and one digit more spell.
fn with_digit(v: u64, b: u8) -> u64
    requires digit { (v ≤ most_number) × (is_digit b ≡ true) }
    ensures is { result ≡ 10 * v + (b - 48) }
{
    let d = b - b'0';
    10 * v + u64::from(d)
}

// The number that the part is, if it is one. It is read no further than tells.
pub fn number(part: &[u8]) -> Option<u64>
    ensures is { result ≡ numeral_of part.now }
{
    if !is_plain(part) {
        return None;
    }
    let mut v: u64 = 0;
    for i in 0..part.len() {
        let b = part[i];
        if !is_digit(b) {
            return None;
        }
        v = with_digit(v, b);
        if MOST_NUMBER < v {
            return None;
        }
    }
    Some(v)
}

// Are these the bytes of the word?
fn is_word(part: &[u8], word: &[u8]) -> bool
    ensures is { result ≡ same part.now word.now }
{
    part == word
}

// A word and one number.
fn with_one(word: &[u8], a: &[u8]) -> Option<Item>
    ensures is { result ≡ with_one word.now (numeral_of a.now) }
{
    let x = number(a)?;
    if is_word(word, b"processors") {
        return Some(Item::Processors(x));
    }
    if is_word(word, b"until") {
        return Some(Item::Until(x));
    }
    None
}

// A word and two numbers.
fn with_two(word: &[u8], a: &[u8], b: &[u8]) -> Option<Item>
    ensures is { result ≡ with_two word.now (numeral_of a.now) (numeral_of b.now) }
{
    let x = number(a)?;
    let y = number(b)?;
    if is_word(word, b"arrive") {
        return Some(Item::Arrive(x, y));
    }
    None
}

// A word and three numbers.
fn with_three(word: &[u8], a: &[u8], b: &[u8], c: &[u8]) -> Option<Item>
    ensures is { result ≡ with_three word.now (numeral_of a.now) (numeral_of b.now) (numeral_of c.now) }
{
    let x = number(a)?;
    let y = number(b)?;
    let z = number(c)?;
    if is_word(word, b"task") {
        return Some(Item::Task(x, y, z));
    }
    None
}

// What a line says.
fn read_line(line: &[u8]) -> Option<Item>
    ensures is { result ≡ item_of line.now }
{
    let mut parts = line.split(|b| *b == b' ');
    let word = parts.next()?;
    let a = parts.next()?;
    let Some(b) = parts.next() else {
        return with_one(word, a);
    };
    let Some(c) = parts.next() else {
        return with_two(word, a, b);
    };
    if parts.next().is_some() {
        return None;
    }
    with_three(word, a, b, c)
}

// May such a line stand at this stage of the text?
fn may_stand(stage: Stage, item: Item) -> bool
    ensures is { result ≡ may_stand stage item }
{
    match item {
        Item::Processors(_) => stage == Stage::Start,
        Item::Task(_, _, _) => stage <= Stage::Tasks,
        Item::Arrive(_, _) | Item::Until(_) => stage <= Stage::Arrivals,
    }
}

// The stage of the text after such a line.
fn stage_after(item: Item) -> Stage
    ensures is { result ≡ stage_after item }
{
    match item {
        Item::Processors(_) | Item::Task(_, _, _) => Stage::Tasks,
        Item::Arrive(_, _) => Stage::Arrivals,
        Item::Until(_) => Stage::Ended,
    }
}

// The form of all lines.
fn form_lines(s: &[u8]) -> Result<(), Flaw>
    requires short { length s.now ≤ 65536 }
    ensures is { result ≡ form_from Start 1 (split_by newline s.now) }
{
    let mut stage = Stage::Start;
    let mut line: u64 = 1;
    let mut at = 0;
    while at < s.len() {
        let here = line_at(s, at);
        let Some(item) = here.item else {
            return Err(Flaw::Line(line));
        };
        if !may_stand(stage, item) {
            return Err(Flaw::Line(line));
        }
        stage = stage_after(item);
        line += 1;
        at = here.next;
    }
    match stage {
        Stage::Ended => Ok(()),
        _ => Err(Flaw::Line(line)),
    }
}

// The form of the whole text.
pub fn form(s: &[u8]) -> Result<(), Flaw>
    ensures is { result ≡ form_of s.now }
{
    if 65536 < s.len() {
        return Err(Flaw::TooLong);
    }
    form_lines(s)
}

// The line that begins at a place of the text.
pub fn line_at(s: &[u8], at: usize) -> Line
    ensures is { result ≡ line_at s.now at }
{
    let none = Line {
        item: None,
        next: s.len(),
    };
    if s.len() <= at {
        return none;
    }
    let end = at + reading::place_of(&s[at..], b'\n');
    if s.len() <= end {
        return none;
    }
    Line {
        item: read_line(&s[at..end]),
        next: end + 1,
    }
}

// The number of processors where the text does not say it.
const PROCESSORS_IF_ABSENT: u64 = 4;

// The number of processors, by the first line.
fn processors_by(item: Option<Item>) -> u64
    ensures is { result ≡ processors_by item }
{
    let Some(item) = item else {
        return PROCESSORS_IF_ABSENT;
    };
    match item {
        Item::Processors(m) => m,
        _ => PROCESSORS_IF_ABSENT,
    }
}

// The number of processors that the text asks for.
pub fn processors(s: &[u8]) -> u64
    ensures is { result ≡ processors_in (items_of s.now) }
{
    processors_by(line_at(s, 0).item)
}

// Is it a task line?
fn is_task(item: Option<Item>) -> bool
    ensures is { result ≡ is_task item }
{
    let Some(item) = item else {
        return false;
    };
    matches!(item, Item::Task(_, _, _))
}

// The text line of the row with this number; 0 for row 0 and for a row that is not there.
pub fn row_line(s: &[u8], row: u64) -> u64
    ensures is { result ≡ row_line_of s.now row }
{
    if row == 0 {
        return 0;
    }
    let mut left = row - 1;
    let mut here: u64 = 1;
    let mut at = 0;
    while at < s.len() {
        let line = line_at(s, at);
        if is_task(line.item) {
            if left == 0 {
                return here;
            }
            left -= 1;
        }
        here += 1;
        at = line.next;
    }
    0
}

// A row's twelve bytes.
fn put_row(out: &mut [u8], at: usize, p: u64, e: u64, d: u64)
    requires room { at + 12 ≤ length out.old }
    ensures is { out.new ≡ pasted out.old at (le 4 p ++ le 4 e ++ le 4 d) }
{
    ground::put(out, at, p, 4);
    ground::put(out, at + 4, e, 4);
    ground::put(out, at + 8, d, 4);
}

// The row that a line gives, if any, after k rows, as long as there are fewer than 129; the number of rows then.
fn put_item(out: &mut [u8], k: usize, item: Option<Item>) -> usize
    requires room { (k ≤ 129) × (1548 ≤ length out.old) }
    ensures is { RowsPut out.old k (row_by item) out.new result }
{
    let Some(item) = item else {
        return k;
    };
    match item {
        Item::Task(p, e, d) => {
            if 129 <= k {
                return k;
            }
            put_row(out, 12 * k, p, e, d);
            k + 1
        }
        _ => k,
    }
}

// The table of the text, of at most 129 rows; the number of its bytes.
pub fn table(s: &[u8], out: &mut [u8]) -> usize
    requires room { 1548 ≤ length out.old }
    ensures is { Put out.old 0 (table_of s.now) out.new result }
    ensures counts { Counts result out.new }
{
    let mut k = 0;
    let mut at = 0;
    while at < s.len() {
        let line = line_at(s, at);
        k = put_item(out, k, line.item);
        at = line.next;
    }
    12 * k
}
