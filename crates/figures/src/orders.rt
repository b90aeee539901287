// The orders: a word, its numbers, and after a colon the name under which the answer is written. Other words are passed by.
//    1 table N P E D       the table is N rows P E D
//    2 rows N P E D        N rows more
//    3 length N            the table is N bytes long
//    4 admit M: NAME       admission for M processors; without a name nothing is written
//    5 course M C S N B: NAME    a course on M processors: chance, stride, stops, by step where B is 1
//    6 arrive T: NAME      an arrival of task T
//    7 step H R: NAME      a step to tick H with R bytes of room; without a name its record is written
//    8 run H               all steps to tick H
//    9 set COLUMN I VALUE  a number into place I of a column of the state, or into one of its numbers
//   10 keep                keep the state
//   11 back                take the state that was kept
//   12 ask: NAME           what an arrival of task 1 and a step to tick 3 answer; then back
use crate::course::Plan;
use crate::{course, damage, say};
use admission::Admitted;
use reading::place_of;
use rules::Refusal;
use state::State;
use std::io;

// BYTES

// How many of the bytes are no longer 255.
fn touched(bytes: &[u8]) -> u64 {
    bytes.iter().filter(|b| **b != 255).count() as u64
}

// The same of the first 48 bytes of a room, and of the others.
fn changed(room: &[u8; 60]) -> [u64; 2] {
    [touched(&room[..48]), touched(&room[48..])]
}

// TABLES

// A row P E D at a place, where there is room for 12 bytes; the place after it.
fn put_row(table: &mut [u8; 1548], at: usize, row: [u64; 3]) -> usize {
    if 1536 < at {
        return at;
    }
    ground::put(table, at, row[0], 4);
    ground::put(table, at + 4, row[1], 4);
    ground::put(table, at + 8, row[2], 4);
    at + 12
}

// n rows after the first bytes; how many bytes there are then.
fn rows(table: &mut [u8; 1548], len: usize, n: u64, row: [u64; 3]) -> usize {
    let mut at = len;
    for _ in 0..n {
        at = put_row(table, at, row);
    }
    at
}

// ANSWERS

fn number_of(answer: Result<(), Refusal>) -> u64 {
    u64::from(rules::number(answer))
}

// What an arrival of task 1 and a step to tick 3 answer.
fn asked(s: State) -> [u64; 2] {
    let mut room = [0u8; 48];
    let a = calls::arrive(s, 1);
    let r = calls::step(s, 3, &mut room);
    [number_of(a.answer), number_of(r.answer)]
}

fn ask(out: &impl Print, s: State, name: &[u8]) -> io::Result<()> {
    say::form(out, b"@: arrive # step #\n", name, &asked(s))
}

// Admission of the table's first bytes.
fn admitted(table: &[u8; 1548], len: usize, m: usize) -> Admitted {
    admission::admit(&table[..len.min(1548)], m)
}

// The line of an admission: number and row, then the scale or what the blank state answers.
fn admit_line(out: &impl Print, r: Admitted, m: u64, name: &[u8]) -> io::Result<()> {
    if r.answer.is_ok() {
        let n = [m, r.state.table.scale];
        return say::form(out, b"admit @, m #: 0 row 0 scale #\n", name, &n);
    }
    let blank = asked(r.state);
    let n = [m, number_of(r.answer), r.row as u64, blank[0], blank[1]];
    say::form(
        out,
        b"admit @, m #: # row #, then arrive # step #\n",
        name,
        &n,
    )
}

fn admit(
    out: &impl Print,
    table: &[u8; 1548],
    len: usize,
    m: u64,
    name: &[u8],
) -> io::Result<State> {
    let r = admitted(table, len, m as usize);
    if !name.is_empty() {
        admit_line(out, r, m, name)?;
    }
    Ok(r.state)
}

fn arrive(out: &impl Print, s: State, task: u64, name: &[u8]) -> io::Result<State> {
    let r = calls::arrive(s, task);
    let n = [task, number_of(r.answer), r.state.now.0];
    if name.is_empty() {
        say::form(out, b"arrive #: #\n", name, &n)?;
    } else {
        say::form(out, b"@: arrive #: #, present #\n", name, &n)?;
    }
    Ok(r.state)
}

// The line of a step without a name: its answer, and its record.
fn record_line(
    out: &impl Print,
    horizon: u64,
    answer: Result<(), Refusal>,
    room: &[u8; 60],
    m: usize,
) -> io::Result<()> {
    let n = [horizon, number_of(answer)];
    if answer.is_ok() {
        let mut line = [0u8; 138];
        let k = print::put_records(&mut line, room, 1, m.min(16));
        return say::form(out, b"step #: #, @", &line[..k], &n);
    }
    say::form(out, b"step #: #\n", b"", &n)
}

// A step into so many of 60 bytes 255; with a name, how many of the first 48 bytes and of the others it changed.
fn step(out: &impl Print, s: State, horizon: u64, len: u64, name: &[u8]) -> io::Result<State> {
    let mut room = [255u8; 60];
    let given = (len as usize).min(60);
    let r = calls::step(s, horizon, &mut room[..given]);
    if name.is_empty() {
        record_line(out, horizon, r.answer, &room, r.state.table.m)?;
        return Ok(r.state);
    }
    let [record, rest] = changed(&room);
    let n = [
        horizon,
        len,
        number_of(r.answer),
        record,
        rest,
        r.state.now.0,
    ];
    say::form(
        out,
        b"@: step # room #: #, changed # and #, present #\n",
        name,
        &n,
    )?;
    Ok(r.state)
}

// A run of at most 5,461 records.
fn run(out: &impl Print, s: State, tick: u64) -> io::Result<State> {
    let mut room = [0u8; 262144];
    let r = calls::run(s, tick, &mut room);
    let n = [tick, r.records as u64, r.state.now.0, r.state.end];
    if r.state.going {
        say::form(
            out,
            b"run to #: records #, present #, plane open to #\n",
            b"",
            &n,
        )?;
    } else {
        say::form(
            out,
            b"run to #: records #, present #, plane closed\n",
            b"",
            &n,
        )?;
    }
    Ok(r.state)
}

// A course from the state.
fn course_from(out: &impl Print, s: State, n: [u64; 6], name: &[u8]) -> io::Result<()> {
    let p = Plan {
        chance: n[2],
        stride: n[3],
        stops: n[4],
        stepwise: n[5] == 1,
    };
    let book = course::course(s, p);
    say::form(
        out,
        b"course @: records # sum #, arrivals #, refused 9 #, refused else #, jobs compared #, differ #, gaps #, twice #\n",
        name,
        &book.figures(),
    )
}

// LINES

// The number that v and one digit more spell; from 18,446,744,073,709,551,610 on the largest. Other bytes leave v.
fn spelled(v: u64, b: u8) -> u64 {
    match b {
        b'0'..=b'9' => {
            if 1844674407370955160 < v {
                return u64::MAX;
            }
            10 * v + u64::from(b - b'0')
        }
        _ => v,
    }
}

// The numbers of an order: place k has that after the kth space.
fn numbers_of(s: &[u8]) -> [u64; 6] {
    let mut n = [0u64; 6];
    let mut k: usize = 0;
    for b in s {
        if *b == b' ' {
            k = (k + 1).min(5);
        }
        n[k] = spelled(n[k], *b);
    }
    n
}

#[derive(Clone, Copy)]
enum Order {
    Table,
    Rows,
    Length,
    Admit,
    Course,
    Arrive,
    Step,
    Run,
    Set,
    Keep,
    Back,
    Ask,
}

// The order with this word.
fn order_of(word: &[u8]) -> Option<Order> {
    match word {
        b"table" => Some(Order::Table),
        b"rows" => Some(Order::Rows),
        b"length" => Some(Order::Length),
        b"admit" => Some(Order::Admit),
        b"course" => Some(Order::Course),
        b"arrive" => Some(Order::Arrive),
        b"step" => Some(Order::Step),
        b"run" => Some(Order::Run),
        b"set" => Some(Order::Set),
        b"keep" => Some(Order::Keep),
        b"back" => Some(Order::Back),
        b"ask" => Some(Order::Ask),
        _ => None,
    }
}

// What the orders so far left: the state, the one that was kept, the table and how many bytes it has.
#[derive(Clone, Copy)]
struct Held {
    state: State,
    kept: State,
    table: [u8; 1548],
    len: usize,
}

// An order with its numbers, a column's name, and the name under which the answer is written.
fn obey(
    out: &impl Print,
    order: Order,
    n: [u64; 6],
    column: &[u8],
    name: &[u8],
    h: &mut Held,
) -> io::Result<()> {
    let row = [n[2], n[3], n[4]];
    match order {
        Order::Table => h.len = rows(&mut h.table, 0, n[1], row),
        Order::Rows => h.len = rows(&mut h.table, h.len, n[1], row),
        Order::Length => h.len = n[1] as usize,
        Order::Admit => h.state = admit(out, &h.table, h.len, n[1], name)?,
        Order::Course => {
            let r = admitted(&h.table, h.len, n[1] as usize);
            course_from(out, r.state, n, name)?;
        }
        Order::Arrive => h.state = arrive(out, h.state, n[1], name)?,
        Order::Step => h.state = step(out, h.state, n[1], n[2], name)?,
        Order::Run => h.state = run(out, h.state, n[1])?,
        Order::Set => h.state = damage::set(h.state, column, n[2] as usize, n[3]),
        Order::Keep => h.kept = h.state,
        Order::Back => h.state = h.kept,
        Order::Ask => {
            ask(out, h.state, name)?;
            h.state = h.kept;
        }
    }
    Ok(())
}

// A line: its order ends at the colon, a space before the name. The order's parts stand between spaces.
fn line(out: &impl Print, s: &[u8], h: &mut Held) -> io::Result<()> {
    let colon = place_of(s, b':');
    let name = s.get(colon + 2..).unwrap_or(&[]);
    let n = numbers_of(&s[..colon]);
    let mut parts = s[..colon].split(|b| *b == b' ');
    let word = parts.next().unwrap_or(&[]);
    let column = parts.next().unwrap_or(&[]);
    let Some(order) = order_of(word) else {
        return Ok(());
    };
    obey(out, order, n, column, name, h)
}

// All lines.
pub(crate) fn all(out: &impl Print, s: &[u8]) -> io::Result<()> {
    let blank = admission::admit(b"", 0);
    let mut held = Held {
        state: blank.state,
        kept: blank.state,
        table: [0; 1548],
        len: 0,
    };
    for one in s.split(|b| *b == b'\n') {
        line(out, one, &mut held)?;
    }
    Ok(())
}
