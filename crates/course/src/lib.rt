// The way through a text: a cursor, and a call at a time what comes of it.
#![tactic(auto)]

ghost use Rattle.std.specs.Prelude.{◌≡◌, ◌*◌, eqb, length};
ghost use Rattle.inplace.specs.Run.{run_room};
ghost use Rattle.course.specs.Turns.{first_cursor, is_ended, ended_at, refused_at, line_after, skipped_of, admitted_of, start_of, arrival_of, ran_of, item_deed, line_deed, deed_of, turn_of, turn_room};
ghost use Rattle.course.specs.Moves.{Moves, Falls};

use rules::Refusal;
use state::State;
use text::Item;

// Where the program stands: before the text, on a line of it, or at the end.
#[derive(Clone, Copy, Debug, PartialEq, Eq)]
pub enum Stage {
    Start,
    Lines,
    Ended,
}

// The state, the place where the line begins, its number, the stage.
#[derive(Clone, Copy)]
pub struct Cursor {
    pub state: State,
    pub at: usize,
    pub line: u64,
    pub stage: Stage,
}

// What comes of a turn: the scale, so many records of m processors in the room, or a refusal with its text line.
#[derive(Clone, Copy, Debug, PartialEq, Eq)]
pub enum Part {
    Scale(u64),
    Records { count: usize, m: usize },
    Refused { refusal: Refusal, line: u64 },
}

// What is due: the form and the table, steps towards a tick, an arrival and the place of the next line, that place alone, the end.
#[derive(Clone, Copy)]
pub enum Deed {
    Begin,
    Run(u64),
    Arrival(u64, usize),
    Skip(usize),
    Finish,
}

// The cursor after a call, and what came of it, if anything did.
#[derive(Clone, Copy)]
pub struct Turned {
    pub cursor: Cursor,
    pub part: Option<Part>,
}

// The cursor before a text, with the blank state that a refused admission gives.
pub fn first() -> Cursor
    ensures is { result ≡ first_cursor }
{
    let a = admission::admit(b"", 0);
    Cursor {
        state: a.state,
        at: 0,
        line: 0,
        stage: Stage::Start,
    }
}

// Is nothing left?
pub fn is_ended(stage: Stage) -> bool
    ensures is { result ≡ is_ended stage }
{
    stage == Stage::Ended
}

// The end, with a last part.
fn ended(c: Cursor, part: Option<Part>) -> Turned
    ensures is { result ≡ ended_at c part }
{
    Turned {
        cursor: Cursor {
            stage: Stage::Ended,
            ..c
        },
        part,
    }
}

// The end, with a refusal.
fn refused(c: Cursor, refusal: Refusal, line: u64) -> Turned
    ensures is { result ≡ refused_at c refusal line }
{
    ended(c, Some(Part::Refused { refusal, line }))
}

// The next line's number; a text of good form has at most 65,536 lines.
fn line_after(line: u64) -> u64
    ensures is { result ≡ line_after line }
{
    if line <= 65536 { line + 1 } else { line }
}

// On to the next line.
fn skipped(c: Cursor, next: usize) -> Turned
    ensures is { result ≡ skipped_of c next }
{
    Turned {
        cursor: Cursor {
            at: next,
            line: line_after(c.line),
            stage: Stage::Lines,
            ..c
        },
        part: None,
    }
}

// Is the present the tick?
fn is_at(s: &State, tick: u64) -> bool
    ensures is { result ≡ eqb s.entry.now.now.0 (tick * s.entry.now.table.scale) }
{
    let present = s.now.0;
    let Some(there) = tick.checked_mul(s.table.scale) else {
        return false;
    };
    present == there
}

// A text of good form: its table is admitted or refused.
fn admitted(text: &[u8], c: Cursor) -> Turned
    ensures is { result ≡ admitted_of text.now c }
{
    let m = text::processors(text) as usize;
    let mut bytes = [0u8; 1548];
    let len = text::table(text, &mut bytes);
    let a = admission::admit(&bytes[..len], m);
    match a.answer {
        Ok(()) => Turned {
            cursor: Cursor {
                state: a.state,
                at: 0,
                line: 1,
                stage: Stage::Lines,
            },
            part: Some(Part::Scale(a.state.table.scale)),
        },
        Err(refusal) => refused(c, refusal, text::row_line(text, a.row as u64)),
    }
}

// The form of the whole text first.
fn start(text: &[u8], c: Cursor) -> Turned
    ensures is { result ≡ start_of text.now c }
{
    match text::form(text) {
        Ok(()) => admitted(text, c),
        Err(flaw) => refused(c, Refusal::TextForm, flaw.line()),
    }
}

// The arrival of a task, and on to the next line.
fn arrival(c: Cursor, task: u64, next: usize) -> Turned
    ensures is { result ≡ arrival_of c task next }
{
    let a = calls::arrive(c.state, task);
    match a.answer {
        Ok(()) => Turned {
            cursor: Cursor {
                state: a.state,
                at: next,
                line: line_after(c.line),
                stage: Stage::Lines,
            },
            part: None,
        },
        Err(refusal) => refused(c, refusal, c.line),
    }
}

// As many steps towards the tick as the room has places for.
fn ran(c: Cursor, tick: u64, room: &mut [u8]) -> Turned
    ensures is { (result ≡ ran_of c tick (length room.old)) × (room.new ≡ run_room c.state tick room.old) }
    ensures moves { Moves c result (length room.old) }
{
    let r = calls::run(c.state, tick, room);
    match r.answer {
        Ok(()) => Turned {
            cursor: Cursor {
                state: r.state,
                stage: Stage::Lines,
                ..c
            },
            part: Some(Part::Records {
                count: r.records,
                m: c.state.table.m,
            }),
        },
        Err(refusal) => refused(c, refusal, c.line),
    }
}

// What a line asks for.
fn item_deed(item: Option<Item>, next: usize, s: &State) -> Deed
    ensures is { result ≡ item_deed item next s.entry.now.now.0 s.entry.now.table.scale }
{
    let Some(item) = item else {
        return Deed::Skip(next);
    };
    match item {
        Item::Processors(_) | Item::Task(_, _, _) => Deed::Skip(next),
        Item::Arrive(tick, task) => {
            if is_at(s, tick) {
                return Deed::Arrival(task, next);
            }
            Deed::Run(tick)
        }
        Item::Until(tick) => {
            if is_at(s, tick) {
                return Deed::Finish;
            }
            Deed::Run(tick)
        }
    }
}

// What the cursor's line asks for.
fn line_deed(text: &[u8], c: &Cursor) -> Deed
    ensures is { result ≡ line_deed text.now c.now.at c.now.state.now.0 c.now.state.table.scale }
{
    if text.len() <= c.at {
        return Deed::Finish;
    }
    let line = text::line_at(text, c.at);
    item_deed(line.item, line.next, &c.state)
}

// What is due.
fn due(text: &[u8], c: &Cursor) -> Deed
    ensures is { result ≡ deed_of text.now c.now }
{
    match c.stage {
        Stage::Start => Deed::Begin,
        Stage::Lines => line_deed(text, c),
        Stage::Ended => Deed::Finish,
    }
}

// The next part of what comes of the text. Its records, if it has any, are in the room; the rest of the room is unchanged.
// Any cursor is answered; each call but one at the end leaves less to do.
pub fn turn(text: &[u8], c: Cursor, room: &mut [u8]) -> Turned
    ensures is { (result ≡ turn_of text.now c (length room.old)) × (room.new ≡ turn_room text.now c room.old) }
    ensures moves { Moves c result (length room.old) × Falls text.now c result.cursor }
{
    match due(text, &c) {
        Deed::Begin => start(text, c),
        Deed::Run(tick) => ran(c, tick, room),
        Deed::Arrival(task, next) => arrival(c, task, next),
        Deed::Skip(next) => skipped(c, next),
        Deed::Finish => ended(c, None),
    }
}
