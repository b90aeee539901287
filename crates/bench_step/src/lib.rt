// The scheduler under C names, for the benchmarks to time: the work in place on a state that holds together, the check
// alone, the public calls one after another, and a run as text.
#![tactic(auto)]

ghost use Rattle.std.specs.Prelude.{◌≡◌, List, ℕ, ◌*◌, ◌<◌, ◌≤◌, length};
ghost use Rattle.state.specs.Lent.{state_with, SamePlaces};
ghost use Rattle.moves.specs.Whole.{Whole};
ghost use Rattle.together.specs.Holds.{holds_of};
ghost use Rattle.admission.specs.Admit.{admit_of};
ghost use Rattle.bench_step.specs.Lent.{state_at};
ghost use Rattle.bench_step.specs.Held.{Taken, done_of, AllTaken, done_all};
ghost use Rattle.bench_step.specs.Made.{made_all, EndsAt};
ghost use Rattle.text.specs.Puts.{Put};
ghost use Rattle.print.specs.Printed.{record_lines};

use ground::Instant;
use queue::{Lane, LaneRef};
use state::{Crew, CrewRef, InPlace, InPlaceRef, State};
use table::{Columns, Rows};

// One call in place: an arrival of this task, or from 4,294,967,296 on a step to the horizon that lies above.
fn held_call(
    s: &mut InPlace,
    arrived: &mut [bool; 128],
    last: &mut [u64; 128],
    call: u64,
    room: &mut [u8],
)
    requires taken { (48 ≤ length room.old) × ((exec : List ℕ) × (let k = state_with s.old exec arrived.old last.old in Whole k × Taken k call)) }
    ensures same { SamePlaces s.old s.new }
    ensures long { length room.new ≡ length room.old }
    ensures is { (exec : List ℕ) → state_with s.new exec arrived.new last.new ≡ done_of (state_with s.old exec arrived.old last.old) call }
{
    if call < 4294967296 {
        moves::arrive_in(s, arrived, last, (call - 1) as usize);
    } else {
        moves::step_in(s, last, call - 4294967296, room);
    }
}

// Calls in place, one after another, whatever the executions are.
#[unsafe(no_mangle)]
pub extern "C" fn held_calls<'a>(
    count: usize,
    m: usize,
    scale: u64,
    present: &mut u64,
    going: &mut bool,
    end: &mut u64,
    running: &mut usize,
    waiting: &mut usize,
    list: &[u64],
    period: &'a [u32; 128],
    deadline: &'a [u32; 128],
    share: &'a [u64; 128],
    order: &'a [u16; 128],
    awake: &'a mut [bool; 128],
    arrived: &mut [bool; 128],
    last: &mut [u64; 128],
    rk: &'a mut [u64; 128],
    rt: &'a mut [u16; 128],
    wk: &'a mut [u64; 128],
    wt: &'a mut [u16; 128],
    slots: &'a mut [u16; 16],
    room: &mut [u8],
)
    requires taken { (48 ≤ length room.old) × ((exec : List ℕ) × (
        let s = state_at count m scale present.old going.old end.old running.old waiting.old
        period.now exec deadline.now share.now order.now awake.old arrived.old last.old rk.old rt.old wk.old wt.old slots.old in
        Whole s × AllTaken s list.now)) }
    ensures is { (exec : List ℕ) → let s = state_at count m scale present.old going.old end.old running.old waiting.old
        period.now exec deadline.now share.now order.now awake.old arrived.old last.old rk.old rt.old wk.old wt.old slots.old in
        Whole s → AllTaken s list.now →
        state_at count m scale present.new going.new end.new running.new waiting.new
        period.now exec deadline.now share.now order.now awake.new arrived.new last.new rk.new rt.new wk.new wt.new slots.new
        ≡ done_all s list.now }
{
    // nothing reads the executions: any column serves
    let mut s = InPlace {
        table: Columns {
            rows: Rows {
                period,
                exec: period,
                deadline,
                count,
            },
            share,
            order,
            m,
            scale,
        },
        now: Instant(*present),
        going: *going,
        end: *end,
        awake,
        crew: Crew {
            running: Lane {
                keys: rk,
                tasks: rt,
                len: *running,
            },
            waiting: Lane {
                keys: wk,
                tasks: wt,
                len: *waiting,
            },
            slots,
        },
    };
    for call in list {
        held_call(&mut s, arrived, last, *call, room);
    }
    *present = s.now.0;
    *going = s.going;
    *end = s.end;
    *running = s.crew.running.len;
    *waiting = s.crew.waiting.len;
}

// The check alone.
#[unsafe(no_mangle)]
pub extern "C" fn held_check(
    count: usize,
    m: usize,
    scale: u64,
    present: u64,
    going: bool,
    end: u64,
    running: usize,
    waiting: usize,
    period: &[u32; 128],
    exec: &[u32; 128],
    deadline: &[u32; 128],
    share: &[u64; 128],
    order: &[u16; 128],
    awake: &[bool; 128],
    arrived: &[bool; 128],
    last: &[u64; 128],
    rk: &[u64; 128],
    rt: &[u16; 128],
    wk: &[u64; 128],
    wt: &[u16; 128],
    slots: &[u16; 16],
) -> bool
    ensures is { result ≡ holds_of (state_at count m scale present going end running waiting
        period.now exec.now deadline.now share.now order.now awake.now arrived.now last.now rk.now rt.now wk.now wt.now slots.now) }
{
    let s = InPlaceRef {
        table: Columns {
            rows: Rows {
                period,
                exec,
                deadline,
                count,
            },
            share,
            order,
            m,
            scale,
        },
        now: Instant(present),
        going,
        end,
        awake,
        crew: CrewRef {
            running: LaneRef {
                keys: rk,
                tasks: rt,
                len: running,
            },
            waiting: LaneRef {
                keys: wk,
                tasks: wt,
                len: waiting,
            },
            slots,
        },
    };
    refusals::check(s, arrived, last)
}

// The same of arrays that are lent to be written. It leaves all as it is.
#[unsafe(no_mangle)]
pub extern "C" fn held_check_in_place<'a>(
    count: usize,
    m: usize,
    scale: u64,
    present: u64,
    going: bool,
    end: u64,
    running: usize,
    waiting: usize,
    period: &'a [u32; 128],
    exec: &'a [u32; 128],
    deadline: &'a [u32; 128],
    share: &'a [u64; 128],
    order: &'a [u16; 128],
    awake: &'a mut [bool; 128],
    arrived: &[bool; 128],
    last: &[u64; 128],
    rk: &'a mut [u64; 128],
    rt: &'a mut [u16; 128],
    wk: &'a mut [u64; 128],
    wt: &'a mut [u16; 128],
    slots: &'a mut [u16; 16],
) -> bool
    ensures is { result ≡ holds_of (state_at count m scale present going end running waiting
        period.now exec.now deadline.now share.now order.now awake.old arrived.now last.now rk.old rt.old wk.old wt.old slots.old) }
    ensures left { (awake.new ≡ awake.old) × (rk.new ≡ rk.old) × (rt.new ≡ rt.old) × (wk.new ≡ wk.old)
        × (wt.new ≡ wt.old) × (slots.new ≡ slots.old) }
{
    held_check(
        count, m, scale, present, going, end, running, waiting, period, exec, deadline, share,
        order, awake, arrived, last, rk, rt, wk, wt, slots,
    )
}

// Public calls, each on the state that the last one handed back: an arrival of this task, or from 4,294,967,296 on a step to
// the horizon that lies above. The calls are made here, not in a function of one call, which would copy the state once more.
fn make_all(first: State, list: &[u64], room: &mut [u8]) -> State
    ensures is { result ≡ made_all (length room.old) first list.now }
{
    let mut s = first;
    for call in list {
        if *call < 4294967296 {
            s = calls::arrive(s, *call).state;
        } else {
            s = calls::step(s, *call - 4294967296, room).state;
        }
    }
    s
}

// The present after these calls on an admitted table.
#[unsafe(no_mangle)]
pub extern "C" fn public_calls(table: &[u8], m: usize, list: &[u64], room: &mut [u8]) -> u64
    ensures is { result ≡ (made_all (length room.old) (admit_of table.now m).state list.now).now.0 }
{
    make_all(admission::admit(table, m).state, list, room).now.0
}

// The lines of n records.
#[unsafe(no_mangle)]
pub extern "C" fn record_lines(out: &mut [u8], room: &[u8], n: usize, m: usize) -> usize
    requires room { (m ≤ 16) × (48 * n ≤ length room.now) × (138 * n ≤ length out.old) }
    ensures is { Put out.old 0 (record_lines m n room.now) out.new result }
{
    print::put_records(out, room, n, m)
}

// The whole listing of a text, each chunk written over the one before: the program without its reading and writing.
// The present at the end.
#[unsafe(no_mangle)]
pub extern "C" fn public_lines(text: &[u8], out: &mut [u8; 65536]) -> u64
    ensures ends { EndsAt text.now result }
{
    let mut c = course::first();
    while !course::is_ended(c.stage) {
        c = listing::next(text, c, out).cursor;
    }
    c.state.now.0
}
