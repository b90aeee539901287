// The work of a plane in place: the queues' arrays and the slots are lent.
#![tactic(auto)]

ghost use Rattle.std.specs.Prelude.{◌≡◌, ℕ, List, ◌+◌, ◌*◌, ◌-◌, ◌≤◌, ◌<◌, get_or, take, nat_eq};
ghost use Rattle.std.specs.List.{position};
ghost use Rattle.queue.specs.Lent.{at, queue_in};
ghost use Rattle.queue.specs.Queues.{top_task};
ghost use Rattle.state.specs.Lent.{SameCrew};
ghost use Rattle.state.specs.Work.{seat, first_idle, rest_top, park, place, give_top, seize_top, joins};
ghost use Rattle.state.specs.Work.{b_one, b_all, due, c_one, c_all, events_of, or_top, next_of, enter, enter_row, enter_all};
ghost use Rattle.state.specs.Machine.{no_slots, shorter_at, limit_at, plane_end, sleep_row, sleep_all};
ghost use Rattle.state.specs.Fit.{Fit, Yields, Eventful, Joining, Enters, Opens};
ghost use Rattle.plane.specs.Lent.{parts_at, work_at, work, cleared, place_of, Critical};
ghost use Rattle.plane.specs.Rows.{rows_in, jobs, Came, CameAt};

use ground::{Amount, Instant};
use queue::{Lane, LaneRef};
use state::Crew;
use table::{Columns, Rows};

// What stands still while the events of an instant happen: how many processors, the present, the plane's end.
#[derive(Clone, Copy)]
pub struct Plane {
    pub m: usize,
    pub now: Instant,
    pub close: Instant,
}

// MOVES

// The top of those who run leaves its queue, and place p of the slots is idle.
#[tactic(auto, unfolding(state::specs::Work::rest_top))]
fn rest_top(crew: &mut Crew, p: usize)
    requires held { (0 < crew.old.running.len) × (crew.old.running.len ≤ 128) × (p < 16) }
    ensures same { SameCrew crew.old crew.new }
    ensures is { (m t e : ℕ) → work_at m t e crew.new ≡ rest_top p (work_at m t e crew.old) }
{
    crew.slots[p] = 0;
    crew.running.pop();
}

// A task in no queue waits with an amount.
#[tactic(auto, unfolding(state::specs::Work::park))]
fn park(plane: Plane, crew: &mut Crew, task: u16, a: Amount)
    requires room { (crew.old.waiting.len < 128) × (a.0 ≤ plane.close.0) }
    ensures same { SameCrew crew.old crew.new }
    ensures is { work plane crew.new ≡ park task a.0 (work plane crew.old) }
{
    crew.waiting.push(ground::sooner(plane.close, a), task);
}

// A task in no queue runs on the idle place p of the slots with an amount.
#[tactic(auto, unfolding(state::specs::Work::place))]
fn place(plane: Plane, crew: &mut Crew, p: usize, task: u16, a: Amount)
    requires room { (crew.old.running.len < 128) × (p < 16) × (plane.now.0 + a.0 < 18446744073709551616) }
    ensures same { SameCrew crew.old crew.new }
    ensures is { work plane crew.new ≡ place p task a.0 (work plane crew.old) }
{
    crew.slots[p] = task;
    crew.running.push(ground::later(plane.now, a), task);
}

// PROCESSORS

// The first place of some slots that has a task, or that is idle where the task is 0.
fn seat_of(slots: &[u16], task: u16) -> Option<usize>
    ensures is { result ≡ position (λ x. nat_eq x task) slots.now }
{
    slots.iter().position(|t| *t == task)
}

// The place of the slots that has the top of the running; 0 if none has.
fn top_place(crew: &Crew) -> usize
    ensures is { result ≡ seat (top_task (queue_in crew.now.running)) crew.now.slots.now - 1 }
{
    seat_of(crew.slots, crew.running.least_task()).unwrap_or(0)
}

// The place of the lowest idle processor of m.
pub fn lowest_idle(slots: &[u16; 16], m: usize) -> Option<usize>
    requires places { m ≤ 16 }
    ensures is { result ≡ place_of (first_idle m slots.now) }
{
    seat_of(&slots[..m], 0)
}

// Every processor is idle.
pub fn clear_slots(slots: &mut [u16; 16])
    ensures is { slots.new ≡ no_slots }
{
    *slots = [0; 16];
}

// EVENTS

// The idle place p goes to the top of the waiting, if any waits.
#[tactic(auto, unfolding(state::specs::Work::give_top))]
fn give_top(plane: Plane, crew: &mut Crew, p: usize)
    requires fit { (p < 16) × Fit (work plane crew.old) }
    ensures same { SameCrew crew.old crew.new }
    ensures is { work plane crew.new ≡ give_top p (work plane crew.old) }
{
    if 0 < crew.waiting.len {
        let top = crew.waiting.least();
        let a = ground::between(top.key, plane.close);
        crew.waiting.pop();
        place(plane, crew, p, top.task, a);
    }
}

// A B event: the top of the running rests, and its processor goes on.
#[tactic(auto, unfolding(state::specs::Work::b_one))]
fn b_one(plane: Plane, crew: &mut Crew)
    requires fit { (0 < crew.old.running.len) × Fit (work plane crew.old) }
    ensures same { SameCrew crew.old crew.new }
    ensures is { work plane crew.new ≡ b_one (work plane crew.old) }
{
    let p = top_place(crew);
    rest_top(crew, p);
    give_top(plane, crew, p);
}

// Has the least key of a queue come due, if there is any?
fn is_due(lane: &Lane, present: Instant) -> bool
    ensures is { result ≡ due lane.now.keys.now lane.now.len present.0 }
{
    0 < lane.len && lane.least_key() <= present
}

// All B events due.
fn b_all(plane: Plane, crew: &mut Crew)
    requires fit { Fit (work plane crew.old) }
    ensures same { SameCrew crew.old crew.new }
    ensures is { work plane crew.new ≡ b_all (work plane crew.old) }
{
    while is_due(&crew.running, plane.now) {
        b_one(plane, crew);
    }
}

// A task in no queue takes the processor of the top of the running, which waits.
#[tactic(auto, unfolding(state::specs::Work::seize_top))]
fn seize_top(plane: Plane, crew: &mut Crew, task: u16, a: Amount)
    requires fit { (plane.now.0 + a.0 ≤ plane.close.0) × Yields (work plane crew.old) × Fit (work plane crew.old) }
    ensures same { SameCrew crew.old crew.new }
    ensures is { work plane crew.new ≡ seize_top task a.0 (work plane crew.old) }
{
    let top = crew.running.least();
    let left = ground::between(plane.now, top.key);
    let p = top_place(crew);
    rest_top(crew, p);
    park(plane, crew, top.task, left);
    place(plane, crew, p, task, a);
}

// A C event: the top of the waiting takes the processor of the top of the running.
fn c_one(plane: Plane, crew: &mut Crew)
    requires fit { (0 < crew.old.waiting.len) × Yields (work plane crew.old) × Fit (work plane crew.old) }
    ensures same { SameCrew crew.old crew.new }
    ensures is { work plane crew.new ≡ c_one (work plane crew.old) }
{
    let top = crew.waiting.least();
    let a = ground::between(top.key, plane.close);
    crew.waiting.pop();
    seize_top(plane, crew, top.task, a);
}

// All C events due.
fn c_all(plane: Plane, crew: &mut Crew)
    requires fit { Critical (work plane crew.old) }
    ensures same { SameCrew crew.old crew.new }
    ensures is { work plane crew.new ≡ c_all (work plane crew.old) }
{
    for _ in 0..crew.waiting.len {
        if !is_due(&crew.waiting, plane.now) {
            return;
        }
        c_one(plane, crew);
    }
}

// The events of the present: all B events due, then all C events due.
#[tactic(auto, using(crate::proofs::Turns::after_b), unfolding(state::specs::Work::events_of))]
pub fn events(plane: Plane, crew: &mut Crew)
    requires fit { Eventful (work plane crew.old) }
    ensures same { SameCrew crew.old crew.new }
    ensures is { work plane crew.new ≡ events_of (work plane crew.old) }
{
    b_all(plane, crew);
    c_all(plane, crew);
}

// THE NEXT INSTANT

// The least key of a queue, if there is any, or another instant, whichever is earlier.
fn or_top(lane: LaneRef, other: Instant) -> Instant
    ensures is { result ≡ record { 0 = or_top lane.entry.keys.now lane.entry.len other.0 } }
{
    if 0 < lane.len {
        lane.least_key().min(other)
    } else {
        other
    }
}

// The next instant at which something happens in the plane, or the stop: whatever m and the present are, and whichever tasks these
// keys have.
#[tactic(auto, unfolding(state::specs::Work::next_of))]
pub fn next_instant(close: Instant, running: LaneRef, waiting: LaneRef, stop: Instant) -> Instant
    ensures is { (m t : ℕ) (rt wt slots : List ℕ) → let run = at running.entry.keys.now rt running.entry.len in
        let wait = at waiting.entry.keys.now wt waiting.entry.len in
        result ≡ record { 0 = next_of (parts_at m t close.0 run wait slots) stop.0 } }
{
    or_top(running, or_top(waiting, close.min(stop)))
}

// OPENING

// The shorter of the period and the deadline of row i.
fn shorter(rows: Rows, i: usize) -> u64
    requires inside { i < 128 }
    ensures is { (result < 4294967296) × (result ≡ shorter_at (rows_in rows.entry) i) }
{
    u64::from(rows.row(i).shorter())
}

// The limit of row i to a plane that opens at a tick: from the last arrival of an awake task, from the tick for one asleep.
fn limit(rows: Rows, awake: &[bool; 128], last: &[u64; 128], tick: u64, i: usize) -> u64
    requires came { CameAt awake.now last.now tick i }
    ensures is { result ≡ limit_at (rows_in rows.entry) (jobs awake.now last.now) tick i }
{
    let from = if awake[i] { last[i] } else { tick };
    from + shorter(rows, i)
}

// The end, in ticks, of a plane that opens at a tick: the earliest limit.
pub fn plane_end(rows: Rows, awake: &[bool; 128], last: &[u64; 128], tick: u64) -> u64
    requires came { (0 < rows.count) × Came awake.now last.now rows.count tick }
    ensures is { result ≡ plane_end (rows_in rows.entry) (jobs awake.now last.now) tick }
{
    let mut first = limit(rows, awake, last, tick, 0);
    for i in 1..rows.count {
        first = first.min(limit(rows, awake, last, tick, i));
    }
    first
}

// A task with an amount: it runs on the next processor while there is one, else waits.
#[tactic(auto, unfolding(state::specs::Work::enter))]
fn enter(plane: Plane, crew: &mut Crew, task: u16, a: Amount)
    requires fit { Enters (work plane crew.old) a.0 }
    ensures same { SameCrew crew.old crew.new }
    ensures is { work plane crew.new ≡ enter task a.0 (work plane crew.old) }
{
    let next = crew.running.len;
    if next < plane.m {
        place(plane, crew, next, task, a);
    } else {
        park(plane, crew, task, a);
    }
}

// The task in a row of the table enters, if awake, with its share of the plane's length in ticks.
fn enter_row(
    plane: Plane,
    crew: &mut Crew,
    awake: &[bool; 128],
    share: &[u64; 128],
    len: u64,
    row: u16,
)
    requires fit { (row < 128) × Enters (work plane crew.old) (get_or share.now row 0 * len) }
    ensures same { SameCrew crew.old crew.new }
    ensures is { work plane crew.new ≡ enter_row awake.now share.now len (work plane crew.old) row }
{
    let i = usize::from(row);
    if awake[i] {
        enter(plane, crew, row + 1, Amount(share[i] * len));
    }
}

// A plane opens: queues and slots are cleared, and the awake tasks enter in the table's order.
pub fn open_plane(plane: Plane, crew: &mut Crew, awake: &[bool; 128], table: Columns, len: u64)
    requires fit { Opens (cleared plane) table.order.now table.share.now table.rows.count len }
    ensures same { SameCrew crew.old crew.new }
    ensures is { let t = table.entry in work plane crew.new ≡ enter_all awake.now t.share.now len (take t.rows.count t.order.now) (cleared plane) }
{
    clear_slots(crew.slots);
    crew.running.clear();
    crew.waiting.clear();
    for i in 0..table.rows.count {
        enter_row(plane, crew, awake, table.share, len, table.order[i]);
    }
}

// CLOSING

// The task in row i falls asleep, if it is awake and its limit is the tick.
#[tactic(auto, unfolding(state::specs::Machine::sleep_row))]
fn sleep_row(rows: Rows, awake: &mut [bool; 128], last: &[u64; 128], tick: u64, i: usize)
    requires came { CameAt awake.old last.now tick i }
    ensures is { awake.new ≡ sleep_row (rows_in rows.entry) last.now tick awake.old i }
{
    if awake[i] && last[i] + shorter(rows, i) == tick {
        awake[i] = false;
    }
}

// Each task of the rows falls asleep, if it is awake and its limit is the tick.
pub fn sleep_all(rows: Rows, awake: &mut [bool; 128], last: &[u64; 128], tick: u64)
    requires came { Came awake.old last.now rows.count tick }
    ensures is { awake.new ≡ sleep_all (rows_in rows.entry) last.now tick awake.old }
{
    for i in 0..rows.count {
        sleep_row(rows, awake, last, tick, i);
    }
}

// ARRIVING

// A task in no queue joins the open plane with an amount: on the lowest idle processor, else it waits, if its share is below the scale,
// else takes a processor.
#[tactic(auto, unfolding(state::specs::Work::joins))]
pub fn join(plane: Plane, crew: &mut Crew, task: u16, a: Amount, below: bool)
    requires fit { Joining (work plane crew.old) a.0 }
    ensures same { SameCrew crew.old crew.new }
    ensures is { work plane crew.new ≡ joins (first_idle plane.m crew.old.slots.now) task a.0 below (work plane crew.old) }
{
    match lowest_idle(crew.slots, plane.m) {
        Some(p) => place(plane, crew, p, task, a),
        None if below => park(plane, crew, task, a),
        None => seize_top(plane, crew, task, a),
    }
}
