// The queues' part of the check: the queues, the awake flags and the slots agree, and the amounts of an open plane.
#![tactic(auto)]

ghost use Rattle.std.specs.Prelude.{◌≡◌, Bool, true, false, ◌&&◌, ◌||◌, List, ℕ, ◌+◌, ◌-◌, ◌*◌, ◌%◌, ◌≤◌, ◌<◌, leb, ltb, eqb, length, take, MatchOption};
ghost use Rattle.queue.specs.Lent.{at, queue_seen};
ghost use Rattle.rules.specs.Bounds.{most_scale};
ghost use Rattle.state.specs.Sound.{no_marks, fresh, mark, all_fresh, all_marked, run_ok, runs_ok, slots_ok, sound_by};
ghost use Rattle.together_queues.specs.Amounts.{idle_ok, run_sum, sum_ok, amounts_ok, longest, Soon};
ghost use Rattle.together_queues.specs.Entries.{key_ok, with_met, enters};

use ground::{Amount, Instant, between};
use queue::LaneRef;
use state::CrewRef;
use table::Columns;

// MEMBERS

// Tasks that are met one after another: each is among the first count, passes, and is met once.
#[derive(Drop)]
struct Roll<'a> {
    count: usize,
    ok: &'a [bool; 128],
    met: [bool; 128],
}

impl Roll<'_> {
    // Is task t, if it is one, among the count, passing, and not met yet?
    fn is_fresh(&self, t: usize) -> bool
        requires inside { self.now.count ≤ 128 }
        ensures is { result ≡ fresh self.now.count self.now.ok.now self.now.met t }
    {
        t == 0 || (t - 1 < self.count && self.ok[t - 1] && !self.met[t - 1])
    }

    // Task t, if it is one, was met.
    fn note(&mut self, t: usize)
        requires inside { t ≤ 128 }
        ensures is { self.new ≡ with_met self.old (mark self.old.met t) }
    {
        if 0 < t {
            self.met[t - 1] = true;
        }
    }

    // Is each task in a slot fresh in turn?
    fn meet(&mut self, slots: &[u16; 16]) -> bool
        requires inside { self.old.count ≤ 128 }
        ensures is { result ≡ all_fresh self.old.count self.old.ok.now slots.now self.old.met }
        ensures met { result ≡ true → self.new ≡ with_met self.old (all_marked slots.now self.old.met) }
    {
        for task in slots {
            let t = usize::from(*task);
            if !self.is_fresh(t) {
                return false;
            }
            self.note(t);
        }
        true
    }

    // Does the queue's order stand, is each task in turn fresh, and each key in its range? Then the sum of its keys, counted from the
    // present.
    fn enter(&mut self, lane: LaneRef, present: Instant, top: u64) -> Option<u64>
        requires inside { (lane.len ≤ 128) × (self.old.count ≤ 128) × (top ≤ present.0 + longest * most_scale) }
        ensures is { let q = queue_seen lane.entry in
            MatchOption result (enters self.old present.0 top q ≡ false) (λ sum. (enters self.old present.0 top q ≡ true)
            × (self.new ≡ with_met self.old (all_marked (take q.len q.tasks) self.old.met)) × (sum ≡ run_sum present.0 q.keys q.len)) }
    {
        let keys: &[u64; 128] = lane.keys;
        let tasks: &[u16; 128] = lane.tasks;
        let mut sum: u64 = 0;
        for i in 0..lane.len {
            let key = keys[i];
            let t = usize::from(tasks[i]);
            if !(key_ok(present, top, t, key) && self.is_fresh(t) && lane.in_turn(i)) {
                return None;
            }
            self.note(t);
            sum += key - present.0;
        }
        Some(sum)
    }
}

// A running entry: a task, not past, on a processor?
fn run_ok(present: Instant, seats: &[bool; 128], t: u16, key: u64) -> bool
    ensures is { result ≡ run_ok present.0 seats.now t key }
{
    t != 0 && present.0 <= key && t <= 128 && seats[usize::from(t) - 1]
}

// Every running entry?
fn runs_ok(present: Instant, seats: &[bool; 128], lane: LaneRef) -> bool
    requires inside { lane.len ≤ 128 }
    ensures is { result ≡ runs_ok present.0 seats.now lane.entry.keys.now lane.entry.tasks.now lane.entry.len }
{
    for i in 0..lane.len {
        if !run_ok(present, seats, lane.tasks[i], lane.keys[i]) {
            return false;
        }
    }
    true
}

// Every slot past m is 0?
fn slots_ok(m: usize, slots: &[u16; 16]) -> bool
    ensures is { result ≡ slots_ok m slots.now }
{
    slots.iter().skip(m).all(|task| *task == 0)
}

// Is who stands in a slot running, each once, nobody past m, and who runs in a slot?
fn seats_ok(table: Columns, present: Instant, run: &[bool; 128], crew: CrewRef) -> bool
    requires inside { (table.rows.count ≤ 128) × (crew.running.len ≤ 128) }
    ensures is { let slots = crew.entry.slots.now in
        result ≡ slots_ok table.entry.m slots && (all_fresh table.entry.rows.count run.now slots no_marks
        && runs_ok present.0 (all_marked slots no_marks) crew.entry.running.keys.now crew.entry.running.tasks.now crew.entry.running.len) }
{
    let mut seats = Roll {
        count: table.rows.count,
        ok: run,
        met: [false; 128],
    };
    slots_ok(table.m, crew.slots)
        && seats.meet(crew.slots)
        && runs_ok(present, &seats.met, crew.running)
}

// ENTRIES

// Is the entry's task one, and does its key lie after the present and not past this?
fn key_ok(present: Instant, top: u64, t: usize, key: u64) -> bool
    ensures is { result ≡ key_ok present.0 top t key }
{
    t != 0 && present.0 < key && key <= top
}

// AMOUNTS

// Is a processor idle only if nobody waits?
fn idle_ok(m: usize, run: usize, wait: usize) -> bool
    ensures is { result ≡ idle_ok m run wait }
{
    wait == 0 || run == m
}

// Do amounts sum to at most shares times the remaining ticks, counted exactly?
fn sum_ok(scale: u64, left: Amount, amounts: Amount, shares: u64) -> bool
    requires small { (0 < scale) × (scale ≤ most_scale) × (left.0 ≤ longest * scale) × (shares ≤ 16 * most_scale) }
    ensures is { result ≡ sum_ok scale left.0 amounts.0 shares }
{
    let ticks = left.0 / scale;
    let rest = left.0 % scale;
    amounts.0 <= shares * ticks + shares * rest / scale
}

// THE PLANE

// A closed plane, at a whole tick: nobody runs or waits. So whatever its end is, who is awake, and what the places of the waiting hold.
pub fn closed_ok(table: Columns, present: Instant, crew: CrewRef) -> bool
    requires small { (table.rows.count ≤ 128) × (table.m ≤ 16) × (0 < table.scale) }
    ensures is { (end : ℕ) (awake : List Bool) (wk wt : List ℕ) → result ≡ sound_by table.entry.rows.count table.entry.m present.0 end awake
        (queue_seen crew.entry.running) (at wk wt crew.entry.waiting.len) crew.entry.slots.now
        && (eqb (present.0 % table.entry.scale) 0 && (eqb crew.entry.running.len 0 && eqb crew.entry.waiting.len 0)) }
{
    present.0 % table.scale == 0
        && crew.running.len == 0
        && crew.waiting.len == 0
        && seats_ok(table, present, &[false; 128], crew)
}

// An open plane, whose end is in ticks.
pub fn open_ok(
    shares: u64,
    table: Columns,
    present: Instant,
    end: u64,
    awake: &[bool; 128],
    crew: CrewRef,
) -> bool
    requires small { Soon shares table.rows.count table.m table.scale present.0 end }
    ensures is { let t = table.entry in
        let close = end * t.scale in
        let run = queue_seen crew.entry.running in
        let wait = queue_seen crew.entry.waiting in
        result ≡ sound_by t.rows.count t.m present.0 close awake.now run wait crew.entry.slots.now
        && (ltb present.0 close && amounts_ok shares t.m t.scale present.0 close run.keys run.len wait.keys wait.len) }
{
    let close = Instant(end * table.scale);
    let run = crew.running.len;
    let wait = crew.waiting.len;
    if !(present.0 < close.0 && run <= 128 && wait <= 128 && idle_ok(table.m, run, wait)) {
        return false;
    }
    let mut roll = Roll {
        count: table.rows.count,
        ok: awake,
        met: [false; 128],
    };
    let Some(runs) = roll.enter(crew.running, present, close.0) else {
        return false;
    };
    if !seats_ok(table, present, &roll.met, crew) {
        return false;
    }
    let Some(waits) = roll.enter(crew.waiting, present, close.0 - 1) else {
        return false;
    };
    let left = between(present, close);
    let work = Amount(runs + (wait as u64 * left.0 - waits));
    sum_ok(table.scale, left, work, shares)
}
