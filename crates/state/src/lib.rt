// The state of the scheduler.
#![tactic(auto)]

ghost use Rattle.std.specs.Prelude.{◌≡◌, Bool, List, ℕ};
ghost use Rattle.queue.specs.Lent.{queue_in, queue_seen};
ghost use Rattle.state.specs.Lent.{state_in, state_seen};

use ground::Instant;
use queue::{Lane, LaneRef, Queue};
use table::{Columns, Table};

// The tasks' jobs, by row: is it awake, did it ever arrive, its last arrival in ticks.
#[derive(Clone, Copy)]
pub struct Jobs {
    pub awake: [bool; 128],
    pub arrived: [bool; 128],
    pub last: [u64; 128],
}

// going: is a plane open; end: its end in ticks; slots: the task on each processor, or 0.
#[derive(Clone, Copy)]
pub struct State {
    pub table: Table,
    pub now: Instant,
    pub going: bool,
    pub end: u64,
    pub jobs: Jobs,
    pub running: Queue,
    pub waiting: Queue,
    pub slots: [u16; 16],
}

// Who runs, who waits, and the task on each processor, or 0, in lent places.
#[derive(Drop)]
pub struct Crew<'a> {
    pub running: Lane<'a>,
    pub waiting: Lane<'a>,
    pub slots: &'a mut [u16; 16],
}

// A state in lent places, but for which tasks ever arrived and when, which is lent beside it: a step only reads that.
#[derive(Drop)]
pub struct InPlace<'a> {
    pub table: Columns<'a>,
    pub now: Instant,
    pub going: bool,
    pub end: u64,
    pub awake: &'a mut [bool; 128],
    pub crew: Crew<'a>,
}

// A crew in places that are lent to be read.
#[derive(Clone, Copy)]
pub struct CrewRef<'a> {
    pub running: LaneRef<'a>,
    pub waiting: LaneRef<'a>,
    pub slots: &'a [u16; 16],
}

// A state in places that are lent to be read.
#[derive(Clone, Copy)]
pub struct InPlaceRef<'a> {
    pub table: Columns<'a>,
    pub now: Instant,
    pub going: bool,
    pub end: u64,
    pub awake: &'a [bool; 128],
    pub crew: CrewRef<'a>,
}

impl Crew<'_> {
    // The crew, to be read.
    pub fn shared(&self) -> CrewRef<'_>
        ensures running { queue_seen result.running ≡ queue_in self.now.running }
        ensures waiting { queue_seen result.waiting ≡ queue_in self.now.waiting }
        ensures slots { result.slots.now ≡ self.now.slots.now }
    {
        CrewRef {
            running: self.running.shared(),
            waiting: self.waiting.shared(),
            slots: self.slots,
        }
    }
}

impl InPlace<'_> {
    // The state, to be read.
    pub fn shared(&self) -> InPlaceRef<'_>
        ensures is { (arrived : List Bool) (last : List ℕ) → state_seen result arrived last ≡ state_in self.entry.now arrived last }
    {
        InPlaceRef {
            table: self.table,
            now: self.now,
            going: self.going,
            end: self.end,
            awake: self.awake,
            crew: self.crew.shared(),
        }
    }
}
