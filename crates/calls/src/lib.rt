// The calls by value: arrive, step, and run for many steps at once. None of them asks anything of its arguments.
#![tactic(auto)]

ghost use Rattle.std.specs.Prelude.{◌≡◌, true, length};
ghost use Rattle.rules.specs.Answers.{is_done};
ghost use Rattle.refusals.specs.Step.{Ahead};
ghost use Rattle.inplace.specs.Step.{step_room};
ghost use Rattle.inplace.specs.Run.{run_room};
ghost use Rattle.calls.specs.Arrive.{arrive_of};
ghost use Rattle.calls.specs.Step.{step_of};
ghost use Rattle.calls.specs.Run.{run_of};

use queue::Lane;
use rules::Refusal;
use state::{Crew, InPlace, State};
use table::{Columns, Rows};

// What an arrival answers. Here and below the state stands first: with one byte ahead of it, the compiler copies it once more.
#[derive(Clone, Copy)]
pub struct Arrived {
    pub state: State,
    pub answer: Result<(), Refusal>,
}

// What a step answers; its record is in the room.
#[derive(Clone, Copy)]
pub struct Stepped {
    pub state: State,
    pub answer: Result<(), Refusal>,
}

// What a run answers; that many records are in the room.
#[derive(Clone, Copy)]
pub struct Ran {
    pub state: State,
    pub answer: Result<(), Refusal>,
    pub records: usize,
}

// The parts of a state `s` that is copied to `state`, lent: its table from the one, all else from the other.
macro_rules! lent {
    ($s:ident, $state:ident) => {
        &mut InPlace {
            table: Columns {
                rows: Rows {
                    period: &$s.table.period,
                    exec: &$s.table.exec,
                    deadline: &$s.table.deadline,
                    count: $s.table.count,
                },
                share: &$s.table.share,
                order: &$s.table.order,
                m: $s.table.m,
                scale: $s.table.scale,
            },
            now: $s.now,
            going: $s.going,
            end: $s.end,
            awake: &mut $state.jobs.awake,
            crew: Crew {
                running: Lane {
                    keys: &mut $state.running.keys,
                    tasks: &mut $state.running.tasks,
                    len: $s.running.len,
                },
                waiting: Lane {
                    keys: &mut $state.waiting.keys,
                    tasks: &mut $state.waiting.tasks,
                    len: $s.waiting.len,
                },
                slots: &mut $state.slots,
            },
        }
    };
}

// What is no array of these parts goes back into the state.
macro_rules! kept {
    ($state:ident, $lent:ident) => {
        $state.now = $lent.now;
        $state.going = $lent.going;
        $state.end = $lent.end;
        $state.running.len = $lent.crew.running.len;
        $state.waiting.len = $lent.crew.waiting.len;
    };
}

// A task arrives at the present instant.
pub fn arrive(s: State, task: u64) -> Arrived
    ensures is { result ≡ arrive_of s task }
{
    let mut state = s;
    let places = lent!(s, state);
    let answer = inplace::arrive(places, &mut state.jobs.arrived, &mut state.jobs.last, task);
    kept!(state, places);
    Arrived { state, answer }
}

// Runs to the next event or the horizon, whichever is first, and writes one record.
pub fn step(s: State, horizon: u64, room: &mut [u8]) -> Stepped
    ensures is { (result ≡ step_of s horizon (length room.old)) × (room.new ≡ step_room s horizon room.old) }
{
    let mut state = s;
    let places = lent!(s, state);
    let answer = inplace::step(places, &s.jobs.arrived, &s.jobs.last, horizon, room);
    kept!(state, places);
    Stepped { state, answer }
}

// Step after step till the horizon, or till less than 48 bytes of the room are left.
pub fn run(s: State, horizon: u64, room: &mut [u8]) -> Ran
    ensures is { (result ≡ run_of s horizon (length room.old)) × (room.new ≡ run_room s horizon room.old) }
    ensures ahead { is_done result.answer ≡ true → Ahead s horizon (length room.old) }
{
    let mut state = s;
    let places = lent!(s, state);
    let ran = inplace::run(places, &s.jobs.arrived, &s.jobs.last, horizon, room);
    kept!(state, places);
    Ran {
        state,
        answer: ran.answer,
        records: ran.records,
    }
}
