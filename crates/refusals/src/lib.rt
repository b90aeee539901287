// The refusals of arrive, step and run, decided on a state in lent places.
#![tactic(auto)]

ghost use Rattle.std.specs.Prelude.{◌≡◌, ◌+◌, ◌≤◌, OnOk, length, ltb};
ghost use Rattle.rules.specs.Bounds.{clock, most_scale};
ghost use Rattle.state.specs.Lent.{state_in, state_seen};
ghost use Rattle.moves.specs.Whole.{Whole};
ghost use Rattle.refusals.specs.Check.{Checked};
ghost use Rattle.refusals.specs.Arrive.{arrive_answer_of, comes_by, Dated, MayCome};
ghost use Rattle.refusals.specs.Step.{step_answer_of, moves_by, Ahead};

use ground::Instant;
use rules::Refusal;
use state::{InPlace, InPlaceRef};
use table::Columns;

// Nothing is done, and the proofs learn that these arrays have their places.
fn places(order: &[u16; 128], awake: &[bool; 128], slots: &[u16; 16])
    ensures is { (length order.now ≡ 128) × (length awake.now ≡ 128) × (length slots.now ≡ 16) }
{}

// Does the state hold together? Then it is whole.
pub fn check(s: InPlaceRef, arrived: &[bool; 128], last: &[u64; 128]) -> bool
    ensures is { Checked (state_seen s.entry arrived.now last.now) result }
{
    let crew = s.crew;
    queue::measure(crew.running.keys, crew.running.tasks);
    queue::measure(crew.waiting.keys, crew.waiting.tasks);
    places(s.table.order, s.awake, crew.slots);
    together::holds(s, arrived, last)
}

// Does a tick lie before the last arrival plus p?
fn too_soon(tick: u64, last: u64, period: u32) -> bool
    requires dated { last ≤ clock }
    ensures is { result ≡ ltb tick (last + period) }
{
    tick < last + u64::from(period)
}

// The answer to an arrival on a state that holds together: no such task, between ticks, or too soon.
pub fn comes(
    table: Columns,
    present: Instant,
    arrived: &[bool; 128],
    last: &[u64; 128],
    task: u64,
) -> Result<(), Refusal>
    requires dated { Dated table.rows.count table.scale arrived.now last.now }
    ensures is { result ≡ comes_by table.entry.rows.count table.entry.scale present.0 table.entry.rows.period.now arrived.now last.now task }
{
    if !(1..=table.rows.count as u64).contains(&task) {
        return Err(Refusal::TaskNumber);
    }
    if present.0 % table.scale != 0 {
        return Err(Refusal::BetweenTicks);
    }
    let i = (task - 1) as usize;
    if arrived[i] && too_soon(present.0 / table.scale, last[i], table.rows.period[i]) {
        return Err(Refusal::TooSoon);
    }
    Ok(())
}

// The answer to an arrival, and what it lets happen.
pub fn may_arrive(
    s: &InPlace,
    arrived: &[bool; 128],
    last: &[u64; 128],
    task: u64,
) -> Result<(), Refusal>
    ensures is { result ≡ arrive_answer_of (state_in s.entry.now arrived.now last.now) task }
    ensures may { let k = state_in s.entry.now arrived.now last.now in OnOk result (Whole k × MayCome k task) }
{
    if !check(s.shared(), arrived, last) {
        return Err(Refusal::NotTogether);
    }
    comes(s.table, s.now, arrived, last, task)
}

// The answer to a step or a run on a state that holds together: no room, a horizon past the clock, or one not ahead.
#[tactic(auto, unfolding(crate::specs::Step::moves_by))]
pub fn may_move(scale: u64, present: Instant, horizon: u64, len: usize) -> Result<(), Refusal>
    requires small { scale ≤ most_scale }
    ensures is { result ≡ moves_by scale present.0 horizon len }
{
    if len < rules::RECORD_SIZE {
        return Err(Refusal::RoomTooShort);
    }
    if rules::CLOCK < horizon {
        return Err(Refusal::HorizonPastClock);
    }
    if horizon * scale <= present.0 {
        return Err(Refusal::HorizonNotLater);
    }
    Ok(())
}

// The answer to a step or a run with that much room, and what it lets happen.
pub fn may_step(
    s: &InPlace,
    arrived: &[bool; 128],
    last: &[u64; 128],
    horizon: u64,
    len: usize,
) -> Result<(), Refusal>
    ensures is { result ≡ step_answer_of (state_in s.entry.now arrived.now last.now) horizon len }
    ensures may { OnOk result (Ahead (state_in s.entry.now arrived.now last.now) horizon len) }
{
    if !check(s.shared(), arrived, last) {
        return Err(Refusal::NotTogether);
    }
    may_move(s.table.scale, s.now, horizon, len)
}
