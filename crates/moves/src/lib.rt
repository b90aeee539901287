// A step and an arrival on a state in lent places. Each promise is an equation on states.
#![tactic(auto)]

ghost use Rattle.std.specs.Prelude.{◌≡◌, Bool, true, List, ℕ, ◌*◌, ◌<◌, ◌≤◌, length};
ghost use Rattle.rules.specs.Bounds.{clock};
ghost use Rattle.rules.specs.Reasons.{Comes};
ghost use Rattle.table.specs.declared.Table.{Table};
ghost use Rattle.state.specs.Lent.{state_with, state_over, SamePlaces};
ghost use Rattle.state.specs.Machine.{work_of, opened_of, move_to, moved_of, arrived_of};
ghost use Rattle.state.specs.View.{view};
ghost use Rattle.state.specs.Work.{next_of};
ghost use Rattle.moves.specs.Whole.{Whole, Settles, Writes};

use ground::{Amount, Instant};
use plane::Plane;
use state::InPlace;

// A plane is open afterwards: the one that was, or a new one.
fn open_in(s: &mut InPlace, last: &[u64; 128])
    requires whole { (exec : List ℕ) × (arrived : List Bool) × Whole (state_with s.old exec arrived last.now) }
    ensures same { SamePlaces s.old s.new }
    ensures is { (exec : List ℕ) (arrived : List Bool) → state_with s.new exec arrived last.now ≡ opened_of (state_with s.old exec arrived last.now) }
{
    if s.going {
        return;
    }
    let table = s.table;
    let tick = s.now.0 / table.scale;
    let end = plane::plane_end(table.rows, s.awake, last, tick);
    let plane = Plane {
        m: table.m,
        now: s.now,
        close: Instant(end * table.scale),
    };
    plane::open_plane(plane, &mut s.crew, s.awake, table, end - tick);
    s.going = true;
    s.end = end;
}

// At the next instant of an open plane: the plane closes, or its events happen.
fn settle_in(s: &mut InPlace, last: &[u64; 128], to: Instant)
    requires next { (exec : List ℕ) × (arrived : List Bool) × Settles (state_with s.old exec arrived last.now) to.0 }
    ensures same { SamePlaces s.old s.new }
    ensures is { (exec : List ℕ) (arrived : List Bool) → state_with s.new exec arrived last.now ≡ (move_to (state_with s.old exec arrived last.now) to.0).state }
{
    let close = Instant(s.end * s.table.scale);
    s.now = to;
    if to == close {
        plane::sleep_all(s.table.rows, s.awake, last, s.end);
        plane::clear_slots(s.crew.slots);
        s.crew.running.len = 0;
        s.crew.waiting.len = 0;
        s.going = false;
        return;
    }
    let plane = Plane {
        m: s.table.m,
        now: to,
        close,
    };
    plane::events(plane, &mut s.crew);
}

// In an open plane: on to the next event or the stop, with a record of it.
fn move_in(s: &mut InPlace, last: &[u64; 128], stop: Instant, room: &mut [u8])
    requires ready { (48 ≤ length room.old) × ((exec : List ℕ) × (arrived : List Bool)
        × Whole (state_with s.old exec arrived last.now) × (s.old.going ≡ true) × (s.old.now.0 < stop.0)) }
    ensures same { SamePlaces s.old s.new }
    ensures is { (exec : List ℕ) (arrived : List Bool) → let k = state_with s.old exec arrived last.now in
        Writes (move_to k (next_of (work_of k) stop.0)) (state_with s.new exec arrived last.now) room.old room.new }
{
    let close = Instant(s.end * s.table.scale);
    let crew = s.crew.shared();
    let to = plane::next_instant(close, crew.running, crew.waiting, stop);
    let slots = &mut *s.crew.slots;
    record::write(room, s.now, to, slots);
    settle_in(s, last, to);
}

// A step: a plane opens where none is, then on to the next event or the horizon, with a record of it.
pub fn step_in(s: &mut InPlace, last: &[u64; 128], horizon: u64, room: &mut [u8])
    requires ready { (48 ≤ length room.old) × (horizon ≤ clock) × ((exec : List ℕ) × (arrived : List Bool)
        × Whole (state_with s.old exec arrived last.now) × (s.old.now.0 < horizon * s.old.table.scale)) }
    ensures same { SamePlaces s.old s.new }
    ensures is { (exec : List ℕ) (arrived : List Bool) →
        Writes (moved_of (state_with s.old exec arrived last.now) horizon) (state_with s.new exec arrived last.now) room.old room.new }
{
    let stop = Instant(horizon * s.table.scale);
    open_in(s, last);
    move_in(s, last, stop, room);
}

// An arrival of the task in row i: it is awake from this tick on, and joins the plane if one is open.
pub fn arrive_in(s: &mut InPlace, arrived: &mut [bool; 128], last: &mut [u64; 128], i: usize)
    requires ready { (z : Table) × let k = state_over s.old z arrived.old last.old in Whole k × Comes (view k) i }
    ensures same { SamePlaces s.old s.new }
    ensures is { (z : Table) → state_over s.new z arrived.new last.new ≡ arrived_of (state_over s.old z arrived.old last.old) i }
{
    let table = s.table;
    let tick = s.now.0 / table.scale;
    let part = table.share[i];
    s.awake[i] = true;
    arrived[i] = true;
    last[i] = tick;
    if !s.going {
        return;
    }
    let plane = Plane {
        m: table.m,
        now: s.now,
        close: Instant(s.end * table.scale),
    };
    let task = (i + 1) as u16;
    let amount = Amount(part * (s.end - tick));
    plane::join(plane, &mut s.crew, task, amount, part < table.scale);
}
