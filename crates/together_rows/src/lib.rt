// The rows' part of the check: table, scale, shares, last arrivals, limits, and the kept order.
#![tactic(auto)]

ghost use Rattle.std.specs.Prelude.{◌≡◌, true, false, ◌&&◌, ◌||◌, ℕ, ◌+◌, ◌*◌, ◌/◌, ◌≤◌, ◌<◌, min, leb, ltb, eqb, get_or, Some, None, MatchOption, if◌then◌else◌};
ghost use Rattle.rules.specs.Admission.{processors_ok};
ghost use Rattle.rules.specs.Bounds.{clock, most_scale, most_ticks};
ghost use Rattle.table.specs.Lent.{table_in};
ghost use Rattle.together_rows.specs.Tables.{row_ok, scale_in_range, share_ok, common_below, order_ok, ahead};
ghost use Rattle.together_rows.specs.Jobs.{last_ok, ceil_of, soonest_of, limit_ok, awake_sum};
ghost use Rattle.together_rows.specs.Front.{job_ok, each_ok, times_of, Summed, front_of};

use ground::Instant;
use table::{Columns, Row, Rows, gcd, processors_ok};

// A task's job: did it ever arrive, is it awake, its last arrival in ticks.
#[derive(Clone, Copy)]
struct Job {
    arrived: bool,
    awake: bool,
    last: u64,
}

// The jobs of all tasks, in lent columns.
#[derive(Clone, Copy)]
struct Jobs<'a> {
    arrived: &'a [bool; 128],
    awake: &'a [bool; 128],
    last: &'a [u64; 128],
}

// What a job is held against: the present tick, the present rounded up to a tick, and how far every limit has to reach.
#[derive(Clone, Copy)]
struct Times {
    tick: u64,
    ceil: u64,
    reach: u64,
}

// What one loop over the rows adds up: is some q L itself, all shares, and the awake tasks' shares.
#[derive(Clone, Copy)]
struct Sums {
    whole: bool,
    total: u64,
    shares: u64,
}

// ROWS

// Are p, e and D in range, and e at most q? Three tests: e from 1 to q, and the longer of p and D in range.
fn row_ok(row: Row) -> bool
    ensures is { result ≡ row_ok row.period row.exec row.deadline }
{
    row.exec != 0 && row.exec <= row.shorter() && row.longer() <= rules::MOST_TICKS
}

// SCALE AND SHARES

// L/q.
fn quotient(scale: u64, row: Row) -> u64
    requires some { 0 < min row.period row.deadline }
    ensures is { result ≡ scale / min row.period row.deadline }
{
    scale / u64::from(row.shorter())
}

// With d = L/q: is L a multiple of q, and the share e times d?
fn share_ok(scale: u64, row: Row, share: u64, d: u64) -> bool
    requires small { (scale ≤ most_scale) × (row.exec ≤ most_ticks) × (d ≡ scale / min row.period row.deadline) }
    ensures is { result ≡ share_ok scale (min row.period row.deadline) row.exec share }
{
    d * u64::from(row.shorter()) == scale && share == u64::from(row.exec) * d
}

// JOBS

impl Job {
    // Is the last arrival not later than the present tick; if there was none, is the task asleep?
    fn last_ok(self, tick: u64) -> bool
        ensures is { result ≡ last_ok self.arrived self.awake self.last tick }
    {
        if self.arrived {
            self.last <= tick
        } else {
            !self.awake
        }
    }

    // The present rounded up to a tick, or the last arrival plus p if later.
    fn soonest(self, period: u32, ceil: u64) -> u64
        requires small { self.arrived ≡ true → self.last ≤ clock }
        ensures is { result ≡ soonest_of self.arrived self.last period ceil }
    {
        if self.arrived {
            ceil.max(self.last + u64::from(period))
        } else {
            ceil
        }
    }

    // Is an awake task's last arrival plus q, an asleep task's soonest plus q, at or after the end?
    fn limit_ok(self, row: Row, ceil: u64, end: u64) -> bool
        requires small { (self.awake ≡ true → self.last ≤ clock) × (self.arrived ≡ true → self.last ≤ clock) × (ceil ≤ clock + 1) }
        ensures is { result ≡ limit_ok self.awake self.arrived self.last row.period row.deadline ceil end }
    {
        let q = u64::from(row.shorter());
        if self.awake {
            end <= self.last + q
        } else {
            end <= self.soonest(row.period, ceil) + q
        }
    }

    // Is the last arrival not later than the tick, and does the limit reach far enough?
    fn ok(self, row: Row, times: Times) -> bool
        requires small { (times.tick ≤ clock) × (times.ceil ≤ clock + 1) }
        ensures is { result ≡ job_ok self.arrived self.awake self.last row.period row.deadline times.tick times.ceil times.reach }
    {
        self.last_ok(times.tick) && self.limit_ok(row, times.ceil, times.reach)
    }
}

impl Jobs<'_> {
    // The job of the task at a place.
    fn job(self, i: usize) -> Job
        requires inside { i < 128 }
        ensures is { result ≡ record {
          arrived = get_or self.entry.arrived.now i false;
          awake = get_or self.entry.awake.now i false;
          last = get_or self.entry.last.now i 0;
        } }
    {
        Job {
            arrived: self.arrived[i],
            awake: self.awake[i],
            last: self.last[i],
        }
    }
}

// The present rounded up to a tick.
fn ceil(present: Instant, scale: u64) -> u64
    requires small { (0 < scale) × (present.0 / scale ≤ clock) }
    ensures is { result ≡ ceil_of present.0 scale }
{
    let tick = present.0 / scale;
    if present.0 % scale == 0 {
        tick
    } else {
        tick + 1
    }
}

impl Times {
    // Every limit has to reach to the end of an open plane, and past the present tick in a closed one.
    fn at(present: Instant, scale: u64, going: bool, end: u64) -> Times
        requires small { (0 < scale) × (present.0 / scale ≤ clock) }
        ensures is { result ≡ times_of present.0 scale going end }
    {
        let tick = present.0 / scale;
        Times {
            tick,
            ceil: ceil(present, scale),
            reach: if going { end } else { tick + 1 },
        }
    }
}

// EVERY ROW

// Does every row pass, with its share, its last arrival and its limit? One loop, so that a row's other tests run while its
// division does; the sums on the way.
fn rows_ok(table: Columns, jobs: Jobs, times: Times) -> Option<Sums>
    requires inside { (table.rows.count ≤ 128) × (0 < table.scale) × (table.scale ≤ most_scale) × (times.tick ≤ clock) × (times.ceil ≤ clock + 1) }
    ensures is { let t = table_in table.entry in let each = each_ok t jobs.entry times t.count in
        MatchOption result (each ≡ false) (λ s. (each ≡ true) × Summed t jobs.entry.awake.now t.count s.whole s.total s.shares) }
{
    let mut whole = false;
    let mut total: u64 = 0;
    let mut shares: u64 = 0;
    for i in 0..table.rows.count {
        let row = table.rows.row(i);
        if !row_ok(row) {
            return None;
        }
        let share = table.share[i];
        let d = quotient(table.scale, row);
        if !share_ok(table.scale, row, share, d) {
            return None;
        }
        let job = jobs.job(i);
        if !job.ok(row, times) {
            return None;
        }
        whole = whole || d == 1;
        total += share;
        shares += if job.awake { share } else { 0 };
    }
    Some(Sums {
        whole,
        total,
        shares,
    })
}

// Is no divisor common to L and all L/q?
fn coprime(rows: Rows, scale: u64) -> bool
    requires inside { (rows.count ≤ 128) × ((i : ℕ) → i < rows.count → 0 < min (get_or rows.period.now i 0) (get_or rows.deadline.now i 0)) }
    ensures is { result ≡ eqb (common_below scale rows.entry.period.now rows.entry.deadline.now rows.entry.count) 1 }
{
    let mut g = scale;
    for i in 0..rows.count {
        g = gcd(g, quotient(scale, rows.row(i)));
        if g == 1 {
            return true;
        }
    }
    g == 1
}

// Are m, the row count and L in range, and the instant within the clock?
fn size_ok(table: Columns, present: Instant) -> bool
    ensures is { result ≡ processors_ok table.entry.m && ((leb 1 table.entry.rows.count && leb table.entry.rows.count 128)
        && (scale_in_range table.entry.scale && leb present.0 (clock * table.entry.scale))) }
{
    processors_ok(table.m)
        && (1..=rules::MOST_TASKS).contains(&table.rows.count)
        && (1..=rules::MOST_SCALE).contains(&table.scale)
        && present.0 <= rules::CLOCK * table.scale
}

// Do table, m, L and shares pass admission, is the instant within the clock, no last arrival later than it, and does every
// limit reach far enough for the plane? Then the sum of the awake tasks' shares.
pub fn table_ok(
    table: Columns,
    present: Instant,
    going: bool,
    end: u64,
    awake: &[bool; 128],
    arrived: &[bool; 128],
    last: &[u64; 128],
) -> Option<u64>
    ensures is { result ≡ (if front_of (table_in table.entry) present.0 going end arrived.now awake.now last.now
        then Some (awake_sum awake.now table.entry.share.now table.entry.rows.count) else None) }
{
    if !size_ok(table, present) {
        return None;
    }
    let jobs = Jobs {
        arrived,
        awake,
        last,
    };
    let times = Times::at(present, table.scale, going, end);
    let sums = rows_ok(table, jobs, times)?;
    if (table.m as u64) * table.scale < sums.total {
        return None;
    }
    if !(sums.whole || coprime(table.rows, table.scale)) {
        return None;
    }
    Some(sums.shares)
}

// THE KEPT ORDER

// Does place i come ahead of place j?
fn ahead(share: &[u64; 128], i: usize, j: usize) -> bool
    requires inside { (i < 128) × (j < 128) }
    ensures is { result ≡ ahead share.now i j }
{
    let x = share[i];
    let y = share[j];
    y < x || (x == y && i < j)
}

// Does the kept order stand: are its entries places of rows, each ahead of the next?
pub fn order_ok(table: Columns) -> bool
    requires inside { (1 ≤ table.rows.count) × (table.rows.count ≤ 128) }
    ensures is { result ≡ order_ok (table_in table.entry) }
{
    let count = table.rows.count;
    let mut i = usize::from(table.order[0]);
    if count <= i {
        return false;
    }
    for k in 1..count {
        let j = usize::from(table.order[k]);
        if !(j < count && ahead(table.share, i, j)) {
            return false;
        }
        i = j;
    }
    true
}
