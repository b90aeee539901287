// Long courses of arrivals and steps, with demand 3 read off their records.
use rules::Refusal;
use state::State;
use table::Row;

// One arrival in so many is called, or with 0 each as soon as it may; a horizon lies 1 to `stride` ticks ahead; so many
// horizons; by step or by run.
#[derive(Clone, Copy)]
pub(crate) struct Plan {
    pub chance: u64,
    pub stride: u64,
    pub stops: u64,
    pub stepwise: bool,
}

// The job of a row: how long it has run, the tick of its arrival, the number of the last record that shows it.
#[derive(Clone, Copy)]
struct Job {
    ran: u64,
    came: Option<u64>,
    seen: u64,
}

// The book of a course: records and their checksum; arrivals taken, refused as too soon, refused else; jobs whose running time
// is known by demand 3, and those that differ; records that do not follow the last one or do not move time; tasks in two slots
// of a record, or of no row. Then the end of the last record, the tick of the horizon, the last pseudo-random number; the jobs.
#[derive(Clone, Copy)]
pub(crate) struct Book {
    records: u64,
    sum: u64,
    taken: u64,
    soon: u64,
    others: u64,
    compared: u64,
    differ: u64,
    gaps: u64,
    twice: u64,
    end: u64,
    tick: u64,
    draw: u64,
    jobs: [Job; 128],
}

// One more, where something is so.
fn tell(count: &mut u64, so: bool) {
    *count = count.saturating_add(u64::from(so));
}

// A checksum with these bytes.
fn digest(bytes: &[u8], start: u64) -> u64 {
    let mut sum = start;
    for b in bytes {
        sum = (sum % 4294967291 * 1000003 + u64::from(*b) + 1) % 4294967291;
    }
    sum
}

// What a call leaves: the state, how many records it wrote, and whether the horizon may lie ahead yet.
#[derive(Clone, Copy)]
struct Went {
    state: State,
    records: usize,
    more: bool,
}

// A step, or a run of at most 64 records.
fn go(s: State, horizon: u64, stepwise: bool, room: &mut [u8; 3072]) -> Went {
    if !stepwise {
        let r = calls::run(s, horizon, room);
        return Went {
            state: r.state,
            records: r.records,
            more: r.records == 64,
        };
    }
    let r = calls::step(s, horizon, room);
    let done = r.answer.is_ok();
    Went {
        state: r.state,
        records: usize::from(done),
        more: done,
    }
}

// What a job of e in q has run after so many ticks: e ticks after q ticks and later; before that, at a plane's end, e times
// the ticks gone, divided by q.
fn right(e: u64, q: u64, scale: u64, gone: u64) -> u64 {
    if q <= gone {
        return e.saturating_mul(scale);
    }
    e.saturating_mul(scale / q).saturating_mul(gone)
}

impl Book {
    // The book before a course.
    fn new() -> Book {
        let job = Job {
            ran: 0,
            came: None,
            seen: 0,
        };
        Book {
            records: 0,
            sum: 0,
            taken: 0,
            soon: 0,
            others: 0,
            compared: 0,
            differ: 0,
            gaps: 0,
            twice: 0,
            end: 0,
            tick: 0,
            draw: 1,
            jobs: [job; 128],
        }
    }

    // What its line has.
    pub(crate) fn figures(&self) -> [u64; 9] {
        [
            self.records,
            self.sum,
            self.taken,
            self.soon,
            self.others,
            self.compared,
            self.differ,
            self.gaps,
            self.twice,
        ]
    }

    // One of n numbers from 0 on, by the next pseudo-random one.
    fn drawn(&mut self, n: u64) -> u64 {
        self.draw = (self.draw % 2147483648 * 1103515245 + 12345) % 2147483648;
        if n == 0 {
            return 0;
        }
        self.draw / 65536 % n
    }

    // RECORDS

    // A task stands in a slot for so many sub-ticks.
    fn seat(&mut self, task: u64, len: u64) {
        if task == 0 {
            return;
        }
        if 128 < task {
            tell(&mut self.twice, true);
            return;
        }
        let i = (task - 1) as usize;
        let job = self.jobs[i];
        tell(&mut self.twice, job.seen == self.records);
        self.jobs[i] = Job {
            ran: job.ran.saturating_add(len),
            came: job.came,
            seen: self.records,
        };
    }

    // A record and its sixteen slots.
    fn record(&mut self, bytes: &[u8; 48]) {
        let from = ground::get(bytes, 0, 8);
        let to = ground::get(bytes, 8, 8);
        let len = to.saturating_sub(from);
        tell(&mut self.records, true);
        tell(&mut self.gaps, from != self.end);
        tell(&mut self.gaps, len == 0);
        self.end = to;
        for k in 0..16 {
            self.seat(ground::get(bytes, 16 + 2 * k, 2), len);
        }
    }

    // The first n records of the room.
    fn all_records(&mut self, room: &[u8; 3072], n: usize) {
        let (records, _) = room.as_chunks::<48>();
        for one in records.iter().take(n) {
            self.sum = digest(one, self.sum);
            self.record(one);
        }
    }

    // STEPS

    // A step, or a run of at most 64 records, and its records.
    fn part(&mut self, s: State, stepwise: bool) -> Went {
        let mut room = [0u8; 3072];
        let w = go(s, self.tick, stepwise, &mut room);
        self.all_records(&room, w.records);
        w
    }

    // To the horizon, in at most 100,000 parts.
    fn reach(&mut self, s: State, stepwise: bool) -> State {
        let mut state = s;
        for _ in 0..100000 {
            let w = self.part(state, stepwise);
            state = w.state;
            if !w.more {
                return state;
            }
        }
        state
    }

    // ARRIVALS

    // Does a row arrive? With chance 0 as soon as its period is over; else by chance, whether it is or not.
    fn called(&mut self, came: Option<u64>, period: u32, chance: u64) -> bool {
        let x = self.drawn(chance);
        if 0 < chance {
            return x == 0;
        }
        match came {
            None => true,
            Some(tick) => tick.saturating_add(u64::from(period)) <= self.tick,
        }
    }

    // The answer to an arrival; the row's job then: one that begins has run nothing.
    fn answered(&mut self, job: Job, answer: Result<(), Refusal>) -> Job {
        match answer {
            Ok(()) => {
                tell(&mut self.taken, true);
                Job {
                    ran: 0,
                    came: Some(self.tick),
                    seen: job.seen,
                }
            }
            Err(Refusal::TooSoon) => {
                tell(&mut self.soon, true);
                job
            }
            Err(_) => {
                tell(&mut self.others, true);
                job
            }
        }
    }

    // Perhaps each row arrives.
    fn arrivals(&mut self, s: State, chance: u64) -> State {
        let mut state = s;
        for i in 0..s.table.count.min(128) {
            let job = self.jobs[i];
            if self.called(job.came, s.table.period[i], chance) {
                let a = calls::arrive(state, i as u64 + 1);
                state = a.state;
                self.jobs[i] = self.answered(job, a.answer);
            }
        }
        state
    }

    // DEMAND 3

    // The job of a row, if it has one and what it has run is known.
    fn judge(&mut self, job: Job, row: Row, scale: u64, going: bool) {
        let Some(came) = job.came else {
            return;
        };
        let e = u64::from(row.exec);
        let q = u64::from(row.shorter());
        let gone = self.tick.saturating_sub(came);
        if gone == 0 || going && gone < q {
            return;
        }
        tell(&mut self.compared, true);
        tell(&mut self.differ, job.ran != right(e, q, scale, gone));
    }

    // The jobs of all rows.
    fn judge_all(&mut self, s: State) {
        let t = s.table;
        for i in 0..t.count.min(128) {
            let row = Row {
                period: t.period[i],
                exec: t.exec[i],
                deadline: t.deadline[i],
            };
            self.judge(self.jobs[i], row, t.scale, s.going);
        }
    }

    // COURSES

    // The next horizon.
    fn onward(&mut self, stride: u64) {
        let ahead = self.drawn(stride);
        self.tick = self.tick.saturating_add(ahead).saturating_add(1);
    }
}

// The book of a course, from a state at instant 0: arrivals, then steps to a horizon, then the comparison there, and again.
pub(crate) fn course(first: State, p: Plan) -> Book {
    let mut book = Book::new();
    let mut state = first;
    for _ in 0..p.stops {
        let started = book.arrivals(state, p.chance);
        book.onward(p.stride);
        state = book.reach(started, p.stepwise);
        book.judge_all(state);
    }
    book
}
