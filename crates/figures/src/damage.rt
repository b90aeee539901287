// A number put into a state, wherever it is: states that no call hands back.
use ground::Instant;
use state::State;

// The least bits of a number.
fn low32(x: u64) -> u32 {
    (x % 4294967296) as u32
}

fn low16(x: u64) -> u16 {
    (x % 65536) as u16
}

// The state with a number in place of a column; another name changes nothing.
pub(crate) fn set(held: State, column: &[u8], at: usize, x: u64) -> State {
    let mut s = held;
    let i = at % 128;
    match column {
        b"period" => s.table.period[i] = low32(x),
        b"exec" => s.table.exec[i] = low32(x),
        b"deadline" => s.table.deadline[i] = low32(x),
        b"share" => s.table.share[i] = x,
        b"order" => s.table.order[i] = low16(x),
        b"count" => s.table.count = x as usize,
        b"m" => s.table.m = x as usize,
        b"scale" => s.table.scale = x,
        b"awake" => s.jobs.awake[i] = x == 1,
        b"arrived" => s.jobs.arrived[i] = x == 1,
        b"last" => s.jobs.last[i] = x,
        b"running_keys" => s.running.keys[i] = x,
        b"running_tasks" => s.running.tasks[i] = low16(x),
        b"running" => s.running.len = x as usize,
        b"waiting_keys" => s.waiting.keys[i] = x,
        b"waiting_tasks" => s.waiting.tasks[i] = low16(x),
        b"waiting" => s.waiting.len = x as usize,
        b"slots" => s.slots[at % 16] = low16(x),
        b"now" => s.now = Instant(x),
        b"going" => s.going = x == 1,
        b"end" => s.end = x,
        _ => {}
    }
    s
}
