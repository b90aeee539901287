// The queue's two operations under C names, for bench/queue to time.
#![tactic(auto)]

ghost use Rattle.std.specs.Prelude.{◌≡◌, ◌≤◌, ◌<◌};
ghost use Rattle.queue.specs.Queues.{push_of, pop_of};
ghost use Rattle.queue.specs.Lent.{at};

use ground::Instant;
use queue::Lane;

#[unsafe(no_mangle)]
pub extern "C" fn rattle_push<'a>(
    keys: &'a mut [u64; 128],
    tasks: &'a mut [u16; 128],
    n: usize,
    key: u64,
    task: u16,
) -> usize
    requires room { n < 128 }
    ensures is { at keys.new tasks.new result ≡ push_of (at keys.old tasks.old n) key task }
{
    let mut lane = Lane {
        keys,
        tasks,
        len: n,
    };
    lane.push(Instant(key), task);
    lane.len
}

#[unsafe(no_mangle)]
pub extern "C" fn rattle_pop<'a>(
    keys: &'a mut [u64; 128],
    tasks: &'a mut [u16; 128],
    n: usize,
) -> usize
    requires held { (0 < n) × (n ≤ 128) }
    ensures is { at keys.new tasks.new result ≡ pop_of (at keys.old tasks.old n) }
{
    let mut lane = Lane {
        keys,
        tasks,
        len: n,
    };
    lane.pop();
    lane.len
}
