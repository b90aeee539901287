// A record's 48 bytes, written into lent room.
#![tactic(auto)]

ghost use Rattle.std.specs.Prelude.{◌≡◌, ◌++◌, ◌+◌, ◌≤◌, length, take, drop};
ghost use Rattle.ground.specs.Bytes.{le};
ghost use Rattle.rules.specs.Record.{slot_bytes, record_bytes};

use ground::Instant;

// From and to.
fn put_head(room: &mut [u8], from: u64, to: u64)
    requires fits { 16 ≤ length room.old }
    ensures is { room.new ≡ le 8 from ++ le 8 to ++ drop 16 room.old }
{
    ground::put(room, 0, from, 8);
    ground::put(room, 8, to, 8);
}

// The sixteen slots, by value: the room cannot lie over them, so they are stored at once.
fn put_slots(room: &mut [u8], slots: [u16; 16])
    requires fits { 48 ≤ length room.old }
    ensures is { room.new ≡ take 16 room.old ++ slot_bytes slots ++ drop 48 room.old }
{
    for k in 0..16 {
        ground::put(room, 16 + 2 * k, u64::from(slots[k]), 2);
    }
}

// A record; the bytes of the room after the 48th are unchanged.
pub fn write(room: &mut [u8], from: Instant, to: Instant, slots: &[u16; 16])
    requires fits { 48 ≤ length room.old }
    ensures is { room.new ≡ record_bytes (record { from = from.0; to = to.0; slots = slots.now }) ++ drop 48 room.old }
{
    put_head(room, from.0, to.0);
    put_slots(room, *slots);
}
