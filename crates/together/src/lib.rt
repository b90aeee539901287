// Does a state that is handed in hold together? Any state: every field may have any value of its type.
#![tactic(auto)]

ghost use Rattle.std.specs.Prelude.{◌≡◌};
ghost use Rattle.state.specs.Lent.{state_seen};
ghost use Rattle.together.specs.Holds.{holds_of};

use state::InPlaceRef;
use together_queues::{closed_ok, open_ok};
use together_rows::{order_ok, table_ok};

// Does a state hold together? Bounds first, products later.
pub fn holds(s: InPlaceRef, arrived: &[bool; 128], last: &[u64; 128]) -> bool
    ensures is { result ≡ holds_of (state_seen s.entry arrived.now last.now) }
{
    let Some(shares) = table_ok(s.table, s.now, s.going, s.end, s.awake, arrived, last) else {
        return false;
    };
    if !order_ok(s.table) {
        return false;
    }
    if s.going {
        open_ok(shares, s.table, s.now, s.end, s.awake, s.crew)
    } else {
        closed_ok(s.table, s.now, s.crew)
    }
}
