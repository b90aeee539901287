// Arrive, step and run on a state in lent places: checked and worked on where it stands. None of them asks anything of its arguments.
#![tactic(auto)]

ghost use Rattle.std.specs.Prelude.{◌≡◌, true, length};
ghost use Rattle.rules.specs.Answers.{is_done};
ghost use Rattle.state.specs.Lent.{state_in, SamePlaces};
ghost use Rattle.refusals.specs.Arrive.{arrive_answer_of};
ghost use Rattle.refusals.specs.Step.{step_answer_of, Ahead};
ghost use Rattle.inplace.specs.Arrive.{arrive_state_of};
ghost use Rattle.inplace.specs.Step.{step_state_of, step_room};
ghost use Rattle.inplace.specs.Run.{run_state_of, run_records_of, run_room};

use ground::Instant;
use rules::Refusal;
use state::InPlace;

// What a run answers; that many records are in the room.
#[derive(Clone, Copy)]
pub struct Advanced {
    pub answer: Result<(), Refusal>,
    pub records: usize,
}

// A task arrives at the present instant.
pub fn arrive(
    s: &mut InPlace,
    arrived: &mut [bool; 128],
    last: &mut [u64; 128],
    task: u64,
) -> Result<(), Refusal>
    ensures same { SamePlaces s.old s.new }
    ensures is { let k = state_in s.old arrived.old last.old in
        (result ≡ arrive_answer_of k task) × (state_in s.new arrived.new last.new ≡ arrive_state_of k task) }
{
    refusals::may_arrive(s, arrived, last, task)?;
    moves::arrive_in(s, arrived, last, (task - 1) as usize);
    Ok(())
}

// Runs to the next event or the horizon, whichever is first, and writes one record.
#[tactic(auto, unfolding(crate::specs::Step::step_room))]
pub fn step(
    s: &mut InPlace,
    arrived: &[bool; 128],
    last: &[u64; 128],
    horizon: u64,
    room: &mut [u8],
) -> Result<(), Refusal>
    ensures same { SamePlaces s.old s.new }
    ensures is { let k = state_in s.old arrived.now last.now in
        (result ≡ step_answer_of k horizon (length room.old))
        × (state_in s.new arrived.now last.now ≡ step_state_of k horizon (length room.old))
        × (room.new ≡ step_room k horizon room.old) }
{
    refusals::may_step(s, arrived, last, horizon, room.len())?;
    moves::step_in(s, last, horizon, room);
    Ok(())
}

// Step after step till the horizon, or till less than 48 bytes of the room are left.
#[tactic(auto, unfolding(crate::specs::Run::run_room))]
pub fn run(
    s: &mut InPlace,
    arrived: &[bool; 128],
    last: &[u64; 128],
    horizon: u64,
    room: &mut [u8],
) -> Advanced
    ensures same { SamePlaces s.old s.new }
    ensures is { let k = state_in s.old arrived.now last.now in
        (result.answer ≡ step_answer_of k horizon (length room.old))
        × (state_in s.new arrived.now last.now ≡ run_state_of k horizon (length room.old))
        × (result.records ≡ run_records_of k horizon (length room.old))
        × (room.new ≡ run_room k horizon room.old) }
    ensures ahead { is_done result.answer ≡ true → Ahead (state_in s.old arrived.now last.now) horizon (length room.old) }
{
    if let Err(refusal) = refusals::may_step(s, arrived, last, horizon, room.len()) {
        return Advanced {
            answer: Err(refusal),
            records: 0,
        };
    }
    let stop = Instant(horizon * s.table.scale);
    let most = room.len() / rules::RECORD_SIZE;
    for records in 0..most {
        if stop.0 <= s.now.0 {
            return Advanced {
                answer: Ok(()),
                records,
            };
        }
        let start = records * rules::RECORD_SIZE;
        moves::step_in(s, last, horizon, &mut room[start..]);
    }
    Advanced {
        answer: Ok(()),
        records: most,
    }
}
