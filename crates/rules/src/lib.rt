// The answers of the calls and of the program, with the numbers of document 01.
#![tactic(auto)]

ghost use Rattle.std.specs.Prelude.{◌≡◌};
ghost use Rattle.rules.specs.Answers.{number_of, refusal_number};

// THE BOUNDS, as `Bounds` has them: where one is used, the proof needs that the two are equal.
pub const MOST_PROCESSORS: usize = 16;

pub const MOST_TASKS: usize = 128;

pub const MOST_TICKS: u32 = 1048576;

pub const MOST_SCALE: u64 = 134217728;

pub const CLOCK: u64 = 4294967295;

pub const ROW_SIZE: usize = 12;

pub const MOST_BYTES: usize = MOST_TASKS * ROW_SIZE;

pub const RECORD_SIZE: usize = 48;

// Why a call or the program refuses; the number is the one of document 01.
#[derive(Clone, Copy, Debug, PartialEq, Eq)]
pub enum Refusal {
    Processors = 1,
    TableLength = 2,
    RowRange = 3,
    RowExecution = 4,
    Scale = 5,
    Shares = 6,
    TaskNumber = 7,
    BetweenTicks = 8,
    TooSoon = 9,
    HorizonPastClock = 10,
    HorizonNotLater = 11,
    RoomTooShort = 12,
    NotTogether = 13,
    TextForm = 14,
}

impl From<Refusal> for u32 {
    ghost from_gives = { λ refusal n. n ≡ refusal_number refusal };

    fn from(refusal: Refusal) -> u32 {
        refusal as u32
    }
}

// The number of an answer: 0, or that of its refusal.
pub fn number(answer: Result<(), Refusal>) -> u32
    ensures is { result ≡ number_of answer }
{
    match answer {
        Ok(()) => 0,
        Err(refusal) => u32::from(refusal),
    }
}
