// The calls under C names, on the parts of a struct that the caller owns and lends: worked on where it stands, nothing is kept.
// None asks anything of its arguments.
#![tactic(auto)]

ghost use Rattle.std.specs.Prelude.{◌≡◌, ◌&&◌, map, leb};
ghost use Rattle.admission.specs.Admit.{admit_of};
ghost use Rattle.flags.specs.Flags.{flag, flags_ok};
ghost use Rattle.robinrow_c.specs.Lent.{struct_in};
ghost use Rattle.robinrow_c.specs.Exports.{admit_number, admit_struct, arrive_number, arrive_struct};
ghost use Rattle.robinrow_c.specs.Exports.{step_number, step_struct, step_record, run_number, run_count, run_struct, run_records};

use ground::Instant;
use queue::Lane;
use rules::Refusal;
use state::{Crew, InPlace};
use table::{Columns, Rows, Sheet};

// The flags of a struct's columns; and is each of its flags 0 or 1?
fn read_flags(
    going: u8,
    awake: &[u8; 128],
    arrived: &[u8; 128],
    is_awake: &mut [bool; 128],
    has_come: &mut [bool; 128],
) -> bool
    ensures is { (result ≡ (leb going 1 && (flags_ok awake.now && flags_ok arrived.now)))
        × (is_awake.new ≡ map flag awake.now) × (has_come.new ≡ map flag arrived.now) }
{
    let awake_ok = flags::read(awake, is_awake);
    let arrived_ok = flags::read(arrived, has_come);
    going <= 1 && awake_ok && arrived_ok
}

// Admission: the number, and the row that it names or 0; every field is written, each 0 where the table is refused.
#[unsafe(no_mangle)]
pub extern "C" fn robinrow_admit_in<'a>(
    bytes: &[u8],
    processors: usize,
    row: &mut usize,
    count: &mut usize,
    m: &mut usize,
    scale: &mut u64,
    present: &mut u64,
    going: &mut u8,
    end: &mut u64,
    running: &mut usize,
    waiting: &mut usize,
    period: &'a mut [u32; 128],
    exec: &'a mut [u32; 128],
    deadline: &'a mut [u32; 128],
    share: &'a mut [u64; 128],
    order: &'a mut [u16; 128],
    awake: &mut [u8; 128],
    arrived: &mut [u8; 128],
    last: &mut [u64; 128],
    rk: &'a mut [u64; 128],
    rt: &'a mut [u16; 128],
    wk: &'a mut [u64; 128],
    wt: &'a mut [u16; 128],
    slots: &'a mut [u16; 16],
) -> u32
    ensures is { (result ≡ admit_number bytes.now processors) × (row.new ≡ (admit_of bytes.now processors).row)
        × (struct_in count.new m.new scale.new present.new going.new end.new running.new waiting.new
        period.new exec.new deadline.new share.new order.new awake.new arrived.new last.new rk.new rt.new wk.new wt.new slots.new
        ≡ admit_struct bytes.now processors) }
{
    let mut is_awake = [false; 128];
    let mut has_come = [false; 128];
    let mut sheet = Sheet {
        period,
        exec,
        deadline,
        share,
        order,
        count: 0,
        m: 0,
        scale: 0,
    };
    let mut crew = Crew {
        running: Lane {
            keys: rk,
            tasks: rt,
            len: 0,
        },
        waiting: Lane {
            keys: wk,
            tasks: wt,
            len: 0,
        },
        slots,
    };
    let answer = admission::admit_lent(
        bytes,
        processors,
        &mut sheet,
        &mut is_awake,
        &mut has_come,
        last,
        &mut crew,
    );
    *count = sheet.count;
    *m = sheet.m;
    *scale = sheet.scale;
    *present = 0;
    *going = 0;
    *end = 0;
    *running = crew.running.len;
    *waiting = crew.waiting.len;
    flags::write(&is_awake, awake);
    flags::write(&has_come, arrived);
    match answer {
        Ok(()) => {
            *row = 0;
            rules::number(Ok(()))
        }
        Err(fault) => {
            *row = fault.row;
            rules::number(Err(fault.refusal))
        }
    }
}

// A task arrives at the present instant: the number. The struct changes only on 0.
#[tactic(auto, unfolding(crate::specs::Exports::arrive_number, crate::specs::Exports::arrive_struct))]
#[unsafe(no_mangle)]
pub extern "C" fn robinrow_arrive_in<'a>(
    count: usize,
    m: usize,
    scale: u64,
    present: u64,
    going: u8,
    end: u64,
    running: &mut usize,
    waiting: &mut usize,
    task: u64,
    period: &'a [u32; 128],
    exec: &'a [u32; 128],
    deadline: &'a [u32; 128],
    share: &'a [u64; 128],
    order: &'a [u16; 128],
    awake: &mut [u8; 128],
    arrived: &mut [u8; 128],
    last: &mut [u64; 128],
    rk: &'a mut [u64; 128],
    rt: &'a mut [u16; 128],
    wk: &'a mut [u64; 128],
    wt: &'a mut [u16; 128],
    slots: &'a mut [u16; 16],
) -> u32
    ensures is { let c = struct_in count m scale present going end running.old waiting.old
        period.now exec.now deadline.now share.now order.now awake.old arrived.old last.old rk.old rt.old wk.old wt.old slots.old in
        (result ≡ arrive_number c task)
        × (struct_in count m scale present going end running.new waiting.new
        period.now exec.now deadline.now share.now order.now awake.new arrived.new last.new rk.new rt.new wk.new wt.new slots.new
        ≡ arrive_struct c task) }
{
    let mut is_awake = [false; 128];
    let mut has_come = [false; 128];
    if !read_flags(going, awake, arrived, &mut is_awake, &mut has_come) {
        return rules::number(Err(Refusal::NotTogether));
    }
    let mut lent = InPlace {
        table: Columns {
            rows: Rows {
                period,
                exec,
                deadline,
                count,
            },
            share,
            order,
            m,
            scale,
        },
        now: Instant(present),
        going: going == 1,
        end,
        awake: &mut is_awake,
        crew: Crew {
            running: Lane {
                keys: rk,
                tasks: rt,
                len: *running,
            },
            waiting: Lane {
                keys: wk,
                tasks: wt,
                len: *waiting,
            },
            slots,
        },
    };
    let answer = inplace::arrive(&mut lent, &mut has_come, last, task);
    *running = lent.crew.running.len;
    *waiting = lent.crew.waiting.len;
    flags::write(&is_awake, awake);
    flags::write(&has_come, arrived);
    rules::number(answer)
}

// Runs to the next event or the horizon, and writes one record: the number. Struct and room change only on 0.
#[tactic(auto, unfolding(crate::specs::Exports::step_number, crate::specs::Exports::step_struct, crate::specs::Exports::step_record))]
#[unsafe(no_mangle)]
pub extern "C" fn robinrow_step_in<'a>(
    count: usize,
    m: usize,
    scale: u64,
    present: &mut u64,
    going: &mut u8,
    end: &mut u64,
    running: &mut usize,
    waiting: &mut usize,
    horizon: u64,
    period: &'a [u32; 128],
    exec: &'a [u32; 128],
    deadline: &'a [u32; 128],
    share: &'a [u64; 128],
    order: &'a [u16; 128],
    awake: &mut [u8; 128],
    arrived: &[u8; 128],
    last: &[u64; 128],
    rk: &'a mut [u64; 128],
    rt: &'a mut [u16; 128],
    wk: &'a mut [u64; 128],
    wt: &'a mut [u16; 128],
    slots: &'a mut [u16; 16],
    room: &mut [u8],
) -> u32
    ensures is { let c = struct_in count m scale present.old going.old end.old running.old waiting.old
        period.now exec.now deadline.now share.now order.now awake.old arrived.now last.now rk.old rt.old wk.old wt.old slots.old in
        (result ≡ step_number c horizon room.old)
        × (struct_in count m scale present.new going.new end.new running.new waiting.new
        period.now exec.now deadline.now share.now order.now awake.new arrived.now last.now rk.new rt.new wk.new wt.new slots.new
        ≡ step_struct c horizon room.old)
        × (room.new ≡ step_record c horizon room.old) }
{
    let mut is_awake = [false; 128];
    let mut has_come = [false; 128];
    if !read_flags(*going, awake, arrived, &mut is_awake, &mut has_come) {
        return rules::number(Err(Refusal::NotTogether));
    }
    let mut lent = InPlace {
        table: Columns {
            rows: Rows {
                period,
                exec,
                deadline,
                count,
            },
            share,
            order,
            m,
            scale,
        },
        now: Instant(*present),
        going: *going == 1,
        end: *end,
        awake: &mut is_awake,
        crew: Crew {
            running: Lane {
                keys: rk,
                tasks: rt,
                len: *running,
            },
            waiting: Lane {
                keys: wk,
                tasks: wt,
                len: *waiting,
            },
            slots,
        },
    };
    let answer = inplace::step(&mut lent, &has_come, last, horizon, room);
    *present = lent.now.0;
    *going = flags::byte(lent.going);
    *end = lent.end;
    *running = lent.crew.running.len;
    *waiting = lent.crew.waiting.len;
    flags::write(&is_awake, awake);
    rules::number(answer)
}

// Step after step till the horizon or the end of the room: the number, and how many records. Struct and room change only on 0.
#[tactic(auto, unfolding(crate::specs::Exports::run_number, crate::specs::Exports::run_count, crate::specs::Exports::run_struct, crate::specs::Exports::run_records))]
#[unsafe(no_mangle)]
pub extern "C" fn robinrow_run_in<'a>(
    count: usize,
    m: usize,
    scale: u64,
    present: &mut u64,
    going: &mut u8,
    end: &mut u64,
    running: &mut usize,
    waiting: &mut usize,
    horizon: u64,
    period: &'a [u32; 128],
    exec: &'a [u32; 128],
    deadline: &'a [u32; 128],
    share: &'a [u64; 128],
    order: &'a [u16; 128],
    awake: &mut [u8; 128],
    arrived: &[u8; 128],
    last: &[u64; 128],
    rk: &'a mut [u64; 128],
    rt: &'a mut [u16; 128],
    wk: &'a mut [u64; 128],
    wt: &'a mut [u16; 128],
    slots: &'a mut [u16; 16],
    room: &mut [u8],
    records: &mut usize,
) -> u32
    ensures is { let c = struct_in count m scale present.old going.old end.old running.old waiting.old
        period.now exec.now deadline.now share.now order.now awake.old arrived.now last.now rk.old rt.old wk.old wt.old slots.old in
        (result ≡ run_number c horizon room.old)
        × (struct_in count m scale present.new going.new end.new running.new waiting.new
        period.now exec.now deadline.now share.now order.now awake.new arrived.now last.now rk.new rt.new wk.new wt.new slots.new
        ≡ run_struct c horizon room.old)
        × (records.new ≡ run_count c horizon room.old)
        × (room.new ≡ run_records c horizon room.old) }
{
    let mut is_awake = [false; 128];
    let mut has_come = [false; 128];
    if !read_flags(*going, awake, arrived, &mut is_awake, &mut has_come) {
        *records = 0;
        return rules::number(Err(Refusal::NotTogether));
    }
    let mut lent = InPlace {
        table: Columns {
            rows: Rows {
                period,
                exec,
                deadline,
                count,
            },
            share,
            order,
            m,
            scale,
        },
        now: Instant(*present),
        going: *going == 1,
        end: *end,
        awake: &mut is_awake,
        crew: Crew {
            running: Lane {
                keys: rk,
                tasks: rt,
                len: *running,
            },
            waiting: Lane {
                keys: wk,
                tasks: wt,
                len: *waiting,
            },
            slots,
        },
    };
    let r = inplace::run(&mut lent, &has_come, last, horizon, room);
    *present = lent.now.0;
    *going = flags::byte(lent.going);
    *end = lent.end;
    *running = lent.crew.running.len;
    *waiting = lent.crew.waiting.len;
    *records = r.records;
    flags::write(&is_awake, awake);
    rules::number(r.answer)
}
