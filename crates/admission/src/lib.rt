// Admission: table bytes and m give a state at instant 0, in lent places or by value. Neither call asks anything of its arguments.
#![tactic(auto)]

ghost use Rattle.std.specs.Prelude.{◌≡◌, false, ◌*◌, ◌≤◌, length, replicate, Err, MatchResult, OnOk};
ghost use Rattle.rules.specs.Table.{rows_of};
ghost use Rattle.rules.specs.Admission.{rows_verdict, size_verdict, admit_verdict};
ghost use Rattle.table.specs.Rows.{rows_on, verdict_in, Faultless};
ghost use Rattle.table.specs.Tabled.{table_from, tabled_of};
ghost use Rattle.table.specs.Lent.{table_on, SameSheet};
ghost use Rattle.state.specs.Lent.{SameCrew};
ghost use Rattle.admission.specs.Tables.{tabled_in, Weighed};
ghost use Rattle.admission.specs.Admit.{admit_of};
ghost use Rattle.admission.specs.Lent.{admitted_in};

use ground::Instant;
use queue::{Lane, Queue};
use rules::Refusal;
use state::{Crew, Jobs, State};
use table::{Fault, Rows, Sheet, Table};

// What admission answers: the answer, the row that it names or 0, the state.
#[derive(Clone, Copy)]
pub struct Admitted {
    pub answer: Result<(), Refusal>,
    pub row: usize,
    pub state: State,
}

// THE TABLE

// Rows without fault: 5, 6, or the scale, with the shares filled in.
fn weigh(rows: Rows, m: usize, share: &mut [u64; 128]) -> Result<u64, Fault>
    requires inside { (m ≤ 16) × (rows.count ≤ 128) × Faultless (rows_on rows) }
    ensures is { let given = rows_on rows.entry in
        MatchResult result (λ scale. Weighed m given scale share.new) (λ fault. verdict_in (Err fault) ≡ size_verdict m given) }
{
    let Some(scale) = rows.scale() else {
        return Err(Fault::from(Refusal::Scale));
    };
    rows.shares(scale, share);
    if (m as u64) * scale < table::share_sum(share, rows.count) {
        return Err(Fault::from(Refusal::Shares));
    }
    Ok(scale)
}

// Whole rows: 3 and 4, then 5, 6, or the table.
fn read(bytes: &[u8], count: usize, m: usize, sheet: &mut Sheet) -> Result<(), Fault>
    requires inside { (m ≤ 16) × (count ≤ 128) × (length bytes.now ≡ 12 * count) }
    ensures same { SameSheet sheet.old sheet.new }
    ensures is { verdict_in result ≡ rows_verdict m (rows_of bytes.now) }
    ensures made { OnOk result (table_on sheet.new ≡ table_from m (rows_of bytes.now)) }
{
    table::column(bytes, 0, sheet.period, count);
    table::column(bytes, 4, sheet.exec, count);
    table::column(bytes, 8, sheet.deadline, count);
    let rows = Rows {
        period: sheet.period,
        exec: sheet.exec,
        deadline: sheet.deadline,
        count,
    };
    rows.first_fault()?;
    let scale = weigh(rows, m, sheet.share)?;
    table::fall(sheet.share, sheet.order, count);
    sheet.count = count;
    sheet.m = m;
    sheet.scale = scale;
    Ok(())
}

// The table, or the refusal with some of the columns filled.
fn fill(bytes: &[u8], m: usize, sheet: &mut Sheet) -> Result<(), Fault>
    ensures same { SameSheet sheet.old sheet.new }
    ensures is { verdict_in result ≡ admit_verdict bytes.now m }
    ensures made { OnOk result (table_on sheet.new ≡ table_from m (rows_of bytes.now)) }
{
    if !table::processors_ok(m) {
        return Err(Fault::from(Refusal::Processors));
    }
    if !table::length_ok(bytes.len()) {
        return Err(Fault::from(Refusal::TableLength));
    }
    read(bytes, bytes.len() / rules::ROW_SIZE, m, sheet)
}

// Admission onto a sheet, whatever it holds: table bytes and m give the table, or the refusal and zeros.
fn admit_table(bytes: &[u8], m: usize, sheet: &mut Sheet) -> Result<(), Fault>
    ensures same { SameSheet sheet.old sheet.new }
    ensures is { tabled_in result sheet.new ≡ tabled_of bytes.now m }
{
    if let Err(fault) = fill(bytes, m, sheet) {
        sheet.clear();
        return Err(fault);
    }
    Ok(())
}

// THE STATE

// No task is awake and none ever arrived.
fn clear_jobs(awake: &mut [bool; 128], arrived: &mut [bool; 128], last: &mut [u64; 128])
    ensures is { (awake.new ≡ replicate 128 false) × (arrived.new ≡ replicate 128 false) × (last.new ≡ replicate 128 0) }
{
    *awake = [false; 128];
    *arrived = [false; 128];
    *last = [0; 128];
}

// In place, whatever lies there: the state at instant 0, no task awake, no plane open; a refusal gives the blank state, every place 0.
pub fn admit_lent(
    bytes: &[u8],
    m: usize,
    sheet: &mut Sheet,
    awake: &mut [bool; 128],
    arrived: &mut [bool; 128],
    last: &mut [u64; 128],
    crew: &mut Crew,
) -> Result<(), Fault>
    ensures same { SameSheet sheet.old sheet.new × SameCrew crew.old crew.new }
    ensures is { admitted_in result sheet.new awake.new arrived.new last.new crew.new ≡ admit_of bytes.now m }
{
    clear_jobs(awake, arrived, last);
    crew.running.clear();
    crew.waiting.clear();
    plane::clear_slots(crew.slots);
    admit_table(bytes, m, sheet)
}

// The answer, and the row that it names, or 0.
fn answer_and_row(found: Result<(), Fault>) -> (Result<(), Refusal>, usize)
    ensures is { (result.0 ≡ (verdict_in found).answer) × (result.1 ≡ (verdict_in found).row) }
{
    match found {
        Ok(()) => (Ok(()), 0),
        Err(fault) => (Err(fault.refusal), fault.row),
    }
}

// By value.
pub fn admit(bytes: &[u8], m: usize) -> Admitted
    ensures is { result ≡ admit_of bytes.now m }
{
    let mut period = [0u32; 128];
    let mut exec = [0u32; 128];
    let mut deadline = [0u32; 128];
    let mut share = [0u64; 128];
    let mut order = [0u16; 128];
    let mut awake = [false; 128];
    let mut arrived = [false; 128];
    let mut last = [0u64; 128];
    let mut rk = [0u64; 128];
    let mut rt = [0u16; 128];
    let mut wk = [0u64; 128];
    let mut wt = [0u16; 128];
    let mut slots = [0u16; 16];
    let mut sheet = Sheet {
        period: &mut period,
        exec: &mut exec,
        deadline: &mut deadline,
        share: &mut share,
        order: &mut order,
        count: 0,
        m: 0,
        scale: 0,
    };
    let mut crew = Crew {
        running: Lane {
            keys: &mut rk,
            tasks: &mut rt,
            len: 0,
        },
        waiting: Lane {
            keys: &mut wk,
            tasks: &mut wt,
            len: 0,
        },
        slots: &mut slots,
    };
    let found = admit_lent(
        bytes,
        m,
        &mut sheet,
        &mut awake,
        &mut arrived,
        &mut last,
        &mut crew,
    );
    let count = sheet.count;
    let processors = sheet.m;
    let scale = sheet.scale;
    let running = crew.running.len;
    let waiting = crew.waiting.len;
    let table = Table {
        period,
        exec,
        deadline,
        share,
        order,
        count,
        m: processors,
        scale,
    };
    let state = State {
        table,
        now: Instant(0),
        going: false,
        end: 0,
        jobs: Jobs {
            awake,
            arrived,
            last,
        },
        running: Queue {
            keys: rk,
            tasks: rt,
            len: running,
        },
        waiting: Queue {
            keys: wk,
            tasks: wt,
            len: waiting,
        },
        slots,
    };
    let (answer, row) = answer_and_row(found);
    Admitted { answer, row, state }
}
