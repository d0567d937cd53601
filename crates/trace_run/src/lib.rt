// A line of the trace program, obeyed: read, done, and answered by an output line.

#![tactic(auto)]

ghost use Rattle.std.specs.Prelude.{ℕ, ◌≡◌, [], Some};
ghost use Rattle.rules.specs.RefusalNumber.{unreadable_line};
ghost use Rattle.rules.specs.Signals.{row_of};
ghost use Rattle.rules.specs.Sound.{sound_of};
ghost use Rattle.rules.specs.Trace.{obeyed, restarting, traced_of};
ghost use Rattle.rows.specs.Memory.{table_in};
ghost use Rattle.trace_run.specs.Promises.{Holds, Answers, Obeys, ObeysIn};

use rules::{Command, Event, Signals, Table, refusal_number};
use trace_line::OUTPUT;

// The table after the line, and the size of the output line, with its newline.
#[derive(Clone, Copy)]
pub struct Obeyed {
    pub table: Table,
    pub size: usize,
}

// The same of a table whose transactions and enlistments are in lent memory, and whether it is sound.
#[derive(Clone, Copy)]
pub struct Left {
    pub capacity: u32,
    pub used: u32,
    pub sound: bool,
    pub size: usize,
}

// A table is put into lent memory, all but its capacity and its used length.
pub fn put_table(table: Table, heads: &mut [[u8; 17]; 32], rows: &mut [[u8; 24]; 128])
    ensures { Holds heads.new rows.new table }
{
    lent_tables::heads_of(table.transactions, heads);
    lent_tables::rows_of(table.enlistments, rows);
}

fn answered(
    capacity: u32,
    used: u32,
    sound: bool,
    why: u8,
    signals: Signals,
    buffer: &mut [u8; OUTPUT],
) -> Left
    ensures { Answers capacity used sound why signals buffer.old result buffer.new }
{
    let size = trace_line::write_line(why, used, signals, buffer);
    Left {
        capacity,
        used,
        sound,
        size,
    }
}

fn obey_unreadable(capacity: u32, used: u32, sound: bool, buffer: &mut [u8; OUTPUT]) -> Left
    ensures { Answers capacity used sound unreadable_line (row_of []) buffer.old result buffer.new }
{
    let none = signals::to_none();
    answered(
        capacity,
        used,
        sound,
        refusal_number::UNREADABLE_LINE,
        none,
        buffer,
    )
}

// The one line after which the test is made anew; it is rare.
fn obey_restart(
    heads: &mut [[u8; 17]; 32],
    rows: &mut [[u8; 24]; 128],
    used: u32,
    log: &mut [u8],
    buffer: &mut [u8; OUTPUT],
) -> Left
    ensures { ((capacity : ℕ) → ObeysIn (obeyed restarting (table_in heads.old rows.old capacity used) log.old) buffer.old result heads.new rows.new log.new buffer.new) × (result.sound ≡ sound_of (table_in heads.new rows.new result.capacity result.used)) }
{
    let r = restart::restart(log, used as usize);
    let table = r.table;
    let sound = step::is_sound(table);
    put_table(table, heads, rows);
    let none = signals::to_none();
    answered(table.capacity, table.used, sound, r.refusal, none, buffer)
}

fn obey_step(
    event: Event,
    heads: &mut [[u8; 17]; 32],
    rows: &mut [[u8; 24]; 128],
    capacity: u32,
    used: u32,
    sound: bool,
    log: &mut [u8],
    buffer: &mut [u8; OUTPUT],
) -> Left
    requires { sound ≡ sound_of (table_in heads.old rows.old capacity used) }
    ensures { ObeysIn (obeyed (Some (Command.Step event)) (table_in heads.old rows.old capacity used) log.old) buffer.old result heads.new rows.new log.new buffer.new × (result.sound ≡ sound) }
{
    match step::step_in(heads, rows, capacity, used, sound, event, log) {
        Ok(a) => answered(
            capacity,
            a.used,
            sound,
            refusal_number::ACCEPTED,
            a.signals,
            buffer,
        ),
        Err(refusal) => {
            let none = signals::to_none();
            answered(capacity, used, sound, u8::from(refusal), none, buffer)
        }
    }
}

// For a caller that knows whether its table is sound, and is told it of the next.
pub fn obey_in(
    line: &[u8],
    heads: &mut [[u8; 17]; 32],
    rows: &mut [[u8; 24]; 128],
    capacity: u32,
    used: u32,
    sound: bool,
    log: &mut [u8],
    buffer: &mut [u8; OUTPUT],
) -> Left
    requires { sound ≡ sound_of (table_in heads.old rows.old capacity used) }
    ensures { ObeysIn (traced_of line.now (table_in heads.old rows.old capacity used) log.old) buffer.old result heads.new rows.new log.new buffer.new × (result.sound ≡ sound_of (table_in heads.new rows.new result.capacity result.used)) }
{
    match trace_line::read_line(line) {
        None => obey_unreadable(capacity, used, sound, buffer),
        Some(Command::Restart) => obey_restart(heads, rows, used, log, buffer),
        Some(Command::Step(event)) => {
            obey_step(event, heads, rows, capacity, used, sound, log, buffer)
        }
    }
}

pub fn obey(line: &[u8], table: Table, log: &mut [u8], buffer: &mut [u8; OUTPUT]) -> Obeyed
    ensures { Obeys (traced_of line.now table log.old) buffer.old result log.new buffer.new }
{
    let mut heads = [[0u8; 17]; 32];
    let mut rows = [[0u8; 24]; 128];
    put_table(table, &mut heads, &mut rows);
    let sound = step::is_sound(table);
    let left = obey_in(
        line,
        &mut heads,
        &mut rows,
        table.capacity,
        table.used,
        sound,
        log,
        buffer,
    );
    Obeyed {
        table: lent_tables::table_in(&heads, &rows, left.capacity, left.used),
        size: left.size,
    }
}
