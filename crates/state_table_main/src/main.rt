// Rows of the state table: each line of standard input is a table, the length of the lent log and an event; the step is taken, and all that came of it
// is written as a line.

#![tactic(auto)]

ghost use Rattle.std.specs.Prelude.{◌≡◌};
ghost use Rattle.rules.specs.Step.{stepped_of};

mod reader;
mod writer;

use reader::Row;
use rules::{Command, Event, Refusal, Signals, Stepped, Table, refusal_number};

const STDIN_FILENO: i32 = 0;

const STDOUT_FILENO: i32 = 1;

// No record of these rows holds this byte, so that each byte written is seen.
const UNWRITTEN: u8 = 0xEE;

// What came of a step, by the numbers of refusals.
#[derive(Clone, Copy)]
struct Answer {
    table: Table,
    signals: Signals,
    refusal: u8,
}

// A refused one leaves the table that it was given, and sends no signal.
fn told(table: Table, answer: Result<Stepped, Refusal>) -> Answer
    ensures { let a = stepped_of table answer in (result.table ≡ a.table) × (result.signals ≡ a.signals) × (result.refusal ≡ a.refusal) }
{
    match answer {
        Ok(s) => Answer {
            table: s.table,
            signals: s.signals,
            refusal: refusal_number::ACCEPTED,
        },
        Err(refusal) => Answer {
            table,
            signals: signals::to_none(),
            refusal: u8::from(refusal),
        },
    }
}

// All that came of a step: the line that the trace program writes, the table, and the bytes of the log that changed.
fn stepped(row: Row, event: Event, log: &mut [u8], out: &mut [u8]) -> usize {
    let lent = row.lent;
    let table = row.table;
    if log.len() < lent {
        return 0;
    }
    let answer = step::step(table, event, &mut log[..lent]);
    let s = told(table, answer);
    let first = writer::outcome(out, s.refusal, s.table.used, s.signals);
    let second = writer::put_table(out, first, s.table);
    let third = writer::changed(out, second, log, UNWRITTEN);
    writer::put(out, third, b'\n')
}

fn run(row: Row, event: Event) {
    let mut log = [UNWRITTEN; 4096];
    let mut out = [0u8; 8192];
    let end = stepped(row, event, &mut log, &mut out);
    writer::show(&out, end);
}

fn unreadable() {
    io::write_all(STDOUT_FILENO, b"unreadable\n");
}

fn show(line: &[u8]) {
    let row = reader::read_row(line);
    let from = row.event;
    if line.len() < from {
        return unreadable();
    }
    let Some(Command::Step(event)) = trace_line::read_line(&line[from..]) else {
        return unreadable();
    };
    run(row, event)
}

fn show_kept(line: &[u8], kept: usize) {
    if kept <= line.len() {
        show(&line[..kept]);
    }
}

// One byte more of the present line, of which so many are kept; gives how many are kept then.
fn keep(line: &mut [u8], kept: usize, b: u8) -> usize {
    if b == b'\n' {
        show_kept(line, kept);
        return 0;
    }
    writer::put(line, kept, b)
}

fn keep_all(line: &mut [u8], kept: usize, bytes: &[u8]) -> usize {
    let mut now = kept;
    for b in bytes {
        now = keep(line, now, *b);
    }
    now
}

// Gives how many bytes of the present line are kept, if the input goes on.
fn block(line: &mut [u8], kept: usize) -> Option<usize> {
    let mut space = io::buffer();
    match io::read_full(STDIN_FILENO, &mut space) {
        0 => None,
        n => Some(keep_all(line, kept, &space[..n])),
    }
}

fn blocks(line: &mut [u8]) {
    let mut kept: usize = 0;
    // Not a `loop`: each function is proved to end.
    for _ in 0..u64::MAX {
        let Some(after) = block(line, kept) else {
            return;
        };
        kept = after;
    }
}

fn main() {
    let mut line = io::buffer();
    blocks(&mut line);
}
