// What came of a step, put into a line piece by piece. Each function gives the place behind what it put; what the line has no room for is dropped.
use rules::sizes::IDENTIFIER;
use rules::{Enlistment, Signals, Table, Transaction, kinds, marks};
use trace_line::OUTPUT;

const STDOUT_FILENO: i32 = 1;

// The byte of an identifier that a row names.
const LAST: usize = IDENTIFIER - 1;

pub fn put(out: &mut [u8], at: usize, b: u8) -> usize {
    if at < out.len() {
        out[at] = b;
        at + 1
    } else {
        at
    }
}

fn text(out: &mut [u8], at: usize, words: &[u8]) -> usize {
    let mut end = at;
    for b in words {
        end = put(out, end, *b);
    }
    end
}

// A number behind a byte that parts it from what stands before.
fn number(out: &mut [u8], at: usize, before: u8, n: u32) -> usize {
    let mut digits = [0u8; 20];
    let k = io::decimal(n as u64, &mut digits);
    let start = put(out, at, before);
    text(out, start, &digits[..k])
}

// The line without its newline.
pub fn outcome(out: &mut [u8], refusal: u8, used: u32, signals: Signals) -> usize {
    let mut line = [0u8; OUTPUT];
    let n = trace_line::write_line(refusal, used, signals, &mut line);
    if n == 0 {
        return 0;
    }
    text(out, 0, &line[..n - 1])
}

// The sum of the bytes before the last, which are to be zero.
fn leading(id: [u8; IDENTIFIER]) -> u32 {
    id[..LAST]
        .iter()
        .fold(0, |sum: u32, b| sum.saturating_add(u32::from(*b)))
}

fn identifier(out: &mut [u8], at: usize, before: u8, id: [u8; IDENTIFIER]) -> usize {
    let end = number(out, at, before, u32::from(id[LAST]));
    match leading(id) {
        0 => end,
        others => number(out, end, b'!', others),
    }
}

fn transaction(out: &mut [u8], at: usize, x: Transaction) -> usize {
    let end = identifier(out, at, b' ', x.id.0);
    number(out, end, b'=', u32::from(x.state))
}

fn kind_letter(kind: u8) -> u8 {
    match kind {
        kinds::PHASE_ZERO => b'P',
        kinds::VOLATILE => b'V',
        kinds::DURABLE => b'D',
        _ => b'?',
    }
}

fn mark_letter(mark: u8) -> u8 {
    match mark {
        marks::YES => b'y',
        marks::NO => b'n',
        _ => b'?',
    }
}

fn enlistment(out: &mut [u8], at: usize, e: Enlistment) -> usize {
    let kind = put(out, at, b' ');
    let mark = put(out, kind, kind_letter(e.kind));
    let state = number(out, mark, mark_letter(e.mark), u32::from(e.state));
    let named = number(out, state, b':', e.number);
    let manager = identifier(out, named, b':', e.rm.0);
    number(out, manager, b':', u32::from(e.holder))
}

fn is_empty(e: Enlistment) -> bool {
    e == places::no_enlistment()
}

fn is_free(x: Transaction) -> bool {
    x == places::no_transaction()
}

// Empty places behind the last held one are not part of the line.
fn transactions(out: &mut [u8], at: usize, table: Table) -> usize {
    let mut held = at;
    let mut end = at;
    for x in table.transactions {
        end = transaction(out, end, x);
        if !is_free(x) {
            held = end;
        }
    }
    held
}

fn enlistments(out: &mut [u8], at: usize, table: Table) -> usize {
    let mut held = at;
    let mut end = at;
    for e in table.enlistments {
        if is_empty(e) {
            end = text(out, end, b" -");
        } else {
            end = enlistment(out, end, e);
            held = end;
        }
    }
    held
}

pub fn put_table(out: &mut [u8], at: usize, table: Table) -> usize {
    let start = text(out, at, b" |");
    let capacity = number(out, start, b' ', table.capacity);
    let used = number(out, capacity, b' ', table.used);
    let live = transactions(out, used, table);
    enlistments(out, live, table)
}

const DIGITS: [u8; 16] = *b"0123456789abcdef";

fn hex(out: &mut [u8], at: usize, bytes: &[u8]) -> usize {
    let mut end = at;
    for b in bytes {
        let high = put(out, end, DIGITS[(b / 16) as usize]);
        end = put(out, high, DIGITS[(b % 16) as usize]);
    }
    end
}

// The bytes of the log that are not b any more, from the first to the last.
pub fn changed(out: &mut [u8], at: usize, log: &[u8], b: u8) -> usize {
    let start = text(out, at, b" |");
    let Some(from) = log.iter().position(|c| *c != b) else {
        return text(out, start, b" same");
    };
    let end = log
        .iter()
        .rposition(|c| *c != b)
        .map_or(from, |last| last + 1);
    if 65536 < from {
        return start;
    }
    let place = number(out, start, b' ', from as u32);
    let colon = put(out, place, b':');
    hex(out, colon, &log[from..end])
}

pub fn show(out: &[u8], end: usize) {
    if end <= out.len() {
        io::write_all(STDOUT_FILENO, &out[..end]);
    }
}
