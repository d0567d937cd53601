// A row: capacity, used, the places, each as a word behind its space, then ` | `, the lent length, ` | ` and the event.
use rules::sizes::IDENTIFIER;
use rules::{Enlistment, RmId, Table, Transaction, TxId, kinds, marks, sizes};

// The byte of an identifier that a row names.
const LAST: usize = IDENTIFIER - 1;

// Of a table.
const PLACES: u8 = (sizes::TRANSACTIONS + sizes::ENLISTMENTS) as u8;

#[derive(Clone, Copy)]
pub struct Row {
    pub table: Table,
    pub lent: usize,
    // Where the event's words begin.
    pub event: usize,
}

// A number, and the place behind it.
#[derive(Clone, Copy)]
struct Number {
    value: u32,
    next: usize,
}

// So far: places of each sort that are read, and the place in the line.
#[derive(Clone, Copy)]
struct Reading {
    table: Table,
    transactions: u8,
    enlistments: u8,
    next: usize,
}

fn byte_at(line: &[u8], i: usize) -> u8 {
    line.get(i).map_or(b'|', |b| *b)
}

fn extended(n: u32, b: u8) -> u32 {
    if b < b'0' {
        return n;
    }
    if 400000000 < n {
        return n;
    }
    10 * n + (b - b'0') as u32
}

fn numeral(line: &[u8], at: usize) -> Number {
    let mut value: u32 = 0;
    for i in at..line.len() {
        if !line[i].is_ascii_digit() {
            return Number { value, next: i };
        }
        value = extended(value, line[i]);
    }
    Number {
        value,
        next: at.max(line.len()),
    }
}

fn identifier(n: u32) -> [u8; IDENTIFIER] {
    let mut id = [0u8; IDENTIFIER];
    id[LAST] = (n % 256) as u8;
    id
}

fn kind_of(b: u8) -> u8 {
    match b {
        b'P' => kinds::PHASE_ZERO,
        b'V' => kinds::VOLATILE,
        _ => kinds::DURABLE,
    }
}

fn mark_of(b: u8) -> u8 {
    if b == b'y' { marks::YES } else { marks::NO }
}

// `T=STATE`.
fn transaction(line: &[u8], r: Reading) -> Reading {
    let id = numeral(line, r.next);
    let state = numeral(line, id.next.saturating_add(1));
    let x = Transaction {
        id: TxId(identifier(id.value)),
        state: (state.value % 256) as u8,
    };
    let p = r.transactions.saturating_add(1);
    Reading {
        table: places::put_transaction(r.table, p, x),
        transactions: p,
        enlistments: r.enlistments,
        next: state.next.saturating_add(1),
    }
}

// `KmS:N:R:H`.
fn enlistment(line: &[u8], r: Reading) -> Reading {
    let kind = byte_at(line, r.next);
    let mark = byte_at(line, r.next.saturating_add(1));
    let state = numeral(line, r.next.saturating_add(2));
    let number = numeral(line, state.next.saturating_add(1));
    let rm = numeral(line, number.next.saturating_add(1));
    let holder = numeral(line, rm.next.saturating_add(1));
    let e = Enlistment {
        holder: (holder.value % 256) as u8,
        rm: RmId(identifier(rm.value)),
        number: number.value,
        kind: kind_of(kind),
        mark: mark_of(mark),
        state: (state.value % 256) as u8,
    };
    let p = r.enlistments.saturating_add(1);
    Reading {
        table: places::put_enlistment(r.table, p, e),
        transactions: r.transactions,
        enlistments: p,
        next: holder.next.saturating_add(1),
    }
}

// `-`.
fn empty(r: Reading) -> Reading {
    Reading {
        table: r.table,
        transactions: r.transactions,
        enlistments: r.enlistments.saturating_add(1),
        next: r.next.saturating_add(2),
    }
}

fn place(line: &[u8], r: Reading) -> Reading {
    match byte_at(line, r.next) {
        b'0'..=b'9' => transaction(line, r),
        b'-' => empty(r),
        _ => enlistment(line, r),
    }
}

// At most all places of a table.
fn read_places(line: &[u8], start: Reading) -> Reading {
    let mut r = start;
    for _ in 0..PLACES {
        if byte_at(line, r.next) == b'|' {
            return r;
        }
        r = place(line, r);
    }
    r
}

pub fn read_row(line: &[u8]) -> Row {
    let capacity = numeral(line, 0);
    let used = numeral(line, capacity.next.saturating_add(1));
    let mut fresh = step::fresh(capacity.value);
    fresh.used = used.value;
    let start = Reading {
        table: fresh,
        transactions: 0,
        enlistments: 0,
        next: used.next.saturating_add(1),
    };
    let r = read_places(line, start);
    let lent = numeral(line, r.next.saturating_add(2));
    Row {
        table: r.table,
        lent: lent.value as usize,
        event: lent.next.saturating_add(3),
    }
}
