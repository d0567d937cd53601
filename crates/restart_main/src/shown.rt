// What a restart gave, as a line.
use crate::logs::Made;
use rules::{Enlistment, Restarted, Row, Table, Transaction, refusal_number};

const STDOUT_FILENO: i32 = 1;

pub fn say(words: &[u8]) {
    io::write_all(STDOUT_FILENO, words);
}

fn count(before: &[u8], n: u64) {
    say(before);
    io::print_decimal(STDOUT_FILENO, n);
}

// Behind one byte, which parts it from what stands before it.
fn part(mark: u8, n: u64) {
    let marks = [mark];
    count(&marks, n);
}

// How many bytes differ.
fn changed(a: &[u8], b: &[u8]) -> u64 {
    a.iter().zip(b).filter(|(x, y)| x != y).count() as u64
}

fn enlistment(e: Enlistment) {
    part(b' ', e.number as u64);
    part(b'/', u64::from(e.rm.0[15]));
    part(b'/', u64::from(e.kind));
    part(b'/', u64::from(e.mark));
    part(b'/', u64::from(e.state));
}

fn held(table: Table, p: u8) {
    for e in &table.enlistments {
        if e.holder == p {
            enlistment(*e);
        }
    }
}

fn named(last: u64, state: u64) {
    count(b"; ", last);
    count(b" in ", state);
}

fn row(table: Table, x: Transaction, p: u8) {
    if x.state != 0 {
        named(u64::from(x.id.0[15]), u64::from(x.state));
        held(table, p);
    }
}

fn rows(table: Table) {
    for i in 0..32u8 {
        row(table, table.transactions[i as usize], i + 1);
    }
}

fn listed_row(x: Row) {
    part(b' ', u64::from(x.id.0[15]));
    part(b'/', u64::from(x.state));
    part(b'/', u64::from(x.held));
    part(b'/', u64::from(x.undone));
}

// The listing into 32 rows, by the half that takes and gives values: its refusal, and each row as identifier/state/held/not Done.
fn list(table: Table) {
    match listing::plan(table, 32) {
        Ok(n) => {
            count(b"; listing ", u64::from(refusal_number::ACCEPTED));
            for k in 0..n {
                listed_row(listing::row_at(table, k));
            }
        }
        Err(refusal) => count(b"; listing ", u64::from(u8::from(refusal))),
    }
}

fn numbers(used: u32, capacity: u32, different: u64, first: u32) {
    count(b" used ", used as u64);
    count(b" of ", capacity as u64);
    count(b" changed ", different);
    count(b" next ", first as u64);
}

fn told(case: u64, r: Restarted, different: u64) {
    let t = r.table;
    let d = dispenser::dispenser_after(t);
    io::print_decimal(STDOUT_FILENO, case);
    count(b": ", u64::from(r.refusal));
    numbers(t.used, t.capacity, different, d.next);
    rows(t);
    list(t);
    say(b"\n");
}

// Behind the words that say which it is.
pub fn outcome(log: &mut [u8], case: u64, capacity: usize, stored: usize) {
    if log.len() < capacity || 65537 < log.len() {
        return;
    }
    let mut kept = [0u8; 65537];
    kept[..log.len()].copy_from_slice(log);
    let r = restart::restart(&mut log[..capacity], stored);
    let different = changed(&kept[..capacity], &log[..capacity]);
    told(case, r, different);
}

pub fn restarted(made: Made, case: u64, capacity: usize, stored: usize) {
    let mut lent = made.log;
    outcome(&mut lent, case, capacity, stored);
}
