// Logs made by hand, byte for byte, in memory that is zero; what would stand past their end is dropped.

use rules::sizes;

const RECORD: u16 = sizes::RECORD as u16;

const ENTRY: u16 = sizes::ENTRY as u16;

const IDENTIFIER: u16 = sizes::IDENTIFIER as u16;

fn put(log: &mut [u8], at: usize, b: u8) {
    if at < log.len() {
        log[at] = b;
    }
}

// No log reaches as far as the largest place, where a sum stays.
fn plus(at: usize, n: u16) -> usize {
    at.saturating_add(n as usize)
}

pub fn up(first: u32, j: u8) -> u32 {
    first.saturating_add(j as u32)
}

fn number(log: &mut [u8], at: usize, n: u32) {
    for (i, b) in basics::low_of(n).iter().enumerate() {
        put(log, plus(at, i as u16), *b);
    }
}

// `RTL` and version 1, as one number; the other four bytes are zero.
pub fn header(log: &mut [u8]) {
    number(log, 0, 0x014C5452);
}

// The last byte of an identifier; the others are zero.
fn identifier(log: &mut [u8], at: usize, last: u8) {
    let end = plus(at, 15);
    put(log, end, last);
}

// Numbers and resource managers go up by one from entry to entry.
fn entry(log: &mut [u8], at: usize, j: u8, first: u32, rm: u8) {
    let start = plus(at, RECORD + ENTRY * (j as u16));
    let last = up(rm as u32, j) % 256;
    identifier(log, start, last as u8);
    let behind = plus(start, IDENTIFIER);
    let n = up(first, j);
    number(log, behind, n);
}

// The first 18 bytes of a record.
fn beginning(log: &mut [u8], at: usize, tag: u8, n: u8, t: u8) {
    put(log, at, tag);
    let second = plus(at, 1);
    put(log, second, n);
    let name = plus(at, 2);
    identifier(log, name, t);
}

// A commit record of t with n entries; gives the place behind it.
pub fn commit(log: &mut [u8], at: usize, t: u8, n: u8, first: u32, rm: u8) -> usize {
    beginning(log, at, 1, n, t);
    for j in 0..n {
        entry(log, at, j, first, rm);
    }
    plus(at, RECORD + ENTRY * (n as u16))
}

pub fn forget(log: &mut [u8], at: usize, t: u8) -> usize {
    beginning(log, at, 2, 0, t);
    plus(at, RECORD)
}

// ---- Of 4,096 bytes.

#[derive(Clone, Copy)]
pub struct Made {
    pub log: [u8; 4096],
    // Behind its last record.
    pub end: usize,
}

// With the header and nothing behind it.
pub fn empty() -> Made {
    let mut log = [0u8; 4096];
    header(&mut log);
    Made { log, end: 8 }
}

pub fn with_byte(made: Made, at: usize, b: u8) -> Made {
    let mut log = made.log;
    put(&mut log, at, b);
    Made { log, end: made.end }
}

pub fn with_commit(made: Made, t: u8, n: u8, first: u32, rm: u8) -> Made {
    let mut log = made.log;
    let end = commit(&mut log, made.end, t, n, first, rm);
    Made { log, end }
}

pub fn with_forget(made: Made, t: u8) -> Made {
    let mut log = made.log;
    let end = forget(&mut log, made.end, t);
    Made { log, end }
}
