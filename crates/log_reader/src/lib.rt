// What stands at a place of the log: the parts of a record, and whether one stands there whole. Past the end of the log each byte reads as 0.

#![tactic(auto)]

ghost use Rattle.std.specs.Prelude.{◌≡◌, ◌+◌, ◌<◌, get_or, MatchOption};
ghost use Rattle.rules.specs.Sizes.{identifier_size};
ghost use Rattle.rules.specs.Log.{number4, size_of};
ghost use Rattle.log_reader.specs.Reading.{bytes_at, identifier_at, manager_at, number_at, entries_count, is_commit_at, whole_at, none_at};

use rules::sizes;
use std::array;

const RECORD: u16 = sizes::RECORD as u16;

const ENTRY: u16 = sizes::ENTRY as u16;

const IDENTIFIER: u16 = sizes::IDENTIFIER as u16;

// The number of an entry stands behind its resource manager.
const NUMBER: u16 = RECORD + IDENTIFIER;

fn identifier_from(log: &[u8], at: usize, from: u16) -> [u8; 16]
    ensures { result ≡ bytes_at log.now (at + from) identifier_size }
{
    array::from_fn(|i| log_bytes::byte(log, at, from, i as u16))
}

// Of 4 bytes, low first.
fn number_from(log: &[u8], at: usize, from: u16) -> u32
    ensures { result ≡ number4 (bytes_at log.now (at + from) 4) }
{
    let a = log_bytes::byte(log, at, from, 0);
    let b = log_bytes::byte(log, at, from, 1);
    let c = log_bytes::byte(log, at, from, 2);
    let d = log_bytes::byte(log, at, from, 3);
    basics::number_of(a, b, c, d)
}

// ---- The record at a place.

pub fn identifier_at(log: &[u8], at: usize) -> [u8; 16]
    ensures { result ≡ identifier_at log.now at }
{
    identifier_from(log, at, 2)
}

// Of its entry j.
pub fn manager_at(log: &[u8], at: usize, j: u8) -> [u8; 16]
    ensures { result ≡ manager_at log.now at j }
{
    identifier_from(log, at, RECORD + ENTRY * (j as u16))
}

pub fn number_at(log: &[u8], at: usize, j: u8) -> u32
    ensures { result ≡ number_at log.now at j }
{
    number_from(log, at, NUMBER + ENTRY * (j as u16))
}

pub fn is_commit(log: &[u8], at: usize) -> bool
    ensures { result ≡ is_commit_at log.now at }
{
    log_bytes::byte(log, at, 0, 0) == first_bytes::COMMIT
}

// How many entries it has, if it is a commit record.
pub fn entries_count(log: &[u8], at: usize) -> u8
    ensures { result ≡ entries_count log.now at }
{
    log_bytes::byte(log, at, 1, 0)
}

// ---- What the stored bytes hold from a place on.

fn size_at(log: &[u8], at: usize) -> Option<usize>
    ensures { let size = size_of (get_or log.now at 0) (get_or log.now (at + 1) 0) in
        MatchOption result (size ≡ 0) (λ n. (n ≡ size) × (0 < n)) }
{
    first_bytes::size_of(
        log_bytes::byte(log, at, 0, 0),
        log_bytes::byte(log, at, 1, 0),
    )
}

// The size of the record that stands there whole, None if none does.
pub fn whole_at(log: &[u8], stored: usize, at: usize) -> Option<usize>
    ensures { MatchOption result (whole_at log.now stored at ≡ 0) (λ size. (size ≡ whole_at log.now stored at) × (0 < size)) }
{
    let left = stored.saturating_sub(at);
    if left < 2 {
        return None;
    }
    let size = size_at(log, at)?;
    if left < size {
        return None;
    }
    Some(size)
}

// Whether no record begins there; one that is torn does begin.
pub fn none_at(log: &[u8], stored: usize, at: usize) -> bool
    ensures { result ≡ none_at log.now stored at }
{
    match stored.saturating_sub(at) {
        0 => false,
        1 => first_bytes::begins_none(log_bytes::byte(log, at, 0, 0)),
        _ => size_at(log, at).is_none(),
    }
}
