// The log's records, stored at an offset. What would lie past the end of the log is not stored.

#![tactic(auto)]

ghost use Rattle.std.specs.Prelude.{◌≡◌, map, ◌+◌, ◌*◌, ◌≤◌, length, take};
ghost use Rattle.std.proofs.lemmas.List.Edits.{sets};
ghost use Rattle.rules.specs.Sizes.{signals_most, identifier_size, largest_number, record_size, entry_size};
ghost use Rattle.rules.specs.Log.{Record, low4, entry_bytes, entries_bytes, record_bytes, commit_size, written};
ghost use Rattle.rules.specs.Events.{entry_of};

use rules::{Enlistment, sizes};
use signals::Line;

const RECORD: usize = sizes::RECORD as usize;

const ENTRY: usize = sizes::ENTRY as usize;

fn put_bytes(log: &mut [u8], at: usize, bytes: &[u8])
    requires { at + length bytes.now ≤ largest_number + commit_size signals_most }
    ensures { log.new ≡ sets log.old at bytes.now }
{
    for (i, b) in bytes.iter().enumerate() {
        log_bytes::put(log, at + i, *b);
    }
}

// The number stands in 4 bytes, low first.
fn put_entry(log: &mut [u8], at: usize, e: Enlistment)
    requires { at + entry_size ≤ largest_number + commit_size signals_most }
    ensures { (log.new ≡ sets log.old at (entry_bytes (entry_of e))) × (length (entry_bytes (entry_of e)) ≡ entry_size) }
{
    put_bytes(log, at, &e.rm.0);
    put_bytes(log, at + sizes::IDENTIFIER, &basics::low_of(e.number));
}

fn put_entries(log: &mut [u8], at: usize, entries: &[Enlistment])
    requires { (length entries.now ≤ signals_most) × (at ≤ largest_number + record_size) }
    ensures { (log.new ≡ sets log.old at (entries_bytes (map entry_of entries.now))) × (length (entries_bytes (map entry_of entries.now)) ≡ entry_size * length entries.now) }
{
    for (i, e) in entries.iter().enumerate() {
        put_entry(log, at + ENTRY * i, *e);
    }
}

// Its size is returned.
pub fn put_commit(log: &mut [u8], used: u32, id: [u8; 16], line: Line) -> u32
    requires { line.count ≤ signals_most }
    ensures { (log.new ≡ written used (record_bytes (Record.commit id (map entry_of (take line.count line.items)))) log.old)
        × (result ≡ length (record_bytes (Record.commit id (map entry_of (take line.count line.items))))) × (result ≤ commit_size signals_most) }
{
    let at = used as usize;
    let count = line.count;
    log_bytes::put(log, at, first_bytes::COMMIT);
    log_bytes::put(log, at + 1, count);
    put_bytes(log, at + 2, &id);
    put_entries(log, at + RECORD, &line.items[..count as usize]);
    sizes::RECORD + sizes::ENTRY * (count as u32)
}

pub fn put_forget(log: &mut [u8], used: u32, id: [u8; 16]) -> u32
    ensures { (log.new ≡ written used (record_bytes (Record.forget id)) log.old)
        × (result ≡ length (record_bytes (Record.forget id))) × (result ≤ commit_size signals_most) }
{
    let at = used as usize;
    log_bytes::put(log, at, first_bytes::FORGET);
    log_bytes::put(log, at + 1, 0);
    put_bytes(log, at + 2, &id);
    sizes::RECORD
}
