// The records that are open while a log is read. An open record is held by the place in the log where it begins.

#![tactic(auto)]

ghost use Rattle.std.specs.Prelude.{◌≡◌, ◌*◌, ◌≤◌, eqb, length};
ghost use Rattle.lists.specs.Lists.{any};
ghost use Rattle.rules.specs.Sizes.{transaction_places};
ghost use Rattle.rules.specs.Restart.{is_open_as, entries_open};
ghost use Rattle.log_reader.specs.Reading.{entries_at};
ghost use Rattle.open_records.specs.Opening.{starts_of, opens_of, none_open, with_start, keep_unless, kept_from, open_behind};

use rules::sizes;

// An array and a count, and no `Vec`: the coordinator has no heap.
#[derive(Clone, Copy)]
pub struct OpenRecords {
    // The first count are in use, by order of commit records.
    pub starts: [usize; 32],
    pub count: usize,
}

pub fn none_open() -> OpenRecords
    ensures { result ≡ none_open }
{
    OpenRecords {
        starts: [0; 32],
        count: 0,
    }
}

// The places that are in use.
pub fn starts(records: &OpenRecords) -> &[usize]
    ensures { (result.now ≡ starts_of records.now) × (length result.now ≤ transaction_places) }
{
    &records.starts[..records.count.min(sizes::TRANSACTIONS)]
}

pub fn count_of(records: OpenRecords) -> usize
    ensures { (result ≡ length (starts_of records)) × (result ≤ transaction_places) }
{
    starts(&records).len()
}

// ---- What the open ones say of another.

pub fn is_open(log: &[u8], records: OpenRecords, id: [u8; 16]) -> bool
    ensures { result ≡ any (is_open_as id) (opens_of log.now records) }
{
    starts(&records).iter().any(|at| identifiers::same(log_reader::identifier_at(log, *at), id))
}

fn is_held(log: &[u8], records: OpenRecords, number: u32) -> bool
    ensures { result ≡ any (λ d. eqb d.number number) (entries_open (opens_of log.now records)) }
{
    starts(&records)
        .iter()
        .any(|at| entries::has_number(log, *at, number))
}

// Whether one of the numbers of the record at a place is held in an open one.
pub fn has_held(log: &[u8], records: OpenRecords, at: usize) -> bool
    ensures { result ≡ any (λ e. any (λ d. eqb d.number e.number) (entries_open (opens_of log.now records))) (entries_at log.now at) }
{
    let count = log_reader::entries_count(log, at);
    (0..count).any(|j| is_held(log, records, log_reader::number_at(log, at, j)))
}

pub fn entries_open(log: &[u8], records: OpenRecords) -> usize
    ensures { (result ≡ length (entries_open (opens_of log.now records))) × (result ≤ transaction_places * 255) }
{
    let mut sum: usize = 0;
    for at in starts(&records) {
        sum += log_reader::entries_count(log, *at) as usize;
    }
    sum
}

// ---- What is open behind a record.

fn with_start(records: OpenRecords, at: usize) -> OpenRecords
    ensures { result ≡ with_start records at }
{
    let n = count_of(records);
    if n < sizes::TRANSACTIONS {
        let mut starts = records.starts;
        starts[n] = at;
        return OpenRecords {
            starts,
            count: n + 1,
        };
    }
    records
}

fn keep_unless(log: &[u8], id: [u8; 16], left: OpenRecords, at: usize) -> OpenRecords
    ensures { result ≡ keep_unless log.now id left at }
{
    if identifiers::same(log_reader::identifier_at(log, at), id) {
        left
    } else {
        with_start(left, at)
    }
}

fn without(log: &[u8], id: [u8; 16], records: OpenRecords) -> OpenRecords
    ensures { result ≡ kept_from log.now id none_open (starts_of records) }
{
    let mut left = none_open();
    for at in starts(&records) {
        left = keep_unless(log, id, left, *at);
    }
    left
}

pub fn open_behind(log: &[u8], records: OpenRecords, at: usize) -> OpenRecords
    ensures { result ≡ open_behind log.now records at }
{
    let commit = log_reader::is_commit(log, at);
    if commit {
        return with_start(records, at);
    }
    let id = log_reader::identifier_at(log, at);
    without(log, id, records)
}
