// Restart: from the lent log, whose length is the capacity, and the count of stored bytes to a table.

#![tactic(auto)]

ghost use Rattle.std.specs.Prelude.{◌≡◌, ◌||◌, ◌≤◌, ltb, length};
ghost use Rattle.rules.specs.Sizes.{header_size, least_capacity, largest_capacity};
ghost use Rattle.rules.specs.Restart.{IsRestart, body_of, read_back, restarted_of};
ghost use Rattle.restart.specs.Answers.{restarted_as};

use rules::{Refusal, Restarted, Table, refusal_number, sizes};

const HEADER: usize = sizes::HEADER as usize;

const WHOLE_HEADER: u16 = sizes::HEADER as u16;

const RECORD: usize = sizes::RECORD as usize;

const LEAST_CAPACITY: usize = sizes::LEAST_CAPACITY as usize;

const LARGEST_CAPACITY: usize = sizes::LARGEST_CAPACITY as usize;

// ---- Behind the header.

fn read_back(log: &[u8], stored: usize) -> Result<Table, Refusal>
    requires { (header_size ≤ stored) × (stored ≤ length log.now) × (length log.now ≤ largest_capacity) }
    ensures { restarted_as result ≡ restarted_of (read_back (body_of log.now stored) log.now) }
{
    let read = read_records::read_records(log, stored)?;
    let owed = open_records::count_of(read.records);
    let short = log.len() < read.used + RECORD * owed;
    if short {
        return Err(Refusal::LogTooShort);
    }
    let start = places::empty(log.len() as u32, read.used as u32);
    let named = reopening::put_transactions(log, read.records, start);
    let whole = reopening::put_enlistments(log, read.records, named);
    Ok(whole)
}

// ---- The whole.

fn is_outside(capacity: usize, stored: usize) -> bool
    ensures { result ≡ (ltb capacity least_capacity || ltb largest_capacity capacity || ltb capacity stored) }
{
    capacity < LEAST_CAPACITY || LARGEST_CAPACITY < capacity || capacity < stored
}

// Writes nothing but the header, where less than that is stored.
fn table_of(log: &mut [u8], stored: usize) -> Result<Table, Refusal>
    ensures { IsRestart log.old stored (restarted_as result) log.new }
{
    let outside = is_outside(log.len(), stored);
    if outside {
        return Err(Refusal::DamagedLog);
    }
    if stored < HEADER {
        let begins = log_header::begins_header(log, stored as u16);
        if begins {
            log_header::write_header(log);
            let table = places::fresh(log.len() as u32);
            return Ok(table);
        }
        return Err(Refusal::DamagedLog);
    }
    let begins = log_header::begins_header(log, WHOLE_HEADER);
    if begins {
        return read_back(log, stored);
    }
    Err(Refusal::DamagedLog)
}

// The table of what the log says, or the refusal's number and an all-zero table.
pub fn restart(log: &mut [u8], stored: usize) -> Restarted
    ensures { IsRestart log.old stored result log.new }
{
    match table_of(log, stored) {
        Ok(table) => Restarted {
            refusal: refusal_number::ACCEPTED,
            table,
        },
        Err(why) => Restarted {
            refusal: why.into(),
            table: places::empty(0, 0),
        },
    }
}
