// Reading the records of a log, from behind its header on.

#![tactic(auto)]

ghost use Rattle.std.specs.Prelude.{◌≡◌, ◌≤◌, length};
ghost use Rattle.rules.specs.Sizes.{header_size};
ghost use Rattle.read_records.specs.Readback.{Read};

use open_records::OpenRecords;
use rules::{Refusal, sizes};

const HEADER: usize = sizes::HEADER as usize;

// How far the records reach, and which are open there.
#[derive(Clone, Copy)]
pub struct Readings {
    pub used: usize,
    pub records: OpenRecords,
}

// The whole records, up to the first that is torn. Where something else stands that begins none, or a whole one is not as it must be, the log is damaged.
pub fn read_records(log: &[u8], stored: usize) -> Result<Readings, Refusal>
    requires { (header_size ≤ stored) × (stored ≤ length log.now) }
    ensures { Read log.now stored result }
{
    let mut records = open_records::none_open();
    let mut at: usize = HEADER;
    while let Some(size) = log_reader::whole_at(log, stored, at) {
        let fits = fitting::is_fitting(log, records, at);
        if !fits {
            return Err(Refusal::DamagedLog);
        }
        records = open_records::open_behind(log, records, at);
        at += size;
    }
    let none = log_reader::none_at(log, stored, at);
    if none {
        Err(Refusal::DamagedLog)
    } else {
        Ok(Readings { used: at, records })
    }
}
