// Whether a whole record fits those that are open before it: what is judged at each as it is read.

#![tactic(auto)]

ghost use Rattle.std.specs.Prelude.{◌≡◌};
ghost use Rattle.rules.specs.Log.{Record};
ghost use Rattle.rules.specs.Restart.{is_fitting};
ghost use Rattle.log_reader.specs.Reading.{identifier_at, entries_at, record_at};
ghost use Rattle.open_records.specs.Opening.{opens_of};

use open_records::OpenRecords;
use rules::sizes;

#[tactic(auto, using(entries::proofs::Rows::entries_long, open_records::proofs::Rows::opens_long), unfolding(rules::specs::Restart::is_fitting))]
fn is_commit_fitting(log: &[u8], records: OpenRecords, at: usize) -> bool
    ensures { result ≡ is_fitting (opens_of log.now records) (Record.commit (identifier_at log.now at) (entries_at log.now at)) }
{
    let id = log_reader::identifier_at(log, at);
    let zero = identifiers::is_zero(id);
    let transactions = open_records::count_of(records) + 1;
    let more = log_reader::entries_count(log, at) as usize;
    let sum = open_records::entries_open(log, records) + more;
    !zero
        && !entries::has_zero_manager(log, at)
        && !open_records::is_open(log, records, id)
        && entries::numbers_ascend(log, at)
        && !open_records::has_held(log, records, at)
        && entries::managers_differ(log, at)
        && transactions <= sizes::TRANSACTIONS
        && sum <= sizes::ENLISTMENTS
}

#[tactic(auto, unfolding(rules::specs::Restart::is_fitting))]
fn is_forget_fitting(log: &[u8], records: OpenRecords, at: usize) -> bool
    ensures { result ≡ is_fitting (opens_of log.now records) (Record.forget (identifier_at log.now at)) }
{
    let id = log_reader::identifier_at(log, at);
    !identifiers::is_zero(id) && open_records::is_open(log, records, id)
}

#[tactic(auto, unfolding(log_reader::specs::Reading::record_at))]
pub fn is_fitting(log: &[u8], records: OpenRecords, at: usize) -> bool
    ensures { result ≡ is_fitting (opens_of log.now records) (record_at log.now at) }
{
    if log_reader::is_commit(log, at) {
        is_commit_fitting(log, records, at)
    } else {
        is_forget_fitting(log, records, at)
    }
}
