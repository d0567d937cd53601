// The table of the open records: their transactions and their entries, put into an empty table in the order of commit records.

#![tactic(auto)]

ghost use Rattle.std.specs.Prelude.{◌≡◌, set};
ghost use Rattle.rules.specs.Table.{with_enlistments};
ghost use Rattle.rules.specs.Restart.{reopened, reenlistment};
ghost use Rattle.log_reader.specs.Reading.{entry_at, entries_at};
ghost use Rattle.open_records.specs.Opening.{open_at, opens_of};
ghost use Rattle.reopening.specs.Reopened.{transactions_put, entries_put, enlistments_put};

use open_records::OpenRecords;
use rules::{
    Enlistment, RmId, Table, Transaction, TxId, enlistment_state, kinds, marks, sizes,
    transaction_state,
};

fn transaction_of(log: &[u8], at: usize) -> Transaction
    ensures { result ≡ reopened (open_at log.now at) }
{
    Transaction {
        id: TxId(log_reader::identifier_at(log, at)),
        state: transaction_state::COMMITTING,
    }
}

// Of entry j of the record at a place, whose transaction stands at place p.
fn enlistment_of(log: &[u8], at: usize, j: u8, p: u8) -> Enlistment
    ensures { result ≡ reenlistment p (entry_at log.now at j) }
{
    Enlistment {
        holder: p,
        rm: RmId(log_reader::manager_at(log, at, j)),
        number: log_reader::number_at(log, at, j),
        kind: kinds::DURABLE,
        mark: marks::NO,
        state: enlistment_state::FAILED_TO_NOTIFY,
    }
}

pub fn put_transactions(log: &[u8], records: OpenRecords, mut table: Table) -> Table
    ensures { result ≡ transactions_put (opens_of log.now records) table }
{
    for (i, at) in open_records::starts(&records).iter().enumerate() {
        table.transactions[i] = transaction_of(log, *at);
    }
    table
}

fn put_enlistment(mut table: Table, k: usize, e: Enlistment) -> Table
    ensures { result ≡ with_enlistments (set table.enlistments k e) table }
{
    if k < sizes::ENLISTMENTS {
        table.enlistments[k] = e;
    }
    table
}

fn put_entries(log: &[u8], at: usize, p: u8, k: u16, mut table: Table) -> Table
    ensures { result ≡ entries_put p (entries_at log.now at) k table }
{
    for j in 0..log_reader::entries_count(log, at) {
        let e = enlistment_of(log, at, j, p);
        table = put_enlistment(table, (k as usize) + (j as usize), e);
    }
    table
}

pub fn put_enlistments(log: &[u8], records: OpenRecords, mut table: Table) -> Table
    ensures { result ≡ enlistments_put (opens_of log.now records) table }
{
    let mut k: u16 = 0;
    for (i, at) in open_records::starts(&records).iter().enumerate() {
        let p = (i + 1) as u8;
        table = put_entries(log, *at, p, k, table);
        k += log_reader::entries_count(log, *at) as u16;
    }
    table
}
