// The places of the table: what stands in one, and what is put there. Places are numbered from 1; 0 is none, reads as empty and takes nothing.

#![tactic(auto)]

ghost use Rattle.std.specs.Prelude.{◌≡◌};
ghost use Rattle.lists.specs.Places.{change_at};
ghost use Rattle.rules.specs.Table.{no_transaction, no_enlistment, fresh_of, transaction_at, with_enlistments, change_transaction};
ghost use Rattle.places.specs.Empty.{empty_table};

use rules::{Enlistment, RmId, Table, Transaction, TxId, sizes};

pub fn no_transaction() -> Transaction
    ensures { result ≡ no_transaction }
{
    Transaction {
        id: TxId([0; 16]),
        state: 0,
    }
}

pub fn no_enlistment() -> Enlistment
    ensures { result ≡ no_enlistment }
{
    Enlistment {
        holder: 0,
        rm: RmId([0; 16]),
        number: 0,
        kind: 0,
        mark: 0,
        state: 0,
    }
}

// Of any used length: a fresh table, and that of a restart before the open transactions are put there.
pub fn empty(capacity: u32, used: u32) -> Table
    ensures { result ≡ empty_table capacity used }
{
    Table {
        transactions: [no_transaction(); 32],
        enlistments: [no_enlistment(); 128],
        capacity,
        used,
    }
}

pub fn fresh(capacity: u32) -> Table
    ensures { result ≡ fresh_of capacity }
{
    empty(capacity, sizes::HEADER)
}

pub fn transaction_at(table: Table, p: u8) -> Transaction
    ensures { result ≡ transaction_at p table }
{
    if p == 0 {
        return no_transaction();
    }
    let k = (p - 1) as usize;
    if k < sizes::TRANSACTIONS {
        return table.transactions[k];
    }
    no_transaction()
}

pub fn put_transaction(table: Table, p: u8, x: Transaction) -> Table
    ensures { result ≡ change_transaction p (λ y. x) table }
{
    if p == 0 {
        return table;
    }
    let k = (p - 1) as usize;
    if k < sizes::TRANSACTIONS {
        let mut u = table;
        u.transactions[k] = x;
        return u;
    }
    table
}

pub fn put_enlistment(table: Table, p: u8, e: Enlistment) -> Table
    ensures { result ≡ with_enlistments (change_at p (λ y. e) table.enlistments) table }
{
    if p == 0 {
        return table;
    }
    let k = (p - 1) as usize;
    if k < sizes::ENLISTMENTS {
        let mut u = table;
        u.enlistments[k] = e;
        return u;
    }
    table
}
