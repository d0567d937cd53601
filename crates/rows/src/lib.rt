// How memory holds a table: a transaction is 17 bytes, an enlistment 24. Here one of them is read, and spelt.

#![tactic(auto)]

ghost use Rattle.std.specs.Prelude.{◌≡◌, ◌≤◌, length, take};
ghost use Rattle.rules.specs.Sizes.{identifier_size};
ghost use Rattle.rows.specs.Memory.{transaction_in, number_in, enlistment_in};

use rules::{Enlistment, RmId, Transaction, TxId};

// Where a head has the transaction's state, behind its identifier.
pub const HEAD_STATE_AT: usize = 16;

// Where a row has the enlistment's holder, kind, mark and state, behind its RM and its number.
pub const HOLDER_AT: usize = 20;

pub const KIND_AT: usize = 21;

pub const MARK_AT: usize = 22;

pub const STATE_AT: usize = 23;

pub fn identifier_in(bytes: &[u8]) -> [u8; 16]
    requires { identifier_size ≤ length bytes.now }
    ensures { result ≡ take identifier_size bytes.now }
{
    let mut id = [0u8; 16];
    id.copy_from_slice(&bytes[..16]);
    id
}

pub fn transaction_in(head: [u8; 17]) -> Transaction
    ensures { result ≡ transaction_in head }
{
    Transaction {
        id: TxId(identifier_in(&head)),
        state: head[HEAD_STATE_AT],
    }
}

pub fn number_in(row: [u8; 24]) -> u32
    ensures { result ≡ number_in row }
{
    basics::number_of(row[16], row[17], row[18], row[19])
}

pub fn enlistment_in(row: [u8; 24]) -> Enlistment
    ensures { result ≡ enlistment_in row }
{
    Enlistment {
        holder: row[HOLDER_AT],
        rm: RmId(identifier_in(&row)),
        number: number_in(row),
        kind: row[KIND_AT],
        mark: row[MARK_AT],
        state: row[STATE_AT],
    }
}

pub fn head_of(x: Transaction) -> [u8; 17]
    ensures { transaction_in result ≡ x }
{
    let mut head = [0u8; 17];
    head[..16].copy_from_slice(&x.id.0);
    head[HEAD_STATE_AT] = x.state;
    head
}

pub fn row_of(e: Enlistment) -> [u8; 24]
    ensures { enlistment_in result ≡ e }
{
    let mut row = [0u8; 24];
    row[..16].copy_from_slice(&e.rm.0);
    row[16..20].copy_from_slice(&basics::low_of(e.number));
    row[HOLDER_AT] = e.holder;
    row[KIND_AT] = e.kind;
    row[MARK_AT] = e.mark;
    row[STATE_AT] = e.state;
    row
}
