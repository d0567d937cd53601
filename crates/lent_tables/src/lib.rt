// A table is put into lent memory and read back; and of a table that is there, one transaction with what it holds is taken out and put back.

#![tactic(auto)]

ghost use Rattle.std.specs.Prelude.{◌≡◌, map, ℕ, ◌≤◌, length};
ghost use Rattle.lists.specs.Lists.{filter, count};
ghost use Rattle.lists.specs.Places.{change_at};
ghost use Rattle.rules.specs.Sizes.{held_most};
ghost use Rattle.rules.specs.Table.{held_by};
ghost use Rattle.rows.specs.Memory.{transaction_in, enlistment_in, table_in};
ghost use Rattle.holdings.specs.Within.{taken, refill};

use holdings::Holding;
use rules::{Enlistment, Table, Transaction, sizes};

// In place, here and below: an array's `map` makes another array, and moves it several times.
pub fn heads_of(transactions: [Transaction; 32], heads: &mut [[u8; 17]; 32])
    ensures { map transaction_in heads.new ≡ transactions }
{
    for (i, x) in transactions.iter().enumerate() {
        heads[i] = rows::head_of(*x);
    }
}

pub fn rows_of(enlistments: [Enlistment; 128], rows: &mut [[u8; 24]; 128])
    ensures { map enlistment_in rows.new ≡ enlistments }
{
    for (i, e) in enlistments.iter().enumerate() {
        rows[i] = rows::row_of(*e);
    }
}

pub fn transactions_in(heads: &[[u8; 17]; 32]) -> [Transaction; 32]
    ensures { result ≡ map transaction_in heads.now }
{
    let mut transactions = [places::no_transaction(); 32];
    for (i, head) in heads.iter().enumerate() {
        transactions[i] = rows::transaction_in(*head);
    }
    transactions
}

pub fn enlistments_in(rows: &[[u8; 24]; 128]) -> [Enlistment; 128]
    ensures { result ≡ map enlistment_in rows.now }
{
    let mut enlistments = [places::no_enlistment(); 128];
    for (i, row) in rows.iter().enumerate() {
        enlistments[i] = rows::enlistment_in(*row);
    }
    enlistments
}

pub fn table_in(heads: &[[u8; 17]; 32], rows: &[[u8; 24]; 128], capacity: u32, used: u32) -> Table
    ensures { result ≡ table_in heads.now rows.now capacity used }
{
    Table {
        transactions: transactions_in(heads),
        enlistments: enlistments_in(rows),
        capacity,
        used,
    }
}

// The transaction at place p, and those that it holds.
// By index, since two numbers run at once: i of the rows and k of what is taken.
pub fn take_out(
    heads: &[[u8; 17]; 32],
    rows: &[[u8; 24]; 128],
    p: u8,
    capacity: u32,
    used: u32,
) -> Holding
    requires { length (filter (held_by p) (map enlistment_in rows.now)) ≤ held_most }
    ensures { (size : ℕ) → result ≡ taken p capacity (table_in heads.now rows.now size used) }
{
    let mut h = Holding {
        enlistments: [places::no_enlistment(); 16],
        transaction: lent_places::transaction_at(heads, p),
        place: p,
        capacity,
        used,
    };
    let mut k: usize = 0;
    for i in 0..sizes::ENLISTMENTS {
        if rows[i][rows::HOLDER_AT] == p {
            h.enlistments[k] = rows::enlistment_in(rows[i]);
            k += 1;
        }
    }
    h
}

// Each of those that its transaction held is what became of it.
// By index, since two numbers run at once: i of the rows and k of what is put back.
fn put_rows(rows: &mut [[u8; 24]; 128], h: Holding)
    requires { count (held_by h.place) (map enlistment_in rows.old) ≤ held_most }
    ensures { map enlistment_in rows.new ≡ refill (held_by h.place) h.enlistments (map enlistment_in rows.old) }
{
    let mut k: usize = 0;
    for i in 0..sizes::ENLISTMENTS {
        if rows[i][rows::HOLDER_AT] == h.place {
            rows[i] = rows::row_of(h.enlistments[k]);
            k += 1;
        }
    }
}

pub fn put_back(heads: &mut [[u8; 17]; 32], rows: &mut [[u8; 24]; 128], h: Holding)
    requires { count (held_by h.place) (map enlistment_in rows.old) ≤ held_most }
    ensures { (map transaction_in heads.new ≡ change_at h.place (λ x. h.transaction) (map transaction_in heads.old))
        × (map enlistment_in rows.new ≡ refill (held_by h.place) h.enlistments (map enlistment_in rows.old)) }
{
    put_rows(rows, h);
    lent_places::put_transaction(heads, h.place, h.transaction);
}
