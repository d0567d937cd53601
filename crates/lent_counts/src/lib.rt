// What the transactions of a table in lent memory hold, and how many of them are open.

#![tactic(auto)]

ghost use Rattle.std.specs.Prelude.{◌≡◌, map, ◌&&◌, ℕ, ◌≤◌, length};
ghost use Rattle.lists.specs.Lists.{any, filter};
ghost use Rattle.rules.specs.Sizes.{transaction_places, enlistment_places};
ghost use Rattle.rules.specs.Table.{held_by, is_durable, is_durable_of};
ghost use Rattle.rules.specs.Sound.{is_open, open_count};
ghost use Rattle.rows.specs.Memory.{enlistment_in, table_in};

use rules::{kinds, transaction_state};

fn is_held_durable(row: [u8; 24], p: u8) -> bool
    ensures { result ≡ (held_by p (enlistment_in row) && is_durable (enlistment_in row)) }
{
    row[rows::HOLDER_AT] == p && row[rows::KIND_AT] == kinds::DURABLE
}

// Whether the transaction at place p holds a durable enlistment.
fn has_durable(rows: &[[u8; 24]; 128], p: u8) -> bool
    ensures { result ≡ any (λ e. held_by p e && is_durable e) (map enlistment_in rows.now) }
{
    rows.iter().any(|row| is_held_durable(*row, p))
}

// Of a transaction in this state.
fn is_open(rows: &[[u8; 24]; 128], p: u8, state: u8) -> bool
    ensures { result ≡ is_open state (filter (held_by p) (map enlistment_in rows.now)) }
{
    state == transaction_state::COMMITTING && has_durable(rows, p)
}

pub fn open_count(heads: &[[u8; 17]; 32], rows: &[[u8; 24]; 128]) -> u8
    ensures { ((capacity used : ℕ) → result ≡ open_count (table_in heads.now rows.now capacity used)) × (result ≤ transaction_places) }
{
    let mut n: u8 = 0;
    for (i, head) in heads.iter().enumerate() {
        // Places are numbered from 1.
        let p = i as u8 + 1;
        let open = is_open(rows, p, head[rows::HEAD_STATE_AT]);
        if open {
            n += 1;
        }
    }
    n
}

pub fn count_held(rows: &[[u8; 24]; 128], p: u8) -> u8
    ensures { (result ≡ length (filter (held_by p) (map enlistment_in rows.now))) × (result ≤ enlistment_places) }
{
    rows.iter().filter(|row| row[rows::HOLDER_AT] == p).count() as u8
}

// The identifiers are compared only where the cheaper tests pass.
fn is_held_durable_of(row: [u8; 24], p: u8, rm: [u8; 16]) -> bool
    ensures { result ≡ (held_by p (enlistment_in row) && is_durable_of rm (enlistment_in row)) }
{
    is_held_durable(row, p) && rows::identifier_in(&row) == rm
}

// Whether the transaction at place p holds a durable enlistment of this RM.
pub fn has_durable_of(rows: &[[u8; 24]; 128], p: u8, rm: [u8; 16]) -> bool
    ensures { result ≡ any (is_durable_of rm) (filter (held_by p) (map enlistment_in rows.now)) }
{
    rows.iter().any(|row| is_held_durable_of(*row, p, rm))
}
