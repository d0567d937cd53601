// The places of a table in lent memory: found, read, and stored into. What is lent is not copied, and is changed where it stands.

#![tactic(auto)]

ghost use Rattle.std.specs.Prelude.{◌≡◌, ◌+◌, ◌<◌, map, IfSome, MatchOption};
ghost use Rattle.lists.specs.Lists.{first_or};
ghost use Rattle.lists.specs.Places.{place_of, at, change_at};
ghost use Rattle.rules.specs.Table.{no_transaction, no_enlistment, is_free, is_named, is_vacant, is_numbered};
ghost use Rattle.rows.specs.Memory.{transaction_in, enlistment_in};

use rules::{Enlistment, Transaction, sizes};

// The place at this index, 0 for none: the definition `place_of` numbers places from 1, and a row names its holder by
// such a number in one byte.
fn place_at(index: Option<usize>) -> u8
    requires { IfSome index (λ i. i < 255) }
    ensures { MatchOption index (result ≡ 0) (λ i. result ≡ i + 1) }
{
    match index {
        Some(i) => i as u8 + 1,
        None => 0,
    }
}

fn is_named(head: [u8; 17], id: [u8; 16]) -> bool
    ensures { result ≡ is_named id (transaction_in head) }
{
    let live = head[rows::HEAD_STATE_AT] != 0;
    live && rows::identifier_in(&head) == id
}

// Of the live transaction with this identifier.
pub fn place_named(heads: &[[u8; 17]; 32], id: [u8; 16]) -> u8
    ensures { result ≡ place_of (is_named id) (map transaction_in heads.now) }
{
    place_at(heads.iter().position(|head| is_named(*head, id)))
}

pub fn place_free(heads: &[[u8; 17]; 32]) -> u8
    ensures { result ≡ place_of is_free (map transaction_in heads.now) }
{
    place_at(heads.iter().position(|head| head[rows::HEAD_STATE_AT] == 0))
}

pub fn place_vacant(rows: &[[u8; 24]; 128]) -> u8
    ensures { result ≡ place_of is_vacant (map enlistment_in rows.now) }
{
    place_at(rows.iter().position(|row| row[rows::HOLDER_AT] == 0))
}

// An empty place if there is none.
pub fn numbered(rows: &[[u8; 24]; 128], n: u32) -> Enlistment
    ensures { result ≡ first_or no_enlistment (is_numbered n) (map enlistment_in rows.now) }
{
    let found = rows.iter().find(|row| rows::number_in(**row) == n);
    found.map_or(places::no_enlistment(), |row| rows::enlistment_in(*row))
}

pub fn transaction_at(heads: &[[u8; 17]; 32], p: u8) -> Transaction
    ensures { result ≡ at no_transaction p (map transaction_in heads.now) }
{
    if p == 0 {
        return places::no_transaction();
    }
    let k = (p - 1) as usize;
    if k < sizes::TRANSACTIONS {
        return rows::transaction_in(heads[k]);
    }
    places::no_transaction()
}

pub fn put_transaction(heads: &mut [[u8; 17]; 32], p: u8, x: Transaction)
    ensures { map transaction_in heads.new ≡ change_at p (λ y. x) (map transaction_in heads.old) }
{
    if p == 0 {
        return;
    }
    let k = (p - 1) as usize;
    if k < sizes::TRANSACTIONS {
        heads[k] = rows::head_of(x);
    }
}

pub fn put_enlistment(rows: &mut [[u8; 24]; 128], p: u8, e: Enlistment)
    ensures { map enlistment_in rows.new ≡ change_at p (λ y. e) (map enlistment_in rows.old) }
{
    if p == 0 {
        return;
    }
    let k = (p - 1) as usize;
    let there = k < sizes::ENLISTMENTS;
    if there {
        rows[k] = rows::row_of(e);
    }
}
