// One transaction with what it holds, out of the table: what happens to it is handed from function to function, and a table would be copied each time.

#![tactic(auto)]

ghost use Rattle.std.specs.Prelude.{◌≡◌, ◌+◌, ◌≤◌};
ghost use Rattle.rules.specs.Sizes.{largest_number};
ghost use Rattle.rules.specs.declared.Enlistment.{Enlistment};
ghost use Rattle.rules.specs.Table.{held, freed, in_transaction_state, ended};
ghost use Rattle.rules.specs.Sound.{is_open};
ghost use Rattle.passes.specs.Census.{census_of};
ghost use Rattle.passes.specs.Computes.{Computes};
ghost use Rattle.holdings.specs.Holdings.{alone, with_held, with_transaction, with_used, going};

use passes::Census;
use rules::{Enlistment, Transaction, transaction_state};

#[derive(Clone, Copy)]
pub struct Holding {
    // Those that it holds, in their order; the rest is empty.
    pub enlistments: [Enlistment; 16],
    pub transaction: Transaction,
    // Its place in the table.
    pub place: u8,
    // Of the log, less a forget record for each other transaction that is open.
    pub capacity: u32,
    pub used: u32,
}

#[tactic(auto, unfolding(crate::specs::Holdings::alone, rules::specs::Table::held))]
pub fn count(h: Holding) -> Census
    ensures { result ≡ census_of (held h.place (alone h)) }
{
    passes::count_among(&h.enlistments, h.place)
}

pub fn is_open(h: Holding) -> bool
    ensures { result ≡ is_open h.transaction.state (held h.place (alone h)) }
{
    if h.transaction.state == transaction_state::COMMITTING {
        let c = count(h);
        c.durable != 0
    } else {
        false
    }
}

// Each that it holds.
pub fn change<F: Fn(Enlistment) -> Enlistment>(h: Holding, becomes: F) -> Holding
    requires { F.IsAlwaysCallable becomes }
    ensures { (f : Enlistment → Enlistment) → Computes (F.post becomes) f → result ≡ with_held f h }
{
    let mut u = h;
    for e in u.enlistments.iter_mut() {
        if e.holder == h.place {
            *e = becomes(*e);
        }
    }
    u
}

pub fn go_to(h: Holding, state: u8) -> Holding
    ensures { result ≡ with_transaction (in_transaction_state state h.transaction) h }
{
    Holding {
        transaction: Transaction {
            state,
            ..h.transaction
        },
        ..h
    }
}

// First those that it holds, then itself.
pub fn change_and_go<F: Fn(Enlistment) -> Enlistment>(h: Holding, becomes: F, state: u8) -> Holding
    requires { F.IsAlwaysCallable becomes }
    ensures { (f : Enlistment → Enlistment) → Computes (F.post becomes) f → result ≡ going state f h }
{
    go_to(change(h, becomes), state)
}

pub fn emptied(h: Holding) -> Holding
    ensures { result ≡ with_transaction (ended h.transaction) (with_held freed h) }
{
    Holding {
        transaction: places::no_transaction(),
        ..change(h, |_| places::no_enlistment())
    }
}

pub fn use_more(h: Holding, n: u32) -> Holding
    requires { h.used + n ≤ largest_number }
    ensures { result ≡ with_used (h.used + n) h }
{
    Holding {
        used: h.used + n,
        ..h
    }
}
