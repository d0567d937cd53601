// The number dispenser, a small record the host lends: a step by value, and one thin function over it that moves the record on in place.

#![tactic(auto)]

ghost use Rattle.std.specs.Prelude.{◌≡◌};
ghost use Rattle.rules.specs.Dispenser.{number_after, largest_in, dispenser_of, taken_of};

use rules::{Dispenser, Table, Taken};

// The number that follows, 0 behind the largest, which is the largest of 32 bits.
fn number_after(n: u32) -> u32
    ensures { result ≡ number_after n }
{
    n.checked_add(1).unwrap_or(0)
}

// The number given, and the dispenser that goes on behind it; one that gave the largest gives 0 and stays.
// By value, since the forms of document 01 ask for a thin function in place over such a step.
#[tactic(auto, unfolding(rules::specs::Dispenser::taken_of))]
pub fn take_step(d: Dispenser) -> Taken
    ensures { result ≡ taken_of d }
{
    let n = d.next;
    let next = if n == 0 { 0 } else { number_after(n) };
    Taken {
        number: n,
        dispenser: Dispenser { next },
    }
}

// The host's function: the step behind a `&mut`.
pub fn take_number(d: &mut Dispenser) -> u32
    ensures { (result ≡ (taken_of d.old).number) × (d.new ≡ (taken_of d.old).dispenser) }
{
    let t = take_step(*d);
    *d = t.dispenser;
    t.number
}

// Of all places, the empty ones too.
fn largest(table: Table) -> u32
    ensures { result ≡ largest_in table.enlistments }
{
    table
        .enlistments
        .iter()
        .map(|e| e.number)
        .max()
        .unwrap_or(0)
}

// After a restart, from its table, which holds the entries of the open records.
#[tactic(auto, unfolding(rules::specs::Dispenser::dispenser_of))]
pub fn dispenser_after(table: Table) -> Dispenser
    ensures { result ≡ dispenser_of table }
{
    let most = largest(table);
    Dispenser {
        next: number_after(most),
    }
}
