// One pass over the enlistments of one transaction: what they are, and what becomes of each. p is the transaction's place.

#![tactic(auto)]

ghost use Rattle.std.specs.Prelude.{◌≡◌, cond, ◌<◌, ◌≤◌, length};
ghost use Rattle.rules.specs.Sizes.{enlistment_places};
ghost use Rattle.lists.specs.Lists.{filter};
ghost use Rattle.rules.specs.Table.{held, held_by, freed, in_state, on_number};
ghost use Rattle.rules.specs.Events.{zeroed_of, hears_abort, aborted_of, committed_of};
ghost use Rattle.passes.specs.Census.{census_of, more_of, counted_of, Below};

use rules::{Enlistment, Table, enlistment_state, kinds, marks};

// How many a transaction holds, and how many of them are such.
#[derive(Clone, Copy, Default)]
pub struct Census {
    pub held: u8,
    pub phase_zero: u8,
    pub durable: u8,
    pub marked: u8,
    pub preparing: u8,
    pub told_abort: u8,
    pub done: u8,
}

// One more if so.
pub fn more(n: u8, so: bool) -> u8
    requires { n < enlistment_places }
    ensures { result ≡ more_of so n }
{
    if so { n + 1 } else { n }
}

#[tactic(auto, unfolding(crate::specs::Census::counted_of))]
fn counted(c: Census, e: Enlistment) -> Census
    requires { Below enlistment_places c }
    ensures { result ≡ counted_of e c }
{
    Census {
        held: c.held + 1,
        phase_zero: more(c.phase_zero, e.kind == kinds::PHASE_ZERO),
        durable: more(c.durable, e.kind == kinds::DURABLE),
        marked: more(c.marked, e.mark == marks::YES),
        preparing: more(c.preparing, e.state == enlistment_state::PREPARING),
        told_abort: more(c.told_abort, e.state == enlistment_state::TOLD_ABORT),
        done: more(c.done, e.state == enlistment_state::DONE),
    }
}

pub fn counted_held(c: Census, e: Enlistment, p: u8) -> Census
    requires { Below enlistment_places c }
    ensures { result ≡ cond (held_by p e) (counted_of e c) c }
{
    if e.holder == p { counted(c, e) } else { c }
}

// Of some places, as many as a table has at most.
pub fn count_among(es: &[Enlistment], p: u8) -> Census
    requires { length es.now ≤ enlistment_places }
    ensures { result ≡ census_of (filter (held_by p) es.now) }
{
    let mut c = Census::default();
    for e in es {
        c = counted_held(c, *e, p);
    }
    c
}

#[tactic(auto, unfolding(rules::specs::Table::held))]
pub fn count_held(table: Table, p: u8) -> Census
    ensures { result ≡ census_of (held p table) }
{
    count_among(&table.enlistments, p)
}

// ---- What becomes of an enlistment.

pub fn in_state(e: Enlistment, state: u8) -> Enlistment
    ensures { result ≡ in_state state e }
{
    Enlistment { state, ..e }
}

// The one with this number.
pub fn freed_number(e: Enlistment, n: u32) -> Enlistment
    ensures { result ≡ on_number n freed e }
{
    if e.number == n {
        places::no_enlistment()
    } else {
        e
    }
}

pub fn number_becomes(e: Enlistment, n: u32, state: u8) -> Enlistment
    ensures { result ≡ on_number n (in_state state) e }
{
    if e.number == n { in_state(e, state) } else { e }
}

pub fn zeroed(e: Enlistment) -> Enlistment
    ensures { result ≡ zeroed_of e }
{
    if e.kind == kinds::PHASE_ZERO {
        in_state(e, enlistment_state::ZERO)
    } else {
        e
    }
}

pub fn hears_abort(e: Enlistment) -> bool
    ensures { result ≡ hears_abort e }
{
    0 < e.state && e.state <= enlistment_state::PREPARED
}

#[tactic(auto, unfolding(rules::specs::Events::aborted_of))]
pub fn aborted(e: Enlistment) -> Enlistment
    ensures { result ≡ aborted_of e }
{
    if hears_abort(e) {
        in_state(e, enlistment_state::TOLD_ABORT)
    } else if e.state == enlistment_state::PREPARED_LOST {
        in_state(e, enlistment_state::DONE)
    } else {
        e
    }
}

#[tactic(auto, unfolding(rules::specs::Events::committed_of))]
pub fn committed(e: Enlistment) -> Enlistment
    ensures { result ≡ committed_of e }
{
    match e.state {
        enlistment_state::PREPARED => in_state(e, enlistment_state::TOLD_COMMIT),
        enlistment_state::PREPARED_LOST => in_state(e, enlistment_state::FAILED_TO_NOTIFY),
        _ => e,
    }
}
