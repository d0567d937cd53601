// A resource manager's durable enlistments: which place holds one, and what becomes of those that failed to notify it.

#![tactic(auto)]

ghost use Rattle.std.specs.Prelude.{◌≡◌, not, ◌&&◌, map};
ghost use Rattle.lists.specs.Lists.{first_or};
ghost use Rattle.lists.specs.Places.{place_of};
ghost use Rattle.rules.specs.EnlistmentState.{failed_to_notify};
ghost use Rattle.rules.specs.Table.{no_enlistment, held, held_by, is_in, is_durable_of, with_enlistments};
ghost use Rattle.rules.specs.Events.{is_undone, told_again, done_for};
ghost use Rattle.holdings.specs.Holdings.{alone, with_held};

use holdings::Holding;
use rules::{Enlistment, Table, enlistment_state, kinds};

#[tactic(auto, using(rules::proofs::Identifiers::pointwise_same))]
fn is_durable_of(e: Enlistment, rm: [u8; 16]) -> bool
    ensures { result ≡ is_durable_of rm e }
{
    e.kind == kinds::DURABLE && e.rm.0 == rm
}

// One that isn't Done.
fn is_undone(e: Enlistment, rm: [u8; 16]) -> bool
    ensures { result ≡ is_undone rm e }
{
    is_durable_of(e, rm) && e.state != enlistment_state::DONE
}

fn is_undone_held(e: Enlistment, p: u8, rm: [u8; 16]) -> bool
    ensures { result ≡ (held_by p e && is_undone rm e) }
{
    e.holder == p && is_undone(e, rm)
}

fn is_elsewhere(e: Enlistment, rm: [u8; 16]) -> bool
    ensures { result ≡ (is_undone rm e && not (is_in failed_to_notify e)) }
{
    is_undone(e, rm) && e.state != enlistment_state::FAILED_TO_NOTIFY
}

// Of one that isn't Done and stands elsewhere than in Failed-to-notify, whichever transaction holds it.
// It answers 0 for no place, as the definition `place_of` has it, which its contract names.
pub fn place_elsewhere(table: Table, rm: [u8; 16]) -> u8
    ensures { result ≡ place_of (λ e. is_undone rm e && not (is_in failed_to_notify e)) table.enlistments }
{
    for (i, e) in table.enlistments.iter().enumerate() {
        if is_elsewhere(*e, rm) {
            return i as u8 + 1;
        }
    }
    0
}

// The first that it holds that isn't Done; an empty place if there is none.
// No Option: for none its contract's `first_or` has the empty enlistment.
pub fn undone(h: Holding, rm: [u8; 16]) -> Enlistment
    ensures { result ≡ first_or no_enlistment (is_undone rm) (held h.place (alone h)) }
{
    for e in &h.enlistments {
        if is_undone_held(*e, h.place, rm) {
            return *e;
        }
    }
    places::no_enlistment()
}

fn told_again(e: Enlistment, rm: [u8; 16]) -> Enlistment
    ensures { result ≡ told_again rm e }
{
    if is_undone(e, rm) && e.state == enlistment_state::FAILED_TO_NOTIFY {
        passes::in_state(e, enlistment_state::TOLD_COMMIT)
    } else {
        e
    }
}

// Ask: what failed to notify it is told again.
pub fn tell_again(h: Holding, rm: [u8; 16]) -> Holding
    ensures { result ≡ with_held (told_again rm) h }
{
    holdings::change(h, |e| told_again(e, rm))
}

fn done_for(e: Enlistment, rm: [u8; 16]) -> Enlistment
    ensures { result ≡ done_for rm e }
{
    if is_durable_of(e, rm) && e.state == enlistment_state::FAILED_TO_NOTIFY {
        passes::in_state(e, enlistment_state::DONE)
    } else {
        e
    }
}

// Re-enlisted: all that failed to notify it are Done, whichever transaction holds them.
// A loop of its own: over a table's array and without a test of the holder, unlike `holdings::change`.
pub fn all_done_for(table: Table, rm: [u8; 16]) -> Table
    ensures { result ≡ with_enlistments (map (done_for rm) table.enlistments) table }
{
    let mut u = table;
    for e in u.enlistments.iter_mut() {
        *e = done_for(*e, rm);
    }
    u
}
