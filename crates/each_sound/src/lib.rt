// What is asked of one enlistment, and of one transaction with the counts of what it holds.

#![tactic(auto)]

ghost use Rattle.std.specs.Prelude.{◌≡◌, not};
ghost use Rattle.rules.specs.Identifiers.{zero_id, same_bytes};
ghost use Rattle.rules.specs.Sound.{may_hold, is_known, is_identifier, is_number, is_zero_transaction, is_zero_enlistment};
ghost use Rattle.each_sound.specs.Each.{is_held_well, is_witness, must_count, is_counted_sound};

use rules::{Enlistment, Transaction, enlistment_state, kinds, marks, sizes, transaction_state};

// ---- One enlistment.

#[tactic(auto, unfolding(rules::specs::Sound::may_hold))]
fn may_hold(state: u8, e: Enlistment) -> bool
    ensures { result ≡ may_hold state e }
{
    let phase_zero = e.kind == kinds::PHASE_ZERO;
    let durable = e.kind == kinds::DURABLE;
    let s = e.state;
    match state {
        transaction_state::ACTIVE => s == enlistment_state::ACTIVE,
        transaction_state::PHASE_ZERO if phase_zero => s == enlistment_state::ZERO,
        transaction_state::PHASE_ZERO => s == enlistment_state::ACTIVE,
        transaction_state::PHASE_ONE => {
            let lost = s == enlistment_state::PREPARED_LOST && durable;
            !phase_zero
                && (s == enlistment_state::PREPARING || s == enlistment_state::PREPARED || lost)
        }
        transaction_state::SINGLE_PHASE => {
            !phase_zero && e.mark == marks::YES && s == enlistment_state::ONE_PHASE
        }
        transaction_state::COMMITTING => {
            let failed = s == enlistment_state::FAILED_TO_NOTIFY && durable;
            !phase_zero
                && (s == enlistment_state::TOLD_COMMIT || failed || s == enlistment_state::DONE)
        }
        transaction_state::ABORTING => {
            s == enlistment_state::TOLD_ABORT || s == enlistment_state::DONE
        }
        _ => false,
    }
}

pub fn is_zero_identifier(id: [u8; 16]) -> bool
    ensures { (result ≡ same_bytes id zero_id) × (not result ≡ is_identifier id) }
{
    identifiers::is_zero(id)
}

fn is_number(n: u32) -> bool
    ensures { result ≡ is_number n }
{
    n != 0
}

// bare: its RM is all zeros.
pub fn is_zero_enlistment(e: Enlistment, bare: bool) -> bool
    requires { bare ≡ same_bytes e.rm.0 zero_id }
    ensures { result ≡ is_zero_enlistment e }
{
    let named = basics::both(bare, e.number == 0);
    let kept = basics::both(e.kind == 0, basics::both(e.mark == 0, e.state == 0));
    basics::both(e.holder == 0, basics::both(named, kept))
}

fn is_known(e: Enlistment) -> bool
    ensures { result ≡ is_known e }
{
    let enlists = basics::either(e.kind == kinds::VOLATILE, e.kind == kinds::DURABLE);
    let named = basics::either(e.kind == kinds::PHASE_ZERO, enlists);
    basics::both(named, e.mark <= marks::YES)
}

// By a transaction in this state.
#[tactic(auto, unfolding(crate::specs::Each::is_held_well))]
pub fn is_held_well(e: Enlistment, bare: bool, state: u8) -> bool
    requires { not bare ≡ is_identifier e.rm.0 }
    ensures { result ≡ is_held_well state e }
{
    let named = !bare;
    let single = e.kind == kinds::PHASE_ZERO && e.mark == marks::YES;
    is_known(e) && named && is_number(e.number) && !single && may_hold(state, e)
}

#[tactic(auto, unfolding(crate::specs::Each::is_witness))]
pub fn is_witness(e: Enlistment, state: u8) -> bool
    ensures { result ≡ is_witness state e }
{
    match state {
        transaction_state::PHASE_ZERO => e.kind == kinds::PHASE_ZERO,
        transaction_state::PHASE_ONE => e.state == enlistment_state::PREPARING,
        transaction_state::COMMITTING => e.state != enlistment_state::DONE,
        transaction_state::ABORTING => e.state == enlistment_state::TOLD_ABORT,
        _ => false,
    }
}

// ---- One transaction.

// Of which so many are held, and so many are such as its state asks for.
#[tactic(auto, unfolding(crate::specs::Each::must_count))]
fn must_hold(state: u8, held: u8, witnesses: u8) -> bool
    ensures { result ≡ must_count state held witnesses }
{
    match state {
        transaction_state::ACTIVE => true,
        transaction_state::SINGLE_PHASE => held == 1,
        _ => witnesses != 0,
    }
}

fn is_zero_transaction(x: Transaction) -> bool
    ensures { result ≡ is_zero_transaction x }
{
    x.state == 0 && is_zero_identifier(x.id.0)
}

pub fn is_transaction_sound(x: Transaction, held: u8, witnesses: u8) -> bool
    ensures { result ≡ is_counted_sound held witnesses x }
{
    if x.state == 0 {
        return is_zero_transaction(x);
    }
    let most = sizes::HELD as u8;
    !is_zero_identifier(x.id.0) && must_hold(x.state, held, witnesses) && held <= most
}
