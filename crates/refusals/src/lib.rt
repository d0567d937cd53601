// Why an event is refused: the first check that applies, in the order of document 01. The caller looks up what a check asks of the table: proofs/Found.antt says that the answer is then the table's own.

#![tactic(auto, unfolding(rules::specs::Refusals::first_of))]

ghost use Rattle.std.specs.Prelude.{◌≡◌, ◌&&◌, ◌||◌, eqb, leb};
ghost use Rattle.rules.specs.Sizes.{held_most};
ghost use Rattle.rules.specs.Identifiers.{is_zero};
ghost use Rattle.rules.specs.Table.{durable_kind};
ghost use Rattle.rules.specs.Events.{reaction_of, is_over};
ghost use Rattle.rules.specs.RefusalNumber.{answer_number};
ghost use Rattle.rules.specs.Refusals.{first_of};
ghost use Rattle.rules.specs.Checks as checks;
ghost use Rattle.rules.specs.Checks.{is_early};

use rules::{Act, Enlistment, Refusal, kinds, refusal_number, sizes, transaction_state};

// A count is a byte.
const HELD: u8 = sizes::HELD as u8;

fn is_either_zero(a: [u8; 16], b: [u8; 16]) -> bool
    ensures { result ≡ (is_zero a || is_zero b) }
{
    identifiers::is_zero(a) || identifiers::is_zero(b)
}

// Active or Phase Zero.
fn is_early(state: u8) -> bool
    ensures { result ≡ is_early state }
{
    state == transaction_state::ACTIVE || state == transaction_state::PHASE_ZERO
}

fn is_over(state: u8) -> bool
    ensures { result ≡ is_over state }
{
    state == 0 || state == transaction_state::ABORTING
}

// Whether Enlist finds its number held, or a second durable enlistment of its resource manager in the transaction.
pub fn is_already_held(held: bool, second: bool, kind: u8) -> bool
    ensures { result ≡ (held || (durable_kind kind && second)) }
{
    held || kind == kinds::DURABLE && second
}

// Whether no place is vacant, or the transaction holds as many as it may.
pub fn is_full(vacant: u8, held: u8) -> bool
    ensures { result ≡ (eqb vacant 0 || leb held_most held) }
{
    vacant == 0 || HELD <= held
}

// The checks that are every event's: where none applies, those of the event are left.
pub fn first(sound: bool, lent: usize, capacity: u32) -> Result<(), Refusal>
    ensures { answer_number result ≡ first_of (checks.first sound lent capacity) }
{
    if !sound {
        return Err(Refusal::NotSound);
    }
    if lent != capacity as usize {
        return Err(Refusal::LogLength);
    }
    Ok(())
}

pub fn begin(id: [u8; 16], named: u8, free: u8) -> Result<(), Refusal>
    ensures { answer_number result ≡ first_of (checks.begin id named (eqb free 0)) }
{
    if identifiers::is_zero(id) {
        return Err(Refusal::ZeroNamed);
    }
    if named != 0 {
        return Err(Refusal::AlreadyLive);
    }
    if free == 0 {
        return Err(Refusal::Full);
    }
    Ok(())
}

pub fn enlist(
    id: [u8; 16],
    rm: [u8; 16],
    n: u32,
    named: u8,
    state: u8,
    already: bool,
    full: bool,
) -> Result<(), Refusal>
    ensures { answer_number result ≡ first_of (checks.enlist id rm n named state already full) }
{
    if is_either_zero(id, rm) || n == 0 {
        return Err(Refusal::ZeroNamed);
    }
    if named == 0 {
        return Err(Refusal::NotLive);
    }
    if !is_early(state) {
        return Err(Refusal::TransactionState);
    }
    if already {
        return Err(Refusal::AlreadyHeld);
    }
    if full {
        return Err(Refusal::Full);
    }
    Ok(())
}

pub fn commit(id: [u8; 16], named: u8, state: u8) -> Result<(), Refusal>
    ensures { answer_number result ≡ first_of (checks.commit id named state) }
{
    if identifiers::is_zero(id) {
        return Err(Refusal::ZeroNamed);
    }
    if named == 0 {
        return Err(Refusal::NotLive);
    }
    if state != transaction_state::ACTIVE {
        return Err(Refusal::TransactionState);
    }
    Ok(())
}

pub fn rollback(id: [u8; 16], named: u8, state: u8) -> Result<(), Refusal>
    ensures { answer_number result ≡ first_of (checks.rollback id named state) }
{
    if identifiers::is_zero(id) {
        return Err(Refusal::ZeroNamed);
    }
    if named == 0 {
        return Err(Refusal::NotLive);
    }
    if !is_early(state) {
        return Err(Refusal::TransactionState);
    }
    Ok(())
}

// Of an event about the enlistment with number n: e is what was found by it.
pub fn about_one(n: u32, act: Act, e: Enlistment) -> Result<(), Refusal>
    ensures { answer_number result ≡ first_of (checks.about_one n (eqb e.number n) (reaction_of e.kind e.state act)) }
{
    if n == 0 {
        return Err(Refusal::ZeroNamed);
    }
    if e.number != n {
        return Err(Refusal::NotHeld);
    }
    let reaction = reactions::reaction(e.kind, e.state, act);
    if reactions::refusal_of(reaction) != refusal_number::ACCEPTED {
        return Err(Refusal::EnlistmentState);
    }
    Ok(())
}

// `lacks`: the transaction has no durable enlistment of the resource manager that isn't Done.
pub fn ask(id: [u8; 16], rm: [u8; 16], state: u8, lacks: bool) -> Result<(), Refusal>
    ensures { answer_number result ≡ first_of (checks.ask id rm state lacks) }
{
    if is_either_zero(id, rm) {
        return Err(Refusal::ZeroNamed);
    }
    if !is_over(state) && lacks {
        return Err(Refusal::NoSuchDurable);
    }
    Ok(())
}

// `elsewhere`: one that isn't Done stands elsewhere than in Failed-to-notify.
pub fn reenlisted(rm: [u8; 16], elsewhere: bool) -> Result<(), Refusal>
    ensures { answer_number result ≡ first_of (checks.reenlisted rm elsewhere) }
{
    if identifiers::is_zero(rm) {
        return Err(Refusal::ZeroNamed);
    }
    if elsewhere {
        return Err(Refusal::NotFailedToNotify);
    }
    Ok(())
}
