// Commit, from its first phase to the decision.

#![tactic(auto)]

ghost use Rattle.std.specs.Prelude.{◌≡◌, ◌&&◌, List, ℕ, eqb};
ghost use Rattle.rules.specs.TransactionState as transaction;
ghost use Rattle.rules.specs.Table.{held, id_at, go_to, change_held, in_state};
ghost use Rattle.rules.specs.Signals.{to_each, row_of};
ghost use Rattle.rules.specs.Events.{quietly, saying, append, commit_record, commit_signals, committed_of, committing, lacks_room, decide_of, start_phase_one, commit_of};
ghost use Rattle.holdings.specs.Holdings.{alone, Placed, going};
ghost use Rattle.endings.specs.Gives.{Gives, Ready};

use endings::Accepted;
use holdings::Holding;
use rules::{Name, Signals, enlistment_state, kinds, sizes, transaction_state};

// For a commit record of n entries, and the forget records of this transaction and of the open ones. Those of the others are off the capacity already.
fn lacks_room(h: Holding, n: u8) -> bool
    requires { Placed h.place }
    ensures { result ≡ lacks_room n (alone h) }
{
    let open = passes::more(0, holdings::is_open(h));
    let needs = sizes::RECORD + sizes::ENTRY * (n as u32) + sizes::RECORD * (1 + (open as u32));
    h.capacity.saturating_sub(h.used) < needs
}

fn committing(h: Holding) -> Holding
    ensures { result ≡ going transaction.committing committed_of h }
{
    holdings::change_and_go(h, passes::committed, transaction_state::COMMITTING)
}

fn commit_signals(h: Holding) -> Signals
    ensures { result ≡ row_of (commit_signals (held h.place (alone h))) }
{
    signals::to_each_and_app(
        h,
        |e| e.state == enlistment_state::PREPARED,
        Name::Commit,
        Name::AppCommitted,
    )
}

fn commit_unlogged(h: Holding) -> Accepted
    ensures { (log : List ℕ) → Gives h.place (saying (commit_signals (held h.place (alone h))) (quietly (committing h.place (alone h)) log)) result log }
{
    Accepted {
        holding: committing(h),
        signals: commit_signals(h),
    }
}

fn commit_logged(h: Holding, log: &mut [u8]) -> Accepted
    requires { Ready h }
    ensures { Gives h.place
        (saying (commit_signals (held h.place (alone h))) (append (commit_record (id_at h.place (alone h)) (held h.place (alone h))) (committing h.place (alone h)) log.old))
        result log.new }
{
    let entries = signals::line_up(h, |e| e.kind == kinds::DURABLE);
    let told = committing(h);
    let size = log_writer::put_commit(log, told.used, h.transaction.id.0, entries);
    Accepted {
        holding: holdings::use_more(told, size),
        signals: commit_signals(h),
    }
}

pub fn decide(h: Holding, log: &mut [u8]) -> Accepted
    requires { Ready h }
    ensures { Gives h.place (decide_of h.place (alone h) log.old) result log.new }
{
    let census = holdings::count(h);
    if census.held == 0 {
        endings::end_with(h, Name::AppCommitted, log)
    } else if census.durable == 0 {
        commit_unlogged(h)
    } else if lacks_room(h, census.durable) {
        endings::abort(h, log)
    } else {
        commit_logged(h, log)
    }
}

// Each that it holds is told the same and goes to the same state.
fn all_go(h: Holding, name: Name, each: u8, state: u8) -> Accepted
    ensures { (log : List ℕ) → Gives h.place (saying (to_each name (held h.place (alone h))) (quietly (go_to h.place state (change_held h.place (in_state each) (alone h))) log)) result log }
{
    Accepted {
        holding: holdings::change_and_go(h, |e| passes::in_state(e, each), state),
        signals: signals::to_each(h, |_| true, name),
    }
}

fn is_single(held: u8, marked: u8) -> bool
    ensures { result ≡ (eqb held 1 && eqb marked held) }
{
    held == 1 && marked == held
}

pub fn start_phase_one(h: Holding, log: &mut [u8]) -> Accepted
    requires { Ready h }
    ensures { Gives h.place (start_phase_one h.place (alone h) log.old) result log.new }
{
    let census = holdings::count(h);
    if census.held == 0 {
        endings::end_with(h, Name::AppCommitted, log)
    } else if is_single(census.held, census.marked) {
        all_go(
            h,
            Name::Single,
            enlistment_state::ONE_PHASE,
            transaction_state::SINGLE_PHASE,
        )
    } else {
        all_go(
            h,
            Name::Prepare,
            enlistment_state::PREPARING,
            transaction_state::PHASE_ONE,
        )
    }
}

pub fn commit(h: Holding, log: &mut [u8]) -> Accepted
    requires { Ready h }
    ensures { Gives h.place (commit_of h.place (alone h) log.old) result log.new }
{
    let census = holdings::count(h);
    if census.phase_zero == 0 {
        return start_phase_one(h, log);
    }
    Accepted {
        holding: holdings::change_and_go(h, passes::zeroed, transaction_state::PHASE_ZERO),
        signals: signals::to_each(h, |e| e.kind == kinds::PHASE_ZERO, Name::Zero),
    }
}
