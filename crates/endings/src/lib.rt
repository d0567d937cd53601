// The end of a transaction, and its abort.

#![tactic(auto)]

ghost use Rattle.std.specs.Prelude.{◌≡◌, [], ◌+◌, ◌≤◌};
ghost use Rattle.rules.specs.Sizes.{signals_most};
ghost use Rattle.rules.specs.Log.{commit_size};
ghost use Rattle.rules.specs.Signals.{to_app, row_of};
ghost use Rattle.rules.specs.Events.{saying, end_of, end_if_done, abort_of};
ghost use Rattle.holdings.specs.Holdings.{alone};
ghost use Rattle.endings.specs.Gives.{Gives, Leaves, Ready};

use holdings::Holding;
use rules::{Name, Signals, transaction_state};

#[derive(Clone, Copy)]
pub struct Accepted {
    pub holding: Holding,
    pub signals: Signals,
}

pub fn quietly(h: Holding) -> Accepted
    ensures { result ≡ record { holding = h; signals = row_of [] } }
{
    Accepted {
        holding: h,
        signals: signals::to_none(),
    }
}

pub fn end(h: Holding, log: &mut [u8]) -> Holding
    requires { Ready h }
    ensures { Leaves h.place (end_of h.place (alone h) log.old) result log.new × (result.used ≤ h.used + commit_size signals_most) }
{
    let after = holdings::emptied(h);
    if holdings::is_open(h) {
        let size = log_writer::put_forget(log, after.used, h.transaction.id.0);
        holdings::use_more(after, size)
    } else {
        after
    }
}

pub fn end_if_done(h: Holding, log: &mut [u8]) -> Holding
    requires { Ready h }
    ensures { Leaves h.place (end_if_done h.place (alone h) log.old) result log.new }
{
    let census = holdings::count(h);
    if census.done == census.held {
        end(h, log)
    } else {
        h
    }
}

// The application is told how it ended.
pub fn end_with(h: Holding, name: Name, log: &mut [u8]) -> Accepted
    requires { Ready h }
    ensures { Gives h.place (saying (to_app name) (end_of h.place (alone h) log.old)) result log.new }
{
    Accepted {
        holding: end(h, log),
        signals: signals::to_one(name, 0),
    }
}

pub fn abort(h: Holding, log: &mut [u8]) -> Accepted
    requires { Ready h }
    ensures { Gives h.place (abort_of h.place (alone h) log.old) result log.new }
{
    let signals = signals::to_each_and_app(h, passes::hears_abort, Name::Abort, Name::AppAborted);
    let aborting = holdings::change_and_go(h, passes::aborted, transaction_state::ABORTING);
    Accepted {
        holding: end_if_done(aborting, log),
        signals,
    }
}
