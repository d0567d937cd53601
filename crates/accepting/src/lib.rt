// What an event that is not refused does: the new enlistment of Enlist, the events about one enlistment, and Ask.

#![tactic(auto)]

ghost use Rattle.std.specs.Prelude.{◌≡◌, cond, List, [], ◌∷◌, ℕ};
ghost use Rattle.rules.specs.declared.FollowUp.TheVariants as then;
ghost use Rattle.rules.specs.declared.Name.TheVariants as name;
ghost use Rattle.rules.specs.Signals.{signal, row_of};
ghost use Rattle.rules.specs.Events.{zero_at_once, new_enlistment, reaction_of, follow, react, ask_of};
ghost use Rattle.holdings.specs.Holdings.{alone, Placed};
ghost use Rattle.endings.specs.Gives.{Gives, Ready};

use endings::Accepted;
use holdings::Holding;
use rules::{
    Act, Enlistment, FollowUp, Kind, Mark, Name, Reaction, RmId, Signals, enlistment_state, kinds,
    transaction_state,
};

fn is_zero_at_once(kind: Kind, state: u8) -> bool
    ensures { result ≡ zero_at_once kind state }
{
    reactions::kind_of(kind) == kinds::PHASE_ZERO && state == transaction_state::PHASE_ZERO
}

#[derive(Clone, Copy)]
pub struct Enlisted {
    pub enlistment: Enlistment,
    pub signals: Signals,
}

// The new enlistment of the transaction at place p, which is in this state, and what it is told.
pub fn entry(p: u8, state: u8, n: u32, rm: [u8; 16], kind: Kind, mark: Mark) -> Enlisted
    ensures { (result.enlistment ≡ new_enlistment p state n rm kind mark) × (result.signals ≡ row_of (cond (zero_at_once kind state) (signal name.Zero n ∷ []) [])) }
{
    let (first, signals) = if is_zero_at_once(kind, state) {
        (enlistment_state::ZERO, signals::to_one(Name::Zero, n))
    } else {
        (enlistment_state::ACTIVE, signals::to_none())
    };
    Enlisted {
        enlistment: Enlistment {
            holder: p,
            rm: RmId(rm),
            number: n,
            kind: reactions::kind_of(kind),
            mark: reactions::mark_of(kind, mark),
            state: first,
        },
        signals,
    }
}

fn phase_one_if_ready(h: Holding, log: &mut [u8]) -> Accepted
    requires { Ready h }
    ensures { Gives h.place (follow then.StartPhaseOne h.place (alone h) log.old) result log.new }
{
    let census = holdings::count(h);
    if census.phase_zero == 0 {
        deciding::start_phase_one(h, log)
    } else {
        endings::quietly(h)
    }
}

fn decide_if_ready(h: Holding, log: &mut [u8]) -> Accepted
    requires { Ready h }
    ensures { Gives h.place (follow then.Decide h.place (alone h) log.old) result log.new }
{
    let census = holdings::count(h);
    if census.preparing == 0 {
        deciding::decide(h, log)
    } else {
        endings::quietly(h)
    }
}

fn end_quietly(h: Holding, log: &mut [u8]) -> Accepted
    requires { Ready h }
    ensures { Gives h.place (follow then.End h.place (alone h) log.old) result log.new }
{
    endings::quietly(endings::end_if_done(h, log))
}

fn follow(f: FollowUp, h: Holding, log: &mut [u8]) -> Accepted
    requires { Ready h }
    ensures { Gives h.place (follow f h.place (alone h) log.old) result log.new }
{
    match f {
        FollowUp::Nothing => endings::quietly(h),
        FollowUp::StartPhaseOne => phase_one_if_ready(h, log),
        FollowUp::Decide => decide_if_ready(h, log),
        FollowUp::End => end_quietly(h, log),
        FollowUp::Abort => endings::abort(h, log),
        FollowUp::EndWith(name) => endings::end_with(h, name, log),
    }
}

fn react(r: Reaction, n: u32, h: Holding, log: &mut [u8]) -> Accepted
    requires { Ready h }
    ensures { Gives h.place (react r h.place n (alone h) log.old) result log.new }
{
    match r {
        Reaction::Refused => endings::quietly(h),
        Reaction::Freed(f) => {
            let after = holdings::change(h, |e| passes::freed_number(e, n));
            follow(f, after, log)
        }
        Reaction::Becomes(state, f) => {
            let after = holdings::change(h, |e| passes::number_becomes(e, n, state));
            follow(f, after, log)
        }
    }
}

// The event act, about the enlistment with number n, of this kind and in this state.
pub fn reacted(n: u32, act: Act, kind: u8, state: u8, h: Holding, log: &mut [u8]) -> Accepted
    requires { Ready h }
    ensures { Gives h.place (react (reaction_of kind state act) h.place n (alone h) log.old) result log.new }
{
    react(reactions::reaction(kind, state, act), n, h, log)
}

pub fn ask(h: Holding, rm: [u8; 16]) -> Accepted
    requires { Placed h.place }
    ensures { (log : List ℕ) → Gives h.place (ask_of h.place rm (alone h) log) result log }
{
    let e = managers::undone(h, rm);
    match h.transaction.state {
        0 | transaction_state::ABORTING => Accepted {
            holding: h,
            signals: signals::to_one(Name::AnswerAborted, 0),
        },
        transaction_state::COMMITTING => Accepted {
            holding: managers::tell_again(h, rm),
            signals: signals::to_one(Name::AnswerCommitted, e.number),
        },
        _ => Accepted {
            holding: h,
            signals: signals::to_one(Name::AnswerNotYet, e.number),
        },
    }
}
