// What an event about one enlistment does to it, by its kind and state, and what follows; and the kind and the mark
// that are stored of a new one.

#![tactic(auto)]

ghost use Rattle.std.specs.Prelude.{◌≡◌};
ghost use Rattle.rules.specs.Events.{reaction_of};

pub use event_numbers::{kind_of, mark_of, refusal_of};
use rules::{Act, Reaction};

#[tactic(auto, unfolding(rules::specs::Events::reaction_of))]
pub fn reaction(kind: u8, state: u8, act: Act) -> Reaction
    ensures { result ≡ reaction_of kind state act }
{
    match act {
        Act::ZeroDone(_) => each_reaction::to_zero_done(state),
        Act::Vote(_, vote) => each_reaction::to_vote_in(state, vote),
        Act::Reply(_, reply) => each_reaction::to_reply_in(state, reply),
        Act::Ack(_) => each_reaction::to_ack(state),
        Act::Lost(_) => lost_reaction::to_lost(kind, state),
        Act::Begin
        | Act::Enlist(_, _, _)
        | Act::Commit
        | Act::Rollback
        | Act::Ask
        | Act::Reenlisted => Reaction::Refused,
    }
}
