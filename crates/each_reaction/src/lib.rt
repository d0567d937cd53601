// The reaction to each kind of event that the enlistment's state alone decides.

#![tactic(auto)]

ghost use Rattle.std.specs.Prelude.{◌≡◌, cond, ◌||◌, eqb};
ghost use Rattle.rules.specs.Events.{to_vote, to_reply};
ghost use Rattle.rules.specs.EnlistmentState as enlistment;
ghost use Rattle.rules.specs.declared.Reaction.TheVariants as reaction;
ghost use Rattle.rules.specs.declared.FollowUp.TheVariants as then;

use rules::{FollowUp, Name, Reaction, Reply, Vote, enlistment_state};

pub fn to_zero_done(state: u8) -> Reaction
    ensures { result ≡ cond (eqb state enlistment.zero) (reaction.Freed then.StartPhaseOne) reaction.Refused }
{
    if state == enlistment_state::ZERO {
        return Reaction::Freed(FollowUp::StartPhaseOne);
    }
    Reaction::Refused
}

fn to_vote(vote: Vote) -> Reaction
    ensures { result ≡ to_vote vote }
{
    match vote {
        Vote::Prepared => Reaction::Becomes(enlistment_state::PREPARED, FollowUp::Decide),
        Vote::ReadOnly => Reaction::Freed(FollowUp::Decide),
        Vote::Aborted => Reaction::Becomes(enlistment_state::DONE, FollowUp::Abort),
    }
}

pub fn to_vote_in(state: u8, vote: Vote) -> Reaction
    ensures { result ≡ cond (eqb state enlistment.preparing) (to_vote vote) reaction.Refused }
{
    if state == enlistment_state::PREPARING {
        return to_vote(vote);
    }
    Reaction::Refused
}

fn to_reply(reply: Reply) -> Name
    ensures { result ≡ to_reply reply }
{
    match reply {
        Reply::Committed => Name::AppCommitted,
        Reply::Aborted => Name::AppAborted,
        Reply::InDoubt => Name::AppInDoubt,
    }
}

pub fn to_reply_in(state: u8, reply: Reply) -> Reaction
    ensures { result ≡ cond (eqb state enlistment.one_phase) (reaction.Freed (then.EndWith (to_reply reply))) reaction.Refused }
{
    if state == enlistment_state::ONE_PHASE {
        return Reaction::Freed(FollowUp::EndWith(to_reply(reply)));
    }
    Reaction::Refused
}

pub fn to_ack(state: u8) -> Reaction
    ensures { result ≡ cond (eqb state enlistment.told_commit || eqb state enlistment.told_abort) (reaction.Becomes enlistment.done then.End) reaction.Refused }
{
    if state == enlistment_state::TOLD_COMMIT || state == enlistment_state::TOLD_ABORT {
        return Reaction::Becomes(enlistment_state::DONE, FollowUp::End);
    }
    Reaction::Refused
}
