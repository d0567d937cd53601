// The reaction to a lost connection, by the enlistment's kind and state.

#![tactic(auto)]

ghost use Rattle.std.specs.Prelude.{◌≡◌, cond};
ghost use Rattle.rules.specs.Table.{durable_kind};
ghost use Rattle.rules.specs.Events.{to_lost};
ghost use Rattle.rules.specs.EnlistmentState as enlistment;
ghost use Rattle.rules.specs.declared.Reaction.TheVariants as reaction;
ghost use Rattle.rules.specs.declared.FollowUp.TheVariants as then;

use rules::{FollowUp, Name, Reaction, enlistment_state, kinds};

fn to_lost_prepared(kind: u8) -> Reaction
    ensures { result ≡ cond (durable_kind kind) (reaction.Becomes enlistment.prepared_lost then.Nothing) (reaction.Becomes enlistment.done then.Abort) }
{
    let lost = Reaction::Becomes(enlistment_state::PREPARED_LOST, FollowUp::Nothing);
    let no = Reaction::Becomes(enlistment_state::DONE, FollowUp::Abort);
    if kind == kinds::DURABLE { lost } else { no }
}

fn to_lost_told(kind: u8) -> Reaction
    ensures { result ≡ cond (durable_kind kind) (reaction.Becomes enlistment.failed_to_notify then.Nothing) (reaction.Becomes enlistment.done then.End) }
{
    let failed = Reaction::Becomes(enlistment_state::FAILED_TO_NOTIFY, FollowUp::Nothing);
    let done = Reaction::Becomes(enlistment_state::DONE, FollowUp::End);
    if kind == kinds::DURABLE { failed } else { done }
}

#[tactic(auto, unfolding(rules::specs::Events::to_lost))]
pub fn to_lost(kind: u8, state: u8) -> Reaction
    ensures { result ≡ to_lost kind state }
{
    match state {
        enlistment_state::ACTIVE | enlistment_state::ZERO | enlistment_state::PREPARING =>
            Reaction::Becomes(enlistment_state::DONE, FollowUp::Abort),
        enlistment_state::PREPARED => to_lost_prepared(kind),
        enlistment_state::ONE_PHASE => Reaction::Freed(FollowUp::EndWith(Name::AppInDoubt)),
        enlistment_state::TOLD_COMMIT => to_lost_told(kind),
        enlistment_state::TOLD_ABORT => Reaction::Becomes(enlistment_state::DONE, FollowUp::End),
        _ => Reaction::Refused,
    }
}
