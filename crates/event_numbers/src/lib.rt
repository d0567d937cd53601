// The paper's numbers: the kind and the mark that are stored of a new enlistment, and the refusal of a reaction.

#![tactic(auto)]

ghost use Rattle.std.specs.Prelude.{◌≡◌};
ghost use Rattle.rules.specs.Events.{kind_of, mark_of};
ghost use Rattle.rules.specs.Refusals.{reaction_refusal};

use rules::{Kind, Mark, Reaction, marks, refusal_number};

pub fn kind_of(kind: Kind) -> u8
    ensures { result ≡ kind_of kind }
{
    u8::from(kind)
}

pub fn mark_of(kind: Kind, mark: Mark) -> u8
    ensures { result ≡ mark_of kind mark }
{
    match kind {
        Kind::PhaseZero => marks::NO,
        Kind::Volatile | Kind::Durable => u8::from(mark),
    }
}

// A number and no Option of a refusal, as document 01 has it of a reaction (`reaction_refusal`): 7, or 0 for none.
pub fn refusal_of(r: Reaction) -> u8
    ensures { result ≡ reaction_refusal r }
{
    match r {
        Reaction::Refused => refusal_number::ENLISTMENT_STATE,
        Reaction::Freed(_) => refusal_number::ACCEPTED,
        Reaction::Becomes(_, _) => refusal_number::ACCEPTED,
    }
}
