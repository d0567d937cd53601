// What the first two bytes of a record say: its kind, and its size.

#![tactic(auto)]

ghost use Rattle.std.specs.Prelude.{◌≡◌, ◌<◌, not, ◌||◌, eqb, MatchOption};
ghost use Rattle.rules.specs.Log.{size_of, commit_tag, forget_tag};

use rules::sizes;

pub const COMMIT: u8 = 1;

pub const FORGET: u8 = 2;

const HELD: u8 = sizes::HELD as u8;

const RECORD: usize = sizes::RECORD as usize;

const ENTRY: usize = sizes::ENTRY as usize;

// None if they begin none.
pub fn size_of(first: u8, second: u8) -> Option<usize>
    ensures { MatchOption result (size_of first second ≡ 0) (λ size. (size ≡ size_of first second) × (0 < size)) }
{
    match first {
        COMMIT => (1..=HELD)
            .contains(&second)
            .then_some(RECORD + ENTRY * (second as usize)),
        FORGET => (second == 0).then_some(RECORD),
        _ => None,
    }
}

pub fn begins_none(first: u8) -> bool
    ensures { result ≡ not (eqb first commit_tag || eqb first forget_tag) }
{
    !(first == COMMIT || first == FORGET)
}
