// The types of the eight messages, and the length of the payload of each.

#![tactic(auto)]

ghost use Rattle.std.specs.Prelude.{◌≡◌};
ghost use Rattle.std.specs.Option.{is_some, unwrap_or};
ghost use Rattle.rules.specs.Messages.{is_type, payload_of};

use rules::{message_type, sizes};

#[derive(Clone, Copy)]
struct MessageType {
    kind: u32,
    payload: u32,
}

// Payload lengths: none, a transaction, a resource manager and its session.
const NOTHING: u32 = 0;

pub const TRANSACTION: u32 = sizes::IDENTIFIER as u32;

pub const MANAGER: u32 = 2 * TRANSACTION;

// The eight, with their payload lengths: the reader and the writer go by it.
const TYPES: [MessageType; 8] = [
    MessageType {
        kind: message_type::CREATE_RM,
        payload: MANAGER,
    },
    MessageType {
        kind: message_type::COMMIT_REQUEST,
        payload: TRANSACTION,
    },
    MessageType {
        kind: message_type::CHECK_ABORT,
        payload: TRANSACTION,
    },
    MessageType {
        kind: message_type::BRANCH,
        payload: TRANSACTION,
    },
    MessageType {
        kind: message_type::COMMIT_REQUEST_DONE,
        payload: NOTHING,
    },
    MessageType {
        kind: message_type::COMMIT_RETRY,
        payload: NOTHING,
    },
    MessageType {
        kind: message_type::CHECK_ABORTED,
        payload: NOTHING,
    },
    MessageType {
        kind: message_type::CHECK_RETRY,
        payload: NOTHING,
    },
];

// None of a type that is none of the eight.
pub fn payload_of(kind: u32) -> Option<u32>
    ensures { (is_some result ≡ is_type kind) × (unwrap_or result 0 ≡ payload_of kind) }
{
    TYPES
        .iter()
        .find(|row| row.kind == kind)
        .map(|row| row.payload)
}
