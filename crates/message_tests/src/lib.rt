// Whether bytes are a message, and whether a message can be written so that it reads back.

#![tactic(auto)]

ghost use Rattle.std.specs.Prelude.{◌≡◌, ◌&&◌, leb};
ghost use Rattle.rules.specs.Identifiers.{zero_id, same_bytes};
ghost use Rattle.rules.specs.Messages.{is_message, is_writable};

use message_fields::{LENGTH_AT, MASTER_AT, TAG_AT, TYPE_AT};
use message_types::{MANAGER, TRANSACTION};
use rules::sizes::IDENTIFIER;
use rules::{Message, message_type, sizes};

#[tactic(auto, unfolding(rules::specs::Messages::is_message, lists::specs::Lists::every))]
pub fn is_message(bytes: &[u8]) -> bool
    ensures { result ≡ is_message bytes.now }
{
    if bytes.len() < sizes::MESSAGE_HEADER {
        return false;
    }
    let tagged = message_fields::field_at(bytes, TAG_AT) == message_type::TAG;
    let directed = message_fields::field_at(bytes, MASTER_AT) <= 1;
    let kind = message_fields::field_at(bytes, TYPE_AT);
    let Some(payload) = message_types::payload_of(kind) else {
        return false;
    };
    let declared = message_fields::field_at(bytes, LENGTH_AT) == payload;
    let whole = bytes.len() == sizes::MESSAGE_HEADER + payload as usize;
    tagged && directed && declared && whole
}

fn is_zero(id: [u8; IDENTIFIER]) -> bool
    ensures { result ≡ same_bytes id zero_id }
{
    identifiers::same(id, [0; IDENTIFIER])
}

#[tactic(auto, unfolding(rules::specs::Messages::is_writable, lists::specs::Lists::every))]
fn is_writable(message: Message) -> bool
    ensures { result ≡ is_writable message }
{
    let Some(payload) = message_types::payload_of(message.kind) else {
        return false;
    };
    let directed = message.master <= 1;
    let tx_fits = payload == TRANSACTION || is_zero(message.tx.0);
    let rm_fits = payload == MANAGER || is_zero(message.rm.0);
    let session_fits = payload == MANAGER || is_zero(message.session.0);
    directed && tx_fits && rm_fits && session_fits
}

pub fn fits(message: Message, size: usize, room: usize) -> bool
    ensures { result ≡ (is_writable message && leb size room) }
{
    is_writable(message) && size <= room
}
