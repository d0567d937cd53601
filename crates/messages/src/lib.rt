// The eight messages, read and written (document 01, 'The eight messages'; source document 000, section 2.2.4.1).

#![tactic(auto)]

ghost use Rattle.std.specs.Prelude.{◌≡◌, true, ◌+◌, ◌≤◌, length};
ghost use Rattle.std.proofs.lemmas.List.Edits.{sets};
ghost use Rattle.rules.specs.Sizes.{identifier_size, message_header_size};
ghost use Rattle.rules.specs.Messages.{payload_of, identifier_in, where_there, is_message, message_in, payload_bytes, read_answer, written_answer};
ghost use Rattle.messages.specs.Promises.{IsReading, IsWriting, header_bytes};

use message_fields::{
    CONNECTION_AT, LENGTH_AT, MASTER_AT, PAYLOAD_AT, RESERVED_AT, SESSION_AT, TAG_AT, TYPE_AT,
};
use message_types::{MANAGER, TRANSACTION};
use rules::sizes::IDENTIFIER;
use rules::{Message, Refusal, RmId, SessionId, TxId, message_type, sizes};

// ---- The reader.

// Zeros where the message has no such field.
fn identifier_where(there: bool, bytes: &[u8], start: usize) -> [u8; IDENTIFIER]
    requires { there ≡ true → start + identifier_size ≤ length bytes.now }
    ensures { result ≡ where_there there (identifier_in start bytes.now) }
{
    if there {
        message_fields::identifier_at(bytes, start)
    } else {
        [0u8; IDENTIFIER]
    }
}

fn message_in(bytes: &[u8]) -> Message
    requires { is_message bytes.now ≡ true }
    ensures { result ≡ message_in bytes.now }
{
    let kind = message_fields::field_at(bytes, TYPE_AT);
    let payload = message_types::payload_of(kind).unwrap_or(0);
    let transaction = payload == TRANSACTION;
    let manager = payload == MANAGER;
    Message {
        master: message_fields::field_at(bytes, MASTER_AT),
        connection: message_fields::field_at(bytes, CONNECTION_AT),
        kind,
        reserved: message_fields::field_at(bytes, RESERVED_AT),
        tx: TxId(identifier_where(transaction, bytes, PAYLOAD_AT)),
        rm: RmId(identifier_where(manager, bytes, PAYLOAD_AT)),
        session: SessionId(identifier_where(manager, bytes, SESSION_AT)),
    }
}

// Laws of rules/proofs/MessageLaws.antt: an accepted message writes back to its own bytes (accepted_writes_back); what is accepted is
// what the writer writes, and nothing else (accepted_is_written, written_is_accepted); any other bytes are refused, by 14 and the all-zero
// message of document 01 (read_refused). Two results that meet the promise are equal: proofs/Coincide.antt, read_results_coincide.
pub fn read_message(bytes: &[u8]) -> Result<Message, Refusal>
    ensures { IsReading bytes.now (read_answer result) }
{
    if !message_tests::is_message(bytes) {
        return Err(Refusal::BadMessage);
    }
    Ok(message_in(bytes))
}

// ---- The writer.

fn put_header(memory: &mut [u8], message: Message, payload: u32)
    requires { message_header_size ≤ length memory.old }
    ensures { memory.new ≡ sets memory.old 0 (header_bytes message payload) }
{
    message_fields::put_field(memory, TAG_AT, message_type::TAG);
    message_fields::put_field(memory, MASTER_AT, message.master);
    message_fields::put_field(memory, CONNECTION_AT, message.connection);
    message_fields::put_field(memory, TYPE_AT, message.kind);
    message_fields::put_field(memory, LENGTH_AT, payload);
    message_fields::put_field(memory, RESERVED_AT, message.reserved);
}

fn put_payload(memory: &mut [u8], message: Message, payload: u32)
    requires { (payload ≡ payload_of message.kind) × (message_header_size + payload ≤ length memory.old) }
    ensures { (memory.new ≡ sets memory.old message_header_size (payload_bytes message)) × (length (payload_bytes message) ≡ payload) }
{
    if payload == MANAGER {
        message_fields::put_identifier(memory, PAYLOAD_AT, message.rm.0);
        message_fields::put_identifier(memory, SESSION_AT, message.session.0);
    } else if payload == TRANSACTION {
        message_fields::put_identifier(memory, PAYLOAD_AT, message.tx.0);
    }
}

// Laws of rules/proofs/MessageLaws.antt: a written message reads back to itself (written_reads_back); what is accepted has the room
// (accepted_has_room) and is what the reader gives, and nothing else is accepted (accepted_is_read, read_is_accepted); any other call
// is refused, by 14 and length 0 of document 01, with the memory as it was (write_refused). Two results that meet the promise are equal:
// proofs/Coincide.antt, written_results_coincide.
pub fn write_message(message: Message, memory: &mut [u8]) -> Result<usize, Refusal>
    ensures { IsWriting message memory.old (written_answer result) memory.new }
{
    let payload = message_types::payload_of(message.kind).unwrap_or(0);
    let length = sizes::MESSAGE_HEADER + payload as usize;
    if !message_tests::fits(message, length, memory.len()) {
        return Err(Refusal::BadMessage);
    }
    put_header(memory, message, payload);
    put_payload(memory, message, payload);
    Ok(length)
}
