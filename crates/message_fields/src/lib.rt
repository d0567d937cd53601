// The fields of a message: six of 32 bits, low byte first, and then identifiers.

#![tactic(auto)]

ghost use Rattle.std.specs.Prelude.{◌≡◌, ◌+◌, ◌≤◌, length};
ghost use Rattle.std.proofs.lemmas.List.Edits.{sets};
ghost use Rattle.rules.specs.Sizes.{identifier_size};
ghost use Rattle.rules.specs.Log.{low4};
ghost use Rattle.rules.specs.Messages.{field_at, identifier_in};

use rules::sizes;
use rules::sizes::IDENTIFIER;

// ---- Where they start. The payload is a transaction, or a resource manager and then its session.

pub const TAG_AT: usize = 0;

pub const MASTER_AT: usize = 4;

pub const CONNECTION_AT: usize = 8;

pub const TYPE_AT: usize = 12;

pub const LENGTH_AT: usize = 16;

pub const RESERVED_AT: usize = 20;

pub const PAYLOAD_AT: usize = sizes::MESSAGE_HEADER;

pub const SESSION_AT: usize = PAYLOAD_AT + IDENTIFIER;

// ---- Read.

pub fn field_at(bytes: &[u8], start: usize) -> u32
    requires { start + 4 ≤ length bytes.now }
    ensures { result ≡ field_at start bytes.now }
{
    basics::number_of(
        bytes[start],
        bytes[start + 1],
        bytes[start + 2],
        bytes[start + 3],
    )
}

pub fn identifier_at(bytes: &[u8], start: usize) -> [u8; IDENTIFIER]
    requires { start + identifier_size ≤ length bytes.now }
    ensures { result ≡ identifier_in start bytes.now }
{
    let mut id = [0u8; IDENTIFIER];
    id.copy_from_slice(&bytes[start..start + IDENTIFIER]);
    id
}

// ---- Written.

pub fn put_field(memory: &mut [u8], start: usize, n: u32)
    requires { start + 4 ≤ length memory.old }
    ensures { memory.new ≡ sets memory.old start (low4 n) }
{
    let low = basics::low_of(n);
    memory[start..start + 4].copy_from_slice(&low);
}

pub fn put_identifier(memory: &mut [u8], start: usize, id: [u8; IDENTIFIER])
    requires { start + identifier_size ≤ length memory.old }
    ensures { (memory.new ≡ sets memory.old start id) × (length id ≡ identifier_size) }
{
    memory[start..start + IDENTIFIER].copy_from_slice(&id);
}
