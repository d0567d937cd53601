// Vectors for the eight messages. Source document 000 prints fields; here they are bytes, each 32-bit field low byte first, and each GUID
// as MS-DTYP (section 2.3.4.2) lays it out: its first three fields low byte first, then eight bytes as they are printed. (The four words
// that section 4 prints beside a GUID have its ninth and tenth byte exchanged.)
// A line is what the reader makes of a vector, and then what the writer makes of the reader's message in 58 bytes of ee.

#![tactic(auto)]

ghost use Rattle.std.specs.Prelude.{◌≡◌, ◌≤◌, ◌<◌};
ghost use Rattle.rules.specs.Messages.{no_message, read_answer, written_answer};

use message_fields::{CONNECTION_AT, LENGTH_AT, MASTER_AT, RESERVED_AT, TAG_AT, TYPE_AT};
use rules::sizes::IDENTIFIER;
use rules::{Message, Refusal, RmId, SessionId, TxId, message_type, refusal_number};

// Section 4.2.3, PARTNERTM_BRANCH_MTAG_BRANCHING: MsgTag, fIsMaster, dwConnectionId, dwUserMsgType, dwcbVarLenData, dwReserved1, and
// guidTx 4046037e-9722-46c9-9883-99062341cb35.
const BRANCHING: [u8; 40] =
    *b"\xff\x0f\x00\x00\x01\x00\x00\x00\x01\x00\x00\x00\x51\x20\x00\x00\x10\x00\x00\x00\x64\xcd\x64\xcd\
    \x7e\x03\x46\x40\x22\x97\xc9\x46\x98\x83\x99\x06\x23\x41\xcb\x35";

// Section 4.4.1, TXUSER_RESOURCEMANAGER_MTAG_CREATE: the same fields, guidRm E7BAEBDF-DC69-4E2B-9FF1-69A1D3592877 and
// guidSession 8F5204B3-5FB9-466A-A0B8-2DAF3FCBD9AA.
const CREATE: [u8; 56] =
    *b"\xff\x0f\x00\x00\x01\x00\x00\x00\x02\x00\x00\x00\x51\x10\x00\x00\x20\x00\x00\x00\x64\xcd\x64\xcd\
    \xdf\xeb\xba\xe7\x69\xdc\x2b\x4e\x9f\xf1\x69\xa1\xd3\x59\x28\x77\
    \xb3\x04\x52\x8f\xb9\x5f\x6a\x46\xa0\xb8\x2d\xaf\x3f\xcb\xd9\xaa";

// A message without payload, of type 0x2012, from the party that accepted the connection.
const ANSWER: [u8; 24] =
    *b"\xff\x0f\x00\x00\x00\x00\x00\x00\x04\x03\x02\x01\x12\x20\x00\x00\x00\x00\x00\x00\xff\xff\xff\xff";

// Further bytes of the fields.
const TAG_SECOND: usize = TAG_AT + 1;

const TAG_LAST: usize = TAG_AT + 3;

const MASTER_LAST: usize = MASTER_AT + 3;

const CONNECTION_LAST: usize = CONNECTION_AT + 3;

const TYPE_SECOND: usize = TYPE_AT + 1;

const TYPE_LAST: usize = TYPE_AT + 3;

const LENGTH_LAST: usize = LENGTH_AT + 3;

const RESERVED_LAST: usize = RESERVED_AT + 3;

// ---- A line.

// Room for any message, and two bytes more.
const ROOM: usize = 58;

// What the writer is lent.
const UNWRITTEN: u8 = 0xee;

// What the reader answers, by the numbers of refusals.
#[derive(Clone, Copy)]
struct ReadTold {
    refusal: u8,
    message: Message,
}

// A refused reader gives an all-zero message.
fn no_message() -> Message
    ensures { result ≡ no_message }
{
    Message {
        master: 0,
        connection: 0,
        kind: 0,
        reserved: 0,
        tx: TxId([0; IDENTIFIER]),
        rm: RmId([0; IDENTIFIER]),
        session: SessionId([0; IDENTIFIER]),
    }
}

fn read_told(answer: Result<Message, Refusal>) -> ReadTold
    ensures { let a = read_answer answer in (result.refusal ≡ a.refusal) × (result.message ≡ a.message) }
{
    match answer {
        Ok(message) => ReadTold {
            refusal: refusal_number::ACCEPTED,
            message,
        },
        Err(refusal) => ReadTold {
            refusal: u8::from(refusal),
            message: no_message(),
        },
    }
}

// What the writer answers: a refused one the length 0.
#[derive(Clone, Copy)]
struct WrittenTold {
    refusal: u8,
    length: usize,
}

fn written_told(answer: Result<usize, Refusal>) -> WrittenTold
    ensures { let a = written_answer answer in (result.refusal ≡ a.refusal) × (result.length ≡ a.length) }
{
    match answer {
        Ok(length) => WrittenTold {
            refusal: refusal_number::ACCEPTED,
            length,
        },
        Err(refusal) => WrittenTold {
            refusal: u8::from(refusal),
            length: 0,
        },
    }
}

fn print_bytes(bytes: &[u8]) {
    for b in bytes {
        io::print_hex(1, u64::from(*b), 2);
    }
}

fn print_identifier(name: &[u8], id: [u8; IDENTIFIER]) {
    io::write_all(1, name);
    print_bytes(&id);
}

fn print_field(name: &[u8], n: u32) {
    io::write_all(1, name);
    io::print_hex(1, u64::from(n), 8);
}

fn print_number(name: &[u8], n: u64) {
    io::write_all(1, name);
    io::print_decimal(1, n);
}

fn print_message(m: Message) {
    print_number(b" master ", u64::from(m.master));
    print_field(b" connection ", m.connection);
    print_field(b" type ", m.kind);
    print_field(b" reserved ", m.reserved);
    print_identifier(b" tx ", m.tx.0);
    print_identifier(b" rm ", m.rm.0);
    print_identifier(b" session ", m.session.0);
}

fn print_memory(memory: &[u8]) {
    io::write_all(1, b" memory ");
    print_bytes(memory);
    io::write_all(1, b"\n");
}

fn show_written(m: Message, memory: &mut [u8]) {
    let answer = messages::write_message(m, memory);
    let w = written_told(answer);
    print_number(b" written ", u64::from(w.refusal));
    print_number(b" length ", w.length as u64);
    print_memory(memory);
}

fn show(name: &[u8], bytes: &[u8]) {
    let r = read_told(messages::read_message(bytes));
    io::write_all(1, name);
    print_number(b" read ", u64::from(r.refusal));
    print_message(r.message);
    show_written(r.message, &mut [UNWRITTEN; ROOM]);
}

// The vectors above, with another byte, another type, or less of it.
fn branching_with(name: &[u8], at: usize, b: u8)
    requires { at < 40 }
{
    let mut v = BRANCHING;
    v[at] = b;
    show(name, &v);
}

fn answer_of(name: &[u8], low: u8, high: u8) {
    let mut v = ANSWER;
    v[TYPE_AT] = low;
    v[TYPE_SECOND] = high;
    show(name, &v);
}

fn branching_part(name: &[u8], size: usize)
    requires { size ≤ 40 }
{
    let v = BRANCHING;
    show(name, &v[..size]);
}

// ---- The vectors that are messages: the samples of section 4, one of each other type, and any connection and reserved.

fn samples() {
    show(b"branching", &BRANCHING);
    show(b"create-rm", &CREATE);
}

fn requests() {
    branching_with(b"commit-request", TYPE_AT, 0x11);
    branching_with(b"check-abort", TYPE_AT, 0x21);
}

fn answers() {
    answer_of(b"commit-request-done", 0x12, 0x20);
    answer_of(b"commit-retry", 0x13, 0x20);
    answer_of(b"check-aborted", 0x22, 0x20);
    answer_of(b"check-retry", 0x23, 0x20);
}

fn other_connection() -> [u8; 40] {
    let mut v = BRANCHING;
    v[CONNECTION_AT] = 0xff;
    v[CONNECTION_LAST] = 0x80;
    v
}

fn connection_kept() {
    show(b"connection-kept", &other_connection());
}

fn reserved_kept() {
    let mut v = other_connection();
    v[RESERVED_AT] = 0;
    v[RESERVED_LAST] = 0x01;
    show(b"reserved-kept", &v);
}

// ---- The vectors that are none: each header field wrong in turn.

fn wrong_tag() {
    // Section 4.1 prints the tag of some samples so; section 2.2.4.1 decides.
    branching_with(b"tag-000000ff", TAG_SECOND, 0);
    branching_with(b"tag-00000ffe", TAG_AT, 0xfe);
    branching_with(b"tag-01000fff", TAG_LAST, 0x01);
}

fn wrong_master() {
    branching_with(b"master-2", MASTER_AT, 2);
    branching_with(b"master-01000001", MASTER_LAST, 1);
}

// Sections 4.2.3 and 4.4.1 have these two, which are not of the eight.
fn unknown_type() {
    answer_of(b"type-2052", 0x52, 0x20);
    answer_of(b"type-1053", 0x53, 0x10);
}

fn wrong_type() {
    branching_with(b"type-01002051", TYPE_LAST, 1);
    branching_with(b"type-of-no-payload", TYPE_AT, 0x12);
    branching_with(b"type-of-32-bytes", TYPE_SECOND, 0x10);
}

fn wrong_payload_length() {
    branching_with(b"length-15", LENGTH_AT, 0x0f);
    branching_with(b"length-32", LENGTH_AT, 0x20);
    branching_with(b"length-01000010", LENGTH_LAST, 1);
}

// ---- The vectors that are none: as many bytes as they say, or not, but not those of their type.

fn wrong_size() {
    branching_part(b"empty", 0);
    branching_part(b"23-bytes", 23);
    branching_part(b"header-alone", 24);
    branching_part(b"one-short", 39);
}

fn create_one_short() {
    let v = CREATE;
    show(b"create-rm-one-short", &v[..55]);
}

fn one_long() {
    let mut v = CREATE;
    v[TYPE_SECOND] = 0x20;
    v[LENGTH_AT] = 0x10;
    show(b"one-long", &v[..41]);
}

fn branching_of_56() {
    let mut v = CREATE;
    v[TYPE_SECOND] = 0x20;
    show(b"branching-of-56", &v);
}

fn wrong_payload() {
    branching_of_56();
    branching_with(b"done-of-40", TYPE_AT, 0x12);
    answer_of(b"create-rm-of-24", 0x51, 0x10);
}

// ---- The writer: its room, and messages that could not be read back.

fn written(name: &[u8], m: Message, memory: &mut [u8]) {
    io::write_all(1, name);
    show_written(m, memory);
}

// The sample, as it is read.
fn branching_message() -> Message {
    read_told(messages::read_message(&BRANCHING)).message
}

fn rooms() {
    let m = branching_message();
    written(b"room-of-40", m, &mut [UNWRITTEN; 40]);
    written(b"room-of-39", m, &mut [UNWRITTEN; 39]);
    written(b"no-room", m, &mut [UNWRITTEN; 0]);
}

fn of_type(name: &[u8], kind: u32) {
    let mut m = branching_message();
    m.kind = kind;
    written(name, m, &mut [UNWRITTEN; ROOM]);
}

fn of_master_2() {
    let mut m = branching_message();
    m.master = 2;
    written(b"write-master-2", m, &mut [UNWRITTEN; ROOM]);
}

fn unwritable() {
    of_type(b"unknown-type", 0x2014);
    of_master_2();
}

fn with_rm() {
    let mut m = branching_message();
    m.rm = RmId([7; IDENTIFIER]);
    written(b"branching-with-rm", m, &mut [UNWRITTEN; ROOM]);
}

fn with_session() {
    let mut m = branching_message();
    m.session = SessionId([7; IDENTIFIER]);
    written(b"branching-with-session", m, &mut [UNWRITTEN; ROOM]);
}

fn foreign_fields() {
    with_rm();
    with_session();
    of_type(b"create-rm-with-tx", message_type::CREATE_RM);
    of_type(b"done-with-tx", message_type::COMMIT_REQUEST_DONE);
}

// Zeros are no breach in a field that the type has.
fn zero_fields() {
    let mut create = branching_message();
    create.kind = message_type::CREATE_RM;
    create.tx = TxId([0; IDENTIFIER]);
    written(b"create-rm-of-zeros", create, &mut [UNWRITTEN; ROOM]);
}

fn read() {
    samples();
    requests();
    answers();
    connection_kept();
    reserved_kept();
}

fn refused() {
    wrong_tag();
    wrong_master();
    unknown_type();
    wrong_type();
    wrong_payload_length();
    wrong_size();
    create_one_short();
    one_long();
    wrong_payload();
}

fn main() {
    read();
    refused();
    rooms();
    unwritable();
    foreign_fields();
    zero_fields();
}
