// Reads each line of standard input and writes the parts of its command, and then some output lines.

#![tactic(auto)]

ghost use Rattle.std.specs.Prelude.{◌≡◌, ◌≤◌, length};
ghost use Rattle.trace_line_main.specs.Shown.{event_shown};

use rules::sizes::IDENTIFIER;
use rules::{
    Act, Command, Event, Kind, Mark, Name, Reply, RmId, Signal, Signals, TxId, Vote, sizes,
};
use trace_line::OUTPUT;

// The byte of an identifier that a line names.
const LAST: usize = IDENTIFIER - 1;

fn word(w: &[u8]) {
    io::write_all(1, w);
    io::write_all(1, b" ");
}

fn kind_word(kind: Kind) -> &'static [u8] {
    match kind {
        Kind::PhaseZero => b"zero",
        Kind::Volatile => b"volatile",
        Kind::Durable => b"durable",
    }
}

fn mark_word(mark: Mark) -> &'static [u8] {
    match mark {
        Mark::No => b"no",
        Mark::Yes => b"yes",
    }
}

fn vote_word(vote: Vote) -> &'static [u8] {
    match vote {
        Vote::Prepared => b"prepared",
        Vote::ReadOnly => b"readonly",
        Vote::Aborted => b"aborted",
    }
}

fn reply_word(reply: Reply) -> &'static [u8] {
    match reply {
        Reply::Committed => b"committed",
        Reply::Aborted => b"aborted",
        Reply::InDoubt => b"indoubt",
    }
}

fn numbered(w: &[u8], number: u32) {
    word(w);
    io::print_decimal(1, u64::from(number));
    io::write_all(1, b" ");
}

// An act's name, and behind it what it names.
fn show_act(act: Act) {
    match act {
        Act::Begin => word(b"Begin"),
        Act::Enlist(number, kind, mark) => {
            numbered(b"Enlist", number);
            word(kind_word(kind));
            word(mark_word(mark));
        }
        Act::Commit => word(b"Commit"),
        Act::ZeroDone(number) => numbered(b"ZeroDone", number),
        Act::Vote(number, vote) => {
            numbered(b"Vote", number);
            word(vote_word(vote));
        }
        Act::Rollback => word(b"Rollback"),
        Act::Reply(number, reply) => {
            numbered(b"Reply", number);
            word(reply_word(reply));
        }
        Act::Ack(number) => numbered(b"Ack", number),
        Act::Lost(number) => numbered(b"Lost", number),
        Act::Ask => word(b"Ask"),
        Act::Reenlisted => word(b"Reenlisted"),
    }
}

fn sum(bytes: &[u8]) -> u64
    requires { length bytes.now ≤ LAST }
{
    bytes.iter().map(|b| u64::from(*b)).sum()
}

// The sum of the bytes before the last, which are to be zero, and then the last.
fn show_identifier(bytes: [u8; IDENTIFIER]) {
    io::print_decimal(1, sum(&bytes[..LAST]));
    io::write_all(1, b"/");
    io::print_decimal(1, u64::from(bytes[LAST]));
    io::write_all(1, b" ");
}

fn command_word(command: Option<Command>) -> &'static [u8] {
    match command {
        None => b"16",
        Some(Command::Restart) => b"restart",
        Some(Command::Step(_)) => b"step",
    }
}

// The event of a step. Beside a line that is none, a Begin of zeros is shown.
fn event_of(command: Option<Command>) -> Event
    ensures { result ≡ event_shown command }
{
    if let Some(Command::Step(event)) = command {
        return event;
    }
    Event {
        tx: TxId([0; IDENTIFIER]),
        rm: RmId([0; IDENTIFIER]),
        act: Act::Begin,
    }
}

fn show(line: &[u8]) {
    let command = trace_line::read_line(line);
    word(command_word(command));
    let event = event_of(command);
    show_act(event.act);
    show_identifier(event.tx.0);
    show_identifier(event.rm.0);
    io::write_all(1, b" <");
    io::write_all(1, line);
    io::write_all(1, b">\n");
}

fn out(refusal: u8, used: u32, signals: Signals) {
    let mut buffer = [0u8; OUTPUT];
    let n = trace_line::write_line(refusal, used, signals, &mut buffer);
    io::write_all(1, &buffer[..n]);
}

fn put(refusal: u8, used: u32, count: u8, first: Signal, second: Signal) {
    let mut items = [first; sizes::SIGNALS];
    items[1] = second;
    out(refusal, used, Signals { items, count });
}

fn signal(name: Name, number: u32) -> Signal {
    Signal { name, number }
}

fn main() {
    let mut space = [0u8; 8192];
    let n = io::read_full(0, &mut space);
    for line in space[..n].split(|b| *b == b'\n') {
        show(line);
    }
    let none = signal(Name::Nothing, 0);
    put(0, 8, 0, none, none);
    let most = signal(Name::AnswerCommitted, sizes::LARGEST_NUMBER);
    put(u8::MAX, sizes::LARGEST_NUMBER, 200, most, most);
    put(
        16,
        65536,
        2,
        signal(Name::Commit, 2),
        signal(Name::AppCommitted, 0),
    );
    put(10, 100, 2, signal(Name::Zero, 10), signal(Name::Prepare, 9));
    put(9, 99, 2, signal(Name::Single, 99), signal(Name::Abort, 100));
    put(
        1,
        0,
        2,
        signal(Name::AppAborted, 1000000000),
        signal(Name::AppInDoubt, 1),
    );
    put(
        2,
        10,
        2,
        signal(Name::AnswerAborted, 0),
        signal(Name::AnswerNotYet, 11),
    );
}
