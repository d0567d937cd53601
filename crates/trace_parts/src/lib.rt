// The parts of an output line: texts, numbers, names and signals, each put into the line's buffer behind what stands there.

#![tactic(auto)]

ghost use Rattle.std.specs.Prelude.{◌≡◌, ◌+◌, ◌≤◌, length};
ghost use Rattle.rules.specs.Trace.{decimal, name_text};
ghost use Rattle.trace_parts.specs.Puts.{Puts, Converts, padded_name, signal_text, digits_most, name_most, signal_most, output_most};

use rules::{Name, Signal};

// The length of the longest output line, its newline included.
pub const OUTPUT: usize = 494;

// Of the largest number.
const DIGITS: usize = 10;

// Of the longest name.
const NAME: usize = 16;

// A number in decimal: what stands in bytes from `from` on.
#[derive(Clone, Copy)]
struct Decimal {
    bytes: [u8; DIGITS],
    from: usize,
}

fn decimal_of(n: u32) -> Decimal
    ensures { Converts n result }
{
    let mut bytes = [0u8; DIGITS];
    let mut k = DIGITS;
    let mut m = n;
    // Not a `for`: it goes on by tenths, as long as the number has digits.
    while 10 <= m {
        k -= 1;
        bytes[k] = b'0' + (m % 10) as u8;
        m /= 10;
    }
    k -= 1;
    bytes[k] = b'0' + m as u8;
    Decimal { bytes, from: k }
}

// Bytes are stored at a place; gives the place behind them.
pub fn put_text(buffer: &mut [u8], at: usize, text: &[u8]) -> usize
    requires { at + length text.now ≤ length buffer.old }
    ensures { Puts text.now buffer.old at result buffer.new }
{
    let end = at + text.len();
    buffer[at..end].copy_from_slice(text);
    end
}

pub fn put_number(buffer: &mut [u8; OUTPUT], at: usize, n: u32) -> usize
    requires { at + digits_most ≤ output_most }
    ensures { Puts (decimal n) buffer.old at result buffer.new }
{
    let d = decimal_of(n);
    put_text(buffer, at, &d.bytes[d.from..])
}

// With spaces behind the name.
fn padded_name(name: Name) -> [u8; NAME]
    ensures { result ≡ padded_name name }
{
    match name {
        Name::Nothing => *b"                ",
        Name::Zero => *b"zero            ",
        Name::Prepare => *b"prepare         ",
        Name::Single => *b"single          ",
        Name::Commit => *b"commit          ",
        Name::Abort => *b"abort           ",
        Name::AppCommitted => *b"app-committed   ",
        Name::AppAborted => *b"app-aborted     ",
        Name::AppInDoubt => *b"app-in-doubt    ",
        Name::AnswerCommitted => *b"answer-committed",
        Name::AnswerAborted => *b"answer-aborted  ",
        Name::AnswerNotYet => *b"answer-not-yet  ",
    }
}

fn put_name(buffer: &mut [u8; OUTPUT], at: usize, name: Name) -> usize
    requires { at + name_most ≤ output_most }
    ensures { Puts (name_text name) buffer.old at result buffer.new }
{
    let padded = padded_name(name);
    let n = trace_words::word_end(&padded);
    put_text(buffer, at, &padded[..n])
}

pub fn put_signal(buffer: &mut [u8; OUTPUT], at: usize, signal: Signal) -> usize
    requires { at + signal_most ≤ output_most }
    ensures { Puts (signal_text signal) buffer.old at result buffer.new }
{
    buffer[at] = b' ';
    let named = put_name(buffer, at + 1, signal.name);
    buffer[named] = b':';
    put_number(buffer, named + 1, signal.number)
}
