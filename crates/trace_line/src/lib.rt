// Lines of the trace program: an input line to a command, and a result to its output line.

#![tactic(auto)]

ghost use Rattle.std.specs.Prelude.{◌≡◌, ◌∷◌, ◌+◌, ◌*◌, ◌≤◌, min, take};
ghost use Rattle.rules.specs.Sizes.{signals_most};
ghost use Rattle.rules.specs.Trace.{words, words_read, signal_texts};
ghost use Rattle.trace_parts.specs.Puts.{Puts, signal_most, output_most};
ghost use Rattle.trace_line.specs.Promises.{IsReading, IsWriting};

use rules::{Command, Signal, Signals, sizes};

// ---- A line to a command: the words that were read, and what is left of the line.

fn after_five<'a>(
    w: &'a [u8],
    a: &'a [u8],
    b: &'a [u8],
    c: &'a [u8],
    d: &'a [u8],
    rest: &'a [u8],
) -> Option<Command>
    ensures { result ≡ words_read (w.now ∷ a.now ∷ b.now ∷ c.now ∷ d.now ∷ words rest.now) }
{
    let e = trace_words::word_end(rest);
    if e < rest.len() {
        None
    } else {
        trace_enlist::six_words(w, a, b, c, d, rest)
    }
}

fn after_four<'a>(
    w: &'a [u8],
    a: &'a [u8],
    b: &'a [u8],
    c: &'a [u8],
    rest: &'a [u8],
) -> Option<Command>
    ensures { result ≡ words_read (w.now ∷ a.now ∷ b.now ∷ c.now ∷ words rest.now) }
{
    let e = trace_words::word_end(rest);
    if e < rest.len() {
        after_five(w, a, b, c, &rest[..e], &rest[e + 1..])
    } else {
        trace_enlist::five_words(w, a, b, c, rest)
    }
}

fn after_three<'a>(w: &'a [u8], a: &'a [u8], b: &'a [u8], rest: &'a [u8]) -> Option<Command>
    ensures { result ≡ words_read (w.now ∷ a.now ∷ b.now ∷ words rest.now) }
{
    let e = trace_words::word_end(rest);
    if e < rest.len() {
        after_four(w, a, b, &rest[..e], &rest[e + 1..])
    } else {
        None
    }
}

fn after_two<'a>(w: &'a [u8], a: &'a [u8], rest: &'a [u8]) -> Option<Command>
    ensures { result ≡ words_read (w.now ∷ a.now ∷ words rest.now) }
{
    let e = trace_words::word_end(rest);
    if e < rest.len() {
        after_three(w, a, &rest[..e], &rest[e + 1..])
    } else {
        trace_commands::three_words(w, a, rest)
    }
}

fn after_one<'a>(w: &'a [u8], rest: &'a [u8]) -> Option<Command>
    ensures { result ≡ words_read (w.now ∷ words rest.now) }
{
    let e = trace_words::word_end(rest);
    if e < rest.len() {
        after_two(w, &rest[..e], &rest[e + 1..])
    } else {
        trace_commands::two_words(w, rest)
    }
}

// A line, without its newline, to the command that it is; None where it can't be read, which is refusal 16.
pub fn read_line(line: &[u8]) -> Option<Command>
    ensures { IsReading line.now result }
{
    if sizes::LINE < line.len() {
        return None;
    }
    let e = trace_words::word_end(line);
    if e < line.len() {
        after_one(&line[..e], &line[e + 1..])
    } else {
        trace_commands::one_word(line)
    }
}

// ---- A result to a line.

// The length of the longest output line, its newline included.
pub const OUTPUT: usize = trace_parts::OUTPUT;

fn put_signals(
    buffer: &mut [u8; OUTPUT],
    from: usize,
    items: [Signal; sizes::SIGNALS],
    n: usize,
) -> usize
    requires { (n ≤ signals_most) × (from + signal_most * n ≤ output_most) }
    ensures { Puts (signal_texts (take n items)) buffer.old from result buffer.new }
{
    let mut at = from;
    for i in 0..n {
        at = trace_parts::put_signal(buffer, at, items[i]);
    }
    at
}

// How many of the items are signals; a count above their number takes them all.
fn signal_count(count: u8) -> usize
    ensures { result ≡ min count signals_most }
{
    usize::from(count).min(sizes::SIGNALS)
}

// A result to its output line, which is written at the start of the buffer, newline and all; gives its length.
pub fn write_line(refusal: u8, used: u32, signals: Signals, buffer: &mut [u8; OUTPUT]) -> usize
    ensures { IsWriting refusal used signals buffer.old result buffer.new }
{
    let count = signal_count(signals.count);
    let first = trace_parts::put_number(buffer, 0, refusal as u32);
    buffer[first] = b' ';
    let second = trace_parts::put_number(buffer, first + 1, used);
    buffer[second] = b' ';
    let third = trace_parts::put_number(buffer, second + 1, count as u32);
    let end = put_signals(buffer, third, signals.items, count);
    buffer[end] = b'\n';
    end + 1
}
