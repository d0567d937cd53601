// Runs the worked stories that its arguments name, each on a fresh table and an empty log. Besides the lines of the trace program a story
// may say `log N`, which starts on an empty log of N bytes, and `torn K`, which restarts with the last K used bytes not stored.

#![tactic(auto)]

ghost use Rattle.std.specs.Prelude.{◌≡◌, ◌≤◌, length, IfSome};
ghost use Rattle.rules.specs.Trace.{trace_capacity};

use rules::{Name, Signal, Signals, Table, sizes};
use std::env;
use std::fs::File;
use std::io::Read;
use trace_line::OUTPUT;

const STDOUT_FILENO: i32 = 1;

// As much of a story is read.
const LARGEST: u64 = 65536;

const MEMORY: usize = 4096;

// The table, and how much of the memory is the log.
#[derive(Clone, Copy)]
struct Story {
    table: Table,
    capacity: usize,
}

// A number with one digit more, whose byte is 0x30 to 0x39; none is larger than the memory.
fn extended(n: usize, digit: u8) -> usize
    requires { n ≤ trace_capacity }
    ensures { result ≤ trace_capacity }
{
    (n * 10 + usize::from(digit) % 16).min(MEMORY)
}

fn number(digits: &[u8]) -> usize
    ensures { result ≤ trace_capacity }
{
    let mut n: usize = 0;
    for digit in digits {
        n = extended(n, *digit);
    }
    n
}

// The number behind a word that a line begins with.
fn number_behind(line: &[u8], word: &[u8]) -> Option<usize>
    ensures { IfSome result (λ n. n ≤ trace_capacity) }
{
    let digits = line.strip_prefix(word)?;
    Some(number(digits))
}

fn print_restart(refusal: u8, used: u32) {
    let nothing = Signal {
        name: Name::Nothing,
        number: 0,
    };
    let none = Signals {
        items: [nothing; sizes::SIGNALS],
        count: 0,
    };
    let mut buffer = [0u8; OUTPUT];
    let size = trace_line::write_line(refusal, used, none, &mut buffer);
    io::write_all(STDOUT_FILENO, &buffer[..size]);
}

fn restarted(memory: &mut [u8], capacity: usize, stored: usize) -> Story
    requires { capacity ≤ length memory.old }
    ensures { result.capacity ≡ capacity }
{
    let r = restart::restart(&mut memory[..capacity], stored);
    print_restart(r.refusal, r.table.used);
    Story {
        table: r.table,
        capacity,
    }
}

// A line of the trace program.
fn obeyed(s: Story, line: &[u8], memory: &mut [u8]) -> Story
    requires { s.capacity ≤ length memory.old }
    ensures { result.capacity ≡ s.capacity }
{
    let mut buffer = [0u8; OUTPUT];
    let o = trace_run::obey(line, s.table, &mut memory[..s.capacity], &mut buffer);
    io::write_all(STDOUT_FILENO, &buffer[..o.size]);
    Story {
        table: o.table,
        capacity: s.capacity,
    }
}

fn told(s: Story, line: &[u8], memory: &mut [u8]) -> Story
    requires { (s.capacity ≤ length memory.old) × (length memory.old ≡ trace_capacity) }
    ensures { result.capacity ≤ trace_capacity }
{
    if let Some(capacity) = number_behind(line, b"log ") {
        return restarted(memory, capacity, 0);
    }
    if let Some(lost) = number_behind(line, b"torn ") {
        let stored = (s.table.used as usize).saturating_sub(lost);
        return restarted(memory, s.capacity, stored);
    }
    obeyed(s, line, memory)
}

fn run(text: &[u8]) {
    let mut memory = [0u8; MEMORY];
    let mut s = Story {
        table: restart::restart(&mut memory, 0).table,
        capacity: MEMORY,
    };
    let mut at: usize = 0;
    // Not a `for`: it goes on by lines.
    while at < text.len() {
        let end = trace_session::part_of(text, at).end;
        s = told(s, &text[at..end], &mut memory);
        at = end + 1;
    }
}

fn run_file(rt: &HostRuntime, name: &str) -> std::io::Result<()> {
    let file = File::open(rt, name)?;
    let mut text = Vec::new(rt.alloc());
    file.take(LARGEST).read_to_end(&mut text)?;
    io::write_all(STDOUT_FILENO, b"# ");
    io::write_all(STDOUT_FILENO, name.as_bytes());
    io::write_all(STDOUT_FILENO, b"\n");
    run(text.as_slice());
    Ok(())
}

fn main(rt: HostRuntime) -> std::io::Result<()> {
    for name in env::args(&rt)?.skip(1) {
        run_file(&rt, name.as_str())?;
    }
    Ok(())
}
