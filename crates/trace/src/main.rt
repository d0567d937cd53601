// The trace program: obeys the lines of standard input on an empty 4,096-byte log, and writes one line for each.

#![tactic(auto)]

ghost use Rattle.std.specs.Prelude.{◌≡◌, ◌≤◌, MatchResult, length};
ghost use Rattle.trace.specs.Sessions.{Fits, Ready, Answers, Takes, Writes, TakesAll, Finishes, Starts};

use std::io::{Read, Stdin};
use trace_line::OUTPUT;
use trace_session::{KEPT, ROOM, Session};

const STDOUT_FILENO: i32 = 1;

const CAPACITY: usize = 4096;

// The present line is whole.
fn answer(
    s: Session,
    heads: &mut [[u8; 17]; 32],
    rows: &mut [[u8; 24]; 128],
    log: &mut [u8],
    line: &[u8],
    output: &mut [u8],
) -> Session
    requires { Ready s heads.old rows.old line.now output.old }
    ensures { Answers s heads.old rows.old log.old line.now output.old result heads.new rows.new log.new output.new }
{
    let mut buffer = [0u8; OUTPUT];
    let o = trace_run::obey_in(
        &line[..s.kept],
        heads,
        rows,
        s.capacity,
        s.used,
        s.sound,
        log,
        &mut buffer,
    );
    let waiting = trace_parts::put_text(output, s.waiting, &buffer[..o.size]);
    Session {
        capacity: o.capacity,
        used: o.used,
        sound: o.sound,
        kept: 0,
        waiting,
        ..s
    }
}

// What is left of the block, up to the first end of a line in it.
fn take_line(
    s: Session,
    heads: &mut [[u8; 17]; 32],
    rows: &mut [[u8; 24]; 128],
    block: &[u8],
    log: &mut [u8],
    line: &mut [u8],
    output: &mut [u8],
) -> Session
    requires { Ready s heads.old rows.old line.old output.old × (s.taken ≤ length block.now) }
    ensures { Takes s heads.old rows.old block.now log.old line.old output.old result heads.new rows.new log.new line.new output.new }
{
    let part = trace_session::part_of(block, s.taken);
    let more = Session {
        kept: trace_session::keep(line, s.kept, &block[s.taken..part.end]),
        taken: part.taken,
        ..s
    };
    if part.whole {
        return answer(more, heads, rows, log, line, output);
    }
    more
}

// What is left of the block, as far as there is room for the answers.
fn take_lines(
    start: Session,
    heads: &mut [[u8; 17]; 32],
    rows: &mut [[u8; 24]; 128],
    block: &[u8],
    log: &mut [u8],
    line: &mut [u8],
    output: &mut [u8],
) -> Session
    requires { Ready start heads.old rows.old line.old output.old × (start.taken ≤ length block.now) }
    ensures { Takes start heads.old rows.old block.now log.old line.old output.old result heads.new rows.new log.new line.new output.new }
{
    let mut s = start;
    // Not a `for`: it goes on by lines, and stops where no room is left.
    while s.taken < block.len() {
        if !trace_session::has_room(s) {
            return s;
        }
        s = take_line(s, heads, rows, block, log, line, output);
    }
    s
}

// What waits is written.
fn flush(s: Session, output: &[u8]) -> Session
    requires { s.waiting ≤ length output.now }
    ensures { Writes s result }
{
    let writable = io::write_all(STDOUT_FILENO, &output[..s.waiting]);
    trace_session::flushed(s, writable)
}

fn take_block(
    start: Session,
    heads: &mut [[u8; 17]; 32],
    rows: &mut [[u8; 24]; 128],
    block: &[u8],
    log: &mut [u8],
    line: &mut [u8],
    output: &mut [u8],
) -> Session
    requires { Fits start heads.old rows.old line.old output.old × (start.waiting ≡ 0) }
    ensures { TakesAll start heads.old rows.old block.now log.old line.old output.old result heads.new rows.new log.new line.new output.new }
{
    let mut s = start;
    s.taken = 0;
    // Not a `for`: it goes on by as many lines as there is room for.
    while s.taken < block.len() {
        let next = take_lines(s, heads, rows, block, log, line, output);
        s = flush(next, output);
        if !s.writable {
            return s;
        }
    }
    s
}

// The input has ended; the last line may lack its newline.
fn finish(
    s: Session,
    heads: &mut [[u8; 17]; 32],
    rows: &mut [[u8; 24]; 128],
    log: &mut [u8],
    line: &[u8],
    output: &mut [u8],
) -> Session
    requires { Ready s heads.old rows.old line.now output.old }
    ensures { Finishes s heads.old rows.old log.old line.now output.old result heads.new rows.new log.new output.new }
{
    if s.kept == 0 {
        return s;
    }
    answer(s, heads, rows, log, line, output)
}

// On a log that holds nothing yet.
fn started(heads: &mut [[u8; 17]; 32], rows: &mut [[u8; 24]; 128], log: &mut [u8]) -> Session
    ensures { Starts log.old result heads.new rows.new log.new }
{
    let table = restart::restart(log, 0).table;
    trace_run::put_table(table, heads, rows);
    // Once: from here on each line says it of the table that it leaves.
    let sound = step::is_sound(table);
    Session {
        capacity: table.capacity,
        used: table.used,
        sound,
        kept: 0,
        taken: 0,
        waiting: 0,
        writable: true,
    }
}

// How many bytes a read gave; none where it failed, as at the end of the input.
fn count_of(got: std::io::Result<usize>) -> usize
    ensures { MatchResult got (λ n. result ≡ n) (λ e. result ≡ 0) }
{
    match got {
        Ok(n) => n,
        Err(_) => 0,
    }
}

fn next_block(input: &mut Stdin, block: &mut [u8]) -> usize
    ensures { result ≤ length block.new }
{
    let got = input.read(block);
    count_of(got)
}

fn main(rt: HostRuntime) {
    let mut input = rt.stdin();
    let mut heads = [[0u8; 17]; 32];
    let mut rows = [[0u8; 24]; 128];
    let mut log = [0u8; CAPACITY];
    let mut s = started(&mut heads, &mut rows, &mut log);
    let mut line = [0u8; KEPT];
    let mut output = [0u8; ROOM];
    // Not a `loop`: each function is proved to end.
    for _ in 0..u64::MAX {
        let mut block = io::large_buffer();
        let n = next_block(&mut input, &mut block);
        if n == 0 {
            let last = finish(s, &mut heads, &mut rows, &mut log, &line, &mut output);
            flush(last, &output);
            return;
        }
        s = take_block(
            s,
            &mut heads,
            &mut rows,
            &block[..n],
            &mut log,
            &mut line,
            &mut output,
        );
        if !s.writable {
            return;
        }
    }
}
