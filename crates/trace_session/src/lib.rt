// What the trace program counts between two bytes of its input, and the steps of it that look at no table.

#![tactic(auto)]

ghost use Rattle.std.specs.Prelude.{◌≡◌, ◌+◌, ◌≤◌, leb, length};
ghost use Rattle.trace_parts.specs.Puts.{output_most};
ghost use Rattle.trace_session.specs.Bytes.{index_of, slice};
ghost use Rattle.trace_session.specs.Counts.{line_kept, room, Keeps, Parts, flushed_of};

use rules::sizes;
use trace_line::OUTPUT;

// A line is kept with one byte more than it may have, so that one that is too long is seen as such, however long it is.
pub const KEPT: usize = sizes::LINE + 1;

// Output is written in blocks of about this size.
pub const ROOM: usize = 16384;

const NEWLINE: u8 = b'\n';

// Of the table, whose transactions and enlistments are in memory of their own, the capacity, the used length, and whether it is sound; how many bytes of the present
// line are kept, of the present block are taken, and of output wait; and whether the output still takes any.
#[derive(Clone, Copy)]
pub struct Session {
    pub capacity: u32,
    pub used: u32,
    pub sound: bool,
    pub kept: usize,
    pub taken: usize,
    pub waiting: usize,
    pub writable: bool,
}

// A part of a block: where it ends, whether a newline stands there, and how much of the block is taken with it.
// Not an Option of the end: the trace program uses all three, whether a newline stands there or not.
#[derive(Clone, Copy)]
pub struct Part {
    pub end: usize,
    pub whole: bool,
    pub taken: usize,
}

// More bytes of the present line; gives how many of it are kept then.
pub fn keep(line: &mut [u8], kept: usize, more: &[u8]) -> usize
    requires { (kept ≤ line_kept) × (length line.old ≡ line_kept) }
    ensures { Keeps kept line.old more.now result line.new }
{
    let n = more.len().min(KEPT - kept);
    trace_parts::put_text(line, kept, &more[..n])
}

// Where the byte first stands in that part of the block, and the part's end if it doesn't stand there.
fn find(block: &[u8], from: usize, to: usize, byte: u8) -> usize
    requires { (from ≤ to) × (to ≤ length block.now) }
    ensures { (result ≡ from + index_of byte (slice from to block.now)) × (result ≤ to) }
{
    for i in from..to {
        if block[i] == byte {
            return i;
        }
    }
    to
}

// What is left of the block, up to the first end of a line in it.
pub fn part_of(block: &[u8], from: usize) -> Part
    requires { from ≤ length block.now }
    ensures { Parts block.now from result }
{
    let end = find(block, from, block.len(), NEWLINE);
    let whole = end < block.len();
    let taken = if whole { end + 1 } else { end };
    Part { end, whole, taken }
}

// For another output line.
pub fn has_room(s: Session) -> bool
    requires { s.waiting ≤ room }
    ensures { result ≡ leb (s.waiting + output_most) room }
{
    s.waiting + OUTPUT <= ROOM
}

// What waited is written, and the output has said whether it still takes any.
pub fn flushed(s: Session, writable: bool) -> Session
    ensures { result ≡ flushed_of s writable }
{
    Session {
        waiting: 0,
        writable,
        ..s
    }
}
