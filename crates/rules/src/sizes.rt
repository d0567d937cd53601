// Counts of places, and lengths in bytes.

pub const TRANSACTIONS: usize = 32;

pub const ENLISTMENTS: usize = 128;
// The most that one transaction holds.
pub const HELD: usize = 16;
// The most that one step sends.
pub const SIGNALS: usize = 17;

pub const IDENTIFIER: usize = 16;

pub const LARGEST_NUMBER: u32 = 4294967295;

// The log: its header, a record without its entries, and an entry.
pub const HEADER: u32 = 8;

pub const RECORD: u32 = 18;

pub const ENTRY: u32 = 20;

pub const LEAST_CAPACITY: u32 = 8;

pub const LARGEST_CAPACITY: u32 = 65536;

pub const MESSAGE_HEADER: usize = 24;
// A line of the trace program, without its newline.
pub const LINE: usize = 64;
