// The kinds of enlistments, as the table holds them.
pub const PHASE_ZERO: u8 = 1;

pub const VOLATILE: u8 = 2;

pub const DURABLE: u8 = 3;
