// The states of a transaction; 0 is an empty place.
pub const ACTIVE: u8 = 1;

pub const PHASE_ZERO: u8 = 2;

pub const PHASE_ONE: u8 = 3;

pub const SINGLE_PHASE: u8 = 4;

pub const COMMITTING: u8 = 5;

pub const ABORTING: u8 = 6;
