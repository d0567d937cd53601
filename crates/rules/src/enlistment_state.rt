// The states of an enlistment; 0 is an empty place.
pub const ACTIVE: u8 = 1;

pub const ZERO: u8 = 2;

pub const PREPARING: u8 = 3;

pub const PREPARED: u8 = 4;

pub const PREPARED_LOST: u8 = 5;

pub const ONE_PHASE: u8 = 6;

pub const TOLD_COMMIT: u8 = 7;

pub const FAILED_TO_NOTIFY: u8 = 8;

pub const TOLD_ABORT: u8 = 9;

pub const DONE: u8 = 10;
