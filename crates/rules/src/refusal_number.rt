// The refusal numbers, with what each is given for.

pub const ACCEPTED: u8 = 0;
// A named identifier or number is zero.
pub const ZERO_NAMED: u8 = 1;

pub const NOT_LIVE: u8 = 2;

pub const NOT_HELD: u8 = 3;
// Begin of a live transaction.
pub const ALREADY_LIVE: u8 = 4;
// Enlist: number held, or second durable of this resource manager in the transaction.
pub const ALREADY_HELD: u8 = 5;
// Enlist, Commit, Rollback.
pub const TRANSACTION_STATE: u8 = 6;

pub const ENLISTMENT_STATE: u8 = 7;
// No free place, or the transaction holds 16; listing: too few rows.
pub const FULL: u8 = 8;
// Ask.
pub const NO_SUCH_DURABLE: u8 = 9;
// Re-enlisted: a durable enlistment of it that isn't Done stands elsewhere than in Failed-to-notify.
pub const NOT_FAILED_TO_NOTIFY: u8 = 10;
// Restart.
pub const DAMAGED_LOG: u8 = 11;
// The lent log's length differs from capacity.
pub const LOG_LENGTH: u8 = 12;
// Restart.
pub const LOG_TOO_SHORT: u8 = 13;
// Bad message, or the writer's room below the message length.
pub const BAD_MESSAGE: u8 = 14;
// Table not sound: step, listing.
pub const NOT_SOUND: u8 = 15;
// Trace line that can't be read.
pub const UNREADABLE_LINE: u8 = 16;
