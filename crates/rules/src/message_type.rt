// MsgTag of every message, and the eight types (source document 000, sections 2.2.9 and 2.2.10).
pub const TAG: u32 = 0x00000FFF;

pub const CREATE_RM: u32 = 0x1051;

pub const COMMIT_REQUEST: u32 = 0x2011;

pub const COMMIT_REQUEST_DONE: u32 = 0x2012;

pub const COMMIT_RETRY: u32 = 0x2013;

pub const CHECK_ABORT: u32 = 0x2021;

pub const CHECK_ABORTED: u32 = 0x2022;

pub const CHECK_RETRY: u32 = 0x2023;

pub const BRANCH: u32 = 0x2051;
