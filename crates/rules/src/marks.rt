// The single-phase mark, as the table holds it.
pub const NO: u8 = 0;

pub const YES: u8 = 1;
