// 01, "The checks, as questions": the number that a no gives, by the names of the C header (its shelf, ticket and bundle are here holdback,
// payload and batch).
// Of a call.
pub const BAD_SETUP: u8 = 1;

pub const BAD_CLOCK: u8 = 2;

pub const BAD_HOLDBACK: u8 = 3;

pub const BAD_PAYLOAD: u8 = 4;

pub const BAD_BATCH: u8 = 5;

pub const BAD_BUFFERS: u8 = 6;

// Of a frame.
pub const BAD_FORM: u8 = 10;

pub const BAD_RANGE: u8 = 11;

pub const BAD_STAMP: u8 = 12;

pub const LATE: u8 = 13;

pub const EARLY: u8 = 14;

pub const BAD_COUNT: u8 = 15;

pub const REPEAT: u8 = 16;

// 02, 2.9: of an engine's frame.
pub const TOO_MANY: u8 = 18;

// 02, 2.10: of a call with both pairs of limits.
pub const NOT_WIDER: u8 = 19;

// 02, 2.11: of a press ticket.
pub const BAD_PRESS: u8 = 20;

pub const CHARGED: u8 = 21;

pub const FULL_LEDGER: u8 = 22;
