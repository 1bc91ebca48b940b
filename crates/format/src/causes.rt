// The causes of document 01, each named once for the code; the rules' Causes names them for the definitions.
pub const ACCEPTED: u64 = 1;

pub const REJECTED: u64 = 64;

pub const NO_SESSION: u64 = 65;

pub const MANDATORY_MISSING: u64 = 66;

pub const CONDITIONAL_MISSING: u64 = 67;

pub const WRONG_LENGTH: u64 = 68;

pub const INCORRECT: u64 = 69;

pub const WRONG_ALLOCATION: u64 = 71;

pub const BROKEN_RULE: u64 = 73;

pub const NO_ROOM: u64 = 75;

pub const NOT_SUPPORTED: u64 = 76;

pub const NO_ADDRESS: u64 = 79;
