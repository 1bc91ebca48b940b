// A message's header: version and flags (1 octet), type (1), the length of what stands after it (2), the SEID (8) where there is one, the
// sequence number (3), a spare octet. The first octet has version 1, and S where there is a SEID.
pub const WITH_SEID: u8 = 33;

pub const WITHOUT_SEID: u8 = 32;

pub const KIND: usize = 1;

pub const LENGTH: usize = 2;

// What the length counts stands from here on.
pub const COUNTED: usize = LENGTH + 2;

// In a header with a SEID, and in one without: the sequence number, the spare octet after it, and the elements.
pub const SEID: usize = COUNTED;

pub const SEQUENCE: usize = SEID + 8;

pub const SPARE: usize = SEQUENCE + 3;

pub const BODY: usize = SPARE + 1;

pub const LIST_SEQUENCE: usize = COUNTED;

pub const LIST_SPARE: usize = LIST_SEQUENCE + 3;

pub const LIST_BODY: usize = LIST_SPARE + 1;
