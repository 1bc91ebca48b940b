// The kinds of messages, by the type in the header.
pub const ESTABLISHMENT: u64 = 50;

pub const MODIFICATION: u64 = 52;

pub const DELETION: u64 = 54;

pub const SET_DELETION: u64 = 14;

// As the header's octet, for those that write it.
pub const ESTABLISHMENT_OCTET: u8 = ESTABLISHMENT as u8;

pub const SET_DELETION_OCTET: u8 = SET_DELETION as u8;
