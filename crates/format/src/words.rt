// The words of a plan's row, each named once for the code; the plan's Words names them for the definitions and says what they hold.
//
// What a row is for: the type of its element.
pub const TAG: usize = 0;

// A group's row: which members are there.
pub const HAS_PDR_ID: usize = 1;

pub const HAS_PRECEDENCE: usize = 2;

pub const HAS_FAR_ID: usize = 3;

pub const HAS_SOURCE: usize = 4;

pub const HAS_ENDPOINT_ID: usize = 5;

pub const HAS_PDI: usize = 6;

// And what they hold.
pub const PDR_ID: usize = 7;

pub const PRECEDENCE: usize = 8;

pub const FAR_ID: usize = 9;

pub const SOURCE: usize = 10;

pub const ENDPOINT_ID: usize = 11;

// Its F-TEID.
pub const FLAGS: usize = 12;

pub const TEID: usize = 13;

pub const IPV4: usize = 14;

pub const IPV6_HIGH: usize = 15;

pub const IPV6_LOW: usize = 16;

pub const CHOOSE_ID: usize = 17;

// Its UE IP Address.
pub const UE_KIND: usize = 18;

pub const UE_ADDRESS: usize = 19;

// What UE_KIND says: an address, a CHOOSE, one that is not supported.
pub const UE_GIVEN: u64 = 1;

pub const UE_CHOOSE: u64 = 2;

pub const UE_OTHER: u64 = 3;

// An FQ-CSID's row.
pub const VERB: usize = 1;

pub const NODE_TYPE: usize = 7;

pub const ID_TYPE: usize = 8;

pub const ADDRESS_HIGH: usize = 9;

pub const ADDRESS_LOW: usize = 10;

pub const CSID: usize = 11;
