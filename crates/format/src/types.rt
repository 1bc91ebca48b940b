// The types of elements (clause 8.1.2), each named once for the code; the rules' Types names them for the definitions.
//
// Groups.
pub const CREATE_PDR: u64 = 1;

pub const PDI: u64 = 2;

pub const UPDATE_PDR: u64 = 9;

pub const REMOVE_PDR: u64 = 15;

pub const CREATE_ENDPOINT: u64 = 127;

pub const UPDATE_ENDPOINT: u64 = 129;

pub const REMOVE_ENDPOINT: u64 = 130;

// Members.
pub const SOURCE_INTERFACE: u64 = 20;

pub const FTEID: u64 = 21;

pub const PRECEDENCE: u64 = 29;

pub const UE_IP_ADDRESS: u64 = 93;

pub const PDR_ID: u64 = 56;

pub const FAR_ID: u64 = 108;

pub const ENDPOINT_ID: u64 = 131;

// At the top of a message.
pub const FSEID: u64 = 57;

pub const FQCSID: u64 = 65;

pub const SESSION_FLAGS: u64 = 186;

// In replies only.
pub const NODE_ID: u64 = 60;

pub const CAUSE: u64 = 19;

pub const OFFENDING_IE: u64 = 40;

pub const CREATED_PDR: u64 = 8;

pub const CREATED_ENDPOINT: u64 = 128;
