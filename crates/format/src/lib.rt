// Widths, places and limits that several crates share, each named once; what follows from others is worked out from them. Numbers are
// big-endian; docs/layout.md and the rules' Layout say what stands where.
//
// How many there are at most: sessions (a unit's own limit is a setting), in a session PDRs, endpoints and FQ-CSIDs, TEIDs in the pool,
// and addresses in theirs.
#![tactic(auto)]

pub const MAX_SESSIONS: u64 = 256;

pub const MAX_PDRS: usize = 16;

pub const MAX_ENDPOINTS: usize = 8;

pub const MAX_CSIDS: usize = 6;

pub const MAX_POOL: u64 = 65536;

pub const MAX_ADDRESSES: u64 = 1024;

// The settings: the IPv4 address (4 octets), whether there is an IPv6 address (1), the IPv6 address (16), the first TEID (4), the
// pool's size (4), the first address (4), the number of addresses (4), the session limit (2), then for each peer its signalling address, its guarantee and its limit (4 each).
pub const IPV4: usize = 0;

pub const IPV6_THERE: usize = 4;

pub const IPV6: usize = IPV6_THERE + 1;

pub const IPV6_LOW: usize = IPV6 + 8;

pub const FIRST: usize = IPV6 + 16;

pub const SIZE: usize = FIRST + 4;

pub const FIRST_ADDRESS: usize = SIZE + 4;

pub const ADDRESS_COUNT: usize = FIRST_ADDRESS + 4;

pub const LIMIT: usize = ADDRESS_COUNT + 4;

// A peer: its signalling address, its guarantee and its limit (4 octets each).
pub const PEER1: usize = LIMIT + 2;

pub const PEER2: usize = PEER1 + PEER_SETTINGS;

pub const GUARANTEE: usize = 4;

pub const PEER_LIMIT: usize = GUARANTEE + 4;

pub const PEER_SETTINGS: usize = PEER_LIMIT + 4;

pub const SETTINGS: usize = PEER2 + PEER_SETTINGS;

// A PDR: ID (2 octets), precedence (4), whether there is a FAR ID (1), the FAR ID (4), source interface (1), what it matches on (1: 0
// nothing, 1 an F-TEID, 2 an endpoint), TEID (4), families (1), endpoint ID (1), whether there is an address (1), the address (4).
pub const PRECEDENCE: usize = 2;

pub const FAR: usize = PRECEDENCE + 4;

pub const FAR_ID: usize = FAR + 1;

pub const SOURCE: usize = FAR_ID + 4;

pub const MATCH: usize = SOURCE + 1;

pub const TEID: usize = MATCH + 1;

pub const FAMILIES: usize = TEID + 4;

pub const NAMED_ENDPOINT: usize = FAMILIES + 1;

pub const PDR_ADDRESS_THERE: usize = NAMED_ENDPOINT + 1;

pub const PDR_ADDRESS: usize = PDR_ADDRESS_THERE + 1;

pub const PDR: usize = PDR_ADDRESS + 4;

// A traffic endpoint: ID (1 octet), TEID (4), families (1), whether there is an address (1), the address (4).
pub const ENDPOINT_TEID: usize = 1;

pub const ENDPOINT_FAMILIES: usize = ENDPOINT_TEID + 4;

pub const ENDPOINT_ADDRESS_THERE: usize = ENDPOINT_FAMILIES + 1;

pub const ENDPOINT_ADDRESS: usize = ENDPOINT_ADDRESS_THERE + 1;

pub const ENDPOINT: usize = ENDPOINT_ADDRESS + 4;

// An FQ-CSID: node type (1 octet), Node-ID type (1), address (16), CSID (2).
pub const CSID_ID_TYPE: usize = 1;

pub const CSID_ADDRESS: usize = CSID_ID_TYPE + 1;

pub const CSID_NUMBER: usize = CSID_ADDRESS + 16;

pub const CSID: usize = CSID_NUMBER + 2;

// A session's slot: the peer (1 octet) and the SEID (8), together its key; the numbers of PDRs, endpoints and FQ-CSIDs (1 each), and an area
// for each.
pub const SEID: usize = 1;

pub const KEY: usize = SEID + 8;

pub const PDR_COUNT: usize = KEY;

pub const ENDPOINT_COUNT: usize = PDR_COUNT + 1;

pub const CSID_COUNT: usize = ENDPOINT_COUNT + 1;

pub const PDRS: usize = CSID_COUNT + 1;

pub const ENDPOINTS: usize = PDRS + MAX_PDRS * PDR;

pub const CSIDS: usize = ENDPOINTS + MAX_ENDPOINTS * ENDPOINT;

pub const SLOT: usize = CSIDS + MAX_CSIDS * CSID;

// The table: the settings, the number of sessions (2 octets at COUNT), and the slots from HEAD on, as many as the settings' limit says.
pub const COUNT: usize = SETTINGS;

pub const HEAD: usize = COUNT + 2;

// The longest message, the least reply space, the longest restoration request, and the grants of a request at most.
pub const MESSAGE: usize = 2048;

pub const SPACE: usize = 1280;

pub const RESTORATION: usize = 1742;

pub const GRANTS: usize = MAX_PDRS + MAX_ENDPOINTS;

// Words of a plan's row, and of the plans that messages of at most so many octets have room in: n rows are enough for 14 + 9 * n octets.
pub const ROW: usize = 20;

pub type Row = [u64; ROW];

pub const SHORT_PLAN: usize = 40 * ROW;

pub const SHORT: usize = 14 + 9 * 40;

pub const MIDDLE_PLAN: usize = 120 * ROW;

pub const MIDDLE: usize = 14 + 9 * 120;

pub const PLAN: usize = 226 * ROW;

pub mod causes;
pub mod header;
pub mod kinds;
pub mod types;
pub mod words;
