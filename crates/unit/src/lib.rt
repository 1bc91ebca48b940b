// The unit's settings as one value: read from the front of a table once a call, and handed on. A setting more is a field more here, in
// `settings_of`, in the readers and in the writer; whoever hands the value on stays as it is.
#![tactic(auto)]

ghost use Rattle.std.specs.Prelude.{◌≡◌, ◌+◌, ◌≤◌, ◌++◌, T, length};
ghost use Rattle.octets.specs.Choice.{all_of};
ghost use Rattle.octets.specs.Octets.{be, part, zeros, put};
ghost use Rattle.rules.specs.Model.{is_peer};
ghost use Rattle.rules.specs.Layout.{view_peer, view_settings, peer_octets, settings_octets, settings_width, first_at};
ghost use Rattle.rules.specs.Sound.{settings_allowed, ipv6_allowed, limit_tests, peer_tests, peers_tests};
ghost use Rattle.unit.specs.Meaning.{peer_from, ipv6_octets, settings_of, settings_given, range_tests, number_octets};

// A control plane: its signalling IPv4 address on the unit, as a number; how many TEIDs it is guaranteed, and how many it may hold.
#[derive(Clone, Copy)]
pub struct Peer {
    pub address: u64,
    pub guarantee: u64,
    pub limit: u64,
}

// An IPv6 address in two halves.
#[derive(Clone, Copy, PartialEq, Eq)]
pub struct Ipv6 {
    pub high: u64,
    pub low: u64,
}

// The IPv4 address as a number, the IPv6 address where there is one, the first TEID and the pool's size, the first address for patients
// and how many there are, how many sessions there is room for, and the two peers.
#[derive(Clone, Copy)]
pub struct Settings {
    pub ipv4: u64,
    pub ipv6: Option<Ipv6>,
    pub first: u64,
    pub size: u64,
    pub first_address: u64,
    pub addresses: u64,
    pub limit: u64,
    pub peer1: Peer,
    pub peer2: Peer,
}

// Whether a number is a peer's.
#[tactic(auto, unfolding(rules::specs::Model::is_peer))]
pub fn is_peer(peer: u32) -> bool
    ensures { result ≡ is_peer peer }
{
    peer == 1 || peer == 2
}

// A peer's settings at a place of a table.
fn read_peer(t: &[u8], at: usize) -> Peer
    requires { at + 12 ≤ length t.now }
    ensures { peer_from result ≡ view_peer at t.now }
{
    let address = octets::read(t, at, 4);
    let guarantee = octets::read(t, at + format::GUARANTEE, 4);
    let limit = octets::read(t, at + format::PEER_LIMIT, 4);
    Peer {
        address,
        guarantee,
        limit,
    }
}

// An IPv6 address at a place.
fn read_ipv6(s: &[u8], at: usize) -> Ipv6
    requires { at + 16 ≤ length s.now }
    ensures { be 8 result.high ++ be 8 result.low ≡ part at 16 s.now }
{
    Ipv6 {
        high: octets::read(s, at, 8),
        low: octets::read(s, at + 8, 8),
    }
}

// The settings at the front of a table.
pub fn read(t: &[u8]) -> Settings
    requires { settings_width ≤ length t.now }
    ensures { settings_of result ≡ view_settings t.now }
{
    let ipv4 = octets::read(t, format::IPV4, 4);
    let there = t[format::IPV6_THERE] != 0;
    let ipv6 = if there {
        Some(read_ipv6(t, format::IPV6))
    } else {
        None
    };
    let first = octets::read(t, format::FIRST, 4);
    let size = octets::read(t, format::SIZE, 4);
    let first_address = octets::read(t, format::FIRST_ADDRESS, 4);
    let addresses = octets::read(t, format::ADDRESS_COUNT, 4);
    let limit = octets::read(t, format::LIMIT, 2);
    let peer1 = read_peer(t, format::PEER1);
    let peer2 = read_peer(t, format::PEER2);
    Settings {
        ipv4,
        ipv6,
        first,
        size,
        first_address,
        addresses,
        limit,
        peer1,
        peer2,
    }
}

// The settings that a host names: the IPv6 address in 16 octets, or in none.
pub fn given(
    ipv4: u32,
    ipv6: &[u8],
    first: u32,
    size: u32,
    first_address: u32,
    addresses: u32,
    limit: u32,
    peer1: Peer,
    peer2: Peer,
) -> Settings
    requires { T (ipv6_allowed ipv6.now) × (length ipv6.now ≤ 16) }
    ensures { settings_of result ≡ settings_given ipv4 ipv6.now first size first_address addresses limit (peer_from peer1) (peer_from peer2) }
{
    let ipv6 = if ipv6.is_empty() {
        None
    } else {
        Some(read_ipv6(ipv6, 0))
    };
    Settings {
        ipv4: ipv4 as u64,
        ipv6,
        first: first as u64,
        size: size as u64,
        first_address: first_address as u64,
        addresses: addresses as u64,
        limit: limit as u64,
        peer1,
        peer2,
    }
}

// Whether a pool of so many numbers, at least one and at most so many, ends at 4,294,967,295 at the latest.
fn pool_allowed(first: u64, size: u64, most: u64) -> bool
    requires { most ≤ 4294967296 }
    ensures { result ≡ all_of (range_tests first size most) }
{
    1 <= size && size <= most && first <= 4294967296 - size
}

// Whether a unit may have room for so many sessions: 2 to 256.
#[tactic(auto, unfolding(rules::specs::Sound::limit_tests))]
pub fn limit_allowed(limit: u64) -> bool
    ensures { result ≡ all_of (limit_tests limit) }
{
    (2..=format::MAX_SESSIONS).contains(&limit)
}

// Whether a peer's limit is from its guarantee to the pool's size; its address has four octets.
#[tactic(auto, unfolding(rules::specs::Sound::peer_tests))]
fn peer_allowed(q: Peer, size: u64) -> bool
    ensures { result ≡ all_of (peer_tests size (peer_from q)) }
{
    q.address <= 4294967295 && q.guarantee <= q.limit && q.limit <= size
}

// Whether each peer's settings are allowed, their addresses differ, and their guarantees together don't exceed the pool.
#[tactic(auto, unfolding(rules::specs::Sound::peers_tests))]
fn peers_allowed(q: Peer, r: Peer, size: u64) -> bool
    ensures { result ≡ all_of (peers_tests size (peer_from q) (peer_from r)) }
{
    peer_allowed(q, size)
        && peer_allowed(r, size)
        && r.guarantee <= size
        && q.guarantee <= size - r.guarantee
        && q.address != r.address
}

// Whether the rules allow these settings: 2 to 256 sessions, the first TEID at least 1, the pool's size 1 to 65,536, the number of
// addresses 1 to 1,024, the last of each at most 4,294,967,295; and the peers'.
#[tactic(auto, using(crate::proofs::AllowedLaws::allowed_is))]
pub fn allowed(s: Settings) -> bool
    ensures { result ≡ settings_allowed (settings_of s) }
{
    1 <= s.first
        && pool_allowed(s.first, s.size, format::MAX_POOL)
        && pool_allowed(s.first_address, s.addresses, format::MAX_ADDRESSES)
        && limit_allowed(s.limit)
        && peers_allowed(s.peer1, s.peer2, s.size)
}

// Writes a peer's settings at a place.
fn write_peer(slot: &mut [u8], at: usize, q: Peer)
    requires { at + 12 ≤ length slot.old }
    ensures { slot.new ≡ put at (peer_octets (peer_from q)) slot.old }
{
    octets::write(slot, at, 4, q.address);
    octets::write(slot, at + format::GUARANTEE, 4, q.guarantee);
    octets::write(slot, at + format::PEER_LIMIT, 4, q.limit);
}

// Writes the pools, the session limit and the peers behind the addresses.
fn write_numbers(slot: &mut [u8], s: Settings)
    requires { settings_width ≤ length slot.old }
    ensures { slot.new ≡ put first_at (number_octets (settings_of s)) slot.old }
{
    octets::write(slot, format::FIRST, 4, s.first);
    octets::write(slot, format::SIZE, 4, s.size);
    octets::write(slot, format::FIRST_ADDRESS, 4, s.first_address);
    octets::write(slot, format::ADDRESS_COUNT, 4, s.addresses);
    octets::write(slot, format::LIMIT, 2, s.limit);
    write_peer(slot, format::PEER1, s.peer1);
    write_peer(slot, format::PEER2, s.peer2);
}

// Writes an IPv6 address at a place, where there is one.
#[tactic(auto, unfolding(octets::specs::Octets::put))]
fn write_ipv6(slot: &mut [u8], at: usize, ipv6: Option<Ipv6>)
    requires { at + 16 ≤ length slot.old }
    ensures { slot.new ≡ put at (ipv6_octets ipv6) slot.old }
{
    if let Some(a) = ipv6 {
        octets::write(slot, at, 8, a.high);
        octets::write(slot, at + 8, 8, a.low);
    }
}

// Writes the settings into their slot, which is zero.
pub fn write(slot: &mut [u8], s: Settings)
    requires { (slot.old ≡ zeros settings_width) × (length slot.old ≡ settings_width) }
    ensures { slot.new ≡ settings_octets (settings_of s) }
{
    octets::write(slot, format::IPV4, 4, s.ipv4);
    octets::write(slot, format::IPV6_THERE, 1, u64::from(s.ipv6.is_some()));
    write_ipv6(slot, format::IPV6, s.ipv6);
    write_numbers(slot, s);
}
