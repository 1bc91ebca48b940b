// The lent session table: whether it is broken, the maps of its TEIDs and addresses and how many are free; making an empty one.
//
// A table is the settings (63 octets), the number of sessions (2) and as many slots of 604 octets as the settings' limit says; docs/ has
// the layout.
#![tactic(auto)]

ghost use Rattle.std.specs.Prelude.{◌≡◌, ◌||◌, eqb, ◌≤◌, length, replicate, ◌+◌, ◌-◌, ◌&&◌};
ghost use Rattle.rules.specs.Limits.{map_words, address_words};
ghost use Rattle.rules.specs.Sound.{sound, count_free, count_addresses, length_for, make};
ghost use Rattle.rules.specs.Layout.{head_width, view_settings};
ghost use Rattle.unit.specs.Meaning.{settings_of, settings_given, peer_from};
ghost use Rattle.table.specs.Tests.{front_sound, sessions_fit, teids_fit};
ghost use Rattle.table.specs.Answers.{Examined, examined, count_told, made_of};

use format::{COUNT, HEAD, SETTINGS, SLOT};
pub use marking::{Broken, Tally};
use unit::{Peer, Settings};

// The tests before the walk over the sessions: settings, length, number of sessions, order of keys, unused room. u has the settings.
fn front_sound(t: &[u8], u: Settings) -> bool
    requires { (head_width ≤ length t.now) × (settings_of u ≡ view_settings t.now) }
    ensures { result ≡ front_sound t.now }
{
    let n = octets::read(t, COUNT, 2);
    records::settings_sound(t.first_chunk().unwrap(), u)
        && t.len() == HEAD + u.limit as usize * SLOT
        && n <= u.limit
        && records::slot::ordered(&t[HEAD..], SLOT, n as usize)
}

// The more of what a peer holds and what it is guaranteed.
pub fn due(n: u64, guarantee: u64) -> u64
    ensures { result ≡ n + (guarantee - n) }
{
    n.max(guarantee)
}

// Whether each peer has its half of the sessions at most.
#[tactic(auto, unfolding(crate::specs::Tests::sessions_fit, rules::specs::Model::half, unit::specs::Meaning::settings_of))]
fn sessions_fit(u: Settings, first: usize, second: usize) -> bool
    ensures { result ≡ sessions_fit (settings_of u) first second }
{
    let half = u.limit / 2;
    first as u64 <= half && second as u64 <= half
}

// Whether each peer holds its limit of TEIDs at most, and what the two hold or are guaranteed is not more than the pool.
#[tactic(auto, unfolding(crate::specs::Tests::teids_fit, rules::specs::Model::peer_of, unit::specs::Meaning::settings_of))]
fn teids_fit(u: Settings, one: usize, two: usize) -> bool
    ensures { result ≡ teids_fit (settings_of u) one two }
{
    let rest = due(two as u64, u.peer2.guarantee);
    one as u64 <= u.peer1.limit
        && two as u64 <= u.peer2.limit
        && rest <= u.size
        && due(one as u64, u.peer1.guarantee) <= u.size - rest
}

// Both. second is how many sessions peer 2 has.
fn peers_fit(u: Settings, held: Tally, second: usize) -> bool
    ensures { result ≡ (sessions_fit (settings_of u) held.first second && teids_fit (settings_of u) held.one held.two) }
{
    sessions_fit(u, held.first, second) && teids_fit(u, held.one, held.two)
}

// Tests the whole table and fills the maps of its TEIDs and addresses, which have to be empty: broken, or what its sessions hold.
pub fn examine(t: &[u8], words: &mut [u64], addresses: &mut [u64]) -> Result<Tally, Broken>
    requires { (words.old ≡ replicate map_words 0) × (addresses.old ≡ replicate address_words 0) }
    ensures { Examined t.now result words.new addresses.new }
{
    if t.len() < HEAD {
        return Err(Broken);
    }
    let u = unit::read(t);
    if !front_sound(t, u) {
        return Err(Broken);
    }
    let n = octets::read(t, COUNT, 2) as usize;
    let held = marking::admit_all(words, addresses, &t[HEAD..], n, u)?;
    if !peers_fit(u, held, n - held.first) {
        return Err(Broken);
    }
    Ok(held)
}

// What the sessions of a table hold, if it is not broken.
pub fn tally(t: &[u8]) -> Result<Tally, Broken>
    ensures { result ≡ examined t.now }
{
    let mut words = [0u64; pool::WORDS];
    let mut addresses = [0u64; pool::ADDRESS_WORDS];
    examine(t, &mut words, &mut addresses)
}

// Whether the table is not broken.
pub fn is_sound(t: &[u8]) -> bool
    ensures { result ≡ sound t.now }
{
    tally(t).is_ok()
}

// How many TEIDs of the pool no record holds.
pub fn free_count(t: &[u8]) -> Result<u64, Broken>
    ensures { count_told result ≡ count_free t.now }
{
    let held = tally(t)?;
    Ok(unit::read(t).size - (held.one + held.two) as u64)
}

// How many addresses of the pool no record holds.
pub fn free_addresses(t: &[u8]) -> Result<u64, Broken>
    ensures { count_told result ≡ count_addresses t.now }
{
    let held = tally(t)?;
    Ok(unit::read(t).addresses - held.taken as u64)
}

// How many octets a table of so many sessions has; none for a limit that is not allowed.
pub fn length_for(limit: u32) -> usize
    ensures { result ≡ length_for limit }
{
    if !unit::limit_allowed(limit as u64) {
        return 0;
    }
    HEAD + limit as usize * SLOT
}

// The settings or the length of a table that was to be made are not allowed.
#[derive(Clone, Copy, Debug, PartialEq, Eq)]
pub struct Refused;

// Whether there is no IPv6 address, or a whole one.
fn address_fits(n: usize) -> bool
    ensures { result ≡ (eqb n 0 || eqb n 16) }
{
    n == 0 || n == 16
}

// Makes an empty table of the unit's IPv4 address, IPv6 address (16 octets, or none), first TEID and number of TEIDs, first address and
// number of addresses, session limit, and the two peers. Nothing is written where it is refused.
pub fn make(
    t: &mut [u8],
    ipv4: u32,
    ipv6: &[u8],
    first: u32,
    size: u32,
    address: u32,
    count: u32,
    limit: u32,
    peer1: Peer,
    peer2: Peer,
) -> Result<(), Refused>
    ensures { made_of result t.new ≡ make (settings_given ipv4 ipv6.now first size address count limit (peer_from peer1) (peer_from peer2)) t.old }
{
    let n = HEAD + limit as usize * SLOT;
    if t.len() != n {
        return Err(Refused);
    }
    if !address_fits(ipv6.len()) {
        return Err(Refused);
    }
    let u = unit::given(ipv4, ipv6, first, size, address, count, limit, peer1, peer2);
    if !unit::allowed(u) {
        return Err(Refused);
    }
    octets::clear(t, 0, n);
    unit::write(&mut t[0..SETTINGS], u);
    Ok(())
}
