// Makes tables, damages them octet by octet and counts those that are not broken then. Its lines are the outcome of making, the free
// counts of TEIDs and addresses, and for each damage how many of the damaged tables pass: of those damaged in the settings before the peers',
// in the peers' and the number of sessions, in the first two slots, and after.
// The numbers in `stdout` were worked out by a second reading of the layout in another language.
#![tactic(auto)]

mod slots;

ghost use Rattle.std.specs.Prelude.{◌≤◌, ◌<◌};

use std::io;
use table::Broken;
use unit::Peer;

// The tables have room for four sessions. Where the first two slots end, and where a table ends.
const LIMIT: usize = 4;

const TWO_SLOTS: usize = format::HEAD + 2 * format::SLOT;

const LENGTH: usize = format::HEAD + LIMIT * format::SLOT;

type Table = [u8; LENGTH];

// Where the largest table ends, with room for 256 sessions.
const LARGEST: usize = format::HEAD + 256 * format::SLOT;

// Another octet than x: the complement, or the one that differs in the lowest bit.
fn other(x: u8, lowest: bool) -> u8 {
    if lowest { x ^ 1 } else { !x }
}

// Damages the octet at i, and puts it back: whether the table is not broken in between.
fn passes(t: &mut Table, i: usize, lowest: bool) -> bool
    requires { i < LENGTH }
{
    let x = t[i];
    t[i] = other(x, lowest);
    let sound = table::is_sound(t);
    t[i] = x;
    sound
}

// How many tables are not broken when one of the octets from a to e is damaged.
fn count_sound(t: &mut Table, a: usize, e: usize, lowest: bool) -> usize
    requires { e ≤ LENGTH }
{
    let mut sound = 0;
    for i in a..e {
        if passes(t, i, lowest) {
            sound += 1;
        }
    }
    sound
}

fn counts(rt: &impl Print, t: &mut Table, lowest: bool) -> io::Result<()> {
    let settings = count_sound(t, 0, format::PEER1, lowest);
    let peers = count_sound(t, format::PEER1, format::HEAD, lowest);
    let two_slots = count_sound(t, format::HEAD, TWO_SLOTS, lowest);
    let after = count_sound(t, TWO_SLOTS, LENGTH, lowest);
    println!(rt; "{settings} {peers} {two_slots} {after} ")
}

fn told(rt: &impl Print, count: Result<u64, Broken>) -> io::Result<()> {
    match count {
        Ok(n) => println!(rt; "0 {n} "),
        Err(Broken) => println!(rt; "1 "),
    }
}

// The free counts, of TEIDs and of addresses.
fn free(rt: &impl Print, t: &[u8]) -> io::Result<()> {
    told(rt, table::free_count(t))?;
    told(rt, table::free_addresses(t))
}

// A peer of the address 192.0.2.x.
fn peer(x: u8, guarantee: u64, limit: u64) -> Peer {
    Peer {
        address: 0xc0000200 + x as u64,
        guarantee,
        limit,
    }
}

// The settings of a table but for its peers.
#[derive(Clone, Copy)]
struct Settings<'a> {
    ipv6: &'a [u8],
    first: u32,
    size: u32,
    address: u32,
    count: u32,
    limit: u32,
}

// A pool of 8 TEIDs from 4,096, and one of 4 addresses from 10.0.0.0.
fn usual(ipv6: &[u8]) -> Settings<'_> {
    Settings {
        ipv6,
        first: 4096,
        size: 8,
        address: 0x0a000000,
        count: 4,
        limit: LIMIT as u32,
    }
}

// Makes a table of the unit 192.0.2.1 with these peers, and says whether it was made.
fn make_for(
    rt: &impl Print,
    t: &mut [u8],
    u: Settings<'_>,
    peer1: Peer,
    peer2: Peer,
) -> io::Result<()> {
    let made = table::make(
        t, 0xc0000201, u.ipv6, u.first, u.size, u.address, u.count, u.limit, peer1, peer2,
    );
    println!(rt; "{} ", made.is_err() as u8)
}

// Peer 1's address is the unit's too. Three TEIDs for each of them, at most eight and five.
fn make(rt: &impl Print, t: &mut [u8], u: Settings<'_>) -> io::Result<()> {
    make_for(rt, t, u, peer(1, 3, 8), peer(2, 3, 5))
}

// Puts two sessions into the first two slots.
fn two_sessions(t: &mut Table) {
    slots::put(t, format::COUNT, 2, 2);
    let (first, second) = t[format::HEAD..].split_at_mut(format::SLOT);
    slots::first(first);
    slots::second(second);
}

// Says whether the table is sound with this guarantee and this limit of a peer in its settings.
fn sound_with(
    rt: &impl Print,
    t: &mut Table,
    peer: usize,
    guarantee: u64,
    limit: u64,
) -> io::Result<()>
    requires { peer ≤ 63 }
{
    slots::put(t, peer + format::GUARANTEE, 4, guarantee);
    slots::put(t, peer + format::PEER_LIMIT, 4, limit);
    print!(rt; "{} ", table::is_sound(t) as u8)
}

// Peer 1 holds two TEIDs and peer 2 one: within limits of two and of one, past limits of one and of none.
fn within_limits(rt: &impl Print, t: &mut Table) -> io::Result<()> {
    sound_with(rt, t, format::PEER1, 2, 2)?;
    sound_with(rt, t, format::PEER1, 1, 1)?;
    sound_with(rt, t, format::PEER1, 0, 6)?;
    sound_with(rt, t, format::PEER2, 1, 1)?;
    sound_with(rt, t, format::PEER2, 0, 0)?;
    println!(rt)
}

// With a guarantee of five for peer 2 each has its due in a pool of seven, and not in one of six: there is room there for both guarantees and
// for all that is held, but not for what peer 1 holds and what peer 2 is due.
fn within_dues(rt: &impl Print, t: &mut Table) -> io::Result<()> {
    slots::put(t, format::SIZE, 4, 7);
    sound_with(rt, t, format::PEER2, 5, 5)?;
    slots::put(t, format::SIZE, 4, 6);
    sound_with(rt, t, format::PEER2, 5, 5)?;
    sound_with(rt, t, format::PEER2, 4, 5)?;
    println!(rt)
}

// Peers that are refused: equal addresses, a guarantee past its limit, a limit past the pool, guarantees that together pass it.
// Nothing is written.
fn peers(rt: &impl Print, t: &mut Table) -> io::Result<()> {
    let u = usual(&[]);
    make_for(rt, t, u, peer(1, 3, 8), peer(1, 3, 5))?;
    make_for(rt, t, u, peer(1, 9, 8), peer(2, 3, 5))?;
    make_for(rt, t, u, peer(1, 3, 8), peer(2, 3, 9))?;
    make_for(rt, t, u, peer(1, 4, 8), peer(2, 5, 5))
}

// The limits at the ends, each in a table of the length that follows: 0, 1 and 257 are refused, 256 is not, with the largest pools.
fn limits(rt: &impl Print, u: Settings<'_>) -> io::Result<()> {
    let mut head = [0u8; format::HEAD];
    make(rt, &mut head, Settings { limit: 0, ..u })?;
    let mut one = [0u8; format::HEAD + format::SLOT];
    make(rt, &mut one, Settings { limit: 1, ..u })?;
    let mut t = [0u8; LARGEST + format::SLOT];
    make(rt, &mut t, Settings { limit: 257, ..u })?;
    let largest = &mut t[0..LARGEST];
    let all = Settings {
        size: 65536,
        count: 1024,
        limit: 256,
        ..u
    };
    make(rt, largest, all)?;
    free(rt, largest)
}

// Refused: a pool that ends past the last TEID, an IPv6 address cut short, addresses that end past the last one, none, and one too many; room
// for another number of sessions than the table's length says. Nothing is written.
fn refusals(rt: &impl Print, t: &mut Table, u: Settings<'_>, cut: &[u8]) -> io::Result<()> {
    let past = Settings {
        first: u32::MAX,
        size: 2,
        ..u
    };
    make(rt, t, past)?;
    make(rt, t, Settings { ipv6: cut, ..u })?;
    let past = Settings {
        address: u32::MAX,
        count: 2,
        ..u
    };
    make(rt, t, past)?;
    make(rt, t, Settings { count: 0, ..u })?;
    make(rt, t, Settings { count: 1025, ..u })?;
    let limit = LIMIT as u32 + 1;
    make(rt, t, Settings { limit, ..u })
}

fn main(rt: HostRuntime) -> io::Result<()> {
    let mut t = [0u8; LENGTH];
    let address: [u8; 16] = [32, 1, 13, 184, 0, 0, 0, 0, 0, 0, 0, 0, 0, 0, 0, 1];
    make(&rt, &mut t, usual(&[]))?;
    free(&rt, &t)?;
    counts(&rt, &mut t, true)?;
    counts(&rt, &mut t, false)?;
    // The same with an IPv6 address, and two sessions.
    let u = usual(&address);
    make(&rt, &mut t, u)?;
    two_sessions(&mut t);
    free(&rt, &t)?;
    counts(&rt, &mut t, true)?;
    counts(&rt, &mut t, false)?;
    refusals(&rt, &mut t, u, &address[..4])?;
    peers(&rt, &mut t)?;
    free(&rt, &t)?;
    within_limits(&rt, &mut t)?;
    within_dues(&rt, &mut t)?;
    limits(&rt, u)
}
