// The addresses of the pool in a session's records, marked in a map of their own (02 (v)). A session's records may share one, so beside the
// map stands who holds each: the session's turn in the walk, from 1. An address that a session before this one holds is a clash; one that
// nobody holds is entered once. No branch goes by whether a record has an address of the pool: one that has none is sent to a holder after
// those of the pool, which is never free and never an earlier session.
//
// An offset is an address less the pool's first. A record has at `at` whether it has an address, and the address after it.
ghost use Rattle.std.specs.Prelude.{◌≡◌, ◌+◌, ◌-◌, ◌*◌, ◌^◌, ◌≤◌, T, length, slice_index};
ghost use Rattle.rules.specs.Layout.{session_width};
ghost use Rattle.rules.specs.Limits.{max_sessions};
ghost use Rattle.unit.specs.Meaning.{settings_of};
ghost use Rattle.records.specs.Slot.{slot_sound};
ghost use Rattle.marking.specs.Offsets.{offset_of, address_at, offsets_in, holder_at, Present, Agrees, Claimable, Claimed, AreaClaimed, SlotClaimed};

use crate::Broken;
use format::{
    CSIDS, ENDPOINT, ENDPOINT_ADDRESS_THERE, ENDPOINT_COUNT, ENDPOINTS, MAX_ADDRESSES, PDR,
    PDR_ADDRESS_THERE, PDR_COUNT, PDRS, SLOT,
};
use unit::Settings;

// How many holders there are: one for each address of the largest pool, and the one after them.
pub const HOLDERS: usize = NO_ADDRESS + 1;

pub const NO_ADDRESS: usize = MAX_ADDRESSES as usize;

// Where the holder of a record's address stands. An address that is there counts 2^32 more, so that one that is not there is below every pool.
fn holder_of(slot: &[u8], at: usize, u: Settings) -> usize
    requires { (at + 5 ≤ length slot.now) × (u.first_address + u.addresses ≤ 2 ^ 32) × (slice_index slot.now at ≤ 1) }
    ensures { result ≡ holder_at (offset_of (settings_of u) (address_at at slot.now)) }
{
    let address = slot[at] as u64 * 4294967296 + octets::read(slot, at + 1, 4);
    let i = std::num::wrapping_sub_u64(address, 4294967296 + u.first_address);
    if i < u.addresses {
        return i as usize;
    }
    NO_ADDRESS
}

// The holder at p: this session's turn from now on, if there was none. An earlier session's is refused; else the answer is how many are new.
fn claim(holders: &mut [u16], words: &mut [u64], p: usize, turn: u16) -> Result<usize, Broken>
    requires { Claimable p holders.old words.old }
    ensures { Claimed turn p holders.old words.old result holders.new words.new }
{
    let holder = holders[p];
    if holder == 0 {
        holders[p] = turn;
        pool::mark(words, p);
        return Ok(1);
    }
    if holder < turn {
        return Err(Broken);
    }
    Ok(0)
}

// The addresses of an area of n records of w octets.
fn claim_all(
    holders: &mut [u16],
    words: &mut [u64],
    a: &[u8],
    n: usize,
    w: usize,
    at: usize,
    turn: u16,
    u: Settings,
) -> Result<usize, Broken>
    requires { (n * w ≤ length a.now) × (at + 5 ≤ w) × (u.first_address + u.addresses ≤ 2 ^ 32) × (u.addresses ≤ 64 * length words.old) × (1 ≤ turn) × (turn ≤ max_sessions) × Agrees turn u.addresses holders.old words.old × Present w at n a.now }
    ensures { AreaClaimed turn u.addresses (offsets_in (settings_of u) w at n a.now) n holders.old words.old result holders.new words.new }
{
    let mut new: usize = 0;
    for i in 0..n {
        let start = i * w;
        let p = holder_of(&a[start..start + w], at, u);
        new += claim(holders, words, p, turn)?;
    }
    Ok(new)
}

// The addresses of a session's records.
pub fn admit(
    holders: &mut [u16],
    words: &mut [u64],
    slot: &[u8; SLOT],
    turn: u16,
    u: Settings,
) -> Result<usize, Broken>
    requires { T (slot_sound (settings_of u) slot.now) × (u.first + u.size ≤ 2 ^ 32) × (u.first_address + u.addresses ≤ 2 ^ 32) × (u.addresses ≤ 64 * length words.old) × (1 ≤ turn) × (turn ≤ max_sessions) × Agrees (turn - 1) u.addresses holders.old words.old }
    ensures { SlotClaimed (settings_of u) turn words.old slot.now result holders.new words.new }
{
    let m = slot[ENDPOINT_COUNT] as usize;
    let e = claim_all(
        holders,
        words,
        &slot[ENDPOINTS..CSIDS],
        m,
        ENDPOINT,
        ENDPOINT_ADDRESS_THERE,
        turn,
        u,
    )?;
    let n = slot[PDR_COUNT] as usize;
    let p = claim_all(
        holders,
        words,
        &slot[PDRS..ENDPOINTS],
        n,
        PDR,
        PDR_ADDRESS_THERE,
        turn,
        u,
    )?;
    Ok(e + p)
}
