// The walk over the records of sessions that tests each, compares its place in the order, and marks its TEID in a map. It refuses a TEID
// held against the rule: one that is marked already has to be held by an earlier PDR of the same session with equal families and
// source interface. On a refusal nothing is said of the map, so each record is tested and marked in one turn. The addresses of a session
// follow in a second map (addresses.rt).
//
// A PDR that matches on an F-TEID has 1 at MATCH.
#![tactic(auto)]

ghost use Rattle.std.specs.Prelude.{◌≡◌, ◌+◌, ◌-◌, ◌*◌, ◌^◌, ◌≤◌, ◌&&◌, [], length, replicate};
ghost use Rattle.octets.specs.Octets.{slices};
ghost use Rattle.rules.specs.Layout.{pdr_width, endpoint_width, session_width};
ghost use Rattle.rules.specs.Limits.{max_sessions, max_addresses, address_words};
ghost use Rattle.marking.specs.Walk.{joins};
ghost use Rattle.unit.specs.Meaning.{settings_of};
ghost use Rattle.records.specs.Kept.{pdr_sound, endpoint_sound, ids_of};
ghost use Rattle.records.specs.Slot.{area_sound};
ghost use Rattle.marking.specs.Marking.{Tallied, holds_teid, alike, held_by, holds_in, pdr_hold, endpoint_hold, pdr_holds, endpoint_holds, Stepped, Marked, Admitted, SessionClaimed, AllAdmitted};
ghost use Rattle.marking.specs.Offsets.{Agrees};

use format::{
    CSID_COUNT, CSIDS, ENDPOINT, ENDPOINT_COUNT, ENDPOINT_TEID, ENDPOINTS, FAMILIES, MATCH, PDR,
    PDR_COUNT, PDRS, SLOT, SOURCE, TEID,
};
use unit::Settings;

pub mod addresses;

// What is refused: a record or a session is broken, or holds what another one holds.
#[derive(Clone, Copy, Debug, PartialEq, Eq)]
pub struct Broken;

// Whether a PDR's slot holds a TEID. Nearly all have another number there, so that is looked at first, and no branch goes by what they match on.
#[tactic(auto, unfolding(crate::specs::Marking::holds_teid, octets::specs::Octets::octet_at))]
pub fn holds(slot: &[u8; PDR], teid: u64) -> bool
    ensures { result ≡ holds_teid slot.now teid }
{
    octets::read(slot, TEID, 4) == teid && slot[MATCH] == 1
}

// Whether two PDRs have equal families and source interface.
#[tactic(auto, unfolding(crate::specs::Marking::alike, octets::specs::Octets::octet_at))]
fn same_kind(a: &[u8; PDR], b: &[u8; PDR]) -> bool
    ensures { result ≡ alike a.now b.now }
{
    a[FAMILIES] % 4 == b[FAMILIES] % 4 && a[SOURCE] == b[SOURCE]
}

// Whether the PDR in slot may share its TEID with one of those before it. It is looked for from the last on: PDRs that share one are mostly made
// one after the other.
fn shares(earlier: &[[u8; PDR]], slot: &[u8; PDR]) -> bool
    ensures { result ≡ joins (holds_in earlier.now) (held_by slot.now) }
{
    let teid = octets::read(slot, TEID, 4);
    earlier
        .iter()
        .rev()
        .any(|row| holds(row, teid) && same_kind(row, slot))
}

// One endpoint: tested, and its TEID marked, which has to be new.
fn admit_endpoint(words: &mut [u64], slot: &[u8; ENDPOINT], u: Settings) -> Result<usize, Broken>
    requires { (u.first + u.size ≤ 2 ^ 32) × (u.size ≤ 64 * length words.old) }
    ensures { Stepped (endpoint_sound (settings_of u) slot.now) u.first words.old [] (endpoint_hold slot.now) result words.new }
{
    if !records::endpoint_sound(slot, u) {
        return Err(Broken);
    }
    let teid = octets::read(slot, ENDPOINT_TEID, 4);
    if pool::mark(words, (teid - u.first) as usize) {
        return Err(Broken);
    }
    Ok(1)
}

// The area of n endpoints, in one walk: each is tested and marked, their IDs ascend, and the room after them is zero.
fn admit_endpoints(words: &mut [u64], area: &[u8], n: usize, u: Settings) -> Result<usize, Broken>
    requires { (n * endpoint_width ≤ length area.now) × (u.first + u.size ≤ 2 ^ 32) × (u.size ≤ 64 * length words.old) }
    ensures { Marked (area_sound (endpoint_sound (settings_of u)) endpoint_width 1 n area.now) u.first words.old (endpoint_holds n area.now) result words.new }
{
    let (rows, _) = area.as_chunks::<ENDPOINT>();
    let mut new: usize = 0;
    let mut next: u64 = 0;
    for row in &rows[..n] {
        let id = octets::read(row, 0, 1);
        if id < next {
            return Err(Broken);
        }
        new += admit_endpoint(words, row, u)?;
        next = id + 1;
    }
    let used = n * ENDPOINT;
    if !octets::is_zero(area, used, area.len() - used) {
        return Err(Broken);
    }
    Ok(new)
}

// A PDR, after those before it: tested, and its TEID marked, if it has one. ends has the session's endpoints.
fn admit_pdr(
    words: &mut [u64],
    earlier: &[[u8; PDR]],
    slot: &[u8; PDR],
    ends: &[[u8; ENDPOINT]],
    u: Settings,
) -> Result<usize, Broken>
    requires { (u.first + u.size ≤ 2 ^ 32) × (u.size ≤ 64 * length words.old) }
    ensures { Stepped (pdr_sound (settings_of u) (ids_of ends.now) slot.now) u.first words.old (holds_in earlier.now) (pdr_hold slot.now) result words.new }
{
    if !records::pdr_sound(slot, ends, u) {
        return Err(Broken);
    }
    if slot[MATCH] != 1 {
        return Ok(0);
    }
    let teid = octets::read(slot, TEID, 4);
    if !pool::mark(words, (teid - u.first) as usize) {
        return Ok(1);
    }
    if shares(earlier, slot) {
        return Ok(0);
    }
    Err(Broken)
}

// The area of n PDRs, in one walk: each is tested and marked, their IDs ascend, and the room after them is zero.
// Stays: (d) one walk with `admit_endpoints` would take the step as a closure, and say of every closure what `Places` and `Stepped` say of these two.
fn admit_pdrs(
    words: &mut [u64],
    area: &[u8],
    n: usize,
    ends: &[[u8; ENDPOINT]],
    u: Settings,
) -> Result<usize, Broken>
    requires { (n * pdr_width ≤ length area.now) × (u.first + u.size ≤ 2 ^ 32) × (u.size ≤ 64 * length words.old) }
    ensures { Marked (area_sound (pdr_sound (settings_of u) (ids_of ends.now)) pdr_width 2 n area.now) u.first words.old (pdr_holds n area.now) result words.new }
{
    let (rows, _) = area.as_chunks::<PDR>();
    let mut new: usize = 0;
    let mut next: u64 = 0;
    for (i, row) in rows[..n].iter().enumerate() {
        let id = octets::read(row, 0, 2);
        if id < next {
            return Err(Broken);
        }
        new += admit_pdr(words, &rows[..i], row, ends, u)?;
        next = id + 1;
    }
    let used = n * PDR;
    if !octets::is_zero(area, used, area.len() - used) {
        return Err(Broken);
    }
    Ok(new)
}

// Tests a session's slot and marks its TEIDs. A slot that is broken, or holds a TEID against the rule, is refused.
fn admit(words: &mut [u64], slot: &[u8; SLOT], u: Settings) -> Result<usize, Broken>
    requires { (u.first + u.size ≤ 2 ^ 32) × (u.size ≤ 64 * length words.old) }
    ensures { Admitted (settings_of u) words.old slot.now result words.new }
{
    if !records::slot::head_sound(slot) {
        return Err(Broken);
    }
    if !records::slot::csids_sound(&slot[CSIDS..SLOT], slot[CSID_COUNT] as usize) {
        return Err(Broken);
    }
    let m = slot[ENDPOINT_COUNT] as usize;
    let area = &slot[ENDPOINTS..CSIDS];
    let e = admit_endpoints(words, area, m, u)?;
    let (ends, _) = area.as_chunks::<ENDPOINT>();
    let n = slot[PDR_COUNT] as usize;
    let p = admit_pdrs(words, &slot[PDRS..ENDPOINTS], n, &ends[..m], u)?;
    Ok(e + p)
}

// How many TEIDs and addresses of a session were new.
#[derive(Clone, Copy)]
pub struct New {
    pub teids: usize,
    pub addresses: usize,
}

// Tests a session's slot and marks its TEIDs, and its addresses of the pool. turn counts the sessions, from 1.
fn admit_session(
    words: &mut [u64],
    holders: &mut [u16],
    addresses: &mut [u64],
    slot: &[u8; SLOT],
    turn: u16,
    u: Settings,
) -> Result<New, Broken>
    requires { (u.first + u.size ≤ 2 ^ 32) × (u.size ≤ 64 * length words.old) × (u.first_address + u.addresses ≤ 2 ^ 32) × (u.addresses ≤ 64 * length addresses.old) × (1 ≤ turn) × (turn ≤ max_sessions) × Agrees (turn - 1) u.addresses holders.old addresses.old }
    ensures { SessionClaimed (settings_of u) turn words.old addresses.old slot.now result words.new holders.new addresses.new }
{
    let teids = admit(words, slot, u)?;
    let held = addresses::admit(holders, addresses, slot, turn, u)?;
    Ok(New {
        teids,
        addresses: held,
    })
}

// What the sessions walked so far hold: how many TEIDs peer 1's hold and peer 2's, how many sessions are peer 1's, and how many addresses are held.
#[derive(Clone, Copy)]
pub struct Tally {
    pub one: usize,
    pub two: usize,
    pub first: usize,
    pub taken: usize,
}

// With a session of a peer that has so many new ones. No branch goes by whose it is.
fn added(c: Tally, new: New, peer: u8) -> Tally
    requires { Tallied c new peer }
    ensures { (result.one ≡ c.one + new.teids * (2 - peer)) × (result.two ≡ c.two + new.teids * (peer - 1)) × (result.first ≡ c.first + (2 - peer)) × (result.taken ≡ c.taken + new.addresses) }
{
    let p = peer as usize;
    Tally {
        one: c.one + new.teids * (2 - p),
        two: c.two + new.teids * (p - 1),
        first: c.first + (2 - p),
        taken: c.taken + new.addresses,
    }
}

// Tests n slots and marks their TEIDs and addresses, one after the other. The map of addresses has to be empty. No branch goes by whose a session is.
pub fn admit_all(
    words: &mut [u64],
    addresses: &mut [u64],
    a: &[u8],
    n: usize,
    u: Settings,
) -> Result<Tally, Broken>
    requires { (n * session_width ≤ length a.now) × (n ≤ max_sessions) × (u.first + u.size ≤ 2 ^ 32) × (u.size ≤ 64 * length words.old) × (u.first_address + u.addresses ≤ 2 ^ 32) × (u.addresses ≤ max_addresses) × (addresses.old ≡ replicate address_words 0) }
    ensures { AllAdmitted (settings_of u) words.old addresses.old (slices session_width n a.now) result words.new addresses.new }
{
    let mut holders = [0u16; addresses::HOLDERS];
    holders[addresses::NO_ADDRESS] = 65535;
    let mut sum = Tally {
        one: 0,
        two: 0,
        first: 0,
        taken: 0,
    };
    let (rows, _) = a.as_chunks::<SLOT>();
    for (i, slot) in rows[..n].iter().enumerate() {
        let new = admit_session(words, &mut holders, addresses, slot, (i + 1) as u16, u)?;
        sum = added(sum, new, slot[0]);
    }
    Ok(sum)
}
