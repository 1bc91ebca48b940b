// What a table tells beside its requests: how many sessions there are, the place of a peer's SEID, for a TEID the place of the session that
// holds it, and how many sessions and TEIDs a peer has. Each is asked of any octets; a broken table is told first, but a number that is no
// peer's before it.
#![tactic(auto)]

ghost use Rattle.std.specs.Prelude.{◌≡◌, ◌*◌, ◌≤◌, T, length, MatchOption};
ghost use Rattle.std.proofs.Math.Option.{none, some};
ghost use Rattle.rules.specs.Layout.{view_session, view_sessions, pdr_width, endpoint_width};
ghost use Rattle.rules.specs.Sound.{sound};
ghost use Rattle.rules.specs.Finding.{is_holder, holder_place, count_sessions, find_session, find_holder, count_peer};
ghost use Rattle.finding.specs.Holds.{endpoints_hold, pdrs_hold, SlotCounted};
ghost use Rattle.finding.specs.Answers.{outcome_of, finding_told};
ghost use Rattle.finding.specs.Peers.{share_told};

pub mod counts;

use format::{ENDPOINT, ENDPOINT_COUNT, ENDPOINTS, HEAD, PDR, PDR_COUNT, PDRS, SLOT};

// Why a table does not tell what it was asked.
#[derive(Clone, Copy, Debug, PartialEq, Eq)]
pub enum Untold {
    // It is broken.
    Broken,
    // No session has what was looked for.
    NotFound,
    // The number is no peer's.
    NoPeer,
}

impl Untold {
    // The host's outcome.
    pub fn outcome(self) -> u32
        ensures { result ≡ outcome_of self }
    {
        match self {
            Untold::Broken => 1,
            Untold::NotFound => 2,
            Untold::NoPeer => 7,
        }
    }
}

// What a peer has.
#[derive(Clone, Copy, Debug, Default, PartialEq, Eq)]
pub struct Share {
    pub sessions: usize,
    pub teids: usize,
}

// Whether one of n endpoints holds a TEID, which stands after the ID.
fn endpoints_hold(ends: &[u8], n: usize, teid: u64) -> bool
    requires { n * endpoint_width ≤ length ends.now }
    ensures { result ≡ endpoints_hold teid n ends.now }
{
    let (rows, _) = ends.as_chunks::<ENDPOINT>();
    rows[..n].iter().any(|row| octets::read(row, 1, 4) == teid)
}

// Whether one of n PDRs holds a TEID.
fn pdrs_hold(pdrs: &[u8], n: usize, teid: u64) -> bool
    requires { n * pdr_width ≤ length pdrs.now }
    ensures { result ≡ pdrs_hold teid n pdrs.now }
{
    let (rows, _) = pdrs.as_chunks::<PDR>();
    rows[..n].iter().any(|row| marking::holds(row, teid))
}

// Whether a record of the session in a slot holds a TEID.
fn slot_holds(slot: &[u8], teid: u64) -> bool
    requires { SlotCounted slot.now }
    ensures { result ≡ is_holder teid (view_session slot.now) }
{
    endpoints_hold(&slot[ENDPOINTS..], slot[ENDPOINT_COUNT] as usize, teid)
        || pdrs_hold(&slot[PDRS..], slot[PDR_COUNT] as usize, teid)
}

// The first of the n sessions that holds a TEID.
// Stays: `position` over the slots asks that slot_holds may be called of any slot (`position-requires-clause-callable`), and it is of counted ones alone.
fn holder(t: &[u8], n: usize, teid: u64) -> Option<usize>
    requires { T (sound t.now) × (n ≡ length (view_sessions t.now)) }
    ensures { MatchOption result (holder_place teid (view_sessions t.now) ≡ none) (λ i. holder_place teid (view_sessions t.now) ≡ some i) }
{
    for i in 0..n {
        let at = HEAD + i * SLOT;
        if slot_holds(&t[at..at + SLOT], teid) {
            return Some(i);
        }
    }
    None
}

// How many sessions there are.
pub fn session_count(t: &[u8]) -> Result<usize, Untold>
    ensures { finding_told result ≡ count_sessions t.now }
{
    if !table::is_sound(t) {
        return Err(Untold::Broken);
    }
    Ok(octets::read(t, format::COUNT, 2) as usize)
}

// The place of the session of a peer's SEID.
pub fn find_session(t: &[u8], peer: u32, seid: u64) -> Result<usize, Untold>
    ensures { finding_told result ≡ find_session t.now peer seid }
{
    if !table::is_sound(t) {
        return Err(Untold::Broken);
    }
    let room = octets::read(t, format::LIMIT, 2) as usize;
    match session::find(t, room, format::COUNT, peer as u64, seid) {
        Ok(place) => Ok(place),
        Err(_) => Err(Untold::NotFound),
    }
}

// The place of the session that holds a TEID; no two do.
pub fn find_holder(t: &[u8], teid: u64) -> Result<usize, Untold>
    ensures { finding_told result ≡ find_holder t.now teid }
{
    if !table::is_sound(t) {
        return Err(Untold::Broken);
    }
    let n = octets::read(t, format::COUNT, 2) as usize;
    holder(t, n, teid).ok_or(Untold::NotFound)
}

// How many sessions a peer has, and how many different TEIDs their records hold.
pub fn peer_count(t: &[u8], peer: u32) -> Result<Share, Untold>
    ensures { share_told result ≡ count_peer t.now peer }
{
    if !unit::is_peer(peer) {
        return Err(Untold::NoPeer);
    }
    let all = counts::all(t)?;
    Ok(if peer == 1 { all.peer1 } else { all.peer2 })
}
