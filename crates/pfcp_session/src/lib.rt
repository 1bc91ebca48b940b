// The calls for a host program in C. include/pfcp_session.h says what a host must pass.
//
// A slice is passed as a pointer and then its length. Every call may be given any octets and any numbers.
#![tactic(auto)]

ghost use Rattle.std.specs.Prelude.{◌≡◌, MatchResult};
ghost use Rattle.rules.specs.Sound.{length_for};
ghost use Rattle.unit.specs.Meaning.{settings_given};
ghost use Rattle.table.specs.Answers.{count_told};
ghost use Rattle.rules.specs.Store.{store_length};
ghost use Rattle.engine.specs.Outcomes as answered;
ghost use Rattle.finding.specs.Answers.{outcome_of};
ghost use Rattle.pfcp_session.specs.Calls.{store_call, once_call, CountFits, count_answer, make_call, count_call, address_count_call, request_call, restoration_call, session_count_call, find_session_call, find_teid_call, peer_count_call, counts_call};

use changes::Replied;
use engine::outcome::Outcome;
use finding::Untold;
use table::Broken;
use unit::Peer;

// Outcomes of making a table.
const MADE: u32 = 0;

const REFUSED: u32 = 1;

// The outcome of a written restoration request.
const WRITTEN: u32 = 0;

// Outcomes of counting; the second is 01's outcome 1.
const COUNTED: u32 = 0;

const BROKEN: u32 = 1;

// The outcome of a request that has a reply.
const REPLIED: u32 = 0;

// The outcome of what a table told: 0, or why it told nothing.
fn outcome<T>(told: &Result<T, Untold>) -> u32
    ensures { MatchResult told.now (λ x. result ≡ 0) (λ untold. result ≡ outcome_of untold) }
{
    match told {
        Ok(_) => COUNTED,
        Err(untold) => untold.outcome(),
    }
}

// How many octets a table with room for so many sessions has; 0 for a limit that is not allowed: 2 to 256 are.
#[unsafe(no_mangle)]
pub extern "C" fn pfcp_table_length(session_limit: u32) -> usize
    ensures { result ≡ length_for session_limit }
{
    table::length_for(session_limit)
}

// Makes an empty table: 0 made, 1 refused (nothing is written). No IPv6 address is a length of 0. The pool of TEIDs has size of them from
// first on, the pool of patients' addresses address_count of them from first_address on; there is room for session_limit sessions, half of
// it for each peer. Of each peer: its signalling address on the unit, how many TEIDs it is guaranteed, and how many it may hold.
#[unsafe(no_mangle)]
pub extern "C" fn pfcp_make_table(
    table: &mut [u8],
    ipv4: u32,
    ipv6: &[u8],
    first: u32,
    size: u32,
    first_address: u32,
    address_count: u32,
    session_limit: u32,
    address1: u32,
    guarantee1: u32,
    limit1: u32,
    address2: u32,
    guarantee2: u32,
    limit2: u32,
) -> u32
    ensures { record { outcome = result; table = table.new }
        ≡ make_call
        (settings_given ipv4 ipv6.now first size first_address address_count session_limit
        (record { address = address1; guarantee = guarantee1; limit = limit1 })
        (record { address = address2; guarantee = guarantee2; limit = limit2 }))
        table.old }
{
    let peer1 = Peer {
        address: address1 as u64,
        guarantee: guarantee1 as u64,
        limit: limit1 as u64,
    };
    let peer2 = Peer {
        address: address2 as u64,
        guarantee: guarantee2 as u64,
        limit: limit2 as u64,
    };
    match table::make(
        table,
        ipv4,
        ipv6,
        first,
        size,
        first_address,
        address_count,
        session_limit,
        peer1,
        peer2,
    ) {
        Ok(()) => MADE,
        Err(_) => REFUSED,
    }
}

// A count for the host: outcome 0 and the number, or 1 and 0 where the table is broken.
fn tell(answer: Result<u64, Broken>, count: &mut u32) -> u32
    requires { CountFits (count_told answer) }
    ensures { record { outcome = result; count = count.new } ≡ count_answer (count_told answer) }
{
    match answer {
        Err(_) => {
            *count = 0;
            BROKEN
        }
        Ok(n) => {
            *count = n as u32;
            COUNTED
        }
    }
}

// Writes the number of free TEIDs to count: outcome 0, or 1 and 0 TEIDs where the table is broken or of wrong length.
#[unsafe(no_mangle)]
pub extern "C" fn pfcp_free_count(table: &[u8], count: &mut u32) -> u32
    ensures { record { outcome = result; count = count.new } ≡ count_call table.now }
{
    let answer = table::free_count(table);
    tell(answer, count)
}

// Writes the number of free addresses of the pool to count: outcome 0, or 1 and 0 where the table is broken or of wrong length.
#[unsafe(no_mangle)]
pub extern "C" fn pfcp_free_addresses(table: &[u8], count: &mut u32) -> u32
    ensures { record { outcome = result; count = count.new } ≡ address_count_call table.now }
{
    let answer = table::free_addresses(table);
    tell(answer, count)
}

// An answer for the host: outcome 0 with the reply's length and the place of a fault, or the outcome's number and zeros.
fn tell_answer(answer: Result<Replied, Outcome>, used: &mut usize, place: &mut usize) -> u32
    ensures outcome { result ≡ answered.outcome_of answer }
    ensures used { used.new ≡ answered.used_of answer }
    ensures place { place.new ≡ answered.place_of answer }
{
    match answer {
        Ok(replied) => {
            *used = replied.used;
            *place = replied.place;
            REPLIED
        }
        Err(outcome) => {
            *used = 0;
            *place = 0;
            u32::from(outcome)
        }
    }
}

// Handles one request of a peer, 1 or 2: 01's outcome; 7 for any other number, before anything else. With outcome 0 the reply stands at the
// front of the reply space, and used is its length; any other outcome writes nothing but 0 there. The place is that of a fault found in
// stages 2 and 3: the index in the message, from 0, of the type's first octet of the element at fault, or of the group that lacks a member or
// has under 4 octets left; 0 for the message, and where there is no such fault.
#[unsafe(no_mangle)]
pub extern "C" fn pfcp_request(
    table: &mut [u8],
    peer: u32,
    message: &[u8],
    reply: &mut [u8],
    used: &mut usize,
    place: &mut usize,
) -> u32
    ensures { record { outcome = result; used = used.new; place = place.new; space = reply.new; table = table.new }
        ≡ request_call table.old peer message.now reply.old }
{
    let answer = engine::serve(table, peer, message, reply);
    tell_answer(answer, used, place)
}

// How many octets a store of repeated requests has; each peer has one.
#[unsafe(no_mangle)]
pub extern "C" fn pfcp_store_length() -> usize
    ensures { result ≡ store_length }
{
    store::LENGTH
}

// Empties a store of repeated requests: 0 made, 1 refused where its length is wrong (nothing is written). With a new table, and with one that
// was read in, the host empties the store too.
#[unsafe(no_mangle)]
pub extern "C" fn pfcp_make_store(store: &mut [u8]) -> u32
    ensures { record { outcome = result; store = store.new } ≡ store_call store.old }
{
    if store::clear(store).is_err() {
        return REFUSED;
    }
    MADE
}

// Handles one request as pfcp_request does, but a repeat gets the old reply: octets equal to those of one of the last eight requests that were
// replied to get the stored reply, at place 0, and change nothing. Otherwise the sequence number has to be newer than that of the request
// stored last, or it is outcome 6. A broken store, or one of wrong length, is outcome 1. The store is the named peer's.
#[unsafe(no_mangle)]
pub extern "C" fn pfcp_request_once(
    table: &mut [u8],
    peer: u32,
    store: &mut [u8],
    message: &[u8],
    reply: &mut [u8],
    used: &mut usize,
    place: &mut usize,
) -> u32
    ensures { record { outcome = result; used = used.new; place = place.new; space = reply.new; table = table.new; store = store.new }
        ≡ once_call table.old peer store.old message.now reply.old }
{
    let told = repeats::serve_once(table, peer, store, message, reply);
    tell_answer(told, used, place)
}

// Writes the restoration request of the session at a place, from 0, with the control plane's addresses (4 octets or none, 16 octets or
// none): outcome 0, used is the request's length, and peer the peer to run it under. A refusal, 1 to 4, writes nothing but 0 there. Places
// count the sessions of both peers, peer 1's first.
#[unsafe(no_mangle)]
pub extern "C" fn pfcp_write_restoration(
    table: &[u8],
    place: usize,
    ipv4: &[u8],
    ipv6: &[u8],
    space: &mut [u8],
    used: &mut usize,
    peer: &mut u32,
) -> u32
    ensures { record { outcome = result; used = used.new; peer = peer.new; space = space.new }
        ≡ restoration_call table.now place ipv4.now ipv6.now space.old }
{
    match restoration::write_restoration(table, place, ipv4, ipv6, space) {
        Ok(written) => {
            *used = written.used;
            *peer = written.peer;
            WRITTEN
        }
        Err(unwritten) => {
            *used = 0;
            *peer = 0;
            unwritten.outcome()
        }
    }
}

// Writes the number of sessions to count: outcome 0, or 1 and 0 where the table is broken or of wrong length.
#[unsafe(no_mangle)]
pub extern "C" fn pfcp_session_count(table: &[u8], count: &mut u32) -> u32
    ensures { record { outcome = result; number = count.new } ≡ session_count_call table.now }
{
    let counted = finding::session_count(table);
    *count = counted.unwrap_or(0) as u32;
    outcome(&counted)
}

// Writes the place, from 0, of the session of a peer's SEID: outcome 0, or 1 where the table is broken or of wrong length, 2 where no session
// of the peer has it, as with any number that is no peer's, and 0 there.
#[unsafe(no_mangle)]
pub extern "C" fn pfcp_find_session(table: &[u8], peer: u32, seid: u64, place: &mut usize) -> u32
    ensures { record { outcome = result; number = place.new } ≡ find_session_call table.now peer seid }
{
    let found = finding::find_session(table, peer, seid);
    *place = found.unwrap_or(0);
    outcome(&found)
}

// Writes the place, from 0, of the session that holds a TEID: outcome 0, or 1 where the table is broken or of wrong length, 2 where no
// session holds it, and 0 there. No two sessions hold one TEID.
#[unsafe(no_mangle)]
pub extern "C" fn pfcp_find_teid(table: &[u8], teid: u32, place: &mut usize) -> u32
    ensures { record { outcome = result; number = place.new } ≡ find_teid_call table.now teid }
{
    let holder = finding::find_holder(table, teid as u64);
    *place = holder.unwrap_or(0);
    outcome(&holder)
}

// Writes how many sessions a peer has, and how many different TEIDs their records hold: outcome 0, or 7 for a number that is no peer's, 1 where
// the table is broken or of wrong length, and zeros there.
#[unsafe(no_mangle)]
pub extern "C" fn pfcp_peer_count(
    table: &[u8],
    peer: u32,
    sessions: &mut u32,
    teids: &mut u32,
) -> u32
    ensures { record { outcome = result; sessions = sessions.new; teids = teids.new } ≡ peer_count_call table.now peer }
{
    let told = finding::peer_count(table, peer);
    let share = told.unwrap_or_default();
    *sessions = share.sessions as u32;
    *teids = share.teids as u32;
    outcome(&told)
}

// Writes all counts of a table at once, by one check of it: of each peer its sessions and the different TEIDs that their records hold, and how many TEIDs
// and addresses of the pools are free. Outcome 0, or 1 where the table is broken or of wrong length, and zeros there.
#[unsafe(no_mangle)]
pub extern "C" fn pfcp_counts(
    table: &[u8],
    sessions1: &mut u32,
    teids1: &mut u32,
    sessions2: &mut u32,
    teids2: &mut u32,
    free: &mut u32,
    addresses: &mut u32,
) -> u32
    ensures { record { outcome = result; sessions1 = sessions1.new; teids1 = teids1.new; sessions2 = sessions2.new; teids2 = teids2.new; free = free.new; free_addresses = addresses.new } ≡ counts_call table.now }
{
    let counts = finding::counts::all(table);
    let all = counts.unwrap_or_default();
    *sessions1 = all.peer1.sessions as u32;
    *teids1 = all.peer1.teids as u32;
    *sessions2 = all.peer2.sessions as u32;
    *teids2 = all.peer2.teids as u32;
    *free = all.free as u32;
    *addresses = all.addresses as u32;
    outcome(&counts)
}
