// Stages 4 and 5 of a request: the causes 64, 71, 76, 73, 75 and 79, judged on the plan's rows, the session's slot at entry and the IDs of its PDRs
// that go. Nothing is written here.
#![tactic(auto)]

ghost use Rattle.std.specs.Prelude.{◌≡◌, false, ◌&&◌, ◌*◌, ◌+◌, ◌-◌, ◌≤◌, eqb, ltb, length};
ghost use Rattle.std.specs.Result.{is_ok};
ghost use Rattle.rules.specs.Message.{establishment};
ghost use Rattle.rules.specs.Model.{free_address_count, of_peer};
ghost use Rattle.rules.specs.Layout.{view_session, view_sessions};
ghost use Rattle.rules.specs.Stages.{too_many_sessions, room_lacks, address_lacks, judge};
ghost use Rattle.plan.specs.Rows.{rows_of, tagged, request_in};
ghost use Rattle.plan.specs.RowRules.{request_of, held_in, marked_address};
ghost use Rattle.unit.specs.Meaning.{settings_of};
ghost use Rattle.stages.specs.RowRules.{breaks_row, some_row};
ghost use Rattle.stages.specs.Rules.{Slot, Gone, ShareOf, AtEntry, breaks_rule_by};

pub mod row;
pub mod session;

use format::{Row, causes, kinds, types};
use row::Ids;
use unit::Settings;

// What the peer of a request has at entry: how many TEIDs it may still take, and how many sessions it has.
#[derive(Clone, Copy)]
pub struct Share {
    pub peer: u32,
    pub teids: usize,
    pub sessions: usize,
}

// What is known of a request from its header on: the settings, what its peer has, how many addresses are free at entry, its type, and the SEID of
// its header.
#[derive(Clone, Copy)]
pub struct Known {
    pub u: Settings,
    pub share: Share,
    pub addresses: usize,
    pub kind: u64,
    pub seid: u64,
}

// What reading it added: the SEID of its F-SEID, which counts for an establishment; where its session stands in the table, Ok, or, where it is not
// live, has its place, Err; how many rows its plan has, whether it is a restoration, and whether element 129 was met.
#[derive(Clone, Copy)]
pub struct Told {
    pub seid: u64,
    pub place: Result<usize, usize>,
    pub rows: usize,
    pub restoring: bool,
    pub noted: bool,
}

// Cause 73: does one of the rows break a rule?
#[tactic(auto, unfolding(crate::specs::RowRules::breaks_row, crate::specs::RowRules::some_row))]
fn breaks_rows(
    rows: &[Row],
    ids: &Ids,
    u: Settings,
    taken: &[u64],
    addresses: &[u64],
    restoring: bool,
) -> bool
    requires { (u.size ≤ 64 * length taken.now) × (u.addresses ≤ 64 * length addresses.now) }
    ensures { result ≡ some_row (breaks_row (held_in (settings_of u) taken.now) (marked_address (settings_of u) addresses.now) (settings_of u) restoring ids.now.pdrs.now ids.now.endpoints.now ids.now.gone.now rows.now) rows.now }
{
    let mut rest = rows;
    while let Some((row, later)) = rest.split_first() {
        if row::breaks_id(row, rows, ids)
            || row::breaks_fteid(row, u, taken)
            || row::breaks_address(row, u, restoring, addresses)
            || plan::disagrees(row, later)
        {
            return true;
        }
        rest = later;
    }
    false
}

// Cause 73: is a rule broken?
pub fn breaks_rule(
    u: Settings,
    taken: &[u64],
    addresses: &[u64],
    slot: &[u8],
    gone: &[u64],
    rows: &[Row],
    restoring: bool,
) -> bool
    requires { (u.size ≤ 64 * length taken.now) × Slot slot.now × Gone slot.now rows.now gone.now × (u.addresses ≤ 64 * length addresses.now) }
    ensures { result ≡ breaks_rule_by (held_in (settings_of u) taken.now) (marked_address (settings_of u) addresses.now) (settings_of u) (view_session slot.now) (request_of restoring rows.now) }
{
    let k = slot[format::PDR_COUNT] as usize;
    let j = slot[format::ENDPOINT_COUNT] as usize;
    let mut pdrs = [0u64; format::MAX_PDRS];
    let mut endpoints = [0u64; format::MAX_ENDPOINTS];
    session::ids::<{ format::PDR }>(plan::arrays(&slot[format::PDRS..], k), 2, &mut pdrs);
    session::ids::<{ format::ENDPOINT }>(
        plan::arrays(&slot[format::ENDPOINTS..], j),
        1,
        &mut endpoints,
    );
    let ids = Ids {
        pdrs: &pdrs[..k],
        endpoints: &endpoints[..j],
        gone,
    };
    breaks_rows(rows, &ids, u, taken, addresses, restoring)
}

// Would more records result than there is room for? Live ones less those removed, plus those created.
fn too_many(live: usize, limit: usize, removed: usize, rows: &[Row], new: u64) -> bool
    ensures { result ≡ ltb limit (live - removed + length (tagged new rows.now)) }
{
    let kept = live.saturating_sub(removed);
    limit < kept || limit - kept < plan::count(rows, new)
}

// Would an establishment be one session too many for its peer?
#[tactic(auto, using(crate::proofs::CountLaws::full_row))]
fn full(t: &[u8], k: Known) -> bool
    requires { k.share.sessions ≡ length (of_peer k.share.peer (view_sessions t.now)) }
    ensures { result ≡ too_many_sessions (settings_of k.u) k.share.peer k.kind (view_sessions t.now) }
{
    k.kind == kinds::ESTABLISHMENT && k.u.limit / 2 <= k.share.sessions as u64
}

// Cause 75: more sessions of the peer than half the settings' limit, 16 PDRs or 8 endpoints would result, or more TEIDs are needed than the peer may take.
pub fn no_room(t: &[u8], k: Known, slot: &[u8], gone: &[u64], rows: &[Row]) -> bool
    requires { ShareOf (settings_of k.u) (view_sessions t.now) k.share.peer k.share.teids k.share.sessions × Slot slot.now × Gone slot.now rows.now gone.now }
    ensures { result ≡ room_lacks k.kind (settings_of k.u) k.share.peer (view_sessions t.now) (view_session slot.now) (request_of false rows.now) }
{
    let pdrs = slot[format::PDR_COUNT] as usize;
    let endpoints = slot[format::ENDPOINT_COUNT] as usize;
    let gone_endpoints = plan::count(rows, types::REMOVE_ENDPOINT);
    full(t, k)
        || too_many(pdrs, format::MAX_PDRS, gone.len(), rows, types::CREATE_PDR)
        || too_many(
            endpoints,
            format::MAX_ENDPOINTS,
            gone_endpoints,
            rows,
            types::CREATE_ENDPOINT,
        )
        || k.share.teids < plan::needed(rows)
}

// Cause 79: a record chooses an address, and none is free at entry.
#[tactic(auto, using(crate::proofs::CountLaws::address_row))]
fn no_address(t: &[u8], u: Settings, free: usize, rows: &[Row]) -> bool
    requires { free ≡ free_address_count (settings_of u) (view_sessions t.now) }
    ensures { result ≡ address_lacks (settings_of u) (view_sessions t.now) (request_of false rows.now) }
{
    free == 0 && plan::some_address(rows, true)
}

// Cause 64: an establishment of a live SEID.
fn already_live(kind: u64, place: Result<usize, usize>) -> bool
    ensures { result ≡ (eqb kind establishment && is_ok place) }
{
    kind == kinds::ESTABLISHMENT && place.is_ok()
}

// The cause of stages 4 to 6, 1 where there is none.
// Stays: (d) a number for a refusal: the rules' verdict, which the clause names, has the cause 1 where it accepts.
pub fn judge(
    t: &[u8],
    k: Known,
    taken: &[u64],
    addresses: &[u64],
    slot: &[u8],
    gone: &[u64],
    plan: &[u64],
    q: Told,
) -> u64
    requires { AtEntry k q t.now taken.now addresses.now slot.now gone.now plan.now }
    ensures { result ≡ (judge k.kind (settings_of k.u) k.share.peer (view_sessions t.now) (view_session slot.now) (request_in q.seid q.restoring q.noted (rows_of q.rows plan.now))).cause }
{
    let rows = plan::rows(plan, q.rows);
    if already_live(k.kind, q.place) {
        return causes::REJECTED;
    }
    if plan::invalid_allocation(rows, q.restoring) {
        return causes::WRONG_ALLOCATION;
    }
    if plan::unsupported(rows, q.noted) {
        return causes::NOT_SUPPORTED;
    }
    if breaks_rule(k.u, taken, addresses, slot, gone, rows, q.restoring) {
        return causes::BROKEN_RULE;
    }
    if no_room(t, k, slot, gone, rows) {
        return causes::NO_ROOM;
    }
    if no_address(t, k.u, k.addresses, rows) {
        return causes::NO_ADDRESS;
    }
    causes::ACCEPTED
}
