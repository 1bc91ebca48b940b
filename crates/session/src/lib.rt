// A session's slot: found by its peer and SEID in an area of sessions, which has its room and its base; copied out or made anew; built from the IDs of
// the PDRs that go and the rows of a plan, after every check has passed; put back, or taken out.
//
// The functions work on any octets of the slot's length; proofs/ says that on a session's octets they make the rules' session.
#![tactic(auto)]

ghost use Rattle.std.specs.Prelude.{◌≡◌, ◌*◌, ◌≤◌, ◌<◌, ◌+◌, length};
ghost use Rattle.octets.specs.Octets.{slices, be, part, put, zeros};
ghost use Rattle.rules.specs.Layout.{key_width, session_width, pdr_width, endpoint_width};
ghost use Rattle.plan.specs.Rows.{row_width};
ghost use Rattle.session.specs.Build.{without_pdrs, updated_at, updated_pdr, followed_csid, row_applied, passed, built};
ghost use Rattle.areas.specs.Records.{key_of, pair_key};
ghost use Rattle.areas.specs.Counted.{count_in, area_in, place_in, removed_in, with_record};
ghost use Rattle.session.specs.Areas.{area_of_pdrs, area_of_endpoints, session_area};

use format::{Row, types, words};

pub mod layout;
mod record;

// Takes the PDRs of some IDs out.
fn drop_pdrs(slot: &mut [u8], ids: &[u64])
    requires { length slot.old ≡ session_width }
    ensures { slot.new ≡ without_pdrs ids.now slot.old }
{
    for id in ids {
        areas::drop_record(slot, layout::pdrs(), *id);
    }
}

// An Update PDR's row on the record at place p.
fn update_at(slot: &mut [u8], row: &Row, p: usize)
    requires { (length slot.old ≡ session_width) × (p < 16) }
    ensures { slot.new ≡ updated_at row.now p slot.old }
{
    let at = format::PDRS + p * format::PDR;
    let end = at + format::PDR;
    let mut rec = [0u8; format::PDR];
    octets::copy(&mut rec, 0, &slot[at..end]);
    record::set_precedence(&mut rec, row);
    record::set_far(&mut rec, row);
    areas::replace(slot, layout::pdrs(), p, &rec);
}

// An Update PDR's row: it replaces what it names, and the rest stays.
fn update_pdr(slot: &mut [u8], row: &Row)
    requires { (length slot.old ≡ session_width) }
    ensures { slot.new ≡ updated_pdr row.now slot.old }
{
    let place = areas::find(slot, layout::pdrs(), row[words::PDR_ID]);
    let Ok(p) = place else {
        return;
    };
    update_at(slot, row, p);
}

// An FQ-CSID's row: it sets or removes a node type's, or removes all.
fn follow_csid(slot: &mut [u8], row: &Row)
    requires { (length slot.old ≡ session_width) }
    ensures { slot.new ≡ followed_csid row.now slot.old }
{
    let verb = row[words::VERB];
    let a = layout::csids();
    if verb == 1 {
        let rec = record::csid(row);
        areas::put_record(slot, a, &rec);
        return;
    }
    if verb == 2 {
        areas::drop_record(slot, a, row[words::NODE_TYPE]);
        return;
    }
    if verb == 3 {
        areas::clear(slot, a);
    }
}

// What one row does to the session.
fn apply_row(slot: &mut [u8], row: &Row)
    requires { (length slot.old ≡ session_width) }
    ensures { slot.new ≡ row_applied row.now slot.old }
{
    let kind = row[words::TAG];
    match kind {
        types::REMOVE_ENDPOINT => areas::drop_record(
            slot,
            layout::endpoints(),
            row[words::ENDPOINT_ID],
        ),
        types::CREATE_ENDPOINT => {
            let rec = record::endpoint(row);
            areas::put_record(slot, layout::endpoints(), &rec);
        }
        types::CREATE_PDR => {
            let rec = record::pdr(row);
            areas::put_record(slot, layout::pdrs(), &rec);
        }
        types::UPDATE_PDR => update_pdr(slot, row),
        types::FQCSID => follow_csid(slot, row),
        _ => {}
    }
}

// What the rows of one type do, in request order.
fn pass(slot: &mut [u8], rows: &[Row], kind: u64)
    requires { length slot.old ≡ session_width }
    ensures { slot.new ≡ passed kind rows.now slot.old }
{
    for row in rows {
        if row[words::TAG] == kind {
            apply_row(slot, row);
        }
    }
}

// The session that the rows make: removals first, of the PDRs with the IDs `gone` and of endpoints, then endpoints, PDRs, updates, FQ-CSIDs.
pub fn build(slot: &mut [u8], gone: &[u64], rows: &[Row])
    requires { length slot.old ≡ session_width }
    ensures { slot.new ≡ built gone.now rows.now slot.old }
{
    drop_pdrs(slot, gone);
    pass(slot, rows, types::REMOVE_ENDPOINT);
    pass(slot, rows, types::CREATE_ENDPOINT);
    pass(slot, rows, types::CREATE_PDR);
    pass(slot, rows, types::UPDATE_PDR);
    pass(slot, rows, types::FQCSID);
}

// How many sessions there are.
pub fn count(t: &[u8], room: usize, base: usize) -> usize
    requires { base + 2 + room * session_width ≤ length t.now }
    ensures { result ≡ count_in (session_area room base) t.now }
{
    areas::count(t, layout::sessions(room, base))
}

// Where the session of a peer's SEID stands among those of an area, Ok, or, where it is not live, has its place, Err.
pub fn find(t: &[u8], room: usize, base: usize, peer: u64, seid: u64) -> Result<usize, usize>
    requires { base + 2 + room * session_width ≤ length t.now }
    ensures { result ≡ place_in (session_area room base) (pair_key peer seid) t.now }
{
    areas::find_pair(t, layout::sessions(room, base), peer, seid)
}

// Copies the slot at place p.
pub fn load(t: &[u8], room: usize, base: usize, p: usize, slot: &mut [u8])
    requires { (base + 2 + room * session_width ≤ length t.now) × (p < room) × (length slot.old ≡ session_width) }
    ensures { slot.new ≡ part (p * session_width) session_width (area_in (session_area room base) t.now) }
{
    let at = base + 2 + p * format::SLOT;
    let end = at + format::SLOT;
    octets::copy(slot, 0, &t[at..end]);
}

// The slot of a peer's new session.
pub fn fresh(slot: &mut [u8], peer: u64, seid: u64)
    requires { length slot.old ≡ session_width }
    ensures { slot.new ≡ put 1 (be 8 seid) (put 0 (be 1 peer) (zeros session_width)) }
{
    octets::clear(slot, 0, format::SLOT);
    octets::write(slot, 0, 1, peer);
    octets::write(slot, format::SEID, 8, seid);
}

// Makes the slot that of its peer and SEID, whose place was looked up: over the one that is there, or put in where there is room.
pub fn save(t: &mut [u8], room: usize, base: usize, place: Result<usize, usize>, slot: &[u8])
    requires { (base + 2 + room * session_width ≤ length t.old) × (length slot.now ≡ session_width) × (place_in (session_area room base) (key_of key_width slot.now) t.old ≡ place) }
    ensures { t.new ≡ with_record (session_area room base) slot.now t.old }
{
    areas::put_at(t, layout::sessions(room, base), place, slot);
}

// Takes the session at place p out.
pub fn remove(t: &mut [u8], room: usize, base: usize, p: usize)
    requires { (base + 2 + room * session_width ≤ length t.old) × (p < count_in (session_area room base) t.old) × (count_in (session_area room base) t.old ≤ room) }
    ensures { t.new ≡ removed_in (session_area room base) p t.old }
{
    areas::remove(t, layout::sessions(room, base), p);
}
