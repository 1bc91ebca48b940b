// Session sets (02 (vii)): the FQ-CSIDs that a Session Set Deletion Request lists, and the sessions that go.
#![tactic(auto)]

ghost use Rattle.std.specs.Prelude.{◌≡◌, ◌+◌, ◌*◌, ◌/◌, ◌≤◌, ◌<◌, ◌||◌, T, [], ◌∷◌, eqb, length};
ghost use Rattle.octets.specs.Octets.{octet_at, number, part, same_octets};
ghost use Rattle.octets.specs.Lists.{member, keep};
ghost use Rattle.rules.specs.Limits.{max_message, node_types};
ghost use Rattle.rules.specs.Layout.{table_length, session_width, csid_width, csid_address_at, csid_count_at, view_session, view_csid, view_settings, view_sessions, encode};
ghost use Rattle.rules.specs.Elements.{csids_read};
ghost use Rattle.rules.specs.Message.{list_place, elements};
ghost use Rattle.rules.specs.Reading.{done, list_read};
ghost use Rattle.rules.specs.Apply.{covers, covers_session, stays_session};
ghost use Rattle.areas.specs.Counted.{count_in};
ghost use Rattle.session.specs.Areas.{table_area};
ghost use Rattle.reading.specs.Verdicts.{outcome, numbered};
ghost use Rattle.sets.specs.Listed.{blank, gotten, list_step, listed_in, lists_in, Sized, slot_at, goes_by, after_one, Sound};
ghost use Rattle.rules.specs.Types as ie;

use format::{causes, types};
use reading::{Fault, answer_at};

// ---- stage 3

// The fault of an element of type kind with the value v at a place, if it has one: an FQ-CSID that is refused, or one with no CSID.
fn element_fault(kind: u64, v: &[u8], place: usize) -> Result<(), Fault>
    ensures { outcome result tt ≡ numbered (list_step kind place v.now) }
{
    if kind != types::FQCSID {
        return Ok(());
    }
    let x = answer_at(fqcsid::read(v), types::FQCSID, place)?;
    if x.count == 0 {
        return Err(Fault {
            cause: causes::INCORRECT,
            kind: types::FQCSID,
            place,
        });
    }
    Ok(())
}

// The first fault in the elements s of a set deletion, which start at octet 8.
pub fn list_fault(s: &[u8]) -> Result<(), Fault>
    requires { length s.now ≤ max_message }
    ensures { outcome result tt ≡ numbered (blank (list_read (elements list_place s.now))) }
{
    let mut rest = s;
    let mut at = 8;
    while let Some(element) = frame::first_of(rest) {
        element_fault(element.kind, &rest[4..element.end], at)?;
        rest = &rest[element.end..];
        at += element.end;
    }
    Ok(())
}

// ---- what an FQ-CSID covers

// Whether two octets are a CSID's.
fn is_csid(two: &[u8; 2], csid: u64) -> bool
    ensures { result ≡ eqb csid (number two.now) }
{
    octets::read(two, 0, 2) == csid
}

// Whether a CSID is one of the m that cs starts with.
fn has_csid(cs: &[u8], m: usize, csid: u64) -> bool
    requires { 2 * m ≤ length cs.now }
    ensures { result ≡ member csid (csids_read m cs.now) }
{
    let listed: &[[u8; 2]] = plan::arrays(cs, m);
    listed.iter().any(|two| is_csid(two, csid))
}

// Whether the address in the value v of an FQ-CSID, of 4 or 16 octets, is that of a slot's, by their numbers.
fn same_address(v: &[u8], slot: &[u8], n: usize) -> bool
    requires { T (eqb n 4 || eqb n 16) × (1 + n ≤ length v.now) × (csid_address_at + n ≤ length slot.now) }
    ensures { result ≡ same_octets (part csid_address_at n slot.now) (part 1 n v.now) }
{
    let at = format::CSID_ADDRESS;
    if n == 16 {
        octets::read(slot, at, 8) == octets::read(v, 1, 8)
            && octets::read(slot, at + 8, 8) == octets::read(v, 9, 8)
    } else {
        octets::read(slot, at, 4) == octets::read(v, 1, 4)
    }
}

// Whether the FQ-CSID of value v, which has no fault, covers the one of a slot: node type, Node-ID type, address, and one of its CSIDs.
fn covers(v: &[u8], slot: &[u8]) -> bool
    requires { Sized v.now × (length slot.now ≡ csid_width) }
    ensures { result ≡ covers (listed_in v.now) (view_csid slot.now) }
{
    let a = fqcsid::address_length((v[0] / 16) as u64);
    let m = (v[0] % 16) as usize;
    if v[1 + a + 2 * m] % 16 != slot[0] {
        return false;
    }
    if v[0] / 16 != slot[format::CSID_ID_TYPE] {
        return false;
    }
    if !same_address(v, slot, a) {
        return false;
    }
    has_csid(&v[1 + a..], m, octets::read(slot, format::CSID - 2, 2))
}

// Whether it covers one of those of a session's slot.
fn covers_session(v: &[u8], slot: &[u8]) -> bool
    requires { Sized v.now × (length slot.now ≡ session_width) × (octet_at slot.now csid_count_at ≤ node_types) }
    ensures { result ≡ covers_session (view_session slot.now) (listed_in v.now) }
{
    let n = slot[format::CSID_COUNT] as usize;
    if n == 0 {
        return false;
    }
    let csids: &[[u8; format::CSID]] = plan::arrays(&slot[format::CSIDS..], n);
    csids.iter().any(|csid| covers(v, csid))
}

// ---- the sessions that go

// Whether the session at place p goes: it is the peer's, and the FQ-CSID covers it. room is the table's session limit.
fn goes(t: &[u8], room: usize, p: usize, peer: u32, v: &[u8]) -> bool
    requires { (length t.now ≡ table_length room) × (p < room) × (octet_at (slot_at room p t.now) csid_count_at ≤ node_types) × Sized v.now }
    ensures { result ≡ goes_by peer (listed_in v.now) (view_session (slot_at room p t.now)) }
{
    let at = format::HEAD + p * format::SLOT;
    let end = at + format::SLOT;
    if t[at] as u32 != peer {
        return false;
    }
    covers_session(v, &t[at..end])
}

// Takes the session at place p out if it goes.
fn remove_one(t: &mut [u8], room: usize, p: usize, peer: u32, v: &[u8])
    requires { (length t.old ≡ table_length room) × (p < count_in (table_area room) t.old) × (count_in (table_area room) t.old ≤ room) × (octet_at (slot_at room p t.old) csid_count_at ≤ node_types) × Sized v.now }
    ensures { t.new ≡ after_one room p peer (listed_in v.now) t.old }
{
    if !goes(t, room, p, peer, v) {
        return;
    }
    session::remove(t, room, format::COUNT, p);
}

// Takes out every session of the peer that the FQ-CSID of value v covers, from the last place to the first, so that no place moves before it is looked at.
fn remove_covered(t: &mut [u8], peer: u32, v: &[u8])
    requires { Sound t.old × Sized v.now }
    ensures { t.new ≡ encode (view_settings t.old) (keep (stays_session peer (listed_in v.now ∷ [])) (view_sessions t.old)) }
{
    let room = octets::read(t, format::LIMIT, 2) as usize;
    let n = session::count(t, room, format::COUNT);
    for p in (0..n).rev() {
        remove_one(t, room, p, peer, v);
    }
}

// Takes out every session of the peer that goes by an element of type kind with the value v, which has no fault.
fn remove_by(t: &mut [u8], peer: u32, kind: u64, v: &[u8])
    requires { Sound t.old × (kind ≡ ie.fqcsid → Sized v.now) }
    ensures { t.new ≡ encode (view_settings t.old) (keep (stays_session peer (lists_in kind v.now)) (view_sessions t.old)) }
{
    if kind != types::FQCSID {
        return;
    }
    remove_covered(t, peer, v);
}

// Takes out every session of the peer that goes by the elements s of a set deletion, which have no fault.
pub fn remove_listed(t: &mut [u8], peer: u32, s: &[u8])
    requires { Sound t.old × (blank (list_read (elements list_place s.now)) ≡ done tt) }
    ensures { t.new ≡ encode (view_settings t.old) (keep (stays_session peer (gotten (list_read (elements list_place s.now)))) (view_sessions t.old)) }
{
    let mut rest = s;
    while let Some(element) = frame::first_of(rest) {
        remove_by(t, peer, element.kind, &rest[4..element.end]);
        rest = &rest[element.end..];
    }
}
