// Tests of the records in the session table's slots, for any octets of a slot: the record keeps the rules, and the slot has
// just that record's octets. Each reads the fields where they stand; proofs/Slots.antt says why these tests of a record's numbers are enough.
#![tactic(auto)]

ghost use Rattle.std.specs.Prelude.{◌≡◌, ◌+◌, ◌*◌, ◌^◌, ◌≤◌, length, get_or, eqb, not, ◌||◌};
ghost use Rattle.octets.specs.Choice.{pick, flag};
ghost use Rattle.octets.specs.Lists.{member};
ghost use Rattle.octets.specs.Octets.{part, number, all_zero};
ghost use Rattle.rules.specs.Layout.{view_settings, settings_width, pdr_width, endpoint_width, csid_width, match_at, teid_at, families_at, named_endpoint_at, csid_id_type_at, csid_address_at, csid_address_rest_at};
ghost use Rattle.unit.specs.Meaning.{settings_of};
ghost use Rattle.records.specs.Kept.{settings_sound, pdr_sound, endpoint_sound, csid_sound, ids_of, optional_test, families_test, tunnel_test, match_test, type_test};

use format::{CSID, CSID_ADDRESS, CSID_ID_TYPE};
use unit::Settings;

pub mod slot;

// Operators of an FQ-CSID are below this number.
const OPERATORS: u64 = 1000000;

// A field of n octets that may be absent: 1 and the field, or zeros.
fn optional_sound(slot: &[u8], at: usize, n: usize) -> bool
    requires { at + 1 + n ≤ length slot.now }
    ensures { result ≡ optional_test (get_or slot.now at 0) (number (part (at + 1) n slot.now)) }
{
    match slot[at] {
        0 => octets::is_zero(slot, at + 1, n),
        there => there == 1,
    }
}

// A field of four octets that may be absent. No branch goes by whether it is there.
// Stays: (d) one function with `optional_sound` would take the octets as one number, which sixteen octets are not, or branch by the first one.
fn field_sound(slot: &[u8], at: usize) -> bool
    requires { at + 5 ≤ length slot.now }
    ensures { result ≡ optional_test (get_or slot.now at 0) (number (part (at + 1) 4 slot.now)) }
{
    let there = slot[at];
    there <= 1 && octets::read(slot, at + 1, 4) <= there as u64 * 4294967295
}

// The settings' slot, which u was read from.
pub fn settings_sound(slot: &[u8; format::SETTINGS], u: Settings) -> bool
    requires { settings_of u ≡ view_settings slot.now }
    ensures { result ≡ settings_sound slot.now }
{
    optional_sound(slot, format::IPV6_THERE, 16) && unit::allowed(u)
}

// The F-TEID at index at.
fn tunnel_sound(slot: &[u8], at: usize, u: Settings) -> bool
    requires { (at + 5 ≤ length slot.now) × (u.first + u.size ≤ 2 ^ 32) }
    ensures { result ≡ tunnel_test (settings_of u) (number (part at 4 slot.now)) (get_or slot.now (at + 4) 0) }
{
    let teid = octets::read(slot, at, 4);
    u.first <= teid && teid < u.first + u.size && families_sound(slot[at + 4], u.ipv6.is_some())
}

// The families octet: IPv4, or IPv6 and perhaps IPv4 (2 and 3) where the unit has an IPv6 address.
fn families_sound(families: u8, v6: bool) -> bool
    ensures { result ≡ families_test families v6 }
{
    let most = if v6 { 3 } else { 1 };
    1 <= families && families <= most
}

// A traffic endpoint's slot.
pub fn endpoint_sound(slot: &[u8; format::ENDPOINT], u: Settings) -> bool
    requires { u.first + u.size ≤ 2 ^ 32 }
    ensures { result ≡ endpoint_sound (settings_of u) slot.now }
{
    field_sound(slot, format::ENDPOINT_ADDRESS_THERE)
        && tunnel_sound(slot, format::ENDPOINT_TEID, u)
}

// Whether one of the endpoints has the ID id. Every ID is read, so that no branch goes by which one it is.
fn names_endpoint(ends: &[[u8; format::ENDPOINT]], id: u8) -> bool
    ensures { result ≡ member id (ids_of ends.now) }
{
    let mut found = false;
    for end in ends {
        found |= id == end[0];
    }
    found
}

// What a PDR matches on, in its slot. ends has the session's endpoints.
fn match_sound(slot: &[u8; format::PDR], ends: &[[u8; format::ENDPOINT]], u: Settings) -> bool
    requires { u.first + u.size ≤ 2 ^ 32 }
    ensures { result ≡ match_test (settings_of u) (ids_of ends.now) (get_or slot.now match_at 0) (number (part teid_at 4 slot.now)) (get_or slot.now families_at 0) (get_or slot.now named_endpoint_at 0) }
{
    let id = slot[format::NAMED_ENDPOINT];
    match slot[format::MATCH] {
        1 => id == 0 && tunnel_sound(slot, format::TEID, u),
        2 => octets::is_zero(slot, format::TEID, 5) && names_endpoint(ends, id),
        _ => octets::is_zero(slot, format::MATCH, 7),
    }
}

// A PDR's slot. ends has the session's endpoints.
pub fn pdr_sound(slot: &[u8; format::PDR], ends: &[[u8; format::ENDPOINT]], u: Settings) -> bool
    requires { u.first + u.size ≤ 2 ^ 32 }
    ensures { result ≡ pdr_sound (settings_of u) (ids_of ends.now) slot.now }
{
    slot[format::SOURCE] < 16
        && field_sound(slot, format::FAR)
        && field_sound(slot, format::PDR_ADDRESS_THERE)
        && match_sound(slot, ends, u)
}

// 1 where x is not zero.
fn is_set(x: u64) -> u64
    ensures { (result ≡ flag (not (eqb x 0))) × (result ≤ 1) }
{
    (x != 0) as u64
}

// An FQ-CSID's Node-ID type, at most 2, and of type 2 the operator, the first 20 bits of the address. The type and the two octets after it
// tell, as one number: no branch goes by the type.
fn type_sound(slot: &[u8; CSID]) -> bool
    ensures { result ≡ type_test (get_or slot.now csid_id_type_at 0) (number (part csid_address_at 4 slot.now)) }
{
    slot[CSID_ID_TYPE] as u64 * 65536 + octets::read(slot, CSID_ADDRESS, 2)
        < 2 * 65536 + OPERATORS / 16
}

// The last twelve octets of an FQ-CSID's address, zero unless its type is 1. No branch goes by the type.
fn rest_sound(slot: &[u8; CSID]) -> bool
    requires { get_or slot.now csid_id_type_at 0 ≤ 2 }
    ensures { result ≡ (eqb (get_or slot.now csid_id_type_at 0) 1 || all_zero (part csid_address_rest_at 12 slot.now)) }
{
    let set = is_set(octets::read(slot, CSID_ADDRESS + 4, 8))
        + is_set(octets::read(slot, CSID_ADDRESS + 12, 4));
    set <= slot[CSID_ID_TYPE] as u64 % 2 * 2
}

// An FQ-CSID's slot.
pub fn csid_sound(slot: &[u8; CSID]) -> bool
    ensures { result ≡ csid_sound slot.now }
{
    slot[0] < 6 && type_sound(slot) && rest_sound(slot)
}
