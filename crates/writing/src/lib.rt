// The elements of replies and restorations, each written from a place on, with the place after it as the answer; and a message's header.
// Stays: a Writer with out as a field was tried; its methods are proved, but `returns` of a caller of two: nothing ties its out to what the Writer left.
// Stays: a kind is the octet of a request's header, which goes as it is into the reply's: an enum would be made of it and turned back.
#![tactic(auto)]

ghost use Rattle.std.specs.Prelude.{◌≡◌, ◌+◌, ◌*◌, ◌/◌, ◌%◌, ◌≤◌, ◌<◌, length, [], ◌∷◌, ◌++◌, ◌||◌, eqb};
ghost use Rattle.std.proofs.Math.Option.{some};
ghost use Rattle.rules.specs.Message.{establishment, set_deletion, body_place, list_place};
ghost use Rattle.octets.specs.Octets.{put, be};
ghost use Rattle.rules.specs.Elements.{fseid_octets};
ghost use Rattle.rules.specs.Reply.{element, node_id_element, offending_element, unit_fseid, unit_element, address_part};
ghost use Rattle.rules.specs.Types as ie;
ghost use Rattle.unit.specs.Meaning.{settings_of};
ghost use Rattle.writing.specs.Families.{families_written, unit_addresses, tunnel_in};
ghost use Rattle.writing.specs.Placed.{Placed};
ghost use Rattle.writing.specs.Heads.{message_head, list_head};

use format::{header, kinds, types};
use fteid::FTeid;
use unit::{Ipv6, Settings};

// Type and length.
pub fn write_head(kind: u64, n: usize, out: &mut [u8], at: usize)
    requires { at + 4 ≤ length out.old }
    ensures { out.new ≡ put at (be 2 kind ++ be 2 n) out.old }
{
    octets::write(out, at, 2, kind);
    octets::write(out, at + 2, 2, n as u64);
}

// An element of the octets v.
pub fn write_value(kind: u64, v: &[u8], out: &mut [u8], at: usize) -> usize
    requires { at + 4 + length v.now ≤ length out.old }
    ensures { Placed out.old at (element kind v.now) result out.new }
{
    octets::copy(out, at + 4, v);
    write_head(kind, v.len(), out, at);
    at + 4 + v.len()
}

// An element of a number of n octets.
pub fn write_number(kind: u64, n: usize, value: u64, out: &mut [u8], at: usize) -> usize
    requires { at + 4 + n ≤ length out.old }
    ensures { Placed out.old at (element kind (be n value)) result out.new }
{
    octets::write(out, at + 4, n, value);
    write_head(kind, n, out, at);
    at + 4 + n
}

// Whether the reply to a request has a Node ID.
fn has_node_id(kind: u8) -> bool
    ensures { result ≡ (eqb kind establishment || eqb kind set_deletion) }
{
    kind == kinds::ESTABLISHMENT_OCTET || kind == kinds::SET_DELETION_OCTET
}

// Node ID with the peer's signalling address, in the replies to establishments and set deletions only.
pub fn write_node_id(home: u64, kind: u8, out: &mut [u8], at: usize) -> usize
    requires { at + 9 ≤ length out.old }
    ensures { Placed out.old at (node_id_element kind home) result out.new }
{
    if !has_node_id(kind) {
        return at;
    }
    let mut v = [0u8; 5];
    octets::write(&mut v, 1, 4, home);
    write_value(types::NODE_ID, &v, out, at)
}

// Cause.
pub fn write_cause(cause: u8, out: &mut [u8], at: usize) -> usize
    requires { at + 5 ≤ length out.old }
    ensures { Placed out.old at (element ie.cause (cause ∷ [])) result out.new }
{
    write_value(types::CAUSE, &[cause], out, at)
}

// Offending IE: the type at fault.
pub fn write_offending(t: u64, out: &mut [u8], at: usize) -> usize
    requires { at + 6 ≤ length out.old }
    ensures { Placed out.old at (offending_element (some t)) result out.new }
{
    write_number(types::OFFENDING_IE, 2, t, out, at)
}

// An F-SEID; an address of no octets is not there.
pub fn write_fseid(seid: u64, ipv4: &[u8], ipv6: &[u8], out: &mut [u8], at: usize) -> usize
    requires { at + 13 + length ipv4.now + length ipv6.now ≤ length out.old }
    ensures { Placed out.old at (element ie.fseid (fseid_octets seid ipv4.now ipv6.now)) result out.new }
{
    let end = fseid::write_at(seid, ipv4, ipv6, out, at + 4);
    write_head(types::FSEID, end - (at + 4), out, at);
    end
}

// The unit's F-SEID with the peer's signalling address, in an accepted establishment's reply only.
pub fn write_own_fseid(home: u64, kind: u8, seid: u64, out: &mut [u8], at: usize) -> usize
    requires { at + 17 ≤ length out.old }
    ensures { Placed out.old at (unit_fseid kind home seid) result out.new }
{
    if kind != kinds::ESTABLISHMENT_OCTET {
        return at;
    }
    let mut ipv4 = [0u8; 4];
    octets::write(&mut ipv4, 0, 4, home);
    write_fseid(seid, &ipv4, &[], out, at)
}

// The families of an F-TEID with the unit's addresses: V4 = 1, V6 = 2 where the unit has an IPv6 address.
pub fn unit_families(u: Settings, families: u64) -> u64
    ensures { (result ≡ families_written (settings_of u) families) × (result < 4) }
{
    families % if u.ipv6.is_some() { 4 } else { 2 }
}

// An F-TEID with the unit's addresses.
pub fn write_fteid(u: Settings, teid: u64, families: u64, out: &mut [u8], at: usize) -> usize
    requires { at + 9 + unit_addresses (settings_of u) families ≤ length out.old }
    ensures { Placed out.old at (unit_element (settings_of u) (tunnel_in teid families)) result out.new }
{
    let ipv6 = u.ipv6.unwrap_or(Ipv6 { high: 0, low: 0 });
    let v = FTeid {
        flags: unit_families(u, families),
        teid: teid,
        ipv4: u.ipv4,
        ipv6_high: ipv6.high,
        ipv6_low: ipv6.low,
        choose_id: 0,
    };
    let end = fteid::write_at(v, out, at + 4);
    write_head(types::FTEID, end - (at + 4), out, at);
    end
}

// A UE IP Address with an IPv4 address (02 (v)): V4 alone, then the address.
pub fn write_ue_address(address: u64, out: &mut [u8], at: usize) -> usize
    requires { at + 9 ≤ length out.old }
    ensures { Placed out.old at (address_part (some address)) result out.new }
{
    let end = ue_ip::write_at(address, out, at + 4);
    write_head(types::UE_IP_ADDRESS, end - (at + 4), out, at);
    end
}

// A message's header, for elements of n octets: type, SEID and sequence number.
pub fn write_header(kind: u8, seid: u64, sequence: &[u8], n: usize, out: &mut [u8])
    requires { (length sequence.now ≡ 3) × (n ≤ 2032) × (body_place ≤ length out.old) }
    ensures { out.new ≡ put 0 (message_head kind seid sequence.now n) out.old }
{
    let total = header::BODY - header::COUNTED + n;
    out[0] = header::WITH_SEID;
    out[header::KIND] = kind;
    octets::write(out, header::LENGTH, 2, total as u64);
    octets::write(out, header::SEID, 8, seid);
    octets::copy(out, header::SEQUENCE, sequence);
    out[header::SPARE] = 0;
}

// The header of a message without a SEID.
pub fn write_list_header(kind: u8, sequence: &[u8], n: usize, out: &mut [u8])
    requires { (length sequence.now ≡ 3) × (n ≤ 2032) × (list_place ≤ length out.old) }
    ensures { out.new ≡ put 0 (list_head kind sequence.now n) out.old }
{
    let total = header::LIST_BODY - header::COUNTED + n;
    out[0] = header::WITHOUT_SEID;
    out[header::KIND] = kind;
    octets::write(out, header::LENGTH, 2, total as u64);
    octets::copy(out, header::LIST_SEQUENCE, sequence);
    out[header::LIST_SPARE] = 0;
}
