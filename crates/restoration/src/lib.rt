// The writer of restoration requests (02 (i)): a session's slot as the request that makes it again. Each element is written from what it
// holds outwards, the content first and then type and length before it. The writers of records take the octets of a record's slot and the
// unit's settings, and know nothing of the message around them.
#![tactic(auto)]

ghost use Rattle.std.specs.Prelude.{◌≡◌, ◌+◌, ◌*◌, ◌≤◌, ◌<◌, ◌||◌, T, eqb, length, get_or};
ghost use Rattle.octets.specs.Octets.{slices, concat_map};
ghost use Rattle.octets.specs.Lists.{all};
ghost use Rattle.rules.specs.Limits.{max_restoration};
ghost use Rattle.rules.specs.Layout.{option_read, view_session, view_sessions, view_pdr, view_endpoint, view_csid, pdr_width, csid_width, endpoint_width, csid_id_type_at};
ghost use Rattle.rules.specs.Sound.{sound};
ghost use Rattle.rules.specs.Reply.{element, address_part};
ghost use Rattle.rules.specs.Restoration.{match_element, far_element, pdi_content, pdr_element, endpoint_element, csid_element, record_elements, restoration};
ghost use Rattle.rules.specs.Restoring.{sender_addressed, session_at, restoration_at, write_into, write_restoration};
ghost use Rattle.rules.specs.Types as ie;
ghost use Rattle.unit.specs.Meaning.{settings_of};
ghost use Rattle.writing.specs.Placed.{Placed};
ghost use Rattle.restoration.specs.Records.{kind_of_type, record_width, record_element, record_fits, CsidOf, SlotFits, content};
ghost use Rattle.restoration.specs.Answers.{outcome_of, writing_of, Ready};

use format::{header, kinds, types};
use fqcsid::FqCsid;
use unit::Settings;

// What a PDR matches on: its F-TEID with the unit's addresses, its endpoint's ID, or nothing.
fn write_match(u: Settings, pdr: &[u8], out: &mut [u8], at: usize) -> usize
    requires { (length pdr.now ≡ pdr_width) × (at + length (match_element (settings_of u) (view_pdr pdr.now).match) ≤ length out.old) }
    ensures { Placed out.old at (match_element (settings_of u) (view_pdr pdr.now).match) result out.new }
{
    match pdr[format::MATCH] {
        1 => {
            let teid = octets::read(pdr, format::TEID, 4);
            writing::write_fteid(u, teid, pdr[format::FAMILIES] as u64, out, at)
        }
        2 => writing::write_value(
            types::ENDPOINT_ID,
            &pdr[format::NAMED_ENDPOINT..format::PDR_ADDRESS_THERE],
            out,
            at,
        ),
        _ => at,
    }
}

// The UE IP Address of a record, from its two fields: whether there is one, and the address.
fn write_address(there: u8, address: u64, out: &mut [u8], at: usize) -> usize
    requires { at + length (address_part (option_read there address)) ≤ length out.old }
    ensures { Placed out.old at (address_part (option_read there address)) result out.new }
{
    if there == 0 {
        return at;
    }
    writing::write_ue_address(address, out, at)
}

// The PDI: the source interface, what the PDR matches on, and its address.
fn write_pdi(u: Settings, pdr: &[u8], out: &mut [u8], at: usize) -> usize
    requires { (length pdr.now ≡ pdr_width) × (at + length (element ie.pdi (pdi_content (settings_of u) (view_pdr pdr.now))) ≤ length out.old) }
    ensures { Placed out.old at (element ie.pdi (pdi_content (settings_of u) (view_pdr pdr.now))) result out.new }
{
    let front = at + 4;
    let source = writing::write_value(
        types::SOURCE_INTERFACE,
        &pdr[format::SOURCE..format::MATCH],
        out,
        front,
    );
    let matched = write_match(u, pdr, out, source);
    let address = octets::read(pdr, format::PDR_ADDRESS, 4);
    let end = write_address(pdr[format::PDR_ADDRESS_THERE], address, out, matched);
    writing::write_head(types::PDI, end - front, out, at);
    end
}

// The FAR ID, where there is one.
fn write_far(pdr: &[u8], out: &mut [u8], at: usize) -> usize
    requires { (length pdr.now ≡ pdr_width) × (at + length (far_element (view_pdr pdr.now).far) ≤ length out.old) }
    ensures { Placed out.old at (far_element (view_pdr pdr.now).far) result out.new }
{
    if pdr[format::FAR] == 0 {
        return at;
    }
    writing::write_value(types::FAR_ID, &pdr[format::FAR_ID..format::SOURCE], out, at)
}

// Create PDR.
fn write_pdr(u: Settings, pdr: &[u8], out: &mut [u8], at: usize) -> usize
    requires { (length pdr.now ≡ pdr_width) × (at + length (pdr_element (settings_of u) (view_pdr pdr.now)) ≤ length out.old) }
    ensures { Placed out.old at (pdr_element (settings_of u) (view_pdr pdr.now)) result out.new }
{
    let front = at + 4;
    let id = writing::write_value(types::PDR_ID, &pdr[0..format::PRECEDENCE], out, front);
    let precedence = writing::write_value(
        types::PRECEDENCE,
        &pdr[format::PRECEDENCE..format::FAR],
        out,
        id,
    );
    let pdi = write_pdi(u, pdr, out, precedence);
    let end = write_far(pdr, out, pdi);
    writing::write_head(types::CREATE_PDR, end - front, out, at);
    end
}

// Create Traffic Endpoint.
fn write_endpoint(u: Settings, endpoint: &[u8], out: &mut [u8], at: usize) -> usize
    requires { (length endpoint.now ≡ endpoint_width) × (at + length (endpoint_element (settings_of u) (view_endpoint endpoint.now)) ≤ length out.old) }
    ensures { Placed out.old at (endpoint_element (settings_of u) (view_endpoint endpoint.now)) result out.new }
{
    let front = at + 4;
    let id = writing::write_value(types::ENDPOINT_ID, &endpoint[0..1], out, front);
    let teid = octets::read(endpoint, format::ENDPOINT_TEID, 4);
    let local = writing::write_fteid(u, teid, endpoint[format::ENDPOINT_FAMILIES] as u64, out, id);
    let address = octets::read(endpoint, format::ENDPOINT_ADDRESS, 4);
    let end = write_address(
        endpoint[format::ENDPOINT_ADDRESS_THERE],
        address,
        out,
        local,
    );
    writing::write_head(types::CREATE_ENDPOINT, end - front, out, at);
    end
}

// The FQ-CSID of a record. An address of 16 octets is two numbers of 8, one of 4 the second number.
fn csid_of(csid: &[u8]) -> FqCsid
    requires { (length csid.now ≡ csid_width) × (get_or csid.now csid_id_type_at 0 < 16) }
    ensures { CsidOf csid.now result }
{
    let id_type = csid[format::CSID_ID_TYPE] as u64;
    let n = fqcsid::address_length(id_type);
    let half = 8 * (n / 16);
    let high = octets::read(csid, format::CSID_ADDRESS, half);
    let low = octets::read(csid, format::CSID_ADDRESS + half, n - half);
    let one = octets::read(csid, format::CSID_NUMBER, 2);
    FqCsid {
        id_type: id_type,
        count: 1,
        address_high: high,
        address_low: low,
        csids_1: one,
        csids_2: 0,
        csids_3: 0,
        csids_4: 0,
        node_type: csid[0] as u64,
    }
}

// FQ-CSID.
fn write_csid(csid: &[u8], out: &mut [u8], at: usize) -> usize
    requires { (length csid.now ≡ csid_width) × (get_or csid.now csid_id_type_at 0 < 16) × (at + length (csid_element (view_csid csid.now)) ≤ length out.old) }
    ensures { Placed out.old at (csid_element (view_csid csid.now)) result out.new }
{
    let v = csid_of(csid);
    let end = fqcsid::write_at(v, out, at + 4);
    writing::write_head(types::FQCSID, end - (at + 4), out, at);
    end
}

// The kinds of records that a session's slot holds, each in an area of its own.
#[derive(Clone, Copy, Debug, PartialEq, Eq)]
pub enum Kind {
    Pdr,
    Endpoint,
    Csid,
}

impl Kind {
    // The width of its records.
    fn width(self) -> usize
        ensures { result ≡ record_width self }
    {
        match self {
            Kind::Pdr => format::PDR,
            Kind::Endpoint => format::ENDPOINT,
            Kind::Csid => format::CSID,
        }
    }

    // The type of its records' elements.
    fn element_type(self) -> u64
        ensures { kind_of_type result ≡ self }
    {
        match self {
            Kind::Pdr => types::CREATE_PDR,
            Kind::Endpoint => types::CREATE_ENDPOINT,
            Kind::Csid => types::FQCSID,
        }
    }
}

// By the type of a record's element: what is no PDR's and no endpoint's counts as an FQ-CSID's.
impl From<u64> for Kind {
    ghost from_gives = { λ t kind. kind ≡ kind_of_type t };

    fn from(kind: u64) -> Kind {
        if kind == types::CREATE_PDR {
            Kind::Pdr
        } else if kind == types::CREATE_ENDPOINT {
            Kind::Endpoint
        } else {
            Kind::Csid
        }
    }
}

// A record's element, by its type.
// Stays: (a) a number for a kind: write_record promises of every number, and a narrower type would ask more.
pub fn write_record(u: Settings, kind: u64, slot: &[u8], out: &mut [u8], at: usize) -> usize
    requires { T (record_fits (kind_of_type kind) slot.now) × (at + length (record_element (kind_of_type kind) (settings_of u) slot.now) ≤ length out.old) }
    ensures { Placed out.old at (record_element (kind_of_type kind) (settings_of u) slot.now) result out.new }
{
    write_of_kind(u, Kind::from(kind), slot, out, at)
}

// A record's element, by its kind.
fn write_of_kind(u: Settings, kind: Kind, slot: &[u8], out: &mut [u8], at: usize) -> usize
    requires { T (record_fits kind slot.now) × (at + length (record_element kind (settings_of u) slot.now) ≤ length out.old) }
    ensures { Placed out.old at (record_element kind (settings_of u) slot.now) result out.new }
{
    match kind {
        Kind::Pdr => write_pdr(u, slot, out, at),
        Kind::Endpoint => write_endpoint(u, slot, out, at),
        Kind::Csid => write_csid(slot, out, at),
    }
}

// The elements of the first n records of an area.
// Stays: chunks_exact over area[..n * w] was tried; `overflow_mul-n` did not close, since that the records fit says so only one by one.
fn write_area(u: Settings, kind: Kind, area: &[u8], n: usize, out: &mut [u8], at: usize) -> usize
    requires { T (all (record_fits kind) (slices (record_width kind) n area.now)) × (at + length (concat_map (record_element kind (settings_of u)) (slices (record_width kind) n area.now)) ≤ length out.old) }
    ensures { Placed out.old at (concat_map (record_element kind (settings_of u)) (slices (record_width kind) n area.now)) result out.new }
{
    let w = kind.width();
    let mut rest = area;
    let mut next = at;
    for i in 0..n {
        next = write_record(u, kind.element_type(), &rest[..w], out, next);
        rest = &rest[w..];
    }
    next
}

// The elements of a session's records: PDRs, endpoints, FQ-CSIDs.
fn write_records(u: Settings, slot: &[u8], out: &mut [u8], at: usize) -> usize
    requires { SlotFits slot.now × (at + length (record_elements (settings_of u) (view_session slot.now)) ≤ length out.old) }
    ensures { Placed out.old at (record_elements (settings_of u) (view_session slot.now)) result out.new }
{
    let pdrs = write_area(
        u,
        Kind::Pdr,
        &slot[format::PDRS..],
        slot[format::PDR_COUNT] as usize,
        out,
        at,
    );
    let endpoints = write_area(
        u,
        Kind::Endpoint,
        &slot[format::ENDPOINTS..],
        slot[format::ENDPOINT_COUNT] as usize,
        out,
        pdrs,
    );
    write_area(
        u,
        Kind::Csid,
        &slot[format::CSIDS..],
        slot[format::CSID_COUNT] as usize,
        out,
        endpoints,
    )
}

// The request's elements from octet 16 on: the F-SEID, the restoration flag, the records.
fn write_elements(u: Settings, slot: &[u8], ipv4: &[u8], ipv6: &[u8], out: &mut [u8]) -> usize
    requires { SlotFits slot.now × (16 + length (content (settings_of u) (view_session slot.now) ipv4.now ipv6.now) ≤ length out.old) }
    ensures { Placed out.old 16 (content (settings_of u) (view_session slot.now) ipv4.now ipv6.now) result out.new }
{
    let seid = octets::read(slot, format::SEID, 8);
    let own = writing::write_fseid(seid, ipv4, ipv6, out, header::BODY);
    let next = writing::write_value(types::SESSION_FLAGS, &[1], out, own);
    write_records(u, slot, out, next)
}

// The whole request, at the front of out; the answer is its length.
fn write_request(t: &[u8], place: usize, ipv4: &[u8], ipv6: &[u8], out: &mut [u8]) -> usize
    requires { Ready t.now place ipv4.now ipv6.now × (length out.old ≡ max_restoration) }
    ensures { Placed out.old 0 (restoration_at t.now place ipv4.now ipv6.now) result out.new }
{
    let u = unit::read(t);
    let at = format::HEAD + place * format::SLOT;
    let end = write_elements(u, &t[at..at + format::SLOT], ipv4, ipv6, out);
    let mut sequence = [0u8; 3];
    octets::write(&mut sequence, 0, 3, place as u64 + 1);
    writing::write_header(
        kinds::ESTABLISHMENT_OCTET,
        0,
        &sequence,
        end - header::BODY,
        out,
    );
    end
}

// Whether an address of n octets is whole, or not there.
fn address_fits(n: usize, whole: usize) -> bool
    ensures { result ≡ (eqb n 0 || eqb n whole) }
{
    n == 0 || n == whole
}

// Whether the control plane has an address: whole ones, and one at least.
fn has_address(ipv4: &[u8], ipv6: &[u8]) -> bool
    ensures { result ≡ sender_addressed ipv4.now ipv6.now }
{
    address_fits(ipv4.len(), 4) && address_fits(ipv6.len(), 16) && 0 < ipv4.len() + ipv6.len()
}

// What stands in the space: how many octets of it hold the request, and the peer under which it is to be run (02 (xiv)).
#[derive(Clone, Copy, Debug, Default, PartialEq, Eq)]
pub struct Written {
    pub used: usize,
    pub peer: u32,
}

// Why no request is written.
#[derive(Clone, Copy, Debug, PartialEq, Eq)]
pub enum Unwritten {
    // The table is broken.
    Broken,
    // The place is past the last session.
    NoSession,
    // The control plane has no address.
    NoAddress,
    // The space is too small.
    NoRoom,
}

impl Unwritten {
    // The host's outcome.
    pub fn outcome(self) -> u32
        ensures { result ≡ outcome_of self }
    {
        match self {
            Unwritten::Broken => 1,
            Unwritten::NoSession => 2,
            Unwritten::NoAddress => 3,
            Unwritten::NoRoom => 4,
        }
    }
}

// The peer of the session at a place: it stands first in the slot.
fn peer_at(t: &[u8], place: usize) -> u32
    requires { T (sound t.now) × (place < length (view_sessions t.now)) }
    ensures { result ≡ (session_at (view_sessions t.now) place).peer }
{
    let at = format::HEAD + place * format::SLOT;
    t[at] as u32
}

// The restoration request of the session at a place, in a space that is lent.
fn write_at(
    t: &[u8],
    place: usize,
    ipv4: &[u8],
    ipv6: &[u8],
    space: &mut [u8],
) -> Result<Written, Unwritten>
    requires { Ready t.now place ipv4.now ipv6.now }
    ensures { writing_of result space.new ≡ write_into (session_at (view_sessions t.now) place).peer (restoration_at t.now place ipv4.now ipv6.now) space.old }
{
    let mut request = [0u8; format::RESTORATION];
    let used = write_request(t, place, ipv4, ipv6, &mut request);
    if space.len() < used {
        return Err(Unwritten::NoRoom);
    }
    octets::copy(space, 0, &request[..used]);
    Ok(Written {
        used,
        peer: peer_at(t, place),
    })
}

// Writes the restoration request of the session at a place, of any octets and any place; a refusal writes nothing.
pub fn write_restoration(
    t: &[u8],
    place: usize,
    ipv4: &[u8],
    ipv6: &[u8],
    space: &mut [u8],
) -> Result<Written, Unwritten>
    ensures { writing_of result space.new ≡ write_restoration t.now place ipv4.now ipv6.now space.old }
{
    if !table::is_sound(t) {
        return Err(Unwritten::Broken);
    }
    if octets::read(t, format::COUNT, 2) as usize <= place {
        return Err(Unwritten::NoSession);
    }
    if !has_address(ipv4, ipv6) {
        return Err(Unwritten::NoAddress);
    }
    write_at(t, place, ipv4, ipv6, space)
}
