// The slots of two sessions, written octet by octet.
ghost use Rattle.std.specs.Prelude.{◌≤◌, length};

// Writes the n octets of a number at a place of a table or a record, if they fit.
pub fn put(record: &mut [u8], place: usize, n: usize, value: u64) {
    if let Some(field) = record.get_mut(place..)
        && n <= field.len()
    {
        octets::write(field, 0, n, value);
    }
}

// A slot's peer and SEID, and the numbers of its PDRs, endpoints and FQ-CSIDs.
fn session(slot: &mut [u8], peer: u64, pdrs: u64, endpoints: u64, csids: u64) {
    put(slot, 0, 1, peer);
    put(slot, format::SEID, 8, 5);
    put(slot, format::PDR_COUNT, 1, pdrs);
    put(slot, format::ENDPOINT_COUNT, 1, endpoints);
    put(slot, format::CSID_COUNT, 1, csids);
}

// A PDR's ID, precedence and source interface; then what it may have besides.
fn pdr(record: &mut [u8], id: u64, precedence: u64, source: u64) {
    put(record, 0, 2, id);
    put(record, format::PRECEDENCE, 4, precedence);
    put(record, format::SOURCE, 1, source);
}

fn far(record: &mut [u8], id: u64) {
    put(record, format::FAR, 1, 1);
    put(record, format::FAR_ID, 4, id);
}

fn tunnel(record: &mut [u8], teid: u64, families: u64) {
    put(record, format::MATCH, 1, 1);
    put(record, format::TEID, 4, teid);
    put(record, format::FAMILIES, 1, families);
}

fn named(record: &mut [u8], endpoint: u64) {
    put(record, format::MATCH, 1, 2);
    put(record, format::NAMED_ENDPOINT, 1, endpoint);
}

fn patient(record: &mut [u8], address: u64) {
    put(record, format::PDR_ADDRESS_THERE, 1, 1);
    put(record, format::PDR_ADDRESS, 4, address);
}

fn endpoint(record: &mut [u8], id: u64, teid: u64, families: u64, address: u64) {
    put(record, 0, 1, id);
    put(record, format::ENDPOINT_TEID, 4, teid);
    put(record, format::ENDPOINT_FAMILIES, 1, families);
    put(record, format::ENDPOINT_ADDRESS_THERE, 1, 1);
    put(record, format::ENDPOINT_ADDRESS, 4, address);
}

// An FQ-CSID; the address stands in the first four of its octets.
fn csid(record: &mut [u8], node_type: u64, id_type: u64, address: u64, csid: u64) {
    put(record, 0, 1, node_type);
    put(record, format::CSID_ID_TYPE, 1, id_type);
    put(record, format::CSID_ADDRESS, 4, address);
    put(record, format::CSID_NUMBER, 2, csid);
}

// A PDR that shares TEID 4,096 and the address 10.0.0.0 with others.
fn sharing(record: &mut [u8], id: u64, precedence: u64) {
    pdr(record, id, precedence, 0);
    far(record, 7);
    tunnel(record, 4096, 1);
    patient(record, 0x0a000000);
}

// A PDR that names endpoint 9 and has an address outside the pool.
fn naming(record: &mut [u8]) {
    pdr(record, 3, 300, 2);
    named(record, 9);
    patient(record, 0xc0000263);
}

// SEID 5 of peer 1: PDRs 1 and 2 share, PDR 3 names endpoint 9, PDR 4 has no TEID, no endpoint, no FAR and no address. Its endpoint 9 has
// 10.0.0.1; two FQ-CSIDs.
pub fn first(slot: &mut [u8])
    requires { 604 ≤ length slot.old }
{
    session(slot, 1, 4, 1, 2);
    sharing(&mut slot[format::PDRS..], 1, 100);
    sharing(&mut slot[format::PDRS + format::PDR..], 2, 200);
    naming(&mut slot[format::PDRS + 2 * format::PDR..]);
    pdr(&mut slot[format::PDRS + 3 * format::PDR..], 4, 400, 3);
    endpoint(&mut slot[format::ENDPOINTS..], 9, 4097, 3, 0x0a000001);
    csid(&mut slot[format::CSIDS..], 1, 0, 0xc000020a, 5);
    csid(
        &mut slot[format::CSIDS + format::CSID..],
        5,
        2,
        0x3ff71005,
        9,
    );
}

// The same SEID of peer 2: one PDR with 10.0.0.2.
pub fn second(slot: &mut [u8])
    requires { 604 ≤ length slot.old }
{
    session(slot, 2, 1, 0, 0);
    let record = &mut slot[format::PDRS..];
    pdr(record, 1, 1, 1);
    tunnel(record, 4099, 2);
    patient(record, 0x0a000002);
}
