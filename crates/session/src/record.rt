// The octets of a record, from its row in the plan.
ghost use Rattle.std.specs.Prelude.{◌≡◌, length};
ghost use Rattle.session.specs.Records.{if_is, address_there, row_match, pdr_record, endpoint_record, csid_record, record_with_precedence, record_with_far};
ghost use Rattle.rules.specs.Layout.{pdr_width};
ghost use Rattle.plan.specs.Rows.{row_width};

use format::{Row, words};

// v where a word has the value n, else 0.
#[tactic(auto, unfolding(crate::specs::Records::if_is))]
fn if_is(there: u64, n: u64, v: u64) -> u64
    ensures { result ≡ if_is there n v }
{
    if there == n { v } else { 0 }
}

// What a PDR matches on: 0 neither, 1 a local F-TEID, 2 an endpoint.
#[tactic(auto, unfolding(crate::specs::Records::row_match))]
fn match_kind(row: &Row) -> u64
    ensures { result ≡ row_match row.now }
{
    if row[words::FLAGS] != 0 {
        1
    } else if row[words::HAS_ENDPOINT_ID] == 1 {
        2
    } else {
        0
    }
}

// Whether there is an address, given or chosen.
#[tactic(auto, unfolding(crate::specs::Records::address_there))]
fn address_there(row: &Row) -> u64
    ensures { result ≡ address_there row.now }
{
    u64::from(matches!(row[words::UE_KIND], 1 | 2))
}

pub fn pdr(row: &Row) -> [u8; format::PDR]
    ensures { result ≡ pdr_record row.now }
{
    let kind = match_kind(row);
    let there = address_there(row);
    let ws = [2usize, 4, 1, 4, 1, 1, 4, 1, 1, 1, 4];
    let vs = [
        row[words::PDR_ID],
        row[words::PRECEDENCE],
        if_is(row[words::HAS_FAR_ID], 1, 1),
        if_is(row[words::HAS_FAR_ID], 1, row[words::FAR_ID]),
        row[words::SOURCE],
        kind,
        if_is(kind, 1, row[words::TEID]),
        if_is(kind, 1, row[words::FLAGS] % 4),
        if_is(kind, 2, row[words::ENDPOINT_ID]),
        there,
        if_is(there, 1, row[words::UE_ADDRESS]),
    ];
    let mut out = [0u8; format::PDR];
    octets::fields::write_fields(&mut out, 0, &ws, &vs);
    out
}

pub fn endpoint(row: &Row) -> [u8; format::ENDPOINT]
    ensures { result ≡ endpoint_record row.now }
{
    let there = address_there(row);
    let ws = [1usize, 4, 1, 1, 4];
    let vs = [
        row[words::ENDPOINT_ID],
        row[words::TEID],
        row[words::FLAGS] % 4,
        there,
        if_is(there, 1, row[words::UE_ADDRESS]),
    ];
    let mut out = [0u8; format::ENDPOINT];
    octets::fields::write_fields(&mut out, 0, &ws, &vs);
    out
}

// An address of 16 octets, or of 4 and zeros after it.
pub fn csid(row: &Row) -> [u8; format::CSID]
    ensures { result ≡ csid_record row.now }
{
    let mut out = [0u8; format::CSID];
    if row[words::ID_TYPE] == 1 {
        let ws = [1usize, 1, 8, 8, 0, 2];
        let vs = [
            row[words::NODE_TYPE],
            row[words::ID_TYPE],
            row[words::ADDRESS_HIGH],
            row[words::ADDRESS_LOW],
            0,
            row[words::CSID],
        ];
        octets::fields::write_fields(&mut out, 0, &ws, &vs);
        return out;
    }
    let ws = [1usize, 1, 4, 8, 4, 2];
    let vs = [
        row[words::NODE_TYPE],
        row[words::ID_TYPE],
        row[words::ADDRESS_LOW],
        0,
        0,
        row[words::CSID],
    ];
    octets::fields::write_fields(&mut out, 0, &ws, &vs);
    out
}

// The precedence that an Update PDR's row names, in a PDR's record.
pub fn set_precedence(rec: &mut [u8], row: &Row)
    requires { (length rec.old ≡ pdr_width) }
    ensures { rec.new ≡ record_with_precedence row.now rec.old }
{
    if row[words::HAS_PRECEDENCE] == 1 {
        octets::write(rec, format::PRECEDENCE, 4, row[words::PRECEDENCE]);
    }
}

// The FAR ID that it names; one of null length takes it away.
pub fn set_far(rec: &mut [u8], row: &Row)
    requires { (length rec.old ≡ pdr_width) }
    ensures { rec.new ≡ record_with_far row.now rec.old }
{
    let far = row[words::HAS_FAR_ID];
    if far == 1 {
        octets::write(rec, format::FAR, 1, 1);
        octets::write(rec, format::FAR_ID, 4, row[words::FAR_ID]);
        return;
    }
    if far == 2 {
        octets::clear(rec, format::FAR, 5);
    }
}
