// The header of a message: host outcomes 3, 4 and 5, the type and the header's SEID.
ghost use Rattle.std.specs.Prelude.{◌≡◌};
ghost use Rattle.octets.specs.Choice.{pick};
ghost use Rattle.octets.specs.Octets.{bit};
ghost use Rattle.frame.specs.HeaderOf.{opened, header_of};
ghost use Rattle.rules.specs.Message.{body_place, list_place, first_octet_allowed, header_allowed, served};

use format::{header, kinds};

// Why a message is not served.
#[derive(Clone, Copy)]
pub enum Unserved {
    // Over 2,048 octets: outcome 3.
    TooLong,
    // Under 16 octets (8 in a set deletion), or version, S, FO or length wrong: outcome 4.
    Malformed,
    // The type is not served: outcome 5.
    NotServed,
}

// What the header of a message says that is served.
#[derive(Clone, Copy)]
pub enum Header {
    // The type, and the SEID of the header.
    Request(u64, u64),
    // A set deletion, whose header has no SEID.
    Sets,
}

// How many octets a header has, by S in its first octet.
pub(crate) fn length_of(x: u8) -> usize
    ensures { result ≡ pick (bit 0 x) body_place list_place }
{
    if x % 2 == 1 {
        return header::BODY;
    }
    header::LIST_BODY
}

// Whether the first octet of a message of a kind has version 1, FO 0 and its S. Other bits are ignored.
fn first_octet(kind: u64, x: u8) -> bool
    ensures { result ≡ first_octet_allowed kind x }
{
    if x / 32 != 1 {
        return false;
    }
    if x / 4 % 2 == 1 {
        return false;
    }
    if kind == kinds::SET_DELETION {
        return x % 2 == 0;
    }
    x % 2 == 1
}

// Whether the header is whole, its first octet allowed and its length exact.
fn allowed(msg: &[u8]) -> bool
    ensures { result ≡ header_allowed msg.now }
{
    if msg.len() < header::LIST_BODY {
        return false;
    }
    if msg.len() < length_of(msg[0]) {
        return false;
    }
    let kind = octets::read(msg, header::KIND, 1);
    if !first_octet(kind, msg[0]) {
        return false;
    }
    header::COUNTED as u64 + octets::read(msg, header::LENGTH, 2) == msg.len() as u64
}

fn is_served(kind: u64) -> bool
    ensures { result ≡ served kind }
{
    match kind {
        kinds::ESTABLISHMENT | kinds::MODIFICATION | kinds::DELETION | kinds::SET_DELETION => true,
        _ => false,
    }
}

// What the header of msg says.
pub fn read_header(msg: &[u8]) -> Result<Header, Unserved>
    ensures { opened result ≡ header_of msg.now }
{
    if format::MESSAGE < msg.len() {
        return Err(Unserved::TooLong);
    }
    if !allowed(msg) {
        return Err(Unserved::Malformed);
    }
    let kind = octets::read(msg, header::KIND, 1);
    if !is_served(kind) {
        return Err(Unserved::NotServed);
    }
    if kind == kinds::SET_DELETION {
        return Ok(Header::Sets);
    }
    Ok(Header::Request(kind, octets::read(msg, header::SEID, 8)))
}
