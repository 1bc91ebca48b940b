// The frame of a message: its header (header.rt), the walk over its elements, and stage 2, the framing of its elements and groups.
//
// The walk takes any octets: an element that runs past the end has the octets that are there. So each promise is an equation with no
// assumption, and stage 2 need not have been passed.
#![tactic(auto)]

ghost use Rattle.std.specs.Prelude.{◌≡◌, ◌+◌, ◌<◌, ◌^◌, length};
ghost use Rattle.octets.specs.Lists.{member, keep};
ghost use Rattle.rules.specs.Message.{opened_in, spot, frame, frame_fault, elements, has_type};
ghost use Rattle.frame.specs.Framed.{framing_fault};
ghost use Rattle.frame.specs.FirstOf.{first_of};

use format::{kinds, types};

pub mod header;

// Where a fault of the framing stands: the type at fault and its place in the message, of an element that runs past its end, or of the group
// (0 at 0: the message) where under 4 octets are left.
#[derive(Clone, Copy)]
pub struct Spot {
    pub kind: u64,
    pub place: usize,
}

// Whether an element of type kind is a group that is opened at the place group (0: the message) of a message of type message.
fn opens(message: u64, group: u64, kind: u64) -> bool
    ensures { result ≡ member kind (opened_in message group) }
{
    match kind {
        // Vendor elements.
        32768..=65535 => false,
        types::CREATE_PDR | types::CREATE_ENDPOINT => match group {
            0 => match message {
                kinds::ESTABLISHMENT | kinds::MODIFICATION => true,
                _ => false,
            },
            _ => false,
        },
        types::UPDATE_PDR | types::REMOVE_PDR | types::REMOVE_ENDPOINT => match group {
            0 => match message {
                kinds::MODIFICATION => true,
                _ => false,
            },
            _ => false,
        },
        types::PDI => match group {
            types::CREATE_PDR | types::UPDATE_PDR => true,
            _ => false,
        },
        _ => false,
    }
}

// The first fault in the framing of s, the value of the group at a place or (group 0) the elements of the message, with so many depths left.
// The first octet of s stands at base. A group's value is handed on as a part of s.
fn first_fault(
    s: &[u8],
    message: u64,
    group: u64,
    place: usize,
    base: usize,
    depth: u64,
) -> Result<(), Spot>
    requires { base + length s.now < 2 ^ 64 }
    ensures { framing_fault result ≡ frame depth message (spot group place) base s.now }
{
    if depth == 0 {
        return Ok(());
    }
    let mut rest = s;
    let mut at = base;
    while 0 < rest.len() {
        if rest.len() < 4 {
            return Err(Spot { kind: group, place });
        }
        let kind = octets::read(rest, 0, 2);
        let end = 4 + octets::read(rest, 2, 2) as usize;
        if rest.len() < end {
            return Err(Spot { kind, place: at });
        }
        if opens(message, group, kind) {
            first_fault(&rest[4..end], message, kind, at, at + 4, depth - 1)?;
        }
        rest = &rest[end..];
        at += end;
    }
    Ok(())
}

// Stage 2 of a message, the header of which is allowed: groups nest at most three deep, the message counted.
pub fn frame_fault(msg: &[u8]) -> Result<(), Spot>
    ensures { framing_fault result ≡ frame_fault msg.now }
{
    if msg.len() < format::header::LIST_BODY {
        return Ok(());
    }
    let at = header::length_of(msg[0]);
    if msg.len() < at {
        return Ok(());
    }
    first_fault(
        &msg[at..],
        octets::read(msg, format::header::KIND, 1),
        0,
        0,
        at,
        3,
    )
}

// An element at the front of some octets: its type, and how many octets it takes. Its value starts at octet 4.
#[derive(Clone, Copy)]
pub struct Element {
    pub kind: u64,
    pub end: usize,
}

// The element at the front of s, unless under 4 octets are there.
pub fn first_of(s: &[u8]) -> Option<Element>
    ensures { result ≡ first_of s.now }
{
    if s.len() < 4 {
        return None;
    }
    let kind = octets::read(s, 0, 2);
    let end = 4 + octets::read(s, 2, 2) as usize;
    if s.len() < end {
        return Some(Element { kind, end: s.len() });
    }
    Some(Element { kind, end })
}

// How many elements of s have the type kind; their places do not matter.
pub fn count(s: &[u8], kind: u64) -> usize
    ensures { result ≡ length (keep (has_type kind) (elements 0 s.now)) }
{
    let mut rest = s;
    let mut n = 0;
    while let Some(element) = first_of(rest) {
        if element.kind == kind {
            n += 1;
        }
        rest = &rest[element.end..];
    }
    n
}
