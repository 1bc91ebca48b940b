// Stage 3 at the top of a message: its elements in turn, each read once.
ghost use Rattle.std.specs.Prelude.{◌≡◌, ◌+◌, ◌≤◌, ◌<◌, ◌^◌, length};
ghost use Rattle.octets.specs.Lists.{member};
ghost use Rattle.rules.specs.Message.{body_place, elements, acted_on};
ghost use Rattle.rules.specs.Reading.{alone_in, seid_read, flags_read, elements_read};
ghost use Rattle.rules.specs.Request.{empty_draft};
ghost use Rattle.request.specs.Items.{Passes, Follows, Roomy, Enough, AllRead, element_at, with_note};

use format::{causes, kinds, types};
use reading::{Fault, answer_at};

// What was read of a message so far: how many rows there are, the SEID of the F-SEID (0 before it is met), the flags 186 (0 before they are
// met, then 1, or 2 for a restoration), whether element 129 was met, and whether a PDR is created.
#[derive(Clone, Copy)]
pub struct Draft {
    pub rows: usize,
    pub seid: u64,
    pub flags: u64,
    pub noted: bool,
    pub creates: bool,
}

// An F-SEID at a place, which may come once.
fn read_seid(v: &[u8], place: usize, d: Draft) -> Result<Draft, Fault>
    ensures { Passes (seid_read place v.now) d result }
{
    if d.seid != 0 {
        return Err(Fault {
            cause: causes::INCORRECT,
            kind: types::FSEID,
            place,
        });
    }
    let seid = answer_at(fseid::read(v), types::FSEID, place)?;
    Ok(Draft { seid, ..d })
}

// The flags 186 at a place, which may come once.
fn read_flags(v: &[u8], place: usize, d: Draft) -> Result<Draft, Fault>
    ensures { Passes (flags_read place v.now) d result }
{
    if d.flags != 0 {
        return Err(Fault {
            cause: causes::INCORRECT,
            kind: types::SESSION_FLAGS,
            place,
        });
    }
    if v.len() < 1 {
        return Err(Fault {
            cause: causes::WRONG_LENGTH,
            kind: types::SESSION_FLAGS,
            place,
        });
    }
    let flags = 1 + (v[0] % 2) as u64;
    Ok(Draft { flags, ..d })
}

// Whether an element of type kind is acted on at the top of a message.
fn is_acted(message: u64, kind: u64) -> bool
    ensures { result ≡ member kind (acted_on message) }
{
    match message {
        kinds::ESTABLISHMENT => match kind {
            types::CREATE_PDR
            | types::FSEID
            | types::FQCSID
            | types::CREATE_ENDPOINT
            | types::SESSION_FLAGS => true,
            _ => false,
        },
        kinds::MODIFICATION => match kind {
            types::CREATE_PDR
            | types::UPDATE_PDR
            | types::REMOVE_PDR
            | types::FQCSID
            | types::CREATE_ENDPOINT
            | types::REMOVE_ENDPOINT => true,
            types::UPDATE_ENDPOINT => true,
            _ => false,
        },
        kinds::SET_DELETION => match kind {
            types::FQCSID => true,
            _ => false,
        },
        _ => false,
    }
}

// Element 129, which is noted.
fn note(d: Draft) -> Draft
    ensures { result ≡ with_note d }
{
    Draft { noted: true, ..d }
}

// The element of type kind and value v at a place of the message, whose elements are s; nodes are the node types met.
fn read_element(
    s: &[u8],
    v: &[u8],
    message: u64,
    kind: u64,
    place: usize,
    nodes: &mut [u64],
    words: &mut [u64],
    d: Draft,
) -> Result<Draft, Fault>
    requires { Roomy d nodes.old words.old × (place + 4 + length v.now < 2 ^ 64) }
    ensures { Follows (element_at message (alone_in (elements body_place s.now)) kind place v.now) d nodes.old words.old result nodes.new words.new }
{
    if !is_acted(message, kind) {
        return Ok(d);
    }
    match kind {
        types::FSEID => read_seid(v, place, d),
        types::SESSION_FLAGS => read_flags(v, place, d),
        types::FQCSID => crate::row::read_csid(s, v, message, place, nodes, words, d),
        types::UPDATE_ENDPOINT => Ok(note(d)),
        _ => crate::row::read_group(v, kind, place, words, d),
    }
}

// Reads the elements s of a message, which start at octet 16: the first fault, or what they ask for.
pub(crate) fn read_elements(s: &[u8], message: u64, words: &mut [u64]) -> Result<Draft, Fault>
    requires { Enough s.now words.old }
    ensures { AllRead (elements_read message (alone_in (elements body_place s.now)) (elements body_place s.now) empty_draft) result words.new }
{
    let mut nodes = [0u64; 16];
    let mut d = Draft {
        rows: 0,
        seid: 0,
        flags: 0,
        noted: false,
        creates: false,
    };
    let mut rest = s;
    let mut at = 16;
    while let Some(element) = frame::first_of(rest) {
        let v = &rest[4..element.end];
        d = read_element(s, v, message, element.kind, at, &mut nodes, words, d)?;
        rest = &rest[element.end..];
        at += element.end;
    }
    Ok(d)
}
