// The rows of a request: a group or an FQ-CSID is read into its row, which is put into the plan once it has no fault.
ghost use Rattle.std.specs.Prelude.{◌≡◌, true, false, ◌&&◌, ◌+◌, ◌*◌, ◌≤◌, ◌<◌, ◌^◌, eqb, length};
ghost use Rattle.octets.specs.Choice.{is_nil};
ghost use Rattle.octets.specs.Octets.{put};
ghost use Rattle.octets.specs.Lists.{member};
ghost use Rattle.rules.specs.Message.{modification, body_place, elements};
ghost use Rattle.rules.specs.Reading.{alone_in, csid_read};
ghost use Rattle.plan.specs.Rows.{row_width};
ghost use Rattle.request.specs.Items.{group_types, group_at, Puts, Follows, Roomy, with_row};
ghost use Rattle.request.specs.Csids.{csid_count_fits, bare_csid, csid_words, csid_taken};

use crate::items::Draft;
use format::{Row, causes, kinds, types, words};
use fqcsid::FqCsid;
use reading::{Fault, answer_at};

// Writes the words of a row at index at.
fn put_words(words: &mut [u64], at: usize, row: &Row)
    requires { at + row_width ≤ length words.old }
    ensures { words.new ≡ put at row.now words.old }
{
    words[at..at + format::ROW].copy_from_slice(row);
}

// One more row, of a Create PDR or not.
fn with_row(d: Draft, creates: bool) -> Draft
    requires { d.rows ≤ 225 }
    ensures { result ≡ with_row creates d }
{
    Draft {
        rows: d.rows + 1,
        creates: creates || d.creates,
        ..d
    }
}

// A group of type kind with the value v at a place, read once into its row.
pub(crate) fn read_group(
    v: &[u8],
    kind: u64,
    place: usize,
    words: &mut [u64],
    d: Draft,
) -> Result<Draft, Fault>
    requires { (member kind group_types ≡ true) × (row_width * d.rows + row_width ≤ length words.old) × (d.rows ≤ 225) × (place + 4 + length v.now < 2 ^ 64) }
    ensures { Puts (group_at kind place v.now) d words.old result words.new }
{
    let mut row = [0u64; format::ROW];
    reading::members::read_group(v, kind, place, &mut row)?;
    row[words::TAG] = kind;
    put_words(words, format::ROW * d.rows, &row);
    Ok(with_row(d, kind == types::CREATE_PDR))
}

// An FQ-CSID as the words of a row: 1 sets a node type's, 2 removes it, 3 is of null length.
#[derive(Clone, Copy)]
pub struct Csid {
    pub state: u64,
    pub node: u64,
    pub id_type: u64,
    pub high: u64,
    pub low: u64,
    pub csid: u64,
}

// An FQ-CSID without an address and a CSID.
fn bare(state: u64, node: u64) -> Csid
    ensures { result ≡ bare_csid state node }
{
    Csid {
        state: state,
        node: node,
        id_type: 0,
        high: 0,
        low: 0,
        csid: 0,
    }
}

// The FQ-CSID of a value with one CSID at most.
fn csid_from(x: FqCsid) -> Csid
    ensures { result ≡ csid_taken x }
{
    if x.count == 0 {
        return bare(2, x.node_type);
    }
    Csid {
        state: 1,
        node: x.node_type,
        id_type: x.id_type,
        high: x.address_high,
        low: x.address_low,
        csid: x.csids_1,
    }
}

// Puts the row of an FQ-CSID into the plan.
fn put_csid(x: Csid, words: &mut [u64], d: Draft) -> Draft
    requires { (row_width * d.rows + row_width ≤ length words.old) × (d.rows ≤ 225) }
    ensures { (result ≡ with_row false d) × (words.new ≡ put (row_width * d.rows) (csid_words x) words.old) }
{
    let mut row = [0u64; format::ROW];
    row[words::TAG] = types::FQCSID;
    row[words::VERB] = x.state;
    row[words::NODE_TYPE] = x.node;
    row[words::ID_TYPE] = x.id_type;
    row[words::ADDRESS_HIGH] = x.high;
    row[words::ADDRESS_LOW] = x.low;
    row[words::CSID] = x.csid;
    put_words(words, format::ROW * d.rows, &row);
    with_row(d, false)
}

// Whether v is the null FQ-CSID of a modification whose elements s have no other.
fn is_clearing(s: &[u8], v: &[u8], message: u64) -> bool
    ensures { result ≡ (is_nil v.now && eqb message modification && alone_in (elements body_place s.now)) }
{
    if v.len() != 0 {
        return false;
    }
    if message != kinds::MODIFICATION {
        return false;
    }
    frame::count(s, types::FQCSID) == 1
}

// Whether so many CSIDs are allowed: one in an establishment, one or none in a modification.
fn is_count_allowed(message: u64, count: u64) -> bool
    ensures { result ≡ csid_count_fits message count }
{
    match count {
        0 => message == kinds::MODIFICATION,
        1 => true,
        _ => false,
    }
}

// An FQ-CSID of value v at a place of the message, whose elements are s, read once: into its row, and its node type into those that were met.
pub(crate) fn read_csid(
    s: &[u8],
    v: &[u8],
    message: u64,
    place: usize,
    nodes: &mut [u64],
    words: &mut [u64],
    d: Draft,
) -> Result<Draft, Fault>
    requires { Roomy d nodes.old words.old }
    ensures { Follows (csid_read message (alone_in (elements body_place s.now)) place v.now) d nodes.old words.old result nodes.new words.new }
{
    if is_clearing(s, v, message) {
        return Ok(put_csid(bare(3, 0), words, d));
    }
    let x = answer_at(fqcsid::read(v), types::FQCSID, place)?;
    let node = x.node_type as usize;
    if !is_count_allowed(message, x.count) {
        return Err(Fault {
            cause: causes::INCORRECT,
            kind: types::FQCSID,
            place,
        });
    }
    if nodes[node] != 0 {
        return Err(Fault {
            cause: causes::INCORRECT,
            kind: types::FQCSID,
            place,
        });
    }
    nodes[node] = 1;
    Ok(put_csid(csid_from(x), words, d))
}
