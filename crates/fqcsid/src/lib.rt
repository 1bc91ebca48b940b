// FQ-CSID (TS 29.244, clause 8.2.43): the value octets, read and written.
#![tactic(auto)]

ghost use Rattle.std.specs.Prelude.{◌≡◌, not, ◌&&◌, ◌||◌, [], ◌∷◌, ◌+◌, ◌/◌, ◌≤◌, ◌<◌, eqb, leb, length};
ghost use Rattle.std.proofs.Math.Option.{some};
ghost use Rattle.octets.specs.Choice.{all_of};
ghost use Rattle.octets.specs.Octets.{put};
ghost use Rattle.octets.specs.Fields.{width_of, field_octets};
ghost use Rattle.rules.specs.Limits.{max_operator};
ghost use Rattle.rules.specs.Elements.{address_length, node_type_kept, read_fqcsid, fqcsid_allowed, write_fqcsid};
ghost use Rattle.element.specs.Answers.{left, write_meant, allowed_in};
ghost use Rattle.fqcsid.specs.Meaning.{word_width, fqcsid_widths, fqcsid_numbers, fqcsid_of, fqcsid_answer};

use element::Refusal;

// A Node-ID of 4 octets has its address in address_low alone. The CSIDs, of which there are count, stand two octets each in
// four words, the first of them in csids_1, eight octets or what is left of them in each. So a single CSID is csids_1.
// A count of 0 is the removal.
#[derive(Clone, Copy)]
pub struct FqCsid {
    pub id_type: u64,
    pub count: u64,
    pub address_high: u64,
    pub address_low: u64,
    pub csids_1: u64,
    pub csids_2: u64,
    pub csids_3: u64,
    pub csids_4: u64,
    pub node_type: u64,
}

// Whether a node type is kept. More than four bits are no node type.
fn is_kept(node_type: u64) -> bool
    ensures { result ≡ node_type_kept node_type }
{
    match node_type {
        0..=5 => true,
        6..=15 => false,
        _ => false,
    }
}

// Whether the top 20 bits of a Node-ID of type 2, MCC x 1000 + MNC, are at most 999,999.
fn is_operator(id_type: u64, low: u64) -> bool
    ensures { result ≡ (not (eqb id_type 2) || leb (low / 4096) max_operator) }
{
    if id_type == 2 {
        return low / 4096 <= 999999;
    }
    true
}

// Whether no CSIDs go with type and address zero, as in a removal.
fn is_right_count(id_type: u64, count: u64, low: u64) -> bool
    ensures { result ≡ (not (eqb count 0) || (eqb id_type 0 && eqb low 0)) }
{
    if count == 0 {
        if id_type == 0 {
            return low == 0;
        }
        return false;
    }
    true
}

// The rules for a value whose numbers fit.
fn keeps_rules(v: FqCsid) -> bool
    ensures { result ≡ all_of (node_type_kept v.node_type ∷ (not (eqb v.id_type 2) || leb (v.address_low / 4096) max_operator) ∷ (not (eqb v.count 0) || (eqb v.id_type 0 && eqb v.address_low 0)) ∷ []) }
{
    if !is_kept(v.node_type) {
        return false;
    }
    if !is_operator(v.id_type, v.address_low) {
        return false;
    }
    is_right_count(v.id_type, v.count, v.address_low)
}

// How many octets the address of a Node-ID type has.
pub fn address_length(id_type: u64) -> usize
    ensures { (result ≡ address_length id_type) × (result ≤ 16) }
{
    if id_type == 1 {
        return 16;
    }
    4
}

// How many octets of the CSIDs stand in word k, counted from 0.
fn word_width(count: usize, k: usize) -> usize
    requires { (count < 16) × (k < 4) }
    ensures { result ≡ word_width k count }
{
    let all = 2 * count;
    let before = 8 * k;
    if all <= before {
        return 0;
    }
    let left = all - before;
    if left < 8 {
        return left;
    }
    8
}

// How many octets the first octet, the halves of the address, the words of CSIDs and the last octet take.
fn widths_of(id_type: u64, count: u64) -> [usize; 8]
    requires { count < 16 }
    ensures { result ≡ fqcsid_widths id_type count }
{
    let m = count as usize;
    let a = word_width(m, 0);
    let b = word_width(m, 1);
    let c = word_width(m, 2);
    let d = word_width(m, 3);
    if id_type == 1 {
        return [1, 8, 8, a, b, c, d, 1];
    }
    [1, 0, 4, a, b, c, d, 1]
}

// Reads a value. Octets after it are ignored, and so is the high half of its last octet.
pub fn read(s: &[u8]) -> Result<FqCsid, Refusal>
    ensures { fqcsid_answer result ≡ some (read_fqcsid s.now) }
{
    if s.len() == 0 {
        return Err(Refusal::TooShort);
    }
    let id_type = (s[0] / 16) as u64;
    let count = (s[0] % 16) as u64;
    if 2 < id_type {
        return Err(Refusal::Incorrect);
    }
    let ws = widths_of(id_type, count);
    if s.len() < octets::fields::width(&ws) {
        return Err(Refusal::TooShort);
    }
    let mut vs = [0u64; 8];
    octets::fields::read_fields(s, 0, &ws, &mut vs);
    let v = FqCsid {
        id_type: id_type,
        count: count,
        address_high: vs[1],
        address_low: vs[2],
        csids_1: vs[3],
        csids_2: vs[4],
        csids_3: vs[5],
        csids_4: vs[6],
        node_type: vs[7] % 16,
    };
    if keeps_rules(v) {
        Ok(v)
    } else {
        Err(Refusal::Incorrect)
    }
}

// The numbers that stand in these octets.
fn numbers_of(v: FqCsid) -> [u64; 8]
    requires { (v.id_type < 16) × (v.count < 16) }
    ensures { result ≡ fqcsid_numbers v }
{
    [
        16 * v.id_type + v.count,
        v.address_high,
        v.address_low,
        v.csids_1,
        v.csids_2,
        v.csids_3,
        v.csids_4,
        v.node_type,
    ]
}

// Whether the struct means a value that the rules allow.
fn is_allowed(v: FqCsid) -> bool
    ensures { result ≡ allowed_in fqcsid_allowed (fqcsid_of v) }
{
    let id_type = v.id_type;
    let count = v.count;
    if 2 < id_type {
        return false;
    }
    if 15 < count {
        return false;
    }
    if !keeps_rules(v) {
        return false;
    }
    let ws = widths_of(id_type, count);
    let vs = numbers_of(v);
    octets::fields::fit_fields(&ws, &vs)
}

// Writes a value's octets from a place on; the answer is the place after them.
pub fn write_at(v: FqCsid, out: &mut [u8], at: usize) -> usize
    requires { (v.id_type < 16) × (v.count < 16) × (at + width_of (fqcsid_widths v.id_type v.count) ≤ length out.old) }
    ensures { (result ≡ at + width_of (fqcsid_widths v.id_type v.count)) × (out.new ≡ put at (field_octets (fqcsid_widths v.id_type v.count) (fqcsid_numbers v)) out.old) }
{
    let ws = widths_of(v.id_type, v.count);
    let vs = numbers_of(v);
    element::write_fields_at(out, at, &ws, &vs)
}

// Writes a value at the start of out, or refuses it, or too little space, and writes nothing. Octets after it stay.
pub fn write(v: FqCsid, out: &mut [u8]) -> Option<usize>
    ensures { left result out.new ≡ write_meant write_fqcsid (fqcsid_of v) out.old }
{
    if !is_allowed(v) {
        return None;
    }
    let ws = widths_of(v.id_type, v.count);
    let vs = numbers_of(v);
    element::write_fields(out, &ws, &vs)
}
