// The parts of a session's slot that hold no TEID, tested for any octets of them, and the order of records. The areas of PDRs and
// endpoints are tested where their TEIDs are marked (crate marking).
//
// A slot is the peer (1 octet), the SEID (8), the numbers of PDRs, endpoints and FQ-CSIDs (1 each), and an area for each kind of record.
ghost use Rattle.std.specs.Prelude.{◌≡◌, ◌&&◌, map, ◌*◌, ◌≤◌, length, drop};
ghost use Rattle.octets.specs.Octets.{all_zero, slices};
ghost use Rattle.octets.specs.Lists.{ascending};
ghost use Rattle.rules.specs.Layout.{csid_width, session_width};
ghost use Rattle.rules.specs.Model.{is_peer};
ghost use Rattle.areas.specs.Records.{key_of};
ghost use Rattle.records.specs.Kept.{csid_sound};
ghost use Rattle.records.specs.Slot.{area_sound, counts_sound, head_sound};

use format::{
    CSID, CSID_COUNT, ENDPOINT_COUNT, MAX_CSIDS, MAX_ENDPOINTS, MAX_PDRS, PDR_COUNT, SLOT,
};

// Whether the keys of n records ascend. A key is the first nine octets of a record of w.
fn ascends(a: &[u8], w: usize, n: usize) -> bool
    requires { (n * w ≤ length a.now) × (9 ≤ w) }
    ensures { result ≡ ascending (map (key_of 9) (slices w n a.now)) }
{
    if n == 0 {
        return true;
    }
    let mut high = octets::read(a, 0, 1);
    let mut last = octets::read(a, 1, 8);
    for i in 1..n {
        let at = i * w;
        let y = octets::read(a, at, 1);
        let z = octets::read(a, at + 1, 8);
        if areas::slots::reaches(high, last, y, z) {
            return false;
        }
        high = y;
        last = z;
    }
    true
}

// Whether the keys of n records ascend, and the room after them is zero.
pub fn ordered(a: &[u8], w: usize, n: usize) -> bool
    requires { (n * w ≤ length a.now) × (9 ≤ w) }
    ensures { result ≡ (ascending (map (key_of 9) (slices w n a.now)) && all_zero (drop (n * w) a.now)) }
{
    let used = n * w;
    ascends(a, w, n) && octets::is_zero_long(a, used, a.len() - used)
}

// The area of n FQ-CSIDs, in one walk: each is tested, their node types ascend, and the room after them is zero.
pub fn csids_sound(a: &[u8], n: usize) -> bool
    requires { n * csid_width ≤ length a.now }
    ensures { result ≡ area_sound csid_sound csid_width 1 n a.now }
{
    let (rows, _) = a.as_chunks::<CSID>();
    let mut next: u64 = 0;
    for row in &rows[..n] {
        let node = octets::read(row, 0, 1);
        if node < next || !crate::csid_sound(row) {
            return false;
        }
        next = node + 1;
    }
    let used = n * CSID;
    octets::is_zero(a, used, a.len() - used)
}

// The peer, the SEID and the numbers of records.
pub fn head_sound(slot: &[u8; SLOT]) -> bool
    ensures { result ≡ head_sound slot.now }
{
    unit::is_peer(slot[0] as u32)
        && 1 <= octets::read(slot, format::SEID, 8)
        && slot[PDR_COUNT] as usize <= MAX_PDRS
        && slot[ENDPOINT_COUNT] as usize <= MAX_ENDPOINTS
        && slot[CSID_COUNT] as usize <= MAX_CSIDS
}
