// Areas of records of one width in lent octets, in ascending order of a key: find, insert, remove, replace.
//
// An area starts at the slice's first octet and holds n records of w octets; a record's key is the number of its first k
// octets. The contracts hold for any octets; proofs/AreaLaws.antt says what they make of an area whose unused room is zero.
ghost use Rattle.std.specs.Prelude.{◌≡◌, map, ◌+◌, ◌*◌, ◌≤◌, ◌<◌, length, leb, eqb};
ghost use Rattle.octets.specs.Octets.{slices};
ghost use Rattle.areas.specs.Records.{key_of, pair_key, lookup, inserted, removed, replaced};

// Looks for the key x among the n records: the first record whose key is not below x.
pub fn find(s: &[u8], w: usize, k: usize, n: usize, x: u64) -> Result<usize, usize>
    requires { (n * w ≤ length s.now) × (k ≤ w) × (k ≤ 8) }
    ensures { result ≡ lookup x (map (key_of k) (slices w n s.now)) }
{
    // Stays: chunks_exact asks a width above 0, which no clause here asks.
    for i in 0..n {
        let y = octets::read(s, i * w, k);
        if x <= y {
            if y == x {
                return Ok(i);
            }
            return Err(i);
        }
    }
    Err(n)
}

// Whether a key of nine octets, in two numbers, is not below another.
pub fn reaches(y: u64, z: u64, hi: u64, lo: u64) -> bool
    ensures { result ≡ leb (pair_key hi lo) (pair_key y z) }
{
    if y < hi {
        return false;
    }
    if hi < y {
        return true;
    }
    lo <= z
}

// Whether two such keys are equal.
fn is_pair(y: u64, z: u64, hi: u64, lo: u64) -> bool
    ensures { result ≡ eqb (pair_key y z) (pair_key hi lo) }
{
    if y < hi {
        return false;
    }
    if hi < y {
        return false;
    }
    z == lo
}

// Looks for a key of nine octets, the first octet and the other eight as a number, among the n records.
pub fn find_pair(s: &[u8], w: usize, n: usize, hi: u64, lo: u64) -> Result<usize, usize>
    requires { (n * w ≤ length s.now) × (9 ≤ w) }
    ensures { result ≡ lookup (pair_key hi lo) (map (key_of 9) (slices w n s.now)) }
{
    for i in 0..n {
        let at = i * w;
        let y = octets::read(s, at, 1);
        let z = octets::read(s, at + 1, 8);
        if reaches(y, z, hi, lo) {
            if is_pair(y, z, hi, lo) {
                return Ok(i);
            }
            return Err(i);
        }
    }
    Err(n)
}

// Puts the record r in at place p, after moving the records from there on up by one place.
pub fn insert(s: &mut [u8], n: usize, p: usize, r: &[u8])
    requires { (p ≤ n) × ((n + 1) * length r.now ≤ length s.old) }
    ensures { s.new ≡ inserted n p r.now s.old }
{
    let w = r.len();
    let at = p * w;
    octets::move_up(s, at, (n - p) * w, w);
    octets::copy(s, at, r);
}

// Takes the record at place p out: the records after it move down by one place, and the last one's room becomes zero.
pub fn remove(s: &mut [u8], w: usize, n: usize, p: usize)
    requires { (p < n) × (n * w ≤ length s.old) }
    ensures { s.new ≡ removed w n p s.old }
{
    let at = p * w;
    let rest = (n - (p + 1)) * w;
    octets::move_down(s, at, rest, w);
    octets::clear(s, at + rest, w);
}

// Writes r over the record at place p.
pub fn replace(s: &mut [u8], p: usize, r: &[u8])
    requires { (p + 1) * length r.now ≤ length s.old }
    ensures { s.new ≡ replaced p r.now s.old }
{
    octets::copy(s, p * r.len(), r);
}
