// Areas of records inside octets that also hold the area's count, somewhere before it: the records of a session slot, and the
// sessions of a table. A record is put in or taken out by its key, and the count follows.
#![tactic(auto)]

ghost use Rattle.std.specs.Prelude.{◌≡◌, ◌≤◌, ◌<◌, length};
ghost use Rattle.areas.specs.Records.{key_of, pair_key};
ghost use Rattle.areas.specs.Counted.{Fits, count_in, place_in, inserted_in, removed_in, replaced_in, cleared_in, with_record, without_record};

pub mod slots;

// Where an area stands: its count, of count_width octets at count_at; its records, room for `room` of them of `width` octets
// each from `at` on; a record's key is the number of its first `key` octets.
#[derive(Clone, Copy)]
pub struct Area {
    pub count_at: usize,
    pub count_width: usize,
    pub at: usize,
    pub room: usize,
    pub width: usize,
    pub key: usize,
}

// How many records there are.
pub fn count(s: &[u8], a: Area) -> usize
    requires { Fits a (length s.now) }
    ensures { result ≡ count_in a s.now }
{
    octets::read(s, a.count_at, a.count_width) as usize
}

// Where the record of a key stands, Ok, or has its place, Err. An area that counts more records than it has room for has none.
pub fn find(s: &[u8], a: Area, x: u64) -> Result<usize, usize>
    requires { Fits a (length s.now) × (a.key ≤ 8) }
    ensures { result ≡ place_in a x s.now }
{
    let n = count(s, a);
    if a.room < n {
        return Err(0);
    }
    let at = a.at;
    let end = at + a.room * a.width;
    slots::find(&s[at..end], a.width, a.key, n, x)
}

// The same for a key of nine octets, in two numbers.
// Stays: one search by a key of 128 bits takes 4,038 instructions to find one of 256 sessions where this takes 1,756.
pub fn find_pair(s: &[u8], a: Area, hi: u64, lo: u64) -> Result<usize, usize>
    requires { Fits a (length s.now) × (a.key ≡ 9) }
    ensures { result ≡ place_in a (pair_key hi lo) s.now }
{
    let n = count(s, a);
    if a.room < n {
        return Err(0);
    }
    let at = a.at;
    let end = at + a.room * a.width;
    slots::find_pair(&s[at..end], a.width, n, hi, lo)
}

// Puts the record r in at place p.
pub fn insert(s: &mut [u8], a: Area, p: usize, r: &[u8])
    requires { Fits a (length s.old) × (p ≤ count_in a s.old) × (count_in a s.old < a.room) × (length r.now ≡ a.width) }
    ensures { s.new ≡ inserted_in a p r.now s.old }
{
    let n = count(s, a);
    let at = a.at;
    let end = at + a.room * a.width;
    slots::insert(&mut s[at..end], n, p, r);
    octets::write(s, a.count_at, a.count_width, (n + 1) as u64);
}

// Takes the record at place p out.
pub fn remove(s: &mut [u8], a: Area, p: usize)
    requires { Fits a (length s.old) × (p < count_in a s.old) × (count_in a s.old ≤ a.room) }
    ensures { s.new ≡ removed_in a p s.old }
{
    let n = count(s, a);
    let at = a.at;
    let end = at + a.room * a.width;
    slots::remove(&mut s[at..end], a.width, n, p);
    octets::write(s, a.count_at, a.count_width, (n - 1) as u64);
}

// Writes r over the record at place p.
pub fn replace(s: &mut [u8], a: Area, p: usize, r: &[u8])
    requires { Fits a (length s.old) × (p < a.room) × (length r.now ≡ a.width) }
    ensures { s.new ≡ replaced_in a p r.now s.old }
{
    let at = a.at;
    let end = at + a.room * a.width;
    slots::replace(&mut s[at..end], p, r);
}

// Takes every record out.
pub fn clear(s: &mut [u8], a: Area)
    requires { Fits a (length s.old) }
    ensures { s.new ≡ cleared_in a s.old }
{
    octets::clear(s, a.at, a.room * a.width);
    octets::write(s, a.count_at, a.count_width, 0);
}

// Puts r where its key was looked up: over the record that is there, or in where there is room. It is written out at each call: where the
// area is known, a record takes a third of the instructions.
#[inline(always)]
pub fn put_at(s: &mut [u8], a: Area, place: Result<usize, usize>, r: &[u8])
    requires { Fits a (length s.old) × (length r.now ≡ a.width) × (place_in a (key_of a.key r.now) s.old ≡ place) }
    ensures { s.new ≡ with_record a r.now s.old }
{
    match place {
        Ok(p) => replace(s, a, p, r),
        Err(p) => {
            if count(s, a) < a.room {
                insert(s, a, p, r);
            }
        }
    }
}

// Makes r the record of its key: over the one that is there, or put in where there is room.
#[inline(always)]
pub fn put_record(s: &mut [u8], a: Area, r: &[u8])
    requires { Fits a (length s.old) × (length r.now ≡ a.width) × (a.key ≤ 8) }
    ensures { s.new ≡ with_record a r.now s.old }
{
    let x = octets::read(r, 0, a.key);
    let place = find(s, a, x);
    put_at(s, a, place, r);
}

// Takes the record of a key out, if there is one. It is written out at each call too: a request that removes every record takes a fifth less.
#[inline(always)]
pub fn drop_record(s: &mut [u8], a: Area, x: u64)
    requires { Fits a (length s.old) × (a.key ≤ 8) }
    ensures { s.new ≡ without_record a x s.old }
{
    let place = find(s, a, x);
    if let Ok(p) = place {
        remove(s, a, p);
    }
}
