// The store of repeated requests (02 (xi)): the last eight requests that were replied to, with their replies, the oldest first.
//
// A store is the number of entries (1 octet), the entries one after the other, and zeros. An entry is its message's length (2 octets), the
// message, its reply's length (2) and the reply; docs/ has the layout.
#![tactic(auto)]

ghost use Rattle.std.specs.Prelude.{◌≡◌, ◌+◌, ◌-◌, ◌<◌, ◌≤◌, T, false, [], ◌∷◌, ◌++◌, length, MatchOption, is_ok, leb};
ghost use Rattle.std.proofs.Math.Option.{none, some};
ghost use Rattle.octets.specs.Octets.{put, same_octets};
ghost use Rattle.octets.specs.Choice.{rest};
ghost use Rattle.rules.specs.Store.{entry, entry_octets, store_length, store_octets, store_entries, request_allowed, store_sound, stored_reply, remember, max_entries, empty};
ghost use Rattle.rules.specs.Repeats.{takes};
ghost use Rattle.store.specs.Answers.{Recalls, Keepable};
ghost use Rattle.store.specs.Fronts.{whole_front, Front, span_of, reply_among, sound_from};

mod number;

// How many entries there are at most, the longest reply that is kept, and the octets of a store.
pub const ENTRIES: usize = 8;

pub const REPLY: usize = format::SPACE;

pub const LENGTH: usize = 1 + ENTRIES * (2 + format::MESSAGE + 2 + REPLY);

// An entry at the front of some octets: where its message, which starts at octet 2, ends, and where the entry ends.
#[derive(Clone, Copy, Debug, PartialEq, Eq)]
struct Entry {
    message_end: usize,
    end: usize,
}

// A store of another length than LENGTH.
#[derive(Clone, Copy, Debug, PartialEq, Eq)]
pub struct WrongLength;

// Whether a message would get none of outcomes 3 to 5.
pub fn is_request(msg: &[u8]) -> bool
    ensures { result ≡ request_allowed msg.now }
{
    frame::header::read_header(msg).is_ok()
}

// The entry at the front of s, if one stands there whole and is allowed.
fn front(s: &[u8]) -> Option<Entry>
    ensures { MatchOption result (whole_front s.now ≡ false) (λ entry. Front s.now entry) }
{
    if s.len() < 4 {
        return None;
    }
    let message_end = 2 + octets::read(s, 0, 2) as usize;
    if s.len() - 2 < message_end || !is_request(&s[2..message_end]) {
        return None;
    }
    let n = octets::read(s, message_end, 2) as usize;
    if n == 0 || REPLY < n || s.len() - 2 - message_end < n {
        return None;
    }
    Some(Entry {
        message_end,
        end: message_end + 2 + n,
    })
}

// How many octets the n entries at the front of s take.
fn span(s: &[u8], n: usize) -> usize
    ensures { (result ≡ span_of n s.now) × (result ≤ length s.now) }
{
    let mut rest = s;
    for i in 0..n {
        let Some(entry) = front(rest) else {
            break;
        };
        rest = &rest[entry.end..];
    }
    s.len() - rest.len()
}

// The reply that a message got, among the n entries at the front of s.
fn find<'a>(s: &'a [u8], n: usize, msg: &[u8]) -> Option<&'a [u8]>
    ensures { MatchOption result (reply_among n s.now msg.now ≡ none) (λ reply. reply_among n s.now msg.now ≡ some reply.now) }
{
    let mut rest = s;
    for i in 0..n {
        let entry = front(rest)?;
        if msg == &rest[2..entry.message_end] {
            return Some(&rest[entry.message_end + 2..entry.end]);
        }
        rest = &rest[entry.end..];
    }
    None
}

// Whether n entries stand at the front of s, each allowed, no two with equal messages, and zeros behind them.
fn sound_from(s: &[u8], n: usize) -> bool
    ensures { result ≡ sound_from n s.now }
{
    let mut rest = s;
    for i in 0..n {
        let Some(entry) = front(rest) else {
            return false;
        };
        let later = &rest[entry.end..];
        if find(later, n - (i + 1), &rest[2..entry.message_end]).is_some() {
            return false;
        }
        rest = later;
    }
    octets::is_zero_long(rest, 0, rest.len())
}

// Whether a store may count so many entries.
fn is_count(n: u8) -> bool
    ensures { result ≡ leb n max_entries }
{
    n as usize <= ENTRIES
}

// Whether the store is not broken.
pub fn is_sound(s: &[u8]) -> bool
    ensures { result ≡ store_sound s.now }
{
    s.len() == LENGTH && is_count(s[0]) && sound_from(&s[1..], s[0] as usize)
}

// The reply that a message got: octets of the store.
pub fn recall<'a>(s: &'a [u8], msg: &[u8]) -> Option<&'a [u8]>
    requires { T (store_sound s.now) }
    ensures { MatchOption result (stored_reply msg.now (store_entries s.now) ≡ none) (λ reply. Recalls s.now msg.now reply.now) }
{
    find(&s[1..], s[0] as usize, msg)
}

// Whether a request's number is newer than that of the request stored last; an empty store takes any.
pub fn takes(s: &[u8], msg: &[u8]) -> bool
    requires { T (store_sound s.now) × T (request_allowed msg.now) }
    ensures { result ≡ takes (store_entries s.now) msg.now }
{
    let n = s[0] as usize;
    if n == 0 {
        return true;
    }
    let last = 3 + span(&s[1..], n - 1);
    let newest = number::number_of(&s[last..]);
    number::is_newer(number::number_of(msg), newest)
}

// Writes an entry at index at.
fn write_entry(s: &mut [u8], at: usize, msg: &[u8], reply: &[u8])
    requires { at + length (entry_octets (entry msg.now reply.now)) ≤ length s.old }
    ensures { s.new ≡ put at (entry_octets (entry msg.now reply.now)) s.old }
{
    octets::write(s, at, 2, msg.len() as u64);
    octets::copy(s, at + 2, msg);
    let end = at + 2 + msg.len();
    octets::write(s, end, 2, reply.len() as u64);
    octets::copy(s, end + 2, reply);
}

// Puts an entry behind the others.
fn add(s: &mut [u8], msg: &[u8], reply: &[u8])
    requires { Keepable s.old msg.now reply.now × (length (store_entries s.old) < max_entries) }
    ensures { s.new ≡ store_octets (store_entries s.old ++ (entry msg.now reply.now ∷ [])) }
{
    let n = s[0];
    let used = span(&s[1..], n as usize);
    write_entry(s, 1 + used, msg, reply);
    s[0] = n + 1;
}

// Takes the oldest entry out.
fn forget(s: &mut [u8])
    requires { T (store_sound s.old) × (0 < length (store_entries s.old)) }
    ensures { s.new ≡ store_octets (rest (store_entries s.old)) }
{
    let n = s[0];
    let used = span(&s[1..], n as usize);
    let gone = span(&s[1..], 1);
    octets::move_down(s, 1, used - gone, gone);
    octets::clear(s, 1 + (used - gone), gone);
    s[0] = n - 1;
}

// Keeps a request with its reply, for which the oldest of eight goes.
pub fn push(s: &mut [u8], msg: &[u8], reply: &[u8])
    requires { Keepable s.old msg.now reply.now }
    ensures { s.new ≡ store_octets (remember (entry msg.now reply.now) (store_entries s.old)) }
{
    if ENTRIES <= s[0] as usize {
        forget(s);
    }
    add(s, msg, reply);
}

// Empties a store; nothing is written where its length is wrong.
pub fn clear(s: &mut [u8]) -> Result<(), WrongLength>
    ensures { record { done = is_ok result; store = s.new } ≡ empty s.old }
{
    if s.len() != LENGTH {
        return Err(WrongLength);
    }
    octets::clear(s, 0, LENGTH);
    Ok(())
}
