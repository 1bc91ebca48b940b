// Grants: the TEIDs that a request's CHOOSEs get (01, "What a request does"), to endpoints in request order and then to PDRs, and the one
// address that they share (02 (v)). A TEID or address goes into its row of the plan, where crate `created` reads it for the list of grants.
#![tactic(auto)]

ghost use Rattle.std.specs.Prelude.{◌≡◌, ◌++◌, ◌+◌, ◌*◌, ◌^◌, ◌≤◌, ◌<◌, T, length, take, get_or, set};
ghost use Rattle.std.proofs.lemmas.List.Edits.{sets};
ghost use Rattle.octets.specs.Choice.{value_or};
ghost use Rattle.rules.specs.Limits.{max_pool, max_addresses};
ghost use Rattle.plan.specs.Rows.{row_width};
ghost use Rattle.created.specs.Entries.{max_grants, within};
ghost use Rattle.grants.specs.Choosing.{chosen_by, places_by, choose_id_in, teids_at, stores, Granted, report_places, chooses_address, addressed, lowest_address};
ghost use Rattle.grants.specs.Steps.{Gives};

use format::{Row, types, words};
use unit::Settings;

// A CHOOSE ID is one octet.
const IDS: usize = 256;

// A TEID, and the offset from which the next search for a free one starts.
#[derive(Clone, Copy)]
struct Given {
    teid: u64,
    next: usize,
}

// Is it a row of this type that chooses an F-TEID, or anything, an F-TEID or an address?
#[tactic(auto, unfolding(crate::specs::Choosing::chosen_by, octets::specs::Rows::has_tag, octets::specs::Octets::bit))]
fn chooses(row: &Row, tag: u64, anything: bool) -> bool
    ensures { result ≡ chosen_by anything tag row.now }
{
    row[words::TAG] == tag
        && (row[words::FLAGS] / 4 % 2 == 1 || anything && row[words::UE_KIND] == words::UE_CHOOSE)
}

// Writes to `places`, from the k-th on and as far as there is room, where the rows begin that choose; the answer is how many places there are then.
// Stays: (d) lending `&mut places[k..]` in place of k is no plainer: both callers would add k to each second answer.
fn find_places(rows: &[Row], tag: u64, anything: bool, places: &mut [usize], k: usize) -> usize
    requires { k ≤ length places.old }
    ensures { (result ≤ length places.old) × (take result places.new ≡ take (length places.old) (take k places.old ++ places_by (chosen_by anything tag) 0 rows.now)) }
{
    let mut found = k;
    for (i, row) in rows.iter().enumerate() {
        if chooses(row, tag, anything) {
            if found == places.len() {
                return found;
            }
            places[found] = i * format::ROW;
            found += 1;
        }
    }
    found
}

// The CHOOSE ID of a row, or one past the last ID where it has none.
#[tactic(auto, unfolding(crate::specs::Choosing::choose_id_in, octets::specs::Octets::bit))]
fn choose_id(row: &Row) -> usize
    ensures { result ≡ value_or 256 (choose_id_in row.now) }
{
    if row[words::FLAGS] / 8 % 2 == 1 && row[words::CHOOSE_ID] < 256 {
        row[words::CHOOSE_ID] as usize
    } else {
        IDS
    }
}

// The word at a place, 0 past the end.
fn word_at(words: &[u64], i: usize) -> u64
    ensures { result ≡ get_or words.now i 0 }
{
    words.get(i).copied().unwrap_or(0)
}

// Stores a word at a place, nothing past the end.
// Stays: (c) by get_mut the goal returns-in_default does not close: what the slice holds is not known where there is no such word.
fn set_word(words: &mut [u64], i: usize, v: u64)
    ensures { words.new ≡ set words.old i v }
{
    if i < words.len() {
        words[i] = v;
    }
}

// The TEID for a CHOOSE with this ID: the one that the ID has, else the next free one, which the ID then has; 0 if none is free.
// Word i of `known` is one more than the TEID that CHOOSE ID i has, 0 if it has none.
// Stays: (d) an Option as ID and in each word is no plainer: both would be tested at each read and write, where a word past the end reads 0 now.
fn teid_for(known: &mut [u64], id: usize, words: &[u64], u: Settings, from: usize) -> Given
    requires { (u.size ≤ 64 * length words.now) × (u.size ≤ max_pool) × (u.first < 2 ^ 32) }
    ensures { Gives u.first words.now from u.size known.old id result known.new }
{
    let has = word_at(known, id);
    if has != 0 {
        return Given {
            teid: has - 1,
            next: from,
        };
    }
    let Some(i) = pool::next_free(words, from, u.size as usize) else {
        set_word(known, id, 1);
        return Given {
            teid: 0,
            next: from,
        };
    };
    let teid = u.first + i as u64;
    set_word(known, id, teid + 1);
    Given { teid, next: i + 1 }
}

// The TEIDs of the plan's rows at these places, one for each.
fn fill(plan: &[u64], places: &[usize], words: &[u64], u: Settings, teids: &mut [u64])
    requires { T (within plan.now places.now) × (u.size ≤ 64 * length words.now) × (u.size ≤ max_pool) × (u.first < 2 ^ 32) × (length places.now ≤ length teids.old) }
    ensures { teids.new ≡ sets teids.old 0 (teids_at u.first words.now u.size plan.now places.now) }
{
    let mut known = [0u64; IDS];
    let mut from: usize = 0;
    for (i, place) in places.iter().enumerate() {
        let id = choose_id(plan::row_at(plan, *place));
        let given = teid_for(&mut known, id, words, u, from);
        teids[i] = given.teid;
        from = given.next;
    }
}

// Writes TEIDs into the TEID words of the plan's rows at these places, one for each.
fn store(plan: &mut [u64], places: &[usize], teids: &[u64])
    requires { T (within plan.old places.now) × (length places.now ≤ length teids.now) }
    ensures { plan.new ≡ stores plan.old places.now teids.now }
{
    for (place, teid) in places.iter().zip(teids) {
        plan[*place + words::TEID] = *teid;
    }
}

// Grants a TEID to each row that chooses, at most 24, and writes it into the row. `places` gets where those rows begin, in the order
// in which the TEIDs are given; the answer is how many there are. `words` is the map of taken TEIDs.
// Stays: (a) the library allocates nothing: the caller lends the places, and clause Granted speaks of them and of their count.
pub fn grant(plan: &mut [u64], n: usize, words: &[u64], u: Settings, places: &mut [usize]) -> usize
    requires { (n * row_width ≤ length plan.old) × (u.size ≤ 64 * length words.now) × (u.size ≤ max_pool) × (u.first < 2 ^ 32) × (length places.old ≡ max_grants) }
    ensures { Granted n u.first words.now u.size plan.old result plan.new places.new }
{
    let mut teids = [0u64; format::GRANTS];
    let rows = plan::rows(plan, n);
    let k = find_places(rows, types::CREATE_ENDPOINT, false, places, 0);
    let m = find_places(rows, types::CREATE_PDR, false, places, k);
    fill(plan, &places[..m], words, u, &mut teids);
    store(plan, &places[..m], &teids);
    m
}

// Writes to `places` where the rows begin with something chosen, at most 24, endpoints' and then PDRs': those that the reply reports. The
// answer is how many there are.
pub fn reported(plan: &[u64], n: usize, places: &mut [usize]) -> usize
    requires { (n * row_width ≤ length plan.now) × (length places.old ≡ max_grants) }
    ensures { (result ≤ max_grants) × (take result places.new ≡ report_places n plan.now) }
{
    let rows = plan::rows(plan, n);
    let k = find_places(rows, types::CREATE_ENDPOINT, true, places, 0);
    find_places(rows, types::CREATE_PDR, true, places, k)
}

// Does the row create a record with a CHOOSE of an address?
#[tactic(auto, unfolding(crate::specs::Choosing::chooses_address, octets::specs::Rows::has_tag))]
fn chooses_address(row: &Row) -> bool
    ensures { result ≡ chooses_address row.now }
{
    row[words::UE_KIND] == words::UE_CHOOSE
        && (row[words::TAG] == types::CREATE_ENDPOINT || row[words::TAG] == types::CREATE_PDR)
}

// Writes an address into every one of the n rows that chooses one.
fn store_address(plan: &mut [u64], n: usize, address: u64)
    requires { n * row_width ≤ length plan.old }
    ensures { plan.new ≡ addressed address n plan.old }
{
    for i in 0..n {
        let at = i * format::ROW;
        if chooses_address(plan::row_at(plan, at)) {
            plan[at + words::UE_ADDRESS] = address;
        }
    }
}

// Grants the lowest free address to every row that chooses one, by the map of taken addresses, and writes it into the row.
pub fn grant_address(plan: &mut [u64], n: usize, words: &[u64], u: Settings)
    requires { (n * row_width ≤ length plan.old) × (u.addresses ≤ 64 * length words.now) × (u.addresses ≤ max_addresses) × (u.first_address < 2 ^ 32) }
    ensures { plan.new ≡ addressed (lowest_address u.first_address words.now u.addresses) n plan.old }
{
    let address = match pool::next_free(words, 0, u.addresses as usize) {
        Some(i) => u.first_address + i as u64,
        None => 0,
    };
    store_address(plan, n, address);
}
