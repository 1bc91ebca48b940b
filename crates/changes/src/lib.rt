// A request's change: an establishment or a modification from its reading on: the session at entry, stages 4 to 6, then what an accepted one gives,
// replies and stores. A refusal never writes the table: every check comes first, then the session is built in a slot of its own and stored by one
// splice.
#![tactic(auto)]

ghost use Rattle.std.specs.Prelude.{◌≡◌, ◌*◌, ◌-◌, ◌≤◌, length};
ghost use Rattle.rules.specs.Layout.{view_settings, key_width, session_width, table_length};
ghost use Rattle.plan.specs.Rows.{row_width, rows_of};
ghost use Rattle.unit.specs.Meaning.{settings_of};
ghost use Rattle.areas.specs.Records.{key_of};
ghost use Rattle.areas.specs.Counted.{place_in, with_record};
ghost use Rattle.session.specs.Areas.{table_area};
ghost use Rattle.session.specs.Build.{built};
ghost use Rattle.request.specs.Requests.{most_rows, RoomFor};
ghost use Rattle.format.specs.declared.TheConstants.{PLAN};
ghost use Rattle.changes.specs.Answers.{Asked, Answers, Replies, Refusing, Accepting};
ghost use Rattle.changes.specs.Steps.{Counted, Giving, Given, Fetching, told_of, Fetched, Entered, Readable, Changing};

use format::{causes, kinds};
use request::Plan;
use stages::{Known, Told};
use unit::Settings;

// A reply: how many octets of the reply space hold it, and the place in the message of a fault of stages 2 and 3, else 0.
#[derive(Clone, Copy)]
pub struct Replied {
    pub used: usize,
    pub place: usize,
}

// The reply of a refusal; the table stays.
pub fn refuse(
    t: &[u8],
    k: Known,
    msg: &[u8],
    cause: u64,
    offending: Option<u64>,
    out: &mut [u8],
) -> usize
    requires { Asked t.now k.share.peer msg.now out.old × Refusing t.now k.share.peer msg.now out.old cause offending × (settings_of k.u ≡ view_settings t.now) }
    ensures { Answers t.now k.share.peer msg.now out.old result out.new t.now }
{
    let u = k.u;
    reply::refused(u, k.share.peer, msg, cause as u8, offending, out)
}

// The session of an accepted request: built in its slot, and the slot stored in its place of a table with so much room.
fn keep(t: &mut [u8], room: usize, q: Told, slot: &mut [u8], gone: &[u64], plan: &[u64])
    requires { (length t.old ≡ table_length room) × (length slot.old ≡ session_width) × (q.rows * row_width ≤ length plan.now) × (place_in (table_area room) (key_of key_width (built gone.now (rows_of q.rows plan.now) slot.old)) t.old ≡ q.place) }
    ensures { (slot.new ≡ built gone.now (rows_of q.rows plan.now) slot.old) × (t.new ≡ with_record (table_area room) (built gone.now (rows_of q.rows plan.now) slot.old) t.old) }
{
    session::build(slot, gone, plan::rows(plan, q.rows));
    session::save(t, room, format::COUNT, q.place, slot);
}

// Gives the TEIDs and the address that rows choose, by the maps of taken ones. `places` gets where the rows with something chosen begin,
// and the answer is how many there are.
fn give(
    plan: &mut [u64],
    n: usize,
    u: Settings,
    teids: &[u64],
    addresses: &[u64],
    places: &mut [usize],
) -> usize
    requires { Giving u teids.now addresses.now plan.old places.old n }
    ensures { Given u teids.now addresses.now plan.old n result plan.new places.new }
{
    grants::grant(plan, n, teids, u, places);
    grants::grant_address(plan, n, addresses, u);
    grants::reported(plan, n, places)
}

// An accepted establishment or modification: the TEIDs and the address, the reply, the session in its slot, and the slot in the table.
fn accept(
    t: &mut [u8],
    k: Known,
    words: &[u64],
    ips: &[u64],
    msg: &[u8],
    slot: &mut [u8],
    gone: &[u64],
    plan: &mut [u64],
    q: Told,
    out: &mut [u8],
) -> usize
    requires { Accepting k q t.old words.now ips.now msg.now slot.old gone.now plan.old out.old }
    ensures { Answers t.old k.share.peer msg.now out.old result out.new t.new }
{
    let u = k.u;
    let mut places = [0usize; format::GRANTS];
    let n = give(plan, q.rows, u, words, ips, &mut places);
    let used = reply::accepted(u, k.share.peer, msg, q.seid, plan, &places[..n], out);
    keep(t, u.limit as usize, q, slot, gone, plan);
    used
}

// What reading told of a request, with its session's place.
fn tell(read: Plan, place: Result<usize, usize>) -> Told
    ensures { result ≡ told_of read place }
{
    Told {
        seid: read.seid,
        place,
        rows: read.rows,
        restoring: read.restoring,
        noted: read.noted,
    }
}

// Puts the session at entry into its slot: a new one for an establishment, else the one at the place p. The answer has where it stands in the
// table, or has its place.
fn enter(t: &[u8], k: Known, read: Plan, p: usize, slot: &mut [u8]) -> Told
    requires { Fetching t.now slot.old k.u.limit k.kind read.seid p }
    ensures { Fetched t.now k.u.limit k.kind k.share.peer p read result slot.new }
{
    let room = k.u.limit as usize;
    if k.kind == kinds::ESTABLISHMENT {
        let peer = k.share.peer as u64;
        session::fresh(slot, peer, read.seid);
        let place = session::find(t, room, format::COUNT, peer, read.seid);
        return tell(read, place);
    }
    session::load(t, room, format::COUNT, p, slot);
    tell(read, Ok(p))
}

// Stages 4 to 6 of a request that was read, and what follows. The PDRs that go are named once, for the stages and for the new session.
fn settle(
    t: &mut [u8],
    k: Known,
    words: &[u64],
    ips: &[u64],
    msg: &[u8],
    slot: &mut [u8],
    plan: &mut [u64],
    q: Told,
    out: &mut [u8],
) -> usize
    requires { Readable k q t.old msg.now out.old plan.old × Counted k t.old words.now ips.now × Entered k q t.old msg.now slot.old }
    ensures { Answers t.old k.share.peer msg.now out.old result out.new t.new }
{
    let mut gone = [0u64; format::MAX_PDRS];
    let n = stages::session::removed(slot, plan, q.rows, &mut gone);
    let cause = stages::judge(t, k, words, ips, slot, &gone[..n], plan, q);
    if cause != causes::ACCEPTED {
        return refuse(t, k, msg, cause, None, out);
    }
    accept(t, k, words, ips, msg, slot, &gone[..n], plan, q, out)
}

// An establishment, or the modification of the session at the place p, with room for its plan.
fn change_with(
    t: &mut [u8],
    k: Known,
    words: &[u64],
    ips: &[u64],
    msg: &[u8],
    p: usize,
    plan: &mut [u64],
    out: &mut [u8],
) -> Replied
    requires { Changing k t.old msg.now out.old p × Counted k t.old words.now ips.now × RoomFor (length msg.now - 16) plan.old }
    ensures { Replies t.old k.share.peer msg.now out.old result.used result.place out.new t.new }
{
    match request::read_request(msg, plan) {
        Err(fault) => {
            let used = refuse(t, k, msg, fault.cause, Some(fault.kind), out);
            Replied {
                used,
                place: fault.place,
            }
        }
        Ok(read) => {
            let mut slot = [0u8; format::SLOT];
            let told = enter(t, k, read, p, &mut slot);
            let used = settle(t, k, words, ips, msg, &mut slot, plan, told, out);
            Replied { used, place: 0 }
        }
    }
}

// The same with a plan of so many words, which has a frame of its own.
fn change_in<const WORDS: usize>(
    t: &mut [u8],
    k: Known,
    words: &[u64],
    ips: &[u64],
    msg: &[u8],
    p: usize,
    out: &mut [u8],
) -> Replied
    requires { Changing k t.old msg.now out.old p × Counted k t.old words.now ips.now × (row_width * most_rows (length msg.now - 16) ≤ WORDS) × (WORDS ≤ PLAN) }
    ensures { Replies t.old k.share.peer msg.now out.old result.used result.place out.new t.new }
{
    let mut plan = [0u64; WORDS];
    change_with(t, k, words, ips, msg, p, &mut plan, out)
}

// The same, with a plan by the message's length: a short one is soon cleared.
pub fn change(
    t: &mut [u8],
    k: Known,
    words: &[u64],
    ips: &[u64],
    msg: &[u8],
    p: usize,
    out: &mut [u8],
) -> Replied
    requires { Changing k t.old msg.now out.old p × Counted k t.old words.now ips.now }
    ensures { Replies t.old k.share.peer msg.now out.old result.used result.place out.new t.new }
{
    if msg.len() <= format::SHORT {
        return change_in::<{ format::SHORT_PLAN }>(t, k, words, ips, msg, p, out);
    }
    if msg.len() <= format::MIDDLE {
        return change_in::<{ format::MIDDLE_PLAN }>(t, k, words, ips, msg, p, out);
    }
    change_in::<{ format::PLAN }>(t, k, words, ips, msg, p, out)
}
