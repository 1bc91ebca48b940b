// One call: the outcomes in their order, then what the header asks for: an establishment or a modification (crate `changes`), a deletion, or a set
// deletion. A refusal never writes the table: every check comes first.
#![tactic(auto)]

ghost use Rattle.std.specs.Prelude.{◌≡◌, T};
ghost use Rattle.rules.specs.Message.{kind_of, header_seid, deletion};
ghost use Rattle.unit.specs.Meaning.{settings_of};
ghost use Rattle.changes.specs.Answers.{Asked, Live, Replies};
ghost use Rattle.changes.specs.Steps.{Counted};
ghost use Rattle.engine.specs.Steps.{Serves};
ghost use Rattle.engine.specs.Outcomes.{outcome_of, used_of, place_of};
ghost use Rattle.rules.specs.Layout.{view_settings};
ghost use Rattle.rules.specs.Model.{is_peer, key_for};
ghost use Rattle.areas.specs.Counted.{place_in};
ghost use Rattle.session.specs.Areas.{table_area};

use changes::Replied;
use format::{causes, kinds};
use frame::header::Header;
use outcome::Outcome;
use pool::Taken;
use stages::Known;

pub mod outcome;
mod set_deletion;
mod shares;

// A deletion of the live session at the place p.
fn delete(t: &mut [u8], k: Known, msg: &[u8], p: usize, out: &mut [u8]) -> Replied
    requires { Asked t.old k.share.peer msg.now out.old × Live t.old k.share.peer msg.now × (kind_of msg.now ≡ deletion) × (place_in (table_area (view_settings t.old).limit) (key_for k.share.peer (header_seid msg.now)) t.old ≡ Ok p) × (settings_of k.u ≡ view_settings t.old) }
    ensures { Replies t.old k.share.peer msg.now out.old result.used result.place out.new t.new }
{
    if let Err(spot) = frame::frame_fault(msg) {
        let used = changes::refuse(t, k, msg, causes::WRONG_LENGTH, Some(spot.kind), out);
        return Replied {
            used,
            place: spot.place,
        };
    }
    let u = k.u;
    let plan = [0u64; 1];
    let places = [0usize; 1];
    let used = reply::accepted(u, k.share.peer, msg, 0, &plan[0..0], &places[0..0], out);
    session::remove(t, u.limit as usize, format::COUNT, p);
    Replied { used, place: 0 }
}

// A request whose header is allowed. The maps come by value and are lent on; a deletion reads neither, so it copies neither.
fn answer(
    t: &mut [u8],
    k: Known,
    taken: Taken<{ pool::WORDS }>,
    addresses: Taken<{ pool::ADDRESS_WORDS }>,
    msg: &[u8],
    out: &mut [u8],
) -> Replied
    requires { Asked t.old k.share.peer msg.now out.old × Counted k t.old taken.words addresses.words × (k.kind ≡ kind_of msg.now) × (k.seid ≡ header_seid msg.now) }
    ensures { Replies t.old k.share.peer msg.now out.old result.used result.place out.new t.new }
{
    if k.kind == kinds::ESTABLISHMENT {
        return changes::change(t, k, &taken.words, &addresses.words, msg, 0, out);
    }
    let room = k.u.limit as usize;
    match session::find(t, room, format::COUNT, k.share.peer as u64, k.seid) {
        Err(_) => {
            let used = changes::refuse(t, k, msg, causes::NO_SESSION, None, out);
            Replied { used, place: 0 }
        }
        Ok(p) => {
            if k.kind == kinds::DELETION {
                return delete(t, k, msg, p, out);
            }
            changes::change(t, k, &taken.words, &addresses.words, msg, p, out)
        }
    }
}

// A peer's request on any octets: the table, the message and the reply space.
fn serve_of(t: &mut [u8], peer: u32, msg: &[u8], out: &mut [u8]) -> Result<Replied, Outcome>
    requires { T (is_peer peer) }
    ensures { Serves t.old peer msg.now out.old (outcome_of result) (used_of result) (place_of result) out.new t.new }
{
    let mut words = [0u64; pool::WORDS];
    let mut ips = [0u64; pool::ADDRESS_WORDS];
    let held = table::examine(t, &mut words, &mut ips)?;
    if out.len() < format::SPACE {
        return Err(Outcome::LittleSpace);
    }
    let u = unit::read(t);
    let header = frame::header::read_header(msg)?;
    let Header::Request(kind, seid) = header else {
        return Ok(set_deletion::delete_list(t, u, peer, msg, out));
    };
    let share = shares::share(t, u, peer, held.one, held.two, held.first);
    let known = Known {
        u,
        share,
        addresses: u.addresses as usize - held.taken,
        kind,
        seid,
    };
    let taken = Taken { words };
    let addresses = Taken { words: ips };
    Ok(answer(t, known, taken, addresses, msg, out))
}

// One request on any octets, under any number as its peer's: outcome 7 for a number that is no peer's, before the table is looked at (02 (xiv)).
pub fn serve(t: &mut [u8], peer: u32, msg: &[u8], out: &mut [u8]) -> Result<Replied, Outcome>
    ensures { Serves t.old peer msg.now out.old (outcome_of result) (used_of result) (place_of result) out.new t.new }
{
    if !unit::is_peer(peer) {
        return Err(Outcome::NoPeer);
    }
    serve_of(t, peer, msg, out)
}
