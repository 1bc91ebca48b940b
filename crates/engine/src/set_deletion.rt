// Set deletions (02 (vii)): every check comes first, then the reply, then every session that the list covers goes.
ghost use Rattle.std.specs.Prelude.{◌≡◌};
ghost use Rattle.unit.specs.Meaning.{settings_of};
ghost use Rattle.changes.specs.Answers.{Answers, Replies, Refusing};
ghost use Rattle.engine.specs.Steps.{AskedList};
ghost use Rattle.rules.specs.Layout.{view_settings};

use changes::Replied;
use format::causes;
use unit::Settings;

// The reply of a set deletion that is refused; the table stays.
fn refuse_list(
    t: &[u8],
    u: Settings,
    peer: u32,
    msg: &[u8],
    cause: u64,
    offending: Option<u64>,
    out: &mut [u8],
) -> usize
    requires { AskedList t.now peer msg.now out.old × Refusing t.now peer msg.now out.old cause offending × (settings_of u ≡ view_settings t.now) }
    ensures { Answers t.now peer msg.now out.old result out.new t.now }
{
    reply::listed(u, peer, msg, cause as u8, offending, out)
}

// A peer's set deletion, and its reply.
pub fn delete_list(t: &mut [u8], u: Settings, peer: u32, msg: &[u8], out: &mut [u8]) -> Replied
    requires { AskedList t.old peer msg.now out.old × (settings_of u ≡ view_settings t.old) }
    ensures { Replies t.old peer msg.now out.old result.used result.place out.new t.new }
{
    if let Err(spot) = frame::frame_fault(msg) {
        let used = refuse_list(t, u, peer, msg, causes::WRONG_LENGTH, Some(spot.kind), out);
        return Replied {
            used,
            place: spot.place,
        };
    }
    if let Err(fault) = sets::list_fault(&msg[8..]) {
        let used = refuse_list(t, u, peer, msg, fault.cause, Some(fault.kind), out);
        return Replied {
            used,
            place: fault.place,
        };
    }
    let used = reply::listed(u, peer, msg, causes::ACCEPTED as u8, None, out);
    sets::remove_listed(t, peer, &msg[8..]);
    Replied {
        used: used,
        place: 0,
    }
}
