// What a peer has at entry, from what the walk over the sessions told (02 (xiv)).
ghost use Rattle.std.specs.Prelude.{◌≡◌, ◌+◌, ◌-◌, ◌≤◌, T};
ghost use Rattle.rules.specs.Model.{is_peer};
ghost use Rattle.rules.specs.Layout.{view_settings, view_sessions};
ghost use Rattle.stages.specs.Rules.{ShareOf, room_by};
ghost use Rattle.engine.specs.Steps.{Tallied};

use stages::Share;
use unit::Settings;

// How many TEIDs a peer that holds so many may still take: to its limit, and to what the pool has beside what the other is due.
fn room(limit: u64, size: u64, own: u64, due: u64) -> u64
    requires { (own ≤ limit) × (own + due ≤ size) }
    ensures { result ≡ room_by limit size own due }
{
    let rest = size - (own + due);
    if rest < limit - own {
        return rest;
    }
    limit - own
}

// The peer's share, where the peers hold so many TEIDs and the first has so many of the sessions.
pub fn share(t: &[u8], u: Settings, peer: u32, one: usize, two: usize, first: usize) -> Share
    requires { T (is_peer peer) × Tallied u t.now one two first }
    ensures { (result.peer ≡ peer) × ShareOf (view_settings t.now) (view_sessions t.now) peer result.teids result.sessions }
{
    if peer == 1 {
        let due = table::due(two as u64, u.peer2.guarantee);
        let teids = room(u.peer1.limit, u.size, one as u64, due);
        return Share {
            peer: peer,
            teids: teids as usize,
            sessions: first,
        };
    }
    let due = table::due(one as u64, u.peer1.guarantee);
    let teids = room(u.peer2.limit, u.size, two as u64, due);
    let second = session::count(t, u.limit as usize, format::COUNT) - first;
    Share {
        peer: peer,
        teids: teids as usize,
        sessions: second,
    }
}
