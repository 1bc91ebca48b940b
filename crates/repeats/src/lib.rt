// A request of which a repeat gets the old reply (02 (xi)): the store stands before the engine, which stays as it is. The table is tested once
// on every way: by the engine, or here where the engine is not asked.
#![tactic(auto)]

ghost use Rattle.std.specs.Prelude.{◌≡◌, ◌≤◌, T, length};
ghost use Rattle.rules.specs.Model.{is_peer};
ghost use Rattle.rules.specs.Store.{store_sound, max_reply};
ghost use Rattle.rules.specs.Repeats.{request_once};
ghost use Rattle.repeats.specs.Steps.{resting_told, resting_outcome, resting, repeated, dropped, once, renewed};

use changes::Replied;
use engine::outcome::Outcome;

// Outcomes 1 and 2 of a request whose header is allowed, where one of them stands.
fn resting_outcome(t: &[u8], out: &[u8]) -> Result<(), Outcome>
    ensures { resting_told result ≡ resting_outcome t.now out.now }
{
    if !table::is_sound(t) {
        Err(Outcome::Broken)
    } else if out.len() < format::SPACE {
        Err(Outcome::LittleSpace)
    } else {
        Ok(())
    }
}

// A repeat: the reply that stands in the store.
fn repeat(t: &[u8], reply: &[u8], out: &mut [u8]) -> Result<Replied, Outcome>
    requires { length reply.now ≤ max_reply }
    ensures { resting result out.new ≡ repeated t.now reply.now out.old }
{
    resting_outcome(t, out)?;
    octets::copy(out, 0, reply);
    Ok(Replied {
        used: reply.len(),
        place: 0,
    })
}

// A request whose number is not newer.
fn drop_old(t: &[u8], out: &[u8]) -> Result<Replied, Outcome>
    ensures { resting result out.now ≡ dropped t.now out.now }
{
    resting_outcome(t, out)?;
    Err(Outcome::Old)
}

// A peer's request that the engine is asked; the store keeps it with its reply.
fn renew(
    t: &mut [u8],
    peer: u32,
    store: &mut [u8],
    msg: &[u8],
    out: &mut [u8],
) -> Result<Replied, Outcome>
    requires { T (store_sound store.old) }
    ensures { once result out.new t.new store.new ≡ renewed t.old peer store.old msg.now out.old }
{
    let replied = engine::serve(t, peer, msg, out)?;
    store::push(store, msg, &out[..replied.used]);
    Ok(replied)
}

// A peer's request, with its store.
fn serve_peer(
    t: &mut [u8],
    peer: u32,
    store: &mut [u8],
    msg: &[u8],
    out: &mut [u8],
) -> Result<Replied, Outcome>
    requires { T (is_peer peer) }
    ensures { once result out.new t.new store.new ≡ request_once t.old peer store.old msg.now out.old }
{
    if !store::is_sound(store) {
        return Err(Outcome::Broken);
    }
    if !store::is_request(msg) {
        return engine::serve(t, peer, msg, out);
    }
    if let Some(reply) = store::recall(store, msg) {
        return repeat(t, reply, out);
    }
    if !store::takes(store, msg) {
        return drop_old(t, out);
    }
    renew(t, peer, store, msg, out)
}

// One request on any octets, the table, the store of the peer, the message and the reply space, under any number as its peer's: where that is no
// peer's, neither table nor store is looked at (02 (xiv)).
pub fn serve_once(
    t: &mut [u8],
    peer: u32,
    store: &mut [u8],
    msg: &[u8],
    out: &mut [u8],
) -> Result<Replied, Outcome>
    ensures { once result out.new t.new store.new ≡ request_once t.old peer store.old msg.now out.old }
{
    if !unit::is_peer(peer) {
        return Err(Outcome::NoPeer);
    }
    serve_peer(t, peer, store, msg, out)
}
