// The reply to a request (01, "Reply"; 02 (vii)), written straight into the reply space: the elements after the place of the header, then the
// header before them.
#![tactic(auto)]

ghost use Rattle.std.specs.Prelude.{◌≡◌, ◌+◌, ◌-◌, ◌≤◌, ◌<◌, true, T, length};
ghost use Rattle.octets.specs.Octets.{put};
ghost use Rattle.octets.specs.Lists.{all};
ghost use Rattle.rules.specs.Limits.{min_space};
ghost use Rattle.rules.specs.Model.{peer_of};
ghost use Rattle.rules.specs.Message.{kind_of, header_seid};
ghost use Rattle.rules.specs.Stages.{plain};
ghost use Rattle.rules.specs.Reply.{no_reports, reply_seid, offending_element, reply};
ghost use Rattle.rules.specs.Causes as why;
ghost use Rattle.unit.specs.Meaning.{settings_of};
ghost use Rattle.writing.specs.Placed.{Placed, written};
ghost use Rattle.reply.specs.Parts.{WithSeid, Listing, reply_head, body_front};
ghost use Rattle.reply.specs.Naming.{offending_in, refusal};
ghost use Rattle.created.specs.Groups.{id_fits};
ghost use Rattle.created.specs.Entries.{max_grants, tolds_at, reports_at, within};

use format::{header, kinds};
use unit::Settings;

// The SEID in a reply's header: the session's, but 0 for cause 65 and refused establishments.
fn reply_seid(msg: &[u8], cause: u8, seid: u64) -> u64
    requires { 16 ≤ length msg.now }
    ensures { result ≡ reply_seid (kind_of msg.now) cause (header_seid msg.now) seid }
{
    if msg[header::KIND] == kinds::ESTABLISHMENT_OCTET {
        if cause == 1 {
            return seid;
        }
        return 0;
    }
    if cause == 65 {
        return 0;
    }
    octets::read(msg, header::SEID, 8)
}

// The peer's signalling address on the unit.
fn home(u: Settings, peer: u32) -> u64
    ensures { result ≡ (peer_of (settings_of u) peer).address }
{
    if peer == 1 {
        return u.peer1.address;
    }
    u.peer2.address
}

// What every reply has after its header, from a place on: the Node ID in those that have it, and the cause.
fn write_front(home: u64, kind: u8, cause: u8, out: &mut [u8], at: usize) -> usize
    requires { at + 14 ≤ length out.old }
    ensures { Placed out.old at (body_front kind home cause) result out.new }
{
    let next = writing::write_node_id(home, kind, out, at);
    writing::write_cause(cause, out, next)
}

// The element that names the type at fault, where the refusal names one.
fn write_offending(offending: Option<u64>, out: &mut [u8], at: usize) -> usize
    requires { at + 6 ≤ length out.old }
    ensures { Placed out.old at (offending_element (offending_in offending)) result out.new }
{
    match offending {
        None => at,
        Some(kind) => writing::write_offending(kind, out, at),
    }
}

// The header before elements that end at a place: the type after the request's, the request's sequence number.
fn finish(msg: &[u8], cause: u8, seid: u64, end: usize, out: &mut [u8])
    requires { WithSeid msg.now × (kind_of msg.now < 255) × (16 ≤ end) × (end ≤ min_space) × (16 ≤ length out.old) }
    ensures { out.new ≡ put 0 (reply_head msg.now seid cause (end - 16)) out.old }
{
    let s = reply_seid(msg, cause, seid);
    writing::write_header(
        msg[header::KIND] + 1,
        s,
        &msg[header::SEQUENCE..header::SPARE],
        end - header::BODY,
        out,
    );
}

// The whole reply of a refusal, at the front of out; the answer is its length.
pub fn refused(
    u: Settings,
    peer: u32,
    msg: &[u8],
    cause: u8,
    offending: Option<u64>,
    out: &mut [u8],
) -> usize
    requires { WithSeid msg.now × (kind_of msg.now < 255) × (cause ≡ why.accepted → ⊥) × (min_space ≤ length out.old) }
    ensures { (result, out.new) ≡ written (reply (settings_of u) peer msg.now 0 (refusal cause offending) no_reports) out.old }
{
    let at = home(u, peer);
    let next = write_front(at, msg[header::KIND], cause, out, header::BODY);
    let end = write_offending(offending, out, next);
    finish(msg, cause, 0, end, out);
    end
}

// The whole reply of an accepted request, at the front of out; the answer is its length. The grants are those of the plan's rows at the
// places, which stand in request order for each kind of record.
pub fn accepted(
    u: Settings,
    peer: u32,
    msg: &[u8],
    seid: u64,
    plan: &[u64],
    places: &[usize],
    out: &mut [u8],
) -> usize
    requires { WithSeid msg.now × (kind_of msg.now < 255) × (length places.now ≤ max_grants) × T (within plan.now places.now) × (all id_fits (tolds_at plan.now places.now) ≡ true) × (min_space ≤ length out.old) }
    ensures { (result, out.new) ≡ written (reply (settings_of u) peer msg.now seid (plain why.accepted) (reports_at plan.now places.now)) out.old }
{
    let at = home(u, peer);
    let next = write_front(at, msg[header::KIND], 1, out, header::BODY);
    let own = writing::write_own_fseid(at, msg[header::KIND], seid, out, next);
    let end = created::write_created(u, plan, places, out, own);
    finish(msg, 1, seid, end, out);
    end
}

// The whole reply to a set deletion, accepted or refused, at the front of out; the answer is its length. Its header has no SEID.
pub fn listed(
    u: Settings,
    peer: u32,
    msg: &[u8],
    cause: u8,
    offending: Option<u64>,
    out: &mut [u8],
) -> usize
    requires { Listing msg.now × (min_space ≤ length out.old) }
    ensures { (result, out.new) ≡ written (reply (settings_of u) peer msg.now 0 (refusal cause offending) no_reports) out.old }
{
    let at = home(u, peer);
    let next = write_front(at, kinds::SET_DELETION_OCTET, cause, out, header::LIST_BODY);
    let end = write_offending(offending, out, next);
    writing::write_list_header(
        kinds::SET_DELETION_OCTET + 1,
        &msg[header::LIST_SEQUENCE..header::LIST_SPARE],
        end - header::LIST_BODY,
        out,
    );
    end
}
