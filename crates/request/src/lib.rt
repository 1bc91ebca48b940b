// A request as a plan: stages 2 and 3, which read each element that the request acts on once, into a row of words, in request order. What a
// row means stands in the crate plan.
#![tactic(auto)]

ghost use Rattle.std.specs.Prelude.{◌≡◌, ◌-◌, ◌≤◌, length, not, ◌||◌, eqb};
ghost use Rattle.rules.specs.Limits.{max_message};
ghost use Rattle.request.specs.Items.{plan_of, concluded};
ghost use Rattle.frame.specs.HeaderOf.{SessionHeader};
ghost use Rattle.request.specs.Requests.{RoomFor, Read};

use format::{causes, kinds, types};
use items::Draft;
use reading::Fault;

pub mod items;
pub mod row;

// The rows that were written, and what has no row: the F-SEID's SEID, whether the request is a restoration, and whether element 129 was
// met.
#[derive(Clone, Copy)]
pub struct Plan {
    pub rows: usize,
    pub seid: u64,
    pub restoring: bool,
    pub noted: bool,
}

// The plan of what was read, with an SEID.
fn plan_of(d: Draft, seid: u64) -> Plan
    ensures { result ≡ plan_of d seid }
{
    Plan {
        rows: d.rows,
        seid: seid,
        restoring: d.flags == 2,
        noted: d.noted,
    }
}

// Whether an establishment lacks a Create PDR, which a restoration does not need.
fn lacks_pdr(d: Draft) -> bool
    ensures { result ≡ not (eqb d.flags 2 || d.creates) }
{
    if d.flags == 2 {
        return false;
    }
    !d.creates
}

// The end of a message: what it lacks, or its plan.
fn conclude(message: u64, d: Draft) -> Result<Plan, Fault>
    ensures { result ≡ concluded message d }
{
    if message != kinds::ESTABLISHMENT {
        return Ok(plan_of(d, 0));
    }
    if lacks_pdr(d) {
        return Err(Fault {
            cause: causes::MANDATORY_MISSING,
            kind: types::CREATE_PDR,
            place: 0,
        });
    }
    if d.seid == 0 {
        return Err(Fault {
            cause: causes::MANDATORY_MISSING,
            kind: types::FSEID,
            place: 0,
        });
    }
    Ok(plan_of(d, d.seid))
}

// Reads a message whose header is allowed and has a SEID: its plan, or the first fault of stages 2 and 3.
pub fn read_request(msg: &[u8], words: &mut [u64]) -> Result<Plan, Fault>
    requires { SessionHeader msg.now × (length msg.now ≤ max_message) × RoomFor (length msg.now - 16) words.old }
    ensures { Read msg.now result words.new }
{
    frame::frame_fault(msg)?;
    let message = octets::read(msg, 1, 1);
    let d = items::read_elements(&msg[16..], message, words)?;
    conclude(message, d)
}
