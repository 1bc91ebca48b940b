// Reads requests from standard input, each after its length in two octets, and writes a line for each: `outcome` and the host outcome
// (3 to 5), `cause`, `type` and `place` of the first fault of stages 2 and 3, or `read` and the request from the rows of its plan. The lines are those
// that the independent second reader writes, but for what a plan does not keep: the F-SEID's addresses, a set deletion's FQ-CSIDs, and
// where an element 129 stands, which is said at the end.
#![tactic(auto)]

mod record;

ghost use Rattle.std.specs.Prelude.{◌≤◌, length};
ghost use Rattle.frame.specs.HeaderOf.{SessionHeader};

use format::{Row, header, kinds};
use frame::header::{Header, Unserved};
use input::Parts;
use reading::Fault;
use record::Record;
use request::Plan;
use std::fmt::{Display, Formatter};
use std::{fmt, io};

// So many octets of standard input are read at most.
const ROOM: usize = 65536;

// A request that was read.
#[derive(Drop)]
struct Whole<'a> {
    kind: u64,
    seid: u64,
    sequence: u64,
    plan: Plan,
    rows: &'a [Row],
}

impl Display for Whole<'_> {
    fn fmt<W: fmt::Write>(&self, f: &mut Formatter<W>) -> fmt::Result {
        let title = match self.kind {
            kinds::ESTABLISHMENT => "establishment",
            kinds::MODIFICATION => "modification",
            _ => "deletion",
        };
        write!(
            f,
            "read {title} header={:016x} sequence={}",
            self.seid, self.sequence
        )?;
        if self.kind == kinds::ESTABLISHMENT {
            let restoring = self.plan.restoring as u8;
            write!(f, " seid={:016x} restoration={restoring}", self.plan.seid)?;
        }
        for row in self.rows {
            write!(f, " | {}", Record(row))?;
        }
        if self.plan.noted {
            write!(f, " | update-endpoint")?;
        }
        Ok(())
    }
}

fn fault(rt: &impl Print, found: Fault) -> io::Result<()> {
    println!(rt;
        "cause {} type {} place {}",
        found.cause, found.kind, found.place
    )
}

// A message whose header is allowed and has a SEID.
fn message(rt: &impl Print, msg: &[u8], kind: u64, seid: u64) -> io::Result<()>
    requires { SessionHeader msg.now × (length msg.now ≤ 2048) }
{
    let mut words = [0u64; format::PLAN];
    let sequence = octets::read(msg, header::SEQUENCE, 3);
    match request::read_request(msg, &mut words) {
        Err(found) => fault(rt, found),
        Ok(plan) => {
            let rows = plan::rows(&words, plan.rows);
            let whole = Whole {
                kind,
                seid,
                sequence,
                plan,
                rows,
            };
            println!(rt; "{whole}")
        }
    }
}

// The first fault of a set deletion whose header is allowed.
fn set_fault(msg: &[u8]) -> Result<(), Fault>
    requires { (8 ≤ length msg.now) × (length msg.now ≤ 2048) }
{
    frame::frame_fault(msg)?;
    sets::list_fault(&msg[header::LIST_BODY..])
}

fn set_deletion(rt: &impl Print, msg: &[u8]) -> io::Result<()>
    requires { (8 ≤ length msg.now) × (length msg.now ≤ 2048) }
{
    match set_fault(msg) {
        Err(found) => fault(rt, found),
        Ok(()) => {
            let sequence = octets::read(msg, header::LIST_SEQUENCE, 3);
            println!(rt; "read set-deletion sequence={sequence}")
        }
    }
}

fn verdict(rt: &impl Print, msg: &[u8]) -> io::Result<()> {
    match frame::header::read_header(msg) {
        Err(Unserved::TooLong) => println!(rt; "outcome 3"),
        Err(Unserved::Malformed) => println!(rt; "outcome 4"),
        Err(Unserved::NotServed) => println!(rt; "outcome 5"),
        Ok(Header::Request(kind, seid)) => message(rt, msg, kind, seid),
        Ok(Header::Sets) => set_deletion(rt, msg),
    }
}

fn main(rt: HostRuntime) -> io::Result<()> {
    let mut buf = [0u8; ROOM];
    let n = input::read_full(&mut rt.reader(), &mut buf)?;
    for msg in Parts(&buf[..n]) {
        verdict(&rt, msg)?;
    }
    Ok(())
}
