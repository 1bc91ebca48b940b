// pfcp-restore run FILE TABLE NEW
ghost use Rattle.std.specs.Prelude.{◌+◌, ◌≤◌, length};

use crate::requests::{Fault, Request};
use crate::say::{Done, Failure, Subject};
use crate::{file, names, say};
use std::env::Env;
use std::io::{Read, Write};
use std::random::RandomSource;
use std::rt::Files;

const CAUSE_OF_ACCEPTANCE: u8 = 1;

// A peer's settings.
#[derive(Clone, Copy)]
struct Peer {
    address: u32,
    guarantee: u32,
    limit: u32,
}

// The peer's settings at a place of s.
fn peer_at(s: &[u8], at: usize) -> Peer
    requires { at + 12 ≤ length s.now }
{
    Peer {
        address: octets::read(s, at, 4) as u32,
        guarantee: octets::read(s, at + format::GUARANTEE, 4) as u32,
        limit: octets::read(s, at + format::PEER_LIMIT, 4) as u32,
    }
}

// The empty table with the settings at the front of s, both peers' among them. Under other guarantees and limits the requests could be refused
// that restore its sessions.
fn make(s: &[u8], new: &mut [u8]) -> u32
    requires { 63 ≤ length s.now }
{
    let ipv6 = if s[format::IPV6_THERE] == 0 {
        &[]
    } else {
        &s[format::IPV6..format::FIRST]
    };
    let peer1 = peer_at(s, format::PEER1);
    let peer2 = peer_at(s, format::PEER2);
    pfcp_session::pfcp_make_table(
        new,
        octets::read(s, format::IPV4, 4) as u32,
        ipv6,
        octets::read(s, format::FIRST, 4) as u32,
        octets::read(s, format::SIZE, 4) as u32,
        octets::read(s, format::FIRST_ADDRESS, 4) as u32,
        octets::read(s, format::ADDRESS_COUNT, 4) as u32,
        octets::read(s, format::LIMIT, 2) as u32,
        peer1.address,
        peer1.guarantee,
        peer1.limit,
        peer2.address,
        peer2.guarantee,
        peer2.limit,
    )
}

// The cause of a reply.
fn cause(reply: &[u8; format::SPACE]) -> u8 {
    match reply[1] {
        51 => reply[29],
        15 => reply[21],
        _ => reply[20],
    }
}

// One request on the new table.
// Stays: what the call answers goes into places that are lent, as C lends them (a): pfcp_request.
fn serve(new: &mut [u8], request: &Request<'_>) -> Result<(), Fault> {
    let mut reply = [0u8; format::SPACE];
    let mut used = 0usize;
    let mut place = 0usize;
    let outcome = pfcp_session::pfcp_request(
        new,
        request.peer,
        request.message,
        &mut reply,
        &mut used,
        &mut place,
    );
    if outcome != 0 {
        return Err(Fault::NoRequest);
    }
    match cause(&reply) {
        CAUSE_OF_ACCEPTANCE => Ok(()),
        refusal => Err(Fault::Refused(refusal)),
    }
}

// The next request of the file on the new table; whether there is one.
fn run_next(file: &mut impl Read, new: &mut [u8]) -> Result<bool, Fault> {
    let mut room = [0u8; format::MESSAGE];
    match Request::read(file, &mut room)? {
        None => Ok(false),
        Some(request) => {
            serve(new, &request)?;
            Ok(true)
        }
    }
}

// All requests of the file on the new table: how many there are. No file ends the count.
fn requests(
    about: Subject<'_, impl Print>,
    file: &mut impl Read,
    new: &mut [u8],
) -> Result<u64, Failure> {
    for number in 1..u64::MAX {
        let ran = run_next(file, new);
        if !ran.map_err(|fault| fault.tell(about, number))? {
            return Ok(number - 1);
        }
    }
    Ok(u64::MAX - 1)
}

// The file's requests on an empty table with the settings of the stored table, and the result into the file of the third name. A result that is
// another table than the stored one is no success, though it is kept.
fn run<R: Files + Print + RandomSource, E: Print>(
    rt: &R,
    file: Subject<'_, E>,
    table: Subject<'_, E>,
    place: Subject<'_, E>,
) -> Result<(), Failure> {
    let mut room = [0u8; file::LONGEST];
    let stored = file::read_table(rt, table, &mut room)?;
    let mut space = [0u8; file::LONGEST];
    let new = &mut space[..stored.len()];
    if make(stored, new) != 0 {
        return Err(say::refused(file.err, "a table with these settings cannot be made"));
    }
    // The file is closed before another is opened.
    let n = {
        let mut opened = file::open(rt, file.name).map_err(|why| file.failed(&why))?;
        requests(file, &mut opened, new)?
    };
    let same = stored == &*new;
    file::replace(rt, place, |beside| {
        beside.write_all(new).map_err(|why| place.failed(&why))?;
        Ok(Done::Accepted(n, same))
    })?;
    if same { Ok(()) } else { Err(Failure::Differs) }
}

// n arguments, the program's own name and the word `run` among them.
pub fn arguments<R: Env + Files + Print + RandomSource>(
    rt: &R,
    err: &impl Print,
    n: usize,
) -> Result<(), Failure> {
    if n != 5 {
        return Err(say::usage(err));
    }
    let mut room = [0u8; names::ROOM];
    let file = names::file(rt, err, 2, b"FILE", &mut room)?;
    let mut room = [0u8; names::ROOM];
    let table = names::file(rt, err, 3, b"TABLE", &mut room)?;
    let mut room = [0u8; names::ROOM];
    let new = names::file(rt, err, 4, b"NEW", &mut room)?;
    if file.name == new.name {
        return Err(file.refused("it is read, and would be replaced by the new table"));
    }
    run(rt, file, table, new)
}
