// pfcp-restore write TABLE FILE [IPV4] [IPV6]
use crate::requests::Request;
use crate::say::{Done, Failure, Subject};
use crate::{file, names, say};
use std::env::Env;
use std::io::Write;
use std::net::IpAddr;
use std::random::RandomSource;
use std::rt::Files;

// The control plane that sends the requests: the octets of its addresses that are given.
#[derive(Clone, Copy, Default)]
struct Sender {
    ipv4: Option<[u8; 4]>,
    ipv6: Option<[u8; 16]>,
}

impl Sender {
    // One more address from the command: IPv4 as four decimal numbers, IPv6 as clause 2.2 of RFC 4291 has it, with `::` and with an IPv4 address
    // at its end.
    fn take(&mut self, word: Subject<'_, impl Print>) -> Result<(), Failure> {
        match IpAddr::parse_ascii(word.name) {
            Ok(IpAddr::V4(address)) => {
                if self.ipv4.replace(address.octets()).is_some() {
                    return Err(word.refused("a second IPv4 address"));
                }
            }
            Ok(IpAddr::V6(address)) => {
                if self.ipv6.replace(address.octets()).is_some() {
                    return Err(word.refused("a second IPv6 address"));
                }
            }
            Err(_) => return Err(word.refused("neither an IPv4 nor an IPv6 address")),
        }
        Ok(())
    }

    // The address in argument i.
    fn take_argument(&mut self, rt: &impl Env, err: &impl Print, i: usize) -> Result<(), Failure> {
        match names::argument(rt, i, &mut [0u8; 64]) {
            Ok(name) => self.take(Subject { err, name }),
            Err(_) => Err(Subject {
                err,
                name: b"an address",
            }
            .refused("too long for one")),
        }
    }
}

// The octets of an address, none where there is no address.
fn octets_of<const N: usize>(address: &Option<[u8; N]>) -> &[u8] {
    match address {
        Some(octets) => octets,
        None => &[],
    }
}

// The request of the session at place, in room; nothing past the last one.
// Stays: what the call answers goes into places that are lent, as C lends them (a): pfcp_write_restoration.
fn request_at<'a>(
    err: &impl Print,
    t: &[u8],
    place: usize,
    sender: &Sender,
    room: &'a mut [u8; format::MESSAGE],
) -> Result<Option<Request<'a>>, Failure> {
    let mut used = 0usize;
    let mut peer = 0u32;
    let outcome = pfcp_session::pfcp_write_restoration(
        t,
        place,
        octets_of(&sender.ipv4),
        octets_of(&sender.ipv6),
        room,
        &mut used,
        &mut peer,
    );
    match (outcome, room.get(..used)) {
        (0, Some(message)) => Ok(Some(Request { peer, message })),
        (2, _) => Ok(None),
        _ => Err(say::refused(err, "a request cannot be written")),
    }
}

// Writes the requests of all sessions of a sound table: how many there are.
fn requests(
    about: Subject<'_, impl Print>,
    t: &[u8],
    sender: &Sender,
    file: &mut impl Write,
) -> Result<u64, Failure> {
    for place in 0..file::MOST_SESSIONS {
        let mut room = [0u8; format::MESSAGE];
        let Some(request) = request_at(about.err, t, place, sender, &mut room)? else {
            return Ok(place as u64);
        };
        request.write(file).map_err(|why| about.failed(&why))?;
    }
    Ok(file::MOST_SESSIONS as u64)
}

// The requests of the stored table into the file of the second name.
fn write<R: Files + Print + RandomSource, E: Print>(
    rt: &R,
    table: Subject<'_, E>,
    path: Subject<'_, E>,
    sender: &Sender,
) -> Result<(), Failure> {
    let mut room = [0u8; file::LONGEST];
    let stored = file::read_table(rt, table, &mut room)?;
    if sender.ipv4.is_none() && sender.ipv6.is_none() {
        return Err(say::refused(
            path.err,
            "no address of the control plane is given: IPV4, IPV6 or both",
        ));
    }
    file::replace(rt, path, |beside| {
        let many = requests(path, stored, sender, beside)?;
        Ok(Done::Written(many))
    })
}

// n arguments, the program's own name and the word `write` among them.
pub fn arguments<R: Env + Files + Print + RandomSource>(
    rt: &R,
    err: &impl Print,
    n: usize,
) -> Result<(), Failure> {
    if !(4..=6).contains(&n) {
        return Err(say::usage(err));
    }
    let mut room = [0u8; names::ROOM];
    let table = names::file(rt, err, 2, b"TABLE", &mut room)?;
    let mut room = [0u8; names::ROOM];
    let path = names::file(rt, err, 3, b"FILE", &mut room)?;
    if table.name == path.name {
        return Err(path.refused("it is read, and would be replaced by the requests"));
    }
    let mut sender = Sender::default();
    for i in 4..n {
        sender.take_argument(rt, err, i)?;
    }
    write(rt, table, path, &sender)
}
