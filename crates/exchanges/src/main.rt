// Runs 01's worked examples, the errors seen and 02's examples. Reads parts from standard input, each after its length in two octets. The
// first octet of a part says what it is.
//
//     0, in a part of 49 octets, makes an empty table: after it stand the unit's IPv4 address, the first TEID and the number of TEIDs, the
//     first address and the number of addresses, the session limit, and the address, guarantee and limit of peer 1, then of peer 2, four
//     octets each. It empties the stores of repeated requests too.
//     1 is a request that goes through its peer's store: the peer and the message stand after it.
//     2, in a part of 5 octets, changes an octet of a peer's store: after it stand the peer, the octet's index, two octets, and what it
//     becomes.
//     Any other is a request on the table as it then stands: the peer and the message stand after it.
//
// Writes a line for each: `octet` and its index where a store is changed, else `table` or `outcome` and the call's outcome, the free TEIDs
// and addresses after it (`broken` where there is no count), and the place of a fault and the reply's octets where there is a reply. The
// lines in `stdout` are the second implementation's.
#![tactic(auto)]

ghost use Rattle.std.specs.Prelude.{◌≡◌, ◌+◌, ◌≤◌, length, IfOk, OnErr};

use changes::Replied;
use engine::outcome::Outcome;
use input::Parts;
use output::Hex;
use std::fmt::{Display, Formatter};
use std::{fmt, io};
use table::{Broken, Refused};
use unit::Peer;

// How many octets a part that makes a table has.
const MAKING: usize = 49;

// The room for the largest table that is made here, of 16 sessions.
const ROOM: usize = format::HEAD + 16 * format::SLOT;

// So many octets of standard input are read at most.
const INPUT: usize = 65536;

// A count of a table.
#[derive(Clone, Copy)]
struct Count(Result<u64, Broken>);

impl Display for Count {
    fn fmt<W: fmt::Write>(&self, f: &mut Formatter<W>) -> fmt::Result {
        match self.0 {
            Ok(n) => write!(f, "{n}"),
            Err(Broken) => write!(f, "broken"),
        }
    }
}

// What a table has free.
#[derive(Clone, Copy)]
struct Free<'a>(&'a [u8]);

impl Display for Free<'_> {
    fn fmt<W: fmt::Write>(&self, f: &mut Formatter<W>) -> fmt::Result {
        let teids = Count(table::free_count(self.0));
        let addresses = Count(table::free_addresses(self.0));
        write!(f, "free {teids} addresses {addresses}")
    }
}

// The peer's settings at a place of s.
fn peer_at(s: &[u8], at: usize) -> Peer
    requires { at + 12 ≤ length s.now }
{
    Peer {
        address: octets::read(s, at, 4),
        guarantee: octets::read(s, at + 4, 4),
        limit: octets::read(s, at + 8, 4),
    }
}

// The number at a place of s.
fn number_at(s: &[u8], at: usize) -> u32
    requires { at + 4 ≤ length s.now }
{
    octets::read(s, at, 4) as u32
}

// The table at the front of its room; at first there is none.
#[derive(Drop)]
struct Table {
    room: [u8; ROOM],
    end: usize,
}

impl Table {
    // How many octets the table has, for which there is room.
    // Stays: a test that never fails, in place of a ghost field `end ≤ 9729` (c): the room is lent to the calls, and of a struct with one none is.
    fn end(&self) -> usize
        ensures { result ≤ 9729 }
    {
        self.end.min(ROOM)
    }

    // What the table has free.
    fn free(&self) -> Free<'_> {
        Free(&self.room[..self.end()])
    }

    // Makes an empty table with the settings in s; where it is refused, the table stays.
    fn make(&mut self, s: &[u8; MAKING]) -> Result<(), Refused>
        ensures within { IfOk result (λ made. self.new.end ≤ 9729) }
        ensures kept { OnErr result (self.new.end ≡ self.old.end) }
    {
        let limit = number_at(s, 21);
        let end = table::length_for(limit);
        if ROOM < end {
            return Err(Refused);
        }
        table::make(
            &mut self.room[..end],
            number_at(s, 1),
            &[],
            number_at(s, 5),
            number_at(s, 9),
            number_at(s, 13),
            number_at(s, 17),
            limit,
            peer_at(s, 25),
            peer_at(s, 37),
        )?;
        self.end = end;
        Ok(())
    }

    // What a request got.
    fn answer(
        &self,
        rt: &impl Print,
        got: Result<Replied, Outcome>,
        reply: &[u8],
    ) -> io::Result<()> {
        let free = self.free();
        match got {
            Err(outcome) => println!(rt; "outcome {} {free}", u32::from(outcome)),
            Ok(replied) => {
                let octets = Hex(&reply[..replied.used.min(reply.len())]);
                println!(rt; "outcome 0 {free} place {} reply {octets}", replied.place)
            }
        }
    }

    // One request of a peer.
    fn request(&mut self, rt: &impl Print, peer: u8, msg: &[u8]) -> io::Result<()>
        ensures { self.new.end ≡ self.old.end }
    {
        let mut reply = [0u8; format::SPACE];
        let end = self.end();
        let got = engine::serve(&mut self.room[..end], peer as u32, msg, &mut reply);
        self.answer(rt, got, &reply)
    }

    // One request of a peer, with the peer's store before it.
    fn request_once(
        &mut self,
        rt: &impl Print,
        peer: u8,
        store: &mut [u8],
        msg: &[u8],
    ) -> io::Result<()>
        ensures { self.new.end ≡ self.old.end }
    {
        let mut reply = [0u8; format::SPACE];
        let end = self.end();
        let got = repeats::serve_once(&mut self.room[..end], peer as u32, store, msg, &mut reply);
        self.answer(rt, got, &reply)
    }
}

// The table, and the stores of repeated requests of both peers.
#[derive(Drop)]
struct Unit {
    table: Table,
    one: [u8; store::LENGTH],
    two: [u8; store::LENGTH],
}

impl Unit {
    // A new table empties the stores.
    fn remake(&mut self, rt: &impl Print, s: &[u8; MAKING]) -> io::Result<()>
        requires { self.old.table.end ≤ 9729 }
        ensures { self.new.table.end ≤ 9729 }
    {
        let made = self.table.make(s);
        if made.is_ok() {
            let _ = store::clear(&mut self.one);
            let _ = store::clear(&mut self.two);
        }
        println!(rt; "table {} {}", made.is_err() as u8, self.table.free())
    }

    // The peer's store is lent; with a number that is no peer's either does, for neither is looked at.
    fn request_once(&mut self, rt: &impl Print, peer: u8, msg: &[u8]) -> io::Result<()>
        ensures { self.new.table.end ≡ self.old.table.end }
    {
        let Unit { table, one, two } = self;
        if peer == 2 {
            table.request_once(rt, peer, two, msg)
        } else {
            table.request_once(rt, peer, one, msg)
        }
    }

    // Changes an octet of a peer's store, if there is such a peer and so many octets.
    fn change(&mut self, rt: &impl Print, peer: u8, at: usize, octet: u8) -> io::Result<()>
        ensures { self.new.table.end ≡ self.old.table.end }
    {
        if at < store::LENGTH {
            match peer {
                1 => self.one[at] = octet,
                2 => self.two[at] = octet,
                _ => {}
            }
        }
        println!(rt; "octet {at}")
    }

    // One part. One that is too short to name a peer is a request of none.
    fn part(&mut self, rt: &impl Print, s: &[u8]) -> io::Result<()>
        requires { self.old.table.end ≤ 9729 }
        ensures { self.new.table.end ≤ 9729 }
    {
        if let Ok(making) = <&[u8; MAKING]>::try_from(s)
            && making[0] == 0
        {
            return self.remake(rt, making);
        }
        match s {
            [1, peer, msg @ ..] => self.request_once(rt, *peer, msg),
            [2, peer, high, low, octet] => {
                let at = *high as usize * 256 + *low as usize;
                self.change(rt, *peer, at, *octet)
            }
            [_, peer, msg @ ..] => self.table.request(rt, *peer, msg),
            _ => self.table.request(rt, 0, s),
        }
    }
}

fn main(rt: HostRuntime) -> io::Result<()> {
    let mut unit = Unit {
        table: Table {
            room: [0; ROOM],
            end: 0,
        },
        one: [0; store::LENGTH],
        two: [0; store::LENGTH],
    };
    let mut buf = [0u8; INPUT];
    let n = input::read_full(&mut rt.reader(), &mut buf)?;
    for part in Parts(&buf[..n]) {
        unit.part(&rt, part)?;
    }
    Ok(())
}
