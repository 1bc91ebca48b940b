// A request in a file, after its peer.
use crate::say::{Failure, Subject, Words};
use std::fmt::Display;
use std::io::{Read, Write};
use std::{fmt, io};

// A request, and the peer whose session it restores.
#[derive(Clone, Copy)]
pub struct Request<'a> {
    pub peer: u32,
    pub message: &'a [u8],
}

// What is wrong with a request of a file: it cannot be read, or it is none that can be run. A file that was written before there were two peers
// has a request of no peer.
#[derive(Drop)]
pub enum Fault {
    Unread(io::Error),
    NoPeer,
    Missing,
    Long,
    Cut,
    NoRequest,
    Refused(u8),
}

impl From<io::Error> for Fault {
    fn from(why: io::Error) -> Fault {
        Fault::Unread(why)
    }
}

// The meaning of a cause.
fn meaning(cause: u8) -> &'static str {
    match cause {
        64 => "request rejected",
        65 => "session context not found",
        66 => "mandatory element missing",
        67 => "conditional element missing",
        68 => "invalid length",
        69 => "mandatory element incorrect",
        71 => "invalid F-TEID allocation option",
        73 => "rule creation or modification failure",
        75 => "no resources available",
        76 => "service not supported",
        79 => "all dynamic addresses are occupied",
        _ => "unknown cause",
    }
}

impl Display for Fault {
    fn fmt<W: fmt::Write>(&self, f: &mut fmt::Formatter<W>) -> fmt::Result {
        match self {
            Fault::Unread(why) => write!(f, "{}", Words(why)),
            Fault::NoPeer => write!(f, "is of no peer: the octet before it is neither 1 nor 2"),
            Fault::Missing => write!(f, "is not there: under 5 octets are left over"),
            Fault::Long => write!(f, "is longer than 2048 octets"),
            Fault::Cut => write!(f, "is cut short"),
            Fault::NoRequest => write!(f, "is not a session request with a right header"),
            Fault::Refused(cause) => {
                write!(f, "is refused with cause {cause} ({})", meaning(*cause))
            }
        }
    }
}

impl Fault {
    // Tells it of this request of the file, the first being 1.
    pub fn tell(self, file: Subject<'_, impl Print>, number: u64) -> Failure {
        match self {
            Fault::Unread(_) => file.refused(self),
            Fault::Refused(_) => file.refused_cause(number, self),
            _ => file.refused_request(number, self),
        }
    }
}

impl<'a> Request<'a> {
    // The next request of the file, in room; nothing at the file's end. Its length is that of its header's length field and the four octets up
    // to there.
    pub fn read(
        file: &mut impl Read,
        room: &'a mut [u8; format::MESSAGE],
    ) -> Result<Option<Request<'a>>, Fault> {
        let mut peer = [0u8; 1];
        if input::read_full(file, &mut peer)? == 0 {
            return Ok(None);
        }
        if !matches!(peer, [1 | 2]) {
            return Err(Fault::NoPeer);
        }
        if input::read_full(file, &mut room[..4])? < 4 {
            return Err(Fault::Missing);
        }
        let length = octets::read(room, 2, 2) as usize + 4;
        if format::MESSAGE < length {
            return Err(Fault::Long);
        }
        if input::read_full(file, &mut room[4..length])? < length - 4 {
            return Err(Fault::Cut);
        }
        Ok(Some(Request {
            peer: peer[0] as u32,
            message: &room[..length],
        }))
    }

    // Writes the octet with the peer, and the request.
    pub fn write(&self, file: &mut impl Write) -> io::Result<()> {
        file.write_all(&self.peer.to_be_bytes()[3..])?;
        file.write_all(self.message)
    }
}
