// Lines for the operator. A refusal is one line on standard error.
ghost use Rattle.std.specs.Prelude.{◌≡◌};
ghost use Rattle.std.specs.Process.{exit_status};
ghost use Rattle.restoring.specs.Failure.{status_of};

use std::fmt::Display;
use std::io::Write;
use std::process::ExitCode;
use std::{fmt, io, str};

// Why a run is no success, of which the operator was told; as a number it is the exit status.
#[derive(Clone, Copy, Debug, PartialEq, Eq)]
pub enum Failure {
    Refused = 1,
    WrongArguments = 2,
    // The requests were run and the new table is written, but it is not the stored one.
    Differs = 3,
}

impl From<Failure> for ExitCode {
    ghost from_gives = { λ failure code. exit_status code ≡ status_of failure };

    fn from(failure: Failure) -> ExitCode {
        ExitCode::from(failure as u8)
    }
}

// What a run has done, for its line on standard output.
#[derive(Clone, Copy)]
pub enum Done {
    Written(u64),
    Accepted(u64, bool),
}

impl Display for Done {
    fn fmt<W: fmt::Write>(&self, f: &mut fmt::Formatter<W>) -> fmt::Result {
        match *self {
            Done::Written(n) => write!(f, "requests written: {n}"),
            Done::Accepted(n, same) => {
                let is = if same {
                    "is the same as"
                } else {
                    "differs from"
                };
                write!(
                    f,
                    "requests accepted: {n}; the new table {is} the stored one"
                )
            }
        }
    }
}

// Room for what the system says of an error.
const WORDS: usize = 320;

// What the system says of an error, without the number that the library puts after it.
#[derive(Drop)]
pub struct Words<'a>(pub &'a io::Error);

impl Display for Words<'_> {
    fn fmt<W: fmt::Write>(&self, f: &mut fmt::Formatter<W>) -> fmt::Result {
        let mut space = [0u8; WORDS];
        let mut room: &mut [u8] = &mut space;
        let _ = write!(room, "{}", self.0);
        let used = WORDS.saturating_sub(room.len());
        let said = str::from_utf8(&space[..used]).unwrap_or("");
        f.write_str(
            said.split_once(" (os error ")
                .map_or(said, |(words, _)| words),
        )
    }
}

// What a line is about, a file or a word of the command, and where the operator is told. Nobody is told where that takes no line.
#[derive_where(Clone, Copy)]
pub struct Subject<'a, E> {
    pub err: &'a E,
    pub name: &'a [u8],
}

// A piece of a line. Nobody is told where standard error does not take it; the next piece may be taken.
fn put(err: &impl Print, piece: impl Display + Drop) {
    let _ = print!(err; "{piece}");
}

impl<'a, E: Print> Subject<'a, E> {
    // The start of a line about it.
    fn begin(self) {
        put(self.err, "pfcp-restore: ");
        let _ = self.err.write_all(self.name);
    }

    // What is wrong with it.
    pub fn refused(self, why: impl Display + Drop) -> Failure {
        self.begin();
        put(self.err, ": ");
        put(self.err, why);
        put(self.err, "\n");
        Failure::Refused
    }

    // The start of a line about a request of it, the first being 1.
    fn begin_request(self, number: u64) {
        self.begin();
        put(self.err, format_args!(": request {number}"));
    }

    // What is wrong with a request of it.
    pub fn refused_request(self, number: u64, why: impl Display + Drop) -> Failure {
        self.begin_request(number);
        put(self.err, " ");
        put(self.err, why);
        put(self.err, "\n");
        Failure::Refused
    }

    // A request of it was answered with another cause than acceptance.
    pub fn refused_cause(self, number: u64, why: impl Display + Drop) -> Failure {
        self.begin_request(number);
        put(self.err, format_args!(" {why}\n"));
        Failure::Refused
    }

    // Another name, told of in the same place.
    pub fn named(self, name: &'a [u8]) -> Subject<'a, E> {
        Subject {
            err: self.err,
            name,
        }
    }

    // A call of the system on it has failed.
    pub fn failed(self, why: &io::Error) -> Failure {
        self.refused(Words(why))
    }
}

// What is wrong with the command as a whole.
pub fn refused(err: &impl Print, why: impl Display + Drop) -> Failure {
    put(err, "pfcp-restore: ");
    put(err, why);
    put(err, "\n");
    Failure::Refused
}

pub fn usage(err: &impl Print) -> Failure {
    let _ = println!(err;
        "usage: pfcp-restore write TABLE FILE [IPV4] [IPV6], or pfcp-restore run FILE TABLE NEW"
    );
    Failure::WrongArguments
}
