// Names of files: the arguments, and a name beside another.
ghost use Rattle.std.specs.Prelude.{◌≤◌, length, IfOk, IfSome};

use crate::say::{Failure, Subject};
use std::env::{Env, FillError};
use std::{io, str};

// Room for a name, which C reads up to a 0.
pub const ROOM: usize = 4096;

const BESIDE: &[u8; 7] = b".XXXXXX";

// One argument more than any command has.
const TOO_MANY: usize = 7;

// What the system says of a name that is too long, and of one whose octets are no text: Linux's numbers on x86-64 and aarch64.
const TOO_LONG: i32 = 36;

const NO_TEXT: i32 = 84;

// What it says where something is not there that was asked for.
const MISSING: i32 = 22;

// How many arguments there are, the program's own name among them; TOO_MANY where there are so many or more.
pub fn count(rt: &impl Env) -> usize {
    (0..TOO_MANY)
        .take_while(|i| !matches!(rt.arg(*i, &mut []), Err(FillError::NotPresent)))
        .count()
}

// Argument i, at the front of room.
pub fn argument<'a>(rt: &impl Env, i: usize, room: &'a mut [u8]) -> io::Result<&'a [u8]>
    ensures { IfOk result (λ word. length word.now ≤ length room.old) }
{
    match rt.arg(i, room) {
        Ok(n) => Ok(&room[..n]),
        Err(FillError::TooLong) => Err(io::Error::from_raw_os_error(TOO_LONG)),
        Err(FillError::NotPresent) => Err(io::Error::from_raw_os_error(MISSING)),
    }
}

// The file whose name is argument i, which stands at the front of room then; in the usage that argument is called so.
pub fn file<'a, E: Print>(
    rt: &impl Env,
    err: &'a E,
    i: usize,
    called: &[u8],
    room: &'a mut [u8; ROOM],
) -> Result<Subject<'a, E>, Failure> {
    match argument(rt, i, room) {
        Ok(name) => Ok(Subject { err, name }),
        Err(why) => Err(Subject { err, name: called }.failed(&why)),
    }
}

// The name as text, in UTF-8: the library takes no other. Any other is refused as by a file system that has only such names.
pub fn text(name: &[u8]) -> io::Result<&str> {
    str::from_utf8(name).map_err(|_| io::Error::from_raw_os_error(NO_TEXT))
}

// The name beside path, at the front of room; nothing where path is too long for that. Letters come in the place of the X's.
pub fn beside<'a>(path: &[u8], room: &'a mut [u8; ROOM]) -> Option<&'a mut [u8]>
    ensures { IfSome result (λ name. length name.now ≤ 4096) }
{
    if ROOM - BESIDE.len() <= path.len() {
        return None;
    }
    let end = path.len() + BESIDE.len();
    room[..path.len()].copy_from_slice(path);
    room[path.len()..end].copy_from_slice(BESIDE);
    Some(&mut room[..end])
}
