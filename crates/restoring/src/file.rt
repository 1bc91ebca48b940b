// Reading a stored table, and putting a new file in its place.
ghost use Rattle.std.specs.Prelude.{◌≡◌, ◌<◌, ◌≤◌, length, IfOk, IfSome};

use crate::names;
use crate::say::{Done, Failure, Subject};
use std::fs::{OpenFile, OpenOptions};
use std::io::{ErrorKind, Read};
use std::os::unix::fs::OpenOptionsExt;
use std::random::RandomSource;
use std::rt::Files;
use std::{fs, io};

// The program takes tables with room for so many sessions at most (02 (vi)); so long is such a table.
pub const MOST_SESSIONS: usize = 64;

pub const LONGEST: usize = format::HEAD + MOST_SESSIONS * format::SLOT;

// In the unit's file the stores of repeated requests of both peers follow the table (docs/layout.md). They are not read here.
const STORES: usize = 2 * store::LENGTH;

// Before there were two peers the settings and the number of sessions took 41 octets and a session 603, and the stores of up to eight control
// planes followed, each after an address of 16 octets. The limit stood where it stands now.
const OLD_HEAD: usize = 41;

const OLD_SLOT: usize = 603;

const OLD_STORE: usize = 16 + store::LENGTH;

const OLD_STORES: usize = 8 * OLD_STORE;

const SHORTER: &str = "shorter than its session limit says";

const LONGER: &str = "longer than its session limit says";

const OLD: &str =
    "of the layout before two control planes; its sessions can be brought over (docs/operators.md)";

const UNSOUND: &str = "not a sound table";

// Whether a file of so many octets has the layout before two peers, its session limit being this.
fn is_old(all: usize, limit: usize) -> bool {
    if limit > format::MAX_SESSIONS as usize {
        return false;
    }
    all.checked_sub(OLD_HEAD + limit * OLD_SLOT)
        .is_some_and(|stores| stores <= OLD_STORES && stores % OLD_STORE == 0)
}

// The table at the front of a file of so many octets in all, if it is sound and the stores or nothing follow; else what is wrong with it. Its
// limit says its length, 0 where that is not allowed.
// Stays: what the call answers goes into a place that is lent, as C lends it (a): pfcp_free_count.
fn sound(front: &[u8], all: usize, said: usize) -> Result<&[u8], &'static str>
    ensures { IfOk result (λ t. (63 ≤ length t.now) × (length t.now ≤ length front.now)) }
{
    if said < format::HEAD {
        return Err(UNSOUND);
    }
    let Some(after) = all.checked_sub(said) else {
        return Err(SHORTER);
    };
    if front.len() < said || after != 0 && after != STORES {
        return Err(LONGER);
    }
    let table = &front[..said];
    let mut free = 0u32;
    if pfcp_session::pfcp_free_count(table, &mut free) != 0 {
        return Err(UNSOUND);
    }
    Ok(table)
}

// The table at the front of a file after which so many octets follow, if this program takes it; else what is wrong with it.
fn taken(front: &[u8], rest: Option<usize>) -> Result<&[u8], &'static str>
    ensures { IfOk result (λ t. (63 ≤ length t.now) × (length t.now ≤ length front.now)) }
{
    let Some(rest) = rest else {
        return Err(LONGER);
    };
    if front.len() < format::HEAD {
        return Err(SHORTER);
    }
    let limit = octets::read(front, format::LIMIT, 2) as usize;
    let said = pfcp_session::pfcp_table_length(limit as u32);
    if format::HEAD <= said && MOST_SESSIONS < limit {
        return Err("the table has room for more than 64 sessions");
    }
    // A few lengths are both an old and a new layout's, so this is said of a broken one too.
    let all = front.len().saturating_add(rest);
    sound(front, all, said).map_err(|why| if is_old(all, limit) { OLD } else { why })
}

// Opens the file of that name to read it.
pub fn open<R: Files>(rt: &R, path: &[u8]) -> io::Result<R::File> {
    fs::open(rt, names::text(path)?)
}

// How many octets the file still has; nothing where it has more than those of all stores that may follow a table.
fn rest_of(file: &mut impl Read) -> io::Result<Option<usize>>
    ensures { IfOk result (λ rest. IfSome rest (λ n. n ≤ 213384)) }
{
    let rest = io::copy(&mut file.by_ref().take(OLD_STORES as u64), &mut io::sink())?;
    if input::read_full(file, &mut [0u8; 1])? == 0 {
        Ok(Some((rest as usize).min(OLD_STORES)))
    } else {
        Ok(None)
    }
}

// Reads the file of that name: how many octets stand at the front of t then, and how many follow.
fn read_front(rt: &impl Files, path: &[u8], t: &mut [u8]) -> io::Result<(usize, Option<usize>)>
    ensures within { IfOk result (λ read. read.0 ≤ length t.new) }
    ensures rest { IfOk result (λ read. IfSome read.1 (λ n. n ≤ 213384)) }
{
    let mut file = open(rt, path)?;
    let held = input::read_full(&mut file, t)?;
    Ok((held, rest_of(&mut file)?))
}

// Reads the stored table of that name, which has to be sound.
pub fn read_table<'a>(
    rt: &impl Files,
    about: Subject<'_, impl Print>,
    room: &'a mut [u8; LONGEST],
) -> Result<&'a [u8], Failure>
    ensures { IfOk result (λ t. (63 ≤ length t.now) × (length t.now ≤ 38721)) }
{
    let (held, rest) = read_front(rt, about.name, room).map_err(|why| about.failed(&why))?;
    taken(&room[..held], rest).map_err(|why| about.refused(why))
}

// Opens the file of that name to read and write it, as it is.
fn open_update<R: Files>(rt: &R, path: &[u8]) -> io::Result<R::File> {
    OpenOptions::new()
        .read(true)
        .write(true)
        .open(rt, names::text(path)?)
}

// Refuses a name that is not free and of no file that can be replaced. A device or a pipe cannot be made to keep its octets, which is how it
// is told from a file.
fn check_replaceable(rt: &impl Files, about: Subject<'_, impl Print>) -> Result<(), Failure> {
    match open_update(rt, about.name) {
        Ok(file) => file
            .sync_all()
            .map_err(|_| about.refused("not a file that can be replaced")),
        Err(why) if why.kind() == ErrorKind::IsADirectory => Err(about.failed(&why)),
        Err(_) => Ok(()),
    }
}

// The letters that stand for the X's of a name, and how many names are tried, as the C library tries them.
const LETTERS: [u8; 62] = *b"abcdefghijklmnopqrstuvwxyzABCDEFGHIJKLMNOPQRSTUVWXYZ0123456789";

const TRIES: u32 = 62 * 62 * 62;

// What the system says of what it cannot take: Linux's number.
const INVALID: i32 = 22;

// Puts six letters, which are up to chance, at the end of name; a name without room for them is refused, as mkstemp refuses it.
fn put_letters(rt: &impl RandomSource, name: &mut [u8]) -> io::Result<()> {
    let Some(letters) = name.last_chunk_mut::<6>() else {
        return Err(io::Error::from_raw_os_error(INVALID));
    };
    let mut chance = [0u8; 6];
    rt.fill_bytes(&mut chance)?;
    *letters = chance.map(|x| LETTERS[x as usize % LETTERS.len()]);
    Ok(())
}

// A new file of that name, for its user alone.
fn create_new<R: Files>(rt: &R, name: &[u8]) -> io::Result<R::File> {
    OpenOptions::new()
        .read(true)
        .write(true)
        .create_new(true)
        .mode(0o600)
        .open(rt, names::text(name)?)
}

// A new file, whose name is name with other letters at its end.
fn create_temp<R: Files + RandomSource>(rt: &R, name: &mut [u8]) -> io::Result<R::File> {
    for _ in 1..TRIES {
        put_letters(rt, name)?;
        match create_new(rt, name) {
            Err(why) if why.kind() == ErrorKind::AlreadyExists => {}
            created => return created,
        }
    }
    put_letters(rt, name)?;
    create_new(rt, name)
}

// Brings the octets of a file to the device, and closes it.
fn finish(file: impl OpenFile + Drop) -> io::Result<()> {
    file.sync_all()
}

// Gives a file another name, in the place of what has that.
fn rename(rt: &impl Files, from: &[u8], to: &[u8]) -> io::Result<()> {
    fs::rename(rt, names::text(from)?, names::text(to)?)
}

// Fills a file beside another and ends it: its octets reach the device, the operator is told, and it takes the other's name.
fn settle<R, F>(
    rt: &R,
    about: Subject<'_, impl Print>,
    name: &[u8],
    mut file: R::File,
    fill: F,
) -> Result<(), Failure>
where
    R: Files + Print,
    F: FnOnce(&mut R::File) -> Result<Done, Failure>,
    requires { F.IsAlwaysCallable fill }
{
    let done = fill(&mut file)?;
    finish(file).map_err(|why| about.failed(&why))?;
    println!(rt; "{done}").map_err(|why| about.named(b"standard output").failed(&why))?;
    rename(rt, name, about.name).map_err(|why| about.failed(&why))
}

// A new file in the place of what has that name, with what fill writes: where one step fails, the file beside it is gone.
pub fn replace<R, F>(rt: &R, about: Subject<'_, impl Print>, fill: F) -> Result<(), Failure>
where
    R: Files + Print + RandomSource,
    F: FnOnce(&mut R::File) -> Result<Done, Failure>,
    requires { F.IsAlwaysCallable fill }
{
    let mut room = [0u8; names::ROOM];
    let Some(name) = names::beside(about.name, &mut room) else {
        return Err(about.refused("the name is too long"));
    };
    check_replaceable(rt, about)?;
    let file = create_temp(rt, name).map_err(|why| about.failed(&why))?;
    let settled = settle(rt, about, name, file, fill);
    if settled.is_err() {
        remove(rt, name);
    }
    settled
}

// Removes the file of that name, where it is there.
fn remove(rt: &impl Files, name: &[u8]) {
    if let Ok(words) = names::text(name) {
        let _ = fs::remove_file(rt, words);
    }
}
