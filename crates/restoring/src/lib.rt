// The program `pfcp-restore`: a stored table becomes a file of restoration requests, and such a file is run on an empty table.
//
//     pfcp-restore write TABLE FILE [IPV4] [IPV6]    the requests of a stored table, in its order, nothing between
//     pfcp-restore run FILE TABLE NEW                an empty table with TABLE's settings, the file's requests run on it, the result into NEW
//
// Before each request of the file stands an octet with its peer, 1 or 2 (02 (xiv)): a request does not say whose session it restores.
//
// The work is a call that answers whether it is done, and otherwise the exit status: 1 refused, 2 wrong arguments, 3 done, but the new table
// differs from the stored one. Every refusal is one line on standard error. What is written stands beside its place until all of it is there,
// and is then renamed; a refusal leaves nothing.
#![tactic(auto)]

mod file;
mod names;
mod requests;
mod run;
mod say;
mod write;

pub use say::Failure;
use std::env::Env;
use std::random::RandomSource;
use std::rt::Files;

// Reads the program's arguments and does what they ask; err is standard error.
pub fn pfcp_restore<R: Env + Files + Print + RandomSource>(
    rt: &R,
    err: &impl Print,
) -> Result<(), Failure> {
    let n = names::count(rt);
    match names::argument(rt, 1, &mut [0u8; 8]) {
        Ok(b"write") => write::arguments(rt, err, n),
        Ok(b"run") => run::arguments(rt, err, n),
        _ => Err(say::usage(err)),
    }
}
