// The program `pfcp-restore` as the gate runs it, on the stored table and the file in data/. The one that is installed is this program too,
// after the main function of host/restore.c.
#![tactic(auto)]

use std::process::ExitCode;

fn main(rt: HostRuntime) -> ExitCode {
    match restoring::pfcp_restore(&rt, &rt.stderr()) {
        Ok(()) => ExitCode::SUCCESS,
        Err(failure) => failure.into(),
    }
}
