//! The program: delta texts in, the text of the joined book out; a script of several sites in, its replies out; the calls
//! of one site in, the replies of its store's desk out; or closed logs in, the verdict on them out.
#![tactic(auto)]

use std::fs;
use std::process::ExitCode;

fn main(rt: HostRuntime) -> ExitCode {
    // Of a standard stream that the caller has closed a folder takes the place, which can neither be read nor written. So no
    // file that is opened later does, and none gets what is meant for the stream.
    let _closed = (fs::open(&rt, "/"), fs::open(&rt, "/"), fs::open(&rt, "/"));
    ExitCode::from(program_shell::run(&rt, &rt))
}
