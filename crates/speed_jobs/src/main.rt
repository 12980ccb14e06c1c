//! Jobs that a user waits for, on inputs that a seed makes: `bench/run` times them in two checkouts. Prints a digest of
//! all that the jobs wrote: each reply and table, the text of each log, each verdict, and at the end the content of the store.
//!
//!     speed_jobs play SITES RECORDS HOLDERS EVENTS ROUNDS SEED
//!     speed_jobs site SITES RECORDS HOLDERS CALLS ROUNDS SEED
//!     speed_jobs judge SITES RECORDS HOLDERS CALLS ROUNDS SEED
#![tactic(auto)]

mod digest;
mod jobs;
mod logs;
mod random;
mod scripts;
mod stored;

use std::env;
use std::process::ExitCode;

fn main(rt: HostRuntime) -> ExitCode {
    let Ok(all) = env::args(&rt) else {
        return ExitCode::from(6);
    };
    let words: Result<Vec<String>, std::alloc::AllocError> = all.collect(rt.alloc());
    let Ok(words) = words else {
        return ExitCode::from(6);
    };
    let Some(size) = jobs::size_in(words.as_slice()) else {
        return ExitCode::from(2);
    };
    match jobs::digest_of(rt.alloc(), words.as_slice(), size) {
        Some(digest) => {
            let _ = rt.println(digest);
            ExitCode::from(0)
        }
        None => ExitCode::from(6),
    }
}
