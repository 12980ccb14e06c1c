//! The engine of `site`.
ghost use Rattle.std.specs.Prelude.{◌≡◌, ◌<◌, false};
ghost use Rattle.desk_log.specs.Desk.{IsMadeFor, is_frozen};
ghost use Rattle.site_script.specs.Served.{SameOpening};
ghost use Rattle.site_engine.specs.Sites.{EndsSite};
ghost use Rattle.site_engine.specs.SiteSteps.{AnswersLines, ServesInput, opening_status};

use desk_log::{Desk, OpenError};
use durable_keeper::Keeper;
use exit_status::{Status, StoreRefusal, write_too_long};
use layout_file::LayoutFault;
use merge_core::Layout;
use site_script::serve_script;
use std::alloc::Global;
use std::io::{Read, Write};
use text_input::{InputError, Sink, Source, read_input};

/// The places of the log of an opening.
const LOG_PLACES: usize = 65_536;

/// The pass of the script's calls.
const PASS: u16 = 0;

/// Serves a site from what its keeper kept: reads the whole input as a script, and writes the replies to its lines, up
/// to the first that can't be read. Hands the keeper back, which keeps what the replies tell. The caller shows, where
/// there is such a site, that the keeper was made for it.
pub fn site_engine<R: Read, W: Write, K: Keeper>(
    alloc: Global,
    keeper: K,
    layout: Layout,
    site: u16,
    source: &mut Source<R>,
    sink: &mut Sink<W>,
) -> (Status, K)
    requires { site < layout.sites → IsMadeFor K.Keeper keeper layout site }
    ensures made_for { site < layout.sites → IsMadeFor K.Keeper result.1 layout site }
    ensures ended { EndsSite K.Keeper layout site keeper result.1 source.old source.new sink.old sink.new result.0 }
{
    let mut desk = match Desk::open(alloc, keeper, layout, site, LOG_PLACES) {
        Ok(desk) => desk,
        Err((error, keeper)) => return (opening_status(error), keeper),
    };
    let ended = serve_input(alloc, &mut desk, source, sink);
    (ended, desk.into_keeper())
}

/// How an engine ends whose site was not opened. The numbers of passes and of places of the log are the engine's own, so
/// they are never refused.
pub fn opening_status(error: OpenError) -> Status
    ensures { result ≡ opening_status error }
{
    match error {
        OpenError::BadSite => Status::NoLayout(LayoutFault::NoSite),
        OpenError::WrongCounters => Status::NoStore(StoreRefusal::WrongCounters),
        OpenError::WrongSessions => Status::NoStore(StoreRefusal::WrongSessions),
        OpenError::StoreFault => Status::NoStore(StoreRefusal::StoreFault),
        OpenError::BadPasses | OpenError::BadLimit | OpenError::Memory => Status::Memory,
    }
}

// Serves the lines of the input at an open desk.
fn serve_input<R: Read, W: Write, K: Keeper>(
    alloc: Global,
    desk: &mut Desk<K>,
    source: &mut Source<R>,
    sink: &mut Sink<W>,
) -> Status
    requires { is_frozen desk.old ≡ false }
    ensures opening { SameOpening desk.old desk.new }
    ensures served { ServesInput desk.old desk.new source.old source.new sink.old sink.new result }
{
    match read_input(alloc, source) {
        Ok(input) => answer_lines(alloc, desk, input.as_slice(), sink),
        Err(InputError::TooLong) => {
            if !write_too_long(sink) {
                return Status::Io;
            }
            Status::Refused
        }
        Err(InputError::Memory) => Status::Memory,
        Err(InputError::Io) => Status::Io,
    }
}

// Writes the answers to a script that was read.
fn answer_lines<W: Write, K: Keeper>(
    alloc: Global,
    desk: &mut Desk<K>,
    script: &[u8],
    sink: &mut Sink<W>,
) -> Status
    requires { is_frozen desk.old ≡ false }
    ensures opening { SameOpening desk.old desk.new }
    ensures answered { AnswersLines desk.old desk.new script.now sink.old sink.new result }
{
    let Ok(served) = serve_script(alloc, desk, PASS, script) else {
        return Status::Memory;
    };
    if !sink.write_and_flush(served.text.as_str()) {
        return Status::Io;
    }
    if desk.is_frozen() {
        return Status::Fault;
    }
    if served.whole {
        Status::Done
    } else {
        Status::Refused
    }
}
