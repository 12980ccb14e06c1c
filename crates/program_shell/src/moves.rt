//! The commands that move a site's store to the next generation of its group, and build a lost site again.
ghost use Rattle.std.specs.Prelude.{◌≡◌, [], ◌∷◌, IfOk};
ghost use Rattle.program_shell.specs.Moves.{AnswersInput, EndsRebuild, EndsRegroup, EndsWriting, EndsWritingLine, RebuildsTo};

use exit_status::{Status, write_too_long};
use live_databases::{LiveDatabases, RebuildEnd, ServiceEnd, move_live};
use merge_core::Layout;
use rebuild_engine::write_stop;
use std::alloc::{AllocError, Global};
use std::io::{Read, Write};
use text_input::{InputError, Sink, Source, read_input};

/// Moves the store of a site to the next generation of its group, and writes the text that tells all that the site knows.
/// Gives the exit status.
pub(crate) fn regroup_site<R: LiveDatabases + AllocGlobal, O: Write, E: Write>(
    rt: &R,
    path: &str,
    layout: Layout,
    site: u16,
    group: &str,
    sink: &mut Sink<O>,
    errors: &mut Sink<E>,
) -> u8
    ensures { EndsRegroup layout site group.now sink.old sink.new errors.old errors.new result }
{
    let ended = match move_live(rt, path, layout, site, group) {
        Ok(text) => write_line(text.as_str(), sink),
        Err(ended) => ended,
    };
    ended.end(errors)
}

// Writes a text and LF. How the program ends.
fn write_line<O: Write>(text: &str, sink: &mut Sink<O>) -> ServiceEnd
    ensures { EndsWritingLine text.now sink.old sink.new result }
{
    if sink.write(text) && sink.write_and_flush("\n") {
        return ServiceEnd::Ended(Status::Done);
    }
    ServiceEnd::Ended(Status::Io)
}

// Writes a text. How the program ends.
fn write_text<O: Write>(text: &str, sink: &mut Sink<O>) -> ServiceEnd
    ensures { EndsWriting text.now sink.old sink.new result }
{
    if sink.write_and_flush(text) {
        return ServiceEnd::Ended(Status::Done);
    }
    ServiceEnd::Ended(Status::Io)
}

/// Builds a site again of the lines of a source, makes its store, and writes what it begins with. Gives the exit status.
pub(crate) fn rebuild_site<R: LiveDatabases + AllocGlobal, I: Read, O: Write, E: Write>(
    rt: &R,
    path: &str,
    layout: Layout,
    site: u16,
    others: &[u16],
    name: &str,
    source: &mut Source<I>,
    sink: &mut Sink<O>,
    errors: &mut Sink<E>,
) -> u8
    ensures { EndsRebuild layout site others.now name.now source.old source.new sink.old sink.new errors.old errors.new result }
{
    let ended = rebuild_to(rt, path, layout, site, others, name, source, sink);
    ended.end(errors)
}

// The same, but for what is said at the end.
fn rebuild_to<R: LiveDatabases + AllocGlobal, I: Read, O: Write>(
    rt: &R,
    path: &str,
    layout: Layout,
    site: u16,
    others: &[u16],
    name: &str,
    source: &mut Source<I>,
    sink: &mut Sink<O>,
) -> ServiceEnd
    ensures { RebuildsTo layout site others.now name.now source.old source.new sink.old sink.new result }
{
    match read_input(rt.alloc(), source) {
        Ok(input) => answer_input(rt, path, layout, site, others, name, input.as_slice(), sink),
        Err(InputError::TooLong) => {
            if !write_too_long(sink) {
                return ServiceEnd::Ended(Status::Io);
            }
            ServiceEnd::Ended(Status::Refused)
        }
        Err(InputError::Memory) => ServiceEnd::Ended(Status::Memory),
        Err(InputError::Io) => ServiceEnd::Ended(Status::Io),
    }
}

// Builds a site again of the bytes of an input.
fn answer_input<R: LiveDatabases + AllocGlobal, O: Write>(
    rt: &R,
    path: &str,
    layout: Layout,
    site: u16,
    others: &[u16],
    name: &str,
    bytes: &[u8],
    sink: &mut Sink<O>,
) -> ServiceEnd
    ensures { AnswersInput layout site (site ∷ others.now) name.now bytes.now sink.old sink.new result }
{
    let Ok(lost) = all_lost(rt.alloc(), site, others) else {
        return ServiceEnd::Ended(Status::Memory);
    };
    match rt.rebuild_store(path, layout, site, &lost, name, bytes) {
        Ok(text) => write_text(text.as_str(), sink),
        Err(RebuildEnd::Unbuilt(stop)) => ServiceEnd::Ended(write_stop(rt.alloc(), stop, sink)),
        Err(RebuildEnd::Ended(ended)) => ended,
    }
}

// A site, and the others that are lost.
fn all_lost(alloc: Global, site: u16, others: &[u16]) -> Result<Vec<u16>, AllocError>
    ensures { IfOk result (λ sites. sites.items ≡ site ∷ others.now) }
{
    let mut sites = Vec::new(alloc);
    sites.push(site)?;
    sites.extend_from_slice(others)?;
    Ok(sites)
}
