//! The engine of `play`.
ghost use Rattle.std.specs.Prelude.{◌≡◌, ◌++◌, string_bytes, IfOk};
ghost use Rattle.audit_report.specs.Tables.{seat_table, session_table};
ghost use Rattle.multi_site_world.specs.World.{World as ModelWorld};
ghost use Rattle.multi_site_world.specs.Worlds.{StandsForWorld};
ghost use Rattle.play_engine.specs.Plays.{AnswersScript, EndsPlay, first_sites, tables_text};

use audit_report::{seat_table, session_table};
use exit_status::{Status, write_too_long};
use layout_file::LayoutFault;
use merge_core::Layout;
use multi_site_world::{GrowthError, World};
use std::alloc::{AllocError, Global};
use std::io::{Read, Write};
use text_input::{InputError, Sink, Source, read_input};
use world_script::play;

/// Reads the whole input as a script and writes the replies of a world to its lines, up to the first that can't be
/// read; and then the world's tables, where the script is whole and they are asked for. The first sites begin under
/// the layout of so many sites, or all under the whole one.
pub fn play_engine<R: Read, W: Write>(
    alloc: Global,
    layout: Layout,
    first: Option<u16>,
    tables: bool,
    source: &mut Source<R>,
    sink: &mut Sink<W>,
) -> Status
    ensures { EndsPlay layout first tables source.old source.new sink.old sink.new result }
{
    let first = first_sites(first, &layout);
    let mut world = match World::grown(alloc, layout, first) {
        Ok(world) => world,
        Err(GrowthError::BadGrowth) => return Status::NoLayout(LayoutFault::BadGrowth),
        Err(GrowthError::Memory) => return Status::Memory,
    };
    match read_input(alloc, source) {
        Ok(input) => answer_script(alloc, &mut world, tables, input.as_slice(), sink),
        Err(InputError::TooLong) => {
            if !write_too_long(sink) {
                return Status::Io;
            }
            Status::Refused
        }
        Err(InputError::Memory) => Status::Memory,
        Err(InputError::Io) => Status::Io,
    }
}

// How many sites begin together.
fn first_sites(first: Option<u16>, layout: &Layout) -> u16
    ensures { result ≡ first_sites first layout.now }
{
    match first {
        Some(first) => first,
        None => layout.sites(),
    }
}

// Writes the answer to a script that was read.
fn answer_script<W: Write>(
    alloc: Global,
    world: &mut World,
    tables: bool,
    script: &[u8],
    sink: &mut Sink<W>,
) -> Status
    ensures { (m : ModelWorld) → StandsForWorld m world.old
        → AnswersScript m world.old.layout.records tables script.now sink.old sink.new result }
{
    let Ok(played) = play(alloc, world, script) else {
        return Status::Memory;
    };
    let mut text = played.text;
    if !played.whole {
        if !sink.write_and_flush(text.as_str()) {
            return Status::Io;
        }
        return Status::Refused;
    }
    if push_tables(alloc, &mut text, tables, world).is_err() {
        return Status::Memory;
    }
    if !sink.write_and_flush(text.as_str()) {
        return Status::Io;
    }
    Status::Done
}

// Writes the tables of a world, where they are asked for.
fn push_tables(
    alloc: Global,
    text: &mut String,
    tables: bool,
    world: &World,
) -> Result<(), AllocError>
    ensures { IfOk result (λ _. (m : ModelWorld) → StandsForWorld m world.now
        → string_bytes text.new ≡ string_bytes text.old ++ tables_text tables m) }
{
    if !tables {
        return Ok(());
    }
    let seats = seat_table(alloc, world)?;
    let sessions = session_table(alloc, world)?;
    text.push_str(seats.as_str())?;
    text.push_str(sessions.as_str())?;
    Ok(())
}
