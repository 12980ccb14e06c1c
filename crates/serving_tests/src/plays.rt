//! The engine of `play` over scripts: worked stories and refused lines, scripts at the limits, and faults.
mod faults;
mod limits;
mod scripts;

use exit_status::Status;
use layout_file::read_layout;
use play_engine::play_engine;
use std::alloc::Global;
use std::io::Write;
use test_streams::{Giving, NEVER};
use text_input::{Sink, Source};

// How the engine ends with a reader, if there is such a layout.
fn ending<W: Write>(
    alloc: Global,
    toml: &str,
    first: Option<u16>,
    tables: bool,
    reader: &mut Giving,
    writer: &mut W,
) -> Option<Status> {
    let layout = read_layout(alloc, toml.as_bytes()).ok()?;
    let ended = play_engine(
        alloc,
        layout,
        first,
        tables,
        &mut Source::new(reader),
        &mut Sink::new(writer),
    );
    Some(ended)
}

// How the engine ends with a script, if there is such a layout.
fn end_of<W: Write>(
    alloc: Global,
    toml: &str,
    first: Option<u16>,
    tables: bool,
    script: &str,
    writer: &mut W,
) -> Option<Status> {
    let mut reader = Giving::new(script.as_bytes(), NEVER);
    ending(alloc, toml, first, tables, &mut reader, writer)
}
