//! How the engine is run in each test.
use exit_status::Status;
use layout_file::read_layout;
use run_engine::run_engine;
use std::alloc::Global;
use std::io::Write;
use std::sync::Wait;
use std::thread::Threads;
use test_streams::{Giving, Keeping, NEVER};
use text_input::{Sink, Source};

/// One site, and record a with one seat.
pub const ONE_SITE: &str =
    "sites = 1\n[[record]]\nname = \"a\"\nseats = 1\nhome = 0\nproblem = 1\n";

/// What is run: a layout, how many turns a link has, and a script. How the engine ends then, and what it writes.
pub type Story = (&'static str, u64, &'static str, Status, &'static str);

/// How the engine ends with a reader and writers, if there is such a layout.
pub fn ending<Rt: Threads + Wait + Sync, W: Write, F: Write>(
    rt: &Rt,
    alloc: Global,
    (toml, turns): (&str, u64),
    reader: &mut Giving,
    writer: &mut W,
    logs: &mut Option<Sink<F>>,
) -> Option<Status> {
    let layout = read_layout(alloc, toml.as_bytes()).ok()?;
    let ended = run_engine(
        rt,
        alloc,
        &layout,
        turns.min(1000),
        &mut Source::new(reader),
        &mut Sink::new(writer),
        logs,
    );
    Some(ended)
}

/// How the engine ends with a script, where its logs are not asked for.
pub fn end_of<Rt: Threads + Wait + Sync>(
    rt: &Rt,
    alloc: Global,
    at: (&str, u64),
    script: &str,
    writer: &mut Keeping,
) -> Option<Status> {
    let mut reader = Giving::new(script.as_bytes(), NEVER);
    let mut none: Option<Sink<Keeping>> = None;
    ending(rt, alloc, at, &mut reader, writer, &mut none)
}

/// Whether the engine ends so.
pub fn ends<Rt: Threads + Wait + Sync>(rt: &Rt, alloc: Global, story: &Story) -> bool {
    let (toml, turns, script, status, output) = *story;
    let mut writer = Keeping::new(alloc, NEVER);
    let ended = end_of(rt, alloc, (toml, turns), script, &mut writer);
    ended == Some(status) && writer.bytes() == output.as_bytes()
}
