//! Runs of a site over a database: what it reads, how it is to end, and what it is to write.
use exit_status::Status;
use layout_file::read_layout;
use sqlite::{Alter, Connection};
use std::alloc::Global;
use stored_site::serve_over;
use test_streams::texts::TWO_SITES;
use test_streams::{Giving, Keeping, NEVER};
use text_input::{Sink, Source};

/// What a site reads: its layout and number, a script and how many blanks stand behind it, and the calls of the reader
/// and of the writer that fail.
#[derive(Clone, Copy)]
pub struct Script {
    pub toml: &'static str,
    pub site: u16,
    pub lines: &'static str,
    pub blanks: usize,
    pub read: usize,
    pub write: usize,
}

/// Site 0 of two, which reads nothing.
pub const NO_LINE: Script = Script {
    toml: TWO_SITES,
    site: 0,
    lines: "",
    blanks: 0,
    read: NEVER,
    write: NEVER,
};

/// What a run comes to: how it ends, and what it writes.
#[derive(Clone, Copy)]
pub struct Run {
    pub script: Script,
    pub status: Status,
    pub output: &'static str,
}

/// Runs a script over a database, and gives how it ends, what it writes, and the database.
pub fn served<S: Alter + Drop>(
    alloc: Global,
    connection: Connection<S>,
    script: Script,
) -> Option<(Status, Keeping, Connection<S>)> {
    let Ok(layout) = read_layout(alloc, script.toml.as_bytes()) else {
        return None;
    };
    if !connection.is_autocommit() {
        return None;
    }
    let lines = script.lines.as_bytes();
    let mut reader = Giving::new(lines, script.read).followed_by(b' ', script.blanks);
    let mut writer = Keeping::new(alloc, script.write);
    let (ended, connection) = serve_over(
        alloc,
        connection,
        layout,
        script.site,
        &mut Source::new(&mut reader),
        &mut Sink::new(&mut writer),
    );
    Some((ended, writer, connection))
}

/// The database after a run, if that comes to what it is to.
fn after<S: Alter + Drop>(
    alloc: Global,
    connection: Connection<S>,
    run: Run,
) -> Option<Connection<S>> {
    let (ended, written, connection) = served(alloc, connection, run.script)?;
    if ended == run.status && written.bytes() == run.output.as_bytes() {
        Some(connection)
    } else {
        None
    }
}

fn are_run<S: Alter>(connection: &mut Connection<S>, commands: &[&str]) -> bool {
    for command in commands {
        if connection.execute_batch(command).is_err() {
            return false;
        }
    }
    true
}

/// Whether runs over an empty database in which commands were run before come to what they are to, in turn.
fn go_over<S: Alter + Drop>(
    alloc: Global,
    empty: Connection<S>,
    commands: &[&str],
    runs: &[Run],
) -> bool {
    let mut connection = empty;
    if !are_run(&mut connection, commands) {
        return false;
    }
    for run in runs {
        match after(alloc, connection, *run) {
            Some(next) => connection = next,
            None => return false,
        }
    }
    true
}

/// Commands, and the runs that follow them.
pub type Story = (&'static [&'static str], &'static [Run]);

fn goes(alloc: Global, story: Story) -> bool {
    match Connection::open_in_memory(alloc) {
        Ok(empty) => go_over(alloc, empty, story.0, story.1),
        Err(_) => false,
    }
}

/// The first story that goes otherwise than it is told, over databases in memory.
pub fn wrong_story(alloc: Global, stories: &[Story]) -> Option<usize> {
    let mut at = 0usize;
    for story in stories {
        if !goes(alloc, *story) {
            return Some(at);
        }
        at = at.saturating_add(1);
    }
    None
}
