//! The jobs.
use crate::digest::Digest;
use crate::random::Random;
use crate::scripts::Size;
use crate::stored::add_content;
use crate::{logs, scripts};
use exit_status::Status;
use judge_engine::{Cut, judge_engine};
use play_engine::play_engine;
use sqlite::Connection;
use std::alloc::Global;
use stored_site::serve_over;
use text_input::{Sink, Source};

// The number that a word writes.
fn number(word: Option<&String>) -> Option<u64> {
    word?.as_str().parse::<u64>().ok()
}

/// The size that the words name behind the job.
pub(crate) fn size_in(words: &[String]) -> Option<Size> {
    Some(Size {
        sites: u16::try_from(number(words.get(2))?).ok()?,
        records: u16::try_from(number(words.get(3))?).ok()?,
        holders: number(words.get(4))?,
        lines: number(words.get(5))?,
        rounds: number(words.get(6))?,
        seed: number(words.get(7))?,
    })
}

/// The digest of all that the job writes, round by round, and of what it leaves in its store.
pub(crate) fn digest_of(alloc: Global, words: &[String], size: Size) -> Option<u64> {
    let job = words.get(1)?.as_str();
    let mut random = Random::new(size.seed);
    let mut all = Digest::new();
    if job == "play" {
        play(alloc, &mut random, size, &mut all)?;
        return Some(all.sum);
    }
    if job == "judge" {
        judge(alloc, &mut random, size, &mut all)?;
        return Some(all.sum);
    }
    if job == "site" {
        site(alloc, &mut random, size, &mut all)?;
        return Some(all.sum);
    }
    None
}

// Adds what was written by a command that carried out each line.
fn add(all: &mut Digest, ended: Status, written: Digest) -> Option<()> {
    if ended != Status::Done {
        return None;
    }
    all.add(&written.sum.to_le_bytes());
    Some(())
}

// Plays scripts.
fn play(alloc: Global, random: &mut Random, size: Size, all: &mut Digest) -> Option<()> {
    for _ in 0..size.rounds {
        let script = scripts::events(alloc, random, size)?;
        let layout = scripts::layout(alloc, size)?;
        let mut written = Digest::new();
        let mut source = Source::new(script.as_bytes());
        let mut sink = Sink::new(&mut written);
        let ended = play_engine(alloc, layout, None, true, &mut source, &mut sink);
        add(all, ended, written)?;
    }
    Some(())
}

// Judges the logs of sites. The replies and the text of the logs are part of what was written.
fn judge(alloc: Global, random: &mut Random, size: Size, all: &mut Digest) -> Option<()> {
    for _ in 0..size.rounds {
        let input = logs::logs(alloc, random, size, all)?;
        all.add(input.as_bytes());
        let layout = scripts::layout(alloc, size)?;
        let mut written = Digest::new();
        let mut source = Source::new(input.as_bytes());
        let mut sink = Sink::new(&mut written);
        let ended = judge_engine(alloc, &layout, &Cut::full(), &mut source, &mut sink);
        add(all, ended, written)?;
    }
    Some(())
}

// Serves scripts at site 0, one after the other over one store in memory, whose content is read at the end.
fn site(alloc: Global, random: &mut Random, size: Size, all: &mut Digest) -> Option<()> {
    let mut connection = Connection::open_in_memory(alloc).ok()?;
    for _ in 0..size.rounds {
        let script = scripts::calls(alloc, random, size)?;
        let layout = scripts::layout(alloc, size)?;
        let mut written = Digest::new();
        let mut source = Source::new(script.as_bytes());
        let mut sink = Sink::new(&mut written);
        if !connection.is_autocommit() {
            return None;
        }
        let (ended, back) = serve_over(alloc, connection, layout, 0, &mut source, &mut sink);
        connection = back;
        add(all, ended, written)?;
    }
    add_content(&mut connection, all)
}
