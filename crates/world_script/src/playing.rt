//! Playing a script: its lines are carried out one by one.
ghost use Rattle.std.specs.Prelude.{◌≡◌, ◌+◌, string_bytes, IfOk, length};
ghost use Rattle.text_input.specs.Lines.{lines_of};
ghost use Rattle.multi_site_world.specs.World.{World as ModelWorld};
ghost use Rattle.multi_site_world.specs.Worlds.{StandsForWorld, is_wanting};
ghost use Rattle.world_script.specs.Played.{Plays, PlaysLine};

use crate::events::event_in;
use crate::replies::push_reply_line;
use multi_site_world::{World, WorldReply};
use script_text::push_unread_line;
use std::alloc::{AllocError, Global};
use text_input::cut_line;

/// What a script was answered: its lines' replies, each on a line, and whether every line was read. Where one was
/// not, the last line tells of it.
#[derive(Drop)]
pub struct Played {
    pub text: String,
    pub whole: bool,
}

/// Plays a script: each line is read, carried out and answered, up to the first that says no event. Answers an
/// error where memory ran out; the world is then the one after the lines so far.
///
/// Linear in the script and in what its events cost.
pub fn play(alloc: Global, world: &mut World, script: &[u8]) -> Result<Played, AllocError>
    ensures { IfOk result (λ played. (m : ModelWorld) → StandsForWorld m world.old
        → Plays m world.old.layout.records (lines_of script.now) played.whole (string_bytes played.text) world.new) }
{
    let mut text = String::new(alloc);
    let mut rest = script;
    let mut number = 0u64;
    while !rest.is_empty() {
        let (line, tail) = cut_line(rest);
        number += 1;
        if !play_line(world, &mut text, number, line)? {
            return Ok(Played { text, whole: false });
        }
        rest = tail;
    }
    Ok(Played { text, whole: true })
}

// Plays one line. Whether it says an event; where it does not, that is told.
fn play_line(
    world: &mut World,
    text: &mut String,
    number: u64,
    line: &[u8],
) -> Result<bool, AllocError>
    ensures layout { world.new.layout ≡ world.old.layout }
    ensures line { IfOk result (λ read. (m : ModelWorld) → StandsForWorld m world.old
        → PlaysLine m world.old.layout.records line.now number read (string_bytes text.old) (string_bytes text.new) world.new) }
{
    let Some(event) = event_in(world.layout(), line) else {
        push_unread_line(text, number)?;
        return Ok(false);
    };
    let reply = world.step(&event);
    if is_wanting(&reply) {
        return Err(AllocError);
    }
    push_reply_line(text, &reply)?;
    Ok(true)
}

// Whether an event was answered want of memory.
fn is_wanting(reply: &WorldReply) -> bool
    ensures { result ≡ is_wanting reply.now }
{
    matches!(reply, WorldReply::Memory)
}
