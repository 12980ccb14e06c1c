//! The script of a run: what each line asks of a site.
ghost use Rattle.std.specs.Prelude.{◌≡◌, MatchResult};
ghost use Rattle.text_input.specs.Lines.{lines_of};
ghost use Rattle.run_engine.specs.Scripts.{IsScript, IsScriptFault, answer_to, asked_of};

use admission_core::Ask;
use merge_core::Layout;
use multi_site_world::Event;
use std::alloc::{AllocError, Global};
use text_input::cut_line;
use thiserror::Error;
use world_script::event_in;

/// The most lines of a script.
pub const MOST_LINES: usize = 16_384;

/// What a line asks, and of which site.
#[derive(Clone, Copy, Debug, PartialEq, Eq)]
pub struct Asked {
    pub site: u16,
    pub ask: Ask,
}

/// Why a line is refused, in the order in which it is judged.
#[derive(Clone, Copy, Debug, PartialEq, Eq, Error)]
pub enum LineError {
    /// There are 16,384 lines before it.
    #[error("the script has too many lines")]
    TooManyLines,
    /// It says nothing that a caller asks of a site.
    #[error("the line can't be read")]
    BadWord,
    /// The layout has no such site.
    #[error("there is no such site")]
    NoSite,
}

/// Why a script is refused.
#[derive(Clone, Copy, Debug, PartialEq, Eq, Error)]
pub enum ScriptError {
    /// The line of this number, from 1, is the first that is refused.
    #[error("line {number}: {error}")]
    Refused { number: u64, error: LineError },
    #[error("out of memory")]
    Memory,
}

/// What the lines of a script ask, in their order; or the first line that is refused. Linear in the script.
pub fn read_script(alloc: Global, layout: &Layout, script: &[u8]) -> Result<Vec<Asked>, ScriptError>
    ensures { MatchResult result
        (λ asked. IsScript layout.now (lines_of script.now) asked.items)
        (IsScriptFault layout.now (lines_of script.now)) }
{
    let mut asked = Vec::new(alloc);
    let mut rest = script;
    'lines: while !rest.is_empty() {
        let (line, tail) = cut_line(rest);
        match read_line(layout, asked.len(), line) {
            Ok(one) => {
                if asked.push(one).is_err() {
                    return Err(ScriptError::Memory);
                }
            }
            Err(error) => {
                let number = asked.len() as u64 + 1;
                return Err(ScriptError::Refused { number, error });
            }
        }
        rest = tail;
    }
    Ok(asked)
}

// What a line asks that has so many lines before it.
fn read_line(layout: &Layout, before: usize, line: &[u8]) -> Result<Asked, LineError>
    ensures { result ≡ answer_to layout.now before line.now }
{
    if before >= MOST_LINES {
        return Err(LineError::TooManyLines);
    }
    asked_of(layout, event_in(layout, line))
}

// What an event asks, where it is a call of a site of the layout.
fn asked_of(layout: &Layout, event: Option<Event>) -> Result<Asked, LineError>
    ensures { result ≡ asked_of layout.now.sites event }
{
    let Some(Event::Call(site, ask)) = event else {
        return Err(LineError::BadWord);
    };
    if site >= layout.sites() {
        return Err(LineError::NoSite);
    }
    Ok(Asked { site, ask })
}
