//! The lines of an input, each a delta behind its mark.
ghost use Rattle.std.specs.Prelude.{◌≡◌, ◌==◌, ◌++◌, [], ◌∷◌, false, Ok, Err, MatchResult};
ghost use Rattle.std.specs.List.{list_any};
ghost use Rattle.merge_core.specs.Delta.{DeltaState};
ghost use Rattle.text_input.specs.Lines.{lines_of};
ghost use Rattle.rebuild_engine.specs.Lines.{AreRead, IsLineOf, StopsAt, is_from_one_of};
ghost use Rattle.rebuild_engine.specs.Steps.{IsOneStop};

use merge_core::{Delta, Layout};
use serve_engine::{TextFault, TextStop, read_delta};
use std::alloc::{AllocError, Global};
use text_input::cut_line;

/// Why a line is refused.
#[derive(Clone, Copy, Debug, PartialEq, Eq)]
pub enum LineFault {
    /// It is no text of which a site is built again.
    Text(TextFault),
    /// An earlier line is of the same site.
    Twice,
}

/// The first line that is refused.
#[derive(Clone, Copy, Debug, PartialEq, Eq)]
pub struct LineRefusal {
    /// Counted from 1.
    pub number: u64,
    pub fault: LineFault,
}

/// Why the reading of lines stopped.
#[derive(Clone, Copy, Debug, PartialEq, Eq)]
pub enum LineStop {
    /// Memory ran out.
    NoRoom,
    /// This line is refused.
    Refused(LineRefusal),
}

/// Why the reading of one line stopped.
#[derive(Clone, Copy)]
enum OneStop {
    NoRoom,
    Refused(LineFault),
}

/// The deltas of the lines of some bytes, each of another site, of which a site of the group of this name is built again; or
/// the first line that is refused. Linear in the bytes, and for each line in the layout and in the lines before.
pub fn read_deltas(
    alloc: Global,
    layout: &Layout,
    name: &str,
    alone: bool,
    bytes: &[u8],
) -> Result<Vec<Delta>, LineStop>
    ensures { MatchResult result
        (λ ds. AreRead layout.now.records name.now alone (lines_of bytes.now) ds.items)
        (λ stop. StopsAt layout.now.records name.now alone (lines_of bytes.now) stop) }
{
    let mut deltas = Vec::new(alloc);
    let mut rest = bytes;
    let mut number = 0u64;
    while !rest.is_empty() {
        let (line, tail) = cut_line(rest);
        number += 1;
        match read_line(alloc, layout, name, alone, line, &mut deltas) {
            Ok(()) => {}
            Err(OneStop::NoRoom) => return Err(LineStop::NoRoom),
            Err(OneStop::Refused(fault)) => {
                return Err(LineStop::Refused(LineRefusal { number, fault }));
            }
        }
        rest = tail;
    }
    Ok(deltas)
}

// Adds the delta of a line, if none is of the same site.
fn read_line(
    alloc: Global,
    layout: &Layout,
    name: &str,
    alone: bool,
    line: &[u8],
    deltas: &mut Vec<Delta>,
) -> Result<(), OneStop>
    ensures { MatchResult result
        (λ _. (d : DeltaState) × IsLineOf layout.now.records name.now alone line.now d × (is_from_one_of deltas.old.items d ≡ false) × (deltas.new.items ≡ deltas.old.items ++ d ∷ []))
        (λ stop. IsOneStop layout.now.records name.now alone deltas.old.items line.now stop) }
{
    let delta = match read_delta(alloc, layout, name, alone, line) {
        Ok(delta) => delta,
        Err(TextStop::NoRoom) => return Err(OneStop::NoRoom),
        Err(TextStop::Refused(fault)) => return Err(OneStop::Refused(LineFault::Text(fault))),
    };
    if is_from_one_of(deltas, &delta) {
        return Err(OneStop::Refused(LineFault::Twice));
    }
    match deltas.push(delta) {
        Ok(()) => Ok(()),
        Err(_) => Err(OneStop::NoRoom),
    }
}

// Whether one of the deltas is of the same site.
fn is_from_one_of(deltas: &[Delta], delta: &Delta) -> bool
    ensures { result ≡ is_from_one_of deltas.now delta.now }
{
    let from = delta.from_site();
    deltas.iter().any(|other| other.from_site() == from)
}
