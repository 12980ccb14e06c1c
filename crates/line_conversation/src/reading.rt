//! Reading one line.
ghost use Rattle.std.specs.Prelude.{◌≡◌, ℕ, Bool, List, [], ◌∷◌, ◌++◌, MatchBool, MatchOption};
ghost use Rattle.text_input.specs.Lines.{HasNoLf};
ghost use Rattle.line_conversation.specs.Turns.{IsLine};
ghost use Rattle.line_conversation.specs.Stream.{Cuts, Takes, ReadsLine};

use crate::ahead::Ahead;
use crate::conversation::Next;
use crate::held::Held;
use std::io::Read;
use text_input::Source;

// Takes what was read ahead into the line, up to its LF. Whether that was there.
fn take_ahead(ahead: &mut Ahead, held: &mut Held) -> bool
    ensures limit { held.new.limit ≡ held.old.limit }
    ensures taken { MatchBool result
        ((part : List ℕ) × (ahead.old ≡ part ++ 10 ∷ ahead.new) × HasNoLf part × Takes part held.old held.new)
        (HasNoLf ahead.old × (ahead.new ≡ []) × Takes ahead.old held.old held.new) }
{
    let (part, ends) = ahead.part();
    held.keep(part);
    let n = part.len();
    if ends {
        ahead.skip(n + 1);
    } else {
        ahead.skip(n);
    }
    ends
}

/// The next line, if its LF was read ahead.
pub(crate) fn cut_ahead(ahead: &mut Ahead, held: &mut Held) -> Option<Next>
    ensures limit { held.new.limit ≡ held.old.limit }
    ensures cut { MatchOption result
        (HasNoLf ahead.old × (ahead.new ≡ ahead.old) × (held.new ≡ held.old))
        (λ next. IsLine next × ((ended : Bool) → Cuts next ended ahead.old held.new.bytes held.new.limit ahead.new)) }
{
    let (part, ends) = ahead.part();
    if !ends {
        return None;
    }
    held.clear();
    held.keep(part);
    let length = part.len();
    ahead.skip(length + 1);
    Some(held.told())
}

/// Reads the next line of a source, from what was read ahead on. `ended` tells that the source has told its end, behind
/// which it is not read. Each read takes what comes at once, and none is made behind the line's LF.
pub(crate) fn read_line<R: Read>(
    source: &mut Source<R>,
    ahead: &mut Ahead,
    held: &mut Held,
    ended: &mut bool,
    reads: &mut u64,
) -> Next
    ensures limit { held.new.limit ≡ held.old.limit }
    ensures read { ReadsLine source.old source.new ahead.old ahead.new held.new ended.old ended.new reads.new result }
{
    held.clear();
    *reads = 0;
    while *reads < u64::MAX {
        if take_ahead(ahead, held) {
            return held.told();
        }
        if *ended {
            return held.end_input();
        }
        match ahead.fill(source) {
            Ok(some) => *ended = !some,
            Err(()) => return Next::Failed,
        }
        *reads += 1;
    }
    Next::Failed
}
