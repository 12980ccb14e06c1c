//! The durable part from what a site tells when it begins with it.
ghost use Rattle.std.specs.Prelude.{◌≡◌, MatchResult};
ghost use Rattle.admission_core.specs.Kept.{DurableState};
ghost use Rattle.transcript_text.specs.Texts.{book_told, MayBegin};

use admission_core::{Durable, Session, kept_cells};
use merge_core::{Book, Delta, Layout};
use std::alloc::Global;
use text_parts::Unread;
use transcript_text::layout_of_run;

/// The durable part of these sessions with which a site tells this. A text that no site tells may give some part.
pub(crate) fn part_told(
    alloc: Global,
    layout: &Layout,
    site: u16,
    sites: u16,
    told: &Delta,
    sessions: Vec<Session>,
) -> Result<Durable, Unread>
    ensures { (first : DurableState) → MayBegin layout.now site sites first → told.now ≡ book_told layout.now site sites first
        → sessions.items ≡ first.sessions → MatchResult result (λ d. d ≡ first) (λ e. e ≡ Unread.Memory) }
{
    let Some(under) = layout_of_run(alloc, layout, site, sites)? else {
        return Err(Unread::Refused);
    };
    let mut book = Book::genesis(alloc, &under)?;
    if book.check(told).is_err() {
        return Err(Unread::Refused);
    }
    book.join(told);
    let cells = kept_cells(alloc, &under, site, &book)?;
    Ok(Durable::new(cells, sessions))
}
