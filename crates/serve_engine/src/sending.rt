//! The mark in front of a delta that a site sends.
ghost use Rattle.std.specs.Prelude.{◌≡◌, ◌++◌, string_bytes, IfOk};
ghost use Rattle.merge_core.specs.Layout.{LayoutState};
ghost use Rattle.admission_model.specs.View.{View};
ghost use Rattle.admission_model.specs.Serving.{reply_of};
ghost use Rattle.live_site.specs.Live.{line_of};
ghost use Rattle.serve_engine.specs.Requests.{Terms};
ghost use Rattle.serve_engine.specs.Answers.{reply_line};
ghost use Rattle.serve_engine.specs.Steps.{AreTerms, is_marked, space_before};

use crate::checksums::fill_checksum;
use crate::marks::{Marker, Marking, push_zero_mark};
use admission_core::Call;
use std::alloc::AllocError;

// How many bytes of a mark stand between the group's word and the digits of the text's digest.
const BETWEEN: usize = 18;

// Whether the answer to a call is a delta that is marked.
fn is_marked(call: &Call, marking: Marking) -> bool
    ensures { result ≡ is_marked call.now marking }
{
    match call {
        Call::Ask(_) => false,
        Call::Merge(_) => false,
        Call::Snapshot => match marking {
            Marking::Marked => true,
            Marking::Plain => false,
        },
    }
}

/// Writes what stands in front of the answer to a call: the mark of a delta, with zeros for the digits of its text's
/// digest, or nothing.
pub(crate) fn push_space(text: &mut String, marker: &Marker, call: &Call) -> Result<(), AllocError>
    ensures { IfOk result (λ _. (terms : Terms) (layout : LayoutState) → AreTerms terms layout marker.now
        → string_bytes text.new ≡ string_bytes text.old ++ space_before terms call.now) }
{
    if is_marked(call, marker.marking) {
        return push_zero_mark(text, marker);
    }
    Ok(())
}

/// Writes the digits of the digest of the delta that was answered into its mark. Linear in the answer where it is a delta
/// that is marked.
pub(crate) fn finish_mark(text: &mut String, marker: &Marker, call: &Call)
    ensures { (terms : Terms) (layout : LayoutState) (v : View) → AreTerms terms layout marker.now
        → string_bytes text.old ≡ space_before terms call.now ++ line_of (reply_of v call.now)
        → string_bytes text.new ≡ reply_line terms (reply_of v call.now) }
{
    if is_marked(call, marker.marking) {
        fill_checksum(text, marker.group.len() + BETWEEN);
    }
}
