//! Sessions as text.
ghost use Rattle.std.specs.Prelude.{◌≡◌, ◌++◌, string_bytes, IfOk};
ghost use Rattle.text_parts.specs.Lists.{joined};
ghost use Rattle.transcript_text.specs.Texts.{session_text};

use crate::asks::push_record;
use admission_core::Session;
use merge_core::Layout;
use script_text::phase_name;
use std::alloc::AllocError;
use text_parts::push_field;

// Writes a session.
fn push_session(text: &mut String, layout: &Layout, session: Session) -> Result<(), AllocError>
    ensures { IfOk result (λ _. string_bytes text.new ≡ string_bytes text.old ++ session_text layout.now.records session) }
{
    text.push_str("\"")?;
    push_record(text, layout, session.r)?;
    push_field(text, " ", session.h)?;
    text.push_str(" ")?;
    text.push_str(phase_name(session.phase))?;
    text.push_str("\"")?;
    Ok(())
}

/// Writes sessions with commas between them. Linear in their texts.
pub(crate) fn push_sessions(
    text: &mut String,
    layout: &Layout,
    sessions: &[Session],
) -> Result<(), AllocError>
    ensures { IfOk result (λ _. string_bytes text.new ≡ string_bytes text.old ++ joined (session_text layout.now.records) sessions.now) }
{
    let [first, later @ ..] = sessions else {
        return Ok(());
    };
    push_session(text, layout, *first)?;
    for session in later {
        text.push_str(",")?;
        push_session(text, layout, *session)?;
    }
    Ok(())
}
