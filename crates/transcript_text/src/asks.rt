//! Calls of a site as lines.
ghost use Rattle.std.specs.Prelude.{◌≡◌, ◌++◌, [], ◌∷◌, string_bytes, IfOk};
ghost use Rattle.script_text.specs.Replies.{numbers_text};
ghost use Rattle.transcript_text.specs.Texts.{record_text, ask_text, call_text};

use admission_core::{Ask, Call};
use delta_codec::push_delta;
use merge_core::Layout;
use std::alloc::AllocError;
use text_parts::push_field;

/// Writes a record: its name, or `?` and its number where the layout has none of that number.
pub fn push_record(text: &mut String, layout: &Layout, r: u16) -> Result<(), AllocError>
    ensures { IfOk result (λ _. string_bytes text.new ≡ string_bytes text.old ++ record_text layout.now.records r) }
{
    let records = layout.records();
    if usize::from(r) < records.len() {
        return text.push_str(records[usize::from(r)].name.as_str());
    }
    push_field(text, "?", u64::from(r))
}

// Writes a verb, a record and a number behind them.
fn push_held(
    text: &mut String,
    layout: &Layout,
    verb: &str,
    r: u16,
    h: u64,
) -> Result<(), AllocError>
    ensures { IfOk result (λ _. string_bytes text.new ≡ string_bytes text.old ++ (verb.now ++ (record_text layout.now.records r ++ numbers_text (h ∷ [])))) }
{
    text.push_str(verb)?;
    push_record(text, layout, r)?;
    push_field(text, " ", h)
}

// Writes what a caller asks.
fn push_ask(text: &mut String, layout: &Layout, ask: Ask) -> Result<(), AllocError>
    ensures { IfOk result (λ _. string_bytes text.new ≡ string_bytes text.old ++ ask_text layout.now.records ask) }
{
    match ask {
        Ask::Read { r, h } => push_held(text, layout, "read ", r, h),
        Ask::Announce { r, h } => push_held(text, layout, "announce ", r, h),
        Ask::Quill { r, h } => push_held(text, layout, "write ", r, h),
        Ask::Leave { r, h } => push_held(text, layout, "leave ", r, h),
        Ask::Give { r, to, seats } => {
            push_held(text, layout, "give ", r, u64::from(to))?;
            push_field(text, " ", seats)
        }
        Ask::Help { r } => {
            text.push_str("help ")?;
            push_record(text, layout, r)
        }
    }
}

/// Writes a call. Linear in its text.
pub fn push_call(text: &mut String, layout: &Layout, call: &Call) -> Result<(), AllocError>
    ensures { IfOk result (λ _. string_bytes text.new ≡ string_bytes text.old ++ call_text layout.now.records call.now) }
{
    match call {
        Call::Ask(ask) => push_ask(text, layout, *ask),
        Call::Merge(delta) => {
            text.push_str("take ")?;
            push_delta(text, delta)
        }
        Call::Snapshot => text.push_str("send"),
    }
}
