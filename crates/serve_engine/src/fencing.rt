//! What a site tells of whoever is inside a record: the number by which a resource knows a later session from an earlier one.
ghost use Rattle.std.specs.Prelude.{◌≡◌, ◌++◌, ◌<◌, ◌≤◌, ℕ, codes, length, string_bytes, IfOk, Option};
ghost use Rattle.admission_model.specs.declared.reply.Refusal.{Refusal};
ghost use Rattle.admission_model.specs.declared.reply.Reply.TheVariants.{Refused};
ghost use Rattle.admission_model.specs.Account.{Account};
ghost use Rattle.admission_model.specs.View.{view_of};
ghost use Rattle.admission_core.specs.Core.{IsCore, Stands};
ghost use Rattle.group_names.specs.Names.{most_generations};
ghost use Rattle.live_site.specs.Live.{line_of};
ghost use Rattle.serve_engine.specs.Answers.{field};
ghost use Rattle.serve_engine.specs.Fencing.{fence_line, fence_reason, holder_line, inside_or_not};

use crate::showing::push_no_record;
use admission_core::{Ask, Call, Refusal, Reply, SiteCore};
use fencing_laws::fence_number;
use script_text::push_reply;
use std::alloc::AllocError;
use text_parts::push_field;

// 2^44, which is more than any count of finished writers: the numbers of a group's generations are as far apart.
const GENERATION_WIDTH: u64 = 17_592_186_044_416;

/// Writes the number of a holder that is inside a record, behind its word, and LF; or why it has none. The generation is that
/// of the site's group. Linear in the sites.
pub(crate) fn push_fence(
    text: &mut String,
    core: &SiteCore,
    generation: u64,
    r: u16,
    h: u64,
) -> Result<(), AllocError>
    requires core { IsCore core.now }
    requires generation { generation ≤ most_generations }
    ensures { IfOk result (λ _. (a : Account) → Stands a core.now → string_bytes text.new ≡ string_bytes text.old ++ fence_line generation a r h) }
{
    if usize::from(r) >= core.layout().records().len() {
        return push_no_record(text);
    }
    push_of_holder(text, core, generation, r, h)
}

// The same of a record that is there.
fn push_of_holder(
    text: &mut String,
    core: &SiteCore,
    generation: u64,
    r: u16,
    h: u64,
) -> Result<(), AllocError>
    requires core { IsCore core.now }
    requires generation { generation ≤ most_generations }
    requires there { r < length core.now.layout.records }
    ensures { IfOk result (λ _. (a : Account) → Stands a core.now → string_bytes text.new ≡ string_bytes text.old ++ holder_line generation a r h) }
{
    match fence_reason(core, r, h) {
        Some(refusal) => push_refused(text, refusal),
        None => push_number(text, generation * GENERATION_WIDTH + fence_number(core, r)),
    }
}

// Writes a refusal and LF.
fn push_refused(text: &mut String, refusal: Refusal) -> Result<(), AllocError>
    ensures { IfOk result (λ _. string_bytes text.new ≡ string_bytes text.old ++ line_of (Refused refusal)) }
{
    push_reply(text, &Reply::Refused(refusal))?;
    text.push_str("\n")
}

// Writes a number behind its word, and LF.
fn push_number(text: &mut String, number: u64) -> Result<(), AllocError>
    ensures { IfOk result (λ _. string_bytes text.new ≡ string_bytes text.old ++ (field (codes "fence ") number ++ codes "\n")) }
{
    push_field(text, "fence ", number)?;
    text.push_str("\n")
}

// Why a holder has no number at a record that is there: it is not inside.
fn fence_reason(core: &SiteCore, r: u16, h: u64) -> Option<Refusal>
    requires { r < length core.now.layout.records }
    ensures { (a : Account) → Stands a core.now → result ≡ fence_reason (view_of a) r h }
{
    let left = core.reason(&Call::Ask(Ask::Leave { r, h }));
    let entered = core.reason(&Call::Ask(Ask::Quill { r, h }));
    inside_or_not(left, entered)
}

// Why a holder is not inside, by why it could not leave, and why it could not enter as a writer that waits.
fn inside_or_not(left: Option<Refusal>, entered: Option<Refusal>) -> Option<Refusal>
    ensures { result ≡ inside_or_not left entered }
{
    if let Some(refusal) = left {
        return Some(refusal);
    }
    match entered {
        Some(Refusal::NotAnnounced) => None,
        Some(Refusal::AlreadyInside) => None,
        _ => Some(Refusal::NotHere),
    }
}
