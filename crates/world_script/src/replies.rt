//! Replies of a world as lines.
ghost use Rattle.std.specs.Prelude.{◌≡◌, ◌++◌, string_bytes, IfOk};
ghost use Rattle.world_script.specs.Replies.{world_reply_text, reply_line};

use multi_site_world::WorldReply;
use script_text::push_reply;
use std::alloc::AllocError;
use text_parts::push_field;

/// Writes a reply, and LF.
pub fn push_reply_line(text: &mut String, reply: &WorldReply) -> Result<(), AllocError>
    ensures { IfOk result (λ _. string_bytes text.new ≡ string_bytes text.old ++ reply_line reply.now) }
{
    push_world_reply(text, reply)?;
    text.push_str("\n")
}

fn push_world_reply(text: &mut String, reply: &WorldReply) -> Result<(), AllocError>
    ensures { IfOk result (λ _. string_bytes text.new ≡ string_bytes text.old ++ world_reply_text reply.now) }
{
    match reply {
        WorldReply::Core(reply) => push_reply(text, reply),
        WorldReply::Sent(k) => push_field(text, "sent ", *k),
        WorldReply::Restarted => text.push_str("restarted"),
        WorldReply::Grown => text.push_str("grown"),
        WorldReply::NoSite => text.push_str("refused NoSite"),
        WorldReply::NoMessage => text.push_str("refused NoMessage"),
        WorldReply::NoGrowth => text.push_str("refused NoGrowth"),
        WorldReply::Memory => text.push_str("refused Memory"),
    }
}
