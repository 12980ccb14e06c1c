//! The commands that serve a site at once.
ghost use Rattle.std.specs.Prelude.{◌≡◌, ◌++◌, [], ◌∷◌, IfOk, option_map, string_bytes};
ghost use Rattle.command_arguments.specs.Arguments.{words_of};
ghost use Rattle.program_shell.specs.Services.{AsksOpening, LinesOfOpening, ServesOpening, behind, call_code, spoken};

use crate::noted::Noted;
use crate::one_line::OneLine;
use command_arguments::Words;
use exit_status::Status;
use line_conversation::{Conversation, RoundConversation, StreamConversation};
use live_databases::{LiveDatabases, Opening, ServiceEnd, serve_live, serve_live_rounds};
use merge_core::Layout;
use serve_engine::line_limit;
use std::alloc::{AllocError, Global};
use std::io::{Read, Write};
use text_input::{Sink, Source};

/// Answers the lines of a source, one by one. Gives the exit status, and hands source and sink back.
pub(crate) fn serve_lines<R: LiveDatabases + AllocGlobal, I: Read, O: Write, E: Write>(
    rt: &R,
    opening: Opening<'_>,
    layout: Layout,
    source: Source<I>,
    sink: Sink<O>,
    errors: &mut Sink<E>,
) -> (u8, Source<I>, Sink<O>)
    ensures { ServesOpening ⟦<Noted<StreamConversation<I, O>> as Conversation>⟧ opening.entry layout source result.1 sink result.2 errors.old errors.new result.0 }
{
    let talk = match StreamConversation::new(
        rt.alloc(),
        source,
        sink,
        line_limit(opening.service.group, opening.service.marking),
    ) {
        Ok(talk) => talk,
        Err((source, sink)) => return (Status::Memory.end(errors), source, sink),
    };
    let mut talk = Noted::new(talk);
    let ended = serve_by(rt, opening, layout, &mut talk);
    let code = ended.with_note(talk.is_outdated()).end(errors);
    let (source, sink) = talk.into_inner().into_parts();
    (code, source, sink)
}

// Serves a conversation: in rounds, where more than one call is to be committed together.
fn serve_by<R: LiveDatabases, C: RoundConversation>(
    rt: &R,
    opening: Opening<'_>,
    layout: Layout,
    talk: &mut C,
) -> ServiceEnd
    ensures { LinesOfOpening C.Conversation opening.entry layout talk.old talk.new result }
{
    if opening.together > 1 {
        return serve_live_rounds(rt, opening, layout, talk);
    }
    serve_live(rt, opening, layout, talk)
}

/// Makes one call. Gives the exit status, and hands the sink back.
pub(crate) fn ask_once<R: LiveDatabases + AllocGlobal, O: Write, E: Write>(
    rt: &R,
    opening: Opening<'_>,
    layout: Layout,
    words: &Words<'_>,
    sink: Sink<O>,
    errors: &mut Sink<E>,
) -> (u8, Sink<O>)
    ensures { AsksOpening ⟦<Noted<OneLine<'static, O>> as Conversation>⟧ opening.entry layout (words_of words.now) sink result.1 errors.old errors.new result.0 }
{
    let Ok(line) = line_of(rt.alloc(), words) else {
        return (Status::Memory.end(errors), sink);
    };
    let mut talk = Noted::new(OneLine::new(line.as_str(), sink));
    let ended = serve_live(rt, opening, layout, &mut talk);
    let code = ended.with_note(talk.is_outdated()).end(errors);
    let code = code_of(code, talk.is_refused());
    (code, talk.into_inner().into_sink())
}

// The exit status of a call: 1 where it was refused, if nothing else went wrong.
fn code_of(code: u8, refused: bool) -> u8
    ensures { result ≡ call_code code refused }
{
    if code == 0 && refused {
        return 1;
    }
    code
}

// The words as a line, with a blank between them.
fn line_of(alloc: Global, words: &Words<'_>) -> Result<String, AllocError>
    ensures { IfOk result (λ line. string_bytes line ≡ spoken (words_of words.now)) }
{
    let mut line = String::new(alloc);
    line.push_str(words.first.unwrap_or(""))?;
    push_word(&mut line, words.second)?;
    push_word(&mut line, words.third)?;
    push_word(&mut line, words.fourth)?;
    Ok(line)
}

// Writes a blank and a word, if there is one.
fn push_word(line: &mut String, word: Option<&str>) -> Result<(), AllocError>
    ensures { IfOk result (λ _. string_bytes line.new ≡ string_bytes line.old ++ behind (option_map (λ t. t.now) word.entry ∷ [])) }
{
    if let Some(word) = word {
        line.push_str(" ")?;
        line.push_str(word)?;
    }
    Ok(())
}
