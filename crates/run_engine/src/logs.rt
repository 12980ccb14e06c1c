//! The closed logs of a run as text.
ghost use Rattle.std.specs.Prelude.{◌≡◌, All, IfOk, IfSome, MatchBool};
ghost use Rattle.text_input.specs.Source.{HasFault};
ghost use Rattle.text_input.specs.Sink.{Writes};
ghost use Rattle.run_engine.specs.Logs.{MayBeWritten, WritesIfAny, logs_text};

use desk_log::Transcript;
use merge_core::Layout;
use std::alloc::{AllocError, Global};
use std::io::Write;
use text_input::Sink;
use transcript_text::transcript_text;

/// Writes the lines of all transcripts, one transcript at a time, and hands them on, where there is a sink for them. Whether
/// that succeeded; where memory runs out, some may be written. Linear in the text.
pub fn write_logs<F: Write>(
    alloc: Global,
    layout: &Layout,
    transcripts: &[Transcript],
    logs: &mut Option<Sink<F>>,
) -> Result<bool, AllocError>
    requires { All (MayBeWritten layout.now) transcripts.now }
    ensures { IfOk result (λ done. MatchBool done
        (WritesIfAny logs.old logs.new (logs_text layout.now transcripts.now))
        (IfSome logs.new (λ s. HasFault s.fault))) }
{
    match logs {
        Some(sink) => write_all(alloc, layout, transcripts, sink),
        None => Ok(true),
    }
}

// Writes them to a sink.
fn write_all<F: Write>(
    alloc: Global,
    layout: &Layout,
    transcripts: &[Transcript],
    sink: &mut Sink<F>,
) -> Result<bool, AllocError>
    requires { All (MayBeWritten layout.now) transcripts.now }
    ensures { IfOk result (λ done. MatchBool done (Writes sink.old sink.new (logs_text layout.now transcripts.now)) (HasFault sink.new.fault)) }
{
    for transcript in transcripts {
        let text = transcript_text(alloc, layout, transcript)?;
        if !sink.write(text.as_str()) {
            return Ok(false);
        }
    }
    Ok(sink.write_and_flush(""))
}
