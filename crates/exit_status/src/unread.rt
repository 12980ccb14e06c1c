//! What is written where an input is too long.
ghost use Rattle.std.specs.Prelude.{MatchBool};
ghost use Rattle.text_input.specs.Source.{HasFault};
ghost use Rattle.text_input.specs.Sink.{Writes};
ghost use Rattle.exit_status.specs.Endings.{too_long_text};

use std::io::Write;
use text_input::Sink;

/// Writes the line that refuses an input for its length, and hands it on. Whether that succeeded.
pub fn write_too_long<W: Write>(sink: &mut Sink<W>) -> bool
    ensures { MatchBool result (Writes sink.old sink.new too_long_text) (HasFault sink.new.fault) }
{
    sink.write_and_flush("input refused TooLong\n")
}
