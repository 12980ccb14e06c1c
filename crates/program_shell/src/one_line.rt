//! A conversation of one line.
use line_conversation::{Conversation, Next};
use std::io::Write;
use std::marker::Model;
use text_input::Sink;

/// One line, and the texts for a writer.
#[derive(Drop)]
pub struct OneLine<'a, W: Write> {
    line: &'a str,
    taken: bool,
    sink: Sink<W>,
}

// Contracts see the line, whether it was heard, and the sink.
impl<'a, W: Write> Model for OneLine<'a, W> {
    ghost use Rattle.program_shell.specs.OneLine.{OneLineState};

    ghost Value = { OneLineState };

    ghost view = { λ s. record { line = s.line.now; taken = s.taken; sink = s.sink } };
}

impl<'a, W: Write> OneLine<'a, W> {
    ghost use Rattle.std.specs.Prelude.{◌≡◌, false};

    /// A conversation of which no turn took place.
    pub fn new(line: &'a str, sink: Sink<W>) -> OneLine<'a, W>
        ensures { result ≡ record { line = line.now; taken = false; sink = sink } }
    {
        OneLine {
            line,
            taken: false,
            sink,
        }
    }

    /// The sink, as the turns left it.
    pub fn into_sink(self) -> Sink<W>
        ensures { result ≡ self.entry.sink }
    {
        let OneLine {
            line: _,
            taken: _,
            sink,
        } = self;
        sink
    }
}

impl<'a, W: Write> Conversation for OneLine<'a, W> {
    ghost use Rattle.std.specs.Prelude.{◌≡◌, true};
    ghost use Rattle.text_input.specs.Source.{HasFault};
    ghost use Rattle.program_shell.specs.OneLine.{TookPlace};
    ghost use Rattle.program_shell.specs.Begins.{heard_nothing};

    ghost took_place = { TookPlace };

    ghost kept = { λ s. s.line };

    ghost has_ended = { λ s. s.taken ≡ true };

    ghost has_failed = { λ s. HasFault s.sink.fault };

    ghost loses = { λ s. HasFault s.sink.fault };

    ghost begins = { heard_nothing };

    fn next_line(&mut self) -> Next {
        if self.taken {
            return Next::End;
        }
        self.taken = true;
        Next::Line
    }

    fn line(&self) -> &[u8] {
        self.line.as_bytes()
    }

    fn tell(&mut self, text: &str) -> bool {
        self.sink.write_and_flush(text)
    }
}
