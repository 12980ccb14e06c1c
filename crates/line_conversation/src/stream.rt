//! The conversation with a reader and a writer.
use crate::ahead::Ahead;
use crate::conversation::{Conversation, Next, RoundConversation};
use crate::held::Held;
use crate::reading::{cut_ahead, read_line};
use std::alloc::Global;
use std::io::{Read, Write};
use std::marker::Model;
use text_input::{Sink, Source};

/// The lines of a reader, and the texts for a writer. A line ends with LF. What follows the last LF, where it isn't empty,
/// was torn, and is no line. A line is kept up to a limit of bytes. What was read behind a line stays for the next ones,
/// so that memory is bounded by one line and one chunk of 65,536 bytes. A fault is kept for good.
#[derive(Drop)]
pub struct StreamConversation<R: Read, W: Write> {
    source: Source<R>,
    sink: Sink<W>,
    ahead: Ahead,
    held: Held,
    // The source has told its end.
    ended: bool,
    // A reading has failed.
    broken: bool,
    // How many reads the last line took.
    reads: u64,
}

// Contracts see the source, the sink, what was read ahead and is kept, and how reading ended.
impl<R: Read, W: Write> Model for StreamConversation<R, W> {
    ghost use Rattle.line_conversation.specs.Stream.{StreamState, IsStream};

    ghost Value = { StreamState };

    ghost view = { λ s. record { source = s.source; sink = s.sink; ahead = s.ahead; kept = s.held.bytes; limit = s.held.limit; ended = s.ended; broken = s.broken; reads = s.reads } };

    ghost invariant = { λ s. IsStream (record { source = s.source; sink = s.sink; ahead = s.ahead; kept = s.held.bytes; limit = s.held.limit; ended = s.ended; broken = s.broken; reads = s.reads }) };
}

impl<R: Read, W: Write> StreamConversation<R, W> {
    ghost use Rattle.std.specs.Prelude.{◌≡◌, [], false, Err, IfErr, IfOk};

    /// A conversation of which no turn took place. A line has at most so many bytes. Without memory the source and the
    /// sink are handed back.
    pub fn new(
        alloc: Global,
        source: Source<R>,
        sink: Sink<W>,
        limit: usize,
    ) -> Result<StreamConversation<R, W>, (Source<R>, Sink<W>)>
        ensures made { IfOk result (λ s. s ≡ record {
          source = source;
          sink = sink;
          ahead = [];
          kept = [];
          limit = limit;
          ended = false;
          broken = false;
          reads = 0;
        }) }
        ensures handed_back { IfErr result (λ back. back ≡ (source, sink)) }
    {
        let Ok(ahead) = Ahead::new(alloc) else {
            return Err((source, sink));
        };
        Ok(StreamConversation {
            source,
            sink,
            ahead,
            held: Held::new(alloc, limit),
            ended: false,
            broken: false,
            reads: 0,
        })
    }

    /// The source and the sink, as the turns left them.
    pub fn into_parts(self) -> (Source<R>, Sink<W>)
        ensures { result ≡ (self.source, self.sink) }
    {
        let StreamConversation {
            source,
            sink,
            ahead: _,
            held: _,
            ended: _,
            broken: _,
            reads: _,
        } = self;
        (source, sink)
    }
}

impl<R: Read, W: Write> Conversation for StreamConversation<R, W> {
    ghost use Rattle.text_input.specs.Source.{HasFault};
    ghost use Rattle.line_conversation.specs.Stream.{TookPlace, HasEnded, HasFailed};
    ghost use Rattle.line_conversation.specs.Begins.{took_nothing};

    ghost took_place = { λ first turns last. TookPlace first turns last };

    ghost kept = { λ s. s.kept };

    ghost has_ended = { HasEnded };

    ghost has_failed = { HasFailed };

    ghost loses = { λ s. HasFault s.sink.fault };

    ghost begins = { took_nothing };

    fn next_line(&mut self) -> Next {
        if self.broken {
            return Next::Failed;
        }
        let next = read_line(
            &mut self.source,
            &mut self.ahead,
            &mut self.held,
            &mut self.ended,
            &mut self.reads,
        );
        self.broken = next == Next::Failed;
        next
    }

    fn line(&self) -> &[u8] {
        self.held.bytes()
    }

    fn tell(&mut self, text: &str) -> bool {
        self.sink.write_and_flush(text)
    }
}

impl<R: Read, W: Write> RoundConversation for StreamConversation<R, W> {
    ghost use Rattle.std.specs.Prelude.{◌≡◌};
    ghost use Rattle.line_conversation.specs.Stream.{IsReady};

    ghost unread = { λ before after. after.source ≡ before.source };

    ghost is_ready = { IsReady };

    fn holds_next(&self) -> bool {
        if self.broken {
            return false;
        }
        self.ahead.has_line()
    }

    fn next_held(&mut self) -> Option<Next> {
        if self.broken {
            return None;
        }
        let next = cut_ahead(&mut self.ahead, &mut self.held)?;
        self.reads = 0;
        Some(next)
    }
}
