ghost use Rattle.std.specs.Prelude.{◌≡◌, IfErr, IfOk, IfSome, MatchBool, None, Some, true, false, not};
ghost use Rattle.std.specs.Io.KnownBytes.{Appends, Keeps};
ghost use Rattle.std.specs.IoError.{error_kind};
ghost use Rattle.text_input.specs.Source.{HasFault};
ghost use Rattle.text_input.specs.Sink.{Prints, SinkState, Writes};

use std::fmt::Display;
use std::io;
use std::io::{ErrorKind, Write};
use std::marker::Model;

/// A writer, and the fault that a call of it met. After a fault nothing more is written: with this a contract can
/// say that a failed write is told where there was one, and that no text is left out or comes twice.
#[derive(Drop)]
pub struct Sink<W: Write> {
    writer: W,
    fault: Option<ErrorKind>,
    // Whether the writer may hold bytes that it has not handed on. Only contracts read it.
    holds: bool,
}

// Contracts see the bytes that were written, the fault, and whether some may not be handed on.
impl<W: Write> Model for Sink<W> {
    ghost Value = { SinkState };

    ghost view = { λ s. record { contents = W.contents s.writer; fault = s.fault; holds = s.holds } };
}

impl<W: Write> Sink<W> {
    /// The writer, which nothing was written to.
    pub fn new(writer: W) -> Sink<W>
        ensures { result ≡ record { contents = W.contents writer; fault = None; holds = false } }
    {
        Sink {
            writer,
            fault: None,
            holds: false,
        }
    }

    /// Writes the text and hands on all that was written. Whether that succeeded.
    pub fn write_and_flush(&mut self, text: &str) -> bool
        ensures written { MatchBool result (Writes self.old self.new text.now) (HasFault self.new.fault) }
        ensures held { self.old.fault ≡ None → self.new.holds ≡ not result }
        ensures ended { HasFault self.old.fault → self.new ≡ self.old }
    {
        self.write(text) && self.flush()
    }

    /// Writes what `{}` writes of the value, and hands on all that was written. Whether that succeeded.
    pub fn print_and_flush<D: Display + Drop>(&mut self, value: D) -> bool
        ensures written { MatchBool result (Prints self.old self.new (D.output value)) (HasFault self.new.fault) }
        ensures held { self.old.fault ≡ None → self.new.holds ≡ not result }
        ensures ended { HasFault self.old.fault → self.new ≡ self.old }
    {
        self.print(value) && self.flush()
    }

    /// Writes the text. Whether that succeeded.
    pub fn write(&mut self, text: &str) -> bool
        ensures written { MatchBool result
            (Appends self.old.contents self.new.contents text.now × (self.new.fault ≡ self.old.fault))
            (HasFault self.new.fault) }
        ensures held { self.old.fault ≡ None → self.new.holds ≡ true }
        ensures ended { HasFault self.old.fault → self.new ≡ self.old }
    {
        if self.fault.is_some() {
            return false;
        }
        self.holds = true;
        let answer = self.writer.write_all(text.as_bytes());
        self.keep_fault(answer)
    }

    // Writes what `{}` writes of the value. Whether that succeeded.
    fn print<D: Display + Drop>(&mut self, value: D) -> bool
        ensures written { MatchBool result
            (IfSome (D.output value) (Appends self.old.contents self.new.contents) × (self.new.fault ≡ self.old.fault))
            (HasFault self.new.fault) }
        ensures held { self.old.fault ≡ None → self.new.holds ≡ true }
        ensures ended { HasFault self.old.fault → self.new ≡ self.old }
    {
        if self.fault.is_some() {
            return false;
        }
        self.holds = true;
        let answer = self.writer.write_fmt(value);
        self.keep_fault(answer)
    }

    // Hands on what was written. Whether that succeeded.
    fn flush(&mut self) -> bool
        ensures handed_on { MatchBool result
            (Keeps self.old.contents self.new.contents × (self.new.fault ≡ self.old.fault) × (self.new.holds ≡ false))
            (HasFault self.new.fault) }
        ensures held { self.old.fault ≡ None → self.new.holds ≡ not result }
        ensures ended { HasFault self.old.fault → self.new ≡ self.old }
    {
        if self.fault.is_some() {
            return false;
        }
        let answer = self.writer.flush();
        let done = self.keep_fault(answer);
        self.holds = !done;
        done
    }

    // Keeps the fault that the writer's answer tells of. Whether it tells of none.
    fn keep_fault(&mut self, answer: io::Result<()>) -> bool
        ensures same { (self.new.contents ≡ self.old.contents) × (self.new.holds ≡ self.old.holds) }
        ensures done { IfOk answer (λ _. (result ≡ true) × (self.new.fault ≡ self.old.fault)) }
        ensures failed { IfErr answer (λ e. (result ≡ false) × (self.new.fault ≡ Some (error_kind e))) }
    {
        match answer {
            Ok(()) => true,
            Err(error) => {
                self.fault = Some(error.kind());
                false
            }
        }
    }
}
