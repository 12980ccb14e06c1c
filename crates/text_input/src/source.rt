ghost use Rattle.std.specs.Prelude.{◌≡◌, ◌≢◌, ◌≤◌, ◌<◌, IfErr, IfOk, None, Some, length, take};
ghost use Rattle.std.specs.Io.KnownBytes.{Consumes, IsAtEnd, Keeps};
ghost use Rattle.std.specs.IoError.{error_kind};
ghost use Rattle.text_input.specs.Input.{TellsFault};
ghost use Rattle.text_input.specs.Source.{IsNoInterruption, SourceState};

use crate::InputError;
use std::io;
use std::io::{ErrorKind, Read};
use std::marker::Model;

/// A reader, and the fault that a read of it met: with it a contract can say that a failed read is told where
/// there was one, and never elsewhere.
#[derive(Drop)]
pub struct Source<R: Read> {
    reader: R,
    // Only contracts read it.
    fault: Option<ErrorKind>,
}

// Contracts see the bytes that are to come, and the fault.
impl<R: Read> Model for Source<R> {
    ghost Value = { SourceState };

    ghost view = { λ s. record { remaining = R.remaining s.reader; fault = s.fault } };

    ghost invariant = { λ s. IsNoInterruption s.fault };
}

impl<R: Read> Source<R> {
    /// The reader, of which no read has failed.
    pub fn new(reader: R) -> Source<R>
        ensures { result ≡ record { remaining = R.remaining reader; fault = None } }
    {
        Source {
            reader,
            fault: None,
        }
    }

    /// Reads what comes at once: how many bytes, and 0 at the end, or where the part has no room. A read that is
    /// interrupted is tried again. Any other fault is kept, and told as want of memory or as a failure.
    pub fn read(&mut self, part: &mut [u8]) -> Result<usize, InputError>
        ensures read { IfOk result (λ n. (n ≤ length part.new)
            × Consumes self.old.remaining self.new.remaining (take n part.new)
            × (n ≡ 0 → 0 < length part.new → IsAtEnd self.new.remaining)
            × (self.new.fault ≡ self.old.fault)) }
        ensures failed { IfErr result (λ e. Keeps self.old.remaining self.new.remaining × TellsFault e self.new.fault) }
    {
        match read_again(&mut self.reader, part) {
            Ok(n) => Ok(n),
            Err(kind) => {
                self.fault = Some(kind);
                Err(error_of(kind))
            }
        }
    }
}

// Reads until a read is not interrupted, or tells the kind of the fault that it met.
fn read_again<R: Read>(reader: &mut R, part: &mut [u8]) -> Result<usize, ErrorKind>
    ensures read { IfOk result (λ n. (n ≤ length part.new)
        × Consumes (R.remaining reader.old) (R.remaining reader.new) (take n part.new)
        × (n ≡ 0 → 0 < length part.new → IsAtEnd (R.remaining reader.new))) }
    ensures failed { IfErr result (λ kind. Keeps (R.remaining reader.old) (R.remaining reader.new) × IsNoInterruption (Some kind)) }
{
    for _ in 0..u64::MAX {
        match reader.read(part) {
            Ok(n) => return Ok(n),
            Err(error) => {
                if let Some(kind) = fault_of(&error) {
                    return Err(kind);
                }
            }
        }
    }
    Err(ErrorKind::Other)
}

// The kind of a fault; an interruption is none.
fn fault_of(error: &io::Error) -> Option<ErrorKind>
    ensures retried { error_kind error.now ≡ ErrorKind.Interrupted → result ≡ None }
    ensures ended { error_kind error.now ≢ ErrorKind.Interrupted → result ≡ Some (error_kind error.now) }
{
    let kind = error.kind();
    if kind == ErrorKind::Interrupted {
        return None;
    }
    Some(kind)
}

// How a fault of this kind is told.
fn error_of(kind: ErrorKind) -> InputError
    ensures { TellsFault result (Some kind) }
{
    if kind == ErrorKind::OutOfMemory {
        return InputError::Memory;
    }
    InputError::Io
}
