ghost use Rattle.std.specs.Prelude.{◌≡◌, ◌++◌, ℕ, List, [], IfOk};
ghost use Rattle.text_input.specs.Input.{ReadsInput, ReadsInto, ReadsUpTo};

use crate::{INPUT_LIMIT, Source};
use std::alloc::{AllocError, Global};
use std::io::Read;
use std::marker::Model;
use thiserror::Error;

// How many bytes one read asks for.
const CHUNK: usize = 65_536;

/// Why an input was not read.
#[derive(Clone, Copy, Debug, PartialEq, Eq, Error)]
pub enum InputError {
    /// There are more bytes than the limit.
    #[error("the input is too long")]
    TooLong,
    /// The bytes found no room, or the reader told so of its own.
    #[error("out of memory")]
    Memory,
    /// The reader failed.
    #[error("the input was not read")]
    Io,
}

/// An input, read whole.
#[derive(Debug, Drop)]
pub struct Input {
    bytes: Vec<u8>,
}

// Contracts see the list of the bytes.
impl Model for Input {
    ghost use Rattle.std.specs.Prelude.{ℕ, List};

    ghost Value = { List ℕ };

    ghost view = { λ i. i.bytes.items };
}

impl Input {
    /// The bytes.
    pub fn as_slice(&self) -> &[u8]
        ensures { result.now ≡ self.now }
    {
        self.bytes.as_slice()
    }
}

/// What takes an input in, part by part.
pub trait Accumulator {
    /// It has come from the first state to the last by taking these bytes in.
    ghost takes: { Self → List ℕ → Self → Type 0 };

    /// Takes the next part in, where that has room; where it has none, nothing is known of it any more.
    fn add(&mut self, part: &[u8]) -> Result<(), AllocError>
        ensures { (first : Self) (before : List ℕ) → takes first before self.old → IfOk result (λ _. takes first (before ++ part.now) self.new) };
}

// The bytes themselves.
impl Accumulator for Vec<u8> {
    ghost takes = { λ first bytes now. now.items ≡ first.items ++ bytes };

    fn add(&mut self, part: &[u8]) -> Result<(), AllocError> {
        self.extend_from_slice(part)
    }
}

/// Reads the whole input of an engine, of at most [`INPUT_LIMIT`] bytes.
pub fn read_input<R: Read>(alloc: Global, source: &mut Source<R>) -> Result<Input, InputError>
    ensures { ReadsInput source.old source.new result }
{
    read_up_to(alloc, source, INPUT_LIMIT)
}

/// Reads all that the source has, and no more than one byte past the limit. The first fault ends the reading.
pub fn read_up_to<R: Read>(
    alloc: Global,
    source: &mut Source<R>,
    limit: u32,
) -> Result<Input, InputError>
    ensures { ReadsUpTo limit source.old source.new result }
{
    let mut bytes = Vec::new(alloc);
    match read_into(source, limit, &mut bytes) {
        Ok(()) => Ok(Input { bytes }),
        Err(error) => Err(error),
    }
}

/// Hands all that the source has to an accumulator, as it comes, and no more than one byte past the limit. The first
/// fault ends the reading.
pub fn read_into<R: Read, A: Accumulator>(
    source: &mut Source<R>,
    limit: u32,
    accumulator: &mut A,
) -> Result<(), InputError>
    requires { A.takes accumulator.old [] accumulator.old }
    ensures { ReadsInto limit source.old source.new (λ bytes. A.takes accumulator.old bytes accumulator.new) result }
{
    let most = limit as usize;
    let mut count = 0;
    let mut chunk = [0u8; CHUNK];
    while count <= most {
        let part = &mut chunk[..CHUNK.min(most + 1 - count)];
        match source.read(part) {
            Ok(0) => return Ok(()),
            Ok(n) => {
                if accumulator.add(&part[..n]).is_err() {
                    return Err(InputError::Memory);
                }
                count += n;
            }
            Err(error) => return Err(error),
        }
    }
    Err(InputError::TooLong)
}
