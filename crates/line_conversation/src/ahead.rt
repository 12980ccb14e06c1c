//! What was read and belongs to no line yet.
ghost use Rattle.std.specs.Prelude.{◌≡◌, ◌≤◌, ◌<◌, IfErr, IfOk, length, take};
ghost use Rattle.std.specs.Io.KnownBytes.{Consumes, IsAtEnd, Keeps};
ghost use Rattle.text_input.specs.Source.{HasFault};

use memchr::memchr;
use std::alloc::{AllocError, Global};
use std::io::Read;
use std::marker::Model;
use text_input::Source;

// How many bytes a read asks for.
const CHUNK: usize = 65_536;

/// The bytes that were read ahead, in a chunk of fixed size.
#[derive(Drop)]
pub(crate) struct Ahead {
    chunk: Vec<u8>,
    from: usize,
    to: usize,
}

// Contracts see the bytes that are left of the chunk.
impl Model for Ahead {
    ghost use Rattle.std.specs.Prelude.{ℕ, List, ◌-◌, ◌≤◌, ◌<◌, length, take, drop};

    ghost Value = { List ℕ };

    ghost view = { λ a. take (a.to - a.from) (drop a.from a.chunk.items) };

    ghost invariant = { λ a. (a.from ≤ a.to) × (a.to ≤ length a.chunk.items) × (0 < length a.chunk.items) };
}

impl Ahead {
    ghost use Rattle.std.specs.Prelude.{◌≡◌, ◌≤◌, [], ◌∷◌, ◌++◌, ◌<◌, ℕ, List, IfErr, IfOk, MatchBool, length, take, drop, true, false};
    ghost use Rattle.std.specs.Io.KnownBytes.{Consumes, IsAtEnd, Keeps};
    ghost use Rattle.text_input.specs.Lines.{HasNoLf};
    ghost use Rattle.text_input.specs.Source.{HasFault};

    /// Nothing was read ahead.
    pub fn new(alloc: Global) -> Result<Ahead, AllocError>
        ensures { IfOk result (λ a. a ≡ []) }
    {
        let chunk = vec![in alloc; 0; CHUNK]?;
        Ok(Ahead {
            chunk,
            from: 0,
            to: 0,
        })
    }

    /// The bytes up to the first LF, and whether there is one; all of them where there is none.
    pub fn part(&self) -> (&[u8], bool)
        ensures { MatchBool result.1
            ((rest : List ℕ) × (self.now ≡ result.0.now ++ 10 ∷ rest) × HasNoLf result.0.now)
            ((self.now ≡ result.0.now) × HasNoLf result.0.now) }
    {
        let bytes = &self.chunk[self.from..self.to];
        match memchr(b'\n', bytes) {
            Some(end) => (&bytes[..end], true),
            None => (bytes, false),
        }
    }

    /// Whether there is an LF.
    pub fn has_line(&self) -> bool
        ensures { MatchBool result
            ((line : List ℕ) × (rest : List ℕ) × (self.now ≡ line ++ 10 ∷ rest) × HasNoLf line)
            (HasNoLf self.now) }
    {
        let (_, ends) = self.part();
        ends
    }

    /// Leaves the first n bytes out.
    pub fn skip(&mut self, n: usize)
        requires { n ≤ length self.old }
        ensures { self.new ≡ drop n self.old }
    {
        self.from += n;
    }

    /// Reads what comes at once, where nothing is left: whether anything came; nothing comes at the end.
    pub fn fill<R: Read>(&mut self, source: &mut Source<R>) -> Result<bool, ()>
        requires { self.old ≡ [] }
        ensures read { IfOk result (λ _. Consumes source.old.remaining source.new.remaining self.new) }
        ensures kind { IfOk result (λ _. source.new.fault ≡ source.old.fault) }
        ensures end { IfOk result (λ some. some ≡ false → IsAtEnd source.new.remaining) }
        ensures some { IfOk result (λ some. some ≡ true → 0 < length self.new) }
        ensures failed { IfErr result (λ _. Keeps source.old.remaining source.new.remaining) }
        ensures fault { IfErr result (λ _. HasFault source.new.fault) }
        ensures none { IfErr result (λ _. self.new ≡ []) }
    {
        self.from = 0;
        self.to = 0;
        let n = read_chunk(source, &mut self.chunk)?;
        self.to = n;
        Ok(n > 0)
    }
}

// Reads what comes at once into a chunk: how many bytes.
fn read_chunk<R: Read>(source: &mut Source<R>, chunk: &mut Vec<u8>) -> Result<usize, ()>
    requires { 0 < length chunk.old.items }
    ensures length { length chunk.new.items ≡ length chunk.old.items }
    ensures few { IfOk result (λ n. n ≤ length chunk.new.items) }
    ensures read { IfOk result (λ n. Consumes source.old.remaining source.new.remaining (take n chunk.new.items)) }
    ensures kind { IfOk result (λ n. source.new.fault ≡ source.old.fault) }
    ensures end { IfOk result (λ n. n ≡ 0 → IsAtEnd source.new.remaining) }
    ensures failed { IfErr result (λ _. Keeps source.old.remaining source.new.remaining) }
    ensures fault { IfErr result (λ _. HasFault source.new.fault) }
{
    source.read(chunk.as_mut_slice()).map_err(|_| ())
}
