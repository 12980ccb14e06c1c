ghost use Rattle.std.specs.Prelude.{◌≡◌, []};
ghost use Rattle.std.specs.declared.io.ErrorKind.TheVariants.{Other};

use std::alloc::Global;
use std::io;
use std::io::{BufRead, Error, ErrorKind, Read, Write};

/// No call.
pub const NEVER: usize = usize::MAX;

/// How many calls there were, which one is answered with a fault, and of what kind that is.
#[derive(Drop)]
pub struct Calls {
    pub made: usize,
    pub fails: usize,
    pub fault: ErrorKind,
}

impl Calls {
    fn new(fails: usize) -> Calls
        ensures { result ≡ record { made = 0; fails = fails; fault = Other } }
    {
        Calls {
            made: 0,
            fails,
            fault: ErrorKind::Other,
        }
    }

    fn next(&mut self) -> io::Result<()> {
        let here = self.made;
        self.made = here.saturating_add(1);
        if here == self.fails {
            return Err(Error::from(self.fault));
        }
        Ok(())
    }
}

/// Gives the bytes, at most 40 at a call, and then one byte so many times. Call `fails` is answered with a fault.
#[derive(Drop)]
pub struct Giving<'a> {
    pub bytes: &'a [u8],
    pub filler: u8,
    pub fillers: usize,
    pub calls: Calls,
}

impl<'a> Giving<'a> {
    /// The bytes alone, with a fault of no particular kind.
    pub fn new(bytes: &'a [u8], fails: usize) -> Giving<'a>
        ensures bytes { result.bytes.now ≡ bytes.now }
        ensures fillers { result.fillers ≡ 0 }
        ensures calls { result.calls ≡ record { made = 0; fails = fails; fault = Other } }
    {
        Giving {
            bytes,
            filler: b' ',
            fillers: 0,
            calls: Calls::new(fails),
        }
    }

    /// The same, and then this byte so many times.
    pub fn followed_by(self, filler: u8, fillers: usize) -> Giving<'a>
        ensures { result ≡ record self.entry { filler = filler; fillers = fillers } }
    {
        Giving {
            bytes: self.bytes,
            filler,
            fillers,
            calls: self.calls,
        }
    }

    /// The same, whose fault is of this kind.
    pub fn failing_by(self, fault: ErrorKind) -> Giving<'a>
        ensures { result ≡ record self.entry {
          calls = record { made = 0; fails = self.entry.calls.fails; fault = fault };
        } }
    {
        Giving {
            bytes: self.bytes,
            filler: self.filler,
            fillers: self.fillers,
            calls: Calls {
                made: 0,
                fails: self.calls.fails,
                fault,
            },
        }
    }

    /// How many of the bytes that follow are left.
    pub fn fillers(&self) -> usize
        ensures { result ≡ self.now.fillers }
    {
        self.fillers
    }
}

impl Read for Giving<'_> {
    fn read(&mut self, buf: &mut [u8]) -> io::Result<usize> {
        self.calls.next()?;
        let bytes = self.bytes;
        if bytes.is_empty() {
            let n = buf.len().min(self.fillers);
            buf[..n].fill(self.filler);
            self.fillers = self.fillers.saturating_sub(n);
            return Ok(n);
        }
        let n = buf.len().min(bytes.len()).min(40);
        buf[..n].copy_from_slice(&bytes[..n]);
        self.bytes = &bytes[n..];
        Ok(n)
    }
}

// It is read by `read` alone.
impl BufRead for Giving<'_> {
    fn fill_buf(&mut self) -> io::Result<&[u8]> {
        Err(Error::from(ErrorKind::Unsupported))
    }

    fn consume(&mut self, _amount: usize) {}
}

/// Keeps what is written, 7 bytes at a call; a flush is a call too. Call `fails` is answered with a fault.
#[derive(Drop)]
pub struct Keeping {
    pub kept: Vec<u8>,
    pub calls: Calls,
}

impl Keeping {
    /// Nothing was written yet.
    pub fn new(alloc: Global, fails: usize) -> Keeping
        ensures kept { result.kept.items ≡ [] }
        ensures calls { result.calls ≡ record { made = 0; fails = fails; fault = Other } }
    {
        Keeping {
            kept: Vec::new(alloc),
            calls: Calls::new(fails),
        }
    }

    /// What was written.
    pub fn bytes(&self) -> &[u8]
        ensures { result.now ≡ self.now.kept.items }
    {
        self.kept.as_slice()
    }
}

impl Write for Keeping {
    fn write(&mut self, buf: &[u8]) -> io::Result<usize> {
        self.calls.next()?;
        let n = buf.len().min(7);
        self.kept.extend_from_slice(&buf[..n])?;
        Ok(n)
    }

    fn flush(&mut self) -> io::Result<()> {
        self.calls.next()
    }
}
