use std::io;
use std::io::{ErrorKind, Write};

/// The standard error of a runtime, as a writer of text.
#[derive(Drop)]
pub struct StandardError<'a, R: Eprint> {
    runtime: &'a R,
}

impl<'a, R: Eprint> StandardError<'a, R> {
    pub fn of(runtime: &'a R) -> StandardError<'a, R> {
        StandardError { runtime }
    }
}

impl<R: Eprint> Write for StandardError<'_, R> {
    fn write(&mut self, buf: &[u8]) -> io::Result<usize> {
        let Ok(text) = std::str::from_utf8(buf) else {
            return Err(io::Error::from(ErrorKind::InvalidData));
        };
        self.runtime.eprint(text)?;
        Ok(buf.len())
    }

    fn flush(&mut self) -> io::Result<()> {
        Ok(())
    }
}
