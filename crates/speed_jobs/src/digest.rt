//! A digest of what is written.
use std::io;
use std::io::Write;

/// Takes all bytes, and keeps their FNV-1a digest of 64 bits.
#[derive(Clone, Copy, Drop)]
pub struct Digest {
    pub sum: u64,
}

impl Digest {
    /// Of no bytes.
    pub(crate) fn new() -> Digest {
        Digest {
            sum: 14_695_981_039_346_656_037,
        }
    }

    /// With some bytes more.
    pub(crate) fn add(&mut self, bytes: &[u8]) {
        let mut sum = self.sum;
        for byte in bytes {
            sum = (sum ^ u64::from(*byte)).wrapping_mul(1_099_511_628_211);
        }
        self.sum = sum;
    }
}

impl Write for Digest {
    fn write(&mut self, buf: &[u8]) -> io::Result<usize> {
        self.add(buf);
        Ok(buf.len())
    }

    fn flush(&mut self) -> io::Result<()> {
        Ok(())
    }
}
