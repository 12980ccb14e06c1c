//! What a log is written to.
ghost use Rattle.std.specs.Prelude.{◌≡◌, ◌∷◌, ◌++◌, [], List, true, false};
ghost use Rattle.log_file.specs.Steps.{FileStep, Append, Cut, appended_in};

use std::fs::OpenFile;
use std::io::Write;

/// A file that is open, to whose end texts are appended.
pub trait LogFile {
    /// From the first state to the last this was done to it, oldest first.
    ghost did: { Self → List FileStep → Self → Type 0 };

    /// A call of it has failed.
    ghost has_failed: { Self → Type 0 };

    /// Appends a text, and has it reach the device, so that it is there after a crash at any later moment. Whether that
    /// succeeded; else a part of the text may be there.
    fn append(&mut self, text: &str) -> bool
        ensures done { (first : Self) (before : List FileStep) → did first before self.old → result ≡ true → did first (before ++ Append text.now ∷ []) self.new }
        ensures failed { result ≡ false → has_failed self.new };

    /// Cuts the file off behind so many bytes, which it has. Whether that succeeded.
    fn cut(&mut self, length: u64) -> bool
        ensures done { (first : Self) (before : List FileStep) → did first before self.old → result ≡ true → did first (before ++ Cut length ∷ []) self.new }
        ensures failed { result ≡ false → has_failed self.new };

    /// Before any step nothing was done.
    ghost begins: { (f : Self) → did f [] f };
}

/// A file of the system, opened to append.
#[derive(Drop)]
pub struct SystemFile<F: Write + OpenFile> {
    file: F,
    failed: bool,
}

impl<F: Write + OpenFile> SystemFile<F> {
    /// The file, to which nothing was done.
    pub fn new(file: F) -> SystemFile<F>
        ensures file { result.file ≡ file }
        ensures failed { result.failed ≡ false }
    {
        SystemFile {
            file,
            failed: false,
        }
    }
}

// What was appended is what the file's `Write` says that it took. What a cut does to a file of the system no contract can
// say, so it is not seen here.
impl<F: Write + OpenFile> LogFile for SystemFile<F> {
    ghost use Rattle.std.specs.Io.KnownBytes.{Appends};
    ghost use Rattle.log_file.specs.Begins.{nothing_appended};

    ghost did = { λ first steps last. Appends (F.contents first.file) (F.contents last.file) (appended_in steps) };

    ghost has_failed = { λ f. f.failed ≡ true };

    ghost begins = { λ f. nothing_appended (F.contents f.file) };

    fn append(&mut self, text: &str) -> bool {
        if self.file.write_all(text.as_bytes()).is_ok()
            && self.file.flush().is_ok()
            && self.file.sync_data().is_ok()
        {
            return true;
        }
        self.failed = true;
        false
    }

    fn cut(&mut self, length: u64) -> bool {
        if self.file.set_len(length).is_ok() {
            return true;
        }
        self.failed = true;
        false
    }
}
