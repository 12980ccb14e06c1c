//! A file that is held against others.
ghost use Rattle.std.specs.Prelude.{◌≡◌, true, false, Ok, Err};

use std::fs::{File, TryLockError};

/// A file that can be held against all others who open it and ask for the same.
pub trait ExclusiveFile {
    /// This opening of the file holds it.
    ghost is_held: { Self → Type 0 };

    /// Another opening of it does.
    ghost is_in_use: { Self → Type 0 };

    /// The system can't tell whether this opening may hold it.
    ghost is_unknown: { Self → Type 0 };

    /// Holds the file until it is closed, unless another opening of it does. Whether it is held now; an error where the
    /// system can't tell.
    fn try_hold(&self) -> Result<bool, ()>
        ensures held { result ≡ Ok true → is_held self.now }
        ensures in_use { result ≡ Ok false → is_in_use self.now }
        ensures unknown { result ≡ Err tt → is_unknown self.now };
}

// By the system's advisory lock on the whole file. Two openings of a file do not share it, also in one process; the system
// takes it back when the file is closed, and when the process ends in any way. No contract can say what the system's lock
// does: that it is asked for is read here.
impl ExclusiveFile for File {
    ghost is_held = { λ _. Unit {0} };

    ghost is_in_use = { λ _. Unit {0} };

    ghost is_unknown = { λ _. Unit {0} };

    fn try_hold(&self) -> Result<bool, ()> {
        match self.try_lock() {
            Ok(()) => Ok(true),
            Err(TryLockError::WouldBlock) => Ok(false),
            Err(TryLockError::Error(_)) => Err(()),
        }
    }
}
