//! The folder of a new file.
ghost use Rattle.std.specs.Prelude.{◌≡◌, IfErr};
ghost use Rattle.log_file.specs.declared.refusal.LogError.TheVariants.{Io};
ghost use Rattle.log_file.specs.Folder.{folder_of, named_folder};

use crate::refusal::LogError;
use std::fs;
use std::fs::OpenFile;
use std::path::Path;
use std::rt::Files;

/// Has the name of a file that has so many bytes reach the device, where the file may be new: the folder that it stands in
/// is synced. No contract can say what that does. `Io` is answered where the folder is not opened or synced.
pub(crate) fn sync_name<R: Files>(rt: &R, path: &str, size: u64) -> Result<(), LogError>
    ensures { IfErr result (λ e. e ≡ Io) }
{
    if size > 0 || sync_folder(rt, folder_of(path)) {
        return Ok(());
    }
    Err(LogError::Io)
}

// Syncs a folder. Whether that succeeded.
fn sync_folder<R: Files>(rt: &R, folder: &str) -> bool {
    match fs::open(rt, folder) {
        Ok(opened) => opened.sync_all().is_ok(),
        Err(_) => false,
    }
}

// The folder of the file at a path.
fn folder_of(path: &str) -> &str
    ensures { result.now ≡ folder_of path.now }
{
    match Path::new(path).parent() {
        Some(folder) => named_folder(folder.as_os_str()),
        None => ".",
    }
}

// A folder by its path.
fn named_folder(path: &str) -> &str
    ensures { result.now ≡ named_folder path.now }
{
    if path.is_empty() {
        return ".";
    }
    path
}
