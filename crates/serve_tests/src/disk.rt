//! A runtime with one file, whose faults the test chooses.
use log_file::ExclusiveFile;
use std::alloc::{AllocFailed, Allocator, Global};
use std::cell::RefCell;
use std::fs::{Metadata, OpenFile, OpenOptions};
use std::io;
use std::io::{Error, ErrorKind, Read, Seek, SeekFrom, Write};
use std::rc::Rc;
use std::rt::Files;

/// What fails: the opening or a read, in this way, or the writes, the syncs, or the cuts; holding the file, which another
/// does, or nobody can; or the folder's opening or sync.
#[derive(Clone, Copy, Debug, PartialEq, Eq)]
pub enum Fault {
    None,
    Open(ErrorKind),
    Read(ErrorKind),
    Write,
    Sync,
    Cut,
    InUse,
    Unheld,
    Folder,
    FolderSync,
}

/// A runtime with one file, which is there under each name. It keeps the path of each folder that was opened, and `!` for
/// each that was synced; and how many bytes the file had whenever it was synced.
#[derive(Drop)]
pub struct Disk {
    alloc: Global,
    bytes: Rc<RefCell<Vec<u8>>>,
    folders: Rc<RefCell<Vec<u8>>>,
    lengths: Rc<RefCell<Vec<usize>>>,
    fault: Fault,
}

impl Disk {
    /// The file has these bytes.
    pub fn new(alloc: Global, bytes: Vec<u8>, fault: Fault) -> io::Result<Disk> {
        let bytes = Rc::new(alloc, RefCell::new(bytes))?;
        let folders = Rc::new(alloc, RefCell::new(Vec::new(alloc)))?;
        let lengths = Rc::new(alloc, RefCell::new(Vec::new(alloc)))?;
        Ok(Disk {
            alloc,
            bytes,
            folders,
            lengths,
            fault,
        })
    }

    /// Whether the file has exactly these bytes.
    pub fn has(&self, bytes: &[u8]) -> bool {
        match self.bytes.try_borrow() {
            Ok(found) => found.as_slice() == bytes,
            Err(_) => false,
        }
    }

    /// Whether exactly these folders were opened and synced.
    pub fn has_synced(&self, folders: &[u8]) -> bool {
        match self.folders.try_borrow() {
            Ok(found) => found.as_slice() == folders,
            Err(_) => false,
        }
    }

    /// Whether the file was synced exactly when it had so many bytes, one length after the other.
    pub fn has_lengths(&self, lengths: &[usize]) -> bool {
        match self.lengths.try_borrow() {
            Ok(found) => found.as_slice() == lengths,
            Err(_) => false,
        }
    }

    // Opens a folder.
    fn open_folder(&self, path: &str) -> io::Result<DiskFile> {
        if self.fault == Fault::Folder {
            return Err(unsupported());
        }
        match self.folders.try_borrow_mut() {
            Ok(mut folders) => folders.extend_from_slice(path.as_bytes())?,
            Err(_) => return Err(unsupported()),
        }
        Ok(DiskFile {
            bytes: self.folders.clone()?,
            lengths: self.lengths.clone()?,
            place: 0,
            is_folder: true,
            fault: self.fault,
        })
    }
}

impl Alloc for Disk {
    type A = Global;

    fn alloc(&self) -> Global {
        self.alloc
    }
}

/// The file, read up to a place, or a folder.
#[derive(Drop)]
pub struct DiskFile {
    bytes: Rc<RefCell<Vec<u8>>>,
    lengths: Rc<RefCell<Vec<usize>>>,
    place: usize,
    is_folder: bool,
    fault: Fault,
}

fn unsupported() -> Error {
    Error::from(ErrorKind::Unsupported)
}

impl Read for DiskFile {
    fn read(&mut self, buf: &mut [u8]) -> io::Result<usize> {
        if let Fault::Read(kind) = self.fault {
            return Err(Error::from(kind));
        }
        let Ok(bytes) = self.bytes.try_borrow() else {
            return Err(unsupported());
        };
        let from = self.place.min(bytes.len());
        let rest = &bytes.as_slice()[from..];
        let n = buf.len().min(rest.len()).min(40);
        buf[..n].copy_from_slice(&rest[..n]);
        self.place = from.saturating_add(n);
        Ok(n)
    }
}

impl Write for DiskFile {
    fn write(&mut self, buf: &[u8]) -> io::Result<usize> {
        if self.fault == Fault::Write {
            return Err(unsupported());
        }
        let n = buf.len().min(7);
        match self.bytes.try_borrow_mut() {
            Ok(mut bytes) => bytes.extend_from_slice(&buf[..n])?,
            Err(_) => return Err(unsupported()),
        }
        Ok(n)
    }

    fn flush(&mut self) -> io::Result<()> {
        Ok(())
    }
}

impl Seek for DiskFile {
    fn seek(&mut self, _to: SeekFrom) -> io::Result<u64> {
        Err(unsupported())
    }
}

impl OpenFile for DiskFile {
    fn metadata(&self) -> io::Result<Metadata> {
        Err(unsupported())
    }

    fn set_len(&self, size: u64) -> io::Result<()> {
        if self.fault == Fault::Cut {
            return Err(unsupported());
        }
        match self.bytes.try_borrow_mut() {
            Ok(mut bytes) => bytes.truncate(size as usize),
            Err(_) => return Err(unsupported()),
        }
        Ok(())
    }

    fn sync_all(&self) -> io::Result<()> {
        if !self.is_folder || self.fault == Fault::FolderSync {
            return Err(unsupported());
        }
        match self.bytes.try_borrow_mut() {
            Ok(mut folders) => folders.push(b'!')?,
            Err(_) => return Err(unsupported()),
        }
        Ok(())
    }

    fn sync_data(&self) -> io::Result<()> {
        if self.fault == Fault::Sync {
            return Err(unsupported());
        }
        let length = match self.bytes.try_borrow() {
            Ok(bytes) => bytes.len(),
            Err(_) => return Err(unsupported()),
        };
        match self.lengths.try_borrow_mut() {
            Ok(mut lengths) => lengths.push(length)?,
            Err(_) => return Err(unsupported()),
        }
        Ok(())
    }
}

impl ExclusiveFile for DiskFile {
    ghost is_held = { λ _. Unit {0} };

    ghost is_in_use = { λ _. Unit {0} };

    ghost is_unknown = { λ _. Unit {0} };

    fn try_hold(&self) -> Result<bool, ()> {
        match self.fault {
            Fault::InUse => Ok(false),
            Fault::Unheld => Err(()),
            _ => Ok(true),
        }
    }
}

impl Files for Disk {
    type File = DiskFile;

    type Dir = DiskFile;

    // Only a file that is made where there is none, read, and appended to is one of a log; a folder is only read.
    fn open_file(&self, how: &OpenOptions, path: &str) -> io::Result<DiskFile> {
        if how.asks_read() && !how.asks_append() && !how.asks_create() {
            return self.open_folder(path);
        }
        if let Fault::Open(kind) = self.fault {
            return Err(Error::from(kind));
        }
        if !how.asks_read() || !how.asks_append() || !how.asks_create() || how.asks_truncate() {
            return Err(unsupported());
        }
        Ok(DiskFile {
            bytes: self.bytes.clone()?,
            lengths: self.lengths.clone()?,
            place: 0,
            is_folder: false,
            fault: self.fault,
        })
    }

    fn open_dir(&self, _path: &str) -> io::Result<DiskFile> {
        Err(unsupported())
    }

    fn metadata(&self, _path: &str) -> io::Result<Metadata> {
        Err(unsupported())
    }

    fn symlink_metadata(&self, _path: &str) -> io::Result<Metadata> {
        Err(unsupported())
    }

    fn copy(&self, _from: &str, _to: &str) -> io::Result<u64> {
        Err(unsupported())
    }

    fn rename(&self, _from: &str, _to: &str) -> io::Result<()> {
        Err(unsupported())
    }

    fn remove_file(&self, _path: &str) -> io::Result<()> {
        Err(unsupported())
    }

    fn create_dir(&self, _path: &str) -> io::Result<()> {
        Err(unsupported())
    }

    fn remove_dir(&self, _path: &str) -> io::Result<()> {
        Err(unsupported())
    }

    fn remove_dir_all<B: Allocator>(&self, _alloc: B, _path: &str) -> io::Result<()> {
        Err(unsupported())
    }
}
