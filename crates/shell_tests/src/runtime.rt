//! A runtime whose arguments, files and standard streams the test chooses.
use exit_status::{Status, StoreRefusal};
use line_conversation::{Conversation, RoundConversation};
use live_databases::{
    Absence, LiveDatabases, Opening, RebuildEnd, Service, ServiceEnd, make_rebuilt_over,
    regroup_over, serve_live_over, serve_rounds_over,
};
use live_site::{NoLog, NoPlace};
use merge_core::Layout;
use rebuild_engine::rebuilt_site;
use site_store::{Permission, SqlKeeper};
use sqlite::{Connection, MemStore};
use std::alloc::{Allocator, Global};
use std::cell::RefCell;
use std::env::FillError;
use std::fmt::Display;
use std::fs::{Metadata, OpenFile, OpenOptions};
use std::io;
use std::io::{BufRead, Error, ErrorKind, Lines, Read, Seek, SeekFrom, Write};
use std::rt::{Env, Files};
use stored_site::{Databases, serve_over};
use test_streams::{Giving, Keeping};
use text_input::{Sink, Source};

/// A text to read, how many LF follow it, and the read that is answered with a fault.
#[derive(Clone, Copy, Drop)]
pub struct Text {
    pub text: &'static str,
    pub fillers: usize,
    pub fails: usize,
}

impl Text {
    fn reader(self, fault: ErrorKind) -> Giving<'static> {
        Giving::new(self.text.as_bytes(), self.fails)
            .followed_by(b'\n', self.fillers)
            .failing_by(fault)
    }
}

/// What the program finds.
#[derive(Clone, Copy, Drop)]
pub struct Setting {
    pub arguments: &'static [&'static [u8]],
    pub input: Text,
    /// Files by their paths; no other can be opened.
    pub files: &'static [(&'static str, Text)],
    /// How a file that is not there, or a read that fails, is told.
    pub fault: ErrorKind,
}

/// A runtime over this, which keeps what is written, and which files were opened, renamed and removed, a line for each.
#[derive(Drop)]
pub struct Fake {
    alloc: Global,
    setting: Setting,
    output: RefCell<Keeping>,
    errors: RefCell<Keeping>,
    opened: RefCell<Keeping>,
}

impl Fake {
    /// The write of the output and that of the errors with these numbers are answered with a fault.
    pub fn new(alloc: Global, setting: Setting, output_fails: usize, error_fails: usize) -> Fake {
        Fake {
            alloc,
            setting,
            output: RefCell::new(Keeping::new(alloc, output_fails)),
            errors: RefCell::new(Keeping::new(alloc, error_fails)),
            opened: RefCell::new(Keeping::new(alloc, usize::MAX)),
        }
    }

    /// What was written to standard output and to standard error, and which files were opened.
    pub fn into_texts(self) -> (Keeping, Keeping, Keeping) {
        let Fake {
            alloc: _,
            setting: _,
            output,
            errors,
            opened,
        } = self;
        (
            output.into_inner(),
            errors.into_inner(),
            opened.into_inner(),
        )
    }
}

fn unsupported() -> Error {
    Error::from(ErrorKind::Unsupported)
}

// Writes to what keeps a stream.
fn kept<D: Display + Drop>(stream: &RefCell<Keeping>, value: D) -> io::Result<()> {
    match stream.try_borrow_mut() {
        Ok(mut keeping) => keeping.write_fmt(value),
        Err(_) => Err(unsupported()),
    }
}

impl Alloc for Fake {
    type A = Global;

    fn alloc(&self) -> Global {
        self.alloc
    }
}

impl Env for Fake {
    fn arg(&self, i: usize, buf: &mut [u8]) -> Result<usize, FillError> {
        let Some(argument) = self.setting.arguments.get(i) else {
            return Err(FillError::NotPresent);
        };
        let n = argument.len();
        if n > buf.len() {
            return Err(FillError::TooLong);
        }
        buf[..n].copy_from_slice(argument);
        Ok(n)
    }

    fn var(&self, _name: &str, _buf: &mut [u8]) -> Result<usize, FillError> {
        Err(FillError::NotPresent)
    }

    fn var_at(&self, _i: usize, _buf: &mut [u8]) -> Result<usize, FillError> {
        Err(FillError::NotPresent)
    }
}

impl Print for Fake {
    fn print<D: Display + Drop>(&self, value: D) -> io::Result<()> {
        kept(&self.output, value)
    }

    fn println<D: Display + Drop>(&self, value: D) -> io::Result<()> {
        kept(&self.output, value)?;
        kept(&self.output, "\n")
    }

    fn write_all(&self, bytes: &[u8]) -> io::Result<()> {
        match self.output.try_borrow_mut() {
            Ok(mut keeping) => keeping.write_all(bytes),
            Err(_) => Err(unsupported()),
        }
    }
}

impl Eprint for Fake {
    fn eprint<D: Display + Drop>(&self, value: D) -> io::Result<()> {
        kept(&self.errors, value)
    }

    fn eprintln<D: Display + Drop>(&self, value: D) -> io::Result<()> {
        kept(&self.errors, value)?;
        kept(&self.errors, "\n")
    }
}

impl Input for Fake {
    type Reader = Giving<'static>;

    fn read_line<A: Allocator + Clone>(&self, _buf: &mut String<A>) -> io::Result<usize> {
        Err(unsupported())
    }

    fn lines<A: Allocator>(&self, alloc: A) -> Lines<Giving<'static>, A> {
        self.reader().lines(alloc)
    }

    fn reader(&self) -> Giving<'static> {
        self.setting.input.reader(self.setting.fault)
    }
}

/// A file, or a folder that can't be listed. So many bytes can still be written to it.
#[derive(Drop)]
pub struct FakeFile(Giving<'static>, usize);

impl Read for FakeFile {
    fn read(&mut self, buf: &mut [u8]) -> io::Result<usize> {
        self.0.read(buf)
    }
}

impl Write for FakeFile {
    fn write(&mut self, buf: &[u8]) -> io::Result<usize> {
        if buf.len() > self.1 {
            return Err(unsupported());
        }
        self.1 -= buf.len();
        Ok(buf.len())
    }

    fn flush(&mut self) -> io::Result<()> {
        Ok(())
    }
}

impl Seek for FakeFile {
    fn seek(&mut self, _to: SeekFrom) -> io::Result<u64> {
        Err(unsupported())
    }
}

impl OpenFile for FakeFile {
    fn metadata(&self) -> io::Result<Metadata> {
        Err(unsupported())
    }

    fn set_len(&self, _size: u64) -> io::Result<()> {
        Err(unsupported())
    }

    fn sync_all(&self) -> io::Result<()> {
        Err(unsupported())
    }

    fn sync_data(&self) -> io::Result<()> {
        Err(unsupported())
    }
}

impl Files for Fake {
    type File = FakeFile;

    type Dir = FakeFile;

    fn open_file(&self, _how: &OpenOptions, path: &str) -> io::Result<FakeFile> {
        kept(&self.opened, path)?;
        kept(&self.opened, "\n")?;
        for (name, text) in self.setting.files {
            if *name == path {
                return Ok(FakeFile(text.reader(self.setting.fault), text.fillers));
            }
        }
        Err(Error::from(self.setting.fault))
    }

    fn open_dir(&self, _path: &str) -> io::Result<FakeFile> {
        Err(unsupported())
    }

    fn metadata(&self, _path: &str) -> io::Result<Metadata> {
        Err(unsupported())
    }

    fn symlink_metadata(&self, path: &str) -> io::Result<Metadata> {
        if path == "link" {
            return Ok(Metadata::of_symlink(0));
        }
        Err(unsupported())
    }

    fn copy(&self, _from: &str, _to: &str) -> io::Result<u64> {
        Err(unsupported())
    }

    // A file can get any name but "taken".
    fn rename(&self, from: &str, to: &str) -> io::Result<()> {
        if to == "taken" {
            return Err(unsupported());
        }
        kept(&self.opened, from)?;
        kept(&self.opened, " becomes ")?;
        kept(&self.opened, to)?;
        kept(&self.opened, "\n")
    }

    fn remove_file(&self, path: &str) -> io::Result<()> {
        kept(&self.opened, path)?;
        kept(&self.opened, " is gone\n")
    }

    fn create_dir(&self, _path: &str) -> io::Result<()> {
        Err(unsupported())
    }

    fn remove_dir(&self, _path: &str) -> io::Result<()> {
        Err(unsupported())
    }

    fn remove_dir_all<B: Allocator>(&self, _alloc: B, _path: &str) -> io::Result<()> {
        Err(unsupported())
    }
}

impl Databases for Fake {
    // An empty database in memory at one path, and none at another.
    fn serve_database<I: Read, O: Write>(
        &self,
        path: &str,
        layout: Layout,
        site: u16,
        source: &mut Source<I>,
        sink: &mut Sink<O>,
    ) -> Status {
        if kept(&self.opened, path).is_err() || kept(&self.opened, "\n").is_err() {
            return Status::Memory;
        }
        if path != "new.db" {
            return Status::NoStore(StoreRefusal::StoreFault);
        }
        let Ok(connection) = Connection::open_in_memory(self.alloc) else {
            return Status::Memory;
        };
        let (ended, _connection) = serve_over(self.alloc, connection, layout, site, source, sink);
        ended
    }
}

impl LiveDatabases for Fake {
    fn serve_conversation<C: Conversation>(
        &self,
        opening: Opening<'_>,
        layout: Layout,
        conversation: &mut C,
    ) -> ServiceEnd {
        if self.note_opening(opening).is_err() {
            return ServiceEnd::Ended(Status::Memory);
        }
        if let Some(absence) = absence_of(opening) {
            return ServiceEnd::Absent(absence);
        }
        let Ok(connection) = Connection::open_in_memory(self.alloc) else {
            return ServiceEnd::Ended(Status::Memory);
        };
        let (ended, _connection) = serve_live_over(
            self.alloc,
            connection,
            layout,
            Service {
                permission: Permission {
                    create: true,
                    grow: false,
                },
                ..opening.service
            },
            conversation,
            &mut NoLog {},
            &NoPlace {},
        );
        ended
    }

    fn serve_rounds<C: RoundConversation>(
        &self,
        opening: Opening<'_>,
        layout: Layout,
        conversation: &mut C,
    ) -> ServiceEnd {
        if self.note_opening(opening).is_err() {
            return ServiceEnd::Ended(Status::Memory);
        }
        if let Some(absence) = absence_of(opening) {
            return ServiceEnd::Absent(absence);
        }
        let Ok(connection) = Connection::open_in_memory(self.alloc) else {
            return ServiceEnd::Ended(Status::Memory);
        };
        let (ended, _connection) = serve_rounds_over(
            self.alloc,
            connection,
            layout,
            Service {
                permission: Permission {
                    create: true,
                    grow: false,
                },
                ..opening.service
            },
            opening.together,
            conversation,
            &NoPlace {},
        );
        ended
    }

    // The store at one path is that of site 0 of a group in which nothing was done.
    fn move_store(
        &self,
        path: &str,
        layout: Layout,
        site: u16,
        group: &str,
    ) -> Result<String, ServiceEnd> {
        let Some(connection) = self.moved_database(path, &layout, site) else {
            return Err(ServiceEnd::Absent(Absence::NoStore));
        };
        if !connection.is_autocommit() {
            return Err(ServiceEnd::Ended(Status::Memory));
        }
        let (told, _connection) = regroup_over(self.alloc, connection, layout, site, group);
        told
    }

    // No store is at one path, and one is at another.
    #[tactic(auto, using(live_databases::proofs::UntoldLemmas::built_there, live_databases::proofs::UntoldLemmas::unmade_over))]
    fn rebuild_store(
        &self,
        path: &str,
        layout: Layout,
        site: u16,
        lost: &[u16],
        name: &str,
        bytes: &[u8],
    ) -> Result<String, RebuildEnd> {
        let rebuilt = match rebuilt_site(self.alloc, layout, site, lost, name, bytes) {
            Ok(rebuilt) => rebuilt,
            Err(stop) => return Err(RebuildEnd::Unbuilt(stop)),
        };
        if kept(&self.opened, path).is_err() || kept(&self.opened, "\n").is_err() {
            return Err(RebuildEnd::Ended(ServiceEnd::Ended(Status::Memory)));
        }
        if path != "new.db" {
            return Err(RebuildEnd::Ended(ServiceEnd::Absent(Absence::Exists)));
        }
        let Ok(connection) = Connection::open_in_memory(self.alloc) else {
            return Err(RebuildEnd::Ended(ServiceEnd::Ended(Status::Memory)));
        };
        let (made, _connection) = make_rebuilt_over(self.alloc, connection, rebuilt, site, name);
        match made {
            Ok(shown) => Ok(shown),
            Err(ended) => Err(RebuildEnd::Ended(ended)),
        }
    }
}

// Why a database is not opened, if it is not: one is new, one is there, and one is in use.
fn absence_of(opening: Opening<'_>) -> Option<Absence> {
    if opening.path == "used.db" {
        return Some(Absence::InUse);
    }
    if !opening.service.permission.create && opening.path != "old.db" {
        return Some(Absence::NoStore);
    }
    if opening.service.permission.create && opening.path != "new.db" {
        return Some(Absence::Exists);
    }
    None
}

impl Fake {
    // Notes the store that is to be opened for a service, and behind it the file for the site's log and how long to wait, if
    // these are named.
    fn note_opening(&self, opening: Opening<'_>) -> io::Result<()> {
        kept(&self.opened, opening.path)?;
        kept(&self.opened, "\n")?;
        if let Some(log) = opening.log {
            kept(&self.opened, "log ")?;
            kept(&self.opened, log)?;
            kept(&self.opened, "\n")?;
        }
        if opening.wait > 0 {
            kept(&self.opened, format_args!("wait {}\n", opening.wait))?;
        }
        Ok(())
    }

    // A database with a new store of the site in the group `east`, at one path, and none at another.
    fn moved_database(
        &self,
        path: &str,
        layout: &Layout,
        site: u16,
    ) -> Option<Connection<MemStore>> {
        kept(&self.opened, path).ok()?;
        kept(&self.opened, "\n").ok()?;
        if path != "old.db" {
            return None;
        }
        let connection = Connection::open_in_memory(self.alloc).ok()?;
        if !connection.is_autocommit() {
            return None;
        }
        let permission = Permission {
            create: true,
            grow: false,
        };
        let group = Some("east");
        match SqlKeeper::open_served(self.alloc, connection, layout, site, group, permission) {
            Ok((keeper, _)) => Some(keeper.into_connection()),
            Err(_) => None,
        }
    }
}
