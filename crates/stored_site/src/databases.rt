ghost use Rattle.std.specs.Prelude.{◌<◌};
ghost use Rattle.stored_site.specs.Databases.{EndsStored};

use crate::serving::serve_over;
use exit_status::{Status, StoreRefusal};
use layout_file::LayoutFault;
use merge_core::Layout;
use sqlite::{Connection, Error, ErrorCode};
use std::io::{Read, Write};
use text_input::{Sink, Source};

/// A runtime that has databases.
pub trait Databases {
    /// Serves a site of the layout over the database at a path, which is made where nothing is there: the database is
    /// opened, the site's store in it is judged, and then the input is read and its lines are served.
    fn serve_database<I: Read, O: Write>(
        &self,
        path: &str,
        layout: Layout,
        site: u16,
        source: &mut Source<I>,
        sink: &mut Sink<O>,
    ) -> Status
        requires { site < layout.sites }
        ensures { EndsStored layout site source.old source.new sink.old sink.new result };
}

impl Databases for HostRuntime {
    // At the end the log beside the file is copied into it; where that fails, the next opening reads it there.
    fn serve_database<I: Read, O: Write>(
        &self,
        path: &str,
        layout: Layout,
        site: u16,
        source: &mut Source<I>,
        sink: &mut Sink<O>,
    ) -> Status {
        let connection = match Connection::open(self, path) {
            Ok(connection) => connection,
            Err(Error::SqliteFailure(ErrorCode::OutOfMemory)) => return Status::Memory,
            Err(_) => return Status::NoStore(StoreRefusal::StoreFault),
        };
        let (ended, connection) = serve_over(self.alloc(), connection, layout, site, source, sink);
        let _ = connection.close(); // what was answered is in the log, if not in the file
        ended
    }
}

/// Serves a site over the database at a path, if the layout has the site.
pub fn serve_stored<R: Databases, I: Read, O: Write>(
    rt: &R,
    path: &str,
    layout: Layout,
    site: u16,
    source: &mut Source<I>,
    sink: &mut Sink<O>,
) -> Status
    ensures { EndsStored layout site source.old source.new sink.old sink.new result }
{
    if site >= layout.sites() {
        return Status::NoLayout(LayoutFault::NoSite);
    }
    rt.serve_database(path, layout, site, source, sink)
}
