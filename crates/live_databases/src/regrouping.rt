//! The database at a path, moved to the next generation of its site's group, or made of a site that is built again.
ghost use Rattle.std.specs.Prelude.{◌≡◌, ◌<◌, string_bytes, MatchResult};
ghost use Rattle.sqlite_wal.specs.Files.{image_at};
ghost use Rattle.live_databases.specs.Moves.{EndsUnmoved, FindsMoved};
ghost use Rattle.live_databases.specs.Rebuilds.{EndsNotRebuilt, FindsRebuilt};

use crate::databases::{Beginning, open_once};
use crate::moving::regroup_over;
use crate::rebuilding::{RebuildEnd, make_rebuilt_over};
use crate::service_end::ServiceEnd;
use merge_core::Layout;
use rebuild_engine::rebuilt_site;
use sqlite::FileFrom;
use sqlite_disk::Disk;

/// Moves the store of a site at a path to the next generation of its group, and gives the text to print, as
/// [`regroup_over`](crate::regroup_over) does. `S` stands for what the files at the path hold. A database that another process
/// has open is refused at once.
pub fn regroup_found<S: Beginning>(
    rt: &HostRuntime,
    path: &str,
    layout: Layout,
    site: u16,
    group: &str,
) -> Result<String, ServiceEnd>
    requires { site < layout.sites }
    ensures { MatchResult result
        (λ text. FindsMoved ⟦<FileFrom<S> as Disk>⟧ layout site group.now (image_at S.Start) (string_bytes text))
        (λ ended. EndsUnmoved ⟦<FileFrom<S> as Disk>⟧ layout site group.now (image_at S.Start) ended) }
{
    let (connection, _place) = match open_once::<S>(rt, path, false) {
        Ok(opened) => opened,
        Err(ended) => return Err(ended),
    };
    let (told, connection) = regroup_over(rt.alloc(), connection, layout, site, group);
    let _ = connection.close(); // what was committed is in the log, if not in the file
    told
}

/// Builds a site of the group of this name again, which lost its store, of the bytes of an input, makes its store at a path
/// where none is, and gives what is printed of the site. The lines of the input are the texts that the moves of all other sites
/// to that group printed, one for each; where no other site is lost, a text that such a site sends serves too. `S` stands for
/// what the files at the path hold; they are not looked at where the site is not built. Where the store can't be made, an empty
/// file may be left, which no service opens. Linear in the bytes, and cubic in the number of sites.
pub fn rebuild_found<S: Beginning>(
    rt: &HostRuntime,
    path: &str,
    layout: Layout,
    site: u16,
    lost: &[u16],
    name: &str,
    bytes: &[u8],
) -> Result<String, RebuildEnd>
    ensures { MatchResult result
        (λ text. FindsRebuilt ⟦<FileFrom<S> as Disk>⟧ layout site lost.now name.now bytes.now (image_at S.Start) (string_bytes text))
        (λ ended. EndsNotRebuilt ⟦<FileFrom<S> as Disk>⟧ layout site lost.now name.now bytes.now (image_at S.Start) ended) }
{
    let rebuilt = match rebuilt_site(rt.alloc(), layout, site, lost, name, bytes) {
        Ok(rebuilt) => rebuilt,
        Err(stop) => return Err(RebuildEnd::Unbuilt(stop)),
    };
    let (connection, _place) = match open_once::<S>(rt, path, true) {
        Ok(opened) => opened,
        Err(ended) => return Err(RebuildEnd::Ended(ended)),
    };
    let (made, connection) = make_rebuilt_over(rt.alloc(), connection, rebuilt, site, name);
    let _ = connection.close(); // what was committed is in the log, if not in the file
    match made {
        Ok(shown) => Ok(shown),
        Err(ended) => Err(RebuildEnd::Ended(ended)),
    }
}
