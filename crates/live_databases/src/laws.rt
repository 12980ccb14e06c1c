//! Laws of the definitions in specs/: functions that do nothing, whose contracts are the laws.
ghost use Rattle.sqlite_trees.specs.Tree.{Trees};
ghost use Rattle.sqlite_wal.specs.Recovery.{Image};
ghost use Rattle.sqlite_store.specs.declared.store.FileStore.{FileStore};
ghost use Rattle.sqlite.specs.Held.{Held};
ghost use Rattle.sqlite.specs.Files.{HoldsDatabase, over_files};
ghost use Rattle.store_rows.specs.Rows.{Stored};
ghost use Rattle.store_rows.specs.Holding.{Holds, Keeps};
ghost use Rattle.live_databases.specs.LiveFound.{FindsFiles};

use sqlite_disk::Disk;

/// The store that a service finds is the one that the files held: a connection over files that are recovered to a store with
/// this content keeps this content. So what the opening of that connection says of a kept content, it says of the content in
/// the files at the path.
pub fn found_law<D: Disk>()
    ensures store { (image : Image) → (c : Held (FileStore D D.Disk)) → (db : Trees) → (it : Stored) → FindsFiles image c → HoldsDatabase image db → Holds it db
        → Keeps over_files c it }
{}
