//! A store over a connection, which changes whole or not at all.
ghost use Rattle.std.specs.Prelude.{◌≡◌, false};

use crate::error::TableError;
use crate::filling::make_filled_kept;
use crate::keeping::{look_kept, make_kept, renew_kept, write_kept};
use crate::marking::{mark_kept, outdated_kept};
use crate::moving::set_site_kept;
use crate::reads::Unread;
use crate::rounds::write_all_kept;
use sqlite::{Alter, Connection};
use std::alloc::Global;
use store_rows::{Content, SessionEdit, StoredCell, StoredNotice, Version};

/// A database that is a store, or will be made one. After the first refusal of the device it stays failed, and every
/// call answers `StoreFault`.
pub struct Tables<S: Alter> {
    conn: Connection<S>,
    failed: bool,
    ghost idle: { conn.in_transaction ≡ false },
}

impl<S: Alter + Drop> Drop for Tables<S> {
    fn drop(self) {
        let Tables { conn: _, failed: _ } = self;
    }
}

impl<S: Alter> Tables<S> {
    ghost use Rattle.std.specs.Prelude.{◌≡◌, ◌≢◌, ◌+◌, ◌<◌, ◌^◌, [], None, Ok, Err, true, false, All, Some, IsTrue, IfOk, OnOk, if◌then◌else◌};
    ghost use Rattle.store_rows.specs.Changes.{changed, renewed};
    ghost use Rattle.store_rows.specs.Steps.{IsStorable};
    ghost use Rattle.store_schema.specs.declared.Version.TheVariants.{Second};
    ghost use Rattle.store_tables.specs.Transacts.{Takes, filled, made, with_site};
    ghost use Rattle.store_tables.specs.Looking.{IsRefusedLook, KeepsAll, Looks};
    ghost use Rattle.store_tables.specs.Reads.{IsInRange};
    ghost use Rattle.store_tables.specs.Rounds.{AreStorable, TakesAll, changed_all};
    ghost use Rattle.store_tables.specs.Kept.{has_failed, connection_of, IsHonest, KeepsStore, KeepsOneOf, KeepsBlank, KeepsBlankOr, KeepsOthers, KeepsOutdated, KeepsTold, CommitsNothing, IsRefusal, StopsAtFault};
    ghost use Rattle.store_tables.specs.declared.error.TableError.TheVariants.{BadStore, Memory, StoreFault};

    /// The tables of a database, of which the caller shows that no transaction is open. Calls no store.
    pub fn over(conn: Connection<S>) -> Tables<S>
        requires { conn.in_transaction ≡ false }
        ensures connection { connection_of result ≡ conn }
        ensures sound { has_failed result ≡ false }
    {
        Tables {
            conn,
            failed: false,
        }
    }

    /// The connection, as it is.
    pub fn into_connection(self) -> Connection<S>
        ensures { result ≡ connection_of self }
    {
        let Tables { conn, failed: _ } = self;
        conn
    }

    /// 0, and 1 from the first refusal of the device on.
    pub fn faults(&self) -> u64
        ensures { result ≡ (if has_failed self.now then 1 else 0) }
    {
        if self.failed { 1 } else { 0 }
    }

    /// Stops the store: from now on every call answers `StoreFault`. What is kept stays.
    pub fn stop(&mut self)
        ensures connection { connection_of self.new ≡ connection_of self.old }
        ensures stopped { IsTrue (has_failed self.new) }
    {
        self.failed = true;
    }

    /// Makes an empty store of the second version in a database that has none of its tables, in one transaction.
    pub fn make(&mut self, site: &str, layout: &str) -> Result<(), TableError>
        ensures ok { KeepsBlank self.old → OnOk result (KeepsStore self.new (made site.now layout.now)) }
        ensures memory { KeepsBlank self.old → result ≡ Err Memory → KeepsBlank self.new }
        ensures either { KeepsBlank self.old → result ≡ Err StoreFault → KeepsBlankOr self.new (made site.now layout.now) }
        ensures stops { StopsAtFault self.old result self.new }
        ensures kind { result ≢ Err BadStore }
    {
        if self.failed {
            return Err(TableError::StoreFault);
        }
        let done = make_kept(&mut self.conn, site, layout);
        self.failed = done == Err(TableError::StoreFault);
        done
    }

    /// Makes a store of the second version with counters and notices in it, in a database that has none of its tables, in one
    /// transaction.
    pub fn make_filled(
        &mut self,
        site: &str,
        layout: &str,
        cells: &[StoredCell],
        notices: &[StoredNotice],
    ) -> Result<(), TableError>
        requires cells { All (λ c. c.n < 2 ^ 63) cells.now }
        requires notices { All (λ n. (n.announced < 2 ^ 63) × (n.finished < 2 ^ 63)) notices.now }
        ensures ok { KeepsBlank self.old → OnOk result (KeepsStore self.new (filled site.now layout.now cells.now notices.now)) }
        ensures memory { KeepsBlank self.old → result ≡ Err Memory → KeepsBlank self.new }
        ensures either { KeepsBlank self.old → result ≡ Err StoreFault → KeepsBlankOr self.new (filled site.now layout.now cells.now notices.now) }
        ensures stops { StopsAtFault self.old result self.new }
        ensures kind { result ≢ Err BadStore }
    {
        if self.failed {
            return Err(TableError::StoreFault);
        }
        let done = make_filled_kept(&mut self.conn, site, layout, cells, notices);
        self.failed = done == Err(TableError::StoreFault);
        done
    }

    /// Brings a store, whose version the caller knows from a look at it, to the second version and to this layout
    /// line, in one transaction. Tables of other names, which were made behind its own, keep their rows.
    pub fn renew(&mut self, version: Version, layout: &str) -> Result<(), TableError>
        ensures ok { (it : _) → it.version ≡ version → KeepsStore self.old it → OnOk result (KeepsStore self.new (renewed layout.now it)) }
        ensures memory { (it : _) → it.version ≡ version → KeepsStore self.old it → result ≡ Err Memory → KeepsStore self.new it }
        ensures either { (it : _) → it.version ≡ version → KeepsStore self.old it → result ≡ Err StoreFault → KeepsOneOf self.new it (renewed layout.now it) }
        ensures beside { (it : _) → (others : _) → it.version ≡ version → KeepsStore self.old it → KeepsOthers self.old others → KeepsOthers self.new others }
        ensures stops { StopsAtFault self.old result self.new }
        ensures kind { result ≢ Err BadStore }
    {
        if self.failed {
            return Err(TableError::StoreFault);
        }
        let done = renew_kept(&mut self.conn, version, layout);
        self.failed = done == Err(TableError::StoreFault);
        done
    }

    /// Sets the row for the site of a store of the second version, in one transaction. Tables of other names, which were made
    /// behind its own, keep their rows.
    pub fn set_site(&mut self, site: &str) -> Result<(), TableError>
        ensures ok { (it : _) → it.version ≡ Second → KeepsStore self.old it → OnOk result (KeepsStore self.new (with_site site.now it)) }
        ensures memory { (it : _) → it.version ≡ Second → KeepsStore self.old it → result ≡ Err Memory → KeepsStore self.new it }
        ensures either { (it : _) → it.version ≡ Second → KeepsStore self.old it → result ≡ Err StoreFault → KeepsOneOf self.new it (with_site site.now it) }
        ensures beside { (it : _) → (others : _) → it.version ≡ Second → KeepsStore self.old it → KeepsOthers self.old others → KeepsOthers self.new others }
        ensures stops { StopsAtFault self.old result self.new }
        ensures kind { result ≢ Err BadStore }
    {
        if self.failed {
            return Err(TableError::StoreFault);
        }
        let done = set_site_kept(&mut self.conn, site);
        self.failed = done == Err(TableError::StoreFault);
        done
    }

    /// Sets counters and notices and puts or drops a session, in one transaction. Where there is nothing to do, it
    /// calls no store. Tables of other names, which were made behind its own, keep their rows.
    pub fn commit(
        &mut self,
        cells: &[StoredCell],
        notices: &[StoredNotice],
        edit: Option<SessionEdit>,
    ) -> Result<(), TableError>
        requires cells { All (λ c. c.n < 2 ^ 63) cells.now }
        requires notices { All (λ n. (n.announced < 2 ^ 63) × (n.finished < 2 ^ 63)) notices.now }
        requires edit { IsStorable edit }
        ensures ok { (it : _) → Takes edit it → KeepsStore self.old it → OnOk result (KeepsStore self.new (changed cells.now notices.now edit it)) }
        ensures memory { (it : _) → Takes edit it → KeepsStore self.old it → result ≡ Err Memory → KeepsStore self.new it }
        ensures either { (it : _) → Takes edit it → KeepsStore self.old it → result ≡ Err StoreFault → KeepsOneOf self.new it (changed cells.now notices.now edit it) }
        ensures beside { (it : _) → (others : _) → Takes edit it → KeepsStore self.old it → KeepsOthers self.old others → KeepsOthers self.new others }
        ensures stops { StopsAtFault self.old result self.new }
        ensures kind { result ≢ Err BadStore }
        ensures nothing { cells.now ≡ [] → notices.now ≡ [] → edit ≡ None → self.new ≡ self.old }
    {
        if self.failed {
            return Err(TableError::StoreFault);
        }
        if cells.is_empty() && notices.is_empty() && edit.is_none() {
            return Ok(());
        }
        let done = write_kept(&mut self.conn, cells, notices, edit);
        self.failed = done == Err(TableError::StoreFault);
        done
    }

    /// Sets counters and notices and puts and drops sessions, each list in turn, in one transaction: the rows of several
    /// changes. Tables of other names, which were made behind its own, keep their rows.
    pub fn commit_all(
        &mut self,
        cells: &[StoredCell],
        notices: &[StoredNotice],
        edits: &[SessionEdit],
    ) -> Result<(), TableError>
        requires cells { All (λ c. c.n < 2 ^ 63) cells.now }
        requires notices { All (λ n. (n.announced < 2 ^ 63) × (n.finished < 2 ^ 63)) notices.now }
        requires edits { AreStorable edits.now }
        ensures ok { (it : _) → TakesAll edits.now it → KeepsStore self.old it → OnOk result (KeepsStore self.new (changed_all cells.now notices.now edits.now it)) }
        ensures memory { (it : _) → KeepsStore self.old it → result ≡ Err Memory → KeepsStore self.new it }
        ensures either { (it : _) → TakesAll edits.now it → KeepsStore self.old it → result ≡ Err StoreFault → KeepsOneOf self.new it (changed_all cells.now notices.now edits.now it) }
        ensures beside { (it : _) → (others : _) → TakesAll edits.now it → KeepsStore self.old it → KeepsOthers self.old others → KeepsOthers self.new others }
        ensures stops { StopsAtFault self.old result self.new }
        ensures kind { result ≢ Err BadStore }
    {
        if self.failed {
            return Err(TableError::StoreFault);
        }
        let done = write_all_kept(&mut self.conn, cells, notices, edits);
        self.failed = done == Err(TableError::StoreFault);
        done
    }

    /// What the store holds, or `None` where the database has none of its tables. Refused with `BadStore` where the
    /// tables, their columns, the rows of `meta` or a value are not those of a store. At most four calls of the store
    /// in one transaction, which changes nothing.
    pub fn look(&mut self, alloc: Global) -> Result<Option<Content>, TableError>
        ensures looks { Looks S.Store BadStore (connection_of self.old) result (connection_of self.new) }
        ensures keeps { KeepsAll S.Store (connection_of self.old) (connection_of self.new) }
        ensures refused { has_failed self.old ≡ false → IsRefusedLook S.Store StoreFault (connection_of self.old) result (connection_of self.new) }
        ensures stops { StopsAtFault self.old result self.new }
    {
        if self.failed {
            return Err(TableError::StoreFault);
        }
        match look_kept(alloc, &mut self.conn) {
            Ok(found) => return Ok(found),
            Err(Unread::Bad) => return Err(TableError::BadStore),
            Err(Unread::Memory) => return Err(TableError::Memory),
            Err(Unread::Failed) => {}
        }
        self.failed = true;
        Err(TableError::StoreFault)
    }

    /// What the store holds, which has to be one by now. Anything else is answered with `BadStore`, and is a fault of
    /// the device too, since it has not kept what was written.
    pub fn load(&mut self, alloc: Global) -> Result<Content, TableError>
        ensures read { (it : _) → KeepsStore self.old it → IsHonest self.new → IfOk result (λ found. found ≡ it) }
        ensures own { (it : _) → IsInRange it → KeepsStore self.old it → IsHonest self.new → result ≢ Err BadStore }
        ensures kept { (it : _) → KeepsStore self.old it → KeepsStore self.new it }
        ensures either { (a : _) → (b : _) → KeepsOneOf self.old a b → KeepsOneOf self.new a b }
        ensures beside { (others : _) → KeepsOthers self.old others → KeepsOthers self.new others }
        ensures honest { IsHonest self.new → IsHonest self.old }
        ensures fault { result ≡ Err StoreFault → IsTrue (has_failed self.new) }
        ensures bad { result ≡ Err BadStore → IsTrue (has_failed self.new) }
        ensures sound { result ≢ Err StoreFault → result ≢ Err BadStore → has_failed self.new ≡ false }
        ensures stopped { IsTrue (has_failed self.old) → (result ≡ Err StoreFault) × (self.new ≡ self.old) }
    {
        match self.look(alloc) {
            Ok(Some(content)) => Ok(content),
            Ok(None) | Err(TableError::BadStore) => {
                self.failed = true;
                Err(TableError::BadStore)
            }
            Err(error) => Err(error),
        }
    }

    /// Marks a store of the second version as older than what others have seen of its site: sets the row `outdated` of
    /// `meta` to `1`, in a transaction of its own. What the store holds stays, whatever the answer.
    pub fn mark_outdated(&mut self) -> Result<(), TableError>
        ensures ok { (it : _) → it.version ≡ Second → KeepsStore self.old it → OnOk result (KeepsOutdated self.new) }
        ensures kept { (it : _) → it.version ≡ Second → KeepsStore self.old it → KeepsStore self.new it }
        ensures either { (a b : _) → a.version ≡ Second → b.version ≡ Second → KeepsOneOf self.old a b → KeepsOneOf self.new a b }
        ensures beside { (it : _) → (others : _) → it.version ≡ Second → KeepsStore self.old it → KeepsOthers self.old others → KeepsOthers self.new others }
        ensures memory { result ≡ Err Memory → CommitsNothing self.old self.new }
        ensures stops { StopsAtFault self.old result self.new }
        ensures kind { result ≢ Err BadStore }
    {
        if self.failed {
            return Err(TableError::StoreFault);
        }
        let done = mark_kept(&mut self.conn);
        self.failed = done == Err(TableError::StoreFault);
        done
    }

    /// Whether the store is marked so: whether `meta` has a row of that name, with any value. At most two calls of the
    /// store in one transaction, which changes nothing.
    pub fn is_outdated(&mut self) -> Result<bool, TableError>
        ensures told { (it : _) → KeepsStore self.old it → IfOk result (KeepsTold self.new) }
        ensures marked { (it : _) → KeepsStore self.old it → KeepsOutdated self.old → IsHonest self.new → IfOk result (λ found. found ≡ true) }
        ensures unmarked { (it : _) → KeepsStore self.old it → KeepsTold self.old false → IsHonest self.new → IfOk result (λ found. found ≡ false) }
        ensures unwritten { CommitsNothing self.old self.new }
        ensures stops { StopsAtFault self.old result self.new }
        ensures kind { result ≢ Err BadStore }
        ensures refused { has_failed self.old ≡ false → (it : _) → KeepsStore self.old it → IsHonest self.new → result ≡ Err StoreFault → IsRefusal self.old self.new }
    {
        if self.failed {
            return Err(TableError::StoreFault);
        }
        match outdated_kept(&mut self.conn) {
            Ok(found) => return Ok(found),
            Err(Unread::Memory) => return Err(TableError::Memory),
            Err(Unread::Bad | Unread::Failed) => {}
        }
        self.failed = true;
        Err(TableError::StoreFault)
    }
}
