//! A keeper over an SQLite database.
ghost use Rattle.std.specs.Prelude.{◌≡◌, ◌≢◌, ◌↔◌, ℕ, ◌+◌, ◌<◌, ◌^◌, List, All, Err, false, string_bytes, option_map, IsTrue, IfOk, OnOk};
ghost use Rattle.sqlite.specs.Effect.{Database};
ghost use Rattle.sqlite.specs.State.{HasCleanDisk};
ghost use Rattle.sqlite.specs.Held.{state};
ghost use Rattle.sqlite.specs.declared.connection.Connection.{Connection};
ghost use Rattle.merge_core.specs.Layout.{LayoutState};
ghost use Rattle.store_rows.specs.Rows.{Stored};
ghost use Rattle.store_rows.specs.Steps.{IsStorable};
ghost use Rattle.store_tables.specs.Kept.{StopsAtFault, has_failed, connection_of};
ghost use Rattle.store_rows.specs.Holding.{Keeps, KeepsBeside, KeepsEither};
ghost use Rattle.store_tables.specs.Transacts.{Takes};
ghost use Rattle.store_tables.specs.declared.error.TableError.TheVariants.{BadStore, Memory as NoMemory, StoreFault as NoStore};
ghost use Rattle.store_content.specs.Plan.{IsTellable, LacksPlace, after};
ghost use Rattle.site_store.specs.SiteText.{named};
ghost use Rattle.site_store.specs.Sql.{Stores, Changes, ChangesEither};
ghost use Rattle.durable_keeper.specs.declared.error.KeeperError.TheVariants.{Memory, StoreFault};

use crate::error::{ServedError, StoreOpenError, keeper_error};
use crate::opening::{prepare, site_text};
use crate::served::{Permission, check_permission, prepare_permitted};
use admission_core::{Change, Durable};
use durable_keeper::{Keeper, KeeperError};
use live_keeper::LiveKeeper;
use merge_core::Layout;
use sqlite::{Alter, Connection};
use std::alloc::{AllocError, Global};
use store_content::{Index, Rows, durable_of};
use store_rows::{SessionEdit, StoredCell, StoredNotice};
use store_tables::{TableError, Tables};

// What is above no whole number of the database: they have 63 bits and a sign.
const MOST: u64 = 0x7fff_ffff_ffff_ffff;

/// Whether the database has numbers for these counters.
fn are_counters(cells: &[StoredCell]) -> bool
    ensures { IsTrue result ↔ All (λ c. c.n < 2 ^ 63) cells.now }
{
    cells.iter().all(|cell| cell.n <= MOST)
}

/// Whether it has numbers for these notices.
fn are_notices(notices: &[StoredNotice]) -> bool
    ensures { IsTrue result ↔ All (λ n. (n.announced < 2 ^ 63) × (n.finished < 2 ^ 63)) notices.now }
{
    notices.iter().all(|notice| notice.announced <= MOST && notice.finished <= MOST)
}

/// Whether it has numbers for the edit of a session.
fn is_edit(edit: Option<SessionEdit>) -> bool
    ensures { IsTrue result ↔ IsStorable edit }
{
    match edit {
        Some(SessionEdit::Put(session)) => session.h <= MOST && session.place <= MOST,
        Some(SessionEdit::Dropped { r: _, h }) => h <= MOST,
        None => true,
    }
}

/// Puts rows into the tables, in one transaction.
fn put<S: Alter>(tables: &mut Tables<S>, rows: &Rows) -> Result<(), TableError>
    requires cells { All (λ c. c.n < 2 ^ 63) rows.now.cells }
    requires notices { All (λ n. (n.announced < 2 ^ 63) × (n.finished < 2 ^ 63)) rows.now.notices }
    requires edit { IsStorable rows.now.edit }
    ensures ok { (it : Stored) → Takes rows.now.edit it → Keeps S.Store (connection_of tables.old) it
        → OnOk result (Keeps S.Store (connection_of tables.new) (after rows.now it)) }
    ensures memory { (it : Stored) → Takes rows.now.edit it → Keeps S.Store (connection_of tables.old) it
        → result ≡ Err NoMemory → Keeps S.Store (connection_of tables.new) it }
    ensures either { (it : Stored) → Takes rows.now.edit it → Keeps S.Store (connection_of tables.old) it
        → result ≡ Err NoStore → KeepsEither S.Store (connection_of tables.new) it (after rows.now it) }
    ensures beside { (it : Stored) → (others : Database) → Takes rows.now.edit it → Keeps S.Store (connection_of tables.old) it
        → KeepsBeside S.Store (connection_of tables.old) others → KeepsBeside S.Store (connection_of tables.new) others }
    ensures stops { StopsAtFault tables.old result tables.new }
    ensures kind { result ≢ Err BadStore }
{
    tables.commit(&rows.cells, &rows.notices, rows.edit)
}

/// Whether the database has numbers for all rows.
pub(crate) fn are_rows(rows: &Rows) -> bool
    ensures cells { IsTrue result → All (λ c. c.n < 2 ^ 63) rows.now.cells }
    ensures notices { IsTrue result → All (λ n. (n.announced < 2 ^ 63) × (n.finished < 2 ^ 63)) rows.now.notices }
    ensures edit { IsTrue result → IsStorable rows.now.edit }
    ensures all { All (λ c. c.n < 2 ^ 63) rows.now.cells → All (λ n. (n.announced < 2 ^ 63) × (n.finished < 2 ^ 63)) rows.now.notices
        → IsStorable rows.now.edit → IsTrue result }
{
    is_edit(rows.edit) && are_counters(&rows.cells) && are_notices(&rows.notices)
}

/// Makes a change in the tables, and takes it into the index. Where no place is left for a session, or the database has
/// no such number, the tables are stopped, as after a refusal of the device.
fn commit_rows<S: Alter>(
    alloc: Global,
    tables: &mut Tables<S>,
    index: &mut Index,
    change: &Change,
) -> Result<(), KeeperError>
    requires tellable { IsTellable change.now }
    requires sound { has_failed tables.old ≡ false }
    ensures ok { (layout : LayoutState) (site : List ℕ) (it : Stored) → Stores S.Store layout site (connection_of tables.old) index.old it
        → OnOk result (Changes S.Store layout site change.now it (connection_of tables.new) index.new) }
    ensures memory { (layout : LayoutState) (site : List ℕ) (it : Stored) → Stores S.Store layout site (connection_of tables.old) index.old it
        → result ≡ Err Memory → Stores S.Store layout site (connection_of tables.new) index.new it }
    ensures fault { (layout : LayoutState) (site : List ℕ) (it : Stored) → Stores S.Store layout site (connection_of tables.old) index.old it
        → result ≡ Err StoreFault → ChangesEither S.Store layout site change.now it (connection_of tables.new) }
    ensures full { (layout : LayoutState) (site : List ℕ) (it : Stored) → Stores S.Store layout site (connection_of tables.old) index.old it
        → LacksPlace change.now.session it → result ≡ Err StoreFault }
    ensures beside { (layout : LayoutState) (site : List ℕ) (it : Stored) (others : Database) → Stores S.Store layout site (connection_of tables.old) index.old it
        → KeepsBeside S.Store (connection_of tables.old) others → KeepsBeside S.Store (connection_of tables.new) others }
    ensures honest { HasCleanDisk (state S.Store (connection_of tables.new)) → HasCleanDisk (state S.Store (connection_of tables.old)) }
    ensures told { result ≡ Err StoreFault → IsTrue (has_failed tables.new) }
    ensures still { result ≢ Err StoreFault → has_failed tables.new ≡ false }
{
    let Some(rows) = index.plan(alloc, change)? else {
        tables.stop();
        return Err(KeeperError::StoreFault);
    };
    if !are_rows(&rows) {
        tables.stop();
        return Err(KeeperError::StoreFault);
    }
    index.reserve(&rows)?;
    match put(tables, &rows) {
        Ok(()) => {
            index.advance(&rows);
            Ok(())
        }
        Err(refusal) => Err(keeper_error(refusal)),
    }
}

/// The name of a group in memory of its own.
fn copied_group(alloc: Global, group: Option<&str>) -> Result<Option<String>, AllocError>
    ensures { IfOk result (λ copy. option_map string_bytes copy ≡ named group.entry) }
{
    match group {
        Some(name) => Ok(Some(String::from_str(alloc, name)?)),
        None => Ok(None),
    }
}

/// It keeps a site's durable part in an SQLite database, each change in a transaction of its own.
///
/// Beside the connection it has the places of the sessions and the notices in memory, so that a change asks the
/// database nothing.
pub struct SqlKeeper<S: Alter> {
    pub(crate) alloc: Global,
    pub(crate) tables: Tables<S>,
    pub(crate) index: Index,
    pub(crate) layout: Layout,
    site: u16,
    group: Option<String>,
}

impl<S: Alter + Drop> Drop for SqlKeeper<S> {
    fn drop(self) {
        let SqlKeeper {
            alloc: _,
            tables: _,
            index: _,
            layout: _,
            site: _,
            group: _,
        } = self;
    }
}

impl<S: Alter> SqlKeeper<S> {
    ghost use Rattle.std.specs.Prelude.{◌≡◌, ◌≢◌, [], None, Some, Err, true, false, IfOk, IfErr, OnOk};
    ghost use Rattle.admission_core.specs.Kept.{DurableState};
    ghost use Rattle.durable_keeper.specs.Keeping.{IsChange, changed, nothing_kept};
    ghost use Rattle.store_rows.specs.Rows.{Stored};
    ghost use Rattle.store_rows.specs.Holding.{Keeps, KeepsBeside, KeepsEither, KeepsNothing, KeepsNothingOr};
    ghost use Rattle.sqlite.specs.Effect.{Database};
    ghost use Rattle.store_content.specs.Plan.{LacksPlace, after_change};
    ghost use Rattle.durable_keeper.specs.declared.error.KeeperError.TheVariants.{Memory, StoreFault};
    ghost use Rattle.site_store.specs.Sql.{KeepsContent, KeepsContentOr, KeepsEitherPart, KeepsPart, below, faults_of, group_of, is_honest, layout_of, site_of, KeepsOutdated};
    ghost use Rattle.durable_keeper.specs.declared.error.KeeperError.{KeeperError};
    ghost use Rattle.store_tables.specs.Transacts.{with_site};
    ghost use Rattle.site_store.specs.SiteText.{named, site_text};
    ghost use Rattle.site_store.specs.Opened.{CommitsNothing, IsByDevice, IsCurrent, IsFault, IsJudgedFirst, IsKeeperOf, IsLeftEither, IsLeftOr, IsOwn, Opens, OpensBlank, Settles, SettlesOr, left_by};
    ghost use Rattle.site_store.specs.declared.error.ServedError.TheVariants.{Outdated};
    ghost use Rattle.site_store.specs.Served.{AnswersBySchema, KeepsMark, KeepsNoMark, IsLeftOfDoubt, IsLeftOfEither, IsServedByDevice, IsServedFault, IsServedJudgedFirst, IsTaken, ServesNothing, ServesStore, left_served};

    /// Opens a database as the store of a site of a layout, with no transaction open, as the caller shows. Where a group
    /// of sites is named, by any text, the store is that of the site in this group; without a name it is in no group.
    ///
    /// Where the database has none of the tables, they are made in one transaction, for this site and group. A store of
    /// the first version gets the second, and one whose layout is an earlier one of this layout's growth gets this
    /// layout's line, in one transaction where both are due. Everything is judged before. A refusal hands the connection
    /// back. Tables of other names, which were made behind those of a store, keep their rows. Linear in what is stored.
    pub fn open(
        alloc: Global,
        connection: Connection<S>,
        layout: &Layout,
        site: u16,
        group: Option<&str>,
    ) -> Result<SqlKeeper<S>, (StoreOpenError, Connection<S>)>
        requires { connection.in_transaction ≡ false }
        ensures keeper { IfOk result (IsKeeperOf layout.now site (named group.entry)) }
        ensures store { (it : Stored) → Keeps S.Store connection it → Opens layout.now site (named group.entry) it result }
        ensures blank { KeepsNothing S.Store connection → OpensBlank layout.now site (named group.entry) result }
        ensures settles { (a b : Stored) → KeepsEither S.Store connection a b → IfOk result (Settles a b) }
        ensures own { (a b : Stored) → IsOwn layout.now site (named group.entry) a → IsOwn layout.now site (named group.entry) b → KeepsEither S.Store connection a b
            → IfErr result (IsByDevice S.Store) }
        ensures settles_or { (it : Stored) → KeepsNothingOr S.Store connection it → IfOk result (SettlesOr it) }
        ensures own_or { (it : Stored) → IsOwn layout.now site (named group.entry) it → KeepsNothingOr S.Store connection it → IfErr result (IsByDevice S.Store) }
        ensures left { (a b : Stored) → KeepsEither S.Store connection a b → IfErr result (λ x. IsLeftEither S.Store layout.now a b x.1 x.0) }
        ensures left_or { (it : Stored) → KeepsNothingOr S.Store connection it → IfErr result (λ x. IsLeftOr S.Store layout.now site (named group.entry) it x.1 x.0) }
        ensures fault { (it : Stored) → Keeps S.Store connection it → IfErr result (IsFault S.Store layout.now site (named group.entry) it connection) }
        ensures judged { IfErr result (IsJudgedFirst S.Store connection) }
        ensures current { (it : Stored) → IsCurrent layout.now it → Keeps S.Store connection it → HasCleanDisk (state S.Store (left_by result))
            → CommitsNothing S.Store connection (left_by result) }
        ensures beside { (a b : Stored) → (others : Database) → KeepsEither S.Store connection a b → KeepsBeside S.Store connection others
            → KeepsBeside S.Store (left_by result) others }
        ensures honest { IfOk result (λ k. is_honest k → HasCleanDisk (state S.Store connection)) }
    {
        let Ok(copy) = layout.try_copy(alloc) else {
            return Err((StoreOpenError::Memory, connection));
        };
        let Ok(name) = copied_group(alloc, group) else {
            return Err((StoreOpenError::Memory, connection));
        };
        let mut tables = Tables::over(connection);
        match prepare(alloc, &mut tables, layout, site, group) {
            Ok(index) => Ok(SqlKeeper {
                alloc,
                tables,
                index,
                layout: copy,
                site,
                group: name,
            }),
            Err(error) => Err((error, tables.into_connection())),
        }
    }

    /// Opens a database for a service, with no transaction open, as the caller shows. A store is made only where that is
    /// permitted and the database holds no table, index or view at all; a database that holds any has to be a store as
    /// this program makes one, and none may be there where one is to be made. Else it is refused before a row is read.
    /// A store is judged as [`open`](SqlKeeper::open) judges it, but gets this layout's line in place of an earlier one
    /// only where the store may grow; one that is marked as outdated is refused behind the site and the group, and before the
    /// layout. The answer also tells whether this call made the store. A refusal hands the
    /// connection back. Linear in the schema and in what is stored.
    pub fn open_served(
        alloc: Global,
        connection: Connection<S>,
        layout: &Layout,
        site: u16,
        group: Option<&str>,
        permission: Permission,
    ) -> Result<(SqlKeeper<S>, bool), (ServedError, Connection<S>)>
        requires { connection.in_transaction ≡ false }
        ensures keeper { IfOk result (λ x. IsKeeperOf layout.now site (named group.entry) x.0) }
        ensures store { (it : Stored) → Keeps S.Store connection it → ServesStore permission layout.now site (named group.entry) it result }
        ensures blank { KeepsNothing S.Store connection → ServesNothing permission layout.now site (named group.entry) result }
        ensures schema { HasCleanDisk (state S.Store (left_served result)) → AnswersBySchema permission (state S.Store connection).now.schema result }
        ensures created { IfOk result (λ x. x.1 ≡ true → KeepsPart x.0 nothing_kept) }
        ensures judged { IfErr result (IsServedJudgedFirst S.Store connection) }
        ensures marked { (it : Stored) → Keeps S.Store connection it → KeepsMark S.Store connection → IfOk result (λ x. ¬ is_honest x.0) }
        ensures unmarked { (it : Stored) → Keeps S.Store connection it → KeepsNoMark S.Store connection
            → IfErr result (λ x. HasCleanDisk (state S.Store x.1) → x.0 ≢ Outdated) }
        ensures settles { (a b : Stored) → KeepsEither S.Store connection a b → IfOk result (λ x. Settles a b x.0) }
        ensures own { permission.create ≡ false → (a b : Stored) → IsTaken permission.grow layout.now site (named group.entry) a → IsTaken permission.grow layout.now site (named group.entry) b
            → KeepsEither S.Store connection a b → IfErr result (IsServedByDevice S.Store) }
        ensures settles_or { (it : Stored) → KeepsNothingOr S.Store connection it → IfOk result (λ x. SettlesOr it x.0) }
        ensures left { (a b : Stored) → KeepsEither S.Store connection a b → IfErr result (λ x. IsLeftOfEither S.Store layout.now a b x.1 x.0) }
        ensures left_or { (it : Stored) → KeepsNothingOr S.Store connection it → IfErr result (λ x. IsLeftOfDoubt S.Store layout.now site (named group.entry) it x.1 x.0) }
        ensures fault { (it : Stored) → Keeps S.Store connection it → IfErr result (IsServedFault S.Store layout.now site (named group.entry) it connection) }
        ensures current { (it : Stored) → IsCurrent layout.now it → Keeps S.Store connection it → HasCleanDisk (state S.Store (left_served result))
            → CommitsNothing S.Store connection (left_served result) }
        ensures beside { (a b : Stored) → (others : Database) → KeepsEither S.Store connection a b → KeepsBeside S.Store connection others
            → KeepsBeside S.Store (left_served result) others }
        ensures honest { IfOk result (λ x. is_honest x.0 → HasCleanDisk (state S.Store connection)) }
        ensures idle { IfErr result (λ x. x.1.in_transaction ≡ false) }
    {
        let mut connection = connection;
        match check_permission(&mut connection, permission) {
            Ok(()) => {}
            Err(error) => return Err((error, connection)),
        }
        let Ok(copy) = layout.try_copy(alloc) else {
            return Err((ServedError::Memory, connection));
        };
        let Ok(name) = copied_group(alloc, group) else {
            return Err((ServedError::Memory, connection));
        };
        let mut held = Tables::over(connection);
        match prepare_permitted(alloc, &mut held, layout, site, group, permission) {
            Ok(index) => Ok((
                SqlKeeper {
                    alloc,
                    tables: held,
                    index,
                    layout: copy,
                    site,
                    group: name,
                },
                permission.create,
            )),
            Err(error) => Err((error, held.into_connection())),
        }
    }

    /// Makes a change of what is kept, as `commit` of [`Keeper`] does, which calls this. The content is known after it: a
    /// session that comes has the place after the greatest, and one that is there keeps its own. Where no place is left,
    /// the answer is `StoreFault`. Tables of other names, which were made behind those of the store, keep their rows.
    pub fn make_change(&mut self, change: &Change) -> Result<(), KeeperError>
        requires { IsChange (layout_of self.old) (site_of self.old) change.now }
        ensures content { (it : Stored) → KeepsContent self.old it → OnOk result (KeepsContent self.new (after_change change.now it)) }
        ensures doubt { (it : Stored) → KeepsContent self.old it → result ≡ Err StoreFault → KeepsContentOr self.new change.now it }
        ensures full { (it : Stored) → KeepsContent self.old it → LacksPlace change.now.session it → result ≡ Err StoreFault }
        ensures ok { (d : DurableState) → KeepsPart self.old d → OnOk result (KeepsPart self.new (changed change.now d)) }
        ensures memory { (d : DurableState) → KeepsPart self.old d → result ≡ Err Memory → KeepsPart self.new d }
        ensures fault { (d : DurableState) → KeepsPart self.old d → result ≡ Err StoreFault → KeepsEitherPart self.new d (changed change.now d) }
        ensures beside { (d : DurableState) → (others : Database) → KeepsPart self.old d → KeepsBeside S.Store (below self.old) others → KeepsBeside S.Store (below self.new) others }
        ensures honest { is_honest self.new → is_honest self.old }
        ensures told { result ≡ Err StoreFault → faults_of self.new ≡ 1 }
        ensures sound { result ≢ Err StoreFault → faults_of self.new ≡ 0 }
        ensures stopped { faults_of self.old ≡ 1 → (result ≡ Err StoreFault) × (self.new ≡ self.old) }
        ensures nothing { change.now.cells ≡ [] → change.now.session ≡ None → self.new ≡ self.old }
        ensures layout { layout_of self.new ≡ layout_of self.old }
        ensures site { site_of self.new ≡ site_of self.old }
        ensures group { group_of self.new ≡ group_of self.old }
    {
        if self.tables.faults() > 0 {
            return Err(KeeperError::StoreFault);
        }
        if change.is_empty() {
            return Ok(());
        }
        let _ = self.layout.sites(); // tells that the layout is one
        commit_rows(self.alloc, &mut self.tables, &mut self.index, change)
    }

    /// Marks the store as older than what others have seen of its site, in a transaction of its own: no service opens it
    /// any more. What it keeps stays, whatever the answer, and so do tables of other names, which were made behind its own.
    pub fn set_outdated(&mut self) -> Result<(), KeeperError>
        ensures ok { (d : DurableState) → KeepsPart self.old d → OnOk result (KeepsOutdated self.new) }
        ensures content { (it : Stored) → KeepsContent self.old it → KeepsContent self.new it }
        ensures kept { (d : DurableState) → KeepsPart self.old d → KeepsPart self.new d }
        ensures either { (d e : DurableState) → KeepsEitherPart self.old d e → KeepsEitherPart self.new d e }
        ensures beside { (d : DurableState) → (others : Database) → KeepsPart self.old d → KeepsBeside S.Store (below self.old) others → KeepsBeside S.Store (below self.new) others }
        ensures memory { result ≡ Err Memory → CommitsNothing S.Store (below self.old) (below self.new) }
        ensures honest { is_honest self.new → is_honest self.old }
        ensures told { result ≡ Err StoreFault → faults_of self.new ≡ 1 }
        ensures sound { result ≢ Err StoreFault → faults_of self.new ≡ 0 }
        ensures stopped { faults_of self.old ≡ 1 → (result ≡ Err StoreFault) × (self.new ≡ self.old) }
        ensures layout { layout_of self.new ≡ layout_of self.old }
        ensures site { site_of self.new ≡ site_of self.old }
        ensures group { group_of self.new ≡ group_of self.old }
    {
        if self.tables.faults() > 0 {
            return Err(KeeperError::StoreFault);
        }
        match self.tables.mark_outdated() {
            Ok(()) => Ok(()),
            Err(error) => Err(keeper_error(error)),
        }
    }

    /// What is kept, as `load` of [`Keeper`] gives it, which calls this. Linear in what is stored.
    pub fn load_part(&mut self, alloc: Global) -> Result<Durable, KeeperError>
        ensures found { (d : DurableState) → KeepsPart self.old d → is_honest self.new → IfOk result (λ found. found ≡ d) }
        ensures content { (it : Stored) → KeepsContent self.old it → KeepsContent self.new it }
        ensures kept { (d : DurableState) → KeepsPart self.old d → KeepsPart self.new d }
        ensures either { (d e : DurableState) → KeepsEitherPart self.old d e → KeepsEitherPart self.new d e }
        ensures beside { (others : Database) → KeepsBeside S.Store (below self.old) others → KeepsBeside S.Store (below self.new) others }
        ensures honest { is_honest self.new → is_honest self.old }
        ensures told { result ≡ Err StoreFault → faults_of self.new ≡ 1 }
        ensures sound { result ≢ Err StoreFault → faults_of self.new ≡ 0 }
        ensures stopped { faults_of self.old ≡ 1 → (result ≡ Err StoreFault) × (self.new ≡ self.old) }
        ensures layout { layout_of self.new ≡ layout_of self.old }
        ensures site { site_of self.new ≡ site_of self.old }
        ensures group { group_of self.new ≡ group_of self.old }
    {
        match self.tables.load(alloc) {
            Ok(content) => Ok(durable_of(alloc, &content)?),
            Err(error) => Err(keeper_error(error)),
        }
    }

    /// Moves the store to another group of sites: sets its row for the site, in a transaction of its own, and nothing else.
    /// Tables of other names, which were made behind its own, keep their rows.
    pub fn move_to_group(&mut self, group: &str) -> Result<(), KeeperError>
        ensures content { (it : Stored) → KeepsContent self.old it → OnOk result (KeepsContent self.new (with_site (site_text (site_of self.old) (Some group.now)) it)) }
        ensures ok { (d : DurableState) → KeepsPart self.old d → OnOk result (KeepsPart self.new d) }
        ensures moved { OnOk result (group_of self.new ≡ Some group.now) }
        ensures stays { (e : KeeperError) → result ≡ Err e → group_of self.new ≡ group_of self.old }
        ensures memory { (it : Stored) → KeepsContent self.old it → result ≡ Err Memory → KeepsContent self.new it }
        ensures doubt { (it : Stored) → KeepsContent self.old it → result ≡ Err StoreFault
            → KeepsEither S.Store (below self.new) it (with_site (site_text (site_of self.old) (Some group.now)) it) }
        ensures beside { (it : Stored) → (others : Database) → KeepsContent self.old it → KeepsBeside S.Store (below self.old) others → KeepsBeside S.Store (below self.new) others }
        ensures honest { is_honest self.new → is_honest self.old }
        ensures told { result ≡ Err StoreFault → faults_of self.new ≡ 1 }
        ensures sound { result ≢ Err StoreFault → faults_of self.new ≡ 0 }
        ensures stopped { faults_of self.old ≡ 1 → (result ≡ Err StoreFault) × (self.new ≡ self.old) }
        ensures layout { layout_of self.new ≡ layout_of self.old }
        ensures site { site_of self.new ≡ site_of self.old }
    {
        if self.tables.faults() > 0 {
            return Err(KeeperError::StoreFault);
        }
        let name = String::from_str(self.alloc, group)?;
        let row = site_text(self.alloc, self.site, Some(group))?;
        match self.tables.set_site(row.as_str()) {
            Ok(()) => {
                self.group = Some(name);
                Ok(())
            }
            Err(error) => Err(keeper_error(error)),
        }
    }

    /// The connection, as it is. Takes no memory.
    pub fn into_connection(self) -> Connection<S>
        ensures { result ≡ below self }
    {
        let SqlKeeper {
            alloc: _,
            tables,
            index: _,
            layout: _,
            site: _,
            group: _,
        } = self;
        tables.into_connection()
    }

    /// The tables, the layout, the site and the name of its group.
    pub(crate) fn into_parts(self) -> (Tables<S>, Layout, u16, Option<String>)
        ensures tables { result.0 ≡ self.tables }
        ensures layout { result.1 ≡ self.layout }
        ensures site { result.2 ≡ self.site }
        ensures group { result.3 ≡ self.group }
    {
        let SqlKeeper {
            alloc: _,
            tables,
            index: _,
            layout,
            site,
            group,
        } = self;
        (tables, layout, site, group)
    }
}

impl<S: Alter> Keeper for SqlKeeper<S> {
    ghost use Rattle.site_store.specs.Sql.{layout_of, site_of, is_honest, faults_of, KeepsPart, KeepsEitherPart};

    ghost layout = { layout_of };

    ghost site = { site_of };

    ghost keeps = { KeepsPart };

    ghost keeps_either = { KeepsEitherPart };

    ghost is_honest = { is_honest };

    ghost faults_of = { faults_of };

    fn commit(&mut self, change: &Change) -> Result<(), KeeperError> {
        self.make_change(change)
    }

    fn load(&mut self, alloc: Global) -> Result<Durable, KeeperError> {
        self.load_part(alloc)
    }

    fn faults(&self) -> u64 {
        self.tables.faults()
    }
}

impl<S: Alter> LiveKeeper for SqlKeeper<S> {
    ghost use Rattle.site_store.specs.Sql.{KeepsOutdated};

    ghost is_outdated = { KeepsOutdated };

    fn mark_outdated(&mut self) -> Result<(), KeeperError> {
        self.set_outdated()
    }
}
