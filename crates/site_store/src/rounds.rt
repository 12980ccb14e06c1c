//! The changes of several calls, which a keeper over an SQLite database makes together (group commit).
ghost use Rattle.std.specs.Prelude.{◌≡◌, ◌≢◌, ◌++◌, ℕ, List, [], ◌∷◌, All, Err, false, IsTrue, IfOk, OnOk};
ghost use Rattle.sqlite.specs.Effect.{Database};
ghost use Rattle.sqlite.specs.State.{HasCleanDisk};
ghost use Rattle.sqlite.specs.Held.{state};
ghost use Rattle.merge_core.specs.Layout.{LayoutState};
ghost use Rattle.admission_core.specs.Kept.{ChangeState};
ghost use Rattle.store_rows.specs.Rows.{Stored};
ghost use Rattle.store_rows.specs.Holding.{Keeps, KeepsBeside, KeepsEither};
ghost use Rattle.store_schema.specs.declared.Version.TheVariants.{Second};
ghost use Rattle.store_tables.specs.Kept.{StopsAtFault, has_failed, connection_of};
ghost use Rattle.store_tables.specs.Rounds.{TakesAll, changed_all};
ghost use Rattle.store_tables.specs.declared.error.TableError.TheVariants.{BadStore, Memory as NoMemory, StoreFault as NoStore};
ghost use Rattle.store_content.specs.Content.{IsContent};
ghost use Rattle.store_content.specs.Known.{Knows};
ghost use Rattle.store_content.specs.Plan.{IsTellable};
ghost use Rattle.site_store.specs.Rounds.{AreRows, ChangesAll, ChangesAllOrNone, Plans, edits_in};
ghost use Rattle.site_store.specs.Sql.{Stores};
ghost use Rattle.durable_keeper.specs.declared.error.KeeperError.TheVariants.{Memory, StoreFault};

use crate::error::keeper_error;
use crate::sql::{SqlKeeper, are_rows};
use admission_core::Change;
use durable_keeper::KeeperError;
use round_keeper::{RoundKeeper, are_empty};
use sqlite::Alter;
use std::alloc::{AllocError, Global};
use store_content::{Index, Rows};
use store_rows::{Content, SessionEdit, StoredCell, StoredNotice};
use store_tables::{TableError, Tables};

/// The rows of several changes: those that each puts, in turn.
#[derive(Drop)]
struct Round {
    cells: Vec<StoredCell>,
    notices: Vec<StoredNotice>,
    edits: Vec<SessionEdit>,
}

/// Adds the edit of a session, where there is one.
fn push_edit(edits: &mut Vec<SessionEdit>, edit: Option<SessionEdit>) -> Result<(), AllocError>
    ensures { OnOk result (edits.new.items ≡ edits.old.items ++ edits_in edit) }
{
    if let Some(edit) = edit {
        edits.push(edit)?;
    }
    Ok(())
}

impl Round {
    ghost use Rattle.std.specs.Prelude.{◌≡◌, ◌++◌, [], OnOk};
    ghost use Rattle.site_store.specs.Rounds.{edits_in};

    fn new(alloc: Global) -> Round
        ensures cells { result.cells.items ≡ [] }
        ensures notices { result.notices.items ≡ [] }
        ensures edits { result.edits.items ≡ [] }
    {
        Round {
            cells: Vec::new(alloc),
            notices: Vec::new(alloc),
            edits: Vec::new(alloc),
        }
    }

    /// Adds the rows of one change more.
    fn push(&mut self, rows: &Rows) -> Result<(), AllocError>
        ensures cells { OnOk result (self.new.cells.items ≡ self.old.cells.items ++ rows.now.cells) }
        ensures notices { OnOk result (self.new.notices.items ≡ self.old.notices.items ++ rows.now.notices) }
        ensures edits { OnOk result (self.new.edits.items ≡ self.old.edits.items ++ edits_in rows.now.edit) }
    {
        self.cells.extend_from_slice(&rows.cells)?;
        self.notices.extend_from_slice(&rows.notices)?;
        push_edit(&mut self.edits, rows.edit)
    }
}

/// Adds the rows of one change more, by the index behind those before it, and takes them into the index. Where no place is
/// left for a session, or the database has no such number, the answer is `StoreFault`.
fn plan_next(
    alloc: Global,
    index: &mut Index,
    round: &mut Round,
    change: &Change,
) -> Result<(), KeeperError>
    requires { IsTellable change.now }
    ensures plans { (done : List ChangeState) → (it : Stored) → Plans done it round.old.cells.items round.old.notices.items round.old.edits.items index.old
        → OnOk result (Plans (done ++ change.now ∷ []) it round.new.cells.items round.new.notices.items round.new.edits.items index.new) }
    ensures storable { AreRows round.old.cells.items round.old.notices.items round.old.edits.items
        → OnOk result (AreRows round.new.cells.items round.new.notices.items round.new.edits.items) }
{
    let Some(rows) = index.plan(alloc, change)? else {
        return Err(KeeperError::StoreFault);
    };
    if !are_rows(&rows) {
        return Err(KeeperError::StoreFault);
    }
    round.push(&rows)?;
    index.reserve(&rows)?;
    index.advance(&rows);
    Ok(())
}

/// The rows of several changes, the first one first, which the index has taken in then. After a refusal the index is that of
/// no content.
fn plan_round(alloc: Global, index: &mut Index, changes: &[Change]) -> Result<Round, KeeperError>
    requires { All IsTellable changes.now }
    ensures plans { (it : Stored) → it.version ≡ Second → IsContent it → Knows index.old it
        → IfOk result (λ round. Plans changes.now it round.cells.items round.notices.items round.edits.items index.new) }
    ensures storable { IfOk result (λ round. AreRows round.cells.items round.notices.items round.edits.items) }
{
    let mut round = Round::new(alloc);
    for change in changes {
        plan_next(alloc, index, &mut round, change)?;
    }
    Ok(round)
}

/// Puts the rows of several changes into the tables, in one transaction.
fn put_all<S: Alter>(tables: &mut Tables<S>, round: &Round) -> Result<(), TableError>
    requires { AreRows round.now.cells.items round.now.notices.items round.now.edits.items }
    ensures ok { (it : Stored) → TakesAll round.now.edits.items it → Keeps S.Store (connection_of tables.old) it
        → OnOk result (Keeps S.Store (connection_of tables.new) (changed_all round.now.cells.items round.now.notices.items round.now.edits.items it)) }
    ensures memory { (it : Stored) → Keeps S.Store (connection_of tables.old) it → result ≡ Err NoMemory → Keeps S.Store (connection_of tables.new) it }
    ensures either { (it : Stored) → TakesAll round.now.edits.items it → Keeps S.Store (connection_of tables.old) it
        → result ≡ Err NoStore → KeepsEither S.Store (connection_of tables.new) it (changed_all round.now.cells.items round.now.notices.items round.now.edits.items it) }
    ensures beside { (it : Stored) → (others : Database) → TakesAll round.now.edits.items it → Keeps S.Store (connection_of tables.old) it
        → KeepsBeside S.Store (connection_of tables.old) others → KeepsBeside S.Store (connection_of tables.new) others }
    ensures stops { StopsAtFault tables.old result tables.new }
    ensures kind { result ≢ Err BadStore }
{
    tables.commit_all(&round.cells, &round.notices, &round.edits)
}

/// Makes several changes in the tables, in one transaction, and takes them into the index. After a refusal the index is that
/// of no content.
fn put_round<S: Alter>(
    alloc: Global,
    tables: &mut Tables<S>,
    index: &mut Index,
    changes: &[Change],
) -> Result<(), KeeperError>
    requires tellable { All IsTellable changes.now }
    requires sound { has_failed tables.old ≡ false }
    ensures ok { (layout : LayoutState) (site : List ℕ) (it : Stored) → Stores S.Store layout site (connection_of tables.old) index.old it
        → OnOk result (ChangesAll S.Store layout site changes.now it (connection_of tables.new) index.new) }
    ensures memory { (it : Stored) → Keeps S.Store (connection_of tables.old) it → result ≡ Err Memory → Keeps S.Store (connection_of tables.new) it }
    ensures fault { (layout : LayoutState) (site : List ℕ) (it : Stored) → Stores S.Store layout site (connection_of tables.old) index.old it
        → result ≡ Err StoreFault → ChangesAllOrNone S.Store layout site changes.now it (connection_of tables.new) }
    ensures beside { (layout : LayoutState) (site : List ℕ) (it : Stored) (others : Database) → Stores S.Store layout site (connection_of tables.old) index.old it
        → KeepsBeside S.Store (connection_of tables.old) others → KeepsBeside S.Store (connection_of tables.new) others }
    ensures honest { HasCleanDisk (state S.Store (connection_of tables.new)) → HasCleanDisk (state S.Store (connection_of tables.old)) }
    ensures still { result ≢ Err StoreFault → has_failed tables.new ≡ false }
{
    let round = plan_round(alloc, index, changes)?;
    match put_all(tables, &round) {
        Ok(()) => Ok(()),
        Err(refusal) => Err(keeper_error(refusal)),
    }
}

/// The index of a content. Linear in that.
fn index_of(alloc: Global, content: &Content) -> Result<Index, KeeperError>
    ensures { IfOk result (λ index. Knows index content.now) }
{
    match Index::of(alloc, content)? {
        Some(index) => Ok(index),
        None => Err(KeeperError::StoreFault),
    }
}

/// The index of what the tables hold. Linear in that.
fn find_index<S: Alter>(alloc: Global, tables: &mut Tables<S>) -> Result<Index, KeeperError>
    ensures known { (it : Stored) → Keeps S.Store (connection_of tables.old) it → HasCleanDisk (state S.Store (connection_of tables.new)) → IfOk result (λ index. Knows index it) }
    ensures kept { (it : Stored) → Keeps S.Store (connection_of tables.old) it → Keeps S.Store (connection_of tables.new) it }
    ensures beside { (others : Database) → KeepsBeside S.Store (connection_of tables.old) others → KeepsBeside S.Store (connection_of tables.new) others }
    ensures honest { HasCleanDisk (state S.Store (connection_of tables.new)) → HasCleanDisk (state S.Store (connection_of tables.old)) }
    ensures still { OnOk result (has_failed tables.new ≡ false) }
{
    match tables.load(alloc) {
        Ok(content) => index_of(alloc, &content),
        Err(refusal) => Err(keeper_error(refusal)),
    }
}

/// Makes the index again from what the tables hold, after want of memory, which is told then; where the tables are refused,
/// or memory is wanting again, they are stopped, and `StoreFault` is told. Linear in what they hold.
fn renew_index<S: Alter>(alloc: Global, tables: &mut Tables<S>, index: &mut Index) -> KeeperError
    ensures known { (it : Stored) → Keeps S.Store (connection_of tables.old) it → HasCleanDisk (state S.Store (connection_of tables.new)) → result ≡ Memory → Knows index.new it }
    ensures kept { (it : Stored) → Keeps S.Store (connection_of tables.old) it → Keeps S.Store (connection_of tables.new) it }
    ensures beside { (others : Database) → KeepsBeside S.Store (connection_of tables.old) others → KeepsBeside S.Store (connection_of tables.new) others }
    ensures honest { HasCleanDisk (state S.Store (connection_of tables.new)) → HasCleanDisk (state S.Store (connection_of tables.old)) }
    ensures told { result ≡ StoreFault → IsTrue (has_failed tables.new) }
    ensures still { result ≡ Memory → has_failed tables.new ≡ false }
{
    match find_index(alloc, tables) {
        Ok(found) => {
            *index = found;
            KeeperError::Memory
        }
        Err(_) => {
            tables.stop();
            KeeperError::StoreFault
        }
    }
}

/// Makes several changes in the tables, and takes them into the index. Where no place is left for a session, or the database
/// has no such number, the tables are stopped, as after a refusal of the device.
fn commit_round<S: Alter>(
    alloc: Global,
    tables: &mut Tables<S>,
    index: &mut Index,
    changes: &[Change],
) -> Result<(), KeeperError>
    requires tellable { All IsTellable changes.now }
    requires sound { has_failed tables.old ≡ false }
    ensures ok { (layout : LayoutState) (site : List ℕ) (it : Stored) → Stores S.Store layout site (connection_of tables.old) index.old it
        → OnOk result (ChangesAll S.Store layout site changes.now it (connection_of tables.new) index.new) }
    ensures memory { (layout : LayoutState) (site : List ℕ) (it : Stored) → Stores S.Store layout site (connection_of tables.old) index.old it
        → HasCleanDisk (state S.Store (connection_of tables.new)) → result ≡ Err Memory → Stores S.Store layout site (connection_of tables.new) index.new it }
    ensures fault { (layout : LayoutState) (site : List ℕ) (it : Stored) → Stores S.Store layout site (connection_of tables.old) index.old it
        → result ≡ Err StoreFault → ChangesAllOrNone S.Store layout site changes.now it (connection_of tables.new) }
    ensures beside { (layout : LayoutState) (site : List ℕ) (it : Stored) (others : Database) → Stores S.Store layout site (connection_of tables.old) index.old it
        → KeepsBeside S.Store (connection_of tables.old) others → KeepsBeside S.Store (connection_of tables.new) others }
    ensures honest { HasCleanDisk (state S.Store (connection_of tables.new)) → HasCleanDisk (state S.Store (connection_of tables.old)) }
    ensures told { result ≡ Err StoreFault → IsTrue (has_failed tables.new) }
    ensures still { result ≢ Err StoreFault → has_failed tables.new ≡ false }
{
    match put_round(alloc, tables, index, changes) {
        Ok(()) => Ok(()),
        Err(KeeperError::Memory) => Err(renew_index(alloc, tables, index)),
        Err(KeeperError::StoreFault) => {
            tables.stop();
            Err(KeeperError::StoreFault)
        }
    }
}

impl<S: Alter> SqlKeeper<S> {
    ghost use Rattle.std.specs.Prelude.{◌≡◌, ◌≢◌, All, Err, OnOk};
    ghost use Rattle.sqlite.specs.Effect.{Database};
    ghost use Rattle.admission_core.specs.Kept.{DurableState};
    ghost use Rattle.durable_keeper.specs.Keeping.{IsChange};
    ghost use Rattle.durable_keeper.specs.declared.error.KeeperError.TheVariants.{Memory, StoreFault};
    ghost use Rattle.round_keeper.specs.Rounds.{ChangesNothing, changed_all as made_all};
    ghost use Rattle.store_rows.specs.Rows.{Stored};
    ghost use Rattle.store_rows.specs.Holding.{KeepsBeside, KeepsEither};
    ghost use Rattle.site_store.specs.Rounds.{after_changes};
    ghost use Rattle.site_store.specs.Sql.{KeepsContent, KeepsEitherPart, KeepsPart, below, faults_of, group_of, is_honest, layout_of, site_of};

    /// Makes changes of what is kept in one transaction, the first one first, as `commit_all` of [`RoundKeeper`] does, which
    /// calls this. Each is made as [`make_change`](SqlKeeper::make_change) makes it of what the ones before it left. After
    /// want of memory what is known of the content is read from the store again. Tables of other names, which were made
    /// behind those of the store, keep their rows. Linear in the changes, and after want of memory in what is stored.
    pub fn make_changes(&mut self, changes: &[Change]) -> Result<(), KeeperError>
        requires { All (IsChange (layout_of self.old) (site_of self.old)) changes.now }
        ensures content { (it : Stored) → KeepsContent self.old it → OnOk result (KeepsContent self.new (after_changes changes.now it)) }
        ensures doubt { (it : Stored) → KeepsContent self.old it → result ≡ Err StoreFault → KeepsEither S.Store (below self.new) it (after_changes changes.now it) }
        ensures ok { (d : DurableState) → KeepsPart self.old d → OnOk result (KeepsPart self.new (made_all changes.now d)) }
        ensures memory { (d : DurableState) → KeepsPart self.old d → result ≡ Err Memory → KeepsPart self.new d }
        ensures fault { (d : DurableState) → KeepsPart self.old d → result ≡ Err StoreFault → KeepsEitherPart self.new d (made_all changes.now d) }
        ensures beside { (d : DurableState) → (others : Database) → KeepsPart self.old d → KeepsBeside S.Store (below self.old) others → KeepsBeside S.Store (below self.new) others }
        ensures honest { is_honest self.new → is_honest self.old }
        ensures told { result ≡ Err StoreFault → faults_of self.new ≡ 1 }
        ensures sound { result ≢ Err StoreFault → faults_of self.new ≡ 0 }
        ensures stopped { faults_of self.old ≡ 1 → (result ≡ Err StoreFault) × (self.new ≡ self.old) }
        ensures nothing { All ChangesNothing changes.now → self.new ≡ self.old }
        ensures layout { layout_of self.new ≡ layout_of self.old }
        ensures site { site_of self.new ≡ site_of self.old }
        ensures group { group_of self.new ≡ group_of self.old }
    {
        if self.tables.faults() > 0 {
            return Err(KeeperError::StoreFault);
        }
        if are_empty(changes) {
            return Ok(());
        }
        let _ = self.layout.sites(); // tells that the layout is one
        commit_round(self.alloc, &mut self.tables, &mut self.index, changes)
    }
}

impl<S: Alter> RoundKeeper for SqlKeeper<S> {
    fn commit_all(&mut self, changes: &[Change]) -> Result<(), KeeperError> {
        self.make_changes(changes)
    }
}
