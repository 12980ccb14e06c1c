//! A database is opened for a service: one that is a store as this program makes it, or is empty and made one.
ghost use Rattle.std.specs.Prelude.{◌≡◌, ◌≢◌, ◌⊎◌, Bool, true, false, IsOk, IsTrue, IfOk, IfErr, OnOk, MatchResult};
ghost use Rattle.sqlite_schema.specs.declared.schema.Schema.{Schema};
ghost use Rattle.sqlite.specs.State.{HasCleanDisk, Survives};
ghost use Rattle.sqlite.specs.Held.{state};
ghost use Rattle.layout_line.specs.Line.{line_of, IsLine};
ghost use Rattle.store_rows.specs.Holding.{Keeps};
ghost use Rattle.store_tables.specs.Kept.{has_failed, connection_of, CommitsNothing, IsRefusal};
ghost use Rattle.store_rows.specs.Refusals.{HasRefused};
ghost use Rattle.site_store.specs.declared.error.ServedError.TheVariants.{Outdated, StoreFault, Memory};
ghost use Rattle.site_store.specs.Errors.{marked_error};
ghost use Rattle.site_store.specs.SiteText.{named};
ghost use Rattle.site_store.specs.Opened.{IsCurrent, IsDue};
ghost use Rattle.site_store.specs.Served.{FindsContent, FindsStore, IsContentCause, IsDenied, IsDevice, IsDeviceOrMark, IsHeldRefusal, KeepsMark, KeepsNoMark, IsNotEarlier, IsOpenRefusal, IsOriginOf, IsPermitted, IsSettled, IsTaken, MakesStore};

use crate::error::{ServedError, StoreOpenError};
use crate::opening::{judge, make_new, open_found};
use layout_line::{Line, compare, layout_line};
use merge_core::Layout;
use own_schema::{Origin, origin_of};
use sqlite::{Alter, Connection};
use std::alloc::Global;
use store_content::Index;
use store_rows::Content;
use store_tables::{TableError, Tables, check_connection};

/// What an opening for a service may write beside what calls change.
#[derive(Clone, Copy, Debug)]
pub struct Permission {
    /// A new store is made; none may be there.
    pub create: bool,
    /// A store of an earlier layout gets this layout's line.
    pub grow: bool,
}

/// Whether a permission lets an opening go on from where a database's tables come from; else why not.
fn permit(origin: Origin, permission: Permission) -> Result<(), ServedError>
    ensures schema { (schema : Schema) → IsOriginOf schema origin → MatchResult result (λ _. IsPermitted permission schema) (IsDenied permission schema) }
    ensures kind { IfErr result (λ e. ¬ IsDevice e) }
{
    match origin {
        Origin::Foreign => Err(ServedError::NotAStore),
        Origin::Nothing => {
            if permission.create {
                return Ok(());
            }
            Err(ServedError::NoStore)
        }
        Origin::Store(_) => {
            if permission.create {
                return Err(ServedError::Exists);
            }
            Ok(())
        }
    }
}

/// The same of a connection, which is open then. Reads no row, and changes nothing.
pub(crate) fn check_permission<S: Alter>(
    connection: &mut Connection<S>,
    permission: Permission,
) -> Result<(), ServedError>
    requires { connection.old.in_transaction ≡ false }
    ensures idle { connection.new.in_transaction ≡ false }
    ensures permitted { OnOk result (IsPermitted permission (state S.Store connection.new).now.schema) }
    ensures granted { HasCleanDisk (state S.Store connection.new) → OnOk result (IsPermitted permission (state S.Store connection.old).now.schema) }
    ensures denied { HasCleanDisk (state S.Store connection.new) → IfErr result (IsDenied permission (state S.Store connection.old).now.schema) }
    ensures settled { HasCleanDisk (state S.Store connection.new) → OnOk result (IsSettled (state S.Store connection.old)) }
    ensures opened { HasCleanDisk (state S.Store connection.new) → OnOk result (IsTrue (state S.Store connection.new).is_open) }
    ensures known { HasCleanDisk (state S.Store connection.new) → IfErr result (λ e. e ≢ StoreFault → e ≢ Memory → IsSettled (state S.Store connection.old)) }
    ensures refused { HasCleanDisk (state S.Store connection.new) → IfErr result (λ e. e ≡ StoreFault → HasRefused (state S.Store connection.old) (state S.Store connection.new)) }
    ensures survives { Survives (state S.Store connection.old) (state S.Store connection.new) (λ _. ⊥) }
{
    // what these two ensure of a connection, the answer is proved with
    let _is_idle = connection.is_autocommit();
    let _schema = connection.schema(); // the second
    match check_connection(connection) {
        Ok(()) => permit(origin_of(connection.schema()), permission),
        Err(error) => Err(ServedError::from(TableError::from(error))),
    }
}

/// Why a content of an earlier layout is refused where its store may not grow: the first cause that applies.
fn earlier_refusal(
    alloc: Global,
    content: &Content,
    layout: &Layout,
    site: u16,
    group: Option<&str>,
) -> ServedError
    ensures kind { IsOpenRefusal result }
    ensures cause { IsLine layout.now site content.now.layout Line.Earlier → IsContentCause false layout.now site (named group.entry) content.now result × (result ≢ StoreFault) }
{
    match judge(alloc, content, layout, site, group) {
        Ok(_) => ServedError::WrongLayout,
        Err(error) => ServedError::from(error),
    }
}

/// Goes on only where the store may grow, or its content is not of an earlier layout.
fn check_growth(
    alloc: Global,
    content: &Content,
    layout: &Layout,
    site: u16,
    group: Option<&str>,
    grow: bool,
) -> Result<(), ServedError>
    ensures ok { OnOk result (IsNotEarlier grow layout.now site content.now.layout) }
    ensures kind { IfErr result IsOpenRefusal }
    ensures err { IfErr result (λ e. IsContentCause grow layout.now site (named group.entry) content.now e × (e ≢ StoreFault)) }
{
    if grow {
        return Ok(());
    }
    match compare(alloc, content.layout.as_slice(), layout, site)? {
        Line::Same => Ok(()),
        Line::Other => Ok(()),
        Line::Earlier => Err(earlier_refusal(alloc, content, layout, site, group)),
    }
}

/// An opened store of a content that was found, which gets the second version, and this line where the store may grow.
fn take_content<S: Alter>(
    alloc: Global,
    tables: &mut Tables<S>,
    content: &Content,
    line: &str,
    layout: &Layout,
    site: u16,
    group: Option<&str>,
    grow: bool,
) -> Result<Index, ServedError>
    requires { line.now ≡ line_of layout.now }
    ensures finds { FindsContent grow layout.now site (named group.entry) content.now tables.old tables.new result }
    ensures sound { has_failed tables.old ≡ false → IsOk result → has_failed tables.new ≡ false }
    ensures own { IsTaken grow layout.now site (named group.entry) content.now → IfErr result IsDeviceOrMark }
    ensures kind { IfErr result IsOpenRefusal }
    ensures due { IfErr result (λ e. e ≡ StoreFault → IsDue layout.now site (named group.entry) content.now) }
    ensures judged { IfErr result (λ e. e ≢ StoreFault → e ≢ Memory → tables.new ≡ tables.old) }
    ensures current { IsCurrent layout.now content.now → tables.new ≡ tables.old }
{
    let _ = layout.sites(); // tells that the layout is one
    check_growth(alloc, content, layout, site, group, grow)?;
    match open_found(alloc, tables, content, line, layout, site, group) {
        Ok(index) => Ok(index),
        Err(error) => Err(ServedError::from(error)),
    }
}

/// What a refusal of a marked store by what it holds is told as.
fn marked_error(error: StoreOpenError) -> ServedError
    ensures { result ≡ marked_error error }
{
    match error {
        StoreOpenError::BadStore => ServedError::BadStore,
        StoreOpenError::WrongSite => ServedError::WrongSite,
        StoreOpenError::WrongGroup => ServedError::WrongGroup,
        StoreOpenError::WrongLayout => ServedError::Outdated,
        StoreOpenError::StoreFault => ServedError::StoreFault,
        StoreOpenError::Memory => ServedError::Memory,
    }
}

/// Why a store is refused that is marked as outdated: for its content, its site or its group first.
fn outdated_refusal(
    alloc: Global,
    content: &Content,
    layout: &Layout,
    site: u16,
    group: Option<&str>,
) -> ServedError
    ensures kind { IsHeldRefusal result }
    ensures cause { (grow : Bool) → IsContentCause grow layout.now site (named group.entry) content.now result × (result ≢ StoreFault) }
{
    match judge(alloc, content, layout, site, group) {
        Ok(_) => ServedError::Outdated,
        Err(error) => marked_error(error),
    }
}

/// Goes on only where the store is not marked as outdated.
fn check_current<S: Alter>(
    alloc: Global,
    tables: &mut Tables<S>,
    content: &Content,
    layout: &Layout,
    site: u16,
    group: Option<&str>,
) -> Result<(), ServedError>
    ensures marked { (it : _) → Keeps S.Store (connection_of tables.old) it → KeepsMark S.Store (connection_of tables.old)
        → OnOk result (¬ HasCleanDisk (state S.Store (connection_of tables.new))) }
    ensures unmarked { (it : _) → Keeps S.Store (connection_of tables.old) it → KeepsNoMark S.Store (connection_of tables.old)
        → IfErr result (λ e. HasCleanDisk (state S.Store (connection_of tables.new)) → e ≢ Outdated) }
    ensures err { IfErr result (λ e. (grow : Bool) → IsContentCause grow layout.now site (named group.entry) content.now e) }
    ensures kind { IfErr result IsHeldRefusal }
    ensures refused { has_failed tables.old ≡ false → (it : _) → Keeps S.Store (connection_of tables.old) it
        → IfErr result (λ e. e ≡ StoreFault → HasCleanDisk (state S.Store (connection_of tables.new)) → IsRefusal tables.old tables.new) }
    ensures sound { IsOk result → has_failed tables.new ≡ false }
    ensures unwritten { CommitsNothing tables.old tables.new }
    ensures honest { HasCleanDisk (state S.Store (connection_of tables.new)) → HasCleanDisk (state S.Store (connection_of tables.old)) }
{
    let marked = tables.is_outdated()?;
    if marked {
        return Err(outdated_refusal(alloc, content, layout, site, group));
    }
    Ok(())
}

/// An opened store of a content that was found, unless it is marked as outdated.
fn open_content<S: Alter>(
    alloc: Global,
    tables: &mut Tables<S>,
    content: &Content,
    line: &str,
    layout: &Layout,
    site: u16,
    group: Option<&str>,
    grow: bool,
) -> Result<Index, ServedError>
    requires { line.now ≡ line_of layout.now }
    ensures finds { FindsContent grow layout.now site (named group.entry) content.now tables.old tables.new result }
    ensures sound { IsOk result → has_failed tables.new ≡ false }
    ensures own { IsTaken grow layout.now site (named group.entry) content.now → IfErr result IsDeviceOrMark }
    ensures kind { IfErr result IsHeldRefusal }
    ensures marked { (it : _) → Keeps S.Store (connection_of tables.old) it → KeepsMark S.Store (connection_of tables.old)
        → IfOk result (λ _. ¬ HasCleanDisk (state S.Store (connection_of tables.new))) }
    ensures unmarked { (it : _) → Keeps S.Store (connection_of tables.old) it → KeepsNoMark S.Store (connection_of tables.old)
        → IfErr result (λ e. HasCleanDisk (state S.Store (connection_of tables.new)) → e ≢ Outdated) }
    ensures fault { has_failed tables.old ≡ false → (it : _) → Keeps S.Store (connection_of tables.old) it
        → IfErr result (λ e. e ≡ StoreFault → HasCleanDisk (state S.Store (connection_of tables.new))
        → (IsRefusal tables.old tables.new × CommitsNothing tables.old tables.new) ⊎ IsDue layout.now site (named group.entry) content.now) }
    ensures judged { IfErr result (λ e. e ≢ StoreFault → e ≢ Memory → CommitsNothing tables.old tables.new) }
    ensures current { IsCurrent layout.now content.now → CommitsNothing tables.old tables.new }
{
    let _ = layout.sites(); // tells that the layout is one
    check_current(alloc, tables, content, layout, site, group)?;
    take_content(alloc, tables, content, line, layout, site, group, grow)
}

/// Opens tables that are a store's as the store of a site.
fn prepare_found<S: Alter>(
    alloc: Global,
    tables: &mut Tables<S>,
    layout: &Layout,
    site: u16,
    group: Option<&str>,
    grow: bool,
) -> Result<Index, ServedError>
    ensures found { FindsStore grow layout.now site (named group.entry) tables.old tables.new result }
    ensures judged { IfErr result (λ e. e ≢ StoreFault → e ≢ Memory → CommitsNothing tables.old tables.new) }
    ensures honest { HasCleanDisk (state S.Store (connection_of tables.new)) → HasCleanDisk (state S.Store (connection_of tables.old)) }
    ensures sound { IsOk result → has_failed tables.new ≡ false }
{
    let line = layout_line(alloc, layout)?;
    match tables.look(alloc) {
        Ok(Some(content)) => open_content(
            alloc,
            tables,
            &content,
            line.as_str(),
            layout,
            site,
            group,
            grow,
        ),
        Ok(None) => Err(ServedError::BadStore),
        Err(error) => Err(ServedError::from(error)),
    }
}

/// Makes a store in tables, of which the caller shows that there are none.
fn prepare_new<S: Alter>(
    alloc: Global,
    tables: &mut Tables<S>,
    layout: &Layout,
    site: u16,
    group: Option<&str>,
) -> Result<Index, ServedError>
    ensures made { MakesStore layout.now site (named group.entry) tables.old tables.new result }
    ensures judged { IfErr result (λ e. e ≢ StoreFault → e ≢ Memory → CommitsNothing tables.old tables.new) }
    ensures honest { HasCleanDisk (state S.Store (connection_of tables.new)) → HasCleanDisk (state S.Store (connection_of tables.old)) }
    ensures sound { IsOk result → has_failed tables.new ≡ false }
{
    let line = layout_line(alloc, layout)?;
    match tables.look(alloc) {
        Ok(_) => match make_new(alloc, tables, layout, site, group, line.as_str()) {
            Ok(index) => Ok(index),
            Err(error) => Err(ServedError::from(error)),
        },
        Err(error) => Err(ServedError::from(error)),
    }
}

/// Opens tables as the store of a site, or makes one where that is permitted, once the permission was found to fit.
pub(crate) fn prepare_permitted<S: Alter>(
    alloc: Global,
    tables: &mut Tables<S>,
    layout: &Layout,
    site: u16,
    group: Option<&str>,
    permission: Permission,
) -> Result<Index, ServedError>
    ensures found { permission.create ≡ false → FindsStore permission.grow layout.now site (named group.entry) tables.old tables.new result }
    ensures made { permission.create ≡ true → MakesStore layout.now site (named group.entry) tables.old tables.new result }
    ensures judged { IfErr result (λ e. e ≢ StoreFault → e ≢ Memory → CommitsNothing tables.old tables.new) }
    ensures honest { HasCleanDisk (state S.Store (connection_of tables.new)) → HasCleanDisk (state S.Store (connection_of tables.old)) }
    ensures sound { IsOk result → has_failed tables.new ≡ false }
{
    if permission.create {
        return prepare_new(alloc, tables, layout, site, group);
    }
    prepare_found(alloc, tables, layout, site, group, permission.grow)
}
