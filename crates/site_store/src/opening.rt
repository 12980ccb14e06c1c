//! A database is opened as the store of a site, or made one.
ghost use Rattle.std.specs.Prelude.{◌≡◌, ◌≢◌, ◌⊎◌, ◌↔◌, string_bytes, false, Ok, IsTrue, IsOk, IfOk, IfErr};
ghost use Rattle.sqlite.specs.State.{HasCleanDisk};
ghost use Rattle.sqlite.specs.Held.{state};
ghost use Rattle.layout_line.specs.Line.{line_of};
ghost use Rattle.store_rows.specs.Holding.{Keeps, KeepsBeside, KeepsEither, KeepsNothing, KeepsNothingOr};
ghost use Rattle.store_tables.specs.Kept.{has_failed, connection_of, CommitsNothing, IsRefusal};
ghost use Rattle.site_store.specs.declared.error.StoreOpenError.TheVariants.{StoreFault, Memory};
ghost use Rattle.site_store.specs.SiteText.{IsApart, IsForeign, NamesSite, named, site_text};
ghost use Rattle.site_store.specs.Opened.{IsCurrent, IsDeviceCause, IsDue, IsJudged, IsLeftEither, IsLeftOr, IsOwn, IsReady, Readies, ReadiesBlank};

use crate::error::StoreOpenError;
use layout_line::{Line, compare, layout_line};
use merge_core::Layout;
use sqlite::Alter;
use std::alloc::{AllocError, Global};
use store_content::Index;
use store_rows::{Content, Version};
use store_tables::Tables;
use text_parts::{is_same, number_at, push_field};

/// The site's number and the name of its group, if it has one, as the row `site` of the table `meta` has them.
pub(crate) fn site_text(alloc: Global, site: u16, group: Option<&str>) -> Result<String, AllocError>
    ensures { IfOk result (λ text. string_bytes text ≡ site_text site (named group.entry)) }
{
    let mut text = String::new(alloc);
    push_field(&mut text, "", u64::from(site))?;
    if let Some(name) = group {
        text.push_str(" ")?;
        text.push_str(name)?;
    }
    Ok(text)
}

/// Whether what stands behind a number is nothing, or begins with a blank.
fn is_apart(behind: &[u8]) -> bool
    ensures { IsTrue result ↔ IsApart behind.now }
{
    matches!(behind, [] | [b' ', ..])
}

/// Whether a text is such a row of the site of this number, whatever its group.
fn names_site(text: &[u8], site: u16) -> bool
    ensures { IsTrue result ↔ NamesSite site text.now }
{
    let Ok((number, behind)) = number_at(text) else {
        return false;
    };
    number == u64::from(site) && is_apart(behind)
}

/// Why a store is refused whose row for the site is not this site's own.
fn foreign_site(text: &[u8], site: u16) -> StoreOpenError
    ensures { IsForeign site text.now result }
{
    if names_site(text, site) {
        return StoreOpenError::WrongGroup;
    }
    StoreOpenError::WrongSite
}

/// The index of a content that is one of this site, and how its line compares with the layout: it is the layout's or
/// that of an earlier one.
pub(crate) fn judge(
    alloc: Global,
    content: &Content,
    layout: &Layout,
    site: u16,
    group: Option<&str>,
) -> Result<(Index, Line), StoreOpenError>
    ensures { IsJudged layout.now site (named group.entry) content.now result }
{
    let own = site_text(alloc, site, group)?;
    let Some(index) = Index::of(alloc, content)? else {
        return Err(StoreOpenError::BadStore);
    };
    if !is_same(content.site.as_slice(), own.as_bytes()) {
        return Err(foreign_site(content.site.as_slice(), site));
    }
    match compare(alloc, content.layout.as_slice(), layout, site)? {
        Line::Other => Err(StoreOpenError::WrongLayout),
        line => Ok((index, line)),
    }
}

/// Whether a store has to get the second version or the layout's own line.
fn is_due(found: Line, version: Version) -> bool
    ensures { result ≡ false ↔ ((found ≡ Line.Same) × (version ≡ Version.Second)) }
{
    match (found, version) {
        (Line::Same, Version::Second) => false,
        _ => true,
    }
}

/// An opened store of a content that was found, which gets the second version and this line where either is due.
pub(crate) fn open_found<S: Alter>(
    alloc: Global,
    tables: &mut Tables<S>,
    content: &Content,
    line: &str,
    layout: &Layout,
    site: u16,
    group: Option<&str>,
) -> Result<Index, StoreOpenError>
    requires { line.now ≡ line_of layout.now }
    ensures ready { (it : _) → Keeps S.Store (connection_of tables.old) it → (HasCleanDisk (state S.Store (connection_of tables.old)) → content.now ≡ it)
        → Readies S.Store layout.now site (named group.entry) it (connection_of tables.new) result }
    ensures beside { (it : _) → (others : _) → Keeps S.Store (connection_of tables.old) it → (HasCleanDisk (state S.Store (connection_of tables.old)) → content.now ≡ it)
        → KeepsBeside S.Store (connection_of tables.old) others → KeepsBeside S.Store (connection_of tables.new) others }
    ensures honest { HasCleanDisk (state S.Store (connection_of tables.new)) → HasCleanDisk (state S.Store (connection_of tables.old)) }
    ensures sound { has_failed tables.old ≡ false → IsOk result → has_failed tables.new ≡ false }
    ensures own { IsOwn layout.now site (named group.entry) content.now → IfErr result IsDeviceCause }
    ensures due { IfErr result (λ e. e ≡ StoreFault → IsDue layout.now site (named group.entry) content.now) }
    ensures judged { IfErr result (λ e. e ≢ StoreFault → e ≢ Memory → tables.new ≡ tables.old) }
    ensures current { IsCurrent layout.now content.now → tables.new ≡ tables.old }
{
    let _ = layout.sites(); // tells that the layout is one
    let (index, found) = judge(alloc, content, layout, site, group)?;
    if !is_due(found, content.version) {
        return Ok(index);
    }
    tables.renew(content.version, line)?;
    Ok(index)
}

/// An opened store that was made in a database without tables.
pub(crate) fn make_new<S: Alter>(
    alloc: Global,
    tables: &mut Tables<S>,
    layout: &Layout,
    site: u16,
    group: Option<&str>,
    line: &str,
) -> Result<Index, StoreOpenError>
    requires { line.now ≡ line_of layout.now }
    ensures made { KeepsNothing S.Store (connection_of tables.old) → ReadiesBlank S.Store layout.now site (named group.entry) (connection_of tables.new) result }
    ensures honest { HasCleanDisk (state S.Store (connection_of tables.new)) → HasCleanDisk (state S.Store (connection_of tables.old)) }
    ensures sound { IsOk result → has_failed tables.new ≡ false }
    ensures device { IfErr result IsDeviceCause }
{
    let own = site_text(alloc, site, group)?;
    tables.make(own.as_str(), line)?;
    Ok(Index::new(alloc))
}

/// Opens tables as the store of a site, or makes one where there are none.
pub(crate) fn prepare<S: Alter>(
    alloc: Global,
    tables: &mut Tables<S>,
    layout: &Layout,
    site: u16,
    group: Option<&str>,
) -> Result<Index, StoreOpenError>
    ensures ready { (it : _) → Keeps S.Store (connection_of tables.old) it → Readies S.Store layout.now site (named group.entry) it (connection_of tables.new) result }
    ensures made { KeepsNothing S.Store (connection_of tables.old) → ReadiesBlank S.Store layout.now site (named group.entry) (connection_of tables.new) result }
    ensures settles { (a b : _) → KeepsEither S.Store (connection_of tables.old) a b
        → IfOk result (λ index. ∥ IsReady S.Store layout.now site (named group.entry) a (connection_of tables.new) index
        ⊎ IsReady S.Store layout.now site (named group.entry) b (connection_of tables.new) index ∥₁) }
    ensures settles_or { (it : _) → KeepsNothingOr S.Store (connection_of tables.old) it
        → IfOk result (λ index. ReadiesBlank S.Store layout.now site (named group.entry) (connection_of tables.new) (Ok index)
        ⊎ IsReady S.Store layout.now site (named group.entry) it (connection_of tables.new) index) }
    ensures own { (a b : _) → IsOwn layout.now site (named group.entry) a → IsOwn layout.now site (named group.entry) b → KeepsEither S.Store (connection_of tables.old) a b
        → IfErr result (λ e. HasCleanDisk (state S.Store (connection_of tables.new)) → IsDeviceCause e) }
    ensures own_or { (it : _) → IsOwn layout.now site (named group.entry) it → KeepsNothingOr S.Store (connection_of tables.old) it
        → IfErr result (λ e. HasCleanDisk (state S.Store (connection_of tables.new)) → IsDeviceCause e) }
    ensures left { (a b : _) → KeepsEither S.Store (connection_of tables.old) a b → IfErr result (IsLeftEither S.Store layout.now a b (connection_of tables.new)) }
    ensures left_or { (it : _) → KeepsNothingOr S.Store (connection_of tables.old) it
        → IfErr result (IsLeftOr S.Store layout.now site (named group.entry) it (connection_of tables.new)) }
    ensures beside { (a b : _) → (others : _) → KeepsEither S.Store (connection_of tables.old) a b → KeepsBeside S.Store (connection_of tables.old) others
        → KeepsBeside S.Store (connection_of tables.new) others }
    ensures fault { has_failed tables.old ≡ false → (it : _) → Keeps S.Store (connection_of tables.old) it
        → IfErr result (λ e. e ≡ StoreFault → HasCleanDisk (state S.Store (connection_of tables.new)) → IsRefusal tables.old tables.new ⊎ IsDue layout.now site (named group.entry) it) }
    ensures judged { IfErr result (λ e. e ≢ StoreFault → e ≢ Memory → CommitsNothing tables.old tables.new) }
    ensures current { (it : _) → IsCurrent layout.now it → Keeps S.Store (connection_of tables.old) it → HasCleanDisk (state S.Store (connection_of tables.new))
        → CommitsNothing tables.old tables.new }
    ensures honest { HasCleanDisk (state S.Store (connection_of tables.new)) → HasCleanDisk (state S.Store (connection_of tables.old)) }
    ensures sound { IsOk result → has_failed tables.new ≡ false }
{
    let line = layout_line(alloc, layout)?;
    match tables.look(alloc) {
        Ok(Some(content)) => open_found(
            alloc,
            tables,
            &content,
            line.as_str(),
            layout,
            site,
            group,
        ),
        Ok(None) => make_new(alloc, tables, layout, site, group, line.as_str()),
        Err(error) => Err(StoreOpenError::from(error)),
    }
}
