//! What a site itself has done: its own row of each record.
ghost use Rattle.std.specs.Prelude.{◌≡◌, ◌<◌, IfOk, length, ℕ, slice_index};
ghost use Rattle.admission_model.specs.Account.{Account};
ghost use Rattle.admission_core.specs.Core.{Stands};
ghost use Rattle.log_replay.specs.Replay.{TellsOwn};
ghost use Rattle.merge_core.specs.declared.cell.Cell.{Cell};
ghost use Rattle.merge_core.specs.Book.{counter_of};
ghost use Rattle.merge_core.specs.Rows.{counter_in, counters_of};
ghost use Rattle.merge_core.specs.declared.cell.Cell.TheVariants.{Out};

use admission_core::SiteCore;
use grow_counters::Counts;
use merge_core::{Book, Cell, Row};
use std::alloc::{AllocError, Global};
use std::marker::Model;

/// A site's own row of each record, by record.
#[derive(Debug, Drop)]
pub struct OwnRows {
    rows: Vec<Row>,
}

// Contracts see the list.
impl Model for OwnRows {
    ghost use Rattle.std.specs.Prelude.{List};
    ghost use Rattle.merge_core.specs.declared.delta.Row.{Row};

    ghost Value = { List Row };

    ghost view = { λ o. o.rows.items };
}

impl OwnRows {
    ghost use Rattle.std.specs.Prelude.{◌≡◌, IfOk};

    /// Equal rows. Linear in them.
    pub(crate) fn try_copy(&self, alloc: Global) -> Result<OwnRows, AllocError>
        ensures { IfOk result (λ copy. copy ≡ self.now) }
    {
        let mut rows = Vec::with_capacity(alloc, self.rows.len())?;
        'rows: for row in self.rows.as_slice() {
            rows.push(row.try_copy(alloc)?)?;
        }
        Ok(OwnRows { rows })
    }

    /// The rows.
    pub fn as_slice(&self) -> &[Row]
        ensures { result.now ≡ self.now }
    {
        self.rows.as_slice()
    }
}

/// No rows.
pub(crate) fn no_rows(alloc: Global) -> OwnRows {
    OwnRows {
        rows: Vec::new(alloc),
    }
}

/// The own rows of a site, by its core. Linear in the records and the sites.
pub(crate) fn own_rows(alloc: Global, core: &SiteCore) -> Result<OwnRows, AllocError>
    requires { (a : Account) × Stands a core.now }
    ensures { IfOk result (λ rows. (a : Account) → Stands a core.now → TellsOwn (length core.now.layout.records) rows a) }
{
    let _ = core.layout().sites(); // tells the invariant: it is a layout
    let book = core.book();
    let site = core.site();
    let records = book.records();
    let mut rows = Vec::with_capacity(alloc, usize::from(records))?;
    'records: for r in 0..records {
        rows.push(own_row(alloc, book, site, r)?)?;
    }
    Ok(OwnRows { rows })
}

// The own row of a record.
fn own_row(alloc: Global, book: &Book, site: u16, r: u16) -> Result<Row, AllocError>
    requires record { r < length book.now.records }
    requires site { site < book.now.sites }
    ensures { IfOk result (λ row. (cell : Cell) → counter_in (counters_of row) cell ≡ counter_of book.now r site cell) }
{
    Ok(Row {
        r,
        s: site,
        out: own_out(alloc, book, site, r)?,
        taken: book.counter(r, site, Cell::Taken),
        ann: book.counter(r, site, Cell::Ann),
        fin: book.counter(r, site, Cell::Fin),
    })
}

// The seats that the site gave to each site of the book.
fn own_out(alloc: Global, book: &Book, site: u16, r: u16) -> Result<Counts, AllocError>
    requires record { r < length book.now.records }
    requires site { site < book.now.sites }
    ensures { IfOk result (λ out. (j : ℕ) → slice_index out j ≡ counter_of book.now r site (Out j)) }
{
    let sites = book.sites();
    let mut out = Vec::with_capacity(alloc, usize::from(sites))?;
    'sites: for j in 0..sites {
        out.push(book.counter(r, site, Cell::Out(j)))?;
    }
    Ok(Counts::from_vec(out))
}
