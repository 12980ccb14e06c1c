use std::marker::Model;
use store_rows::{SessionEdit, StoredCell, StoredNotice};

/// What a commit puts into a store: counters by record and slot, notices of other sites, and at most one edit of a
/// session.
#[derive(Debug, Drop)]
pub struct Rows {
    pub cells: Vec<StoredCell>,
    pub notices: Vec<StoredNotice>,
    pub edit: Option<SessionEdit>,
}

// Contracts see the two lists and the edit.
impl Model for Rows {
    ghost use Rattle.store_content.specs.Plan.{RowsState};

    ghost Value = { RowsState };

    ghost view = { λ r. record { cells = r.cells.items; notices = r.notices.items; edit = r.edit } };
}
