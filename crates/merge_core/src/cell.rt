/// One counter of a row.
#[derive(Clone, Copy, Debug, PartialEq, Eq)]
pub enum Cell {
    /// The rights that the row's site moved to this site; on the diagonal, its own increments.
    Out(u16),
    /// The units taken.
    Taken,
    /// The writers announced.
    Ann,
    /// The writers finished.
    Fin,
}
