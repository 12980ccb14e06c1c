/// An operation that a site carried out: `r` is a record, `h` a holder.
#[derive(Clone, Copy, Debug, PartialEq, Eq)]
pub enum Operation {
    /// A reader entered.
    EnteredRead { r: u16, h: u64 },
    /// A writer announced itself.
    AnnouncedWriter { r: u16, h: u64 },
    /// An announced writer entered.
    EnteredWrite { r: u16, h: u64 },
    /// A holder left, or withdrew its writer.
    LeftRecord { r: u16, h: u64 },
    /// Seats were moved to the site `to`.
    GaveSeats { r: u16, to: u16, seats: u64 },
}
