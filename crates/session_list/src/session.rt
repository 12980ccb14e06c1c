/// What a session is doing at a record.
#[derive(Clone, Copy, Debug, PartialEq, Eq)]
pub enum Phase {
    /// Inside, reading.
    Reader,
    /// Announced, not inside.
    Waiting,
    /// Inside, writing.
    Writer,
}

/// A holder's session at a record: `r` is the record, `h` the holder.
#[derive(Clone, Copy, Debug, PartialEq, Eq)]
pub struct Session {
    pub r: u16,
    pub h: u64,
    pub phase: Phase,
}
