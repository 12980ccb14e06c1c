use thiserror::Error;

/// Why a site's store can't be used: the first that applies, from the top, but for a fault, which may come at any call.
#[derive(Clone, Copy, Debug, PartialEq, Eq, Error)]
pub enum StoreRefusal {
    /// It holds something that no store of a site holds, or lacks what each one has.
    #[error("the database is no store of a site")]
    BadStore,
    #[error("it is the store of another site")]
    WrongSite,
    /// It was made for a layout that is neither this one nor an earlier one of its growth.
    #[error("it is a store of another layout")]
    WrongLayout,
    /// What is kept has counters that are not what a stop leaves of this site.
    #[error("its counters are no site's")]
    WrongCounters,
    /// What is kept has sessions that are not those of its counters.
    #[error("its sessions are not those of its counters")]
    WrongSessions,
    /// It can't be opened, is no database, or does not give back what it kept.
    #[error("the store has failed")]
    StoreFault,
}

impl StoreRefusal {
    ghost use Rattle.std.specs.Prelude.{◌≡◌};
    ghost use Rattle.exit_status.specs.Endings.{store_refusal_name};

    /// The name that the program writes.
    pub fn name(self) -> &'static str
        ensures { result.now ≡ store_refusal_name self }
    {
        match self {
            StoreRefusal::BadStore => "BadStore",
            StoreRefusal::WrongSite => "WrongSite",
            StoreRefusal::WrongLayout => "WrongLayout",
            StoreRefusal::WrongCounters => "WrongCounters",
            StoreRefusal::WrongSessions => "WrongSessions",
            StoreRefusal::StoreFault => "StoreFault",
        }
    }
}
