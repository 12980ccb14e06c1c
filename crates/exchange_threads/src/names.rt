/// The name of a refusal that an inbox counts. Want of memory, a stopped site and a full log have none here: they end
/// a turn, or the run.
#[derive(Clone, Copy, Debug, PartialEq, Eq, Hash)]
pub enum RefusalName {
    /// The text has more bytes than any delta's.
    TooLong,
    /// The text is not UTF-8.
    NotUtf8,
    /// The text is not JSON.
    NotJson,
    /// The text is JSON, and not the text of a delta.
    NotCanonical,
    /// A row of the delta has not the layout's form.
    OtherLayout,
    /// A row of the delta is none that a site can have.
    BadRow,
    /// The delta tells more of this site than the site has done.
    OwnRowAhead,
    /// The store failed.
    StoreFault,
}
