use admission_model::{Ask, Reply};

/// What may happen next. Messages stay for ever, so that any of them may be taken at any time, or never.
#[derive(Clone, Copy, Debug, PartialEq, Eq)]
pub enum Event {
    /// A caller asks a site.
    Call(u16, Ask),
    /// A site tells what it knows.
    Send(u16),
    /// A site takes the message of this number.
    Take(u16, u64),
    /// A site takes the message of the first number, without the rows that the message of the second has.
    Thin(u16, u64, u64),
    /// A site is started again.
    Restart(u16),
    /// A site is started again under the whole layout.
    Grow(u16),
}

/// What an event is answered.
#[derive(Debug, Drop)]
pub enum WorldReply {
    /// The site's own reply.
    Core(Reply),
    /// The message was sent, with this number.
    Sent(u64),
    /// The site was started again.
    Restarted,
    /// The site knows all sites from now on.
    Grown,
    /// There is no such site.
    NoSite,
    /// No message has this number.
    NoMessage,
    /// The site knew all sites before.
    NoGrowth,
    /// No memory was found; nothing changed.
    Memory,
}
