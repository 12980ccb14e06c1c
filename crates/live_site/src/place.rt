//! Where the store of a site lies.
ghost use Rattle.std.specs.Prelude.{◌≡◌, true};

/// The place of a site's store. Somebody may remove what is there, or put another file there, while the site serves; no
/// contract can say when.
pub trait StorePlace {
    /// Whether the store that the site serves is still there.
    fn is_there(&self) -> bool;
}

/// No place: a store that nobody can take away.
#[derive(Drop)]
pub struct NoPlace {}

impl StorePlace for NoPlace {
    fn is_there(&self) -> bool
        ensures { result ≡ true }
    {
        true
    }
}
