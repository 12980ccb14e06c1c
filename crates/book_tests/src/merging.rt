//! What no clause says: that memory which is there is used, which texts refusals have, and computed values.

mod books;
mod deltas;
mod layouts;
mod limits;
