//! The service of one site over the database at a path: whether there is one is judged first, and then its lines are
//! answered one by one.
#![tactic(auto)]

pub use databases::{
    Beginning, LiveDatabases, Opening, move_live, serve_found, serve_live, serve_live_rounds,
};
pub use moving::regroup_over;
pub use rebuilding::{RebuildEnd, make_rebuilt_over};
pub use regrouping::{rebuild_found, regroup_found};
pub use rounds::{serve_rounds_found, serve_rounds_over};
pub use service_end::{Absence, ServiceEnd};
pub use serving::{Service, serve_live_over, serve_logged_over};

mod databases;
pub mod laws;
mod moving;
mod places;
mod rebuilding;
mod regrouping;
mod rounds;
mod service_end;
mod serving;
