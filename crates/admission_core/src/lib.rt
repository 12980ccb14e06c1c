//! One site's admission: each call is answered at once, from the site's own book and sessions, as the model of a
//! site answers it.
#![tactic(auto)]

pub use admission_model::{
    Ask, Call, DurableCell, HOLDER_LIMIT, Operation, Phase, Plan, Refusal, Reply, Session,
};
pub use change::{Change, SessionChange};
pub use durable::Durable;
pub use kept::{Counters, kept_cells};
pub use prepared::Prepared;
pub use replies::is_memory;
pub use restoring::RestoreError;
pub use site_core::SiteCore;

mod change;
mod durable;
mod kept;
mod prepared;
mod replies;
mod restoring;
mod site_core;
mod starts;
