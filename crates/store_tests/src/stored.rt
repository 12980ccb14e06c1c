//! Sites over databases, from one run to the next.
mod failed_runs;
mod runs;
mod stopped_stores;
mod stored_sites;
