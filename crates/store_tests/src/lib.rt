//! Tests of what keeps a site's durable part, from the tables of its store to the services above, over databases in memory and
//! on files that stop. A program of tests over a database begins with all that SQLite's crates promise, whatever the tests
//! are: here it does so once for all of them. Those of the whole program stand in `shell_tests`, which needs more libraries, so
//! that both can be proved at the same time.
#![tactic(auto)]

#[cfg(test)]
mod content;
#[cfg(test)]
mod databases;
#[cfg(test)]
mod desks;
#[cfg(test)]
mod desks_kept;
#[cfg(test)]
mod desks_stopped;
#[cfg(test)]
mod files;
#[cfg(test)]
mod growths;
#[cfg(test)]
mod layout_lines;
#[cfg(test)]
mod logs_judged;
#[cfg(test)]
mod moves;
#[cfg(test)]
mod moves_stopped;
#[cfg(test)]
mod rounds;
#[cfg(test)]
mod rounds_stopped;
#[cfg(test)]
mod sites;
#[cfg(test)]
mod sites_kept;
#[cfg(test)]
mod stored;
#[cfg(test)]
mod stores;
#[cfg(test)]
mod stores_opened;
#[cfg(test)]
mod stores_served;
#[cfg(test)]
mod stores_stopped;
#[cfg(test)]
mod tables;
#[cfg(test)]
mod tables_judged;
#[cfg(test)]
mod tables_marked;
#[cfg(test)]
mod tables_stopped;
