//! The engine of `site`, over keepers in memory and over one that fails.
mod keepers;
mod sites;
