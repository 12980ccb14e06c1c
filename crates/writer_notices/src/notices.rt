use grow_counters::{COUNTER_LIMIT, Counts};
use std::alloc::{AllocError, Global};
use std::marker::Model;
use thiserror::Error;

/// The unfinished writers that a site has at most.
pub const MOST_WRITERS: u64 = 64;

/// Why a writer was not announced.
#[derive(Clone, Copy, Debug, PartialEq, Eq, Error)]
pub enum NoticeError {
    /// The site has announced as many writers as its counter holds.
    #[error("the counter would pass its limit")]
    CounterFull,
    /// The site has 64 unfinished writers.
    #[error("the site has too many unfinished writers")]
    TooManyWriters,
}

/// How many writers each site announced, and how many of them finished. A writer announces itself before
/// it enters, and finishes when it leaves or withdraws; under the second problem of Courtois, Heymans and
/// Parnas (1971) an unfinished writer keeps new readers out.
#[derive(Debug, Drop)]
pub struct Notices {
    announced: Counts,
    finished: Counts,
}

// Contracts see both lists of counters.
impl Model for Notices {
    ghost use Rattle.writer_notices.specs.Notices.{NoticeState, IsNotices};

    ghost Value = { NoticeState };

    ghost view = { λ n. record { announced = n.announced; finished = n.finished } };

    ghost invariant = { λ n. IsNotices (record { announced = n.announced; finished = n.finished }) };
}

impl Notices {
    ghost use Rattle.std.specs.Prelude.{◌≡◌, ℕ, ◌<◌, ◌≤◌, length, replicate, slice_index, IfOk, MatchResult, MatchOption, Some, None};
    ghost use Rattle.grow_counters.specs.Counts.{counter_limit};
    ghost use Rattle.writer_notices.specs.Notices.{NoticeState, IsNotices, open_count, IsOpen, IsLeastOpen, announce_fault, announced_at, finished_at, joined, joined_at, notice_rises};

    /// The notices of `n` sites, at most 16, at which no writer was announced.
    pub fn new(alloc: Global, n: u16) -> Result<Notices, AllocError>
        requires { n ≤ 16 }
        ensures { IfOk result (λ it. it ≡ record { announced = replicate n 0; finished = replicate n 0 }) }
    {
        let announced = Counts::new(alloc, usize::from(n))?;
        let finished = Counts::new(alloc, usize::from(n))?;
        Ok(Notices {
            announced,
            finished,
        })
    }

    /// The number of sites, at most 16.
    pub fn sites(&self) -> u16
        ensures count { result ≡ length self.now.announced }
        ensures valid { IsNotices self.now }
    {
        self.announced.len() as u16
    }

    /// How many writers site `s` announced.
    pub fn announced(&self, s: u16) -> u64
        requires { s < length self.now.announced }
        ensures { result ≡ slice_index self.now.announced s }
    {
        self.announced.get(usize::from(s))
    }

    /// How many writers of site `s` finished.
    pub fn finished(&self, s: u16) -> u64
        requires { s < length self.now.announced }
        ensures { result ≡ slice_index self.now.finished s }
    {
        self.finished.get(usize::from(s))
    }

    /// How many writers of site `s` are announced and not finished.
    pub fn open_at(&self, s: u16) -> u64
        requires { s < length self.now.announced }
        ensures { result ≡ open_count self.now s }
    {
        let s = usize::from(s);
        self.announced.get(s) - self.finished.get(s)
    }

    /// The least site with an unfinished writer. Linear in the sites.
    pub fn unfinished(&self) -> Option<u16>
        ensures { MatchOption result ((s : ℕ) → ¬ IsOpen self.now s) (λ s. IsLeastOpen self.now s) }
    {
        for s in 0..self.announced.len() {
            if self.finished.get(s) < self.announced.get(s) {
                return Some(s as u16);
            }
        }
        None
    }

    /// Announces a writer of site `s`, and answers its number, the site's new count.
    pub fn announce(&mut self, s: u16) -> Result<u64, NoticeError>
        requires { s < length self.old.announced }
        ensures answer { MatchResult result
            (λ n. (announce_fault self.old s ≡ None) × (n ≡ slice_index self.new.announced s))
            (λ e. announce_fault self.old s ≡ Some e) }
        ensures notices { MatchResult result
            (λ _. self.new ≡ announced_at self.old s)
            (λ _. self.new ≡ self.old) }
        ensures valid { IsNotices self.new }
    {
        let had = self.announced(s);
        if had >= COUNTER_LIMIT {
            return Err(NoticeError::CounterFull);
        }
        if self.open_at(s) >= MOST_WRITERS {
            return Err(NoticeError::TooManyWriters);
        }
        self.announced.add(usize::from(s), 1);
        Ok(had + 1)
    }

    /// Finishes a writer of site `s`, whose caller shows that one is unfinished.
    pub fn finish(&mut self, s: u16)
        requires { IsOpen self.old s }
        ensures notices { self.new ≡ finished_at self.old s }
        ensures valid { IsNotices self.new }
    {
        self.finished.add(usize::from(s), 1);
    }

    /// Raises each counter to the other's, and answers how many rose. Linear in the sites.
    pub fn join(&mut self, other: &Notices) -> u64
        requires { length other.now.announced ≡ length self.old.announced }
        ensures notices { self.new ≡ joined self.old other.now }
        ensures risen { result ≡ notice_rises self.old self.new }
        ensures valid { IsNotices self.new }
    {
        let announced = self.announced.join(&other.announced);
        let finished = self.finished.join(&other.finished);
        announced + finished
    }

    /// Raises the counters of site `s` to these, and answers how many rose. The caller shows that a site
    /// can have them.
    pub fn join_row(&mut self, s: u16, ann: u64, fin: u64) -> u64
        requires site { s < length self.old.announced }
        requires in_order { fin ≤ ann }
        requires limited { ann ≤ counter_limit }
        ensures notices { self.new ≡ joined_at self.old s ann fin }
        ensures risen { result ≡ notice_rises self.old self.new }
        ensures few { result ≤ 2 }
        ensures valid { IsNotices self.new }
    {
        let announced = self.announced.raise_to(usize::from(s), ann);
        let finished = self.finished.raise_to(usize::from(s), fin);
        u64::from(announced) + u64::from(finished)
    }
}
