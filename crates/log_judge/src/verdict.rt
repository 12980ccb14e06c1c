/// What the judge says of closed logs and a cut: the first of these that applies. Sites, records and entries count
/// from 0, the entries of a transcript over all its runs.
#[derive(Clone, Copy, Debug, PartialEq, Eq)]
pub enum Verdict {
    /// The cut has not one length for each transcript, or a length is above its transcript's number of entries.
    BadCut,
    /// A run does not begin with what the site had left, or under a number of sites that it cannot have.
    BadJoint {
        site: u16,
    },
    /// The reply to the entry is not the model's, nor is it the last one of its run and in doubt.
    BadReply {
        site: u16,
        at: u64,
    },
    /// The merge brought a row of record `rec` and site `origin` with a counter above what that site had done in its own
    /// part of the cut.
    Exceeds {
        site: u16,
        at: u64,
        rec: u16,
        origin: u16,
    },
    /// The cut is consistent.
    Consistent,
}
