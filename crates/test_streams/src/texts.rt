//! Layouts, and texts of deltas.

/// Two sites, of which the first has the two seats of record a, under problem 1.
pub const TWO_SITES: &str =
    "sites = 2\n[[record]]\nname = \"a\"\nseats = 2\nhome = 0\nproblem = 1\n";

/// The same under problem 2.
pub const WRITERS_FIRST: &str =
    "sites = 2\n[[record]]\nname = \"a\"\nseats = 2\nhome = 0\nproblem = 2\n";

/// Three sites, and record a with three seats at site 0 under problem 2.
pub const THREE_SITES: &str =
    "sites = 3\n[[record]]\nname = \"a\"\nseats = 3\nhome = 0\nproblem = 2\n";

/// Of two sites: site 0 gave one of its two seats to site 1.
pub const GAVE: &str =
    "{\"from\":0,\"rows\":[{\"ann\":0,\"fin\":0,\"out\":[2,1],\"r\":0,\"s\":0,\"taken\":0}],\"v\":1}\n";

/// Of three sites: a writer is announced at site 1.
pub const FIRST: &str =
    "{\"from\":1,\"rows\":[{\"ann\":1,\"fin\":0,\"out\":[0,0,0],\"r\":0,\"s\":1,\"taken\":0}],\"v\":1}\n";

/// Site 0 heard of it, let a reader in, and gave two seats.
pub const SECOND: &str =
    "{\"from\":0,\"rows\":[{\"ann\":0,\"fin\":0,\"out\":[3,2,0],\"r\":0,\"s\":0,\"taken\":1},{\"ann\":1,\"fin\":0,\"out\":[0,0,0],\"r\":0,\"s\":1,\"taken\":0}],\"v\":1}\n";

/// It gave a third.
pub const THIRD: &str =
    "{\"from\":0,\"rows\":[{\"ann\":0,\"fin\":0,\"out\":[4,3,0],\"r\":0,\"s\":0,\"taken\":1},{\"ann\":1,\"fin\":0,\"out\":[0,0,0],\"r\":0,\"s\":1,\"taken\":0}],\"v\":1}\n";
