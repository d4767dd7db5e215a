//! What becomes of a goal.

use np_net::Path;
use np_space::Header;

/// What becomes of a filtering goal.
#[derive(Debug, Drop)]
pub enum Verdict {
    /// No path from its one area to the other carries a valid header that it forbids.
    Holds,
    /// Some path does.
    Violated {
        /// The least such header.
        header: Header,
        /// The first of the shortest paths that carry it.
        path: Path,
    },
}
