//! Symbolic links in a folder.

/// What becomes of symbolic links in a folder that is served.
#[derive(Clone, Copy, Debug, PartialEq, Eq)]
pub enum Links {
    /// What is behind one is not found. An open file tells its own path (`/proc/self/fd`), which
    /// has to be that of the request: so a link is refused also if it came after it was looked for.
    Refused,
    /// What they lead to is served, also outside of the folder.
    Followed,
}
