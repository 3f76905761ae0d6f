//! What a server answers for.

/// Which ends the workers of a server came to, as far as it answers for them.
#[derive(Clone, Copy, Debug, PartialEq, Eq)]
pub struct Ends {
    /// Memory ran out for a worker, or for a link that it served.
    pub memory: bool,
    /// A worker's listener failed.
    pub listen_fault: bool,
    /// The ticker failed.
    pub tick_fault: bool,
}
