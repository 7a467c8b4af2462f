// The phase that STATE says.

/// Where the exchange of calls and misses between program, runtime and kernel stands, as the bytes of STATE say it.
#[derive(Clone, Copy, PartialEq, Eq, Debug)]
pub enum Phase {
    /// The program has not begun.
    New,
    /// The program runs.
    Running,
    /// A call of the program is out.
    Calling,
    /// This cluster is asked for.
    Asked(u64),
    /// The program ended with this status.
    Ended(u64),
    /// The program ended by this vector.
    Trapped(u64),
    /// The kernel broke a rule.
    Dead,
}
