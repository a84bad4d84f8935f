//! What is made and judged in a drill.
ghost use Rattle.std.specs.Prelude.{◌≤◌};

/// What is made and judged in a drill: the log of a seed, with so many calls, on so many workers.
#[derive(Clone, Copy, Debug)]
pub struct Drilling {
    /// The seed of the log.
    pub seed: u64,
    /// How many calls the log has: at most 100,000.
    pub count: u32,
    /// How many workers there are: 1 to 8.
    pub workers: u64,
    ghost in_memory: { count ≤ 100000 },
    ghost some: { 1 ≤ workers },
    ghost few: { workers ≤ 8 },
}
