//! On what desk tickets are claimed.
ghost use Rattle.std.specs.Prelude.{◌≤◌};

/// On what desk tickets are claimed, and by how many workers.
#[derive(Clone, Copy, Debug)]
pub struct Claiming {
    /// How many slots a level of the desk has: 1 to 1,048,576.
    pub size: u32,
    /// How many workers there are: 1 to 8.
    pub workers: u64,
    ghost some_slots: { 1 ≤ size },
    ghost few_slots: { size ≤ 1048576 },
    ghost some: { 1 ≤ workers },
    ghost few: { workers ≤ 8 },
}
