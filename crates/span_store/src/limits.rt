//! How much a registry takes.
/// The limits of a registry, each at least 1.

#[derive(Clone, Copy, Debug, PartialEq, Eq)]
pub struct Limits {
    /// How many places there are. Each span in the store takes one, whether it is open or closing,
    /// and a retired one counts.
    pub places: u32,
    /// How many spans one place may hold, one after another. Then it is retired.
    pub generations: u32,
    /// How many handles, and how many children, a span may have.
    pub count: u32,
}

impl Limits {
    /// Limits as high as they go.
    pub const MAX: Limits = Limits {
        places: u32::MAX,
        generations: u32::MAX,
        count: u32::MAX,
    };
}
