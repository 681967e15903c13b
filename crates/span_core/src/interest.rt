//! Whether a filter or a layer wants what a callsite makes.
ghost use Rattle.std.specs.Prelude.{◌≡◌, ◌↔◌, IsTrue};
ghost use Rattle.span_core.specs.Interest.{sum_of};

/// Whether what a callsite makes is enabled for a filter or a layer.
///
/// Stands for `tracing_core::subscriber::Interest`, whose cases are private.
#[derive(Clone, Copy, Debug, PartialEq, Eq)]
pub enum Interest {
    /// Nothing that the callsite makes is enabled.
    Never,
    /// Whether what the callsite makes is enabled is asked each time.
    Sometimes,
    /// All that the callsite makes is enabled.
    Always,
}

impl Interest {
    /// The interest by which nothing of a callsite is enabled.
    pub fn never() -> Interest
        ensures { result ≡ Interest.Never }
    {
        Interest::Never
    }

    /// The interest by which a filter or a layer is asked at each request.
    pub fn sometimes() -> Interest
        ensures { result ≡ Interest.Sometimes }
    {
        Interest::Sometimes
    }

    /// The interest by which all of a callsite is enabled.
    pub fn always() -> Interest
        ensures { result ≡ Interest.Always }
    {
        Interest::Always
    }

    /// Whether the interest is `Never`.
    pub fn is_never(&self) -> bool
        ensures { IsTrue result ↔ (self.now ≡ Interest.Never) }
    {
        *self == Interest::Never
    }

    /// Whether the interest is `Sometimes`.
    pub fn is_sometimes(&self) -> bool
        ensures { IsTrue result ↔ (self.now ≡ Interest.Sometimes) }
    {
        *self == Interest::Sometimes
    }

    /// Whether the interest is `Always`.
    pub fn is_always(&self) -> bool
        ensures { IsTrue result ↔ (self.now ≡ Interest.Always) }
    {
        *self == Interest::Always
    }

    /// The sum of two interests: the interest itself where they are equal, else `Sometimes`.
    pub(crate) fn and(self, other: Interest) -> Interest
        ensures { result ≡ sum_of self other }
    {
        if self == other {
            self
        } else {
            Interest::Sometimes
        }
    }
}
