//! Callsites that a dispatcher knows.
ghost use Rattle.std.specs.Prelude.{◌≡◌, ◌<◌, IfSome, IsTrue};
ghost use Rattle.span_dispatch.specs.Registration.{next_epoch, registered_metadata};
ghost use Rattle.span_dispatch.specs.private.Registration.{IsAlwaysUntil, IsKeptIn, interest_in};

use span_core::{Interest, Metadata};

/// How often a dispatcher forgot what it cached. The last epoch never ends.
#[derive(Clone, Copy, Debug, PartialEq, Eq)]
pub(crate) struct Epoch(u64);

impl Epoch {
    /// The epoch in which nothing was forgotten yet.
    pub(crate) fn first() -> Epoch {
        Epoch(0)
    }

    /// The epoch after this one.
    pub(crate) fn next(self) -> Epoch
        ensures { result ≡ next_epoch self }
    {
        Epoch(self.0.saturating_add(1))
    }
}

/// A callsite that a dispatcher was asked of: by it the dispatcher finds its cached interest with
/// no search.
///
/// Stands for `tracing_core::callsite::Registration`. Each is one dispatcher's own, and a value
/// that is copied.
#[derive(Clone, Copy, Debug)]
pub struct Registration {
    metadata: Metadata,
    kept: Option<Kept>,
    // Before this epoch the interest is cached as always; 0 where it isn't.
    always_until: u64,
}

/// An interest, and the epoch in which it is cached.
#[derive(Clone, Copy, Debug)]
struct Kept {
    interest: Interest,
    epoch: Epoch,
}

impl Registration {
    /// A registration of these metadata, with the interest that is cached in this epoch, if any.
    pub(crate) fn new(metadata: Metadata, interest: Option<Interest>, epoch: Epoch) -> Registration
        ensures metadata { registered_metadata result ≡ metadata }
        ensures kept { IfSome result.kept (IsKeptIn epoch interest) }
        ensures always { IsAlwaysUntil epoch interest result.always_until }
    {
        let mut registration = Registration {
            metadata,
            kept: None,
            always_until: 0,
        };
        if let Some(interest) = interest
            && epoch.0 < u64::MAX
        {
            registration.kept = Some(Kept { interest, epoch });
            if interest.is_always() {
                registration.always_until = epoch.0 + 1;
            }
        }
        registration
    }

    /// What the callsite's spans or events say of themselves.
    pub fn metadata(&self) -> Metadata
        ensures { result ≡ registered_metadata self.now }
    {
        self.metadata
    }

    /// The callsite's interest that is cached in this epoch, if any.
    #[inline(always)]
    pub(crate) fn interest_in(&self, epoch: Epoch) -> Option<Interest>
        ensures { result ≡ interest_in epoch self.now }
    {
        match self.kept {
            Some(kept) if kept.epoch.0 == epoch.0 => Some(kept.interest),
            _ => None,
        }
    }

    /// Whether the callsite's interest that is cached in this epoch is always.
    #[inline(always)]
    pub(crate) fn is_always_in(&self, epoch: Epoch) -> bool
        ensures { IsTrue result → epoch.0 < self.now.always_until }
    {
        epoch.0 < self.always_until
    }
}
