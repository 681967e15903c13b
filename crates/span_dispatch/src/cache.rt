//! What a dispatcher keeps of its stack's answers.
ghost use Rattle.std.specs.HashMap as hash;
ghost use Rattle.std.specs.HashMap.{spare};
ghost use Rattle.std.specs.Prelude.{◌≡◌, ◌≤◌, ℕ, IfErr, IfSome, None, OnErr, OnOk, Some, false, nat_eq, not};
ghost use Rattle.span_core.specs.Level.{is_above};
ghost use Rattle.span_core.specs.Metadata.{callsite_of, level_of};
ghost use Rattle.span_dispatch.specs.declared.cache.Callsite.{Callsite};

use span_core::{Interest, Level, LevelFilter, Metadata, Pass, TraceError};
use span_registry::{SeededState, Subscriber};
use std::alloc::Global;
use std::collections::HashMap;

/// What a dispatcher caches of its stack's answers, if it caches anything.
#[derive(Debug, Drop)]
pub(crate) enum Cache {
    /// The cache is off: nothing is ever cached.
    Off,
    /// Nothing is cached yet.
    Empty,
    /// These answers are cached.
    Filled(Known),
}

/// A stack's hint, and its interest in the callsites that it was asked of, by their numbers. Memory
/// is held for so many more.
#[derive(Debug, Drop)]
pub(crate) struct Known {
    hint: Option<LevelFilter>,
    callsites: HashMap<u64, Callsite, SeededState>,
    room: usize,
    ghost held: { room ≤ spare callsites },
    ghost below: { (n : ℕ) (one : Callsite) → hash.get nat_eq callsites n ≡ Some one
        → is_above (level_of one.metadata) hint ≡ false },
}

/// The interest in a callsite, with the metadata of which it was asked.
#[derive(Clone, Copy, Debug)]
struct Callsite {
    metadata: Metadata,
    interest: Interest,
}

impl Cache {
    ghost use Rattle.span_dispatch.specs.private.Interest.{GivesInterest, HoldsRoom};
    ghost use Rattle.span_dispatch.specs.Cache.{KnowsInterest, forgotten};
    ghost use Rattle.span_dispatch.specs.declared.cache.Cache.TheVariants.{Empty};

    /// Forgets all that is cached.
    pub(crate) fn forget(&mut self)
        ensures { self.new ≡ forgotten self.old }
    {
        if let Cache::Filled(_) = self {
            *self = Cache::Empty;
        }
    }

    /// The interest in a callsite that decides its requests: never above the hint, sometimes where
    /// the cache is off, else the stack's. With a cached interest given, nothing is searched for.
    ///
    /// Refused where the callsite is cached with other metadata (`CallsiteMismatch`), else for want
    /// of memory.
    #[inline(always)]
    pub(crate) fn interest<S: Subscriber>(
        &mut self,
        alloc: Global,
        stack: &S,
        meta: &Metadata,
        kept: Option<Interest>,
    ) -> Result<Interest, TraceError>
        requires usable { S.usable stack.now }
        requires kept { IfSome kept (KnowsInterest self.old meta.now) }
        ensures { GivesInterest S.registry S.has_form stack.now meta.now result self.old self.new }
    {
        match self {
            Cache::Filled(known) => known.interest(stack, meta, kept),
            Cache::Empty => self.begin(alloc, stack, meta),
            Cache::Off => Ok(Interest::Sometimes),
        }
    }

    /// Holds memory for so many callsites more, unless the cache is off. Where nothing is cached
    /// yet, reads the hint.
    ///
    /// Refused for want of memory alone, where it isn't held already.
    pub(crate) fn reserve<S: Subscriber>(
        &mut self,
        alloc: Global,
        stack: &S,
        callsites: usize,
    ) -> Result<(), TraceError>
        requires usable { S.usable stack.now }
        ensures { HoldsRoom S.registry S.has_form stack.now callsites result self.old self.new }
    {
        match self {
            Cache::Filled(known) => known.reserve(callsites),
            Cache::Empty => {
                let mut known = Known {
                    hint: stack.max_level_hint(),
                    callsites: HashMap::with_hasher(alloc, stack.root().hasher()),
                    room: 0,
                };
                let reserved = known.reserve(callsites);
                *self = Cache::Filled(known);
                reserved
            }
            Cache::Off => Ok(()),
        }
    }

    /// The interest that is cached for metadata that show the same, if any.
    pub(crate) fn kept(&self, meta: &Metadata) -> Option<Interest>
        ensures { IfSome result (KnowsInterest self.now meta.now) }
    {
        let Cache::Filled(known) = self else {
            return None;
        };
        match known.callsites.get(&meta.callsite()) {
            Some(callsite) if callsite.metadata.shows_same(meta) => Some(callsite.interest),
            _ => None,
        }
    }

    /// The interest in a first callsite, once the hint was read.
    #[inline(never)]
    fn begin<S: Subscriber>(
        &mut self,
        alloc: Global,
        stack: &S,
        meta: &Metadata,
    ) -> Result<Interest, TraceError>
        requires usable { S.usable stack.now }
        requires empty { self.old ≡ Empty }
        ensures { GivesInterest S.registry S.has_form stack.now meta.now result self.old self.new }
    {
        let mut known = Known {
            hint: stack.max_level_hint(),
            callsites: HashMap::with_hasher(alloc, stack.root().hasher()),
            room: 0,
        };
        let interest = known.interest(stack, meta, None);
        *self = Cache::Filled(known);
        interest
    }
}

impl Known {
    ghost use Rattle.span_dispatch.specs.private.Interest.{GivesInterest};
    ghost use Rattle.span_dispatch.specs.Cache.{KnowsInterest, RefusesRoom, callsites_of, known_of, with_room};
    ghost use Rattle.span_dispatch.specs.declared.cache.Cache.TheVariants.{Filled};

    /// The cached hint.
    pub(crate) fn hint(&self) -> Option<LevelFilter>
        ensures { result ≡ self.now.hint }
    {
        self.hint
    }

    /// The interest in a callsite: never above the hint, else the one that is given or cached, else
    /// the stack is asked, and its answer cached.
    #[inline(always)]
    fn interest<S: Subscriber>(
        &mut self,
        stack: &S,
        meta: &Metadata,
        kept: Option<Interest>,
    ) -> Result<Interest, TraceError>
        requires usable { S.usable stack.now }
        requires kept { IfSome kept (KnowsInterest (Filled self.old) meta.now) }
        ensures { GivesInterest S.registry S.has_form stack.now meta.now result (Filled self.old)
            (Filled self.new) }
    {
        if !self.passes(meta.level()) {
            return Ok(Interest::Never);
        }
        if let Some(interest) = kept {
            return Ok(interest);
        }
        if let Some(callsite) = self.callsites.get(&meta.callsite()) {
            if callsite.metadata.shows_same(meta) {
                return Ok(callsite.interest);
            }
            return Err(TraceError::CallsiteMismatch);
        }
        self.learn(stack, meta)
    }

    /// Asks the stack for its interest in a callsite that isn't cached, and caches that. Refused
    /// for want of memory, unless some is held.
    #[inline(never)]
    fn learn<S: Subscriber>(&mut self, stack: &S, meta: &Metadata) -> Result<Interest, TraceError>
        requires usable { S.usable stack.now }
        requires below { is_above (level_of meta.now) self.old.hint ≡ false }
        requires unknown { known_of self.old (callsite_of meta.now) ≡ None }
        ensures { GivesInterest S.registry S.has_form stack.now meta.now result (Filled self.old)
            (Filled self.new) }
    {
        let interest = stack.register_callsite(meta, &mut Pass::new());
        let callsite = Callsite {
            metadata: *meta,
            interest,
        };
        match self.callsites.insert(meta.callsite(), callsite) {
            Ok(_) => {
                self.room = self.room.saturating_sub(1);
                Ok(interest)
            }
            Err(_) => Err(TraceError::OutOfMemory),
        }
    }

    /// Holds memory for so many callsites more. Refused for want of memory alone, where it isn't
    /// held already.
    fn reserve(&mut self, callsites: usize) -> Result<(), TraceError>
        ensures hint { self.new.hint ≡ self.old.hint }
        ensures known { (n : ℕ) → known_of self.new n ≡ known_of self.old n }
        ensures held { OnOk result
            (callsites_of self.new ≡ with_room callsites (callsites_of self.old)) }
        ensures unchanged { OnErr result (callsites_of self.new ≡ callsites_of self.old) }
        ensures refused { IfErr result (RefusesRoom callsites (Some (callsites_of self.old))) }
    {
        if self.callsites.reserve(callsites).is_err() {
            return Err(TraceError::OutOfMemory);
        }
        self.room = self.room.max(callsites);
        Ok(())
    }

    /// Whether a level isn't above the hint.
    fn passes(&self, level: Level) -> bool
        ensures { result ≡ not (is_above level self.now.hint) }
    {
        match self.hint {
            Some(most) => most.passes(level),
            None => true,
        }
    }
}
