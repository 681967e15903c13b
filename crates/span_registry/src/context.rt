//! A subscriber as its parts see it: from a lane, under a mask.
ghost use Rattle.std.specs.Borrow.{sem};
ghost use Rattle.std.specs.FinMap.{get};
ghost use Rattle.std.specs.Option.{option_copied_mut};
ghost use Rattle.std.specs.Prelude.{◌≡◌, ⊤, None, Some, IsTrue, false, is_some, not, IfSome};
ghost use Rattle.span_core.specs.Event.{event_parent};
ghost use Rattle.span_core.specs.Filters.{has_filter, is_attached, is_enabled};
ghost use Rattle.span_core.specs.Pass.{refused_of};
ghost use Rattle.span_core.specs.Span.{number_of};
ghost use Rattle.span_store.specs.LaneStack.{spans_to_give};
ghost use Rattle.span_store.specs.Step.{ShowsCurrent};
ghost use Rattle.span_store.specs.Store.{new_registry};
ghost use Rattle.span_registry.specs.Context.{Borrows, AnswersProbe, Exchanges, GivesScope, HasNoRefusals, IsLent, LendsOver, LentOn, LooksAt, LooksAtLent, LooksAtRoot, MasksMore, Narrows, NarrowsLent, RefersTo, RefersToLent, SendsEvent, enabled_in, enabled_lent, extensions_lent, is_shown_to, lane_in, lane_lent, loan_of, mask_of_loan, refused_lent, store_in, subscriber_in, subscriber_lent, view_in, view_lent, with_mask};
ghost use Rattle.span_registry.specs.Lends.{lends_seen, lends_subscriber};
ghost use Rattle.span_registry.specs.Notice.{is_admitted, notice_of};
ghost use Rattle.span_registry.specs.View.{current_shown, event_shown, first_shown, metadata_shown, shown};

use crate::lookup::LookupSpan;
use crate::mask::Mask;
use crate::notice::Notice;
use crate::scope::{Scope, SpanRef};
use crate::subscriber::Subscriber;
use span_core::{Current, Event, FilterId, FilterMap, Id, Lane, Metadata, Parent, Pass};
use span_extensions::ExtensionsMut;
use span_store::{Limits, Registry, StackIter};
use std::alloc::AllocError;
use std::mem;

/// A shared look at a subscriber, from a lane and under a mask: or at none, and then no span is
/// there.
///
/// Stands for `tracing_subscriber::layer::Context`.
pub struct Context<'a, S> {
    subscriber: Option<&'a S>,
    lane: Lane,
    mask: Mask,
}

impl<S> Clone for Context<'_, S> {
    ghost is_clone = { λ c copy. copy ≡ c };

    ghost is_infallible = { λ c. ⊤ };

    fn clone(&self) -> Result<Self, AllocError> {
        Ok(*self)
    }
}

impl<S> Copy for Context<'_, S> {}

impl<'a, S> Context<'a, S> {
    /// A look at no subscriber, from lane 0, under a mask of no filter.
    pub fn none() -> Context<'a, S>
        ensures { LooksAt result None 0 (λ n. false) }
    {
        Context {
            subscriber: None,
            lane: Lane(0),
            mask: Mask::none(),
        }
    }

    /// A look at this subscriber, under a mask of no filter.
    pub fn new(subscriber: &'a S, lane: Lane) -> Context<'a, S>
        ensures { LooksAt result (Some subscriber.now) lane.0 (λ n. false) }
    {
        Context {
            subscriber: Some(subscriber),
            lane,
            mask: Mask::none(),
        }
    }

    /// This look under the filters of this id too, which is attached.
    pub fn with_filter(&self, filter: FilterId) -> Context<'a, S>
        requires { IsTrue (is_attached filter) }
        ensures { Narrows self.now (has_filter filter) result }
    {
        Context {
            subscriber: self.subscriber,
            lane: self.lane,
            mask: self.mask.and(filter),
        }
    }

    /// The lane that the look is from.
    pub fn lane(&self) -> Lane
        ensures { result ≡ lane_in self.now }
    {
        self.lane
    }
}

impl<'a, S: LookupSpan> Context<'a, S> {
    /// This look, at the registry that the subscriber stands on.
    pub fn to_root(&self) -> Context<'a, Registry>
        ensures { LooksAtRoot S.registry self.now result }
    {
        let subscriber = match self.subscriber {
            Some(subscriber) => Some(subscriber.root()),
            None => None,
        };
        Context {
            subscriber,
            lane: self.lane,
            mask: self.mask,
        }
    }

    /// The span, if it is in the store and isn't hidden.
    pub fn span(&self, id: Id) -> Option<SpanRef<'a, S>>
        ensures { RefersTo S.registry self.now (shown (number_of id)) result }
    {
        match self.subscriber {
            None => None,
            Some(subscriber) => match subscriber.span_data(id) {
                None => None,
                Some(found) => {
                    if self.mask.hides(&found) {
                        None
                    } else {
                        Some(SpanRef::new(subscriber, found, self.mask))
                    }
                }
            },
        }
    }

    /// The span's metadata, if it is in the store and isn't hidden.
    pub fn metadata(&self, id: Id) -> Option<Metadata>
        ensures { result ≡ metadata_shown (number_of id) (view_in S.registry self.now) }
    {
        match self.span(id) {
            None => None,
            Some(found) => Some(found.metadata()),
        }
    }

    /// Whether the span is in the store, hidden or not.
    pub fn exists(&self, id: Id) -> bool
        ensures { result ≡ is_some (get (store_in S.registry self.now).spans (number_of id)) }
    {
        match self.subscriber {
            None => false,
            Some(subscriber) => subscriber.span_data(id).is_some(),
        }
    }

    /// The span that the lane is in, as far as the mask lets it be seen. None where the newest
    /// entry of the lane's stack that is no duplicate isn't in the store; else the newest one that
    /// isn't hidden.
    pub fn lookup_current(&self) -> Option<SpanRef<'a, S>>
        ensures { RefersTo S.registry self.now current_shown result }
    {
        match self.subscriber {
            None => None,
            Some(subscriber) => match subscriber.root().stack_on(self.lane) {
                None => None,
                Some(stack) => match stack.current() {
                    None => None,
                    Some(newest) => {
                        if self.exists(newest) {
                            first_of(self, stack.iter())
                        } else {
                            None
                        }
                    }
                },
            },
        }
    }

    /// The span of an event: none for a root event, the one that the lane is in for a contextual
    /// event, else the one that is named, if it isn't hidden.
    pub fn event_span(&self, event: &Event<'_>) -> Option<SpanRef<'a, S>>
        ensures { RefersTo S.registry self.now (event_shown (event_parent event.now)) result }
    {
        match event.asked_parent() {
            Parent::Root => None,
            Parent::Contextual => self.lookup_current(),
            Parent::Explicit(id) => self.span(id),
        }
    }

    /// The span's scope, if the span is in the store and isn't hidden.
    pub fn span_scope(&self, id: Id) -> Option<Scope<'a, S>>
        ensures { GivesScope S.registry self.now (shown (number_of id)) result }
    {
        match self.span(id) {
            None => None,
            Some(found) => Some(found.scope()),
        }
    }

    /// The scope of the event's span, if it has one.
    pub fn event_scope(&self, event: &Event<'_>) -> Option<Scope<'a, S>>
        ensures { GivesScope S.registry self.now (event_shown (event_parent event.now)) result }
    {
        match self.event_span(event) {
            None => None,
            Some(found) => Some(found.scope()),
        }
    }

    /// Whether the id is attached, the span is in the store and isn't hidden, and none of the id's
    /// filters refused it.
    pub fn is_enabled_for(&self, id: Id, filter: FilterId) -> bool
        ensures { result ≡ enabled_in S.registry self.now filter (number_of id) }
    {
        match self.subscriber {
            None => false,
            Some(subscriber) => match subscriber.root().verdict_of(id) {
                None => false,
                Some(verdict) => self.mask.passes(verdict, filter),
            },
        }
    }
}

impl<S: Subscriber> Context<'_, S> {
    /// The span that the lane is in, hidden or not.
    pub fn current_span(&self) -> Current
        ensures { ShowsCurrent (store_in S.registry self.now) (lane_in self.now) result }
    {
        match self.subscriber {
            Some(subscriber) => subscriber.current_span(self.lane),
            None => Current::none(),
        }
    }

    /// Whether a span or an event with this metadata is enabled by the subscriber. Its filters'
    /// answers go into a pass that is thrown away. Without a subscriber the answer is true.
    pub fn enabled(&self, meta: &Metadata) -> bool
        requires { IfSome (subscriber_in self.now) S.usable }
        ensures asked { AnswersProbe S.registry S.has_form self.now meta.now result }
        ensures absent { subscriber_in self.now ≡ None → IsTrue result }
    {
        match self.subscriber {
            Some(subscriber) => {
                let mut pass = Pass::new();
                subscriber.enabled(self.lane, meta, &mut pass)
            }
            None => true,
        }
    }
}

/// The first of these spans that the context shows.
fn first_of<'a, S: LookupSpan>(
    context: &Context<'a, S>,
    spans: StackIter<'_>,
) -> Option<SpanRef<'a, S>>
    ensures { RefersTo S.registry context.now (first_shown (spans_to_give spans.entry)) result }
{
    let mut left = spans;
    while let Some(id) = left.next() {
        if let Some(found) = context.span(id) {
            return Some(found);
        }
    }
    None
}

/// A subscriber lent to a hook, from a lane and under a mask, with the filters' answers during the
/// request.
#[derive(Drop)]
pub struct ContextMut<'a, S> {
    subscriber: &'a mut S,
    lane: Lane,
    mask: Mask,
    refused: FilterMap,
}

impl<'a, S> ContextMut<'a, S> {
    /// Lends a subscriber under a mask of no filter, with the refusals of this pass.
    pub fn new(subscriber: &'a mut S, lane: Lane, pass: &Pass) -> ContextMut<'a, S>
        ensures loan { Borrows result subscriber.entry.ghost_name }
        ensures lent { IsLent result subscriber.old lane.0 (λ n. false) (refused_of pass.now) }
    {
        ContextMut {
            subscriber,
            lane,
            mask: Mask::none(),
            refused: pass.refused(),
        }
    }

    /// Lends the subscriber under the filters of this id too, which is attached.
    pub fn with_filter(mut self, filter: FilterId) -> ContextMut<'a, S>
        requires { IsTrue (is_attached filter) }
        ensures loan { Borrows result (loan_of self.entry) }
        ensures lent { NarrowsLent self.entry (has_filter filter) result }
    {
        self.mask = self.mask.and(filter);
        self
    }

    /// Puts the filters of this id, which is attached, into the mask too, and answers the mask that
    /// was there. `restore_mask` puts that one back.
    pub fn narrow(&mut self, filter: FilterId) -> Mask
        requires { IsTrue (is_attached filter) }
        ensures before { result ≡ mask_of_loan self.old }
        ensures narrowed { MasksMore self.old (has_filter filter) self.new }
    {
        let before = self.mask;
        self.mask = before.and(filter);
        before
    }

    /// Puts this mask in the place of the one that is there.
    pub fn restore_mask(&mut self, mask: Mask)
        ensures { self.new ≡ with_mask self.old mask }
    {
        self.mask = mask;
    }

    /// Lends the subscriber on, until what is answered is given back.
    pub fn lend(&mut self) -> ContextMut<'_, S>
        ensures* writes_back { sem 𝓛 (lends_subscriber S.row self.entry result) }
        ensures lent { LentOn self.old result }
    {
        let lane = self.lane;
        let mask = self.mask;
        let refused = self.refused;
        let subscriber = &mut *self.subscriber;
        ContextMut {
            subscriber,
            lane,
            mask,
            refused,
        }
    }

    /// Lends another subscriber from the same lane, under the same mask and with the same refusals.
    pub fn over<'r, T>(&self, subscriber: &'r mut T) -> ContextMut<'r, T>
        ensures loan { Borrows result subscriber.entry.ghost_name }
        ensures lent { LendsOver self.now subscriber.old result }
    {
        let (lane, mask) = (self.lane, self.mask);
        ContextMut {
            subscriber,
            lane,
            mask,
            refused: self.refused,
        }
    }

    /// A shared look at the same subscriber, from the same lane and under the same mask.
    pub fn ctx(&self) -> Context<'_, S>
        ensures { LooksAtLent self.now result }
    {
        let mut look = Context::new(&*self.subscriber, self.lane);
        look.mask = self.mask;
        look
    }

    /// The lane that the look is from.
    pub fn lane(&self) -> Lane
        ensures { result ≡ lane_lent self.now }
    {
        self.lane
    }

    /// Whether a filter of this id refused during the request, or the id is unattached.
    ///
    /// Filters are asked of a new span and of an event alone. The hooks of all else are lent no
    /// refusals: there it is true for an unattached id alone.
    pub fn refuses(&self, filter: FilterId) -> bool
        ensures refused { result ≡ not (is_enabled (refused_lent self.now) filter) }
        ensures unrefused { HasNoRefusals self.now → result ≡ not (is_attached filter) }
    {
        // Where nothing is refused, a loop over layers then compares no sets.
        if self.refused.word() == 0 {
            return filter.is_unattached();
        }
        !self.refused.is_enabled(filter)
    }
}

impl<'a, S: LookupSpan> ContextMut<'a, S> {
    /// The span, if it is in the store and isn't hidden.
    pub fn span(&self, id: Id) -> Option<SpanRef<'_, S>>
        ensures { RefersToLent S.registry self.now (shown (number_of id)) result }
    {
        self.ctx().span(id)
    }

    /// The span that the lane is in, as far as the mask lets it be seen. None where the newest
    /// entry of the lane's stack that is no duplicate isn't in the store; else the newest one that
    /// isn't hidden.
    pub fn lookup_current(&self) -> Option<SpanRef<'_, S>>
        ensures { RefersToLent S.registry self.now current_shown result }
    {
        self.ctx().lookup_current()
    }

    /// The span's metadata, if it is in the store and isn't hidden.
    pub fn metadata(&self, id: Id) -> Option<Metadata>
        ensures { result ≡ metadata_shown (number_of id) (view_lent S.registry self.now) }
    {
        self.ctx().metadata(id)
    }

    /// The extensions of a span that is in the store and isn't hidden, to be read and changed.
    pub fn extensions_mut(&mut self, id: Id) -> Option<ExtensionsMut<'_>>
        ensures* writes_back { sem 𝓛
            (lends_seen S.row S.registry S.with_registry self.entry id result) }
        ensures value { option_copied_mut result ≡ extensions_lent S.registry self.old id }
        ensures there { is_some result ≡ is_shown_to S.registry self.old id }
    {
        if !self.shows(id) {
            return None;
        }
        let root = self.subscriber.root_mut();
        root.extensions_mut(id)
    }

    /// Whether what stands under the filter of this id is notified of a notice: of a new span and
    /// of an event unless the filter refused, of all else where the notice's spans are enabled for
    /// the filter.
    #[inline(always)]
    pub fn admits(&self, notice: Notice<'_, '_>, filter: FilterId) -> bool
        ensures { result ≡ is_admitted S.registry filter (notice_of notice.entry) self.now }
    {
        match notice {
            Notice::NewSpan(_, _) | Notice::Event(_) => !self.refuses(filter),
            Notice::FollowsFrom(span, other) => {
                self.is_enabled_for(span, filter) && self.is_enabled_for(other, filter)
            }
            Notice::Record(span, _) | Notice::IdChange(span, _) => {
                self.is_enabled_for(span, filter)
            }
            Notice::Enter(span) | Notice::Exit(span) | Notice::Close(span) => {
                self.is_enabled_for(span, filter)
            }
        }
    }

    /// Takes the registry that the subscriber stands on out of it, and leaves an empty one in its
    /// place.
    ///
    /// `over` lends it from the same lane and under the same mask, and then `put_root` puts it
    /// back: the three stand for a `to_root`.
    pub fn take_root(&mut self) -> Registry
        ensures root { result ≡ S.registry (subscriber_lent self.old) }
        ensures rest { Exchanges S.with_registry (new_registry Limits.MAX) self.old self.new }
    {
        let root = self.subscriber.root_mut();
        let empty = root.emptied();
        mem::replace(root, empty)
    }

    /// Puts a registry in the place of the one that is there.
    pub fn put_root(&mut self, root: Registry)
        ensures { Exchanges S.with_registry root self.old self.new }
    {
        let place = self.subscriber.root_mut();
        *place = root;
    }

    /// Whether the span is in the store, and isn't hidden.
    fn shows(&self, id: Id) -> bool
        ensures { result ≡ is_shown_to S.registry self.now id }
    {
        match self.subscriber.span_data(id) {
            Some(found) => !self.mask.hides(&found),
            None => false,
        }
    }

    /// Whether the id is attached, the span is in the store and isn't hidden, and none of the id's
    /// filters refused it.
    pub fn is_enabled_for(&self, id: Id, filter: FilterId) -> bool
        ensures { result ≡ enabled_lent S.registry self.now filter id }
    {
        self.ctx().is_enabled_for(id, filter)
    }
}

impl<'a, S: Subscriber> ContextMut<'a, S> {
    /// Gives the subscriber an event, with an empty pass: its filters are not asked.
    pub fn event(&mut self, event: &Event<'_>)
        requires { S.usable (subscriber_lent self.old) }
        ensures usable { S.usable (subscriber_lent self.new) }
        ensures sent { SendsEvent S.registry S.has_form S.stepped event.now self.old self.new }
    {
        self.subscriber.event(self.lane, event, &Pass::new());
    }
}
