//! The calls, by their names.

use crate::site::request_named;
use span_dispatch::Request;

/// A call, and what it is made of.
#[derive(Clone, Copy)]
pub enum Call {
    /// A call of a lane's stack.
    Stack(StackCall),
    /// A call of a registry.
    Registry(RegistryCall),
    /// `clone` of a filter.
    Clone(FilterKind),
    /// A layer is put on a registry.
    Attach(Attachment),
    /// A call of a dispatcher in this state.
    Dispatcher(State, Request<'static>),
    /// `Dispatch::serve`, of a list of requests that take no memory.
    Serve,
    /// `Dispatch::serve_into`, of the preparation, where memory for all of it was reserved.
    ServeReserved,
    /// `Dispatch::reserve_callsites`, of more than there is memory for.
    ReserveCallsites,
    /// `Dispatch::event`, where the recorder has no room for one notice more.
    Record,
    /// A call of a dispatcher of which a layer vetoes everything, and keeps the callsite.
    Veto(Request<'static>),
    /// `Shared::new`.
    Share,
    /// A call of a dispatcher that workers share.
    Shared(Request<'static>),
}

/// What was served before a call.
#[derive(Clone, Copy)]
pub enum State {
    /// The preparation, by a dispatcher that keeps hint and interests.
    Kept,
    /// The preparation, by one that keeps nothing.
    Uncached,
    /// Nothing, by one that is to keep hint and interests.
    Begun,
}

/// A call of a lane's stack.
#[derive(Clone, Copy)]
pub enum StackCall {
    /// `push` of a span that isn't on it.
    Push,
    /// `push` of a span that is on it.
    PushAgain,
    /// `pop`.
    Pop,
}

/// A call of a registry, of its spans' extensions, or of their scopes.
#[derive(Clone, Copy)]
pub enum RegistryCall {
    /// `new_span` in the last span.
    NewSpan,
    /// `new_span` in a span that has no room for a child.
    NewSpanOfFullParent,
    /// `new_span` where no place is left.
    NewSpanWithoutPlace,
    /// `enter` on a lane that has entered nothing.
    Enter,
    /// `enter` where no lane has entered anything.
    EnterFirst,
    /// `enter` where 15 lanes have, and this one hasn't.
    EnterOneLaneMore,
    /// `new_span` in the last span, where a place was reserved.
    NewSpanReserved,
    /// `enter` by a lane that has entered nothing, where an entry was reserved.
    EnterReserved,
    /// `enter` of a span that was never opened.
    EnterUnknown,
    /// `exit`.
    Exit,
    /// `clone_span`.
    CloneSpan,
    /// `release` of a span that stays open.
    Release,
    /// `release` and `remove` of each span of a chain.
    CloseChain,
    /// `register_filter`.
    RegisterFilter,
    /// `ExtensionMap::insert` of a span's first value.
    Insert,
    /// `ExtensionMap::insert` of a sixteenth value.
    InsertOneMore,
    /// `ExtensionMap::insert` where there is a value.
    InsertTaken,
    /// `ExtensionMap::replace` where there is none.
    Replace,
    /// `ExtensionMap::replace` where there is one.
    ReplaceKept,
    /// `ExtensionMap::remove`.
    RemoveValue,
    /// `ExtensionMap::get_mut`.
    ChangeValue,
    /// `Scope::from_root`, of so many spans.
    FromRoot(u64),
    /// All look-ups, by registry and context.
    LookUp,
}

/// A filter that is cloned.
#[derive(Clone, Copy)]
pub enum FilterKind {
    /// `FilterFn`.
    Function,
    /// `DynFilterFn`.
    InContext,
    /// `And`.
    And,
    /// `Or`.
    Or,
    /// `Not`.
    Not,
}

/// How a layer is put on a registry.
#[derive(Clone, Copy)]
pub enum Attachment {
    /// `SubscriberExt::with`.
    With,
    /// `Layer::with_subscriber`.
    WithSubscriber,
}

impl Call {
    /// The call that a line names: of what, and which, with a space between.
    pub(crate) fn of(line: &str) -> Option<Call> {
        let (subject, name) = line.split_once(' ')?;
        match (subject, name) {
            ("dispatcher", "serve") => Some(Call::Serve),
            ("dispatcher", "serve_reserved") => Some(Call::ServeReserved),
            ("dispatcher", "reserve_callsites") => Some(Call::ReserveCallsites),
            ("recorder", "event") => Some(Call::Record),
            ("shared", "new") => Some(Call::Share),
            ("stack", _) => Some(Call::Stack(StackCall::of(name)?)),
            ("registry", _) => Some(Call::Registry(RegistryCall::of(name)?)),
            ("filter", _) => Some(Call::Clone(FilterKind::of(name)?)),
            ("layer", _) => Some(Call::Attach(Attachment::of(name)?)),
            ("veto", _) => Some(Call::Veto(request_named(name)?)),
            ("shared", _) => Some(Call::Shared(request_named(name)?)),
            _ => Some(Call::Dispatcher(State::of(subject)?, request_named(name)?)),
        }
    }
}

impl State {
    /// The state of a dispatcher by this name.
    fn of(subject: &str) -> Option<State> {
        match subject {
            "dispatcher" => Some(State::Kept),
            "uncached" => Some(State::Uncached),
            "begun" => Some(State::Begun),
            _ => None,
        }
    }
}

impl StackCall {
    /// The call with this name.
    fn of(name: &str) -> Option<StackCall> {
        match name {
            "push" => Some(StackCall::Push),
            "push_again" => Some(StackCall::PushAgain),
            "pop" => Some(StackCall::Pop),
            _ => None,
        }
    }
}

impl RegistryCall {
    /// The call with this name.
    fn of(name: &str) -> Option<RegistryCall> {
        match name {
            "new_span" => Some(RegistryCall::NewSpan),
            "new_span_of_full_parent" => Some(RegistryCall::NewSpanOfFullParent),
            "new_span_without_place" => Some(RegistryCall::NewSpanWithoutPlace),
            "enter" => Some(RegistryCall::Enter),
            "enter_first" => Some(RegistryCall::EnterFirst),
            "enter_one_lane_more" => Some(RegistryCall::EnterOneLaneMore),
            "new_span_reserved" => Some(RegistryCall::NewSpanReserved),
            "enter_reserved" => Some(RegistryCall::EnterReserved),
            "enter_unknown" => Some(RegistryCall::EnterUnknown),
            "exit" => Some(RegistryCall::Exit),
            "clone_span" => Some(RegistryCall::CloneSpan),
            "release" => Some(RegistryCall::Release),
            "close_chain" => Some(RegistryCall::CloseChain),
            "register_filter" => Some(RegistryCall::RegisterFilter),
            "look_up" => Some(RegistryCall::LookUp),
            "from_root_of_16" => Some(RegistryCall::FromRoot(16)),
            "from_root_of_17" => Some(RegistryCall::FromRoot(17)),
            _ => RegistryCall::of_values(name),
        }
    }

    /// The call of a span's extensions with this name.
    fn of_values(name: &str) -> Option<RegistryCall> {
        match name {
            "insert" => Some(RegistryCall::Insert),
            "insert_one_more" => Some(RegistryCall::InsertOneMore),
            "insert_taken" => Some(RegistryCall::InsertTaken),
            "replace" => Some(RegistryCall::Replace),
            "replace_kept" => Some(RegistryCall::ReplaceKept),
            "remove_value" => Some(RegistryCall::RemoveValue),
            "change_value" => Some(RegistryCall::ChangeValue),
            _ => None,
        }
    }
}

impl FilterKind {
    /// The filter with this name.
    fn of(name: &str) -> Option<FilterKind> {
        match name {
            "filter_fn" => Some(FilterKind::Function),
            "dynamic_filter_fn" => Some(FilterKind::InContext),
            "and" => Some(FilterKind::And),
            "or" => Some(FilterKind::Or),
            "not" => Some(FilterKind::Not),
            _ => None,
        }
    }
}

impl Attachment {
    /// The call with this name.
    fn of(name: &str) -> Option<Attachment> {
        match name {
            "with" => Some(Attachment::With),
            "with_subscriber" => Some(Attachment::WithSubscriber),
            _ => None,
        }
    }
}
