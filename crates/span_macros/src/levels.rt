//! Events and spans as people write them, of a tracer or of a dispatcher.
//!
//! A macro takes, before a `;`, what it asks: a tracer, or a `&mut Dispatch<S>` and a lane. Behind
//! it stands what it names before a `,`: `target: ..` in place of the caller's module, `parent: ..`
//! in place of the span that the lane is in. An event's fields stand before its text, a span's
//! behind its name: `name = value`, `name = %value` by `Display`, `name = ?value` by `Debug`, and
//! `name`, `%name`, `?name` of a variable. Values are computed only where the callsite is wanted.
//!
//! Over a dispatcher an event is `Dispatch::event`, and a span `Dispatch::new_span`, with the same
//! answers. Where there are fields, `Dispatch::enabled` is asked first: where that is false the
//! answer is that of an event or a span which is ruled out, and where it is refused so is this. A
//! text would live in a closure, where no premise of a dispatcher is at hand: there a macro takes
//! no `%`, no `?` and no arguments of a text, and at most eight fields. Nor may the lane, a target,
//! a parent or a value use the dispatcher: take the span that a lane is in before.

/// An event of level error: `error!(tracer; code = 7, "failed")`.
///
/// Stands for `tracing::error`, whose text may stand behind a `;` here, as in the kit's `log`.
#[macro_export]
macro_rules! error {
    ($tracer:expr; $($rest:tt)+) => {
        $crate::event_parts!(
            ($tracer), ERROR, module_path!(), $crate::Parent::Contextual, []; $($rest)+
        )
    };
    ($dispatch:expr, $lane:expr; $($rest:tt)+) => {
        $crate::event_parts!(
            ($dispatch, $lane), ERROR, module_path!(), $crate::Parent::Contextual, []; $($rest)+
        )
    };
}

/// An event of level warn.
///
/// Stands for `tracing::warn`.
#[macro_export]
macro_rules! warn {
    ($tracer:expr; $($rest:tt)+) => {
        $crate::event_parts!(
            ($tracer), WARN, module_path!(), $crate::Parent::Contextual, []; $($rest)+
        )
    };
    ($dispatch:expr, $lane:expr; $($rest:tt)+) => {
        $crate::event_parts!(
            ($dispatch, $lane), WARN, module_path!(), $crate::Parent::Contextual, []; $($rest)+
        )
    };
}

/// An event of level info.
///
/// Stands for `tracing::info`.
#[macro_export]
macro_rules! info {
    ($tracer:expr; $($rest:tt)+) => {
        $crate::event_parts!(
            ($tracer), INFO, module_path!(), $crate::Parent::Contextual, []; $($rest)+
        )
    };
    ($dispatch:expr, $lane:expr; $($rest:tt)+) => {
        $crate::event_parts!(
            ($dispatch, $lane), INFO, module_path!(), $crate::Parent::Contextual, []; $($rest)+
        )
    };
}

/// An event of level debug.
///
/// Stands for `tracing::debug`.
#[macro_export]
macro_rules! debug {
    ($tracer:expr; $($rest:tt)+) => {
        $crate::event_parts!(
            ($tracer), DEBUG, module_path!(), $crate::Parent::Contextual, []; $($rest)+
        )
    };
    ($dispatch:expr, $lane:expr; $($rest:tt)+) => {
        $crate::event_parts!(
            ($dispatch, $lane), DEBUG, module_path!(), $crate::Parent::Contextual, []; $($rest)+
        )
    };
}

/// An event of level trace.
///
/// Stands for `tracing::trace`.
#[macro_export]
macro_rules! trace {
    ($tracer:expr; $($rest:tt)+) => {
        $crate::event_parts!(
            ($tracer), TRACE, module_path!(), $crate::Parent::Contextual, []; $($rest)+
        )
    };
    ($dispatch:expr, $lane:expr; $($rest:tt)+) => {
        $crate::event_parts!(
            ($dispatch, $lane), TRACE, module_path!(), $crate::Parent::Contextual, []; $($rest)+
        )
    };
}

/// A new span of level error, by its handle: `error_span!(tracer; "job", id = 7)`. Over a
/// dispatcher, by its id.
///
/// Stands for `tracing::error_span`.
#[macro_export]
macro_rules! error_span {
    ($tracer:expr; $($rest:tt)+) => {
        $crate::span_parts!(
            ($tracer), ERROR, module_path!(), $crate::Parent::Contextual; $($rest)+
        )
    };
    ($dispatch:expr, $lane:expr; $($rest:tt)+) => {
        $crate::span_parts!(
            ($dispatch, $lane), ERROR, module_path!(), $crate::Parent::Contextual; $($rest)+
        )
    };
}

/// A new span of level warn.
///
/// Stands for `tracing::warn_span`.
#[macro_export]
macro_rules! warn_span {
    ($tracer:expr; $($rest:tt)+) => {
        $crate::span_parts!(
            ($tracer), WARN, module_path!(), $crate::Parent::Contextual; $($rest)+
        )
    };
    ($dispatch:expr, $lane:expr; $($rest:tt)+) => {
        $crate::span_parts!(
            ($dispatch, $lane), WARN, module_path!(), $crate::Parent::Contextual; $($rest)+
        )
    };
}

/// A new span of level info.
///
/// Stands for `tracing::info_span`.
#[macro_export]
macro_rules! info_span {
    ($tracer:expr; $($rest:tt)+) => {
        $crate::span_parts!(
            ($tracer), INFO, module_path!(), $crate::Parent::Contextual; $($rest)+
        )
    };
    ($dispatch:expr, $lane:expr; $($rest:tt)+) => {
        $crate::span_parts!(
            ($dispatch, $lane), INFO, module_path!(), $crate::Parent::Contextual; $($rest)+
        )
    };
}

/// A new span of level debug.
///
/// Stands for `tracing::debug_span`.
#[macro_export]
macro_rules! debug_span {
    ($tracer:expr; $($rest:tt)+) => {
        $crate::span_parts!(
            ($tracer), DEBUG, module_path!(), $crate::Parent::Contextual; $($rest)+
        )
    };
    ($dispatch:expr, $lane:expr; $($rest:tt)+) => {
        $crate::span_parts!(
            ($dispatch, $lane), DEBUG, module_path!(), $crate::Parent::Contextual; $($rest)+
        )
    };
}

/// A new span of level trace.
///
/// Stands for `tracing::trace_span`.
#[macro_export]
macro_rules! trace_span {
    ($tracer:expr; $($rest:tt)+) => {
        $crate::span_parts!(
            ($tracer), TRACE, module_path!(), $crate::Parent::Contextual; $($rest)+
        )
    };
    ($dispatch:expr, $lane:expr; $($rest:tt)+) => {
        $crate::span_parts!(
            ($dispatch, $lane), TRACE, module_path!(), $crate::Parent::Contextual; $($rest)+
        )
    };
}
