//! The macros take a dispatcher and a lane, behind a `;` a level and a name, and behind another the
//! fields.
//!
//! The dispatcher is a `&mut Dispatch<S>`, and stands in each call that a macro writes. Those are
//! proved in the function that calls the macro, by the contracts of `Dispatch` and of this crate.

/// The metadata of the callsite, with the caller's module as its target.
#[macro_export]
macro_rules! metadata {
    ($kind:ident, $level:ident, $name:literal $(, $key:ident)*) => {
        $crate::numbered_metadata(
            $crate::Kind::$kind,
            $crate::Level::$level,
            $name,
            module_path!(),
            $crate::FieldSet::new(&[$(stringify!($key)),*]),
        )
    };
}

/// Sends an event in the span that the lane is in: `event!(dispatch, lane; WARN, "read"; bytes =
/// count, ok = true)?`.
///
/// It is `Dispatch::event`, with the same answer: whether the event was made, or why it is refused.
#[macro_export]
macro_rules! event {
    (
        $dispatch:expr, $lane:expr; $level:ident, $name:literal
        $(; $($key:ident = $value:expr),+ $(,)?)?
    ) => {{
        let values = [$($((stringify!($key), $crate::IntoField::into_field($value))),+)?];
        let metadata = $crate::metadata!(EVENT, $level, $name $($(, $key)+)?);
        let event = $crate::Event::new(metadata, &values);
        $dispatch.event($lane, &event)
    }};
}

/// Opens a span in the one that the lane is in: `new_span!(dispatch, lane; INFO, "fetch"; count =
/// count)?`.
///
/// It is `Dispatch::new_span`, with the same answer: the span's id, none where it is ruled out or
/// vetoed, or why it is refused.
#[macro_export]
macro_rules! new_span {
    (
        $dispatch:expr, $lane:expr; $level:ident, $name:literal
        $(; $($key:ident = $value:expr),+ $(,)?)?
    ) => {{
        let values = [$($((stringify!($key), $crate::IntoField::into_field($value))),+)?];
        let metadata = $crate::metadata!(SPAN, $level, $name $($(, $key)+)?);
        let attrs = $crate::Attributes::new(metadata, &values);
        $dispatch.new_span($lane, &attrs)
    }};
}

/// Does something in a new span: `in_span!(dispatch, lane; INFO, "fetch"; count = count => { .. })`
/// gives what the block gives.
///
/// It is `open_and_enter`, the block, and `exit_and_drop`. Where no span is made, the block runs
/// without one. Where `open_and_enter` or `exit_and_drop` is refused, the macro returns that from
/// the function round it, as `?` does.
///
/// The dispatcher's expression is evaluated twice, before the block and after it. What leaves the
/// block before its end, as `?`, `return` and `break` do, leaves the span open, and its lane in it.
#[macro_export]
macro_rules! in_span {
    (
        $dispatch:expr, $lane:expr; $level:ident, $name:literal
        $(; $($key:ident = $value:expr),+ $(,)?)? => $body:block
    ) => {{
        let lane = $lane;
        let values = [$($((stringify!($key), $crate::IntoField::into_field($value))),+)?];
        let metadata = $crate::metadata!(SPAN, $level, $name $($(, $key)+)?);
        let attrs = $crate::Attributes::new(metadata, &values);
        let made = $crate::open_and_enter(&mut *$dispatch, lane, &attrs)?;
        let given = $body;
        $crate::exit_and_drop(&mut *$dispatch, lane, made)?;
        given
    }};
}
