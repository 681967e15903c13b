//! What the macros of each level come to.
//!
//! Each takes what is asked in parentheses: a tracer, or a dispatcher and a lane.

// What stands before an event's text, one after another: `(name = value)`, `(name % value)` by
// `Display`, `(name ? value)` by `Debug`.
#[macro_export]
macro_rules! event_parts {
    ($t:tt, $l:ident, $g:expr, $p:expr, []; target: $new:expr, $($rest:tt)+) => {
        $crate::event_parts!($t, $l, $new, $p, []; $($rest)+)
    };
    ($t:tt, $l:ident, $g:expr, $p:expr, []; parent: $new:expr, $($rest:tt)+) => {
        $crate::event_parts!($t, $l, $g, $new, []; $($rest)+)
    };
    ($t:tt, $l:ident, $g:expr, $p:expr, [$($f:tt)*]; $text:literal $(,)?) => {
        $crate::traced!(event, EVENT, $t, $l, $g, $p, $text, [$($f)*])
    };
    ($t:tt, $l:ident, $g:expr, $p:expr, [$($f:tt)*]; $text:literal, $($a:tt)+) => {
        $crate::traced!(
            event, EVENT, $t, $l, $g, $p, $text, [(message % format_args!($text, $($a)+)) $($f)*]
        )
    };
    ($t:tt, $l:ident, $g:expr, $p:expr, [$($f:tt)*]; $key:ident = %$v:expr, $($rest:tt)+) => {
        $crate::event_parts!($t, $l, $g, $p, [$($f)* ($key % $v)]; $($rest)+)
    };
    ($t:tt, $l:ident, $g:expr, $p:expr, [$($f:tt)*]; $key:ident = %$v:expr; $($rest:tt)+) => {
        $crate::event_parts!($t, $l, $g, $p, [$($f)* ($key % $v)]; $($rest)+)
    };
    ($t:tt, $l:ident, $g:expr, $p:expr, [$($f:tt)*]; $key:ident = ?$v:expr, $($rest:tt)+) => {
        $crate::event_parts!($t, $l, $g, $p, [$($f)* ($key ? $v)]; $($rest)+)
    };
    ($t:tt, $l:ident, $g:expr, $p:expr, [$($f:tt)*]; $key:ident = ?$v:expr; $($rest:tt)+) => {
        $crate::event_parts!($t, $l, $g, $p, [$($f)* ($key ? $v)]; $($rest)+)
    };
    ($t:tt, $l:ident, $g:expr, $p:expr, [$($f:tt)*]; $key:ident = $v:expr, $($rest:tt)+) => {
        $crate::event_parts!($t, $l, $g, $p, [$($f)* ($key = $v)]; $($rest)+)
    };
    ($t:tt, $l:ident, $g:expr, $p:expr, [$($f:tt)*]; $key:ident = $v:expr; $($rest:tt)+) => {
        $crate::event_parts!($t, $l, $g, $p, [$($f)* ($key = $v)]; $($rest)+)
    };
    ($t:tt, $l:ident, $g:expr, $p:expr, [$($f:tt)*]; %$key:ident, $($rest:tt)+) => {
        $crate::event_parts!($t, $l, $g, $p, [$($f)* ($key % $key)]; $($rest)+)
    };
    ($t:tt, $l:ident, $g:expr, $p:expr, [$($f:tt)*]; %$key:ident; $($rest:tt)+) => {
        $crate::event_parts!($t, $l, $g, $p, [$($f)* ($key % $key)]; $($rest)+)
    };
    ($t:tt, $l:ident, $g:expr, $p:expr, [$($f:tt)*]; ?$key:ident, $($rest:tt)+) => {
        $crate::event_parts!($t, $l, $g, $p, [$($f)* ($key ? $key)]; $($rest)+)
    };
    ($t:tt, $l:ident, $g:expr, $p:expr, [$($f:tt)*]; ?$key:ident; $($rest:tt)+) => {
        $crate::event_parts!($t, $l, $g, $p, [$($f)* ($key ? $key)]; $($rest)+)
    };
    ($t:tt, $l:ident, $g:expr, $p:expr, [$($f:tt)*]; $key:ident, $($rest:tt)+) => {
        $crate::event_parts!($t, $l, $g, $p, [$($f)* ($key = $key)]; $($rest)+)
    };
    ($t:tt, $l:ident, $g:expr, $p:expr, [$($f:tt)*]; $key:ident; $($rest:tt)+) => {
        $crate::event_parts!($t, $l, $g, $p, [$($f)* ($key = $key)]; $($rest)+)
    };
}

// What stands before a span's name, and behind it.
#[macro_export]
macro_rules! span_parts {
    ($t:tt, $l:ident, $g:expr, $p:expr; target: $new:expr, $($rest:tt)+) => {
        $crate::span_parts!($t, $l, $new, $p; $($rest)+)
    };
    ($t:tt, $l:ident, $g:expr, $p:expr; parent: $new:expr, $($rest:tt)+) => {
        $crate::span_parts!($t, $l, $g, $new; $($rest)+)
    };
    ($t:tt, $l:ident, $g:expr, $p:expr; $name:literal $(, $($rest:tt)*)?) => {
        $crate::span_fields!($t, $l, $g, $p, $name, []; $($($rest)*)?)
    };
}

#[macro_export]
macro_rules! span_fields {
    ($t:tt, $l:ident, $g:expr, $p:expr, $n:expr, [$($f:tt)*];) => {
        $crate::traced!(span, SPAN, $t, $l, $g, $p, $n, [$($f)*])
    };
    ($t:tt, $l:ident, $g:expr, $p:expr, $n:expr, [$($f:tt)*]; $k:ident = %$v:expr
        $(, $($r:tt)*)?) => {
        $crate::span_fields!($t, $l, $g, $p, $n, [$($f)* ($k % $v)]; $($($r)*)?)
    };
    ($t:tt, $l:ident, $g:expr, $p:expr, $n:expr, [$($f:tt)*]; $k:ident = ?$v:expr
        $(, $($r:tt)*)?) => {
        $crate::span_fields!($t, $l, $g, $p, $n, [$($f)* ($k ? $v)]; $($($r)*)?)
    };
    ($t:tt, $l:ident, $g:expr, $p:expr, $n:expr, [$($f:tt)*]; $k:ident = $v:expr
        $(, $($r:tt)*)?) => {
        $crate::span_fields!($t, $l, $g, $p, $n, [$($f)* ($k = $v)]; $($($r)*)?)
    };
    ($t:tt, $l:ident, $g:expr, $p:expr, $n:expr, [$($f:tt)*]; %$k:ident $(, $($r:tt)*)?) => {
        $crate::span_fields!($t, $l, $g, $p, $n, [$($f)* ($k % $k)]; $($($r)*)?)
    };
    ($t:tt, $l:ident, $g:expr, $p:expr, $n:expr, [$($f:tt)*]; ?$k:ident $(, $($r:tt)*)?) => {
        $crate::span_fields!($t, $l, $g, $p, $n, [$($f)* ($k ? $k)]; $($($r)*)?)
    };
    ($t:tt, $l:ident, $g:expr, $p:expr, $n:expr, [$($f:tt)*]; $k:ident $(, $($r:tt)*)?) => {
        $crate::span_fields!($t, $l, $g, $p, $n, [$($f)* ($k = $k)]; $($($r)*)?)
    };
}

// The request itself: values are computed where the callsite is wanted.
#[macro_export]
macro_rules! traced {
    ($call:ident, $kind:ident, ($t:expr), $l:ident, $g:expr, $p:expr, $n:expr, []) => {{
        let tracer = &$t;
        let metadata = $crate::site!($kind, $l, $n, $g, []);
        $crate::asked!($call, (tracer), metadata, $crate::IntoParent::into_parent($p), [])
    }};
    ($call:ident, $kind:ident, ($t:expr), $l:ident, $g:expr, $p:expr, $n:expr,
        [$(($key:ident $mark:tt $value:expr))+]) => {{
        let tracer = &$t;
        if tracer.passes_hint($crate::Level::$l) {
            let metadata = $crate::site!($kind, $l, $n, $g, [$($key)+]);
            match tracer.wants(&metadata) {
                Ok(true) => match $crate::IntoParent::into_parent($p) {
                    parent => $crate::computed!(
                        $call, (tracer), metadata, parent, []; $(($key $mark $value))+
                    ),
                },
                Ok(false) => $crate::unwanted!($call, (tracer)),
                Err(error) => Err(error),
            }
        } else {
            $crate::unwanted!($call, (tracer))
        }
    }};
    ($call:ident, $kind:ident, ($d:expr, $lane:expr), $l:ident, $g:expr, $p:expr, $n:expr, []) => {{
        let dispatch = &mut *$d;
        let lane = $lane;
        let metadata = $crate::site!($kind, $l, $n, $g, []);
        let parent = $crate::IntoParent::into_parent($p);
        $crate::asked!($call, (dispatch, lane), metadata, parent, [])
    }};
    ($call:ident, $kind:ident, ($d:expr, $lane:expr), $l:ident, $g:expr, $p:expr, $n:expr,
        [$(($key:ident $mark:tt $value:expr))+]) => {{
        let dispatch = &mut *$d;
        let lane = $lane;
        let metadata = $crate::site!($kind, $l, $n, $g, [$($key)+]);
        match dispatch.enabled(lane, &metadata) {
            Ok(true) => match $crate::IntoParent::into_parent($p) {
                parent => $crate::computed!(
                    $call, (dispatch, lane), metadata, parent, []; $(($key $mark $value))+
                ),
            },
            Ok(false) => $crate::unwanted!($call, (dispatch, lane)),
            Err(error) => Err(error),
        }
    }};
}

// The metadata of the callsite.
#[macro_export]
macro_rules! site {
    ($kind:ident, $l:ident, $n:expr, $g:expr, [$($key:ident)*]) => {
        $crate::numbered_metadata(
            $crate::Kind::$kind,
            $crate::Level::$l,
            $n,
            $g,
            $crate::FieldSet::new(&[$(stringify!($key)),*]),
        )
    };
}

// Each value is computed once, in order, before the first is shown.
#[macro_export]
macro_rules! computed {
    ($call:ident, $t:tt, $m:ident, $p:ident, [$($bound:tt)*];) => {
        $crate::shown!($call, $t, $m, $p, []; $($bound)*)
    };
    ($call:ident, $t:tt, $m:ident, $p:ident, [$($bound:tt)*];
        ($key:ident $mark:tt $value:expr) $($rest:tt)*) => {
        match &$value {
            value => $crate::computed!(
                $call, $t, $m, $p, [$($bound)* ($key $mark value)]; $($rest)*
            ),
        }
    };
}

// The values of the fields. A tracer's stand in closures, where texts live; a dispatcher's in its
// caller, so that the call is proved there.
#[macro_export]
macro_rules! shown {
    ($call:ident, $t:tt, $m:ident, $p:ident, [$(($key:ident $field:ident))*];) => {
        $crate::asked!($call, $t, $m, $p, [$((stringify!($key), $field)),*])
    };
    ($call:ident, ($t:ident), $m:ident, $p:ident, [$($done:tt)*];
        ($key:ident = $value:ident) $($rest:tt)*) => {
        $crate::with_value($value, |field| {
            $crate::shown!($call, ($t), $m, $p, [$($done)* ($key field)]; $($rest)*)
        })
    };
    ($call:ident, ($t:ident), $m:ident, $p:ident, [$($done:tt)*];
        ($key:ident % $value:ident) $($rest:tt)*) => {
        $crate::with_display($t.alloc(), $value, |field| {
            $crate::shown!($call, ($t), $m, $p, [$($done)* ($key field)]; $($rest)*)
        })
    };
    ($call:ident, ($t:ident), $m:ident, $p:ident, [$($done:tt)*];
        ($key:ident ? $value:ident) $($rest:tt)*) => {
        $crate::with_debug($t.alloc(), $value, |field| {
            $crate::shown!($call, ($t), $m, $p, [$($done)* ($key field)]; $($rest)*)
        })
    };
    ($call:ident, ($d:ident, $lane:ident), $m:ident, $p:ident, [$($done:tt)*];
        ($key:ident = $value:ident) $($rest:tt)*) => {{
        let mut room = $crate::FloatText::new();
        let field = $crate::Value::field($value, &mut room);
        $crate::shown!($call, ($d, $lane), $m, $p, [$($done)* ($key field)]; $($rest)*)
    }};
}

#[macro_export]
macro_rules! asked {
    (event, ($t:ident), $m:ident, $p:expr, [$($field:tt)*]) => {
        $t.event_as_wanted(&$crate::event_in($p, $m, &[$($field)*]))
    };
    (span, ($t:ident), $m:ident, $p:expr, [$($field:tt)*]) => {
        $t.span_as_wanted(&$crate::span_in($p, $m, &[$($field)*]))
    };
    (event, ($d:ident, $lane:ident), $m:ident, $p:expr, [$($field:tt)*]) => {
        $d.event($lane, &$crate::event_in($p, $m, &$crate::together!($($field)*)))
    };
    (span, ($d:ident, $lane:ident), $m:ident, $p:expr, [$($field:tt)*]) => {
        $d.new_span($lane, &$crate::span_in($p, $m, &$crate::together!($($field)*)))
    };
}

// The fields of a dispatcher's request, as one array.
#[macro_export]
macro_rules! together {
    () => { [] };
    ($a:expr) => {
        $crate::one_field($a)
    };
    ($a:expr, $b:expr) => {
        $crate::two_fields($a, $b)
    };
    ($a:expr, $b:expr, $c:expr) => {
        $crate::three_fields($a, $b, $c)
    };
    ($a:expr, $b:expr, $c:expr, $d:expr) => {
        $crate::four_fields($a, $b, $c, $d)
    };
    ($a:expr, $b:expr, $c:expr, $d:expr, $e:expr) => {
        $crate::five_fields($a, $b, $c, $d, $e)
    };
    ($a:expr, $b:expr, $c:expr, $d:expr, $e:expr, $f:expr) => {
        $crate::six_fields($a, $b, $c, $d, $e, $f)
    };
    ($a:expr, $b:expr, $c:expr, $d:expr, $e:expr, $f:expr, $g:expr) => {
        $crate::seven_fields($a, $b, $c, $d, $e, $f, $g)
    };
    ($a:expr, $b:expr, $c:expr, $d:expr, $e:expr, $f:expr, $g:expr, $h:expr) => {
        $crate::eight_fields($a, $b, $c, $d, $e, $f, $g, $h)
    };
}

#[macro_export]
macro_rules! unwanted {
    (event, $t:tt) => {
        Ok(false)
    };
    (span, ($t:ident)) => {
        Ok($t.no_span())
    };
    (span, ($d:ident, $lane:ident)) => {
        Ok(None)
    };
}
