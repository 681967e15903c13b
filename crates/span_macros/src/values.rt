//! What macros make of the values that they are given.
ghost use Rattle.std.specs.Prelude.{◌≡◌, string_bytes};
ghost use Rattle.span_core.specs.declared.field.FieldValue.{FieldValue};
ghost use Rattle.span_core.specs.declared.field.FieldValue.TheVariants as value;
ghost use Rattle.span_macros.specs.Field.{GivesOne, IsFloat, IsOptional, IsText, ShowsText};

use span_core::{FieldValue, Float, FloatText};
use std::alloc::Global;
use std::fmt::{Debug, Display};

/// What a macro takes as the value of a field: numbers, truth values and texts, or none of them.
///
/// Stands for a part of `tracing_core::field::Value`: no `f32`, and of references only `&str`.
pub trait Value {
    /// Whether this is the value that it becomes.
    ghost becomes: { Self → FieldValue → Type 0 };

    /// The value as that of a field; a float's text goes into the room.
    fn field<'b>(&'b self, room: &'b mut FloatText) -> FieldValue<'b>
        ensures { becomes self.now result };
}

impl Value for u8 {
    ghost becomes = { λ given v. v ≡ value.U64 given };

    fn field<'b>(&'b self, _room: &'b mut FloatText) -> FieldValue<'b> {
        FieldValue::U64(u64::from(*self))
    }
}

impl Value for u16 {
    ghost becomes = { λ given v. v ≡ value.U64 given };

    fn field<'b>(&'b self, _room: &'b mut FloatText) -> FieldValue<'b> {
        FieldValue::U64(u64::from(*self))
    }
}

impl Value for u32 {
    ghost becomes = { λ given v. v ≡ value.U64 given };

    fn field<'b>(&'b self, _room: &'b mut FloatText) -> FieldValue<'b> {
        FieldValue::U64(u64::from(*self))
    }
}

impl Value for u64 {
    ghost becomes = { λ given v. v ≡ value.U64 given };

    fn field<'b>(&'b self, _room: &'b mut FloatText) -> FieldValue<'b> {
        FieldValue::U64(*self)
    }
}

impl Value for usize {
    ghost becomes = { λ given v. v ≡ value.U64 given };

    fn field<'b>(&'b self, _room: &'b mut FloatText) -> FieldValue<'b> {
        FieldValue::U64(*self as u64)
    }
}

impl Value for i8 {
    ghost becomes = { λ given v. v ≡ value.I64 given };

    fn field<'b>(&'b self, _room: &'b mut FloatText) -> FieldValue<'b> {
        FieldValue::I64(i64::from(*self))
    }
}

impl Value for i16 {
    ghost becomes = { λ given v. v ≡ value.I64 given };

    fn field<'b>(&'b self, _room: &'b mut FloatText) -> FieldValue<'b> {
        FieldValue::I64(i64::from(*self))
    }
}

impl Value for i32 {
    ghost becomes = { λ given v. v ≡ value.I64 given };

    fn field<'b>(&'b self, _room: &'b mut FloatText) -> FieldValue<'b> {
        FieldValue::I64(i64::from(*self))
    }
}

impl Value for i64 {
    ghost becomes = { λ given v. v ≡ value.I64 given };

    fn field<'b>(&'b self, _room: &'b mut FloatText) -> FieldValue<'b> {
        FieldValue::I64(*self)
    }
}

impl Value for isize {
    ghost becomes = { λ given v. v ≡ value.I64 given };

    fn field<'b>(&'b self, _room: &'b mut FloatText) -> FieldValue<'b> {
        FieldValue::I64(*self as i64)
    }
}

impl Value for u128 {
    ghost becomes = { λ given v. v ≡ value.U128 given };

    fn field<'b>(&'b self, _room: &'b mut FloatText) -> FieldValue<'b> {
        FieldValue::U128(*self)
    }
}

impl Value for i128 {
    ghost becomes = { λ given v. v ≡ value.I128 given };

    fn field<'b>(&'b self, _room: &'b mut FloatText) -> FieldValue<'b> {
        FieldValue::I128(*self)
    }
}

impl Value for bool {
    ghost becomes = { λ given v. v ≡ value.Bool given };

    fn field<'b>(&'b self, _room: &'b mut FloatText) -> FieldValue<'b> {
        FieldValue::Bool(*self)
    }
}

impl Value for f64 {
    ghost becomes = { IsFloat };

    fn field<'b>(&'b self, room: &'b mut FloatText) -> FieldValue<'b> {
        FieldValue::F64(Float::new(*self, room))
    }
}

impl Value for &str {
    ghost becomes = { λ given. IsText given.now };

    fn field<'b>(&'b self, _room: &'b mut FloatText) -> FieldValue<'b> {
        FieldValue::Text(self)
    }
}

impl Value for String {
    ghost becomes = { λ given. IsText (string_bytes given) };

    fn field<'b>(&'b self, _room: &'b mut FloatText) -> FieldValue<'b> {
        FieldValue::Text(self)
    }
}

/// None is absent: layers leave the field out.
impl<T: Value> Value for Option<T> {
    ghost becomes = { IsOptional T.becomes };

    fn field<'b>(&'b self, room: &'b mut FloatText) -> FieldValue<'b> {
        match self {
            Some(value) => value.field(room),
            None => FieldValue::Absent,
        }
    }
}

/// Does something with the value of a field.
#[inline(always)]
pub fn with_value<V: Value, T, F: FnOnce(FieldValue<'_>) -> T>(value: &V, body: F) -> T
    requires { F.IsAlwaysCallable body }
    ensures { GivesOne (V.becomes value.now) (F.post body) result }
{
    let mut room = FloatText::new();
    body(value.field(&mut room))
}

/// Does something with the text of a value by `Display`, as the value of a field; absent where
/// memory is refused for the text.
#[inline(never)]
pub fn with_display<V: Display, T, F: FnOnce(FieldValue<'_>) -> T>(
    alloc: Global,
    value: &V,
    body: F,
) -> T
    requires { F.IsAlwaysCallable body }
    ensures { GivesOne (ShowsText (V.output value.now)) (F.post body) result }
{
    match format!(in alloc; "{value}") {
        Ok(text) => body(FieldValue::Text(&text)),
        Err(_) => body(FieldValue::Absent),
    }
}

/// Does something with the text of a value by `Debug`, as the value of a field; absent where memory
/// is refused for the text.
#[inline(never)]
pub fn with_debug<V: Debug, T, F: FnOnce(FieldValue<'_>) -> T>(
    alloc: Global,
    value: &V,
    body: F,
) -> T
    requires { F.IsAlwaysCallable body }
    ensures { GivesOne (ShowsText (V.debug_output value.now)) (F.post body) result }
{
    match format!(in alloc; "{value:?}") {
        Ok(text) => body(FieldValue::Text(&text)),
        Err(_) => body(FieldValue::Absent),
    }
}
