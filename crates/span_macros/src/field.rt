//! What may be the value of a field.
ghost use Rattle.std.specs.Prelude.{◌≡◌};
ghost use Rattle.span_core.specs.declared.field.FieldValue.{FieldValue};
ghost use Rattle.span_core.specs.declared.field.FieldValue.TheVariants as value;

use span_core::FieldValue;

/// What a macro takes as the value of a field: numbers up to 64 bits, truth values and texts.
///
/// Stands for a part of what has an `impl` of `tracing_core::field::Value`: floats, numbers of 128
/// bits, `String` and `Option` have none.
pub trait IntoField<'a> {
    /// The value that it becomes.
    ghost field_of: { Self → FieldValue };

    /// The value as that of a field.
    fn into_field(self) -> FieldValue<'a>
        ensures { result ≡ field_of self };
}

impl<'a> IntoField<'a> for u8 {
    ghost field_of = { value.U64 };

    fn into_field(self) -> FieldValue<'a> {
        FieldValue::U64(u64::from(self))
    }
}

impl<'a> IntoField<'a> for u16 {
    ghost field_of = { value.U64 };

    fn into_field(self) -> FieldValue<'a> {
        FieldValue::U64(u64::from(self))
    }
}

impl<'a> IntoField<'a> for u32 {
    ghost field_of = { value.U64 };

    fn into_field(self) -> FieldValue<'a> {
        FieldValue::U64(u64::from(self))
    }
}

impl<'a> IntoField<'a> for u64 {
    ghost field_of = { value.U64 };

    fn into_field(self) -> FieldValue<'a> {
        FieldValue::U64(self)
    }
}

impl<'a> IntoField<'a> for usize {
    ghost field_of = { value.U64 };

    fn into_field(self) -> FieldValue<'a> {
        FieldValue::U64(self as u64)
    }
}

impl<'a> IntoField<'a> for i8 {
    ghost field_of = { value.I64 };

    fn into_field(self) -> FieldValue<'a> {
        FieldValue::I64(i64::from(self))
    }
}

impl<'a> IntoField<'a> for i16 {
    ghost field_of = { value.I64 };

    fn into_field(self) -> FieldValue<'a> {
        FieldValue::I64(i64::from(self))
    }
}

impl<'a> IntoField<'a> for i32 {
    ghost field_of = { value.I64 };

    fn into_field(self) -> FieldValue<'a> {
        FieldValue::I64(i64::from(self))
    }
}

impl<'a> IntoField<'a> for i64 {
    ghost field_of = { value.I64 };

    fn into_field(self) -> FieldValue<'a> {
        FieldValue::I64(self)
    }
}

impl<'a> IntoField<'a> for isize {
    ghost field_of = { value.I64 };

    fn into_field(self) -> FieldValue<'a> {
        FieldValue::I64(self as i64)
    }
}

impl<'a> IntoField<'a> for bool {
    ghost field_of = { value.Bool };

    fn into_field(self) -> FieldValue<'a> {
        FieldValue::Bool(self)
    }
}

impl<'a> IntoField<'a> for &'a str {
    ghost field_of = { value.Text };

    fn into_field(self) -> FieldValue<'a> {
        FieldValue::Text(self)
    }
}

impl<'a> IntoField<'a> for FieldValue<'a> {
    ghost field_of = { λ given. given };

    fn into_field(self) -> FieldValue<'a> {
        self
    }
}
