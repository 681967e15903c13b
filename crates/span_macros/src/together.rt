//! Fields as one array, for as long as each of them is borrowed.
//!
//! An array's references have one lifetime. Where fields are borrowed one by one, the prover takes
//! that from a call, and not from an array that stands in a macro's own code.
ghost use Rattle.std.specs.Prelude.{◌≡◌, ◌∷◌, []};

use span_core::FieldValue;

/// A field's name and its value.
pub type Field<'a> = (&'static str, FieldValue<'a>);

/// One field.
#[inline(always)]
pub fn one_field<'a>(a: Field<'a>) -> [Field<'a>; 1]
    ensures { result ≡ a.entry ∷ [] }
{
    [a]
}

/// Two fields.
#[inline(always)]
pub fn two_fields<'a>(a: Field<'a>, b: Field<'a>) -> [Field<'a>; 2]
    ensures { result ≡ a.entry ∷ b.entry ∷ [] }
{
    [a, b]
}

/// Three fields.
#[inline(always)]
pub fn three_fields<'a>(a: Field<'a>, b: Field<'a>, c: Field<'a>) -> [Field<'a>; 3]
    ensures { result ≡ a.entry ∷ b.entry ∷ c.entry ∷ [] }
{
    [a, b, c]
}

/// Four fields.
#[inline(always)]
pub fn four_fields<'a>(a: Field<'a>, b: Field<'a>, c: Field<'a>, d: Field<'a>) -> [Field<'a>; 4]
    ensures { result ≡ a.entry ∷ b.entry ∷ c.entry ∷ d.entry ∷ [] }
{
    [a, b, c, d]
}

/// Five fields.
#[inline(always)]
pub fn five_fields<'a>(
    a: Field<'a>,
    b: Field<'a>,
    c: Field<'a>,
    d: Field<'a>,
    e: Field<'a>,
) -> [Field<'a>; 5]
    ensures { result ≡ a.entry ∷ b.entry ∷ c.entry ∷ d.entry ∷ e.entry ∷ [] }
{
    [a, b, c, d, e]
}

/// Six fields.
#[inline(always)]
pub fn six_fields<'a>(
    a: Field<'a>,
    b: Field<'a>,
    c: Field<'a>,
    d: Field<'a>,
    e: Field<'a>,
    f: Field<'a>,
) -> [Field<'a>; 6]
    ensures { result ≡ a.entry ∷ b.entry ∷ c.entry ∷ d.entry ∷ e.entry ∷ f.entry ∷ [] }
{
    [a, b, c, d, e, f]
}

/// Seven fields.
#[inline(always)]
pub fn seven_fields<'a>(
    a: Field<'a>,
    b: Field<'a>,
    c: Field<'a>,
    d: Field<'a>,
    e: Field<'a>,
    f: Field<'a>,
    g: Field<'a>,
) -> [Field<'a>; 7]
    ensures { result ≡ a.entry ∷ b.entry ∷ c.entry ∷ d.entry ∷ e.entry ∷ f.entry ∷ g.entry ∷ [] }
{
    [a, b, c, d, e, f, g]
}

/// Eight fields.
#[inline(always)]
pub fn eight_fields<'a>(
    a: Field<'a>,
    b: Field<'a>,
    c: Field<'a>,
    d: Field<'a>,
    e: Field<'a>,
    f: Field<'a>,
    g: Field<'a>,
    h: Field<'a>,
) -> [Field<'a>; 8]
    ensures { result ≡ a.entry ∷ b.entry ∷ c.entry ∷ d.entry ∷ e.entry ∷ f.entry ∷ g.entry
        ∷ h.entry ∷ [] }
{
    [a, b, c, d, e, f, g, h]
}
