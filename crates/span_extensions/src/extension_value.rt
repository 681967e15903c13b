//! The types that the value of an extension may have.
ghost use Rattle.std.specs.Prelude.{◌≡◌, refl};
ghost use Rattle.std.specs.Borrow.{sem};
ghost use Rattle.span_extensions.specs.Lends.{lends_table};

use crate::extension_tables::ExtensionTables;
use crate::table::Table;

/// What a call for a table takes: only this library can make it, so no one else reaches a table.
#[derive(Clone, Copy)]
pub struct Internal;

/// A type that the value of an extension may have: u64, i64, bool, `String`, `Vec<u8>` or
/// `Vec<u64>`, and no other.
pub trait ExtensionValue: Drop {
    ghost use Rattle.span_extensions.specs.Extensions.{ExtensionMap, Place, ValueType, SameAt, no_values};
    ghost use Rattle.std.specs.Prelude.{ℕ};
    ghost use Rattle.std.specs.FinMap.{FinMap, empty, get};
    ghost use Rattle.std.specs.Ordering.{nat_cmp};

    ghost value_type: { ValueType };

    ghost place: { Place Self };

    /// The values of this type.
    fn table(tables: &ExtensionTables, _internal: Internal) -> &Table<Self>
        ensures { result.now ≡ place.values tables.now };

    /// The values of this type, to be changed.
    fn table_mut(tables: &mut ExtensionTables, _internal: Internal) -> &mut Table<Self>
        ensures* writes_back { sem 𝓛 (lends_table Self.row place tables.entry result) }
        ensures value { result.now ≡ place.values tables.old };

    ghost begins_empty: { place.values no_values ≡ empty };

    ghost values_with: { (map : ExtensionMap) (values : FinMap nat_cmp Self)
        → place.values (place.with_values map values) ≡ values };

    ghost with_own: { (map : ExtensionMap) → place.with_values map (place.values map) ≡ map };

    ghost with_twice: { (map : ExtensionMap) (first second : FinMap nat_cmp Self)
        → place.with_values (place.with_values map first) second ≡ place.with_values map second };

    ghost reads_own_type: { (map other : ExtensionMap) (number : ℕ)
        → SameAt value_type number map other
        → get (place.values map) number ≡ get (place.values other) number };

    ghost writes_own_type: { (map : ExtensionMap) (values : FinMap nat_cmp Self)
        (type : ValueType) (number : ℕ)
        → (type ≡ value_type → get (place.values map) number ≡ get values number)
        → SameAt type number map (place.with_values map values) };
}

impl ExtensionValue for u64 {
    ghost use Rattle.span_extensions.specs.Extensions.{Unsigned};
    ghost use Rattle.span_extensions.specs.laws.Extension.{writes_unsigned};

    ghost value_type = { Unsigned };

    ghost place = { record {
      values = λ m. m.unsigned_numbers;
      with_values = λ m t. record m { unsigned_numbers = t };
    } };

    ghost begins_empty = { refl };

    ghost values_with = { λ m t. refl };

    ghost with_own = { λ m. refl };

    ghost with_twice = { λ m s t. refl };

    ghost reads_own_type = { λ m n k h. h };

    ghost writes_own_type = { writes_unsigned };

    fn table(tables: &ExtensionTables, _internal: Internal) -> &Table<u64> {
        &tables.unsigned_numbers
    }

    fn table_mut(tables: &mut ExtensionTables, _internal: Internal) -> &mut Table<u64> {
        &mut tables.unsigned_numbers
    }
}

impl ExtensionValue for i64 {
    ghost use Rattle.span_extensions.specs.Extensions.{Signed};
    ghost use Rattle.span_extensions.specs.laws.Extension.{writes_signed};

    ghost value_type = { Signed };

    ghost place = { record {
      values = λ m. m.signed_numbers;
      with_values = λ m t. record m { signed_numbers = t };
    } };

    ghost begins_empty = { refl };

    ghost values_with = { λ m t. refl };

    ghost with_own = { λ m. refl };

    ghost with_twice = { λ m s t. refl };

    ghost reads_own_type = { λ m n k h. h };

    ghost writes_own_type = { writes_signed };

    fn table(tables: &ExtensionTables, _internal: Internal) -> &Table<i64> {
        &tables.signed_numbers
    }

    fn table_mut(tables: &mut ExtensionTables, _internal: Internal) -> &mut Table<i64> {
        &mut tables.signed_numbers
    }
}

impl ExtensionValue for bool {
    ghost use Rattle.span_extensions.specs.Extensions.{Flag};
    ghost use Rattle.span_extensions.specs.laws.Extension.{writes_flag};

    ghost value_type = { Flag };

    ghost place = { record { values = λ m. m.flags; with_values = λ m t. record m { flags = t } } };

    ghost begins_empty = { refl };

    ghost values_with = { λ m t. refl };

    ghost with_own = { λ m. refl };

    ghost with_twice = { λ m s t. refl };

    ghost reads_own_type = { λ m n k h. h };

    ghost writes_own_type = { writes_flag };

    fn table(tables: &ExtensionTables, _internal: Internal) -> &Table<bool> {
        &tables.flags
    }

    fn table_mut(tables: &mut ExtensionTables, _internal: Internal) -> &mut Table<bool> {
        &mut tables.flags
    }
}

impl ExtensionValue for String {
    ghost use Rattle.span_extensions.specs.Extensions.{Text};
    ghost use Rattle.span_extensions.specs.laws.Extension.{writes_text};

    ghost value_type = { Text };

    ghost place = { record { values = λ m. m.texts; with_values = λ m t. record m { texts = t } } };

    ghost begins_empty = { refl };

    ghost values_with = { λ m t. refl };

    ghost with_own = { λ m. refl };

    ghost with_twice = { λ m s t. refl };

    ghost reads_own_type = { λ m n k h. h };

    ghost writes_own_type = { writes_text };

    fn table(tables: &ExtensionTables, _internal: Internal) -> &Table<String> {
        &tables.texts
    }

    fn table_mut(tables: &mut ExtensionTables, _internal: Internal) -> &mut Table<String> {
        &mut tables.texts
    }
}

impl ExtensionValue for Vec<u8> {
    ghost use Rattle.span_extensions.specs.Extensions.{Bytes};
    ghost use Rattle.span_extensions.specs.laws.Extension.{writes_bytes};

    ghost value_type = { Bytes };

    ghost place = { record { values = λ m. m.bytes; with_values = λ m t. record m { bytes = t } } };

    ghost begins_empty = { refl };

    ghost values_with = { λ m t. refl };

    ghost with_own = { λ m. refl };

    ghost with_twice = { λ m s t. refl };

    ghost reads_own_type = { λ m n k h. h };

    ghost writes_own_type = { writes_bytes };

    fn table(tables: &ExtensionTables, _internal: Internal) -> &Table<Vec<u8>> {
        &tables.bytes
    }

    fn table_mut(tables: &mut ExtensionTables, _internal: Internal) -> &mut Table<Vec<u8>> {
        &mut tables.bytes
    }
}

impl ExtensionValue for Vec<u64> {
    ghost use Rattle.span_extensions.specs.Extensions.{NumberList};
    ghost use Rattle.span_extensions.specs.laws.Extension.{writes_number_list};

    ghost value_type = { NumberList };

    ghost place = { record {
      values = λ m. m.number_lists;
      with_values = λ m t. record m { number_lists = t };
    } };

    ghost begins_empty = { refl };

    ghost values_with = { λ m t. refl };

    ghost with_own = { λ m. refl };

    ghost with_twice = { λ m s t. refl };

    ghost reads_own_type = { λ m n k h. h };

    ghost writes_own_type = { writes_number_list };

    fn table(tables: &ExtensionTables, _internal: Internal) -> &Table<Vec<u64>> {
        &tables.number_lists
    }

    fn table_mut(tables: &mut ExtensionTables, _internal: Internal) -> &mut Table<Vec<u64>> {
        &mut tables.number_lists
    }
}
