//! Laws of the definitions that contracts cite. The functions make no call and do nothing.
ghost use Rattle.std.specs.Prelude.{◌≡◌, ◌≢◌, ◌↔◌, ℕ, ◌<◌, ◌≤◌, ◌||◌, IsTrue, false, Some, None};
ghost use Rattle.span_core.specs.Filters.{FilterSet, HaveCommon, IsEmpty, SameMembers};
ghost use Rattle.span_core.specs.Filters.{meets, union};
ghost use Rattle.span_core.specs.Filters.{HasFiltersOfBoth, SameFilters, has_filter, is_attached};
ghost use Rattle.span_core.specs.Filters.{HasRefusal, HidesAsEither, is_hidden, refuses};
ghost use Rattle.span_core.specs.Interest.{sum_of, sum_with};
ghost use Rattle.span_core.specs.Level.{IsAboveByNumber, IsOrderBy, PassesByNumber, PassesNoMore};
ghost use Rattle.span_core.specs.Level.{filter_number, is_above, level_number};
ghost use Rattle.span_core.specs.declared.filter.FilterId.{FilterId};
ghost use Rattle.span_core.specs.declared.filter.FilterMap.{FilterMap};
ghost use Rattle.span_core.specs.declared.interest.Interest.{Interest};
ghost use Rattle.span_core.specs.declared.level.Level.{Level};
ghost use Rattle.span_core.specs.declared.level.LevelFilter.{LevelFilter};
ghost use Rattle.span_core.specs.declared.number_set.TheConstants.{LIMIT};

use crate::filter::{FilterId, FilterMap};
use crate::interest::Interest;
use crate::level::{Level, LevelFilter};
use crate::metadata::Kind;

/// The order of levels is that of their numbers, and the order of filters by level that of theirs.
pub fn order_is_by_number()
    ensures levels { IsOrderBy level_number ⟦<Level as Ord>⟧.cmp }
    ensures filters { IsOrderBy filter_number ⟦<LevelFilter as Ord>⟧.cmp }
{}

/// A level and a filter by level are known by their numbers.
pub fn numbers_tell_levels_apart()
    ensures least { (a : Level) → 1 ≤ level_number a }
    ensures most { (a : Level) → level_number a ≤ 5 }
    ensures levels { (a b : Level) → level_number a ≡ level_number b → a ≡ b }
    ensures filters { (a b : LevelFilter) → filter_number a ≡ filter_number b → a ≡ b }
{}

/// The levels have the numbers 1 to 5, and the filters by level 0 to 5.
pub fn levels_have_their_numbers()
    ensures error { level_number Level.ERROR ≡ 1 }
    ensures warn { level_number Level.WARN ≡ 2 }
    ensures info { level_number Level.INFO ≡ 3 }
    ensures debug { level_number Level.DEBUG ≡ 4 }
    ensures trace { level_number Level.TRACE ≡ 5 }
    ensures none { filter_number LevelFilter.OFF ≡ 0 }
    ensures errors { filter_number LevelFilter.ERROR ≡ 1 }
    ensures warnings { filter_number LevelFilter.WARN ≡ 2 }
    ensures infos { filter_number LevelFilter.INFO ≡ 3 }
    ensures debugs { filter_number LevelFilter.DEBUG ≡ 4 }
    ensures all { filter_number LevelFilter.TRACE ≡ 5 }
{}

/// The kind that makes spans isn't the kind that makes events.
pub fn kinds_differ()
    ensures { Kind.SPAN ≢ Kind.EVENT }
{}

/// A level passes a filter by level if its number is at most the filter's, and is above a hint if
/// its number is greater.
pub fn levels_pass_by_number()
    ensures passes { (filter : LevelFilter) (level : Level) → PassesByNumber filter level }
    ensures above { (level : Level) (hint : LevelFilter) → IsAboveByNumber level hint }
    ensures unlimited { (level : Level) → is_above level None ≡ false }
{}

/// A level that passes a filter by level passes each one that is at least as verbose.
pub fn more_verbose_filters_pass_more()
    ensures { (a b : LevelFilter) → filter_number a ≤ filter_number b → PassesNoMore a b }
{}

/// A sum takes the first interest. An equal one leaves it unchanged, a different one makes it
/// `Sometimes`.
pub fn sum_rule()
    ensures first { (a : Interest) → sum_with None a ≡ a }
    ensures equal { (a : Interest) → sum_with (Some a) a ≡ a }
    ensures different { (a b : Interest) → a ≢ b → sum_with (Some a) b ≡ Interest.Sometimes }
{}

/// Interests may be added in any order.
pub fn sums_in_any_order()
    ensures commutes { (a b : Interest) → sum_of a b ≡ sum_of b a }
    ensures regroups { (a b c : Interest) → sum_of (sum_of a b) c ≡ sum_of a (sum_of b c) }
{}

/// Sets of filters may be united in any order, and a set again or an empty one adds nothing.
pub fn unions()
    ensures commutes { (a b : FilterSet) (n : ℕ) → union a b n ≡ union b a n }
    ensures regroups { (a b c : FilterSet) (n : ℕ) → union (union a b) c n ≡ union a (union b c) n }
    ensures itself { (a : FilterSet) (n : ℕ) → union a a n ≡ a n }
    ensures none { (a b : FilterSet) (n : ℕ) → IsEmpty a → union a b n ≡ b n }
{}

/// Two sets have a filter in common if there is one below 128 in both.
pub fn filters_in_common()
    ensures exactly { (a b : FilterSet) → IsTrue (meets a b) ↔ HaveCommon a b }
    ensures commutes { (a b : FilterSet) → meets a b ≡ meets b a }
    ensures same { (a b c : FilterSet) → SameMembers a b → meets a c ≡ meets b c }
    ensures union { (a b c : FilterSet) → meets (union a b) c ≡ (meets a c || meets b c) }
    ensures none { (a b : FilterSet) → IsEmpty a → meets a b ≡ false }
{}

/// A span is hidden from a mask exactly if a filter of the mask is in its verdict.
pub fn hiding()
    ensures exactly { (m : FilterId) (v : FilterMap) → IsTrue (is_hidden m v) ↔ HasRefusal m v }
    ensures union { (m a b : FilterId) → HasFiltersOfBoth m a b → HidesAsEither m a b }
    ensures none { (m : FilterId) (v : FilterMap) → IsEmpty (has_filter m) → is_hidden m v ≡ false }
    ensures allowed { (m : FilterId) (v : FilterMap) → IsEmpty (refuses v) → is_hidden m v ≡ false }
{}

/// A map is known by its members, and an id by its members and whether it is attached. Members are
/// below 128, and an unattached id has none.
pub fn members()
    ensures ids_below { (id : FilterId) (n : ℕ) → IsTrue (has_filter id n) → n < LIMIT }
    ensures maps_below { (map : FilterMap) (n : ℕ) → IsTrue (refuses map n) → n < LIMIT }
    ensures unattached { (id : FilterId) → is_attached id ≡ false → IsEmpty (has_filter id) }
    ensures ids { (a b : FilterId) → SameFilters a b → a ≡ b }
    ensures maps { (a b : FilterMap) → SameMembers (refuses a) (refuses b) → a ≡ b }
{}

/// There may be 128 filters, numbered from 0.
pub fn filters_are_128()
    ensures ids { FilterId.LIMIT ≡ 128 }
    ensures numbers { LIMIT ≡ 128 }
{}
