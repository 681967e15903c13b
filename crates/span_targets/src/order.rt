//! Directives in their order: where one stands, and what passes by them.
ghost use Rattle.std.specs.Prelude.{◌≡◌, length};
ghost use Rattle.std.specs.List.Sorted.{IsBinarySearchResult, IsSearchInRange};
ghost use Rattle.span_core.specs.Level.{greater};
ghost use Rattle.span_targets.specs.Directive.{most_of};
ghost use Rattle.span_targets.specs.private.Order.{first_level, order_to};

use crate::directive::Directive;
use span_core::LevelFilter;

/// Where the directive with this target stands, or where one is to stand.
pub(crate) fn search(directives: &[Directive], target: &str) -> Result<usize, usize>
    ensures bound { IsSearchInRange result (length directives.now) }
    ensures place { IsBinarySearchResult (order_to target.now) directives.now result }
{
    directives.binary_search_by(|directive| directive.order_to(target))
}

/// The levels that pass by the first directive whose target the text begins with.
pub(crate) fn first_level(directives: &[Directive], text: &str) -> Option<LevelFilter>
    ensures { result ≡ first_level directives.now text.now }
{
    for directive in directives {
        if directive.begins(text) {
            return Some(directive.level());
        }
    }
    None
}

/// The most that passes by one of these directives, or by this level.
pub(crate) fn most_of(directives: &[Directive], level: LevelFilter) -> LevelFilter
    ensures { result ≡ most_of level directives.now }
{
    let mut most = level;
    for directive in directives {
        most = greater(most, directive.level());
    }
    most
}

/// The filter by level that passes more.
pub(crate) fn greater(a: LevelFilter, b: LevelFilter) -> LevelFilter
    ensures { result ≡ greater a b }
{
    if a <= b { b } else { a }
}
