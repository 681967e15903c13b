//! The callsites that a receiver registered, by the low digits of their numbers.
ghost use Rattle.std.specs.Prelude.{◌≡◌, ◌↔◌, IfSome, IsTrue, Some, map};
ghost use Rattle.span_core.specs.Metadata.{ShowSame, callsite_of, kind_of, level_of, name_of, names_of, target_of};
ghost use Rattle.span_dispatch.specs.Contract.{SameStack};
ghost use Rattle.span_dispatch.specs.Registration.{registered_metadata};
ghost use Rattle.span_dispatch.specs.Serve.{stack_of};
ghost use Rattle.span_tracer.specs.private.Callsite.{AreRegistered, HasNoRegistration, at_place};

use span_core::{FieldSet, Metadata};
use span_dispatch::{Dispatch, Registration};
use span_registry::Subscriber;

/// How many callsites a table has room for. A callsite takes the place of its number's remainder.
pub(crate) const PLACES: usize = 64;

/// The registrations of callsites, each at its place.
#[derive(Drop)]
pub(crate) struct Table {
    places: [Option<Registration>; PLACES],
}

impl Table {
    /// A table without a callsite.
    pub(crate) fn new() -> Table
        ensures { HasNoRegistration result.places }
    {
        Table {
            places: [None; PLACES],
        }
    }
}

/// The registration of the callsite with these metadata, if the table has it.
#[inline(always)]
pub(crate) fn find<'a>(table: &'a Table, meta: &Metadata) -> Option<&'a Registration>
    ensures there { IfSome result (λ r. at_place table.now.places meta.now ≡ Some (Some r.now)) }
    ensures same { IfSome result (λ r. ShowSame (registered_metadata r.now) meta.now) }
{
    match table.places.get((meta.callsite() % PLACES as u64) as usize) {
        Some(Some(known)) if show_same(&known.metadata(), meta) => Some(known),
        _ => None,
    }
}

/// Whether two metadata show the same, as `Metadata::shows_same` answers.
#[inline(always)]
fn show_same(known: &Metadata, given: &Metadata) -> bool
    ensures { IsTrue result → ShowSame known.now given.now }
{
    without_fields(known).shows_same(&without_fields(given))
        && have_same_names(known.fields(), given.fields())
}

/// The metadata of a callsite that has no fields, and shows the same else.
#[inline(always)]
fn without_fields(meta: &Metadata) -> Metadata
    ensures callsite { callsite_of result ≡ callsite_of meta.now }
    ensures name { name_of result ≡ name_of meta.now }
    ensures target { target_of result ≡ target_of meta.now }
    ensures level { level_of result ≡ level_of meta.now }
    ensures kind { kind_of result ≡ kind_of meta.now }
{
    let none = FieldSet::new(&[]);
    let (name, target) = (meta.name(), meta.target());
    Metadata::new(
        meta.callsite(),
        name,
        target,
        meta.level(),
        meta.kind(),
        none,
    )
}

/// Whether two callsites' fields have the same names. A macro's names are literals: where there is
/// one or two, each is compared in its caller.
#[inline(always)]
fn have_same_names(known: FieldSet, given: FieldSet) -> bool
    ensures { IsTrue result → (map (λ name. name.now) (names_of known)
        ≡ map (λ name. name.now) (names_of given)) }
{
    match (known.names(), given.names()) {
        ([a], [x]) => same_name(a, x),
        ([a, b], [x, y]) => same_name(a, x) && same_name(b, y),
        _ => known.has_same_names(&given),
    }
}

/// Whether two names are the same. Most have four to eight bytes: the first four and the last four
/// are compared, which may overlap.
#[inline(always)]
fn same_name(a: &str, b: &str) -> bool
    ensures { IsTrue result → (a.now ≡ b.now) }
{
    let (x, y) = (a.as_bytes(), b.as_bytes());
    if x.len() != y.len() {
        return false;
    }
    if x.len() > 8 {
        return same_long_name(a, b);
    }
    let (Some(x_first), Some(y_first)) = (x.first_chunk::<4>(), y.first_chunk::<4>()) else {
        return same_long_name(a, b);
    };
    let (Some(x_last), Some(y_last)) = (x.last_chunk::<4>(), y.last_chunk::<4>()) else {
        return same_long_name(a, b);
    };
    same_four(x_first, y_first) & same_four(x_last, y_last)
}

/// Whether two names of another length are the same.
#[inline(never)]
fn same_long_name(a: &str, b: &str) -> bool
    ensures { IsTrue result → (a.now ≡ b.now) }
{
    a == b
}

#[inline(always)]
fn same_four(a: &[u8; 4], b: &[u8; 4]) -> bool
    ensures { IsTrue result ↔ (a.now ≡ b.now) }
{
    u32::from_le_bytes(*a) == u32::from_le_bytes(*b)
}

/// Registers a callsite, and keeps its registration at its place. Where that is refused, nothing is
/// kept.
#[inline(never)]
pub(crate) fn learn<S: Subscriber>(dispatch: &mut Dispatch<S>, table: &mut Table, meta: &Metadata)
    requires usable { S.usable (stack_of dispatch.old) }
    requires registered { AreRegistered dispatch.old table.old.places }
    ensures stack { SameStack dispatch.old dispatch.new }
    ensures registered { AreRegistered dispatch.new table.new.places }
{
    let Ok(registration) = dispatch.register_callsite(meta) else {
        return;
    };
    let place = (meta.callsite() % PLACES as u64) as usize;
    let places = &mut table.places[..];
    places[place] = Some(registration);
}
