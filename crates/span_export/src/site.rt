//! What spans and events are called, and what they were given.
ghost use Rattle.std.specs.Option.{option_copied};
ghost use Rattle.std.specs.Prelude.{◌≡◌, ◌==◌, ℕ, [], if◌then◌else◌, IfOk, OnOk};
ghost use Rattle.span_core.specs.Span.{number_of};
ghost use Rattle.span_times.specs.Field.{kept_in};
ghost use Rattle.span_export.specs.Site.{KnowsSpans, called, came_with, given_said, leveled, named_by, named_so, put_fields, site_numbered, targeted, told_by};

use crate::given::{Given, put_all};
use span_core::Id;
use span_times::{Happening, OwnedField, Point, Site, Table};
use std::alloc::{AllocError, Global};
use std::collections::BTreeMap;

/// What a span or an event is called, if that is known, and what it was given.
#[derive(Clone, Copy)]
pub struct Name<'a> {
    /// Its callsite, if that is known.
    pub site: Option<&'a Site>,
    /// What it was given, of each name the latest.
    pub given: &'a [&'a OwnedField],
}

impl<'a> Name<'a> {
    /// The name of its callsite, and `?` where that isn't known.
    pub fn name(&self) -> &'a str
        ensures { result.now ≡ called (named_so self.now) }
    {
        match self.site {
            Some(site) => site.name.as_str(),
            None => "?",
        }
    }

    /// The target, and `?` where it isn't known.
    pub fn target(&self) -> &'a str
        ensures { result.now ≡ targeted (named_so self.now) }
    {
        match self.site {
            Some(site) => site.target.as_str(),
            None => "?",
        }
    }

    /// The name of the level, and `?` where it isn't known.
    pub fn level(&self) -> &'a str
        ensures { result.now ≡ leveled (named_so self.now) }
    {
        match self.site {
            Some(site) => site.level.as_str(),
            None => "?",
        }
    }
}

/// The site with this number.
pub fn find_site(sites: &[Site], callsite: u64) -> Option<&Site>
    ensures { option_copied result ≡ site_numbered sites.now callsite }
{
    sites.iter().find(|site| site.callsite == callsite)
}

/// What spans are called, and what they were given, by their numbers.
#[derive(Drop)]
pub struct Spans<'a> {
    sites: &'a [Site],
    openers: BTreeMap<u64, u64>,
    given: BTreeMap<u64, Given<'a>>,
}

impl<'a> Spans<'a> {
    /// What all spans of these points are called and were given: by the last point that opens each,
    /// and by those that record values of it since.
    pub fn of(alloc: Global, points: &[Point], table: Table<'a>) -> Result<Spans<'a>, AllocError>
        ensures { IfOk result (λ spans. KnowsSpans spans table.entry points.now) }
    {
        let mut spans = Spans {
            sites: table.sites,
            openers: BTreeMap::new(alloc),
            given: BTreeMap::new(alloc),
        };
        for point in points {
            spans.note(alloc, point, point.fields_in(table.fields))?;
        }
        Ok(spans)
    }

    /// Notes what a point with these fields says of its span.
    fn note(
        &mut self,
        alloc: Global,
        point: &Point,
        fields: &'a [OwnedField],
    ) -> Result<(), AllocError>
        ensures known { OnOk result ((x : ℕ) → named_by self.new x
            ≡ told_by self.old.sites.now x (kept_in fields.now) point.now.what
            (named_by self.old x)) }
        ensures sites { self.new.sites ≡ self.old.sites }
    {
        match point.what {
            Happening::Opened(id, callsite, _) => {
                self.openers.insert(id.into_u64(), callsite)?;
                self.give(id, Given::new(alloc), fields)
            }
            Happening::Recorded(id) => {
                let given = self.taken(alloc, id);
                self.give(id, given, fields)
            }
            _ => Ok(()),
        }
    }

    /// What a span was given, taken out.
    fn taken(&mut self, alloc: Global, id: Id) -> Given<'a>
        ensures taken { given_said result.items ≡ (named_by self.old (number_of id)).given }
        ensures others { (x : ℕ) → named_by self.new x
            ≡ (if number_of id == x then record (named_by self.old x) { given = [] }
            else named_by self.old x) }
        ensures sites { self.new.sites ≡ self.old.sites }
    {
        match self.given.remove(&id.into_u64()) {
            Some(given) => given,
            None => Given::new(alloc),
        }
    }

    /// Gives a span, which was given these, more fields.
    fn give(
        &mut self,
        id: Id,
        mut given: Given<'a>,
        fields: &'a [OwnedField],
    ) -> Result<(), AllocError>
        ensures given { OnOk result ((x : ℕ) → named_by self.new x
            ≡ (if number_of id == x
            then record (named_by self.old x) {
              given
                  = put_fields (kept_in fields.now) (given_said given.entry.items);
            }
            else named_by self.old x)) }
        ensures sites { self.new.sites ≡ self.old.sites }
    {
        put_all(&mut given, fields)?;
        self.given.insert(id.into_u64(), given)?;
        Ok(())
    }

    /// What a span is called, and what it was given.
    pub fn name(&self, id: Id) -> Name<'_>
        ensures { named_so result ≡ named_by self.now (number_of id) }
    {
        Name {
            site: self.site(id),
            given: self.given(id),
        }
    }

    /// The site of a span.
    fn site(&self, id: Id) -> Option<&Site>
        ensures { option_copied result ≡ (named_by self.now (number_of id)).site }
    {
        let callsite = *self.openers.get(&id.into_u64())?;
        find_site(self.sites, callsite)
    }

    /// What a span was given.
    fn given(&self, id: Id) -> &[&OwnedField]
        ensures { given_said result.now ≡ (named_by self.now (number_of id)).given }
    {
        let Some(given) = self.given.get(&id.into_u64()) else {
            return &[];
        };
        given.as_slice()
    }
}
