//! What callsites are called.
ghost use Rattle.std.specs.Prelude.{◌≡◌, ◌≢◌, ◌++◌, ◌∷◌, [], IfOk, OnErr, OnOk, false};
ghost use Rattle.span_core.specs.Metadata.{callsite_of};
ghost use Rattle.span_times.specs.Site.{AreNumbersOf, site_said, has_site, sites_said, site_of, with_site};

use span_core::{Level, Metadata};
use std::alloc::{AllocError, Global};
use std::collections::BTreeSet;
use std::mem;

/// What a callsite is called. Points have its number alone.
#[derive(Debug)]
pub struct Site {
    /// The number of the callsite.
    pub callsite: u64,
    /// The callsite's level.
    pub level: Level,
    /// The callsite's name.
    pub name: String,
    /// The callsite's target.
    pub target: String,
}

impl Drop for Site {
    fn drop(self) {
        let Site {
            callsite,
            level,
            name,
            target,
        } = self;
    }
}

impl Site {
    /// The site of these metadata.
    pub fn of(alloc: Global, metadata: Metadata) -> Result<Site, AllocError>
        ensures { IfOk result (λ site. site_said site ≡ site_of metadata) }
    {
        Ok(Site {
            callsite: metadata.callsite(),
            level: metadata.level(),
            name: String::from_str(alloc, metadata.name())?,
            target: String::from_str(alloc, metadata.target())?,
        })
    }

    /// The same site once more.
    fn copied(&self, alloc: Global) -> Result<Site, AllocError>
        ensures { IfOk result (λ copy. site_said copy ≡ site_said self.now) }
    {
        Ok(Site {
            callsite: self.callsite,
            level: self.level,
            name: String::from_str(alloc, self.name.as_str())?,
            target: String::from_str(alloc, self.target.as_str())?,
        })
    }
}

/// The sites of callsites that were used, each once.
pub(crate) struct Sites {
    alloc: Global,
    sites: Vec<Site>,
    numbers: BTreeSet<u64>,
    ghost numbered: { AreNumbersOf numbers (sites_said sites.items) },
}

impl Drop for Sites {
    fn drop(self) {
        let Sites {
            alloc,
            sites,
            numbers,
        } = self;
    }
}

impl Sites {
    ghost use Rattle.span_times.specs.Sites.{kept_by};

    /// No callsite was used yet.
    pub(crate) fn new(alloc: Global) -> Sites
        ensures { kept_by result ≡ [] }
    {
        Sites {
            alloc,
            sites: Vec::new(alloc),
            numbers: BTreeSet::new(alloc),
        }
    }

    /// The sites, by the first use of their callsites.
    pub(crate) fn sites(&self) -> &[Site]
        ensures { sites_said result.now ≡ kept_by self.now }
    {
        &self.sites
    }

    /// The same sites once more.
    pub(crate) fn copied(&self) -> Result<Vec<Site>, AllocError>
        ensures { IfOk result (λ copies. sites_said copies.items ≡ kept_by self.now) }
    {
        let mut copies = Vec::new(self.alloc);
        for site in &self.sites {
            copies.push(site.copied(self.alloc)?)?;
        }
        Ok(copies)
    }

    /// Takes the sites out.
    pub(crate) fn take(&mut self) -> Vec<Site>
        ensures taken { sites_said result.items ≡ kept_by self.old }
        ensures none { kept_by self.new ≡ [] }
    {
        let taken = mem::replace(self, Sites::new(self.alloc));
        taken.into_sites()
    }

    /// The sites alone.
    fn into_sites(self) -> Vec<Site>
        ensures { sites_said result.items ≡ kept_by self }
    {
        let Sites {
            alloc,
            sites,
            numbers,
        } = self;
        sites
    }

    /// Keeps the site of these metadata, if there are any, unless one has their number. Where
    /// memory is refused for it, the sites stay.
    pub(crate) fn keep(&mut self, metadata: Option<Metadata>) -> Result<(), AllocError>
        ensures kept { OnOk result (kept_by self.new ≡ with_site metadata (kept_by self.old)) }
        ensures unchanged { OnErr result (kept_by self.new ≡ kept_by self.old) }
        ensures refused { OnErr result (with_site metadata (kept_by self.old) ≢ kept_by self.old) }
    {
        match metadata {
            Some(metadata) if !self.numbers.contains(&metadata.callsite()) => self.add(metadata),
            _ => Ok(()),
        }
    }

    /// Keeps the site of these metadata behind the others. Where memory is refused for it, these
    /// stay.
    fn add(&mut self, metadata: Metadata) -> Result<(), AllocError>
        requires { has_site (sites_said self.old.sites.items) (callsite_of metadata) ≡ false }
        ensures added { OnOk result
            (kept_by self.new ≡ kept_by self.old ++ site_of metadata ∷ []) }
        ensures unchanged { OnErr result (kept_by self.new ≡ kept_by self.old) }
    {
        let site = Site::of(self.alloc, metadata)?;
        self.sites.push(site)?;
        if self.numbers.insert(metadata.callsite()).is_err() {
            let _ = self.sites.pop();
            return Err(AllocError);
        }
        Ok(())
    }
}
