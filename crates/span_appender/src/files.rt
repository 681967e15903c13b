//! The files of one writer in their directory.
ghost use Rattle.std.specs.Prelude.{◌≡◌, IfOk, string_bytes};
ghost use Rattle.span_appender.specs.Rolling.{before_number, behind_date};

use crate::name::{day_text, file_name, number_in};
use crate::old::old_names;
use std::alloc::{AllocError, Global};
use std::fs::{self, OpenFile, OpenOptions};
use std::io::{self, ErrorKind};
use std::rt::Files;

/// Where a writer's files are, and what stands before and behind number and date in their names.
#[derive(Drop)]
pub(crate) struct Directory {
    path: String,
    before: String,
    behind: String,
}

impl Directory {
    pub(crate) fn new(
        alloc: Global,
        path: &str,
        prefix: &str,
        suffix: &str,
    ) -> Result<Directory, AllocError>
        ensures before { IfOk result (λ d. string_bytes d.before ≡ before_number prefix.now) }
        ensures behind { IfOk result (λ d. string_bytes d.behind ≡ behind_date suffix.now) }
    {
        let mut before = String::from_str(alloc, prefix)?;
        if !prefix.is_empty() {
            before.push_str(".")?;
        }
        let mut behind = String::new(alloc);
        if !suffix.is_empty() {
            behind.push_str(".")?;
            behind.push_str(suffix)?;
        }
        Ok(Directory {
            path: String::from_str(alloc, path)?,
            before,
            behind,
        })
    }

    /// The name of a file.
    pub(crate) fn name(&self, alloc: Global, number: u32, day: u64) -> io::Result<String> {
        let date = day_text(alloc, day)?;
        Ok(file_name(
            alloc,
            self.before.as_str(),
            number,
            date.as_str(),
            self.behind.as_str(),
        )?)
    }

    /// Opens a file to write behind what it has, and says how much that is.
    pub(crate) fn open<R: Files>(
        &self,
        rt: &R,
        alloc: Global,
        name: &str,
        is_new: bool,
    ) -> io::Result<(R::File, u64)> {
        let path = self.path_of(alloc, name)?;
        let mut options = OpenOptions::new();
        options.append(true);
        if is_new {
            options.create_new(true);
        } else {
            options.create(true);
        }
        let file = options.open(rt, path.as_str())?;
        let size = file.metadata()?.len();
        Ok((file, size))
    }

    /// The names of all files in the directory that are called as this writer's are.
    pub(crate) fn names<R: Files + AllocGlobal + Clone + Drop>(
        &self,
        rt: &R,
    ) -> io::Result<Vec<String>> {
        let mut names = Vec::new(rt.alloc());
        for entry in fs::read_dir(rt, self.path.as_str())? {
            match entry {
                Ok(entry) => {
                    if self.number(rt.alloc(), entry.file_name())?.is_some() {
                        names.push(String::from_str(rt.alloc(), entry.file_name())?)?;
                    }
                }
                // A name that is no text is none of this writer's.
                Err(error) if error.kind() == ErrorKind::InvalidFilename => {}
                Err(error) => return Err(error),
            }
        }
        Ok(names)
    }

    /// The number in a name, if the name is as this writer's are.
    pub(crate) fn number(&self, alloc: Global, name: &str) -> Result<Option<u32>, AllocError> {
        number_in(alloc, self.before.as_str(), self.behind.as_str(), name)
    }

    /// Removes all files but the newest, of which it keeps so many.
    pub(crate) fn remove_old<R: Files + AllocGlobal + Clone + Drop>(
        &self,
        rt: &R,
        keep: usize,
    ) -> io::Result<()> {
        let old = old_names(self.names(rt)?, keep)?;
        for name in &old {
            let path = self.path_of(rt.alloc(), name.as_str())?;
            fs::remove_file(rt, path.as_str())?;
        }
        Ok(())
    }

    fn path_of(&self, alloc: Global, name: &str) -> Result<String, AllocError> {
        let mut path = String::from_str(alloc, self.path.as_str())?;
        path.push_str("/")?;
        path.push_str(name)?;
        Ok(path)
    }
}
