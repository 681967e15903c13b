//! A writer of rolling files.
ghost use Rattle.std.specs.Io.KnownBytes.{Appends};
ghost use Rattle.std.specs.Prelude.{◌≡◌, ◌≢◌, ◌<◌, ◌≤◌, ◌^◌, ◌-◌, [], IfOk, IsTrue, None, OnErr, OnOk, Some, false, length, take};
ghost use Rattle.span_appender.specs.Place.{Chooses, GoesTo, MayHaveBegun, Reaches, next_after};
ghost use Rattle.span_appender.specs.Rolling.{before_number, behind_date, file_of, place_of, settings_asked, settings_of};

use crate::files::Directory;
use crate::place::{Place, next_place, rolls, share, written_place};
use crate::rotation::Rotation;
use std::fs;
use std::io::{self, Error, ErrorKind, Write};
use std::rt::Files;
use std::time::Clock;

/// What files a writer makes: when a new one begins, how they are called, and how many are kept.
///
/// A file is called PREFIX.NUMBER.DATE.SUFFIX, as app.0000000007.2026-11-30.log. Its number has ten
/// digits and goes up by one from file to file, so that the names sort by age.
#[derive(Clone, Copy)]
pub struct Builder<'a> {
    rotation: Rotation,
    prefix: &'a str,
    suffix: &'a str,
    max_log_files: Option<usize>,
}

impl<'a> Builder<'a> {
    /// A file that no other follows while the writer lives, called by its number and its date alone.
    pub fn new() -> Builder<'a>
        ensures daily { (settings_asked result).rotation.daily ≡ false }
        ensures most { (settings_asked result).rotation.max_bytes ≡ 2 ^ 64 - 1 }
        ensures kept { (settings_asked result).kept ≡ None }
        ensures names { ((settings_asked result).front ≡ []) × ((settings_asked result).back ≡ []) }
    {
        Builder {
            rotation: Rotation::NEVER,
            prefix: "",
            suffix: "",
            max_log_files: None,
        }
    }

    /// When a new file begins.
    pub fn rotation(self, rotation: Rotation) -> Builder<'a>
        ensures { settings_asked result
            ≡ record (settings_asked self.entry) { rotation = rotation } }
    {
        Builder { rotation, ..self }
    }

    /// What stands before a file's number, and a dot behind that if there is any.
    pub fn filename_prefix(self, prefix: &'a str) -> Builder<'a>
        ensures { settings_asked result
            ≡ record (settings_asked self.entry) { front = before_number prefix.now } }
    {
        Builder { prefix, ..self }
    }

    /// What stands behind a file's date, and a dot before that if there is any.
    pub fn filename_suffix(self, suffix: &'a str) -> Builder<'a>
        ensures { settings_asked result
            ≡ record (settings_asked self.entry) { back = behind_date suffix.now } }
    {
        Builder { suffix, ..self }
    }

    /// How many files are kept: where a new one follows another, older ones are removed. The first
    /// file of a writer removes none.
    pub fn max_log_files(self, files: usize) -> Builder<'a>
        requires { 0 < files }
        ensures { settings_asked result
            ≡ record (settings_asked self.entry) { kept = Some files } }
    {
        Builder {
            max_log_files: Some(files),
            ..self
        }
    }

    /// A writer of files in a directory, which is made where it is missing.
    ///
    /// It goes on with the newest file there if that is of today, and else begins the next.
    pub fn build<R: Files + AllocGlobal + Clone + Drop, C: Clock + Drop>(
        self,
        rt: R,
        clock: C,
        directory: &str,
    ) -> io::Result<RollingFileAppender<R, C>>
        ensures settings { IfOk result (λ writer. settings_of writer ≡ settings_asked self.entry) }
        ensures whole { IfOk result (λ writer. IsTrue (place_of writer).whole) }
    {
        fs::create_dir_all(&rt, directory)?;
        let files = Directory::new(rt.alloc(), directory, self.prefix, self.suffix)?;
        let today = today_of(&clock)?;
        let number = first_number(&rt, &files, today)?;
        let name = files.name(rt.alloc(), number, today)?;
        let (file, size) = files.open(&rt, rt.alloc(), name.as_str(), false)?;
        Ok(RollingFileAppender {
            rt,
            clock,
            files,
            rotation: self.rotation,
            max_log_files: self.max_log_files,
            place: Place {
                number,
                day: today,
                size,
                whole: true,
            },
            file,
        })
    }
}

/// A writer of files that begins a new one by size and by day, and removes older ones.
///
/// A write fails where a file can't be made, written or removed, and has then written nothing; the
/// next one tries again, but for a removal, which waits for the next new file. Stands for
/// `tracing_appender::rolling::RollingFileAppender`.
pub struct RollingFileAppender<R: Files, C: Clock> {
    rt: R,
    clock: C,
    files: Directory,
    rotation: Rotation,
    max_log_files: Option<usize>,
    place: Place,
    file: R::File,
}

impl<R: Files + Drop, C: Clock + Drop> Drop for RollingFileAppender<R, C> {
    fn drop(self) {
        let RollingFileAppender {
            rt,
            clock,
            files,
            rotation: _,
            max_log_files: _,
            place: _,
            file,
        } = self;
    }
}

impl<R: Files + AllocGlobal + Clone + Drop, C: Clock> RollingFileAppender<R, C> {
    /// Which file is written to, and how far.
    pub fn place(&self) -> Place
        ensures { result ≡ place_of self.now }
    {
        self.place
    }

    /// Writes of a text at most what goes into one file, and says how many bytes it wrote, from the
    /// text's front.
    pub fn put(&mut self, text: &[u8]) -> io::Result<usize>
        ensures within { IfOk result (λ count. count ≤ length text.now) }
        ensures none { text.now ≡ [] → place_of self.new ≡ place_of self.old }
        ensures some { text.now ≢ [] → IfOk result (λ count. GoesTo (settings_of self.old).rotation
            (place_of self.old) text.now count (place_of self.new)) }
        ensures bytes { (place_of self.new).number ≡ (place_of self.old).number
            → IfOk result (λ count. Appends (R.File.contents (file_of self.old))
            (R.File.contents (file_of self.new)) (take count text.now)) }
        ensures err { OnErr result (MayHaveBegun (place_of self.old) (place_of self.new)) }
        ensures settings { settings_of self.new ≡ settings_of self.old }
    {
        if text.is_empty() {
            return Ok(0);
        }
        let today = today_of(&self.clock)?;
        self.roll(today, text)?;
        self.write_share(text)
    }

    /// Begins the next file where a text does.
    fn roll(&mut self, today: u64, text: &[u8]) -> io::Result<()>
        ensures ok { OnOk result (Chooses (settings_of self.old).rotation (place_of self.old) today
            text.now (place_of self.new)) }
        ensures err { OnErr result (MayHaveBegun (place_of self.old) (place_of self.new)) }
        ensures file { (place_of self.new).number ≡ (place_of self.old).number
            → file_of self.new ≡ file_of self.old }
        ensures settings { settings_of self.new ≡ settings_of self.old }
    {
        if rolls(&self.rotation, &self.place, today, text) {
            self.begin(today)
        } else {
            Ok(())
        }
    }

    /// Writes to the present file what goes there of a text.
    fn write_share(&mut self, text: &[u8]) -> io::Result<usize>
        ensures within { IfOk result (λ count. count ≤ length text.now) }
        ensures ok { IfOk result (λ count. Reaches (settings_of self.old).rotation
            (place_of self.old) text.now count (place_of self.new)) }
        ensures bytes { IfOk result (λ count. Appends (R.File.contents (file_of self.old))
            (R.File.contents (file_of self.new)) (take count text.now)) }
        ensures err { OnErr result (place_of self.new ≡ place_of self.old) }
        ensures settings { settings_of self.new ≡ settings_of self.old }
    {
        let (size, _most) = (self.place.size, self.rotation.max_bytes); // Both are a `u64`.
        let count = share(&self.rotation, size, text);
        let written = self.file.write(&text[..count])?;
        self.place = written_place(&self.place, &text[..written]);
        Ok(written)
    }

    /// Begins the next file, and removes the old ones.
    fn begin(&mut self, today: u64) -> io::Result<()>
        ensures ok { OnOk result (place_of self.new ≡ next_after (place_of self.old) today) }
        ensures err { OnErr result (MayHaveBegun (place_of self.old) (place_of self.new)) }
        ensures file { (place_of self.new).number ≡ (place_of self.old).number
            → file_of self.new ≡ file_of self.old }
        ensures settings { settings_of self.new ≡ settings_of self.old }
    {
        if self.place.number == u32::MAX {
            return Err(Error::new(ErrorKind::StorageFull, "no number is left for a file"));
        }
        let place = next_place(&self.place, today);
        let alloc = self.rt.alloc();
        let name = self.files.name(alloc, place.number, today)?;
        let (file, _) = self.files.open(&self.rt, alloc, name.as_str(), true)?;
        self.file = file;
        self.place = place;
        match self.max_log_files {
            Some(files) => self.files.remove_old(&self.rt, files),
            None => Ok(()),
        }
    }
}

impl<R: Files + AllocGlobal + Clone + Drop, C: Clock> Write for RollingFileAppender<R, C> {
    fn write(&mut self, buf: &[u8]) -> io::Result<usize> {
        self.put(buf)
    }

    fn flush(&mut self) -> io::Result<()> {
        self.file.flush()
    }
}

/// The day that a clock shows, counted from 1970-01-01.
fn today_of<C: Clock>(clock: &C) -> io::Result<u64> {
    Ok(clock.since_1970()?.as_secs() / 86_400)
}

/// The number of the file with which a writer begins: the newest one's if that is of today, and
/// else the next.
fn first_number<R: Files + AllocGlobal + Clone + Drop>(
    rt: &R,
    files: &Directory,
    today: u64,
) -> io::Result<u32> {
    let mut names = files.names(rt)?;
    names.sort()?;
    let Some(newest) = names.last() else {
        return Ok(0);
    };
    let Some(number) = files.number(rt.alloc(), newest.as_str())? else {
        return Ok(0);
    };
    let name = files.name(rt.alloc(), number, today)?;
    if newest.as_str() == name.as_str() {
        return Ok(number);
    }
    match number.checked_add(1) {
        Some(next) => Ok(next),
        None => Err(Error::new(ErrorKind::StorageFull, "no number is left for a file")),
    }
}
