//! A folder for a test, and a clock that is set.
use std::alloc::Global;
use std::sync::Arc;
use std::sync::atomic::{AtomicU64, Ordering};
use std::time::{Clock, Duration};
use std::{env, fs, io, process};

/// An empty folder of a test's own.
pub(crate) fn fresh(rt: &HostRuntime, test: &str) -> io::Result<String> {
    let alloc = rt.alloc();
    let parent = env::temp_dir(rt)?;
    let id = process::id(rt.process());
    let path = format!(in alloc; "{}/span_appender-{id}-{test}", parent.as_str())?;
    fs::create_dir_all(rt, path.as_str())?;
    fs::remove_dir_all(rt, path.as_str())?;
    fs::create_dir_all(rt, path.as_str())?;
    Ok(path)
}

/// The names and texts of a folder's files, in order, with a space between them.
pub(crate) fn listed(rt: &HostRuntime, path: &str) -> io::Result<String> {
    let mut names = Vec::new(rt.alloc());
    for entry in fs::read_dir(rt, path)? {
        names.push(String::from_str(rt.alloc(), entry?.file_name())?)?;
    }
    names.sort()?;
    let mut all = String::new(rt.alloc());
    for name in &names {
        let file = format!(in rt.alloc(); "{path}/{name}")?;
        let text = fs::read_to_string(rt, file.as_str())?;
        let line = format!(in rt.alloc(); "{name}: {text}")?;
        all.push_str(line.as_str())?;
    }
    Ok(all)
}

/// A clock that shows the second to which it is set.
#[derive(Drop)]
pub(crate) struct SetClock {
    second: Arc<AtomicU64, Global>,
}

impl SetClock {
    pub(crate) fn new(second: &Arc<AtomicU64, Global>) -> io::Result<SetClock> {
        Ok(SetClock {
            second: Arc::try_clone(second)?,
        })
    }
}

impl Clock for SetClock {
    fn monotonic(&self) -> io::Result<Duration> {
        self.since_1970()
    }

    fn since_1970(&self) -> io::Result<Duration> {
        Ok(Duration::from_secs(self.second.load(Ordering::SeqCst)))
    }
}
