//! A program to begin with. Two threads count the words of texts, and trace that through one
//! receiver, which writes a line for each event that `RUST_LOG` lets by to standard error as it
//! comes. With an argument, such as `warn`, they count once more, and what it says passes then.
#![tactic(auto)]

ghost use Rattle.span_store.specs.Store.{IsFresh};

use anyhow::Context;
use span_core::TraceError;
use span_dispatch::Dispatch;
use span_fmt::Stream;
use span_format::{Format, Layout};
use span_layers::Observer;
use span_registry::{Registry, Subscriber};
use span_stacks::{LayerExt, SubscriberExt};
use span_stream::{Stamped, TimeStyle, Utc};
use span_targets::Setting;
use span_tracer::{Receiver, Tracer, info, info_span, warn};
use std::alloc::Global;
use std::env::VarError;
use std::sync::Wait;
use std::thread::Threads;
use std::{env, thread};

/// The texts of the first thread.
const QUESTIONS: [&str; 3] = ["to be or not to be", "", "that is the question"];

/// The texts of the second.
const ANSWERS: [&str; 2] = ["the rest is silence", "words words words"];

fn main(rt: HostRuntime) -> anyhow::Result<()> {
    let alloc = rt.alloc();
    let lines = Format::new(alloc, Layout::Full).with_lanes(true);
    let lines = Stamped::new(alloc, lines, Utc::new(rt.clone()?), TimeStyle::Utc);
    let asked = match env::var(&rt, "RUST_LOG") {
        Err(VarError::NotPresent) => String::from_str(alloc, "info")?,
        asked => asked?,
    };
    let filter = Setting::parse(alloc, asked.as_str())?;
    let layer = Observer::new(Stream::new(lines, rt.stderr())).with_filter(filter);
    let stack = Registry::new(alloc).with(layer)?;
    let later = env::args(&rt)?.nth(1);
    println!(rt; "{} words", count_once_or_twice(&rt, alloc, stack, later)?)?;
    Ok(())
}

/// Counts the words of all texts, and once more if a text says what passes later.
fn count_once_or_twice<S, R>(
    rt: &R,
    alloc: Global,
    stack: S,
    later: Option<String>,
) -> anyhow::Result<usize>
where
    S: Subscriber + Send + Drop,
    R: Threads + Wait + Sync,
    requires usable { S.usable stack }
    requires fresh { IsFresh (S.registry stack) }
{
    let receiver = Receiver::new(alloc, Dispatch::new(alloc, stack));
    let words = count_in_two_threads(rt, &receiver)?;
    let Some(later) = later else {
        return Ok(words);
    };
    let setting = Setting::parse(alloc, later.as_str())?;
    receiver.tracer(rt)?.reload(0, setting)?;
    Ok(words.saturating_add(count_in_two_threads(rt, &receiver)?))
}

/// Counts the words of all texts, in two threads that trace through one receiver.
fn count_in_two_threads<S, R>(rt: &R, receiver: &Receiver<S>) -> anyhow::Result<usize>
where
    S: Subscriber + Send,
    R: Threads + Wait + Sync,
{
    let (here, there) = (receiver.tracer(rt)?, receiver.tracer(rt)?);
    let (answers, questions) = thread::join(
        rt,
        move || count_all(there, &ANSWERS),
        move || count_all(here, &QUESTIONS),
    );
    Ok(questions?.saturating_add(answers?))
}

/// How many words these texts have. A text without words is warned of.
fn count_all<R: Wait, S: Subscriber>(
    tracer: Tracer<'_, R, S>,
    texts: &[&str],
) -> Result<usize, TraceError> {
    let _span = info_span!(tracer; "count all", texts = texts.len())?.entered()?;
    let mut all = 0usize;
    for text in texts {
        match count(tracer, text) {
            Ok(words) => all = all.saturating_add(words),
            Err(error) => {
                warn!(tracer; %error, "skipped")?;
            }
        }
    }
    Ok(all)
}

/// How many words a text has, within a span: its guard leaves that on every way out.
fn count<R: Wait, S: Subscriber>(tracer: Tracer<'_, R, S>, text: &str) -> anyhow::Result<usize> {
    let _span = info_span!(tracer; "count", bytes = text.len())?.entered()?;
    let first = text.split_whitespace().next().context("no words")?;
    let words = text.split_whitespace().count();
    info!(tracer; words, first, "counted")?;
    Ok(words)
}
