//! The callsites: those of a table, whose names have 15 letters and whose targets 30, and the three
//! that threads use.
ghost use Rattle.std.specs.Prelude.{◌≡◌, IfOk, vec_len};
ghost use Rattle.span_core.specs.Metadata.{callsite_of, kind_of, level_of};

use crate::fault::Fault;
use span_core::{FieldSet, Kind, Level, Metadata};
use std::alloc::Global;

/// So many callsites of this kind, with the numbers from 0 on. Rounds take them in turn.
pub fn table(alloc: Global, kind: Kind, count: u32) -> Result<Vec<Metadata>, Fault>
    ensures { IfOk result (λ sites. vec_len sites ≡ count) }
{
    let mut sites = Vec::new(alloc);
    for number in 0..count {
        sites.push(site(number, kind))?;
    }
    Ok(sites)
}

/// The callsite with this number.
fn site(number: u32, kind: Kind) -> Metadata
    ensures callsite { callsite_of result ≡ number }
    ensures kind { kind_of result ≡ kind }
    ensures level { level_of result ≡ Level.INFO }
{
    Metadata::new(
        u64::from(number),
        name(number),
        target(number),
        Level::INFO,
        kind,
        FieldSet::new(&[]),
    )
}

/// One of eight names.
fn name(number: u32) -> &'static str {
    match number % 8 {
        0 => "read_one_header",
        1 => "parse_body_part",
        2 => "open_new_socket",
        3 => "close_a_channel",
        4 => "write_all_pages",
        5 => "check_the_token",
        6 => "send_last_reply",
        _ => "count_free_rows",
    }
}

/// One of eight targets.
fn target(number: u32) -> &'static str {
    match number / 8 % 8 {
        0 => "my_server::connection::headers",
        1 => "my_server::connection::sockets",
        2 => "my_server::documents::contents",
        3 => "my_server::documents::revision",
        4 => "my_server::storage::page_cache",
        5 => "my_server::storage::write_logs",
        6 => "my_server::sessions::passwords",
        _ => "my_server::sessions::deadlines",
    }
}

/// The callsite of all spans that threads open.
pub fn span() -> Metadata
    ensures kind { kind_of result ≡ Kind.SPAN }
    ensures level { level_of result ≡ Level.INFO }
{
    of_threads(0, "span", Level::INFO, Kind::SPAN)
}

/// The callsite of the events that the receiver's layer is told of.
pub fn event() -> Metadata
    ensures kind { kind_of result ≡ Kind.EVENT }
    ensures level { level_of result ≡ Level.INFO }
{
    of_threads(1, "event", Level::INFO, Kind::EVENT)
}

/// The callsite of the events that the receiver's hint rules out.
pub fn past_hint() -> Metadata
    ensures kind { kind_of result ≡ Kind.EVENT }
    ensures level { level_of result ≡ Level.DEBUG }
{
    of_threads(2, "detail", Level::DEBUG, Kind::EVENT)
}

/// A callsite that threads use. A table may have its number too: no dispatcher meets both.
fn of_threads(callsite: u64, name: &'static str, level: Level, kind: Kind) -> Metadata
    ensures callsite { callsite_of result ≡ callsite }
    ensures kind { kind_of result ≡ kind }
    ensures level { level_of result ≡ level }
{
    Metadata::new(callsite, name, "bench", level, kind, FieldSet::new(&[]))
}
