//! The line of an event in JSON.
ghost use Rattle.std.specs.Prelude.{◌≡◌, ℕ, List, IfOk, map, reverse, string_bytes};
ghost use Rattle.serde_json.specs.View.{view};
ghost use Rattle.span_fmt.specs.Lane.{names_in};
ghost use Rattle.span_fmt.specs.Tree.{given};
ghost use Rattle.span_registry.specs.Context.{view_lent};
ghost use Rattle.span_stream.specs.Json.{IsLineOf, event_object, reference_object};
ghost use Rattle.span_stream.specs.Members.{AreFlat, members_kept};
ghost use Rattle.span_stream.specs.Time.{IsTimeText};

use crate::inert::made_inert;
use crate::members::Members;
use crate::object::{event_object, span_object};
use crate::time::{TimeStyle, write_time};
use serde_json::Value;
use span_core::Event;
use span_fmt::LaneNames;
use span_registry::{ContextMut, LookupSpan, Scope, Subscriber};
use std::alloc::{AllocError, Global};

/// The line of an event at a time in what a hook sees.
pub(crate) fn json_line<S: Subscriber>(
    alloc: Global,
    style: TimeStyle,
    time: u64,
    event: &Event<'_>,
    members: &Members,
    names: &LaneNames,
    ctx: &ContextMut<'_, S>,
) -> Result<String, AllocError>
    requires { AreFlat (members_kept members.now) }
    ensures { IfOk result (λ line. (stamp : List ℕ) × IsTimeText style time stamp
        × IsLineOf (event_object stamp event.now (view_lent S.registry ctx.now)
        (members_kept members.now) (names_in names.now)) (string_bytes line)) }
{
    let mut stamp = String::new(alloc);
    write_time(&mut stamp, style, time)?;
    line_with(alloc, stamp, event, members, names, ctx)
}

/// The line of an event, with the text of its time, in what a hook sees.
fn line_with<S: Subscriber>(
    alloc: Global,
    stamp: String,
    event: &Event<'_>,
    members: &Members,
    names: &LaneNames,
    ctx: &ContextMut<'_, S>,
) -> Result<String, AllocError>
    requires { AreFlat (members_kept members.now) }
    ensures { IfOk result (λ line. IsLineOf
        (event_object (string_bytes stamp) event.now (view_lent S.registry ctx.now)
        (members_kept members.now) (names_in names.now)) (string_bytes line)) }
{
    let look = ctx.ctx();
    let spans = spans_around(alloc, look.event_scope(event), members)?;
    let lane = ctx.lane();
    let object = event_object(alloc, stamp, event, lane, names.name(lane), spans)?;
    let json = object.to_string(alloc)?;
    let mut line = made_inert(alloc, json)?;
    line.push_str("\n")?;
    Ok(line)
}

/// The spans of a scope from the root on, each an object.
fn spans_around<S: LookupSpan>(
    alloc: Global,
    spans: Option<Scope<'_, S>>,
    members: &Members,
) -> Result<Vec<Value>, AllocError>
    ensures { IfOk result (λ objects. map view objects.items
        ≡ map (reference_object (members_kept members.now))
        (reverse (given S.registry spans.entry))) }
{
    let mut objects = Vec::new(alloc);
    let Some(spans) = spans else {
        return Ok(objects);
    };
    let Ok(spans) = spans.from_root(alloc) else {
        return Err(AllocError);
    };
    for span in spans {
        let values = members.of(alloc, span.id())?;
        objects.push(span_object(alloc, span.name(), values)?)?;
    }
    Ok(objects)
}
