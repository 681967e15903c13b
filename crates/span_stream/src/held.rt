//! The values that are held of one span.
ghost use Rattle.std.specs.Prelude.{◌≡◌, [], ◌∷◌, IfErr, IfOk, OnErr, OnOk};
ghost use Rattle.serde_json.specs.Data.{Members, no_members};
ghost use Rattle.serde_json.specs.View.{members_view};
ghost use Rattle.span_stream.specs.Held.{members_held, with_waiting};
ghost use Rattle.span_stream.specs.Values.{with_value, with_values};

use crate::values::value_of;
use serde_json::{Map, Value, put};
use span_core::FieldValue;
use std::alloc::{AllocError, Global};

/// A span's values as members of an object, and beside it those that it was given last, which wait
/// to be moved there: the next record does that before its own are added. A record adds all of its
/// values or none.
#[derive(Drop)]
pub(crate) struct Held {
    settled: Map<String, Value>,
    /// Of these the last is moved first.
    waiting: Vec<(String, Value)>,
}

impl Held {
    /// These values alone.
    pub(crate) fn new(alloc: Global, waiting: Vec<(String, Value)>) -> Held
        ensures { members_held result ≡ with_waiting waiting.items no_members }
    {
        Held {
            settled: Map::new(alloc),
            waiting,
        }
    }

    /// A copy of the values.
    pub(crate) fn members(&self, alloc: Global) -> Result<Map<String, Value>, AllocError>
        ensures { IfOk result
            (λ members. members_view members.entries ≡ members_held self.now) }
    {
        let mut members = copy_of(alloc, &self.settled)?;
        put_waiting(&mut members, alloc, &self.waiting)?;
        Ok(members)
    }

    /// Adds values. Where memory is refused, none is added.
    pub(crate) fn add(&mut self, waiting: Vec<(String, Value)>) -> Result<(), AllocError>
        ensures added { OnOk result
            (members_held self.new ≡ with_waiting waiting.items (members_held self.old)) }
        ensures unchanged { OnErr result (members_held self.new ≡ members_held self.old) }
    {
        move_all(&mut self.settled, &mut self.waiting)?;
        self.waiting = waiting;
        Ok(())
    }
}

/// The members of an object, copied.
fn copy_of(alloc: Global, settled: &Map<String, Value>) -> Result<Map<String, Value>, AllocError>
    ensures { IfOk result
        (λ members. members_view members.entries ≡ members_view settled.now.entries) }
{
    let mut members = Map::new(alloc);
    for (name, value) in settled.iter() {
        put(&mut members, alloc, name.as_str(), value.clone()?)?;
    }
    Ok(members)
}

/// Puts copies of values that wait into an object.
fn put_waiting(
    members: &mut Map<String, Value>,
    alloc: Global,
    waiting: &[(String, Value)],
) -> Result<(), AllocError>
    ensures { OnOk result (members_view members.new.entries
        ≡ with_waiting waiting.now (members_view members.old.entries)) }
{
    for place in (0..waiting.len()).rev() {
        put_copy(members, alloc, &waiting[place])?;
    }
    Ok(())
}

/// Puts a copy of a named value into an object.
fn put_copy(
    members: &mut Map<String, Value>,
    alloc: Global,
    one: &(String, Value),
) -> Result<(), AllocError>
    ensures { OnOk result (members_view members.new.entries
        ≡ with_waiting (one.now ∷ []) (members_view members.old.entries)) }
{
    let value = one.1.clone()?;
    put(members, alloc, one.0.as_str(), value)
}

/// Moves values that wait into an object. Where memory is refused, the rest waits on.
fn move_all(
    settled: &mut Map<String, Value>,
    waiting: &mut Vec<(String, Value)>,
) -> Result<(), AllocError>
    ensures same { with_waiting waiting.new.items (members_view settled.new.entries)
        ≡ with_waiting waiting.old.items (members_view settled.old.entries) }
    ensures none { OnOk result (waiting.new.items ≡ []) }
{
    while let Some(one) = waiting.pop() {
        if let Err(back) = move_one(settled, one.0, one.1) {
            waiting.push_reserved(back);
            return Err(AllocError);
        }
    }
    Ok(())
}

/// Moves a named value into an object. Where memory is refused, it is handed back.
fn move_one(
    settled: &mut Map<String, Value>,
    name: String,
    value: Value,
) -> Result<(), (String, Value)>
    ensures moved { OnOk result (members_view settled.new.entries
        ≡ with_waiting ((name, value) ∷ []) (members_view settled.old.entries)) }
    ensures back { IfErr result (λ back. back ≡ (name, value)) }
    ensures unchanged { OnErr result (settled.new.entries ≡ settled.old.entries) }
{
    match settled.insert(name, value) {
        Ok(_) => Ok(()),
        Err(back) => Err(back.value),
    }
}

/// The values of those fields that have one, by their names.
pub(crate) fn waiting_of(
    alloc: Global,
    values: &[(&'static str, FieldValue<'_>)],
) -> Result<Vec<(String, Value)>, AllocError>
    ensures { IfOk result (λ waiting. (ms : Members)
        → with_waiting waiting.items ms ≡ with_values values.now ms) }
{
    let mut waiting = Vec::new(alloc);
    for place in (0..values.len()).rev() {
        let field = &values[place];
        add_value(&mut waiting, alloc, field.0, field.1)?;
    }
    Ok(waiting)
}

/// Adds a value by its name, if there is one.
fn add_value(
    waiting: &mut Vec<(String, Value)>,
    alloc: Global,
    name: &str,
    value: FieldValue<'_>,
) -> Result<(), AllocError>
    ensures { OnOk result ((ms : Members) → with_waiting waiting.new.items ms
        ≡ with_waiting waiting.old.items (with_value name.now value.entry ms)) }
{
    if value.is_absent() {
        return Ok(());
    }
    let value = value_of(alloc, value)?;
    let name = String::from_str(alloc, name)?;
    waiting.push((name, value))?;
    Ok(())
}
