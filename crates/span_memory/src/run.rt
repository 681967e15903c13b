//! From lines to calls.

use crate::call::{Call, RegistryCall};
use crate::fault::Fault;
use crate::tried::{Stack, Tried};
use crate::{attach, dispatcher, filter, lane_stack, registry, reserved, shared, veto};
use std::alloc::Global;
use std::io::{Read, Write};
use std::sync::Wait;

/// Makes the call that each line names.
pub(crate) fn run<H: Wait, R: Read, W: Write>(
    rt: &H,
    alloc: Global,
    reader: &mut R,
    writer: &mut W,
) -> Result<(), Fault> {
    let mut text = String::new(alloc);
    reader.read_to_string(&mut text)?;
    for line in text.lines() {
        let Some(call) = Call::of(line) else {
            return Err(Fault::Line);
        };
        writeln!(writer, "== {line}")?;
        make::<Stack, H, W>(rt, alloc, writer, call)?;
    }
    Ok(())
}

/// Makes a call; one of a dispatcher on a stack of this type.
fn make<S: Tried, H: Wait, W: Write>(
    rt: &H,
    alloc: Global,
    writer: &mut W,
    call: Call,
) -> Result<(), Fault> {
    match call {
        Call::Stack(call) => lane_stack::make(alloc, writer, call),
        Call::Registry(RegistryCall::CloseChain) => registry::close_chain(alloc, writer),
        Call::Registry(call) => registry::make(alloc, writer, call),
        Call::Clone(kind) => filter::make(alloc, writer, kind),
        Call::Attach(call) => attach::make(alloc, writer, call),
        Call::Dispatcher(state, request) => {
            dispatcher::make::<S, W>(alloc, writer, state, request)
        }
        Call::Serve => dispatcher::serve::<S, W>(alloc, writer),
        Call::ServeReserved => reserved::serve(alloc, writer),
        Call::ReserveCallsites => dispatcher::reserve::<S, W>(alloc, writer),
        Call::Record => dispatcher::record::<S, W>(alloc, writer),
        Call::Veto(request) => veto::make(alloc, writer, request),
        Call::Share => shared::share::<S, W>(alloc, writer),
        Call::Shared(request) => shared::make::<S, W>(rt, alloc, writer, request),
    }
}
