//! Calls of a lane's stack.

use crate::call::StackCall;
use crate::fault::Fault;
use crate::shown::{write_answer, write_start};
use crate::site::nth;
use span_dispatch::Answer;
use span_registry::SpanStack;
use std::alloc::Global;
use std::io::Write;

/// Makes a call of a stack with four spans, where each list of them is full, and writes what it
/// shows without the call and after it.
pub(crate) fn make<W: Write>(alloc: Global, writer: &mut W, call: StackCall) -> Result<(), Fault> {
    let mut stack = SpanStack::new(alloc);
    for number in 1..=4 {
        stack.push(nth(number))?;
    }
    write_stack(writer, &stack)?;
    write_start(writer)?;
    let ended = called(&mut stack, call);
    write_answer(writer, ended)?;
    write_stack(writer, &stack)
}

/// How a call ends.
fn called(stack: &mut SpanStack, call: StackCall) -> Answer {
    match call {
        StackCall::Push => Answer::of_done(stack.push(nth(5))),
        StackCall::PushAgain => Answer::of_done(stack.push(nth(2))),
        StackCall::Pop => Answer::Yes(stack.pop(nth(2))),
    }
}

/// Writes what a stack shows.
fn write_stack<W: Write>(writer: &mut W, stack: &SpanStack) -> Result<(), Fault> {
    for id in stack.iter() {
        writeln!(writer, "in {}", id.into_u64())?;
    }
    writeln!(writer, "current {:?}", stack.current())?;
    Ok(())
}
