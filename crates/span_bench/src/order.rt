//! What a line of four words asks for: rounds of one thread on a stack.
ghost use Rattle.std.specs.Io.{StartsWith};
ghost use Rattle.std.specs.Prelude.{IfSome};
ghost use Rattle.span_bench.specs.Order.{prefix_of};
ghost use Rattle.span_bench.specs.Workload.{name_of};

use crate::workload::Workload;

/// What a round is done on.
#[derive(Clone, Copy, Debug, PartialEq, Eq)]
pub enum Stack {
    /// One layer that does nothing.
    Plain,
    /// A list of so many layers that count, each under a filter.
    Filters(u32),
    /// A list of so many layers that count.
    List(u32),
    /// So many layers that count, each pair made one by `and_then`.
    Nested(u32),
    /// One layer that keeps a number with each span.
    Keeper,
    /// One layer that counts, under a filter of so many directives.
    Directives(u32),
}

impl Stack {
    /// The stack that is named so.
    pub fn of(name: &str) -> Option<Stack>
        ensures { IfSome result (λ stack. StartsWith name.now (prefix_of stack)) }
    {
        match name {
            "plain" => return Some(Stack::Plain),
            "keeper" => return Some(Stack::Keeper),
            _ => {}
        }
        if let Some(layers) = name.strip_prefix("filters=") {
            return Some(Stack::Filters(layers.parse::<u32>().ok()?));
        }
        if let Some(layers) = name.strip_prefix("list=") {
            return Some(Stack::List(layers.parse::<u32>().ok()?));
        }
        if let Some(layers) = name.strip_prefix("nested=") {
            return Some(Stack::Nested(layers.parse::<u32>().ok()?));
        }
        let directives = name.strip_prefix("directives=")?;
        Some(Stack::Directives(directives.parse::<u32>().ok()?))
    }
}

/// Some rounds of a workload on a stack.
#[derive(Clone, Copy, Debug, PartialEq, Eq)]
pub struct Order {
    /// The workload.
    pub workload: Workload,
    /// The stack.
    pub stack: Stack,
    /// How many callsites, lanes or spans there are, as the workload says.
    pub size: u32,
    /// How many rounds.
    pub rounds: u32,
}

impl Order {
    /// What a line asks for, if it is a workload's name, a stack's and two numbers with one space
    /// between.
    pub fn of(line: &str) -> Option<Order>
        ensures { IfSome result (λ order. StartsWith line.now (name_of order.workload)) }
    {
        let (workload, rest) = line.split_once(' ')?;
        let (stack, numbers) = rest.split_once(' ')?;
        let (size, rounds) = numbers.split_once(' ')?;
        Some(Order {
            workload: Workload::of(workload)?,
            stack: Stack::of(stack)?,
            size: size.parse::<u32>().ok()?,
            rounds: rounds.parse::<u32>().ok()?,
        })
    }
}
