//! The layers that workloads run on.
ghost use Rattle.std.specs.Prelude.{◌≡◌, IfOk, vec_len};
ghost use Rattle.span_bench.specs.Counter.{AreNew, IsNew};
ghost use Rattle.span_stacks.specs.Filtered.{layer_of};
ghost use Rattle.span_stacks.specs.Layered.{inner_of, outer_of};

use crate::counter::Counter;
use crate::fault::Fault;
use span_core::LevelFilter;
use span_layers::Observer;
use span_stacks::{Filtered, LayerExt, Layered};
use span_targets::EnvFilter;
use std::alloc::Global;

/// A layer that counts.
pub type Counting = Observer<Counter>;

/// Two layers that count.
pub type Pair = Layered<Counting, Counting>;

/// A list of layers that count, each under a level. Each passes what the workloads make.
pub fn filtered(alloc: Global, count: u32) -> Result<Vec<Filtered<Counting, LevelFilter>>, Fault>
    ensures { IfOk result (λ layers. vec_len layers ≡ count) }
{
    let mut layers = Vec::new(alloc);
    for _ in 0..count {
        layers.push(counting().with_filter(LevelFilter::INFO))?;
    }
    Ok(layers)
}

/// A layer that counts, under a filter of directives for so many targets. The last lets by what
/// the workloads make.
pub fn directed(alloc: Global, count: u32) -> Result<Filtered<Counting, EnvFilter>, Fault>
    ensures { IfOk result (λ layer. IsNew (layer_of layer)) }
{
    let mut text = String::new(alloc);
    for number in 1..count {
        write!(text, "my_server::module_{number}=warn,")?;
    }
    text.push_str("my_server=info")?;
    match EnvFilter::parse(alloc, text.as_str()) {
        Ok(filter) => Ok(counting().with_filter(filter)),
        Err(_) => Err(Fault::Memory), // No directive is wrong.
    }
}

/// A list of layers that count.
pub fn listed(alloc: Global, count: u32) -> Result<Vec<Counting>, Fault>
    ensures { IfOk result (λ layers. vec_len layers ≡ count) }
{
    let mut layers = Vec::new(alloc);
    for _ in 0..count {
        layers.push(counting())?;
    }
    Ok(layers)
}

/// Four layers that count.
pub fn four() -> Layered<Pair, Pair>
    ensures inner { AreNew (inner_of result) }
    ensures outer { AreNew (outer_of result) }
{
    let two = counting().and_then(counting());
    two.and_then(counting().and_then(counting()))
}

/// A layer that counts.
pub fn counting() -> Counting
    ensures { IsNew result }
{
    Observer::new(Counter::new())
}
