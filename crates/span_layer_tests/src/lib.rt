//! Tests of requests' values, of the store, of filters, layers and boxes, from outside: each is
//! also a caller of their contracts. What is public, tests of dispatchers use too.
#![tactic(auto)]

#[cfg(test)]
mod boxed;
#[cfg(test)]
mod boxed_filter;
#[cfg(test)]
mod combinator;
#[cfg(test)]
mod context;
#[cfg(test)]
mod extension;
#[cfg(test)]
mod filter;
#[cfg(test)]
mod filter_level;
pub mod fixture;
#[cfg(test)]
mod hook;
#[cfg(test)]
mod lane_stack;
#[cfg(test)]
mod layer;
#[cfg(test)]
mod level;
#[cfg(test)]
mod limit;
#[cfg(test)]
mod list;
#[cfg(test)]
mod lookup;
#[cfg(test)]
mod marker;
#[cfg(test)]
mod metadata;
#[cfg(test)]
mod optional;
#[cfg(test)]
mod order;
#[cfg(test)]
mod place;
#[cfg(test)]
mod registry;
#[cfg(test)]
mod reserve;
#[cfg(test)]
mod signer;
#[cfg(test)]
mod stack;
#[cfg(test)]
mod store_fixture;
#[cfg(test)]
mod subscriber;
#[cfg(test)]
mod unknown_span;
#[cfg(test)]
mod value;
#[cfg(test)]
mod veto;
pub mod watcher;
