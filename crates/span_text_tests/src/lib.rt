//! Tests of trees, lines, streams and their forms, from outside.
#![tactic(auto)]

#[cfg(test)]
mod fixture;
#[cfg(test)]
mod format;
#[cfg(test)]
mod stamp;
#[cfg(test)]
mod stream;
#[cfg(test)]
mod text;
#[cfg(test)]
mod tree;
