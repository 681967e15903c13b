//! Tests of what stands above the dispatcher, from outside: of examples for callers, of layers of
//! many kinds in one receiver, of scripts, of macros, and of what layers write, export and log.
//! Each is also a caller of their contracts.
#![tactic(auto)]

#[cfg(test)]
mod crew;
#[cfg(test)]
mod export;
#[cfg(test)]
mod fixture;
#[cfg(test)]
mod folded;
#[cfg(test)]
mod guard;
#[cfg(test)]
mod hostile;
#[cfg(test)]
mod law;
#[cfg(test)]
mod logger;
#[cfg(test)]
mod long_list;
#[cfg(test)]
mod macros;
#[cfg(test)]
mod otlp;
#[cfg(test)]
mod point;
#[cfg(test)]
mod question;
#[cfg(test)]
mod receiver;
#[cfg(test)]
mod row;
#[cfg(test)]
mod run;
#[cfg(test)]
mod script;
#[cfg(test)]
mod sender;
#[cfg(test)]
mod times;
#[cfg(test)]
mod timing;
#[cfg(test)]
mod trace_parent;
