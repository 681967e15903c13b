//! Filters from an environment variable.
ghost use Rattle.span_targets.specs.EnvText.{EnvReadsSomeText};
ghost use Rattle.span_targets.specs.Text.{ReadsSomeText};

use crate::env_filter::EnvFilter;
use crate::error::FromEnvError;
use crate::targets::Targets;
use std::alloc::AllocGlobal;
use std::env;
use std::env::VarError;
use std::rt::Env;

impl Targets {
    /// Reads the environment variable of this name, such as `RUST_LOG`; one that isn't set is as an
    /// empty one, by which errors pass.
    ///
    /// Own to this port: in the crate `EnvFilter` alone reads a variable.
    pub fn from_env<R: Env + AllocGlobal>(rt: &R, name: &str) -> Result<Targets, FromEnvError>
        ensures { ReadsSomeText result }
    {
        let text = match read_variable(rt, name) {
            Ok(text) => text,
            Err(error) => return Err(FromEnvError::Env(error)),
        };
        Targets::parse(rt.alloc(), text.as_str()).map_err(FromEnvError::Parse)
    }
}

impl EnvFilter {
    /// Reads the environment variable of this name, such as `RUST_LOG`; one that isn't set is as an
    /// empty one, by which errors pass.
    ///
    /// Stands for `tracing_subscriber::filter::EnvFilter::try_from_env`, which refuses a variable
    /// that isn't set.
    pub fn from_env<R: Env + AllocGlobal>(rt: &R, name: &str) -> Result<EnvFilter, FromEnvError>
        ensures { EnvReadsSomeText result }
    {
        let text = match read_variable(rt, name) {
            Ok(text) => text,
            Err(error) => return Err(FromEnvError::Env(error)),
        };
        EnvFilter::parse(rt.alloc(), text.as_str()).map_err(FromEnvError::Parse)
    }
}

/// The text of an environment variable; of one that isn't set, the empty one.
fn read_variable<R: Env + AllocGlobal>(rt: &R, name: &str) -> Result<String, VarError> {
    match env::var(rt, name) {
        Err(VarError::NotPresent) => Ok(String::new(rt.alloc())),
        read => read,
    }
}
