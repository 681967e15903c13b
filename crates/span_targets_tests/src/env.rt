//! Tests of filters from environment variables, with an environment of one variable.

use span_core::LevelFilter;
use span_targets::{EnvFilter, FromEnvError, Targets};
use std::alloc::Global;
use std::env::{FillError, VarError};
use std::rt::Env;
use std::test::Fail;

/// An environment in which `RUST_LOG` has this value, and no other variable is set.
#[derive(Drop)]
struct OneVariable<'a> {
    alloc: Global,
    value: &'a [u8],
}

impl Alloc for OneVariable<'_> {
    type A = Global;

    fn alloc(&self) -> Global {
        self.alloc
    }
}

impl Env for OneVariable<'_> {
    fn arg(&self, _i: usize, _buf: &mut [u8]) -> Result<usize, FillError> {
        Err(FillError::NotPresent)
    }

    fn var(&self, name: &str, buf: &mut [u8]) -> Result<usize, FillError> {
        if name != "RUST_LOG" {
            return Err(FillError::NotPresent);
        }
        let len = self.value.len();
        if len > buf.len() {
            return Err(FillError::TooLong);
        }
        buf[..len].copy_from_slice(self.value);
        Ok(len)
    }

    fn var_at(&self, _i: usize, _buf: &mut [u8]) -> Result<usize, FillError> {
        Err(FillError::NotPresent)
    }
}

#[test]
fn a_variable_is_read(rt: HostRuntime) -> Result<(), Fail> {
    let env = OneVariable {
        alloc: rt.alloc(),
        value: b"warn,db=debug",
    };
    let targets = Targets::from_env(&env, "RUST_LOG")?;
    assert!(rt; targets.default_level() == Some(LevelFilter::WARN));
    assert!(rt; targets.max_level() == LevelFilter::DEBUG);
    let unset = Targets::from_env(&env, "OTHER")?;
    assert!(rt; unset.default_level() == Some(LevelFilter::ERROR));
    assert!(rt; unset.max_level() == LevelFilter::ERROR);
    Ok(())
}

#[test]
fn a_variable_that_is_no_text(rt: HostRuntime) -> Result<(), Fail> {
    let env = OneVariable {
        alloc: rt.alloc(),
        value: b"[job\xff]=info",
    };
    let refused = match Targets::from_env(&env, "RUST_LOG") {
        Err(FromEnvError::Env(VarError::NotUnicode)) => true,
        _ => false,
    };
    assert!(rt; refused);
    let refused = match EnvFilter::from_env(&env, "RUST_LOG") {
        Err(FromEnvError::Env(VarError::NotUnicode)) => true,
        _ => false,
    };
    assert!(rt; refused);
    Ok(())
}

#[test]
fn a_variable_that_names_spans(rt: HostRuntime) -> Result<(), Fail> {
    let env = OneVariable {
        alloc: rt.alloc(),
        value: b"warn,[job]=debug",
    };
    let filter = EnvFilter::from_env(&env, "RUST_LOG")?;
    assert!(rt; filter.targets().default_level() == Some(LevelFilter::WARN));
    assert!(rt; filter.spans().len() == 1);
    let unset = EnvFilter::from_env(&env, "OTHER")?;
    assert!(rt; unset.targets().default_level() == Some(LevelFilter::ERROR));
    assert!(rt; unset.spans().is_empty());
    Ok(())
}
