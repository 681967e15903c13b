//! A script, where a signature doesn't name one.
ghost use Rattle.std.specs.Prelude.{◌≡◌};
ghost use Rattle.span_script.specs.declared.script.Script.{Script as ScriptState};

use crate::script::Script;

/// What is a script.
pub(crate) trait Scripted<'a> {
    /// The script that it is.
    ghost held: { Self → ScriptState };

    /// The script that it is.
    fn script(&self) -> &Script<'a>
        ensures { result.now ≡ held self.now };
}

impl<'a> Scripted<'a> for Script<'a> {
    ghost held = { λ script. script };

    fn script(&self) -> &Script<'a> {
        self
    }
}
