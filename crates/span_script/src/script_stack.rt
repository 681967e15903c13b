//! What is printed of the stacks that scripts name.
ghost use Rattle.std.specs.Prelude.{◌≡◌, ◌∷◌, [], ℕ, List, IfErr, IfOk, codes, false, map, refl};
ghost use Rattle.std.specs.Prelude.{string_bytes};
ghost use Rattle.span_dispatch.specs.declared.recorded.Recorded.{Recorded};
ghost use Rattle.span_stacks.specs.Filtered.{layer_of};
ghost use Rattle.span_stacks.specs.Layered.{inner_of, outer_of};
ghost use Rattle.span_script.specs.Printed.{IsPrinted};
ghost use Rattle.span_script.specs.Script.{lines_of, recorders_of};
ghost use Rattle.span_script.specs.declared.stack_name.StackName.{StackName};
ghost use Rattle.span_script.specs.declared.stack_name.StackName.TheVariants as stack_name;

use crate::run_fault::RunFault;
use crate::script::Script;
use crate::stacks::{Absent, Directives, Nested, Pair, Plain, Veto, text_of_one, text_of_two};
use span_dispatch::Answer;
use std::alloc::Global;

/// A stack that scripts name.
pub(crate) trait ScriptStack {
    /// The name that scripts have for it.
    ghost name: { StackName };

    /// What its recorders kept, innermost first, each by its own name.
    ghost sections: { Self → List (List ℕ × List Recorded) };

    /// Memory was refused to none of its recorders.
    ghost whole: { Self → Type 0 };

    /// What is printed of these answers and of its recorders, unless memory was refused to one.
    fn text(
        &self,
        alloc: Global,
        script: &Script<'_>,
        answers: &[Answer],
    ) -> Result<String, RunFault>
        ensures printed { IfOk result (λ s.
            IsPrinted (lines_of script.now) answers.now (sections self.now) (string_bytes s)) }
        ensures whole { IfOk result (λ s. whole self.now) }
        ensures fault { IfErr result (λ fault. fault ≡ RunFault.Memory) };

    /// Its recorders have the names that are printed for a stack of its name.
    ghost named: { (x : Self) → map (λ one. one.0) (sections x) ≡ recorders_of name };
}

impl ScriptStack for Plain {
    ghost name = { stack_name.Plain };

    ghost sections = { λ x. (codes "base", (outer_of x).notices) ∷ [] };

    ghost whole = { λ x. (outer_of x).failed ≡ false };

    ghost named = { λ x. refl };

    fn text(
        &self,
        alloc: Global,
        script: &Script<'_>,
        answers: &[Answer],
    ) -> Result<String, RunFault> {
        text_of_one(alloc, script, answers, self.outer())
    }
}

impl ScriptStack for Pair {
    ghost name = { stack_name.Pair };

    ghost sections = { λ x.
        (codes "a", (layer_of (inner_of (outer_of x))).notices)
        ∷ (codes "b", (layer_of (outer_of (outer_of x))).notices) ∷ [] };

    ghost whole = { λ x.
        ((layer_of (inner_of (outer_of x))).failed ≡ false)
        × ((layer_of (outer_of (outer_of x))).failed ≡ false) };

    ghost named = { λ x. refl };

    fn text(
        &self,
        alloc: Global,
        script: &Script<'_>,
        answers: &[Answer],
    ) -> Result<String, RunFault> {
        let both = self.outer();
        let a = both.inner().layer();
        let b = both.outer().layer();
        text_of_two(alloc, script, answers, ("a", "b"), a, b)
    }
}

impl ScriptStack for Nested {
    ghost name = { stack_name.Nested };

    ghost sections = { λ x.
        (codes "base", (outer_of (inner_of x)).notices)
        ∷ (codes "deep", (layer_of (layer_of (outer_of x))).notices) ∷ [] };

    ghost whole = { λ x.
        ((outer_of (inner_of x)).failed ≡ false)
        × ((layer_of (layer_of (outer_of x))).failed ≡ false) };

    ghost named = { λ x. refl };

    fn text(
        &self,
        alloc: Global,
        script: &Script<'_>,
        answers: &[Answer],
    ) -> Result<String, RunFault> {
        let base = self.inner().outer();
        let deep = self.outer().layer().layer();
        text_of_two(alloc, script, answers, ("base", "deep"), base, deep)
    }
}

impl ScriptStack for Veto {
    ghost name = { stack_name.Veto };

    ghost sections = { λ x.
        (codes "base", (outer_of (inner_of (inner_of (inner_of x)))).notices)
        ∷ (codes "warn", (layer_of (outer_of (inner_of (inner_of x)))).notices) ∷ [] };

    ghost whole = { λ x.
        ((outer_of (inner_of (inner_of (inner_of x)))).failed ≡ false)
        × ((layer_of (outer_of (inner_of (inner_of x)))).failed ≡ false) };

    ghost named = { λ x. refl };

    fn text(
        &self,
        alloc: Global,
        script: &Script<'_>,
        answers: &[Answer],
    ) -> Result<String, RunFault> {
        let warned = self.inner().inner();
        let base = warned.inner().outer();
        let warn = warned.outer().layer();
        text_of_two(alloc, script, answers, ("base", "warn"), base, warn)
    }
}

impl ScriptStack for Absent {
    ghost name = { stack_name.Absent };

    ghost sections = { λ x. (codes "base", (outer_of x).notices) ∷ [] };

    ghost whole = { λ x. (outer_of x).failed ≡ false };

    ghost named = { λ x. refl };

    fn text(
        &self,
        alloc: Global,
        script: &Script<'_>,
        answers: &[Answer],
    ) -> Result<String, RunFault> {
        text_of_one(alloc, script, answers, self.outer())
    }
}

impl ScriptStack for Directives {
    ghost name = { stack_name.Directives };

    ghost sections = { λ x.
        (codes "base", (outer_of (inner_of x)).notices)
        ∷ (codes "chosen", (layer_of (outer_of x)).notices) ∷ [] };

    ghost whole = { λ x.
        ((outer_of (inner_of x)).failed ≡ false) × ((layer_of (outer_of x)).failed ≡ false) };

    ghost named = { λ x. refl };

    fn text(
        &self,
        alloc: Global,
        script: &Script<'_>,
        answers: &[Answer],
    ) -> Result<String, RunFault> {
        let base = self.inner().outer();
        let chosen = self.outer().layer();
        text_of_two(alloc, script, answers, ("base", "chosen"), base, chosen)
    }
}
