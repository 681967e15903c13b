//! Which files are removed.
ghost use Rattle.std.specs.Prelude.{IfOk, List, String};
ghost use Rattle.span_appender.specs.Old.{AreOld};

use std::alloc::AllocError;

/// Of these names all but the greatest, of which so many are left out.
pub fn old_names(names: Vec<String>, keep: usize) -> Result<Vec<String>, AllocError>
    ensures { IfOk result (λ old. AreOld keep names.items old.items) }
{
    let mut names = names;
    names.sort()?;
    let old = names.len().saturating_sub(keep);
    names.truncate(old);
    Ok(names)
}
