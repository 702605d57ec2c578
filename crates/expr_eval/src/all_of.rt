ghost use Rattle.std.specs.Prelude.{IfOk};
ghost use Rattle.expr_eval.specs.Gathered.{Gathers};

use std::alloc::{AllocError, Global};

/// The items, where there are all of them; else the first fault.
pub fn all_of<T: Copy, F: Copy>(
    alloc: Global,
    results: &[Result<T, F>],
) -> Result<Result<Vec<T>, F>, AllocError>
    ensures { IfOk result (Gathers results.now) }
{
    let mut items = Vec::new(alloc);
    for given in results {
        match given {
            Ok(item) => items.push(*item)?,
            Err(fault) => return Ok(Err(*fault)),
        }
    }
    Ok(Ok(items))
}
