//! Joining the threads of a scope.
ghost use Rattle.std.specs.Prelude.{◌≡◌, IfOk, length};
ghost use Rattle.std.specs.PromisedHandle.{KeepsEach};

use std::alloc::AllocError;
use std::thread::{Promise, PromisedHandle, Threads, join_promised};

/// Joins all threads, and gives their results in order. `Err` where memory is refused for these, which are then dropped.
pub fn join_all<T: Drop, P: Promise<T>, R: Threads>(
    rt: &R,
    handles: Vec<PromisedHandle<T, P>>,
) -> Result<Vec<T>, AllocError>
    ensures number { IfOk result (λ results. length results.items ≡ length handles.items) }
    ensures each { IfOk result (λ results. KeepsEach P.Promise (length handles.items) handles.items results.items) }
{
    match join_promised(rt, handles) {
        Ok(results) => Ok(results),
        Err(refused) => {
            for handle in refused.value {
                drop(handle.join(rt));
            }
            Err(AllocError)
        }
    }
}
