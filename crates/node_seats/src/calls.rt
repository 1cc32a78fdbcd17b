//! Copies of calls: a transcript keeps one of each call that was answered.
ghost use Rattle.std.specs.Prelude.{◌≡◌, IfOk};

use shared_table::Call;
use std::alloc::AllocError;

/// The same call. Only a lock call that names its nodes takes memory.
pub(crate) fn copied_call(call: &Call) -> Result<Call, AllocError>
    ensures { IfOk result (λ copy. copy ≡ call.now) }
{
    Ok(match call {
        Call::Spawn => Call::Spawn,
        Call::Whereis(name) => Call::Whereis(name.copy()),
        Call::RegisteredNames => Call::RegisteredNames,
        Call::Notices(process) => Call::Notices(process.copy()),
        Call::Register(pair) => Call::Register(pair.copy()),
        Call::ReRegister(pair) => Call::ReRegister(pair.copy()),
        Call::Unregister(name) => Call::Unregister(name.copy()),
        Call::SetLock(holder, id, nodes, retries) => {
            Call::SetLock(holder.copy(), id.copy(), nodes.copy()?, retries.copy())
        }
        Call::DelLock(holder, id, nodes) => {
            Call::DelLock(holder.copy(), id.copy(), nodes.copy()?)
        }
        Call::Join(contact) => Call::Join(contact.copy()),
    })
}
