//! What is tried again where memory is refused.
ghost use Rattle.std.specs.Prelude.{◌≡◌, ◌<◌, OnOk, vec_len, vec_capacity};
ghost use Rattle.std.specs.VecDeque.{deque_len, deque_capacity};

use std::alloc::AllocError;
use std::collections::VecDeque;

/// How often a step is tried, and memory asked for, where it is refused.
pub(crate) const TRIES: usize = 3;

/// Makes room for one more in a list. Where memory is refused the list is as before.
pub(crate) fn room_in_list<T>(list: &mut Vec<T>) -> Result<(), AllocError>
    ensures items { list.new.items ≡ list.old.items }
    ensures room { OnOk result (vec_len list.new < vec_capacity list.new) }
{
    for _ in 0..TRIES {
        if list.reserve(1).is_ok() {
            return Ok(());
        }
    }
    Err(AllocError)
}

/// The same in a queue.
pub(crate) fn room_in_queue<T>(queue: &mut VecDeque<T>) -> Result<(), AllocError>
    ensures items { queue.new.items ≡ queue.old.items }
    ensures room { OnOk result (deque_len queue.new < deque_capacity queue.new) }
{
    for _ in 0..TRIES {
        if queue.reserve(1).is_ok() {
            return Ok(());
        }
    }
    Err(AllocError)
}
