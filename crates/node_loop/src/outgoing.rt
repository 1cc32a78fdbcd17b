//! Stamps, and the letters of a step.
ghost use Rattle.std.specs.Prelude.{◌≡◌, ◌<◌, ◌+◌, ◌^◌, ◌-◌, [], ◌∷◌, max, OnOk, OnErr, MatchOption};
ghost use Rattle.node_loop.specs.Held.{with_letters, PutsSome};

use crate::item::{Item, Stamped};
use crate::tries::TRIES;
use link::LinkFault;
use node_log::Letter;
use std::alloc::AllocError;
use term::Node;
use tray::Tray;

/// The stamp of a step: above that of the last step and that of the letter. There is none above the greatest `u64`.
pub(crate) fn next_stamp(last: u64, seen: u64) -> Option<u64>
    ensures { MatchOption result (max last seen ≡ 2 ^ 64 - 1) (λ stamp. (stamp ≡ max last seen + 1) × (stamp < 2 ^ 64)) }
{
    last.max(seen).checked_add(1)
}

/// Puts a letter of a step into the tray. One to a node that the tray doesn't know vanishes: nobody there could read it.
fn put_one(tray: &mut Tray<Item>, stamp: u64, to: &Node, letter: Letter) -> Result<(), AllocError>
    ensures ok { OnOk result (tray.new ≡ with_letters stamp ((to.now, letter) ∷ []) tray.old) }
    ensures unchanged { OnErr result (tray.new ≡ tray.old) }
{
    let mut item = Item::Letter(Stamped { stamp, letter });
    for _ in 0..TRIES {
        match tray.put(to, item) {
            Ok(()) => return Ok(()),
            Err(unsent) => match unsent.fault {
                LinkFault::NoSuchNode => return Ok(()),
                _ => item = unsent.letter,
            },
        }
    }
    Err(AllocError)
}

/// Puts the letters of a step into the tray, each behind those that wait for its receiver. Where memory is refused the first of
/// them are there.
pub(crate) fn put_all(
    tray: &mut Tray<Item>,
    stamp: u64,
    letters: Vec<(Node, Letter)>,
) -> Result<(), AllocError>
    ensures ok { OnOk result (tray.new ≡ with_letters stamp letters.items tray.old) }
    ensures some { OnErr result (PutsSome stamp letters.items tray.old tray.new) }
{
    for (to, letter) in letters {
        put_one(tray, stamp, &to, letter)?;
    }
    Ok(())
}
