//! The dead, as spans of serials.
use exit_watch::Dead;

/// Whether these die, in this order, and the dead are so many spans then.
fn die(dead: &mut Dead, serials: &[u32], spans: usize) -> bool {
    for serial in serials {
        if dead.insert(*serial).is_err() {
            return false;
        }
    }
    dead.spans() == spans
}

/// Whether these are dead from 0 to 8, as 1 tells, and nobody else.
fn are_dead(dead: &Dead, wanted: &[u8; 9]) -> bool {
    (0..9).all(|serial: u32| dead.contains(serial) == (wanted[serial as usize] == 1))
}

/// Whether spans grow to both sides.
fn grow(dead: &mut Dead) -> bool {
    die(dead, &[3, 1, 2], 1)
        && are_dead(dead, &[0, 1, 1, 1, 0, 0, 0, 0, 0])
        && die(dead, &[5, 7, 6], 2)
        && are_dead(dead, &[0, 1, 1, 1, 0, 1, 1, 1, 0])
}

/// Whether these spans grow together, and those of a copy stay.
fn copy_stays(dead: &mut Dead) -> bool {
    match dead.copy() {
        Ok(copy) => {
            die(dead, &[4, 6], 1)
                && are_dead(dead, &[0, 1, 1, 1, 1, 1, 1, 1, 0])
                && are_dead(&copy, &[0, 1, 1, 1, 0, 1, 1, 1, 0])
        }
        Err(_) => false,
    }
}

/// Whether spans grow to the greatest serial and to 0.
fn reach_the_ends(dead: &mut Dead) -> bool {
    die(dead, &[u32::MAX, 0, u32::MAX - 1, 1], 2)
        && dead.contains(u32::MAX)
        && !dead.contains(u32::MAX - 2)
        && are_dead(dead, &[1, 1, 0, 0, 0, 0, 0, 0, 0])
}

#[test]
fn spans_grow_together(rt: HostRuntime) {
    let mut dead = Dead::new(rt.alloc());
    assert!(rt; grow(&mut dead) && copy_stays(&mut dead));
}

#[test]
fn spans_reach_the_ends(rt: HostRuntime) {
    assert!(rt; reach_the_ends(&mut Dead::new(rt.alloc())));
}
