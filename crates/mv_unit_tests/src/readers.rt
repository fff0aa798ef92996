//! The floor below the readers of two epochs.

ghost use Rattle.std.specs.Prelude.{◌≡◌};

use mv_grace::grace::{GraceBlank, Naming};
use std::marker::Brand;
use std::process::Abort;
use std::test::*;

/// A reader at 0, a turn to 5, a reader at 7. The other epoch keeps the floor until it is empty.
fn follow<N: Naming, R: Abort>(rt: &R, blank: GraceBlank) -> Result<(), Fail>
    requires { blank ≡ N.word }
{
    let (grace, mut turner) = blank.open::<N>();
    let first = turner.admit(&grace, 0)?;
    let turned = turner.turn(&grace, 5);
    assert!(rt; turned);
    let second = turner.admit(&grace, 7)?;
    assert_eq!(rt; [turner.base(), turner.floor(), turner.out()], [5, 0, 2]);
    let turned = turner.turn(&grace, 9);
    assert!(rt; !turned);
    assert_eq!(rt; [turner.base(), turner.floor(), turner.out()], [5, 0, 2]);
    turner.release(&grace, first);
    assert_eq!(rt; [turner.base(), turner.floor(), turner.out()], [5, 5, 1]);
    let turned = turner.turn(&grace, 9);
    assert!(rt; turned);
    assert_eq!(rt; [turner.base(), turner.floor(), turner.out()], [9, 5, 1]);
    let mut note = turner.note(&grace)?;
    let copy = note.split(&grace)?;
    assert_eq!(rt; [note.floor(), copy.floor()], [5, 5]);
    let mut second = second;
    second.meet(&grace, copy);
    assert_eq!(rt; second.start(), 7);
    turner.release(&grace, second);
    assert_eq!(rt; [turner.base(), turner.floor(), turner.out()], [9, 9, 0]);
    Ok(())
}

#[test]
fn floor_follows_the_readers(rt: HostRuntime) -> Result<(), Fail> {
    let blank = GraceBlank::new(rt.alloc())?;
    follow::<Brand, _>(&rt, blank)
}
