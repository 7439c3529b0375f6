//! Pages that are given and taken.
use crate::Balloon;
use std::test::Fail;
use word32::Ppn;

#[test]
fn pages_are_given_and_taken(rt: HostRuntime) -> Result<(), Fail> {
    let mut balloon = Balloon::new(rt.alloc(), 16)?;
    assert_eq!(rt; balloon.pages(), 16);
    assert_eq!(rt; balloon.target(), 0);
    assert_eq!(rt; balloon.given(), 0);
    balloon.set_target(2);
    assert_eq!(rt; balloon.target(), 2);
    assert!(rt; balloon.give(Ppn::new(7)));
    assert!(rt; !balloon.give(Ppn::new(7)));
    assert!(rt; balloon.give(Ppn::new(15)));
    assert!(rt; !balloon.give(Ppn::new(16)));
    assert_eq!(rt; balloon.given(), 2);
    assert!(rt; balloon.is_given(Ppn::new(7)));
    assert!(rt; !balloon.is_given(Ppn::new(8)));
    assert!(rt; !balloon.is_given(Ppn::new(16)));
    balloon.take(Ppn::new(8));
    balloon.take(Ppn::new(16));
    assert_eq!(rt; balloon.given(), 2);
    let copy = balloon.try_clone()?;
    balloon.take(Ppn::new(7));
    assert!(rt; copy.is_given(Ppn::new(7)));
    assert_eq!(rt; (copy.target(), copy.given(), copy.pages()), (2, 2, 16));
    assert!(rt; !balloon.is_given(Ppn::new(7)));
    assert_eq!(rt; balloon.given(), 1);
    balloon.touch(Ppn::new(15));
    balloon.touch(Ppn::new(15));
    assert_eq!(rt; balloon.given(), 0);
    Ok(())
}
