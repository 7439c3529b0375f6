//! What the figures have to show, by the numbers of the guests' pages.
use crate::idling::{FRAMES, PERIODS, WORKING, periods};
use crate::sharing::books_of;
use std::process::Abort;
use std::test::Fail;

/// Ten guests have 208 pages alike, but for the part of page 0 that is the same code, and 48 of their own.
#[test]
fn pages_of_one_image_share_frames(rt: HostRuntime) -> Result<(), Fail> {
    let books = books_of(rt.alloc(), 10)?;
    assert_eq!(rt; books.references(), 10 * 208);
    assert_eq!(rt; books.shared(), 208);
    assert_eq!(rt; books.swapped(), 0);
    Ok(())
}

/// With no tax both guests have as many pages, and the active one too few; with one it has all that it uses, and needs none.
#[test]
fn idle_pages_go_to_the_active_guest(rt: HostRuntime) -> Result<(), Fail> {
    let all = periods(rt.alloc())?;
    let half = PERIODS as usize;
    let (Some(before), Some(after)) = (all.get(half.saturating_sub(1)), all.last()) else {
        panic!(rt; "there are no periods")
    };
    assert_eq!(rt; (before.tax, after.tax), (0, 75));
    assert!(rt; before.active.abs_diff(before.idle) <= 2, "{before:?}");
    assert!(rt; before.swap_ins > 0, "{before:?}");
    assert!(rt; after.active == WORKING, "{after:?}");
    assert!(rt;
        after.active.saturating_add(after.idle) <= FRAMES,
        "{after:?}"
    );
    assert!(rt; after.swap_ins == 0, "{after:?}");
    Ok(())
}
