ghost use Rattle.std.specs.Prelude.{◌≡◌, ◌≤◌};

use crate::{DEFAULT_MINIMUM, Stat, Tax, pick_sample, ratio_less, targets, victim};
use rand_core::Rng;
use rand_pcg::Pcg32;
use std::alloc::{AllocError, Global};
use std::process::Abort;
use std::test::Fail;

const TAX: Tax = Tax { percent: 75 };

const NO_TAX: Tax = Tax { percent: 0 };

/// A guest of a sample of 100 draws.
fn guest(shares: u32, resident: u32, active: u16, minimum: u32) -> Stat
    requires { active ≤ 100 }
{
    Stat {
        shares,
        pages: 1000,
        resident,
        given: 0,
        active,
        sample: 100,
        minimum,
    }
}

/// An active guest, one that is mostly idle, and one that is idle and has three times the shares.
fn three() -> [Stat; 3] {
    [
        guest(1000, 300, 100, DEFAULT_MINIMUM),
        guest(1000, 300, 20, DEFAULT_MINIMUM),
        guest(3000, 300, 0, DEFAULT_MINIMUM),
    ]
}

#[test]
fn ratios_and_victims(rt: HostRuntime) {
    // their ratios are 10/3, 50/51 and 5/2
    let [active, idle, rich] = three();
    assert!(rt; ratio_less(&idle, &rich, TAX));
    assert!(rt; ratio_less(&rich, &active, TAX));
    assert!(rt; !ratio_less(&rich, &idle, TAX));
    assert!(rt; !ratio_less(&active, &idle, NO_TAX));
    assert_eq!(rt; victim(&three(), TAX), Some(1));
    assert_eq!(rt; victim(&three(), NO_TAX), Some(0));
    let same = guest(1000, 30, 50, 2);
    assert_eq!(rt; victim(&[guest(1, 2, 0, 2), same, same], TAX), Some(1));
    assert_eq!(rt;
        victim(&[guest(1, 2, 0, 2), guest(1, 2, 100, 2)], TAX),
        None
    );
    assert_eq!(rt; victim(&[], TAX), None);
}

fn check_targets<R: AllocGlobal + Abort>(
    rt: &R,
    stats: &[Stat],
    total: u32,
    tax: Tax,
    want: &[u32],
) -> Result<(), AllocError> {
    let found = targets(rt.alloc(), stats, total, tax)?;
    assert_eq!(rt; found.as_slice(), want, "of {total} frames");
    Ok(())
}

#[test]
fn targets_of_few_guests(rt: HostRuntime) -> Result<(), Fail> {
    let fits = [guest(1000, 500, 100, 2), guest(1000, 470, 100, 2)];
    check_targets(&rt, &fits, 1000, TAX, &[470, 470])?;
    let more = [guest(1000, 520, 100, 2), guest(1000, 470, 100, 2)];
    check_targets(&rt, &more, 1000, TAX, &[470, 470])?;
    check_targets(&rt, &three(), 800, TAX, &[300, 152, 300])?;
    check_targets(&rt, &three(), 800, NO_TAX, &[226, 226, 300])?;
    check_targets(&rt, &three(), 10_000, TAX, &[300, 300, 300])?;
    let kept = [guest(1000, 30, 100, 20), guest(1, 40, 0, 35)];
    check_targets(&rt, &kept, 50, TAX, &[20, 35])?;
    check_targets(&rt, &[], 50, TAX, &[])?;
    Ok(())
}

/// Sixteen guests of 16,384 pages each, with more shares and more active pages by their number.
fn sixteen(alloc: Global) -> Result<Vec<Stat>, AllocError> {
    let mut guests = Vec::new(alloc);
    for i in 0..16u16 {
        guests.push(guest(1000 * (u32::from(i) + 1), 16_384, 6 * i, 2))?;
    }
    Ok(guests)
}

#[test]
fn targets_of_sixteen_guests(rt: HostRuntime) -> Result<(), Fail> {
    let stats = sixteen(rt.alloc())?;
    let found = targets(rt.alloc(), &stats, 65_536, TAX)?;
    let want = [
        226, 473, 745, 1045, 1378, 1750, 2167, 2640, 3179, 3799, 4521, 5372, 6388, 7626, 9165,
        11129,
    ];
    assert_eq!(rt; found.as_slice(), want.as_slice());
    let same = [guest(1000, 16_384, 100, 2); 16];
    let found = targets(rt.alloc(), &same, 65_536, TAX)?;
    let want = [
        3850, 3850, 3850, 3850, 3850, 3850, 3850, 3850, 3850, 3850, 3850, 3850, 3850, 3851, 3851,
        3851,
    ];
    assert_eq!(rt; found.as_slice(), want.as_slice());
    Ok(())
}

/// The words of the generator, by the C code of PCG, modulo 1,000.
static DRAWS: [u32; 100] = [
    783, 97, 824, 955, 955, 566, 285, 445, 674, 144, 742, 993, 174, 757, 663, 987, 578, 443, 530,
    390, 440, 599, 561, 473, 51, 357, 806, 260, 668, 941, 61, 599, 612, 881, 686, 787, 776, 959,
    190, 698, 671, 706, 812, 326, 471, 515, 387, 763, 649, 825, 378, 816, 114, 396, 703, 91, 838,
    730, 164, 616, 518, 139, 308, 858, 68, 466, 228, 886, 162, 615, 762, 316, 167, 560, 380, 907,
    777, 506, 953, 147, 646, 659, 975, 748, 738, 62, 475, 388, 276, 286, 646, 368, 838, 405, 448,
    234, 73, 819, 21, 493,
];

#[test]
fn samples(rt: HostRuntime) {
    let mut rng = Pcg32::new(42, 54);
    assert_eq!(rt; pick_sample(&mut rng, 1000), DRAWS);
    assert_eq!(rt; rng.next_u32(), 0x9a61_e339);
}
