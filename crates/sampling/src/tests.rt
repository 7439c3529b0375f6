//! Marks and samples with ample memory.
use crate::{Marks, Sample};
use rand_core::SeedableRng;
use rand_pcg::Pcg32;
use std::alloc::{AllocError, Global};
use std::test::Fail;
use taxpolicy::{SAMPLE_SIZE, pick_sample};
use word32::Ppn;

const SEED: u64 = 11;

/// How many pages the memory has: each is drawn more than once, with a hundred draws.
const PAGES: u32 = 8;

/// The marks of a memory of which pages 1 and 6 are touched.
fn two_touched(alloc: Global) -> Result<Marks, AllocError> {
    let mut marks = Marks::new(alloc, PAGES)?;
    for page in [1, 6] {
        if page < marks.pages() {
            marks.touch(Ppn::new(page));
        }
    }
    Ok(marks)
}

/// How many of these draws are of page 1 or 6.
fn of_the_two(draws: &[u32; SAMPLE_SIZE]) -> u16 {
    draws
        .iter()
        .filter(|page| **page == 1 || **page == 6)
        .count() as u16
}

/// Ends a period of a sample and begins the next, whose pages are the generator's next words.
fn turn(sample: &mut Sample, marks: &mut Marks, rng: &mut Pcg32) -> u16 {
    let touched = match &sample.draws {
        None => None,
        Some(draws) => Some(marks.count(draws)),
    };
    let draws = pick_sample(rng, PAGES);
    marks.clear(&draws);
    sample.next(touched, draws);
    sample.active
}

#[test]
fn draws_of_touched_pages_count_when_their_period_is_whole(rt: HostRuntime) -> Result<(), Fail> {
    let mut rng = Pcg32::seed_from_u64(SEED);
    let first = pick_sample(&mut rng, PAGES);
    let second = pick_sample(&mut rng, PAGES);
    let mut rng = Pcg32::seed_from_u64(SEED);
    let mut sample = Sample::new();
    assert_eq!(rt; (sample.draws, sample.active), (None, 100));
    let mut marks = two_touched(rt.alloc())?;
    assert_eq!(rt; turn(&mut sample, &mut marks, &mut rng), 100);
    assert_eq!(rt; sample.draws, Some(first));
    for page in 0..PAGES {
        assert!(rt; !marks.is_marked(page), "page {page} was drawn");
    }
    drop(marks);
    let mut marks = two_touched(rt.alloc())?;
    let active = turn(&mut sample, &mut marks, &mut rng);
    assert_eq!(rt; active, of_the_two(&first));
    assert!(rt; active > 2, "some page was drawn twice");
    assert_eq!(rt; sample.draws, Some(second));
    assert_eq!(rt; turn(&mut sample, &mut marks, &mut rng), 0);
    Ok(())
}

#[test]
fn a_page_that_there_is_not_is_not_marked(rt: HostRuntime) -> Result<(), Fail> {
    let marks = two_touched(rt.alloc())?;
    let marked = [0, 1, 5, 6, 7, PAGES, u32::MAX].map(|page| marks.is_marked(page));
    assert_eq!(rt; marked, [false, true, false, true, false, false, false]);
    assert_eq!(rt; marks.pages(), PAGES);
    Ok(())
}
