//! Whoever is told how far a run is.

/// Somebody who is told now and then how far a run is. What the run does rests on nothing of it.
pub trait Watch {
    /// So many steps of the run are made.
    fn made(&mut self, steps: u32);

    /// The run is over.
    fn over(&mut self);
}

/// Nobody.
#[derive(Clone, Copy, Debug)]
pub struct Nobody;

impl Watch for Nobody {
    fn made(&mut self, _steps: u32) {}

    fn over(&mut self) {}
}
