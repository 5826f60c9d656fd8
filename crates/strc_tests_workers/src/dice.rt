// Numbers that look random, and are the same in each run.

/// A linear congruential generator.
#[derive(Drop)]
pub struct Dice {
    seed: u64,
}

/// How a list of events comes about.
#[derive(Clone, Copy)]
pub enum Bent {
    /// Each actor is as likely as another one.
    Even,
    /// The first actors are likelier.
    First,
    /// The last ones are.
    Last,
}

impl Dice {
    /// The same numbers for the same seed.
    pub fn new(seed: u64) -> Dice {
        Dice { seed }
    }

    /// A number below this one; 0 where there is none.
    pub fn below(&mut self, bound: usize) -> usize {
        self.seed = self
            .seed
            .wrapping_mul(6_364_136_223_846_793_005)
            .wrapping_add(1_442_695_040_888_963_407);
        let high = (self.seed >> 33) as usize;
        high.checked_rem(bound).unwrap_or(0)
    }

    /// A number below this one, small or large ones likelier than others.
    pub fn bent_below(&mut self, bound: usize, bent: Bent) -> usize {
        let one = self.below(bound);
        let other = self.below(bound);
        match bent {
            Bent::Even => one,
            Bent::First => one.min(other),
            Bent::Last => one.max(other),
        }
    }
}
