//! Numbers by chance.
ghost use Rattle.std.specs.Prelude.{◌<◌};

#[derive(Drop)]
pub(crate) struct Dice {
    pub(crate) seed: u64,
}

impl Dice {
    // A number below `sides`.
    pub(crate) fn roll(&mut self, sides: u32) -> u32
        requires { 0 < sides }
        ensures { result < sides }
    {
        self.seed = self
            .seed
            .wrapping_mul(6364136223846793005)
            .wrapping_add(1442695040888963407);
        ((self.seed >> 33) % (sides as u64)) as u32
    }
}
