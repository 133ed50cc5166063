//! The numbers that a scenario draws, each from the one before it.
ghost use Rattle.std.specs.Prelude.{◌≡◌, ◌<◌, ◌/◌, ◌%◌};
ghost use Rattle.scenario_maker.specs.Draws.{next_number, first_number};

const MULTIPLIER: u64 = 1_103_515_245;

const INCREMENT: u64 = 12_345;

const MODULUS: u64 = 2_147_483_648;

/// The number of the last draw, or the one that the first is made from.
#[derive(Drop)]
pub(crate) struct Draws {
    pub(crate) last: u32,
    ghost in_range: { last < 2147483648 },
}

impl Draws {
    /// Before the first draw of the scenario with this number.
    pub(crate) fn new(number: u32) -> Draws
        ensures { result.last ≡ first_number number }
    {
        Draws {
            last: number % MODULUS as u32,
        }
    }

    /// One draw, of a number below `bound`.
    pub(crate) fn draw(&mut self, bound: u32) -> u32
        requires { 0 < bound }
        ensures last { self.new.last ≡ next_number self.old.last }
        ensures value { result ≡ (self.new.last / 65536) % bound }
    {
        let next = (self.last as u64 * MULTIPLIER + INCREMENT) % MODULUS;
        self.last = next as u32;
        self.last / 65_536 % bound
    }
}
