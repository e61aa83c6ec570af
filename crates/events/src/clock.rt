//! What gives ticks between the steps of a play.
ghost use Rattle.std.specs.Prelude.{◌≡◌, ◌≤◌};
ghost use Rattle.events.specs.Clocks.{every, is_off, passed, passed_by, quiet, random, strikes};
ghost use Rattle.events.specs.Clocks.{stirred};

/// The factor of the generator of random numbers.
const FACTOR: u64 = 6_364_136_223_846_793_005;

/// What the generator adds.
const INCREMENT: u64 = 1_442_695_040_888_963_407;

/// Strikes after some steps: a tick follows then.
#[derive(Clone, Copy)]
pub enum Clock {
    /// After none.
    Off,
    /// After each n steps; `left` of them are left to the next.
    Every { steps: u32, left: u32 },
    /// After one of n steps on average. Each step makes `state * 6364136223846793005 + 1442695040888963407` of the
    /// state, of which 64 bits are kept, and the clock strikes where `steps` divides its upper 32 bits.
    Random { state: u64, steps: u32 },
}

// What a step makes of the state of the generator.
fn stir(state: u64) -> u64
    ensures { result ≡ stirred state }
{
    state.wrapping_mul(FACTOR).wrapping_add(INCREMENT)
}

impl Clock {
    /// A clock that strikes after each n steps; none does where they are 0.
    pub fn every(steps: u32) -> Clock
        ensures { result ≡ every steps }
    {
        if steps == 0 {
            Clock::Off
        } else {
            Clock::Every { steps, left: steps }
        }
    }

    /// A clock that strikes after one of n steps on average; none does where they are 0.
    pub fn random(seed: u32, steps: u32) -> Clock
        ensures { result ≡ random seed steps }
    {
        if steps == 0 {
            Clock::Off
        } else {
            Clock::Random {
                state: u64::from(seed),
                steps,
            }
        }
    }

    /// Whether it never strikes.
    pub fn is_off(&self) -> bool
        ensures { result ≡ is_off self.now }
    {
        matches!(self, Clock::Off)
    }

    /// How many steps from here on there are at which it surely doesn't strike.
    pub fn quiet_steps(&self) -> u32
        ensures { result ≡ quiet self.now }
    {
        match self {
            Clock::Off => u32::MAX,
            Clock::Every { left, .. } => left.saturating_sub(1),
            Clock::Random { .. } => 0,
        }
    }

    /// Counts steps, after none of which it strikes.
    pub fn pass(&mut self, count: u32)
        requires { count ≤ quiet self.old }
        ensures { self.new ≡ passed_by count self.old }
    {
        if let Clock::Every { left, .. } = self {
            *left -= count;
        }
    }

    /// Counts a step, and says whether the clock strikes after it.
    pub fn strikes(&mut self) -> bool
        ensures strikes { result ≡ strikes self.old }
        ensures passed { self.new ≡ passed self.old }
    {
        match *self {
            Clock::Off => false,
            Clock::Every { steps, left } if left > 1 => {
                *self = Clock::Every {
                    steps,
                    left: left - 1,
                };
                false
            }
            Clock::Every { steps, .. } => {
                *self = Clock::Every { steps, left: steps };
                true
            }
            Clock::Random { state, steps } => {
                let state = stir(state);
                *self = Clock::Random { state, steps };
                steps > 0 && (state >> 32) % u64::from(steps) == 0
            }
        }
    }
}
