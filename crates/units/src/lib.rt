// Ticks and parts of a tick: separate quantities. One becomes the other only by the conversions below.
#![tactic(auto)]

ghost use Rattle.std.specs.Prelude.{◌≡◌, ◌+◌, ◌-◌, ◌*◌, ◌/◌, ◌<◌};
ghost use Rattle.model.specs.Bounds.{PARTS};

#[derive(Clone, Copy)]
pub struct Ticks(pub u64);

#[derive(Clone, Copy)]
pub struct Parts(pub u64);

impl Parts {
    // One tick is 720,720 parts, the least common multiple of 1 to 16: every share of a tick is a whole number of them.
    pub const SCALE: u64 = 720720;

    pub fn of_ticks(t: Ticks) -> Parts
        requires { t.0 * PARTS < 18446744073709551616 }
        ensures { result.0 ≡ t.0 * PARTS }
    {
        Parts(t.0 * Self::SCALE)
    }

    // The share of a tick that one of so many cores is.
    pub fn share(cores: u8) -> Parts
        requires { 0 < cores }
        ensures { result.0 ≡ PARTS / cores }
    {
        Parts(Self::SCALE / (cores as u64))
    }

    // The rest of that tick.
    pub fn rest(cores: u8) -> Parts
        requires { 0 < cores }
        ensures { result.0 ≡ PARTS - PARTS / cores }
    {
        Parts(Self::SCALE - Parts::share(cores).0)
    }

    // These parts for each of so many ticks.
    pub fn for_ticks(self, t: Ticks) -> Parts
        requires { t.0 * self.0 < 18446744073709551616 }
        ensures { result.0 ≡ t.0 * self.0 }
    {
        Parts(t.0 * self.0)
    }

    // These parts over so many cores. Of whole ticks and 1 to 16 cores nothing is left over.
    pub fn over(self, cores: u8) -> Parts
        requires { 0 < cores }
        ensures { result.0 ≡ self.0 / cores }
    {
        Parts(self.0 / (cores as u64))
    }

    pub fn plus(self, more: Parts) -> Parts
        requires { self.0 + more.0 < 18446744073709551616 }
        ensures { result.0 ≡ self.0 + more.0 }
    {
        Parts(self.0 + more.0)
    }

    // Whole ticks, rounded down: the only place where anything is rounded.
    pub fn ticks(self) -> Ticks
        ensures { result.0 ≡ self.0 / PARTS }
    {
        Ticks(self.0 / Self::SCALE)
    }
}
