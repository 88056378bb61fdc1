//! What is counted of the mitigations of a mitigate.

ghost use Rattle.std.specs.Prelude.{◌≡◌, ◌+◌, ◌≤◌, ◌<◌, ◌^◌};
ghost use Rattle.run_timeline.specs.Summary.{least_of_tally};
ghost use Rattle.run_timeline.specs.Tallied.{noted, no_tally};

/// How many of a mitigate's mitigations ended, the shortest and the longest of their bodies (0 where none
/// ended), and how many missed.
#[derive(Clone, Copy, Debug, PartialEq, Eq)]
pub struct Tally {
    pub ended: u64,
    pub shortest: u64,
    pub longest: u64,
    pub missed: u64,
}

impl Tally {
    /// Of no mitigation.
    pub fn new() -> Tally
        ensures { result ≡ no_tally }
    {
        Tally {
            ended: 0,
            shortest: 0,
            longest: 0,
            missed: 0,
        }
    }

    /// With one more that ended: how long its body took, and whether it missed.
    pub fn with(self, worked: u64, missed: bool) -> Tally
        requires ended { self.ended + 1 < 2 ^ 64 }
        requires missed { self.missed ≤ self.ended }
        ensures { result ≡ noted self worked missed }
    {
        Tally {
            ended: self.ended + 1,
            shortest: if self.ended == 0 {
                worked
            } else {
                self.shortest.min(worked)
            },
            longest: self.longest.max(worked),
            missed: if missed { self.missed + 1 } else { self.missed },
        }
    }

    /// The least first prediction that no body reaches.
    pub fn least(self) -> u128
        ensures { result ≡ least_of_tally self }
    {
        if self.ended == 0 {
            1
        } else {
            u128::from(self.longest) + 1
        }
    }
}
