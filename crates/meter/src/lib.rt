// The build meter: one running total of the words of accepted builds (document 02, Point 3). It goes into each build by value and comes back.
#![tactic(auto)]

ghost use Rattle.std.specs.Prelude.{◌≡◌};
ghost use Rattle.encoder.specs.Assemble.{numbered};
ghost use Rattle.meter.specs.Meter.{at_start, meter_told};

use encoder::{AssembleRefusal, Totals};

// The words of all accepted builds since it was opened, 2^64 - 1 where there were more.
#[repr(C)]
#[derive(Clone, Copy)]
pub struct Meter {
    pub total: u64,
}

// What a build on a meter answers: what assembling answers, and the meter after it.
#[derive(Clone, Copy)]
pub struct Metered {
    pub assembly: Result<Totals, AssembleRefusal>,
    pub meter: Meter,
}

impl Meter {
    // Where the total stops.
    pub const MOST: u64 = u64::MAX;

    // A meter at its start.
    // Promises: meter_counts.
    pub fn open() -> Self
        ensures { result ≡ at_start }
    {
        Self { total: 0 }
    }

    // The meter after a build that answered so.
    // Promises: meter_counts, meter_from, meter_kept.
    pub fn after(self, assembly: Result<Totals, AssembleRefusal>) -> Self
        ensures { result ≡ meter_told self (numbered assembly) }
    {
        match assembly {
            Err(_) => self,
            Ok(totals) => Self {
                total: self.total.saturating_add(totals.words as u64),
            },
        }
    }
}
