// Making, setting and reading a kernel.
ghost use Rattle.std.specs.Prelude.{◌≡◌, ℕ, ◌≤◌, true, length, take};
ghost use Rattle.kernel.specs.Rules.{origin, first_bad, weights, most_taps, shape, valid};
ghost use Rattle.kernel.specs.Faults.{answered};
ghost use Rattle.kernel.specs.Meaning.{meaning, refusal, Set, Refused, FirstTold};
ghost use Rattle.kernel.specs.Published.{floyd, table, Checked};

use crate::shape::Kernel;
use crate::tables::{Published, Table};
use crate::tap::{KernelFault, MOST_DIVISOR, MOST_TAPS, Tap};
use std::iter;

// The sending cell's own place, which the first tap has to come after.
const ORIGIN: Tap = Tap {
    down: 0,
    ahead: 0,
    weight: 0,
};

// The index of the first tap that breaks reach, order or weight.
fn first_broken(taps: &[Tap]) -> Option<usize>
    ensures { result ≡ first_bad origin 0 taps.now }
{
    iter::once(ORIGIN)
        .chain(taps.iter().copied())
        .zip(taps)
        .position(|(before, t)| !t.keeps_rules(&before))
}

// The sum of the weights, which cannot wrap.
fn weight_sum(taps: &[Tap]) -> u64
    requires { length taps.now ≤ most_taps }
    ensures { result ≡ weights taps.now }
{
    taps.iter().map(|t| u64::from(t.weight)).sum()
}

// The taps, in an array of their own. The places after them mean nothing.
fn copied(taps: &[Tap]) -> [Tap; MOST_TAPS]
    requires { length taps.now ≤ most_taps }
    ensures { take (length taps.now) result ≡ taps.now }
{
    let mut to = [ORIGIN; MOST_TAPS];
    to[..taps.len()].copy_from_slice(taps);
    to
}

impl Table<'_> {
    // Ok where the divisor and the taps keep every rule.
    fn judge(&self) -> Result<(), KernelFault>
        ensures { answered result ≡ refusal (shape self.now.divisor self.now.taps.now) }
    {
        if !(1..=MOST_DIVISOR).contains(&self.divisor) {
            return Err(KernelFault::Divisor);
        }
        if !(1..=MOST_TAPS).contains(&self.taps.len()) {
            return Err(KernelFault::Count);
        }
        if let Some(i) = first_broken(self.taps) {
            return Err(KernelFault::Tap(i));
        }
        if weight_sum(self.taps) > u64::from(self.divisor) {
            return Err(KernelFault::Sum);
        }
        Ok(())
    }

    // The kernel of a divisor and taps that keep every rule.
    fn to_kernel(&self) -> Kernel
        requires { valid (shape self.now.divisor self.now.taps.now) ≡ true }
        ensures { meaning result ≡ shape self.now.divisor self.now.taps.now }
    {
        Kernel {
            divisor: self.divisor,
            taps: copied(self.taps),
            len: self.taps.len(),
        }
    }
}

impl Kernel {
    // A new kernel is Floyd and Steinberg's.
    pub fn new() -> Kernel
        ensures { meaning result ≡ floyd }
    {
        Kernel::published(Published::Floyd)
    }

    // The published kernel of this name.
    pub fn published(which: Published) -> Kernel
        ensures { meaning result ≡ table which }
    {
        Kernel::from(which)
    }

    // Sets another divisor and other taps. A refusal leaves the kernel as it was.
    // The two are separate arguments, as callers have them; the private code passes them as one table.
    pub fn set(&mut self, divisor: u32, taps: &[Tap]) -> Result<(), KernelFault>
        ensures { Set (shape divisor taps.now) self.old self.new result }
    {
        let asked = Table { divisor, taps };
        asked.judge()?;
        *self = asked.to_kernel();
        Ok(())
    }

    // The divisor D.
    pub fn divisor(&self) -> u32
        ensures { result ≡ (meaning self.now).divisor }
    {
        self.divisor
    }

    // The taps, lent and not copied.
    pub fn taps(&self) -> &[Tap]
        ensures { result.now ≡ (meaning self.now).taps }
    {
        &self.taps[..self.len]
    }

    // W, the sum of the weights.
    pub fn weight(&self) -> u32
        ensures { result ≡ weights (meaning self.now).taps }
    {
        // At most D, so it fits: no conversion that could fail is needed.
        weight_sum(self.taps()) as u32
    }
}

impl Default for Kernel {
    ghost is_default = { λ k. meaning k ≡ floyd };

    fn default() -> Kernel {
        Kernel::new()
    }
}

impl From<Published> for Kernel {
    ghost from_gives = { λ which k. meaning k ≡ table which };

    fn from(which: Published) -> Kernel {
        which.table().to_kernel()
    }
}

// Setting a kernel refuses exactly what breaks a rule, and the tap that is told is the first bad one.
pub fn refusals_checked()
    ensures { (Refused) × (FirstTold) }
{}

// The published tables keep the rules, and their weights sum up as listed.
pub fn tables_checked()
    ensures { Checked }
{}
