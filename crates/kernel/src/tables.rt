// The six published kernels: Floyd and Steinberg; Jarvis, Judice and Ninke;
// Sierra's three; Atkinson.
ghost use Rattle.std.specs.Prelude.{◌≡◌};
ghost use Rattle.kernel.specs.Rules.{shape};
ghost use Rattle.kernel.specs.Published.{table};

use crate::tap::Tap;

// The name of a published kernel.
#[derive(Clone, Copy, PartialEq, Eq, Debug)]
pub enum Published {
    Floyd,
    Jarvis,
    Sierra3,
    Sierra2,
    Sierra1,
    Atkinson,
}

impl Published {
    // The published divisor and taps.
    pub(crate) fn table(self) -> Table<'static>
        ensures { shape result.divisor result.taps.now ≡ table self }
    {
        match self {
            Published::Floyd => FLOYD,
            Published::Jarvis => JARVIS,
            Published::Sierra3 => SIERRA3,
            Published::Sierra2 => SIERRA2,
            Published::Sierra1 => SIERRA1,
            Published::Atkinson => ATKINSON,
        }
    }
}

// A divisor and taps, whether or not they keep the rules of a kernel.
#[derive(Clone, Copy)]
pub(crate) struct Table<'a> {
    pub(crate) divisor: u32,
    pub(crate) taps: &'a [Tap],
}

// A tap: rows down, columns ahead, weight. A macro, since the value of a constant calls no function.
macro_rules! tap {
    ($down:expr, $ahead:expr, $weight:expr) => {
        Tap {
            down: $down,
            ahead: $ahead,
            weight: $weight,
        }
    };
}

#[cfg(test)]
pub(crate) use tap;

const FLOYD: Table<'static> = Table {
    divisor: 16,
    taps: &[tap!(0, 1, 7), tap!(1, -1, 3), tap!(1, 0, 5), tap!(1, 1, 1)],
};

const JARVIS: Table<'static> = Table {
    divisor: 48,
    taps: &[
        tap!(0, 1, 7),
        tap!(0, 2, 5),
        tap!(1, -2, 3),
        tap!(1, -1, 5),
        tap!(1, 0, 7),
        tap!(1, 1, 5),
        tap!(1, 2, 3),
        tap!(2, -2, 1),
        tap!(2, -1, 3),
        tap!(2, 0, 5),
        tap!(2, 1, 3),
        tap!(2, 2, 1),
    ],
};

const SIERRA3: Table<'static> = Table {
    divisor: 32,
    taps: &[
        tap!(0, 1, 5),
        tap!(0, 2, 3),
        tap!(1, -2, 2),
        tap!(1, -1, 4),
        tap!(1, 0, 5),
        tap!(1, 1, 4),
        tap!(1, 2, 2),
        tap!(2, -1, 2),
        tap!(2, 0, 3),
        tap!(2, 1, 2),
    ],
};

const SIERRA2: Table<'static> = Table {
    divisor: 16,
    taps: &[
        tap!(0, 1, 4),
        tap!(0, 2, 3),
        tap!(1, -2, 1),
        tap!(1, -1, 2),
        tap!(1, 0, 3),
        tap!(1, 1, 2),
        tap!(1, 2, 1),
    ],
};

const SIERRA1: Table<'static> = Table {
    divisor: 4,
    taps: &[tap!(0, 1, 2), tap!(1, -1, 1), tap!(1, 0, 1)],
};

const ATKINSON: Table<'static> = Table {
    divisor: 8,
    taps: &[
        tap!(0, 1, 1),
        tap!(0, 2, 1),
        tap!(1, -1, 1),
        tap!(1, 0, 1),
        tap!(1, 1, 1),
        tap!(2, 0, 1),
    ],
};
