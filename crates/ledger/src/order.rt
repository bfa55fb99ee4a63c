// The order in which the cells of a page are done.
ghost use Rattle.std.specs.Prelude.{◌≡◌};
ghost use Rattle.ledger.specs.Orders.{runs_back};

// Rows are done from the top. Raster order runs every row left to right;
// serpentine order runs the odd rows right to left.
#[derive(Clone, Copy, PartialEq, Eq, Debug)]
pub enum Order {
    Raster,
    Serpentine,
}

impl Order {
    // Whether a row runs right to left.
    pub fn runs_back(self, row: usize) -> bool
        ensures { result ≡ runs_back self row }
    {
        match self {
            Order::Raster => false,
            Order::Serpentine => row % 2 == 1,
        }
    }
}
