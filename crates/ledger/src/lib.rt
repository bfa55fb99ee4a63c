// The mathematics of the ledger: the definition of the dots, the seven
// accounts, and what always holds of them. There is hardly any code: the
// contract of each function of this file is a theorem, proved in proofs/.
#![tactic(auto)]

pub mod order;

ghost use Rattle.ledger.specs.Follows.{Met, Fixed};
ghost use Rattle.ledger.specs.Laws.{Balance, Errors, Rectangles, Guarantee, AimsLater, OneMore};
ghost use Rattle.ledger.specs.Memory.{MemoryKeepsUp, Sizes, SumsAnswer};

pub use order::Order;

// In each channel taken equals laid plus carried, edge, kernel, rounding and clipped.
pub fn ledger_balances()
    ensures { Balance }
{}

// With a spread E errors lie within E of zero and nothing is clipped; with none, they lie within 510.
pub fn errors_bounded()
    ensures { Errors }
{}

// With a spread, what a rectangle takes and what it is laid differ by no more than its sides allow.
pub fn rectangles_bounded()
    ensures { Rectangles }
{}

// The three laws together.
pub fn runs_guaranteed()
    ensures { Guarantee }
{}

// The run that the definition computes follows the rules.
pub fn rules_met()
    ensures { Met }
{}

// No other run that takes the same samples does.
pub fn rules_fix()
    ensures { Fixed }
{}

// A tap aims off the page or at a later cell.
pub fn taps_aim_later()
    ensures { AimsLater }
{}

// By how much one more cell changes each account.
pub fn accounts_grow()
    ensures { OneMore }
{}

// A memory that changes as each cell says holds the run, and lays its inks.
pub fn memory_keeps_up()
    ensures { MemoryKeepsUp }
{}

// The sums kept make the accounts.
pub fn sums_answer()
    ensures { SumsAnswer }
{}

// Fixed-width numbers suffice for all that is computed and kept.
pub fn numbers_fit()
    ensures { Sizes }
{}
