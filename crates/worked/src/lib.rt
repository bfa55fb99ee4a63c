// Small pages worked out by hand, against the definition of the dots and of the accounts.
#![tactic(auto)]

ghost use Rattle.worked.specs.Pages.{Worked};

// Every worked page has the inks and the accounts listed for it, and every ink set the choices listed.
pub fn pages_come_out()
    ensures { Worked }
{}
