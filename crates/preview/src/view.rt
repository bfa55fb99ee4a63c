// What is seen of a page.
ghost use Rattle.std.specs.Prelude.{◌++◌, Some, codes, decimal, string_bytes};

use source::Fault;
use std::fmt;

// The size; a picture of the upper left corner, which has a line of marks for each row, '@' for dark to
// ' ' for light and '?' for a missing place; and the fault of the page's first missing place in reading order.
#[derive(Drop)]
pub struct View {
    pub width: u16,
    pub height: u16,
    pub picture: String,
    pub missing: Option<Fault>,
}

// The size, and the picture below it.
impl fmt::Display for View {
    ghost output = { λ v. Some (decimal v.width ++ codes " wide, " ++ decimal v.height ++ codes " high\n" ++ string_bytes v.picture) };

    fn fmt<W: fmt::Write>(&self, f: &mut fmt::Formatter<W>) -> fmt::Result {
        let width = self.width;
        let height = self.height;
        let picture = self.picture.as_str();
        write!(f, "{width} wide, {height} high\n{picture}")
    }
}
