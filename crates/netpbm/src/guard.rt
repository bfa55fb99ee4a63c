// The guard over the reading place.
ghost use Rattle.std.specs.Prelude.{◌≡◌, ℕ};

use crate::fields::Fields;

// Puts the reading place back where the field began, on each way out, unless the field is accepted.
// It is written out where it is made: a constructor was tried, after which the checker does not know the cursor.
pub(crate) struct FieldGuard<'c, 'a> {
    pub(crate) fields: &'c mut Fields<'a>,
    pub(crate) start: usize,
}

impl Drop for FieldGuard<'_, '_> {
    fn drop(self)
        ensures { self.exit.0.now ≡ record self.entry.fields.now { place = self.entry.start } }
    {
        self.fields.place = self.start;
        let FieldGuard {
            fields: _,
            start: _,
        } = self;
    }
}

impl FieldGuard<'_, '_> {
    // Leaves the place where reading has come to.
    pub(crate) fn accept(self)
        ensures { self.exit.0.now ≡ self.entry.fields.now }
    {
        let FieldGuard {
            fields: _,
            start: _,
        } = self;
    }
}
