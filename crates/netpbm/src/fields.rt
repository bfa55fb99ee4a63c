// The fields of a header. A field is white space, then a number of one to five digits; a field that
// is refused leaves the reading place where it began.
ghost use Rattle.std.specs.Prelude.{◌≡◌, ℕ, ◌+◌, ◌<◌, ◌≤◌, drop, length, take, true, MatchOption, MatchResult, OnErr};
ghost use Rattle.std.specs.List.{prefix_len};
ghost use Rattle.std.specs.Str.{all_ascii_digits};
ghost use Rattle.netpbm.specs.Fields.{white, digit, after_white, decimal_value, Number, NoNumber, Field, NoField};
ghost use Rattle.netpbm.specs.Headers.{SizeField, SizeRefused, MaximumField, MaximumRefused};
ghost use Rattle.netpbm.specs.Refusals.{told};

use crate::fault::PageFault;
use crate::guard::FieldGuard;

// The bytes of a page file, and the place where reading has come to.
#[derive(Drop)]
pub(crate) struct Fields<'a> {
    pub(crate) bytes: &'a [u8],
    pub(crate) place: usize,
}

// Space, tab, CR or LF.
fn is_white(b: u8) -> bool
    ensures { result ≡ white b }
{
    // not `matches!`, which takes several times as long where the four are mixed
    b == b' ' || b == b'\t' || b == b'\r' || b == b'\n'
}

// The number that one to five digits write.
fn value_of(digits: &[u8]) -> u32
    requires digits { all_ascii_digits digits.now ≡ true }
    requires few { length digits.now ≤ 5 }
    ensures { result ≡ decimal_value digits.now }
{
    let mut value = 0;
    for digit in digits {
        value = value * 10 + u32::from(*digit - b'0');
    }
    value
}

impl Fields<'_> {
    // The bytes from the place on.
    fn rest(&self) -> &[u8]
        ensures { result.now ≡ drop self.now.place self.now.bytes.now }
    {
        &self.bytes[self.place.min(self.bytes.len())..]
    }

    // How many white bytes stand from the place on.
    fn count_white(&self) -> usize
        ensures { result ≡ prefix_len white (drop self.now.place self.now.bytes.now) }
    {
        self.rest().iter().take_while(|b| is_white(**b)).count()
    }

    // How many digits stand from the place on, of the first six bytes alone: a number has no more than five.
    fn count_digits(&self) -> usize
        ensures { result ≡ prefix_len digit (take 6 (drop self.now.place self.now.bytes.now)) }
    {
        let rest = self.rest().iter().take(6);
        rest.take_while(|b| b.is_ascii_digit()).count()
    }

    // Goes past the white space at the place, if there is some.
    fn skip_white(&mut self) -> Option<()>
        ensures bytes { self.new.bytes.now ≡ self.old.bytes.now }
        ensures place { MatchOption result
            ((self.new.place ≡ self.old.place) × (after_white self.old.bytes.now self.old.place ≡ self.old.place))
            (λ _. (self.new.place ≡ after_white self.old.bytes.now self.old.place) × (self.old.place < self.new.place)) }
    {
        let white @ 1.. = self.count_white() else {
            return None;
        };
        self.place += white;
        Some(())
    }

    // Goes past the number at the place, if there is one, and answers its value.
    fn number(&mut self) -> Option<u32>
        ensures bytes { self.new.bytes.now ≡ self.old.bytes.now }
        ensures value { MatchOption result
            ((self.new.place ≡ self.old.place) × NoNumber self.old.bytes.now self.old.place)
            (λ v. Number self.old.bytes.now self.old.place v self.new.place) }
    {
        let digits @ 1..=5 = self.count_digits() else {
            return None;
        };
        let end = self.place + digits;
        let value = value_of(&self.bytes[self.place..end]);
        self.place = end;
        Some(value)
    }

    // The field at the place.
    fn field(&mut self) -> Result<u32, PageFault>
        ensures bytes { self.new.bytes.now ≡ self.old.bytes.now }
        ensures back { OnErr result (self.new.place ≡ self.old.place) }
        ensures field { MatchResult result
            (λ v. Field self.old.bytes.now self.old.place v self.new.place)
            (λ e. (e ≡ PageFault.Field self.old.place) × NoField self.old.bytes.now self.old.place) }
    {
        let start = self.place;
        let guard = FieldGuard {
            fields: self,
            start,
        };
        guard.fields.skip_white().ok_or(PageFault::Field(start))?;
        let value = guard.fields.number().ok_or(PageFault::Field(start))?;
        guard.accept();
        Ok(value)
    }

    // A width or a height.
    pub(crate) fn size(&mut self) -> Result<u16, PageFault>
        ensures bytes { self.new.bytes.now ≡ self.old.bytes.now }
        ensures back { OnErr result (self.new.place ≡ self.old.place) }
        ensures size { MatchResult result
            (λ v. SizeField self.old.bytes.now self.old.place v self.new.place)
            (λ e. ((told e).byte ≡ self.old.place) × SizeRefused self.old.bytes.now self.old.place (told e).number) }
    {
        let start = self.place;
        let guard = FieldGuard {
            fields: self,
            start,
        };
        let value = guard.fields.field()?;
        let Ok(size @ 1..) = u16::try_from(value) else {
            return Err(PageFault::Size(start));
        };
        guard.accept();
        Ok(size)
    }

    // The maximum with the white byte after it, which the place goes past: the samples begin there.
    pub(crate) fn maximum(&mut self) -> Result<(), PageFault>
        ensures bytes { self.new.bytes.now ≡ self.old.bytes.now }
        ensures back { OnErr result (self.new.place ≡ self.old.place) }
        ensures maximum { MatchResult result
            (λ _. MaximumField self.old.bytes.now self.old.place self.new.place)
            (λ e. ((told e).byte ≡ self.old.place) × MaximumRefused self.old.bytes.now self.old.place (told e).number) }
    {
        let start = self.place;
        let guard = FieldGuard {
            fields: self,
            start,
        };
        let value = guard.fields.field()?;
        let end = guard.fields.place;
        if !guard.fields.bytes.get(end).is_some_and(|b| is_white(*b)) {
            return Err(PageFault::Field(start));
        }
        if value != 255 {
            return Err(PageFault::Maximum(start));
        }
        guard.fields.place = end + 1;
        guard.accept();
        Ok(())
    }
}
