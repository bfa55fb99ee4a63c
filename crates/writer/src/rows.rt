// The rows of a page as bytes.
ghost use Rattle.std.specs.Prelude.{◌≡◌, ℕ, ◌+◌, ◌*◌, ◌<◌, ◌≤◌, List, length};
ghost use Rattle.writer.specs.Pages.{pieces};

pub(crate) trait Rows {
    // how many rows there are, how many bytes each has, and the bytes
    ghost number: { Self → ℕ };

    ghost row_bytes: { Self → ℕ };

    ghost bytes: { Self → ℕ → List ℕ };

    fn number(&self) -> u16
        ensures { result ≡ number self.now };

    // A row has at most 65,535 places of three bytes.
    fn row_bytes(&self) -> usize
        ensures value { result ≡ row_bytes self.now }
        ensures bound { result ≤ 65535 * 3 }
        ensures each { (row : ℕ) → length (bytes self.now row) ≡ row_bytes self.now };

    // Writes a row over the whole slice.
    fn put_row(&self, row: usize, out: &mut [u8])
        requires { (row < number self.now) × (length out.old ≡ row_bytes self.now) }
        ensures { out.new ≡ bytes self.now row };
}

// Writes all rows over the whole slice.
pub(crate) fn put_rows<R: Rows>(rows: &R, out: &mut [u8])
    requires { length out.old ≡ R.number rows.now * R.row_bytes rows.now }
    ensures { out.new ≡ pieces (R.bytes rows.now) (R.number rows.now) }
{
    let n = rows.row_bytes();
    // not `chunks_exact_mut`, of which a proof knows only how long the slice is afterwards
    for row in 0..usize::from(rows.number()) {
        rows.put_row(row, &mut out[row * n..(row + 1) * n]);
    }
}
