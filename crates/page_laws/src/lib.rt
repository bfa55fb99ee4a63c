// Laws of page files. Each function's contract is one theorem, proved in proofs/; the functions do nothing.
#![tactic(auto)]

ghost use Rattle.page_laws.specs.Plain.{PlainPage};
ghost use Rattle.page_laws.specs.Readings.{OneReading};

use netpbm::PageTone;

// Every list of bytes is read in exactly one way: a header, or a refusal with its byte.
pub fn headers_read_one_way()
    ensures { OneReading }
{}

// The plainest header of any size, and any bytes after it, read as that size and exactly those samples.
pub fn plain_pages_read<T: PageTone>()
    ensures { PlainPage T.PageTone.letter T.Tone.count T.Tone.made }
{}
