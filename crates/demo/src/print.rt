// Printing a page with the nearest ink at each place, without diffusion.
ghost use Rattle.std.specs.Prelude.{◌≡◌, ℕ, ◌+◌, ◌*◌, ◌<◌, ◌≤◌, length, map, pos, IfOk, IfErr};
ghost use Rattle.demo.specs.Nearest.{nearest, Printed, PrintedInto, PrintedPage, Unprinted};
ghost use Rattle.tone.specs.Channels.{channels_of};

use crate::parts::Stopped;
use ink::InkSet;
use netpbm::PageTone;
use sheet::{ByteSheet, Sheet};
use source::Source;
use std::alloc::Global;
use tone::Tone;
use writer::write;

// The values of a tone's channels, as an ink set is asked for them.
fn wanted<T: Tone>(tone: &T) -> [i32; 3]
    ensures { result ≡ map pos (channels_of T.Tone.count (T.Tone.value tone.now)) }
{
    tone.values().map(|value| i32::from(value))
}

// The ink for a place of the page; ink 0 where the place is missing.
// Source and inks stay two arguments, here and below: each function is called in one place, with just these, and a struct
// would be no shorter.
fn ink_for<T: Tone, S: Source<T>, I: InkSet<T>>(
    source: &S,
    inks: &I,
    row: usize,
    column: usize,
) -> u16
    requires { (row < (S.Source.page source.now).height) × (column < (S.Source.page source.now).width) }
    ensures { result ≡ nearest T.Tone.count T.Tone.value (I.InkSet.meaning inks.now) ((S.Source.page source.now).place row column) }
{
    source
        .at(row, column)
        .map_or(0, |tone| inks.choose(wanted(&tone)))
}

// Lays the ink for each place of a row on a sheet of the page's size.
fn lay_row<T: Tone, S: Source<T>, I: InkSet<T>, L: Sheet>(
    source: &S,
    inks: &I,
    sheet: &mut L,
    row: usize,
)
    requires high { row < (S.Source.page source.now).height }
    requires room { (I.InkSet.meaning inks.now).number ≤ (L.Sheet.meaning sheet.old).limit }
    requires above { Printed T.Tone.count T.Tone.value (I.InkSet.meaning inks.now) (S.Source.page source.now) (L.Sheet.meaning sheet.old)
        (row * (S.Source.page source.now).width) }
    ensures limit { (L.Sheet.meaning sheet.new).limit ≡ (L.Sheet.meaning sheet.old).limit }
    ensures row { Printed T.Tone.count T.Tone.value (I.InkSet.meaning inks.now) (S.Source.page source.now) (L.Sheet.meaning sheet.new)
        ((row + 1) * (S.Source.page source.now).width) }
{
    for column in 0..usize::from(source.width()) {
        let number = ink_for(source, inks, row, column);
        sheet.lay(row, column, number).unwrap();
    }
}

// Lays the ink for each place of the page on a sheet of its size.
fn lay_nearest<T: Tone, S: Source<T>, I: InkSet<T>, L: Sheet>(source: &S, inks: &I, sheet: &mut L)
    requires wide { (L.Sheet.meaning sheet.old).width ≡ (S.Source.page source.now).width }
    requires high { (L.Sheet.meaning sheet.old).height ≡ (S.Source.page source.now).height }
    requires room { (I.InkSet.meaning inks.now).number ≤ (L.Sheet.meaning sheet.old).limit }
    ensures { Printed T.Tone.count T.Tone.value (I.InkSet.meaning inks.now) (S.Source.page source.now) (L.Sheet.meaning sheet.new)
        ((S.Source.page source.now).width * (S.Source.page source.now).height) }
{
    for row in 0..usize::from(source.height()) {
        lay_row(source, inks, sheet, row);
    }
}

// Writes the page of the nearest inks into a buffer, with memory for the sheet.
fn print_into<T: PageTone, S: Source<T>, I: InkSet<T>>(
    source: &S,
    inks: &I,
    memory: &mut [u8],
    page: &mut [u8],
) -> Result<usize, Stopped>
    ensures page { IfOk result (PrintedInto T.Tone.count T.Tone.value (I.InkSet.meaning inks.now) T.PageTone.letter (S.Source.page source.now) page.new) }
    ensures why { IfErr result (Unprinted (S.Source.page source.now) (length memory.old)) }
{
    let mut sheet = ByteSheet::new(memory, source.width(), source.height());
    if sheet.width() != source.width() || sheet.height() != source.height() {
        return Err(Stopped::NoSheet);
    }
    lay_nearest(source, inks, &mut sheet);
    Ok(write(inks, &sheet, page)?)
}

// The bytes of a page's header, at most.
const HEADER: usize = 32;

// The page file of the nearest inks.
pub fn print_page<T: PageTone, S: Source<T>, I: InkSet<T>>(
    heap: Global,
    source: &S,
    inks: &I,
) -> Result<Vec<u8>, Stopped>
    ensures page { IfOk result (λ v. PrintedPage T.Tone.count T.Tone.value (I.InkSet.meaning inks.now) T.PageTone.letter (S.Source.page source.now) v.items) }
    ensures why { IfErr result (Unprinted (S.Source.page source.now) ((S.Source.page source.now).width * (S.Source.page source.now).height)) }
{
    let cells = usize::from(source.width()) * usize::from(source.height());
    let mut memory = vec![in heap; 0u8; cells]?;
    let mut page = vec![in heap; 0u8; HEADER + cells * T::channels()]?;
    let length = print_into(source, inks, memory.as_mut_slice(), page.as_mut_slice())?;
    page.truncate(length);
    Ok(page)
}
