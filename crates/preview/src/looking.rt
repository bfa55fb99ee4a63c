// Looking at a source, place by place.
ghost use Rattle.std.specs.Prelude.{◌≡◌, ℕ, ◌<◌, ◌++◌, IfOk, string_bytes, OnOk};
ghost use Rattle.source.specs.Pages.{answer};
ghost use Rattle.preview.specs.Marks.{mark_of, mark_told, row_text, picture_of};
ghost use Rattle.preview.specs.Missing.{missing_of_row, missing_of_page, heard};
ghost use Rattle.preview.specs.Views.{Shows};

use crate::view::View;
use source::{Fault, Source};
use std::alloc::{AllocError, Global};
use tone::Tone;

// The most that a picture shows of a page, from its upper left corner.
const ROWS: u16 = 20;

const COLUMNS: u16 = 72;

// Marks from dark to light.
const MARKS: [char; 10] = ['@', '%', '#', '*', '+', '=', '-', ':', '.', ' '];

// The mark of a tone, by the mean of its channels.
fn mark<T: Tone>(tone: &T) -> char
    ensures here { result ≡ mark_of T.Tone.count (T.Tone.value tone.now) }
    ensures ascii { result < 128 }
{
    let sum: usize = tone.values().iter().map(|value| usize::from(*value)).sum();
    MARKS[sum / T::channels() * 10 / 256]
}

// The mark of a place, '?' where there is no tone.
fn mark_at<T: Tone, S: Source<T>>(source: &S, row: usize, column: usize) -> char
    ensures here { result ≡ mark_told T.Tone.count T.Tone.value (answer (S.Source.page source.now) row column) }
    ensures ascii { result < 128 }
{
    source.at(row, column).map_or('?', |tone| mark(&tone))
}

// Adds the line of a row to the picture.
fn add_row<T: Tone, S: Source<T>>(
    source: &S,
    row: usize,
    picture: &mut String,
) -> Result<(), AllocError>
    ensures { OnOk result (string_bytes picture.new ≡ string_bytes picture.old ++ row_text T.Tone.count T.Tone.value (S.Source.page source.now) row) }
{
    for column in 0..usize::from(source.width().min(COLUMNS)) {
        picture.push(mark_at(source, row, column))?;
    }
    picture.push('\n')?;
    Ok(())
}

// The fault of the first missing place of a row of the page. Here and below a chain by
// `find_map` was tried, and its proof did not close.
fn missing_in_row<T: Tone, S: Source<T>>(source: &S, row: usize) -> Option<Fault>
    requires { row < (S.Source.page source.now).height }
    ensures { heard result ≡ missing_of_row (S.Source.page source.now) row }
{
    for column in 0..usize::from(source.width()) {
        if let Err(fault) = source.at(row, column) {
            return Some(fault);
        }
    }
    None
}

// The fault of the first missing place of the page.
fn first_missing<T: Tone, S: Source<T>>(source: &S) -> Option<Fault>
    ensures { heard result ≡ missing_of_page (S.Source.page source.now) }
{
    for row in 0..usize::from(source.height()) {
        if let Some(fault) = missing_in_row(source, row) {
            return Some(fault);
        }
    }
    None
}

// The picture of the page's upper left corner.
fn picture<T: Tone, S: Source<T>>(heap: Global, source: &S) -> Result<String, AllocError>
    ensures { IfOk result (λ s. string_bytes s ≡ picture_of T.Tone.count T.Tone.value (S.Source.page source.now)) }
{
    let mut picture = String::new(heap);
    for row in 0..usize::from(source.height().min(ROWS)) {
        add_row(source, row, &mut picture)?;
    }
    Ok(picture)
}

// Looks at the whole page.
pub fn look<T: Tone, S: Source<T>>(heap: Global, source: &S) -> Result<View, AllocError>
    ensures { IfOk result (Shows T.Tone.count T.Tone.value (S.Source.page source.now)) }
{
    let picture = picture(heap, source)?;
    Ok(View {
        width: source.width(),
        height: source.height(),
        picture,
        missing: first_missing(source),
    })
}
