// A page as text: a line for each row, and in it each place as a space and two hexadecimal digits
// for each channel, or two hyphens for each channel where the place is missing.
ghost use Rattle.std.specs.Prelude.{◌≡◌, ℕ, ◌<◌, ◌++◌, IfOk, OnOk, string_bytes};
ghost use Rattle.source.specs.Faults.{said};
ghost use Rattle.samples.specs.Texts.{hex_digit, sample_text, place_text, row_text, text_of};

use source::{Fault, Source};
use std::alloc::{AllocError, Global};
use tone::Tone;

// A hexadecimal digit.
fn digit(value: u8) -> char
    requires { value < 16 }
    ensures here { result ≡ hex_digit value }
    ensures ascii { result < 128 }
{
    char::from(if value < 10 {
        b'0' + value
    } else {
        b'a' + (value - 10)
    })
}

// Appends the text of one channel of a source's answer.
fn push_sample<T: Tone>(
    text: &mut String,
    answer: &Result<T, Fault>,
    channel: usize,
) -> Result<(), AllocError>
    ensures { OnOk result (string_bytes text.new ≡ string_bytes text.old ++ sample_text T.Tone.count T.Tone.value (said answer.now) channel) }
{
    // a match, since both answers write text; two digits, since `{:02x}` takes four times as long
    match answer {
        Ok(tone) => {
            let sample = tone.channel(channel);
            text.push(digit(sample / 16))?;
            text.push(digit(sample % 16))
        }
        Err(_) => text.push_str("--"),
    }
}

// Appends the text of a place, from the source's answer there.
fn push_place<T: Tone>(text: &mut String, answer: &Result<T, Fault>) -> Result<(), AllocError>
    ensures { OnOk result (string_bytes text.new ≡ string_bytes text.old ++ place_text T.Tone.count T.Tone.value (said answer.now)) }
{
    text.push(' ')?;
    for channel in 0..T::channels() {
        push_sample(text, answer, channel)?;
    }
    Ok(())
}

// Appends the line of a row.
fn push_row<T: Tone, S: Source<T>>(
    text: &mut String,
    page: &S,
    row: usize,
) -> Result<(), AllocError>
    ensures { OnOk result (string_bytes text.new ≡ string_bytes text.old ++ row_text T.Tone.count T.Tone.value (S.Source.page page.now) row) }
{
    for column in 0..usize::from(page.width()) {
        push_place(text, &page.at(row, column))?;
    }
    text.push('\n')
}

// The text of a page.
pub fn page_text<T: Tone, S: Source<T>>(heap: Global, page: &S) -> Result<String, AllocError>
    ensures { IfOk result (λ text. string_bytes text ≡ text_of T.Tone.count T.Tone.value (S.Source.page page.now)) }
{
    let mut text = String::new(heap);
    for row in 0..usize::from(page.height()) {
        push_row(&mut text, page, row)?;
    }
    Ok(text)
}
