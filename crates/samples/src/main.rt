// Reads page files that other programs wrote, and prints each: its kind, its size and every sample,
// or the refusal with its number and byte. `data/README.md` says how each file was made.
#![tactic(auto)]

mod open;
mod text;

use open::{AnyPage, open_page};
use source::Source;
use std::fs;
use std::io::Write;
use text::page_text;
use tone::Tone;

const FILES: [&str; 14] = [
    "netpbm_ramp.pgm",
    "netpbm_rainbow.ppm",
    "netpbm_grey.pgm",
    "netpbm_cut.ppm",
    "netpbm_short.ppm",
    "netpbm_max15.pgm",
    "netpbm_plain.pgm",
    "imagemagick_gradient.pgm",
    "imagemagick_gradient.ppm",
    "imagemagick_deep.pgm",
    "graphicsmagick_gradient.ppm",
    "ffmpeg_testsrc.ppm",
    "ffmpeg_mandelbrot.pgm",
    "gimp_gradient.pgm",
];

// Prints a page: its size, and its samples in hexadecimal digits, a row to a line.
fn show<T: Tone, S: Source<T>>(rt: &HostRuntime, kind: &str, page: &S) -> anyhow::Result<()> {
    let width = page.width();
    let height = page.height();
    println!(rt; "{kind}, {width} by {height}")?;
    let text = page_text::<T, S>(rt.alloc(), page)?;
    // one write: by `print!` the text would go out in pieces of a kibibyte
    rt.stdout().write_all(text.as_bytes())?;
    Ok(())
}

fn main(rt: HostRuntime) -> anyhow::Result<()> {
    for name in FILES {
        let bytes = fs::read(&rt, name)?;
        print!(rt; "{name}: ")?;
        match open_page(&bytes) {
            Ok(AnyPage::Grey(page)) => show(&rt, "grey", &page)?,
            Ok(AnyPage::Colour(page)) => show(&rt, "colour", &page)?,
            Err(fault) => println!(rt; "refused, {fault}")?,
        }
    }
    Ok(())
}
