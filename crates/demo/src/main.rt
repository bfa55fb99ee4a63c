// One page from standard input to a page file: read, cropped, turned to its negative, and printed with the nearest inks.
//
// The work is `stages`, a function on values with a contract; this file reads, picks the kind of tone and its inks,
// prints what was done, and writes the page to the file that the first argument names, if there is one. A second
// argument is the number of levels in each channel, 4 for grey and 2 for colour if there is none.
#![tactic(auto)]

mod parts;
mod print;
mod stages;

use ink::{ColourLevels, GreyLevels, InkSet};
use netpbm::{PageTone, read};
use parts::{Stages, Stopped};
use preview::{View, look};
use source::Window;
use stages::stages;
use std::io::Read;
use std::{env, fs, io};
use tone::{Colour, Grey};

// The most bytes of input that are looked at.
const INPUT: u64 = 1 << 24;

// The window that the crop shows.
const WINDOW: Window = Window {
    top: 1,
    left: 2,
    height: 6,
    width: 12,
};

fn print_stage(rt: &HostRuntime, name: &str, view: &View) -> io::Result<()> {
    print!(rt; "{name}: {view}")?;
    match view.missing {
        Some(fault) => println!(rt; "first missing place of the {name}: fault {fault}"),
        None => Ok(()),
    }
}

fn print_stages(rt: &HostRuntime, kind: &str, stages: &Stages) -> io::Result<()> {
    println!(rt; "read a {kind} page")?;
    print_stage(rt, "page", &stages.page)?;
    let Window {
        top,
        left,
        height,
        width,
    } = WINDOW;
    println!(rt; "cropped to {height} rows and {width} columns at row {top}, column {left}")?;
    print_stage(rt, "window", &stages.window)?;
    println!(rt; "turned to its negative")?;
    print_stage(rt, "negative", &stages.negative)
}

// Reads the written page again, and shows it. A bitmap is not read.
fn print_written<T: PageTone>(rt: &HostRuntime, page: &[u8]) -> io::Result<()> {
    let length = page.len();
    println!(rt; "wrote a page of {length} bytes")?;
    if let [b'P', b'4', ..] = page {
        return println!(rt; "it is a bitmap");
    }
    match read::<T>(page) {
        Ok(reader) => print_stage(rt, "written page", &look(rt.alloc(), &reader)?),
        Err(fault) => println!(rt; "no page: fault {fault}"),
    }
}

// Writes the page to the file that the first argument names.
fn save(rt: &HostRuntime, page: &[u8]) -> io::Result<()> {
    match env::args(rt)?.nth(1) {
        Some(path) => fs::write(rt, path.as_str(), page),
        None => Ok(()),
    }
}

// The number that the second argument gives, or `steps`.
fn levels(rt: &HostRuntime, steps: u16) -> io::Result<u16> {
    let word = env::args(rt)?.nth(2);
    Ok(word.map_or(steps, |word| word.as_str().parse::<u16>().unwrap_or(steps)))
}

fn show<T: PageTone, I: InkSet<T>>(
    rt: &HostRuntime,
    kind: &str,
    page: &[u8],
    inks: &I,
) -> io::Result<()> {
    match stages::<T, I>(rt.alloc(), page, &WINDOW, inks) {
        Ok(done) => {
            print_stages(rt, kind, &done)?;
            let count = inks.count();
            println!(rt; "printed with the nearest of {count} inks")?;
            print_written::<T>(rt, done.printed.as_slice())?;
            save(rt, done.printed.as_slice())
        }
        Err(stopped) => println!(rt; "{stopped}"),
    }
}

fn main(rt: HostRuntime) -> io::Result<()> {
    let mut input = Vec::new(rt.alloc());
    rt.stdin().take(INPUT).read_to_end(&mut input)?;
    match input.as_slice() {
        [b'P', b'6', ..] => {
            let inks = ColourLevels::new(levels(&rt, 2)?);
            show::<Colour, ColourLevels>(&rt, "colour", &input, &inks)
        }
        _ => {
            let inks = GreyLevels::new(levels(&rt, 4)?);
            show::<Grey, GreyLevels>(&rt, "grey", &input, &inks)
        }
    }
}
