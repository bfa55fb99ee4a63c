// The stages: read, crop, negative, print.
ghost use Rattle.demo.specs.Staged.{Staged};

use crate::parts::{Stages, Stopped};
use crate::print::print_page;
use ink::InkSet;
use netpbm::{PageTone, read};
use preview::look;
use source::{Crop, Negative, Window};
use std::alloc::Global;

// Reads the page, looks at it, at a window of it, and at the window's negative, and prints that with the nearest inks.
pub fn stages<T: PageTone, I: InkSet<T>>(
    heap: Global,
    bytes: &[u8],
    window: &Window,
    inks: &I,
) -> Result<Stages, Stopped>
    ensures { Staged T.PageTone.letter T.Tone.count T.Tone.value T.Tone.made (I.InkSet.meaning inks.now) bytes.now window.now result }
{
    let reader = read::<T>(bytes)?;
    let page = look(heap, &reader)?;
    let cropped = Crop::new(reader, *window);
    let shown = look(heap, &cropped)?;
    let negative = Negative::new(cropped, true);
    let turned = look(heap, &negative)?;
    let printed = print_page(heap, &negative, inks)?;
    Ok(Stages {
        page,
        window: shown,
        negative: turned,
        printed,
    })
}

#[cfg(test)]
mod tests {
    use super::*;
    use ink::ColourLevels;
    use source::{Fault, Spot};
    use std::test::Fail;
    use tone::Colour;

    // Black, white, red; green, blue, and a place of which one byte is missing.
    const PAGE: &[u8] =
        b"P6\n3 2\n255\n\x00\x00\x00\xff\xff\xff\xff\x00\x00\x00\xff\x00\x00\x00\xff\x0a\x14";

    // The negative's black, cyan and yellow are inks of the set; the missing place is ink 0, black.
    const PRINTED: &[u8] = b"P6\n2 2\n255\n\x00\x00\x00\x00\xff\xff\xff\xff\x00\x00\x00\x00";

    #[test]
    fn colour_page(rt: HostRuntime) -> Result<(), Fail> {
        let window = Window {
            top: 0,
            left: 1,
            height: 2,
            width: 9,
        };
        let Ok(seen) = stages::<Colour, ColourLevels>(
            rt.alloc(),
            PAGE,
            &window,
            &ColourLevels::new(2),
        ) else {
            return Err(Fail::new("no page"));
        };
        assert_eq!(rt; seen.page.picture.as_str(), "@ *\n**?\n");
        assert_eq!(rt; seen.window.picture.as_str(), " *\n*?\n");
        assert_eq!(rt; seen.negative.picture.as_str(), "@-\n-?\n");
        assert_eq!(rt; seen.printed.as_slice(), PRINTED);
        let spot = Spot {
            layer: 0,
            row: 1,
            column: 2,
        };
        assert!(rt; seen.negative.missing == Some(Fault::Missing(spot)));
        Ok(())
    }
}
