// Pages of tones, P5 and P6, and the buffer.
use ink::{GreyLevels, InkList};
use sheet::{ByteSheet, Sheet};
use std::test::Fail;
use tone::{Colour, Grey, Tone};
use writer::{WriteFault, write};

#[test]
fn grey_levels(rt: HostRuntime) -> Result<(), Fail> {
    let mut memory = [0u8; 3];
    let mut page = [7u8; 16];
    let mut sheet = ByteSheet::new(&mut memory, 3, 1);
    sheet.lay(0, 0, 1)?;
    sheet.lay(0, 1, 3)?;
    sheet.lay(0, 2, 4)?;
    let length = write::<Grey, _, _>(&GreyLevels::new(4), &sheet, &mut page)?;
    assert_eq!(rt; length, 14);
    assert_eq!(rt;
        &page[..16],
        b"P5\n3 1\n255\n\x55\xff\x00\x07\x07".as_slice()
    );
    Ok(())
}

#[test]
fn colour_list(rt: HostRuntime) -> Result<(), Fail> {
    let inks = [Colour::build([1, 2, 3]), Colour::build([250, 0, 9])];
    let mut memory = [0u8; 2];
    let mut page = [0u8; 17];
    let mut sheet = ByteSheet::new(&mut memory, 1, 2);
    sheet.lay(1, 0, 1)?;
    let length = write::<Colour, _, _>(&InkList::new(&inks), &sheet, &mut page)?;
    assert_eq!(rt; length, 17);
    assert_eq!(rt;
        &page[..17],
        b"P6\n1 2\n255\n\x01\x02\x03\xfa\x00\x09".as_slice()
    );
    Ok(())
}

// 1,024 columns: four digits, and a header of 14 bytes.
#[test]
fn short_by_one(rt: HostRuntime) {
    let mut memory = [0u8; 1024];
    let mut page = [9u8; 1037];
    let sheet = ByteSheet::new(&mut memory, 1024, 1);
    let answer = write::<Grey, _, _>(&GreyLevels::new(6), &sheet, &mut page);
    assert_eq!(rt; answer, Err(WriteFault::Short));
    assert_eq!(rt; page[0], 9);
    let mut long = [9u8; 1038];
    assert_eq!(rt;
        write::<Grey, _, _>(&GreyLevels::new(6), &sheet, &mut long),
        Ok(1038)
    );
}

#[test]
fn no_sheet(rt: HostRuntime) -> Result<(), Fail> {
    let mut memory = [0u8; 1];
    let mut page = [9u8; 12];
    let sheet = ByteSheet::new(&mut memory, 2, 1);
    let length = write::<Grey, _, _>(&GreyLevels::new(4), &sheet, &mut page)?;
    assert_eq!(rt; length, 11);
    assert_eq!(rt; &page[..12], b"P5\n0 0\n255\n\x09".as_slice());
    Ok(())
}
