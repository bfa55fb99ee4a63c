// Two grey inks, black and white: P4.
use ink::{GreyLevels, InkList};
use sheet::{BitSheet, ByteSheet, Sheet};
use std::test::Fail;
use tone::{Grey, Tone};
use writer::write;

#[test]
fn a_row_of_three(rt: HostRuntime) -> Result<(), Fail> {
    let mut memory = [0u8; 1];
    let mut page = [7u8; 10];
    let mut sheet = BitSheet::new(&mut memory, 3, 1);
    sheet.lay(0, 1, 1)?;
    let length = write::<Grey, _, _>(&GreyLevels::new(2), &sheet, &mut page)?;
    assert_eq!(rt; length, 8);
    assert_eq!(rt; &page[..10], b"P4\n3 1\n\xa0\x07\x07".as_slice());
    Ok(())
}

#[test]
fn numbers_past_the_inks(rt: HostRuntime) -> Result<(), Fail> {
    let mut memory = [0u8; 3];
    let mut page = [0u8; 8];
    let mut sheet = ByteSheet::new(&mut memory, 3, 1);
    sheet.lay(0, 0, 1)?;
    sheet.lay(0, 1, 2)?;
    sheet.lay(0, 2, 255)?;
    let length = write::<Grey, _, _>(&GreyLevels::new(2), &sheet, &mut page)?;
    assert_eq!(rt; length, 8);
    assert_eq!(rt; &page[..8], b"P4\n3 1\n\x60".as_slice());
    Ok(())
}

#[test]
fn a_list_of_black_and_white(rt: HostRuntime) -> Result<(), Fail> {
    let inks = [Grey::build([0, 0, 0]), Grey::build([255, 0, 0])];
    let mut memory = [0u8; 18];
    let mut page = [0u8; 12];
    let mut sheet = ByteSheet::new(&mut memory, 9, 2);
    sheet.lay(0, 8, 1)?;
    sheet.lay(1, 0, 1)?;
    let length = write::<Grey, _, _>(&InkList::new(&inks), &sheet, &mut page)?;
    assert_eq!(rt; length, 11);
    assert_eq!(rt; &page[..11], b"P4\n9 2\n\xff\x00\x7f\x80".as_slice());
    Ok(())
}
