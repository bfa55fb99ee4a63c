// Sheets on small pieces of memory.
use crate::{BitSheet, Bits, ByteSheet, MAX_HEIGHT, MAX_WIDTH, Sheet, SheetFault, mark_lent};

#[test]
fn new_rows_are_black_and_padded(rt: HostRuntime) {
    let mut memory = [0x55u8; 3];
    let sheet = BitSheet::new(&mut memory, 3, 1);
    assert_eq!(rt; sheet.width(), 3);
    assert_eq!(rt; sheet.height(), 1);
    assert_eq!(rt; sheet.limit(), 2);
    assert_eq!(rt; sheet.ink_at(0, 2), Ok(0));
    assert_eq!(rt; memory, [0xE0, 0x55, 0x55]);
}

#[test]
fn too_little_memory_makes_no_sheet(rt: HostRuntime) {
    let mut memory = [7u8; 1];
    let sheet = BitSheet::new(&mut memory, 9, 1);
    assert_eq!(rt; sheet.width(), 0);
    assert_eq!(rt; sheet.height(), 0);
    assert_eq!(rt; sheet.ink_at(0, 0), Err(SheetFault::OffSheet));
    assert_eq!(rt; memory, [7]);
}

#[test]
fn sizes_have_limits(rt: HostRuntime) {
    let mut memory = [0u8; 8193];
    assert_eq!(rt; ByteSheet::new(&mut memory, MAX_WIDTH, 1).width(), 1024);
    assert_eq!(rt; ByteSheet::new(&mut memory, MAX_WIDTH + 1, 1).width(), 0);
    assert_eq!(rt; ByteSheet::new(&mut memory, 1, MAX_HEIGHT).height(), 8192);
    assert_eq!(rt; ByteSheet::new(&mut memory, 1, MAX_HEIGHT + 1).height(), 0);
    assert_eq!(rt; ByteSheet::new(&mut memory, 5, 0).width(), 0);
}

#[test]
fn off_the_sheet_comes_before_the_limit(rt: HostRuntime) {
    let mut memory = [0u8; 2];
    let mut sheet = BitSheet::new(&mut memory, 9, 1);
    assert_eq!(rt; sheet.lay(0, 8, 1), Ok(()));
    assert_eq!(rt; sheet.lay(0, 9, 1), Err(SheetFault::OffSheet));
    assert_eq!(rt; sheet.lay(0, 9, 2), Err(SheetFault::OffSheet));
    assert_eq!(rt; sheet.lay(1, 0, 0), Err(SheetFault::OffSheet));
    assert_eq!(rt; sheet.lay(0, 0, 2), Err(SheetFault::OverLimit));
    assert_eq!(rt; memory, [0xFF, 0x00]);
}

#[test]
fn bytes_hold_the_numbers(rt: HostRuntime) {
    let mut memory = [9u8; 5];
    let mut sheet = ByteSheet::new(&mut memory, 2, 2);
    assert_eq!(rt; sheet.lay(1, 0, 255), Ok(()));
    assert_eq!(rt; sheet.lay(1, 0, 256), Err(SheetFault::OverLimit));
    assert_eq!(rt; sheet.ink_at(1, 0), Ok(255));
    assert_eq!(rt; memory, [0, 0, 255, 0, 9]);
}

#[test]
fn marks_leave_pad_bits(rt: HostRuntime) {
    let mut memory = [1u8; 3];
    mark_lent::<Bits>(&mut memory, 3, 2, 0, 1);
    assert_eq!(rt; memory, [0xA0, 0x60, 1]);
}
