// The header of a page at the boundaries of each of its rules. A case is the bytes with the refusal
// and its byte, or with the width and the height of the page.
//
// The fields are judged from left to right, each wholly before the next; a refusal of a field tells
// the byte where that field begins, at its white space.
use crate::outcome::{Outcome, judge};
use netpbm::PageFault;
use tone::{Colour, Grey};

// 15: a grey page begins with P5.
const NO_GREY: [&[u8]; 12] = [
    b"",
    b"P",
    b"5",
    b"Px",
    b"p5 1 1 255\n",
    b"5P 1 1 255\n",
    b" P5 1 1 255\n",
    b"P1\n1 1\n0\n",
    b"P2\n1 1\n255\n7\n",
    b"P4\n1 1\n\x80",
    b"P6 1 1 255\n\x01\x02\x03",
    b"P7\nWIDTH 1\n",
];

// 15: a colour page begins with P6.
const NO_COLOUR: [&[u8]; 5] = [
    b"",
    b"P",
    b"6",
    b"P3\n1 1\n255\n1 2 3\n",
    b"P5 1 1 255\n\x01",
];

// Refusals in the three fields: 16 where white space or the number is wrong, 17 where a width or a
// height is not 1 to 65,535, 18 where the maximum is not 255.
const REFUSED: [(&[u8], PageFault); 82] = [
    // The width begins at byte 2.
    // - nothing, or no white byte; vertical tab and form feed are none
    (b"P5", PageFault::Field(2)),
    (b"P51 1 255\n", PageFault::Field(2)),
    (b"P5x 1 1 255\n", PageFault::Field(2)),
    (b"P5\x001 1 255\n", PageFault::Field(2)),
    (b"P5\x081 1 255\n", PageFault::Field(2)),
    (b"P5\x0b1 1 255\n", PageFault::Field(2)),
    (b"P5\x0c1 1 255\n", PageFault::Field(2)),
    (b"P5\x0e1 1 255\n", PageFault::Field(2)),
    // - no digit; the bytes on both sides of the digits are none
    (b"P5 ", PageFault::Field(2)),
    (b"P5 \t\r\n", PageFault::Field(2)),
    (b"P5 x1 1 255\n", PageFault::Field(2)),
    (b"P5 -1 1 255\n", PageFault::Field(2)),
    (b"P5 +1 1 255\n", PageFault::Field(2)),
    (b"P5 /1 1 255\n", PageFault::Field(2)),
    (b"P5 :1 1 255\n", PageFault::Field(2)),
    // - a comment
    (b"P5 #c\n1 1 255\n", PageFault::Field(2)),
    (b"P5#c\n1 1 255\n", PageFault::Field(2)),
    // - a sixth digit
    (b"P5 000001 1 255\n", PageFault::Field(2)),
    (b"P5 100000 1 255\n", PageFault::Field(2)),
    (b"P5 0000001 1 255\n", PageFault::Field(2)),
    // - the value
    (b"P5 0 1 255\n", PageFault::Size(2)),
    (b"P5 00000 1 255\n", PageFault::Size(2)),
    (b"P5 65536 1 255\n", PageFault::Size(2)),
    (b"P5 99999 1 255\n", PageFault::Size(2)),
    (b"P5 \t\r\n0 1 255\n", PageFault::Size(2)),
    (b"P5 65536", PageFault::Size(2)),
    // - judged before what follows
    (b"P5 0x", PageFault::Size(2)),
    (b"P5 0 x 255", PageFault::Size(2)),
    (b"P5 0 0 254\n", PageFault::Size(2)),

    // The height begins where the width's digits end.
    // - nothing, or no white byte
    (b"P5 1", PageFault::Field(4)),
    (b"P5 1x1 255", PageFault::Field(4)),
    (b"P5 1/1 255\n", PageFault::Field(4)),
    (b"P5 1:1 255\n", PageFault::Field(4)),
    (b"P5 1.5 1 255\n", PageFault::Field(4)),
    (b"P5 65535,1 255\n", PageFault::Field(8)),
    // - no digit
    (b"P5 1 ", PageFault::Field(4)),
    (b"P5 1 \t\r\n", PageFault::Field(4)),
    (b"P5 1 x", PageFault::Field(4)),
    (b"P5 12 -1 255\n", PageFault::Field(5)),
    // - a comment
    (b"P5 1 #c\n1 255\n", PageFault::Field(4)),
    (b"P5 1#c\n1 255\n", PageFault::Field(4)),
    // - a sixth digit
    (b"P5 1 000001 255\n", PageFault::Field(4)),
    (b"P5 1 655350 255\n", PageFault::Field(4)),
    // - the value
    (b"P5 1 0 255\n", PageFault::Size(4)),
    (b"P5 1 00000 255\n", PageFault::Size(4)),
    (b"P5 1 65536 255\n", PageFault::Size(4)),
    (b"P5 1 99999 255\n", PageFault::Size(4)),
    (b"P5 65535 0 255\n", PageFault::Size(8)),
    (b"P5 \n\n1\t\t\t65536 255\n", PageFault::Size(6)),
    (b"P5 1 0", PageFault::Size(4)),
    // - judged before what follows
    (b"P5 1 0 x", PageFault::Size(4)),
    (b"P5 1 65536 254\n", PageFault::Size(4)),

    // The maximum begins where the height's digits end, and ends with one white byte.
    // - nothing, or no white byte before it
    (b"P5 1 1", PageFault::Field(6)),
    (b"P5 1 1x255\n", PageFault::Field(6)),
    (b"P5 1 1/255\n", PageFault::Field(6)),
    // - no digit
    (b"P5 1 1 ", PageFault::Field(6)),
    (b"P5 1 1 \t\r\n", PageFault::Field(6)),
    (b"P5 1 1 x", PageFault::Field(6)),
    (b"P5 1 1 -255\n", PageFault::Field(6)),
    // - a comment
    (b"P5 1 1 #c\n255\n", PageFault::Field(6)),
    (b"P5 1 1#c\n255\n", PageFault::Field(6)),
    (b"P5 1 1 255#c\n", PageFault::Field(6)),
    // - a sixth digit
    (b"P5 1 1 000255\n", PageFault::Field(6)),
    (b"P5 1 1 255255\n", PageFault::Field(6)),
    // - no white byte after it, whatever its value
    (b"P5 1 1 255", PageFault::Field(6)),
    (b"P5 1 1 254", PageFault::Field(6)),
    (b"P5 1 1 255x", PageFault::Field(6)),
    (b"P5 1 1 254x", PageFault::Field(6)),
    (b"P5 1 1 255\0", PageFault::Field(6)),
    (b"P5 1 1 255\x0b", PageFault::Field(6)),
    // - the value
    (b"P5 1 1 0\n", PageFault::Maximum(6)),
    (b"P5 1 1 1\n", PageFault::Maximum(6)),
    (b"P5 1 1 25\n", PageFault::Maximum(6)),
    (b"P5 1 1 254\n", PageFault::Maximum(6)),
    (b"P5 1 1 254 ", PageFault::Maximum(6)),
    (b"P5 1 1 256\n", PageFault::Maximum(6)),
    (b"P5 1 1 2550\n", PageFault::Maximum(6)),
    (b"P5 1 1 65535\n", PageFault::Maximum(6)),
    (b"P5 1 1 99999\n", PageFault::Maximum(6)),
    (b"P5 1 1\r\n\t 254\r", PageFault::Maximum(6)),
    (b"P5 12 345 65535\t", PageFault::Maximum(9)),
    (b"P5\n65535\n65535\n15\n", PageFault::Maximum(14)),
];

// Headers with a width and a height.
const PAGES: [(&[u8], u16, u16); 18] = [
    // one white byte of each kind, and mixtures
    (b"P5 1 1 255 ", 1, 1),
    (b"P5\t1\t1\t255\t", 1, 1),
    (b"P5\r1\r1\r255\r", 1, 1),
    (b"P5\n1\n1\n255\n", 1, 1),
    (b"P5\n3 2\n255\n", 3, 2),
    (b"P5\r\n3 2\r\n255\r\n", 3, 2),
    (b"P5 \t\r\n 7\n\n  \t9\r\r\t255 ", 7, 9),
    // sizes
    (b"P5 65535 1 255\n", 65535, 1),
    (b"P5 1 65535 255\n", 1, 65535),
    (b"P5 65535 65535 255\n", 65535, 65535),
    (b"P5 12345 54321 255\n", 12345, 54321),
    (b"P5 9 10 255\n", 9, 10),
    (b"P5 99 100 255\n", 99, 100),
    (b"P5 10000 9999 255\n", 10000, 9999),
    // leading zeros, up to five digits
    (b"P5 00001 00001 00255\n", 1, 1),
    (b"P5 01 0010 0255\n", 1, 10),
    // whatever follows the white byte belongs to the samples
    (b"P5 1 2 255\n#c\n", 1, 2),
    (b"P5 2 1 255\n255 x", 2, 1),
];

// Colour pages: the fields are judged alike.
const COLOUR: [(&[u8], Outcome); 9] = [
    (b"P6 1 1 255\n", Ok((1, 1))),
    (b"P6\t65535\r00002\n00255 ", Ok((65535, 2))),
    (b"P6", Err(PageFault::Field(2))),
    (b"P6 0 x 255", Err(PageFault::Size(2))),
    (b"P6 1x1 255", Err(PageFault::Field(4))),
    (b"P6 1 65536 255\n", Err(PageFault::Size(4))),
    (b"P6 1 1 254\n", Err(PageFault::Maximum(6))),
    (b"P6 1 1 254", Err(PageFault::Field(6))),
    (b"P6\n# c\n1 1\n255\n", Err(PageFault::Field(2))),
];

#[test]
fn other_letters_are_no_grey_page(rt: HostRuntime) {
    for (i, bytes) in NO_GREY.iter().enumerate() {
        assert_eq!(rt; judge::<Grey>(bytes), Err(PageFault::Letters), "case {i}");
    }
}

#[test]
fn other_letters_are_no_colour_page(rt: HostRuntime) {
    for (i, bytes) in NO_COLOUR.iter().enumerate() {
        assert_eq!(rt; judge::<Colour>(bytes), Err(PageFault::Letters), "case {i}");
    }
}

#[test]
fn wrong_fields_are_refused(rt: HostRuntime) {
    for (i, &(bytes, fault)) in REFUSED.iter().enumerate() {
        assert_eq!(rt; judge::<Grey>(bytes), Err(fault), "case {i}");
    }
}

#[test]
fn right_headers_give_the_size(rt: HostRuntime) {
    for (i, &(bytes, width, height)) in PAGES.iter().enumerate() {
        assert_eq!(rt; judge::<Grey>(bytes), Ok((width, height)), "case {i}");
    }
}

#[test]
fn colour_headers_are_judged_alike(rt: HostRuntime) {
    for (i, &(bytes, outcome)) in COLOUR.iter().enumerate() {
        assert_eq!(rt; judge::<Colour>(bytes), outcome, "case {i}");
    }
}
