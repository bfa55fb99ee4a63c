// What a header says.

// The size of a page, and the byte where its samples begin.
#[derive(Clone, Copy)]
pub struct Header {
    pub width: u16,
    pub height: u16,
    pub raster: usize,
}
