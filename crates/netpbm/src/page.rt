// The page that a reader stands on.
use crate::heading::Header;
use std::marker::PhantomData;

// A page on the bytes of its file, none of which is copied, with the raster's offset and the size.
#[derive(Clone, Copy)]
pub struct Reader<'a, T> {
    pub(crate) bytes: &'a [u8],
    pub(crate) header: Header,
    pub(crate) kind: PhantomData<T>,
}
