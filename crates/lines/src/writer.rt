//! A line in the making.
ghost use Rattle.std.specs.Prelude.{◌≤◌, length};

/// The buffer that a line is made in, and the place behind what is written.
// The caller lends the buffer, as the crate has no heap, so its place is counted beside it.
#[derive(Drop)]
pub(crate) struct Writer<'a> {
    pub(crate) buffer: &'a mut [u8],
    pub(crate) place: usize,
    ghost within: { place ≤ length buffer.now },
}
