// What is left of the body of a frame. Numbers are read from its front, low byte first; past its end there are none.
#[derive(Clone, Copy)]
pub(crate) struct Frame<'a> {
    rest: &'a [u8],
}

impl<'a> Frame<'a> {
    pub(crate) fn new(body: &'a [u8]) -> Self {
        Frame { rest: body }
    }

    // All that is left.
    pub(crate) fn rest(self) -> &'a [u8] {
        self.rest
    }

    // Whether nothing is left.
    pub(crate) fn end(self) -> Option<()> {
        self.rest.is_empty().then_some(())
    }

    fn take<const N: usize>(&mut self) -> Option<[u8; N]> {
        let (bytes, rest) = self.rest.split_first_chunk::<N>()?;
        self.rest = rest;
        Some(*bytes)
    }

    pub(crate) fn u8(&mut self) -> Option<u8> {
        self.take().map(u8::from_le_bytes)
    }

    pub(crate) fn u16(&mut self) -> Option<u16> {
        self.take().map(u16::from_le_bytes)
    }

    pub(crate) fn u32(&mut self) -> Option<u32> {
        self.take().map(u32::from_le_bytes)
    }

    pub(crate) fn usize(&mut self) -> Option<usize> {
        self.take().map(usize::from_le_bytes)
    }
}
