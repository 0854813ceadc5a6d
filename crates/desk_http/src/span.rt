ghost use Rattle.std.specs.Prelude.{◌≡◌, ◌≤◌, length};
ghost use Rattle.desk_http.specs.Taken.{span_bytes};

/// The bytes of a buffer from `from` up to `to`.
#[derive(Clone, Copy, Debug, PartialEq, Eq)]
pub struct Span {
    /// The place of the first byte.
    pub from: usize,
    /// The place behind the last byte.
    pub to: usize,
}

impl Span {
    /// The bytes of the buffer that the span covers.
    pub fn of(self, buffer: &[u8]) -> &[u8]
        requires ordered { self.from ≤ self.to }
        requires within { self.to ≤ length buffer.now }
        ensures { result.now ≡ span_bytes buffer.now self }
    {
        &buffer[self.from..self.to]
    }
}
