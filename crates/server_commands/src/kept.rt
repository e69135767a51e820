// The bytes of a call, kept.
ghost use Rattle.std.specs.Prelude.{◌≡◌, ◌≤◌};

use text::MOST_KEPT;

// The bytes of a call, or of what stands in place of one: so many of them, from the first on.
// No ArrayVec, which can't be copied as what a line asks is.
#[derive(Clone, Copy)]
pub struct CallBytes {
    pub(super) bytes: [u8; MOST_KEPT],
    pub(super) count: usize,
    ghost few: { count ≤ 22 },
}

impl CallBytes {
    ghost use Rattle.server_commands.specs.Lines.{held};

    pub fn as_slice(&self) -> &[u8]
        ensures { result.now ≡ held self.now }
    {
        &self.bytes[..self.count]
    }
}
