// Where a line's own letters end.
ghost use Rattle.std.specs.Prelude.{◌≡◌};
ghost use Rattle.text.specs.Endings.{letters};

// A line without the LF at its end, and without a CR in front of that.
pub fn letters(line: &[u8]) -> &[u8]
    ensures { result.now ≡ letters line.now }
{
    match line {
        [front @ .., b'\r', b'\n'] => front,
        [front @ .., b'\n'] => front,
        _ => line,
    }
}
