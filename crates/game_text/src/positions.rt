// The line and the column of a place in a text, for messages.
ghost use Rattle.std.specs.Prelude.{◌≡◌};
ghost use Rattle.game_text.specs.Positions.{position};

// Both from 1: lines end with LF, and columns are counted in bytes. Past the text's end it is the end's.
pub fn line_and_column(text: &[u8], place: usize) -> (usize, usize)
    ensures { result ≡ position text.now place }
{
    let before = text.get(..place).unwrap_or(text);
    let line = 1 + before.iter().filter(|b| **b == b'\n').count();
    let column = 1 + before.iter().rev().take_while(|b| **b != b'\n').count();
    (line, column)
}
