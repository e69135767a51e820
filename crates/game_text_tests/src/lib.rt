// Tests of reading a game's text. What is expected is worked out by hand from docs/FORMATS.md.
#![tactic(auto)]

#[cfg(test)]
mod tests {
    use game_text::{Expected, Fault, line_and_column, read_game};
    use std::alloc::{AllocError, Global};
    use std::process::Abort;
    use std::test::Fail;

    // docs/games/pile.game
    const PILE: &[u8] =
        b"# The take-away pile. Two players take 1 to 3 stones in turn; who takes the last has won.\n# Cell 0 is whose turn it is, cell 1 the pile.\nplayers 2\ncells 0 5\nrule 4 1                    # the first number is how many stones are taken, 0 to 3\n  may * below 0 first below first + cell 1 1\n  set 1 - cell 1 first\n  set 0 - 1 cell 0\nover same cell 1 0\ngain if same me rest cell 0 2 0 1\n";

    // A text that can't be read: the place, and what could have come.
    fn refused(rt: &impl Abort, text: &[u8], place: usize, expected: Expected) {
        let mut out = [0; 64];
        assert_eq!(rt; read_game(text, &mut out), Err(Fault { place, expected }));
    }

    // A text of the smallest game: no cells, no rules.
    fn smallest(rt: &impl Abort, text: &[u8]) {
        let mut out = [9; 12];
        assert_eq!(rt; read_game(text, &mut out), Ok(10));
        assert_eq!(rt; out, [2, 0, 0, 0, 0, 0, 0, 0, 1, 0, 9, 9]);
    }

    #[test]
    fn pile(rt: HostRuntime) {
        let mut out = [0; 74];
        assert_eq!(rt; read_game(PILE, &mut out), Ok(74));
        assert_eq!(rt;
            out,
            [
                2, 2, 0, 0, 0, 5, 0, 1, 4, 0, 1, 0, 7, 10, 0, 0, 0, 2, 10, 2, 5, 1, 0, 1, 0, 0, 1,
                0, 2, 0, 1, 0, 6, 1, 0, 1, 0, 2, 0, 0, 0, 6, 0, 1, 0, 1, 0, 0, 0, 11, 1, 0, 1, 0,
                0, 0, 0, 12, 11, 4, 9, 1, 0, 0, 0, 0, 2, 0, 0, 0, 0, 0, 1, 0,
            ]
        );
    }

    // Of bytes that have no room the first ones are written, and all are counted.
    #[test]
    fn little_room(rt: HostRuntime) {
        let mut out = [9; 5];
        assert_eq!(rt; read_game(PILE, &mut out), Ok(74));
        assert_eq!(rt; out, [2, 2, 0, 0, 0]);
    }

    #[test]
    fn written_otherwise(rt: HostRuntime) {
        smallest(&rt, b"players 2 cells over 0 gain 1");
        smallest(&rt, b"  players 002\tcells\r\nover 00000000\r\ngain 1\r\n");
        smallest(&rt, b"players#two\n2 cells# none\nover 0 gain 1# the end");
        smallest(
            &rt,
            b"# first\n#\r# still the second\nplayers 2 cells over 0 gain 1 # no LF",
        );
    }

    #[test]
    fn faults(rt: HostRuntime) {
        refused(&rt, b"", 0, Expected::ThePlayers);
        refused(&rt, b"cells", 0, Expected::ThePlayers);
        refused(&rt, b"play ers", 4, Expected::ThePlayers);
        refused(&rt, b"players", 7, Expected::PlayerCount);
        refused(&rt, b"players x", 8, Expected::PlayerCount);
        refused(&rt, b"players 256", 10, Expected::PlayerCount);
        refused(&rt, b"players 2x", 9, Expected::PlayerCount);
        refused(&rt, b"players 2", 9, Expected::TheCells);
        refused(&rt, b"players 2 cells 65536", 20, Expected::CellRuleOrOver);
        refused(&rt, b"players 2 cells", 15, Expected::CellRuleOrOver);
        refused(&rt, b"players 2 cells 0 may", 18, Expected::CellRuleOrOver);
        refused(&rt, b"players 2 cells rule", 20, Expected::Number);
        refused(&rt, b"players 2 cells rule 1 may", 23, Expected::Number);
        refused(&rt, b"players 2 cells rule 1 1 over", 25, Expected::TheMay);
        refused(
            &rt,
            b"players 2 cells rule 1 1 may sx",
            30,
            Expected::AnExpression,
        );
        refused(
            &rt,
            b"players 2 cells rule 1 1 may first2",
            34,
            Expected::AnExpression,
        );
        refused(
            &rt,
            b"players 2 cells rule 1 1 may + 1",
            32,
            Expected::AnExpression,
        );
        refused(
            &rt,
            b"players 2 cells rule 1 1 may 1 gain",
            31,
            Expected::SetRuleOrOver,
        );
        refused(
            &rt,
            b"players 2 cells rule 1 1 may 1 set 0",
            36,
            Expected::AnExpression,
        );
        refused(&rt, b"players 2 cells over 0", 22, Expected::TheGain);
        refused(&rt, b"players 2 cells over 0 over", 23, Expected::TheGain);
        refused(
            &rt,
            b"players 2 cells over 0 gain",
            27,
            Expected::AnExpression,
        );
        refused(
            &rt,
            b"players 2 cells over 0 gain 0 0",
            30,
            Expected::TheEnd,
        );
        refused(
            &rt,
            b"players 2 cells over 0 gain 0 # the end\nx",
            40,
            Expected::TheEnd,
        );
    }

    // The front of a game with so many cells, rules and effects of the last rule, and some more bytes.
    fn long(
        heap: Global,
        cells: u32,
        rules: u32,
        sets: u32,
        more: &[u8],
    ) -> Result<Vec<u8>, AllocError> {
        let mut text = b"players 2 cells".to_vec(heap)?;
        for _ in 0..cells {
            text.extend_from_slice(b" 7")?;
        }
        for _ in 0..rules {
            text.extend_from_slice(b" rule 1 1 may 1")?;
        }
        for _ in 0..sets {
            text.extend_from_slice(b" set 0 0")?;
        }
        text.extend_from_slice(more)?;
        Ok(text)
    }

    // It can't be read on where the last word, of so many letters, begins.
    fn full(rt: &impl Abort, text: Vec<u8>, letters: usize, expected: Expected) {
        let place = text.len().saturating_sub(letters);
        refused(rt, text.as_slice(), place, expected);
    }

    fn counted(rt: &impl Abort, text: Vec<u8>, n: usize) {
        let mut out = [0; 1];
        assert_eq!(rt; read_game(text.as_slice(), &mut out), Ok(n));
    }

    #[test]
    fn limits(rt: HostRuntime) -> Result<(), Fail> {
        let heap = rt.alloc();
        full(
            &rt,
            long(heap, 65535, 0, 0, b" 7")?,
            1,
            Expected::RuleOrOver,
        );
        full(
            &rt,
            long(heap, 0, 255, 0, b" rule")?,
            4,
            Expected::SetOrOver,
        );
        full(
            &rt,
            long(heap, 0, 1, 255, b" set")?,
            3,
            Expected::RuleOrOver,
        );
        full(&rt, long(heap, 0, 255, 255, b" set")?, 3, Expected::TheOver);
        full(
            &rt,
            long(heap, 0, 254, 255, b" set")?,
            3,
            Expected::RuleOrOver,
        );
        counted(&rt, long(heap, 65535, 0, 0, b" over 0 gain 0")?, 131080);
        counted(&rt, long(heap, 0, 255, 255, b" over 0 gain 0")?, 3580);
        Ok(())
    }

    #[test]
    fn places(rt: HostRuntime) {
        assert_eq!(rt; line_and_column(b"", 0), (1, 1));
        assert_eq!(rt; line_and_column(b"ab\ncd", 1), (1, 2));
        assert_eq!(rt; line_and_column(b"ab\ncd", 2), (1, 3));
        assert_eq!(rt; line_and_column(b"ab\ncd", 3), (2, 1));
        assert_eq!(rt; line_and_column(b"ab\ncd", 5), (2, 3));
        assert_eq!(rt; line_and_column(b"ab\ncd", 99), (2, 3));
    }
}
