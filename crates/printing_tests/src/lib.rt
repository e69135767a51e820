// Tests of printed games and answers. What is expected is worked out by hand from docs/FORMATS.md.
#![tactic(auto)]

#[cfg(test)]
mod tests {
    use printing::{print_answer, print_game};
    use std::process::Abort;

    // The pile game with 5 in the pile.
    const PILE: [u8; 74] = [
        2, // players
        2, 0, 0, 0, 5, 0, // cells
        1, // rules
        4, 0, 1, 0, // bounds
        7, 10, 0, 0, 0, 2, 10, 2, 5, 1, 0, 1, 0, 0, 1, 0, // may * below 0 first below first + cell 1 1
        2, // effects
        0, 1, 0, 6, 1, 0, 1, 0, 2, // set 1 - cell 1 first
        0, 0, 0, 6, 0, 1, 0, 1, 0, 0, 0, // set 0 - 1 cell 0
        11, 1, 0, 1, 0, 0, 0, 0, // over same cell 1 0
        12, 11, 4, 9, 1, 0, 0, 0, 0, 2, 0, 0, 0, 0, 0, 1, 0, // gain if same me rest cell 0 2 0 1
    ];

    const TEXT: &[u8] =
        b"players 2\ncells 0 5\nrule 4 1\n  may * below 0 first below first + cell 1 1\n  set 1 - cell 1 first\n  set 0 - 1 cell 0\nover same cell 1 0\ngain if same me rest cell 0 2 0 1\n";

    // What an answer is printed as, and nothing past it.
    fn line(rt: &impl Abort, answer: &[u8], expected: &[u8]) {
        let mut out = [7u8; 64];
        assert_eq!(rt; print_answer(answer, &mut out), Some(expected.len()));
        filled(rt, &out, expected);
    }

    // Memory that held 7 holds a text, as far as there is room, and 7 past it.
    fn filled(rt: &impl Abort, out: &[u8], text: &[u8]) {
        let (front, rest) = out.split_at(text.len().min(out.len()));
        assert!(rt; text.starts_with(front) && rest.iter().all(|b| *b == 7));
    }

    fn no_answer(rt: &impl Abort, answer: &[u8]) {
        let mut out = [7u8; 8];
        assert_eq!(rt; print_answer(answer, &mut out), None);
        filled(rt, &out, b"");
    }

    #[test]
    fn numbers(rt: HostRuntime) {
        line(&rt, &[0, 6, 0, 0, 0, 1, 0, 0, 0], b"refused 6 at 1");
        line(
            &rt,
            &[0, 255, 255, 255, 255, 255, 255, 255, 255],
            b"refused 4294967295 at 4294967295",
        );
        line(&rt, &[1, 0, 0, 0, 0], b"0");
        line(&rt, &[1, 10, 0, 0, 0], b"10");
        line(&rt, &[1, 255, 255, 255, 255], b"4294967295");
        line(&rt, &[4, 0, 0, 0, 0], b"0");
        line(&rt, &[4, 1, 0, 0, 0], b"1");
        line(&rt, &[4, 2, 0, 0, 0], b"2");
    }

    #[test]
    fn positions(rt: HostRuntime) {
        line(
            &rt,
            &[
                2, 2, 0, 0, 0, 1, 0, 0, 0, 4, 0, 0, 0, 1, 0, 0, 0, 0, 0, 0, 0, 2, 0, 0, 0, 0, 0, 0,
                0, 0, 0, 0, 0,
            ],
            b"cells 1 4, turn 1, goes on, clocks 0 0",
        );
        line(
            &rt,
            &[
                2, 1, 0, 0, 0, 0, 1, 0, 0, 0, 0, 0, 0, 1, 0, 0, 0, 1, 0, 0, 0, 0, 0, 1, 0,
            ],
            b"cells 256, turn 0, over, clocks 65536",
        );
        line(
            &rt,
            &[
                2, 1, 0, 0, 0, 7, 0, 0, 0, 2, 0, 0, 0, 2, 0, 0, 0, 2, 0, 0, 0, 0, 0, 0, 0, 9, 0, 0,
                0,
            ],
            b"cells 7, turn 2, over by time, clocks 0 9",
        );
        line(
            &rt,
            &[
                2, 2, 0, 0, 0, 3, 0, 0, 0, 5, 0, 0, 0, 1, 0, 0, 0, 1, 0, 0, 0, 0, 0, 0, 0,
            ],
            b"cells 3 5, turn 1, over",
        );
        line(
            &rt,
            &[2, 0, 0, 0, 0, 0, 0, 0, 0, 0, 0, 0, 0, 0, 0, 0, 0],
            b"cells, turn 0, goes on",
        );
        line(
            &rt,
            &[2, 0, 0, 0, 0, 0, 0, 0, 0, 3, 0, 0, 0, 0, 0, 0, 0],
            b"cells, turn 0, over",
        );
    }

    #[test]
    fn moves(rt: HostRuntime) {
        line(&rt, &[3, 0, 0, 0, 0], b"none");
        line(
            &rt,
            &[3, 1, 0, 0, 0, 0, 0, 0, 0, 1, 0, 0, 0, 0, 0, 0, 0],
            b"0 1 0",
        );
        line(
            &rt,
            &[
                3, 3, 0, 0, 0, 0, 0, 0, 0, 1, 0, 0, 0, 0, 0, 0, 0, 0, 0, 0, 0, 2, 0, 0, 0, 0, 0, 0,
                0, 12, 0, 0, 0, 89, 1, 0, 0, 133, 26, 0, 0,
            ],
            b"0 1 0, 0 2 0, 12 345 6789",
        );
    }

    #[test]
    fn no_answers(rt: HostRuntime) {
        no_answer(&rt, b"");
        no_answer(&rt, &[0]);
        no_answer(&rt, &[5]);
        no_answer(&rt, &[5, 1, 0, 0, 0]);
        no_answer(&rt, &[0, 6, 0, 0, 0]);
        no_answer(&rt, &[1]);
        no_answer(&rt, &[1, 1, 0, 0, 0, 1, 0, 0, 0]);
        no_answer(
            &rt,
            &[
                2, 2, 0, 0, 0, 1, 0, 0, 0, 4, 0, 0, 0, 1, 0, 0, 0, 0, 0, 0, 0, 2, 0, 0, 0, 0, 0, 0,
                0,
            ],
        );
        no_answer(
            &rt,
            &[
                2, 2, 0, 0, 0, 1, 0, 0, 0, 4, 0, 0, 0, 1, 0, 0, 0, 0, 0, 0, 0, 2, 0, 0, 0, 0, 0, 0,
                0, 0, 0, 0, 0, 0, 0, 0, 0,
            ],
        );
        no_answer(&rt, &[3, 1, 0, 0, 0, 0, 0, 0, 0, 1, 0, 0, 0]);
        no_answer(
            &rt,
            &[
                3, 1, 0, 0, 0, 0, 0, 0, 0, 1, 0, 0, 0, 0, 0, 0, 0, 0, 0, 0, 0,
            ],
        );
    }

    #[test]
    fn short_lines(rt: HostRuntime) {
        let mut out = [7u8; 7];
        assert_eq!(rt;
            print_answer(&[0, 6, 0, 0, 0, 1, 0, 0, 0], &mut out),
            Some(14)
        );
        filled(&rt, &out, b"refused 6 at 1");
        let mut none = [7u8; 0];
        assert_eq!(rt; print_answer(&[1, 255, 255, 255, 255], &mut none), Some(10));
    }

    #[test]
    fn pile(rt: HostRuntime) {
        let mut out = [7u8; 256];
        assert_eq!(rt; print_game(&PILE, &mut out), Some(TEXT.len()));
        filled(&rt, &out, TEXT);
    }

    #[test]
    fn short_games(rt: HostRuntime) {
        let mut out = [7u8; 30];
        assert_eq!(rt; print_game(&PILE, &mut out), Some(TEXT.len()));
        filled(&rt, &out, TEXT);
        let mut none = [7u8; 0];
        assert_eq!(rt; print_game(&PILE, &mut none), Some(TEXT.len()));
    }

    // every kind of expression, no cells and no rules, and numbers up to the largest
    #[test]
    fn every_kind(rt: HostRuntime) {
        let game = [
            255, 0, 0, 0, 12, 5, 6, 7, 8, 9, 10, 11, 1, 2, 3, 4, 0, 255, 255, 0, 0, 1, 0, 10, 0, 2,
            0, 0, 0, 3, 4, 4,
        ];
        let mut out = [7u8; 256];
        let text =
            b"players 255\ncells\nover if + - * / rest below same cell first second me 65535 256 10 first 0 second me\ngain me\n";
        assert_eq!(rt; print_game(&game, &mut out), Some(text.len()));
        filled(&rt, &out, text);
    }

    fn no_game(rt: &impl Abort, game: &[u8]) {
        let mut out = [7u8; 8];
        assert_eq!(rt; print_game(game, &mut out), None);
        filled(rt, &out, b"");
    }

    #[test]
    fn no_games(rt: HostRuntime) {
        for n in 0..74usize {
            no_game(&rt, &PILE[0..n]);
        }
        no_game(&rt, &[2, 0, 0, 0, 4, 13]);
        no_game(&rt, &[2, 0, 0, 0, 4, 4, 4]);
    }
}
