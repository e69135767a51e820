// Tests of playing games in lent memory, worked out by hand. The games are in byte form: docs/FORMATS.md says how.
#![tactic(auto)]

#[cfg(test)]
mod tests {
    use play::{apply, is_legal, is_over, list_moves, next_move, payoff, turn};
    use rows::load;
    use rules::Move;
    use std::test::Fail;
    use wire::field_at;

    // A line of bytes for the players and cells, one for each rule, and one for the end and the gain.
    // Cells beyond the board, and effects in turn: players 2, cells 0 7,
    // rule 3 1, may 1, set + first 1 9,
    // rule 1 1, may 1, set 0 1, set 1 + * 10 me cell 0,
    // over same cell 1 9, gain cell + me 1
    const EDGE: &[u8] = b"\x02\x02\x00\x00\x00\x07\x00\x02\
        \x03\x00\x01\x00\x00\x01\x00\x01\x05\x02\x00\x01\x00\x00\x09\x00\
        \x01\x00\x01\x00\x00\x01\x00\x02\x00\x00\x00\x00\x01\x00\x00\x01\x00\x05\x07\x00\x0a\x00\x04\x01\x00\x00\x00\
        \x0b\x01\x00\x01\x00\x00\x09\x00\x01\x05\x04\x00\x01\x00";

    // Runs out of moves: players 1, cells 0, rule 1 1, may below cell 0 2, set 0 + cell 0 1, over 0, gain cell 0
    const STUCK: &[u8] = b"\x01\x01\x00\x00\x00\x01\
        \x01\x00\x01\x00\x0a\x01\x00\x00\x00\x00\x02\x00\x01\x00\x00\x00\x05\x01\x00\x00\x00\x00\x01\x00\
        \x00\x00\x00\x01\x00\x00\x00";

    // No rules: players 4, cells 0, over 0, gain me
    const IDLE: &[u8] = b"\x04\x01\x00\x00\x00\x00\x00\x00\x00\x04";

    // Bounds of 0: players 2, cells 0, rule 0 5, may 1, rule 5 0, may 1, rule 1 1, may 1, over 0, gain 0
    const NARROW: &[u8] = b"\x02\x01\x00\x00\x00\x03\
        \x00\x00\x05\x00\x00\x01\x00\x00\
        \x05\x00\x00\x00\x00\x01\x00\x00\
        \x01\x00\x01\x00\x00\x01\x00\x00\
        \x00\x00\x00\x00\x00\x00";

    // As many moves as there may be: players 2, cells 0, rule 256 8, may 1, rule 8 256, may 1, over 0, gain 0
    const WIDE: &[u8] = b"\x02\x01\x00\x00\x00\x02\
        \x00\x01\x08\x00\x00\x01\x00\x00\
        \x08\x00\x00\x01\x00\x01\x00\x00\
        \x00\x00\x00\x00\x00\x00";

    const MOVES: usize = 4096;

    // The head of a list, and 12 bytes for each of 4,096 moves.
    const WIDE_BYTES: usize = 49157;

    // Moves of the first game, and whether they are legal: at its bounds, of its last rule, and past it.
    const LEGAL: [(u32, u32, u32, bool); 7] = [
        (0, 0, 0, true),
        (0, 2, 0, true),
        (0, 3, 0, false),
        (0, 2, 1, false),
        (1, 0, 0, true),
        (2, 0, 0, false),
        (4294967295, 0, 0, false),
    ];

    // Boards before a move of the first game, the move's rule and first number, and the boards after it: cells 2 and 3 and rule 2 are not there,
    // the second effect sees the first, and `me` is from before both.
    const PLAYED: [([u32; 2], u32, u32, [u32; 2]); 6] = [
        ([0, 7], 0, 0, [0, 9]),
        ([5, 7], 0, 1, [5, 7]),
        ([5, 7], 0, 2, [5, 7]),
        ([5, 7], 2, 0, [5, 7]),
        ([0, 7], 1, 0, [1, 1]),
        ([3, 7], 1, 0, [1, 11]),
    ];

    fn at(rule: u32, first: u32, second: u32) -> Move {
        Move {
            rule,
            first,
            second,
        }
    }

    // A game in memory; 0 everywhere if it is no good one.
    fn memory_of(game: &[u8]) -> [u32; 128] {
        let mut memory = [0u32; 128];
        let _ = load(game, &mut memory);
        memory
    }

    fn after(memory: &[u32], board: [u32; 2], played: Move) -> [u32; 2] {
        let mut cells = board;
        apply(memory, &mut cells, played);
        cells
    }

    // A list of moves, and the number of its bytes.
    fn listed(memory: &[u32], cells: &[u32]) -> ([u8; 60], Option<usize>) {
        let mut answer = [7u8; 60];
        let size = list_moves(memory, cells, &mut answer);
        (answer, size)
    }

    #[test]
    fn legal_or_not(rt: HostRuntime) {
        let memory = memory_of(EDGE);
        for (rule, first, second, legal) in LEGAL {
            assert_eq!(rt; is_legal(&memory, &[0, 7], at(rule, first, second)), legal);
        }
    }

    #[test]
    fn effects(rt: HostRuntime) {
        let memory = memory_of(EDGE);
        for (before, rule, first, then) in PLAYED {
            assert_eq!(rt; after(&memory, before, at(rule, first, 0)), then);
        }
    }

    #[test]
    fn gains_of_the_player_asked(rt: HostRuntime) {
        let memory = memory_of(EDGE);
        let cells = [1, 7, 6];
        assert_eq!(rt; turn(&memory, &cells), 1);
        assert_eq!(rt; payoff(&memory, &cells, 0), 7);
        assert_eq!(rt; payoff(&memory, &cells, 1), 6);
        assert_eq!(rt; payoff(&memory, &cells, 2), 0, "cell 3 is not there");
    }

    // Move k of a list.
    fn nth(answer: &[u8], k: usize) -> Move {
        let from = 5usize.saturating_add(k.saturating_mul(12));
        at(
            field_at(answer, from),
            field_at(answer, from.saturating_add(4)),
            field_at(answer, from.saturating_add(8)),
        )
    }

    #[test]
    fn list(rt: HostRuntime) {
        let (answer, size) = listed(&memory_of(EDGE), &[0, 7]);
        assert_eq!(rt; size, Some(53));
        assert_eq!(rt; field_at(&answer, 1), 4);
        assert_eq!(rt; nth(&answer, 2), at(0, 2, 0));
        assert_eq!(rt; nth(&answer, 3), at(1, 0, 0), "the last rule's");
        assert_eq!(rt; answer[53], 7);
    }

    #[test]
    fn ends(rt: HostRuntime) {
        let edge = memory_of(EDGE);
        assert!(rt; !is_over(&edge, &[0, 7]));
        assert!(rt; is_over(&edge, &[0, 9]), "though moves are legal");
        assert!(rt; is_legal(&edge, &[0, 9], at(0, 0, 0)));
        let stuck = memory_of(STUCK);
        assert!(rt; !is_over(&stuck, &[1]));
        assert!(rt; is_over(&stuck, &[2]), "no move is left");
    }

    #[test]
    fn one_and_four_players(rt: HostRuntime) {
        assert_eq!(rt; turn(&memory_of(STUCK), &[5]), 0);
        let idle = memory_of(IDLE);
        assert_eq!(rt; turn(&idle, &[7]), 3);
        assert_eq!(rt; payoff(&idle, &[7], 2), 2);
        assert!(rt; is_over(&idle, &[0]), "no rules");
        assert_eq!(rt; listed(&idle, &[0]).1, Some(5));
    }

    #[test]
    fn bounds_of_0(rt: HostRuntime) {
        let memory = memory_of(NARROW);
        assert!(rt; !is_legal(&memory, &[0], at(0, 0, 0)));
        assert!(rt; !is_legal(&memory, &[0], at(1, 0, 0)));
        assert_eq!(rt; next_move(&memory, &[0], at(0, 0, 0)), Some(at(2, 0, 0)));
        let (answer, size) = listed(&memory, &[0]);
        assert_eq!(rt; size, Some(17));
        assert_eq!(rt; nth(&answer, 0), at(2, 0, 0));
    }

    fn wide_list(answer: &mut [u8]) -> Option<usize> {
        list_moves(&memory_of(WIDE), &[0], answer)
    }

    #[test]
    fn all_of_4096(rt: HostRuntime) {
        let mut answer = [9u8; WIDE_BYTES];
        assert_eq!(rt; wide_list(&mut answer), Some(WIDE_BYTES));
        assert_eq!(rt; answer[0], 3);
        assert_eq!(rt; field_at(&answer, 1), 4096);
        assert_eq!(rt; nth(&answer, 0), at(0, 0, 0));
        assert_eq!(rt; nth(&answer, 4095), at(1, 7, 255));
    }

    // A byte short: all but the last are written, and no head.
    #[test]
    fn all_but_one(rt: HostRuntime) {
        let mut answer = [9u8; WIDE_BYTES - 1];
        assert_eq!(rt; wide_list(&mut answer), None);
        assert_eq!(rt; answer[0], 9);
        assert_eq!(rt; nth(&answer, 4094), at(1, 7, 254));
        assert_eq!(rt; answer[WIDE_BYTES - 12], 9);
    }

    #[test]
    fn next_after_next(rt: HostRuntime) -> Result<(), Fail> {
        let memory = memory_of(WIDE);
        let mut from = at(0, 0, 0);
        for _ in 0..MOVES {
            let v = next_move(&memory, &[0], from).ok_or_else(|| Fail::new("there are more"))?;
            from = at(v.rule, v.first, v.second.saturating_add(1));
        }
        assert_eq!(rt; from, at(1, 7, 256));
        assert_eq!(rt; next_move(&memory, &[0], from), None);
        Ok(())
    }
}
