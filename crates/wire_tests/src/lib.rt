// Tests of games and calls as bytes. What is expected is worked out by hand from docs/FORMATS.md and docs/LANGUAGE.md.
#![tactic(auto)]

#[cfg(test)]
mod tests {
    use std::alloc::{AllocError, Global};
    use std::test::Fail;
    use wire::{Excess, check_game, first_excess, read_call};

    // The pile game with 5 in the pile.
    const PILE: [u8; 74] = [
        2, // players
        2, 0, 0, 0, 5, 0, // cells
        1, // rules
        4, 0, 1, 0, // bounds
        7, 10, 0, 0, 0, 2, 10, 2, 5, 1, 0, 1, 0, 0, 1, 0, // may * below 0 first below first + cell 1 1
        2, // effects
        0, 1, 0, 6, 1, 0, 1, 0, 2, // set 1 - cell 1 first
        0, 0, 0, 6, 0, 1, 0, 1, 0, 0, 0, // set 0 - 1 cell 0
        11, 1, 0, 1, 0, 0, 0, 0, // over same cell 1 0
        12, 11, 4, 9, 1, 0, 0, 0, 0, 2, 0, 0, 0, 0, 0, 1, 0, // gain if same me rest cell 0 2 0 1
    ];

    // The number and the place of the refusal, if it is no good game.
    fn verdict(game: &[u8]) -> Option<(u32, u32)> {
        check_game(game)
            .err()
            .map(|refusal| (refusal.number, refusal.place))
    }

    fn push_two(game: &mut Vec<u8>, n: u16) -> Result<(), AllocError> {
        game.extend_from_slice(&n.to_le_bytes())
    }

    // Players, cells that hold 0, and a count of rules that are to come.
    fn begun(heap: Global, players: u8, cells: u16, rules: u8) -> Result<Vec<u8>, AllocError> {
        let mut game = Vec::new(heap);
        game.push(players)?;
        push_two(&mut game, cells)?;
        for _ in 0..cells {
            push_two(&mut game, 0)?;
        }
        game.push(rules)?;
        Ok(game)
    }

    // A rule that may always be played: each effect sets the cell of the first number to that number, and has 3 parts.
    fn push_rule(
        game: &mut Vec<u8>,
        first: u16,
        second: u16,
        effects: u8,
    ) -> Result<(), AllocError> {
        push_two(game, first)?;
        push_two(game, second)?;
        game.push(4)?;
        game.push(effects)?;
        for _ in 0..effects {
            game.push(2)?;
            game.push(2)?;
        }
        Ok(())
    }

    // The verdict on a game with so many players and cells and one rule.
    fn with_size(heap: Global, players: u8, cells: u16) -> Result<Option<(u32, u32)>, AllocError> {
        let mut game = begun(heap, players, cells, 0)?;
        game.push(4)?;
        game.push(4)?;
        Ok(verdict(game.as_slice()))
    }

    // The verdict on a game with `many` rules of one move, and one rule with these bounds.
    fn with_rules(
        heap: Global,
        many: u8,
        first: u16,
        second: u16,
    ) -> Result<Option<(u32, u32)>, AllocError> {
        let mut game = begun(heap, 2, 1, many.saturating_add(1))?;
        for _ in 0..many {
            push_rule(&mut game, 1, 1, 0)?;
        }
        push_rule(&mut game, first, second, 0)?;
        game.push(4)?;
        game.push(4)?;
        Ok(verdict(game.as_slice()))
    }

    // A game whose end is so deep.
    fn deep(heap: Global, depth: u32) -> Result<Vec<u8>, AllocError> {
        let mut game = begun(heap, 2, 1, 0)?;
        for _ in 0..depth {
            game.push(1)?;
        }
        game.push(2)?;
        game.push(4)?;
        Ok(game)
    }

    #[test]
    fn pile(rt: HostRuntime) -> Result<(), Fail> {
        let size = check_game(&PILE).map_err(|_| Fail::new("the pile game is good"))?;
        assert_eq!(rt; size.players, 2);
        assert_eq!(rt; size.cells, 2);
        assert_eq!(rt; size.rules, 1);
        assert_eq!(rt; size.effects, 2);
        assert_eq!(rt; size.moves, 4);
        assert_eq!(rt; size.parts, 36);
        Ok(())
    }

    #[test]
    fn form(rt: HostRuntime) -> Result<(), Fail> {
        for n in 0..74usize {
            assert_eq!(rt; verdict(&PILE[0..n]), Some((3, 0)));
        }
        let mut game = PILE.to_vec(rt.alloc())?;
        assert_eq!(rt; verdict(game.as_slice()), None);
        game.push(4)?;
        assert_eq!(rt; verdict(game.as_slice()), Some((3, 0)));
        // a kind that there is not, in place of gain
        let mut game = begun(rt.alloc(), 2, 1, 0)?;
        game.push(4)?;
        game.push(13)?;
        assert_eq!(rt; verdict(game.as_slice()), Some((3, 0)));
        Ok(())
    }

    #[test]
    fn sizes(rt: HostRuntime) -> Result<(), Fail> {
        let heap = rt.alloc();
        assert_eq!(rt; with_size(heap, 0, 1)?, Some((3, 1)));
        assert_eq!(rt; with_size(heap, 1, 1)?, None);
        assert_eq!(rt; with_size(heap, 4, 1)?, None);
        assert_eq!(rt; with_size(heap, 5, 1)?, Some((3, 1)));
        assert_eq!(rt; with_size(heap, 2, 0)?, Some((3, 1)));
        assert_eq!(rt; with_size(heap, 2, 256)?, None);
        assert_eq!(rt; with_size(heap, 2, 257)?, Some((3, 1)));
        assert_eq!(rt; with_rules(heap, 63, 1, 1)?, None);
        assert_eq!(rt; with_rules(heap, 64, 1, 1)?, Some((3, 1)));
        assert_eq!(rt; with_rules(heap, 0, 256, 1)?, None);
        assert_eq!(rt; with_rules(heap, 0, 257, 1)?, Some((3, 1)));
        assert_eq!(rt; with_rules(heap, 0, 1, 257)?, Some((3, 1)));
        assert_eq!(rt; with_rules(heap, 0, 256, 16)?, None);
        assert_eq!(rt; with_rules(heap, 1, 256, 16)?, Some((3, 1)));
        Ok(())
    }

    #[test]
    fn depth(rt: HostRuntime) -> Result<(), Fail> {
        let heap = rt.alloc();
        assert_eq!(rt; verdict(deep(heap, 32)?.as_slice()), None);
        assert_eq!(rt; verdict(deep(heap, 33)?.as_slice()), Some((3, 1)));
        let mut garbage = deep(heap, 33)?;
        garbage.push(99)?;
        assert_eq!(rt; verdict(garbage.as_slice()), Some((3, 0)));
        assert_eq!(rt; verdict(deep(heap, 1000000)?.as_slice()), Some((3, 1)));
        Ok(())
    }

    // 64 rules with 42 times 85 and 22 times 84 effects have 64 * 2 + 3 * 5418 parts, and over and gain two more: 16384.
    #[test]
    fn parts(rt: HostRuntime) -> Result<(), Fail> {
        let mut game = begun(rt.alloc(), 2, 1, 64)?;
        for _ in 0..42u8 {
            push_rule(&mut game, 1, 1, 85)?;
        }
        for _ in 0..22u8 {
            push_rule(&mut game, 1, 1, 84)?;
        }
        let mut more = game.clone()?;
        game.push(4)?;
        game.push(4)?;
        assert_eq!(rt; verdict(game.as_slice()), None);
        more.push(1)?;
        more.push(4)?;
        more.push(4)?;
        assert_eq!(rt; verdict(more.as_slice()), Some((3, 1)));
        Ok(())
    }

    // The same game with one part more is told of by its parts.
    #[test]
    fn parts_in_excess(rt: HostRuntime) -> Result<(), Fail> {
        let mut game = begun(rt.alloc(), 2, 1, 64)?;
        for _ in 0..42u8 {
            push_rule(&mut game, 1, 1, 85)?;
        }
        for _ in 0..22u8 {
            push_rule(&mut game, 1, 1, 84)?;
        }
        game.push(1)?;
        game.push(4)?;
        game.push(4)?;
        assert_eq!(rt; first_excess(game.as_slice()), Some(Excess::Parts(16385)));
        Ok(())
    }

    // The first limit that a game of this size breaks, whose rules have one move each.
    fn of_size(
        heap: Global,
        players: u8,
        cells: u16,
        rules: u8,
    ) -> Result<Option<Excess>, AllocError> {
        let mut game = begun(heap, players, cells, rules)?;
        for _ in 0..rules {
            push_rule(&mut game, 1, 1, 0)?;
        }
        game.push(4)?;
        game.push(4)?;
        Ok(first_excess(game.as_slice()))
    }

    // The first limit that a game with two rules breaks, by their bounds.
    fn of_bounds(
        heap: Global,
        a: u16,
        b: u16,
        c: u16,
        d: u16,
    ) -> Result<Option<Excess>, AllocError> {
        let mut game = begun(heap, 2, 1, 2)?;
        push_rule(&mut game, a, b, 0)?;
        push_rule(&mut game, c, d, 0)?;
        game.push(4)?;
        game.push(4)?;
        Ok(first_excess(game.as_slice()))
    }

    #[test]
    fn excesses(rt: HostRuntime) -> Result<(), Fail> {
        let heap = rt.alloc();
        assert_eq!(rt; first_excess(&PILE), None);
        assert_eq!(rt; first_excess(&PILE[0..73]), None);
        assert_eq!(rt; of_size(heap, 0, 0, 65)?, Some(Excess::Players(0)));
        assert_eq!(rt; of_size(heap, 5, 1, 0)?, Some(Excess::Players(5)));
        assert_eq!(rt; of_size(heap, 4, 0, 65)?, Some(Excess::Cells(0)));
        assert_eq!(rt; of_size(heap, 4, 257, 0)?, Some(Excess::Cells(257)));
        assert_eq!(rt; of_size(heap, 1, 1, 65)?, Some(Excess::Rules(65)));
        assert_eq!(rt;
            of_bounds(heap, 65535, 65535, 65535, 65535)?,
            Some(Excess::Moves(8589672450))
        );
        assert_eq!(rt;
            of_bounds(heap, 256, 1, 257, 2)?,
            Some(Excess::FirstBound {
                rule: 1,
                bound: 257,
            })
        );
        assert_eq!(rt;
            of_bounds(heap, 0, 300, 400, 0)?,
            Some(Excess::SecondBound {
                rule: 0,
                bound: 300,
            })
        );
        assert_eq!(rt;
            first_excess(deep(heap, 33)?.as_slice()),
            Some(Excess::Deep)
        );
        Ok(())
    }

    // Whether a limit that is broken is told of by this sentence.
    fn is_told(heap: Global, excess: Excess, sentence: &str) -> Result<bool, AllocError> {
        let told = format!(in heap; "{excess}")?;
        Ok(told.as_str() == sentence)
    }

    #[test]
    fn sentences(rt: HostRuntime) -> Result<(), Fail> {
        let heap = rt.alloc();
        let first = Excess::FirstBound {
            rule: 1,
            bound: 257,
        };
        let second = Excess::SecondBound {
            rule: 0,
            bound: 300,
        };
        assert!(rt;
            is_told(
                heap,
                Excess::Players(5),
                "the game has 5 players, and 1 to 4 are served"
            )?
        );
        assert!(rt;
            is_told(
                heap,
                Excess::Cells(0),
                "the game has 0 cells, and 1 to 256 are served"
            )?
        );
        assert!(rt;
            is_told(
                heap,
                Excess::Rules(65),
                "the game has 65 rules, and at most 64 are served"
            )?
        );
        assert!(rt;
            is_told(
                heap,
                Excess::Moves(4097),
                "the game has 4097 possible moves, and at most 4096 are served"
            )?
        );
        assert!(rt;
            is_told(
                heap,
                Excess::Parts(16385),
                "the game has 16385 parts, and at most 16384 are served"
            )?
        );
        assert!(rt;
            is_told(
                heap,
                first,
                "rule 1, counted from 0, has the first bound 257, and at most 256 is served"
            )?
        );
        assert!(rt;
            is_told(
                heap,
                second,
                "rule 0, counted from 0, has the second bound 300, and at most 256 is served"
            )?
        );
        assert!(rt;
            is_told(
                heap,
                Excess::Deep,
                "an expression is more than 32 deep, and 32 is the most that is served"
            )?
        );
        Ok(())
    }

    // How many bytes a call with this first byte has, by the numbers of the format, if there is such a call.
    fn right_length(kind: u8) -> Option<usize> {
        match kind {
            0 | 2 | 3 | 4 => Some(5),
            1 => Some(21),
            5 => Some(9),
            6 => Some(17),
            _ => None,
        }
    }

    #[test]
    fn calls(rt: HostRuntime) {
        for kind in 0..=255u8 {
            let mut call = [0u8; 22];
            call[0] = kind;
            let length = right_length(kind);
            let n = length.unwrap_or(0);
            if n <= 22 {
                assert_eq!(rt; read_call(&call[0..n]).is_ok(), length.is_some());
            }
            assert_eq!(rt; read_call(&call).err(), Some(n));
        }
        assert_eq!(rt; read_call(&[]).err(), Some(0));
        assert_eq!(rt; read_call(&[5, 1, 0]).err(), Some(3));
    }
}
