// Tests of games in lent memory: what is loaded, its rules and what they do, worked out by hand.
#![tactic(auto)]

#[cfg(test)]
mod tests {
    use eval::eval;
    use rows::{apply_effects, load, read_game, read_rule, start_cell};
    use std::test::Fail;

    // The pile game with 5 in the pile.
    const PILE: [u8; 74] = [
        2, // players
        2, 0, 0, 0, 5, 0, // cells
        1, // rules
        4, 0, 1, 0, // bounds
        7, 10, 0, 0, 0, 2, 10, 2, 5, 1, 0, 1, 0, 0, 1, 0, // may * below 0 first below first + cell 1 1
        2, // effects
        0, 1, 0, 6, 1, 0, 1, 0, 2, // set 1 - cell 1 first
        0, 0, 0, 6, 0, 1, 0, 1, 0, 0, 0, // set 0 - 1 cell 0
        11, 1, 0, 1, 0, 0, 0, 0, // over same cell 1 0
        12, 11, 4, 9, 1, 0, 0, 0, 0, 2, 0, 0, 0, 0, 0, 1, 0, // gain if same me rest cell 0 2 0 1
    ];

    // 5 words, 2 cells, 5 for the rule, 2 for each of 2 effects, 4 for each of the 33 parts of expressions.
    const WORDS: usize = 148;

    #[test]
    fn loaded(rt: HostRuntime) {
        let mut memory = [7u32; 150];
        assert!(rt; load(&PILE, &mut memory[0..150]).is_ok());
        let game = read_game(&memory);
        assert_eq!(rt; game.players, 2);
        assert_eq!(rt; game.cells, 2);
        assert_eq!(rt; game.rules, 1);
        assert_eq!(rt; start_cell(&memory, 1), 5);
        assert_eq!(rt; start_cell(&memory, 2), 0);
        assert_eq!(rt; memory[WORDS], 7);
        // over with an empty pile, and not before
        assert_eq!(rt; eval(&memory, game.terminal, &[0, 5], 0, 0, 0), 0);
        assert_eq!(rt; eval(&memory, game.terminal, &[1, 0], 0, 0, 1), 1);
        // who is not to move has gained 1
        assert_eq!(rt; eval(&memory, game.payoff, &[1, 0], 0, 0, 0), 1);
        assert_eq!(rt; eval(&memory, game.payoff, &[1, 0], 0, 0, 1), 0);
    }

    #[test]
    fn rule(rt: HostRuntime) -> Result<(), Fail> {
        let mut memory = [0u32; 148];
        assert!(rt; load(&PILE, &mut memory[0..148]).is_ok());
        assert!(rt; read_rule(&memory, 1).is_none());
        let row = read_rule(&memory, 0).ok_or_else(|| Fail::new("there is a rule"))?;
        assert_eq!(rt; row.first_bound, 4);
        assert_eq!(rt; row.second_bound, 1);
        assert_eq!(rt; row.effects, 2);
        // 0 stones may not be taken, 3 of 3 may, 3 of 2 may not
        assert_eq!(rt; eval(&memory, row.guard, &[0, 5], 0, 0, 0), 0);
        assert_eq!(rt; eval(&memory, row.guard, &[0, 3], 3, 0, 0), 1);
        assert_eq!(rt; eval(&memory, row.guard, &[0, 2], 3, 0, 0), 0);
        let mut cells = [0, 5, 9];
        apply_effects(&memory, row, &mut cells[0..3], 3, 0, 0);
        assert_eq!(rt; cells, [1, 2, 9]);
        // on a board of one cell the effect on cell 1 does nothing
        let mut small = [1];
        apply_effects(&memory, row, &mut small[0..1], 3, 0, 1);
        assert_eq!(rt; small, [0]);
        Ok(())
    }

    #[test]
    fn too_short(rt: HostRuntime) -> Result<(), Fail> {
        let mut memory = [7u32; 147];
        let Err(refusal) = load(&PILE, &mut memory[0..147]) else {
            return Err(Fail::new("a word is missing"));
        };
        assert_eq!(rt; refusal.number, 3);
        assert_eq!(rt; refusal.place, 2);
        assert_eq!(rt; memory[0], 7);
        Ok(())
    }
}
