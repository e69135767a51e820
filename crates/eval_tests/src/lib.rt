// Expressions loaded and evaluated, on examples.
#![tactic(auto)]

#[cfg(test)]
mod tests {
    use eval::{LoadError, Loaded, eval, load_expr};
    use std::test::Fail;

    const MOST: u32 = 65535;

    // The value of an expression of this kind, of two numbers. Kinds are the numbers that memory has for them.
    fn of_two(kind: u32, x: u32, y: u32) -> u32 {
        let rules = [0, x, 0, 0, 0, y, 0, 0, kind, 0, 4, 0];
        eval(&rules, 8, &[7], 0, 0, 0)
    }

    // The value of a row of this kind with operand `a`, where the cells hold 7 and 8, and the move's numbers and the player are 1, 2 and 3.
    fn of_row(kind: u32, a: u32) -> u32 {
        let rules = [0, 1, 0, 0, kind, a, 0, 0];
        eval(&rules, 4, &[7, 8], 1, 2, 3)
    }

    // Three numbers below one row: `if x then y else z`.
    fn of_three(x: u32, y: u32, z: u32) -> u32 {
        let rules = [0, x, 0, 0, 0, y, 0, 0, 0, z, 0, 0, 12, 0, 4, 8];
        eval(&rules, 12, &[7], 0, 0, 0)
    }

    #[test]
    fn rows_without_parts(rt: HostRuntime) {
        assert!(rt;
            of_row(0, 0) == 0
                && of_row(0, 1) == 1
                && of_row(0, MOST) == MOST
                && of_row(0, MOST + 1) == MOST
        );
        assert!(rt; of_row(2, 9) == 1 && of_row(3, 9) == 2 && of_row(4, 9) == 3);
        assert!(rt; of_row(13, 9) == 0, "no such kind");
    }

    #[test]
    fn cells(rt: HostRuntime) {
        assert!(rt; of_row(1, 0) == 8, "cell 1");
        let rules = [0, 2, 0, 0, 1, 0, 0, 0];
        assert!(rt; eval(&rules, 4, &[7, 8], 0, 0, 0) == 0, "not on the board");
    }

    #[test]
    fn sums_and_differences(rt: HostRuntime) {
        assert!(rt;
            of_two(5, 0, 0) == 0
                && of_two(5, 1, 0) == 1
                && of_two(5, MOST, 0) == MOST
                && of_two(5, MOST, 1) == MOST
        );
        assert!(rt; of_two(6, 1, 1) == 0 && of_two(6, MOST, 1) == MOST - 1 && of_two(6, 0, 1) == 0);
    }

    #[test]
    fn products(rt: HostRuntime) {
        assert!(rt;
            of_two(7, 0, MOST) == 0
                && of_two(7, MOST, 0) == 0
                && of_two(7, 1, MOST) == MOST
                && of_two(7, MOST, MOST) == MOST
        );
        assert!(rt; of_two(7, 257, 255) == MOST && of_two(7, 256, 255) == 65280);
    }

    #[test]
    fn quotients(rt: HostRuntime) {
        assert!(rt;
            of_two(8, MOST, 1) == MOST
                && of_two(8, 1, MOST) == 0
                && of_two(8, 1, 0) == 0
                && of_two(8, 7, 2) == 3
        );
        assert!(rt;
            of_two(9, MOST, 1) == 0
                && of_two(9, 1, MOST) == 1
                && of_two(9, 1, 0) == 0
                && of_two(9, 7, 2) == 1
        );
    }

    #[test]
    fn comparisons(rt: HostRuntime) {
        assert!(rt; of_two(10, 0, 1) == 1 && of_two(10, 1, 0) == 0 && of_two(10, MOST, MOST) == 0);
        assert!(rt; of_two(11, 0, 0) == 1 && of_two(11, 0, 1) == 0 && of_two(11, MOST, MOST) == 1);
        assert!(rt; of_three(0, 5, 6) == 6 && of_three(1, 5, 6) == 5 && of_three(MOST, 5, 6) == 5);
    }

    // Rows that lie past the end, and a row that is its own part: there is always a value.
    #[test]
    fn any_memory(rt: HostRuntime) {
        assert!(rt; eval(&[], 0, &[7], 1, 2, 3) == 0);
        assert!(rt; eval(&[4], 0, &[7], 1, 2, 3) == 3);
        assert!(rt; eval(&[2], u32::MAX, &[7], 1, 2, 3) == 0);
        assert!(rt; eval(&[1, 0, 0, 0], 0, &[1, 0], 1, 2, 3) == 1);
    }

    // if first < cell 1 then 2 + 300 else me
    #[test]
    fn loads(rt: HostRuntime) -> Result<(), Fail> {
        let bytes = [12, 10, 2, 1, 0, 1, 0, 5, 0, 2, 0, 0, 44, 1, 4, 99];
        let mut rules = [7u32; 44];
        let Loaded { used, root } = load_expr(&bytes, &mut rules, 4).map_err(|_| Fail::new(
            "not loaded",
        ))?;
        assert!(rt; used == 15 && root == 36);
        assert!(rt; rules[3] == 7 && rules[40] == 7);
        assert!(rt; eval(&rules, root, &[0, 9], 8, 0, 5) == 302);
        assert!(rt; eval(&rules, root, &[0, 9], 9, 0, 5) == 5);
        Ok(())
    }

    // Cells within cells, where each of three cells holds the number of the next.
    #[test]
    fn depth(rt: HostRuntime) -> Result<(), Fail> {
        let mut rules = [0u32; 136];
        let mut bytes = [1u8; 34];
        bytes[32] = 2;
        let Loaded { used, root } = load_expr(&bytes, &mut rules, 0).map_err(|_| Fail::new(
            "32 deep",
        ))?;
        assert!(rt; used == 33 && root == 128);
        assert!(rt; eval(&rules, root, &[1, 2, 0], 0, 0, 0) == 2);
        bytes[32] = 1;
        bytes[33] = 2;
        assert!(rt;
            load_expr(&bytes, &mut rules, 0) == Err(LoadError::TooDeep),
            "33 deep"
        );
        Ok(())
    }

    fn is_unreadable(bytes: &[u8]) -> bool {
        let mut rules = [0u32; 16];
        load_expr(bytes, &mut rules, 0) == Err(LoadError::Unreadable)
    }

    fn is_full(bytes: &[u8], at: u32) -> bool {
        let mut rules = [0u32; 8];
        load_expr(bytes, &mut rules, at) == Err(LoadError::Full)
    }

    #[test]
    fn refuses(rt: HostRuntime) {
        assert!(rt;
            is_unreadable(&[])
                && is_unreadable(&[13])
                && is_unreadable(&[0, 1])
                && is_unreadable(&[5, 2])
        );
        assert!(rt; !is_unreadable(&[5, 2, 3]));
        assert!(rt; is_full(&[5, 2, 3], 0) && is_full(&[2], 5) && is_full(&[2], u32::MAX));
        assert!(rt; !is_full(&[1, 2], 0) && !is_full(&[2], 4));
    }
}
