// Tests of a server in lent memory, worked out by hand. A call and its answer are written as numbers, `CALL = ANSWER;`, the kind first:
// docs/FORMATS.md has the kinds, and how calls, answers and games are bytes.
#![tactic(auto)]

#[cfg(test)]
mod tests {
    use rules::{Limits, Refusal};
    use session::{call, needs, open};
    use std::alloc::{AllocError, Global};
    use std::process::Abort;
    use std::test::Fail;

    // The pile game with 5 in the pile: players and cells, the rule's bounds and condition, its effects, and the end and the gain.
    const PILE: &[u8] = b"\x02\x02\x00\x00\x00\x05\x00\x01\
        \x04\x00\x01\x00\x07\x0a\x00\x00\x00\x02\x0a\x02\x05\x01\x00\x01\x00\x00\x01\x00\
        \x02\x00\x01\x00\x06\x01\x00\x01\x00\x02\x00\x00\x00\x06\x00\x01\x00\x01\x00\x00\x00\
        \x0b\x01\x00\x01\x00\x00\x00\x00\x0c\x0b\x04\x09\x01\x00\x00\x00\x00\x02\x00\x00\x00\x00\x00\x01\x00";

    // Five players, one cell, no rules: can be read, and is no good game.
    const FIVE: &[u8] = b"\x05\x01\x00\x00\x00\x00\x00\x00\x00\x04";

    // What lent memory holds before it is used.
    const WORD: u32 = 9;

    const BYTE: u8 = 7;

    // 2 tables, 4 moves and 3 positions for the pile: rules 5 + 2 + 5 + 2 * 2 + 4 * 33 words, state 16 + 2 * 11 + 4 * 4, scratch 2 * 3 * 18 + 512,
    // and 12 * 4 + 4096 bytes for an answer.
    const TWO: Limits = Limits {
        tables: 2,
        moves: 4,
        positions: 3,
    };

    const SIZES: [usize; 4] = [148, 54, 620, 4144];

    // A game from its first move to its end, with what is refused on the way: see 0, sit 0, see 0, may 0; two plays that are refused, and one that is not;
    // ticks, back and two searches, which this server can't do; the other moves, and what is there at the end.
    const GAME: &str =
        "3 0 = 0 4 0; 0 0 = 1 0; 3 0 = 2 2 0 5 0 0 2 0 0; 4 0 = 3 3 0 1 0 0 2 0 0 3 0;\
        1 0 1 0 1 0 = 0 6 1; 1 0 0 0 0 0 = 0 7 2; 1 0 0 1 1 0 = 0 7 2; 1 0 0 0 1 0 = 1 1; 3 0 = 2 2 1 4 1 0 2 0 0;\
        2 5 = 0 2 0; 5 0 0 = 0 2 0; 6 0 0 1 64 = 0 2 0; 6 0 0 1 65 = 0 2 3;\
        1 0 1 0 3 0 = 1 2; 4 0 = 3 1 0 1 0; 1 0 0 0 2 0 = 0 7 2; 1 0 0 0 1 0 = 1 3;\
        1 0 1 0 1 0 = 0 5 0; 3 0 = 2 2 1 0 1 1 2 0 0; 4 0 = 3 0;\
        1 1 0 0 1 0 = 0 4 0; 4 1 = 0 4 0; 3 4294967295 = 0 4 0;";

    // Two tables, the second with clocks: a move at one changes nothing at the other.
    const APART: &str = "0 0 = 1 0; 0 7 = 1 1;\
        1 0 0 0 1 0 = 1 1; 3 1 = 2 2 0 5 0 0 2 7 7;\
        1 1 0 0 2 0 = 1 1; 3 0 = 2 2 1 4 1 0 2 0 0;\
        1 0 1 0 3 0 = 1 2; 3 1 = 2 2 1 3 1 0 2 7 7; 3 0 = 2 2 0 1 0 0 2 0 0;";

    // The state after that: header, a record for each table, and entries, whose last word names the next of the same table, if there is one.
    const KEPT: &str = "1465208388 2 4 3 2 2 148 620 4144 2 3 0 0 0 0 0 \
        0 1 0 0 0 0 0 0 2 0 49 \
        1 3 7 7 0 0 1 0 1 1 45 \
        0 1 0 2 0 2 0 9 0 3 0 9 9 9 9 9 ";

    // With no tables; with one table and no moves; with one table and one move.
    const NO_TABLES: &str = "0 0 = 0 8 0;";

    const NO_MOVES: &str = "0 0 = 1 0; 0 0 = 0 8 0; 1 0 0 0 1 0 = 0 8 0; 1 0 0 0 4 0 = 0 7 2;";

    const ONE_MOVE: &str =
        "0 0 = 1 0; 1 0 0 0 1 0 = 1 1; 1 0 1 0 1 0 = 0 8 0; 3 0 = 2 2 1 4 1 0 2 0 0;";

    // At 1,024 tables: the next is refused; plays at the last and at the first.
    const MANY: u32 = 1024;

    const FULL: &str = "0 0 = 0 8 0; 1 1023 0 0 2 0 = 1 1; 1 0 0 0 1 0 = 1 1;\
        3 1023 = 2 2 1 3 1 0 2 0 0; 3 0 = 2 2 1 4 1 0 2 0 0; 3 1022 = 2 2 0 5 0 0 2 0 0; 3 1024 = 0 4 0;";

    // A back call, and two bytes too many.
    const LONG: &[u8] = b"\x05\x00\x00\x00\x00\x00\x00\x00\x00\x00\x00";

    #[derive(Drop)]
    struct Memory {
        rules: Vec<u32>,
        state: Vec<u32>,
        scratch: Vec<u32>,
        answer: Vec<u8>,
    }

    // Memory of these sizes, with the same word everywhere.
    fn filled(heap: Global, sizes: [usize; 4], word: u32) -> Result<Memory, AllocError> {
        Ok(Memory {
            rules: vec![in heap; word; sizes[0]]?,
            state: vec![in heap; word; sizes[1]]?,
            scratch: vec![in heap; word; sizes[2]]?,
            answer: vec![in heap; BYTE; sizes[3]]?,
        })
    }

    // How opening was refused, if it was.
    fn opened(limits: Limits, game: &[u8], m: &mut Memory) -> Option<Refusal> {
        open(
            limits,
            game,
            &mut m.rules,
            &mut m.state,
            &m.scratch,
            &m.answer,
        )
        .err()
    }

    // A refusal of a game, of limits or of memory.
    fn unopened(place: u32) -> Option<Refusal> {
        Some(Refusal { number: 3, place })
    }

    fn serve(m: &mut Memory, bytes: &[u8]) -> usize {
        call(&m.rules, &mut m.state, &mut m.scratch, bytes, &mut m.answer)
    }

    fn all_are(words: &[u32], word: u32) -> bool {
        words.iter().all(|x| *x == word)
    }

    fn rest_is_kept(answer: &[u8], size: usize) -> bool {
        answer.iter().skip(size).all(|x| *x == BYTE)
    }

    fn is_untouched(m: &Memory, word: u32) -> bool {
        all_are(&m.rules, word)
            && all_are(&m.state, word)
            && all_are(&m.scratch, word)
            && rest_is_kept(&m.answer, 0)
    }

    // Makes a call and checks the answer. What is past the answer stays, and so does scratch, and the state where no number is answered.
    fn ask(rt: &impl Abort, m: &mut Memory, asked: &[u8], told: &[u8]) -> Result<(), Fail> {
        let before = m.state.clone()?;
        m.answer.fill(BYTE);
        let size = serve(m, asked);
        assert!(rt; size == told.len() && size <= m.answer.len());
        assert_eq!(rt; &m.answer[0..size], told);
        assert!(rt; rest_is_kept(&m.answer, size));
        assert!(rt; all_are(&m.scratch, WORD));
        assert!(rt; told.first() == Some(&1) || m.state == before);
        Ok(())
    }

    // A kind has one byte, and all numbers after it four.
    fn add(bytes: &mut Vec<u8>, n: u32) -> Result<(), AllocError> {
        if bytes.is_empty() {
            bytes.extend_from_slice(&[(n % 256) as u8])
        } else {
            bytes.extend_from_slice(&n.to_le_bytes())
        }
    }

    // The bytes of a call or an answer that is written as numbers.
    fn bytes_of(heap: Global, numbers: &str) -> Result<Vec<u8>, Fail> {
        let mut bytes = Vec::new(heap);
        for word in numbers.split_whitespace() {
            add(&mut bytes, word.parse::<u32>()?)?;
        }
        Ok(bytes)
    }

    // Makes calls and checks their answers.
    fn go_through(rt: &impl Abort, heap: Global, m: &mut Memory, script: &str) -> Result<(), Fail> {
        for line in script.split_terminator(';') {
            let (asked, told) = line
                .split_once('=')
                .ok_or_else(|| Fail::new("a call and its answer"))?;
            ask(rt, m, &bytes_of(heap, asked)?, &bytes_of(heap, told)?)?;
        }
        Ok(())
    }

    // Whether words are these numbers.
    fn are(words: &[u32], numbers: &str) -> bool {
        words
            .iter()
            .map(|x| Some(*x))
            .eq(numbers.split_whitespace().map(|n| n.parse::<u32>().ok()))
    }

    // A server for the pile.
    fn server(
        rt: &impl Abort,
        heap: Global,
        limits: Limits,
        sizes: [usize; 4],
    ) -> Result<Memory, Fail> {
        let mut m = filled(heap, sizes, WORD)?;
        assert_eq!(rt; opened(limits, PILE, &mut m), None);
        Ok(m)
    }

    // The same with so many tables and moves.
    fn small_server(
        rt: &impl Abort,
        heap: Global,
        tables: u32,
        moves: u32,
        words: usize,
    ) -> Result<Memory, Fail> {
        server(
            rt,
            heap,
            Limits {
                tables,
                moves,
                positions: 0,
            },
            [148, words, 512, 4144],
        )
    }

    #[test]
    fn to_the_end(rt: HostRuntime) -> Result<(), Fail> {
        let mut m = server(&rt, rt.alloc(), TWO, SIZES)?;
        go_through(&rt, rt.alloc(), &mut m, GAME)
    }

    fn no_call(rt: &impl Abort, m: &mut Memory, bytes: &[u8], place: u8) -> Result<(), Fail> {
        ask(rt, m, bytes, &[0, 1, 0, 0, 0, place, 0, 0, 0])
    }

    // All fronts of a call and two bytes more, but for the call itself; and a kind that there is not.
    #[test]
    fn no_calls(rt: HostRuntime) -> Result<(), Fail> {
        let mut m = server(&rt, rt.alloc(), TWO, SIZES)?;
        for n in 0..12u8 {
            if n != 9 {
                no_call(
                    &rt,
                    &mut m,
                    &LONG[0..usize::from(n).min(LONG.len())],
                    n.min(9),
                )?;
            }
        }
        no_call(&rt, &mut m, b"\x07\x00\x00\x00\x00", 0)
    }

    #[test]
    fn tables_apart(rt: HostRuntime) -> Result<(), Fail> {
        let mut m = server(&rt, rt.alloc(), TWO, SIZES)?;
        go_through(&rt, rt.alloc(), &mut m, APART)?;
        assert!(rt; are(&m.state, KEPT));
        Ok(())
    }

    #[test]
    fn limits(rt: HostRuntime) -> Result<(), Fail> {
        let heap = rt.alloc();
        go_through(
            &rt,
            heap,
            &mut small_server(&rt, heap, 0, 0, 16)?,
            NO_TABLES,
        )?;
        go_through(&rt, heap, &mut small_server(&rt, heap, 1, 0, 27)?, NO_MOVES)?;
        go_through(&rt, heap, &mut small_server(&rt, heap, 1, 1, 31)?, ONE_MOVE)
    }

    #[test]
    fn all_of_1024_tables(rt: HostRuntime) -> Result<(), Fail> {
        let heap = rt.alloc();
        let mut m = small_server(&rt, heap, MANY, 2, 11288)?;
        for t in 0..MANY {
            let mut told = Vec::new(heap);
            add(&mut told, 1)?;
            add(&mut told, t)?;
            ask(&rt, &mut m, b"\x00\x00\x00\x00\x00", &told)?;
        }
        go_through(&rt, heap, &mut m, FULL)
    }

    // How opening is refused, with all memory as it was.
    fn refused(
        rt: &impl Abort,
        heap: Global,
        limits: Limits,
        game: &[u8],
        sizes: [usize; 4],
    ) -> Result<Option<Refusal>, Fail> {
        let mut m = filled(heap, sizes, WORD)?;
        let refusal = opened(limits, game, &mut m);
        assert!(rt; is_untouched(&m, WORD));
        Ok(refusal)
    }

    // What is needed is enough, as all tests here have it, and one less of each slice is not.
    #[test]
    fn one_less_than_needed(rt: HostRuntime) -> Result<(), Fail> {
        let sizes = needs(TWO, PILE)?;
        assert_eq!(rt;
            [sizes.rules, sizes.state, sizes.scratch, sizes.answer],
            SIZES
        );
        let [rules, state, scratch, answer] = SIZES;
        for short in [
            [rules - 1, state, scratch, answer],
            [rules, state - 1, scratch, answer],
            [rules, state, scratch - 1, answer],
            [rules, state, scratch, answer - 1],
        ] {
            assert_eq!(rt; refused(&rt, rt.alloc(), TWO, PILE, short)?, unopened(2));
        }
        Ok(())
    }

    // Limits one above the largest, a game for five, and bytes that are no game.
    const TOO_MANY: [(u32, u32, u32); 3] = [(1025, 0, 0), (0, 1000001, 0), (0, 0, 8193)];

    #[test]
    fn refused_at_opening(rt: HostRuntime) -> Result<(), Fail> {
        let heap = rt.alloc();
        let large = [1000, 20000, 1000, 5000];
        for (tables, moves, positions) in TOO_MANY {
            let limits = Limits {
                tables,
                moves,
                positions,
            };
            assert_eq!(rt; refused(&rt, heap, limits, PILE, large)?, unopened(1));
        }
        assert_eq!(rt; refused(&rt, heap, TWO, FIVE, large)?, unopened(1));
        assert_eq!(rt; refused(&rt, heap, TWO, &PILE[0..73], large)?, unopened(0));
        assert_eq!(rt; refused(&rt, heap, TWO, b"", large)?, unopened(0));
        Ok(())
    }

    // Memory that no opening made.
    #[test]
    fn not_opened(rt: HostRuntime) -> Result<(), Fail> {
        for word in [0, WORD, 4294967295] {
            let mut m = filled(rt.alloc(), SIZES, word)?;
            assert_eq!(rt; serve(&mut m, b"\x00\x00\x00\x00\x00"), 0);
            assert!(rt; is_untouched(&m, word));
        }
        Ok(())
    }

    // A slice of a server is lent one shorter.
    fn shorten(m: &mut Memory, k: usize) -> bool {
        match k {
            0 => m.rules.pop().is_some(),
            1 => m.state.pop().is_some(),
            2 => m.scratch.pop().is_some(),
            _ => m.answer.pop().is_some(),
        }
    }

    #[test]
    fn shorter_than_opened(rt: HostRuntime) -> Result<(), Fail> {
        for k in 0..4usize {
            let mut m = server(&rt, rt.alloc(), TWO, SIZES)?;
            assert!(rt; shorten(&mut m, k));
            ask(&rt, &mut m, b"\x00\x00\x00\x00\x00", b"")?;
        }
        Ok(())
    }
}
