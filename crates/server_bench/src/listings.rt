// The positions of noughts and crosses that play can lead to, and the lists of moves in them.
use play::{apply, is_legal, is_over, list_moves};
use rules::Move;

const BOARDS: usize = 19683;

// How many cells a position has.
pub(crate) const CELLS: usize = 10;

// Room for an answer, as a server for the game has it: 12 bytes for each of 10 moves, and 4096 more.
pub(crate) const ANSWER_BYTES: usize = 4216;

const LIST_HEAD: usize = 5;

const MOVE_BYTES: usize = 12;

// A board as a number in threes.
fn board_number(cells: &[u32]) -> usize {
    let mut number = 0usize;
    for x in cells.iter().skip(1) {
        number = number.saturating_mul(3).saturating_add(*x as usize) % BOARDS;
    }
    number
}

// The positions after one move, those that are new.
fn add_next(
    rules: &[u32],
    cells: [u32; CELLS],
    seen: &mut [bool],
    found: &mut Vec<u32>,
) -> anyhow::Result<()> {
    for first in 0..CELLS as u32 {
        let played = Move {
            rule: 0,
            first,
            second: 0,
        };
        if is_legal(rules, &cells, played) {
            let mut next = cells;
            apply(rules, &mut next, played);
            let number = board_number(&next);
            if number < seen.len() && !seen[number] {
                seen[number] = true;
                found.extend_from_slice(&next)?;
            }
        }
    }
    Ok(())
}

// All positions that play can lead to from the empty board, each once, one after the other.
pub(crate) fn reachable(rt: &HostRuntime, rules: &[u32]) -> anyhow::Result<Vec<u32>> {
    let mut seen: Vec<bool> = vec![in rt.alloc(); false; BOARDS]?;
    let mut found: Vec<u32> = vec![in rt.alloc(); 0; CELLS]?;
    for k in 0..BOARDS {
        let at = CELLS * k;
        if at + CELLS > found.len() {
            return Ok(found);
        }
        let mut cells = [0u32; CELLS];
        cells.copy_from_slice(&found[at..at + CELLS]);
        if !is_over(rules, &cells) {
            add_next(rules, cells, &mut seen, &mut found)?;
        }
    }
    Ok(found)
}

// Lists the moves of every position that is not over, and says how many they are together.
pub(crate) fn list_all(rules: &[u32], positions: &[u32], answer: &mut [u8]) -> usize {
    let mut total = 0usize;
    for cells in positions.chunks(CELLS) {
        if !is_over(rules, cells) {
            if let Some(size) = list_moves(rules, cells, answer) {
                total = total.saturating_add(size.saturating_sub(LIST_HEAD) / MOVE_BYTES);
            }
        }
    }
    total
}
