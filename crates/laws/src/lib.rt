// Theorems about the meaning of rules and calls, for every game. Each function stands for the theorem that its contract is.
#![tactic(auto)]

ghost use Rattle.laws.specs.Effects.{OffTheBoardIs0, OffTheBoardChangesNothing, OneCellChanges, OneAfterTheOther, MeIsTakenBefore, ValuesStaySmall};
ghost use Rattle.laws.specs.Values.{ValueOfEachKind, TurnGoesRound};
ghost use Rattle.laws.specs.Legal.{RulesByTheirPlace, LegalJustIf, MadeByItsEffects, OverJustIf, GainedByEach};
ghost use Rattle.laws.specs.Listing.{ListedOnce, ListedInOrder, NoMoveIsOver, GoesOnByAMove};
ghost use Rattle.laws.specs.Forcing.{ForcedIsPlayed, EveryWayHasAPlay, PlayedIsForced, MoreMoves, SmallerGain, OneOrTheOther};
ghost use Rattle.laws.specs.Layers.{TotalIsExact, MoreLayers, NoPositionTwice, JustThoseReached};
ghost use Rattle.laws.specs.Reached.{ReachedByItsMoves};
ghost use Rattle.laws.specs.Clocks.{GameStays, NewTable, TablesApart, ClocksOnlyFall, TicksTakeFromWhoseTurn};
ghost use Rattle.laws.specs.Refusals.{RefusedChangesNothing, LeastThatApplies, RefusedByAKnownNumber, RefusedForAFault};
ghost use Rattle.laws.specs.Replies.{OverByEither, EachCallAnswered, PlayMakesItsMove, AskingChangesNothing, MovesCounted, OneCallAfterTheOther, StagesGrow};
ghost use Rattle.laws.specs.Bounds.{GoodJustIf};
ghost use Rattle.laws.specs.Pile.{PileEndsInTime, PileWorked, PileSolved};

// Expressions and effects.
pub fn value_of_each_kind() -> u8
    ensures { ValueOfEachKind }
{
    0
}

pub fn turn_goes_round() -> u8
    ensures { TurnGoesRound }
{
    0
}

pub fn off_the_board_is_0() -> u8
    ensures { OffTheBoardIs0 }
{
    0
}

pub fn off_the_board_changes_nothing() -> u8
    ensures { OffTheBoardChangesNothing }
{
    0
}

pub fn one_cell_changes() -> u8
    ensures { OneCellChanges }
{
    0
}

pub fn one_after_the_other() -> u8
    ensures { OneAfterTheOther }
{
    0
}

pub fn me_is_taken_before() -> u8
    ensures { MeIsTakenBefore }
{
    0
}

pub fn values_stay_small() -> u8
    ensures { ValuesStaySmall }
{
    0
}

// Legal moves, the end of a game, and what is gained.
pub fn rules_by_their_place() -> u8
    ensures { RulesByTheirPlace }
{
    0
}

pub fn legal_just_if() -> u8
    ensures { LegalJustIf }
{
    0
}

pub fn made_by_its_effects() -> u8
    ensures { MadeByItsEffects }
{
    0
}

pub fn over_just_if() -> u8
    ensures { OverJustIf }
{
    0
}

pub fn gained_by_each() -> u8
    ensures { GainedByEach }
{
    0
}

// The list of legal moves.
pub fn listed_once() -> u8
    ensures { ListedOnce }
{
    0
}

pub fn listed_in_order() -> u8
    ensures { ListedInOrder }
{
    0
}

pub fn no_move_is_over() -> u8
    ensures { NoMoveIsOver }
{
    0
}

pub fn goes_on_by_a_move() -> u8
    ensures { GoesOnByAMove }
{
    0
}

// What can be forced.
pub fn forced_is_played() -> u8
    ensures { ForcedIsPlayed }
{
    0
}

pub fn every_way_has_a_play() -> u8
    ensures { EveryWayHasAPlay }
{
    0
}

pub fn played_is_forced() -> u8
    ensures { PlayedIsForced }
{
    0
}

pub fn more_moves() -> u8
    ensures { MoreMoves }
{
    0
}

pub fn smaller_gain() -> u8
    ensures { SmallerGain }
{
    0
}

pub fn one_or_the_other() -> u8
    ensures { OneOrTheOther }
{
    0
}

// The positions that a search looks through.
pub fn total_is_exact() -> u8
    ensures { TotalIsExact }
{
    0
}

pub fn more_layers() -> u8
    ensures { MoreLayers }
{
    0
}

pub fn no_position_twice() -> u8
    ensures { NoPositionTwice }
{
    0
}

pub fn just_those_reached() -> u8
    ensures { JustThoseReached }
{
    0
}

// The position at a table.
pub fn reached_by_its_moves() -> u8
    ensures { ReachedByItsMoves }
{
    0
}

// What a call changes.
pub fn game_stays() -> u8
    ensures { GameStays }
{
    0
}

pub fn new_table() -> u8
    ensures { NewTable }
{
    0
}

pub fn tables_apart() -> u8
    ensures { TablesApart }
{
    0
}

pub fn clocks_only_fall() -> u8
    ensures { ClocksOnlyFall }
{
    0
}

pub fn ticks_take_from_whose_turn() -> u8
    ensures { TicksTakeFromWhoseTurn }
{
    0
}

// Why a call is refused.
pub fn refused_changes_nothing() -> u8
    ensures { RefusedChangesNothing }
{
    0
}

pub fn least_that_applies() -> u8
    ensures { LeastThatApplies }
{
    0
}

pub fn refused_by_a_known_number() -> u8
    ensures { RefusedByAKnownNumber }
{
    0
}

pub fn refused_for_a_fault() -> u8
    ensures { RefusedForAFault }
{
    0
}

// What is answered where a call is not refused.
pub fn over_by_either() -> u8
    ensures { OverByEither }
{
    0
}

pub fn each_call_answered() -> u8
    ensures { EachCallAnswered }
{
    0
}

pub fn play_makes_its_move() -> u8
    ensures { PlayMakesItsMove }
{
    0
}

pub fn asking_changes_nothing() -> u8
    ensures { AskingChangesNothing }
{
    0
}

pub fn moves_counted() -> u8
    ensures { MovesCounted }
{
    0
}

pub fn one_call_after_the_other() -> u8
    ensures { OneCallAfterTheOther }
{
    0
}

pub fn stages_grow() -> u8
    ensures { StagesGrow }
{
    0
}

// What a server may be opened with.
pub fn good_just_if() -> u8
    ensures { GoodJustIf }
{
    0
}

// The pile game, worked.
pub fn pile_ends_in_time() -> u8
    ensures { PileEndsInTime }
{
    0
}

pub fn pile_worked() -> u8
    ensures { PileWorked }
{
    0
}

pub fn pile_solved() -> u8
    ensures { PileSolved }
{
    0
}
