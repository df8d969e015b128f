//! The rule of a board, and the kinds of step. No value of these types is made.
use atomic_table::{Join, Play, Split, TableRule};
use std::collections::LinkedList;

/// How many rows and seats a board has.
#[derive(Clone, Copy)]
pub struct Key {
    pub rows: u64,
    pub seats: u64,
}

/// What a seat knows: the rows that it has drawn, finished and seen done, how many seats it may split off, whether it has
/// drawn past the last row, has called stop, knows of the stop and was joined into another, and the board's numbers.
pub struct View {
    pub drawn: LinkedList<u32>,
    pub finished: LinkedList<u32>,
    pub seen: LinkedList<u32>,
    pub spare: u64,
    pub ended: bool,
    pub called: bool,
    pub knows: bool,
    pub spent: bool,
    pub rows: u64,
    pub seats: u64,
}

/// `Keeps` of `specs/Rule.antt`.
pub struct Rule;

impl TableRule<u8, View, Key> for Rule {
    ghost use Rattle.ucq_board.specs.Rule.{Keeps, fresh};

    ghost holds = { Keeps };

    ghost first = { fresh };
}

/// A step of the cursor.
pub struct Drawing;

impl Play<u8, View> for Drawing {
    ghost use Rattle.std.specs.Prelude.{◌≡◌};
    ghost use Rattle.ucq_board.specs.Steps.{Draws};

    ghost then = { λ step me found after. Draws me.0 found after.0 × (after.1 ≡ me.1) };
}

/// A view is cut in two.
pub struct Splitting;

impl Split<View> for Splitting {
    ghost use Rattle.ucq_board.specs.Steps.{left_of, right_of};

    ghost left = { left_of };

    ghost right = { right_of };
}

/// A view takes in all of another.
pub struct Joining;

impl Join<View> for Joining {
    ghost use Rattle.ucq_board.specs.Rule.{spent_view};
    ghost use Rattle.ucq_board.specs.Steps.{both_of};

    ghost both = { both_of };

    ghost spent = { spent_view };
}

/// A look at the cursor that changes nothing.
pub struct Looking;

impl Play<u8, View> for Looking {
    ghost use Rattle.std.specs.Prelude.{◌≡◌};
    ghost use Rattle.ucq_board.specs.Steps.{Looks};

    ghost then = { λ step me found after. Looks me.0 after.0 × (after.1 ≡ me.1) };
}

/// A look at the stop word.
pub struct AskingStop;

impl Play<u8, View> for AskingStop {
    ghost use Rattle.std.specs.Prelude.{◌≡◌};
    ghost use Rattle.ucq_board.specs.Steps.{AsksStop};

    ghost then = { λ step me found after. AsksStop me.0 found after.0 × (after.1 ≡ me.1) };
}

/// A look at the word of a row.
pub struct AskingRow;

impl Play<u8, View> for AskingRow {
    ghost use Rattle.std.specs.Prelude.{◌≡◌, ◌+◌, ℕ};
    ghost use Rattle.ucq_board.specs.Steps.{AsksRow};

    ghost then = { λ step me found after.
        ((row : ℕ) → step.word ≡ row + 2 → AsksRow row me.0 found after.0) × (after.1 ≡ me.1) };
}

/// The word of a row becomes 1.
pub struct Finishing;

impl Play<u8, View> for Finishing {
    ghost use Rattle.std.specs.Prelude.{◌≡◌, ◌+◌, ℕ};
    ghost use Rattle.ucq_board.specs.Steps.{finishing};

    ghost then = { λ step me found after.
        ((row : ℕ) → step.word ≡ row + 2 → after.0 ≡ finishing me.0 row) × (after.1 ≡ me.1) };
}

/// The stop word becomes 1.
pub struct Stopping;

impl Play<u8, View> for Stopping {
    ghost use Rattle.std.specs.Prelude.{◌≡◌};
    ghost use Rattle.ucq_board.specs.Steps.{stopping};

    ghost then = { λ step me found after. (after.0 ≡ stopping me.0) × (after.1 ≡ me.1) };
}
