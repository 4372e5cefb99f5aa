//! The board.

use crate::table::BoardTable;
use std::marker::Model;

/// One word for each goal, and one that counts the entries. Threads share it by reference.
#[derive(Drop)]
pub struct Board {
    pub(crate) table: BoardTable,
}

impl Model for Board {
    ghost use Rattle.goal_board.specs.Passes.{BoardState};
    ghost use Rattle.goal_board.specs.Inside.{board_state, IsBoardTable};

    ghost Value = { BoardState };

    ghost view = { λ b. board_state b.table.shared.table_id b.table.shared.key };

    ghost invariant = { λ b. IsBoardTable b.table.shared.table_id b.table.shared.key };
}
