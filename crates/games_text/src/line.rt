ghost use Rattle.std.specs.Prelude.{◌≡◌, ◌++◌, ◌∷◌, [], take, IfOk, OnOk};

use board::Move;
use std::alloc::{AllocError, Global};
use std::marker::Model;

/// Moves in the order in which they came. Contracts see their list.
#[derive(Drop)]
pub struct Line {
    moves: Vec<Move>,
}

impl Model for Line {
    ghost use Rattle.std.specs.Prelude.{List};
    ghost use Rattle.board.specs.Moves.{MoveWord};

    ghost Value = { List MoveWord };

    ghost view = { λ line. line.moves.items };
}

impl Line {
    /// No moves. It takes no memory.
    pub fn new(alloc: Global) -> Line
        ensures { result ≡ [] }
    {
        Line {
            moves: Vec::new(alloc),
        }
    }

    /// Puts a move behind the others.
    pub fn push(&mut self, m: Move) -> Result<(), AllocError>
        ensures { OnOk result (self.new ≡ self.old ++ m ∷ []) }
    {
        self.moves.push(m)?;
        Ok(())
    }

    /// The first `n` moves, or all where there are no more.
    pub fn first(&self, alloc: Global, n: usize) -> Result<Vec<Move>, AllocError>
        ensures { IfOk result (λ moves. moves.items ≡ take n self.now) }
    {
        Vec::from_slice(alloc, &self.moves[..n.min(self.moves.len())])
    }
}
