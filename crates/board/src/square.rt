ghost use Rattle.std.specs.Prelude.{◌≡◌, ◌+◌, ◌*◌, ◌<◌};
ghost use Rattle.board.specs.Square.{file_of, rank_of, apart, distance};

use std::marker::Model;

/// A square of the board: a1 is 0, h1 is 7, a2 is 8, h8 is 63. There are no others.
#[derive(Clone, Copy, Debug, PartialEq, Eq)]
pub struct Square(pub u8);

impl Model for Square {
    ghost use Rattle.std.specs.Prelude.{ℕ, ◌<◌};

    ghost Value = { ℕ };

    ghost view = { λ s. s.0 };

    ghost invariant = { λ s. s.0 < 64 };

    ghost inverse = { λ n. record { 0 = n } };
}

impl Square {
    /// The square with this number.
    pub fn of(index: u8) -> Square
        requires { index < 64 }
        ensures { result ≡ index }
    {
        Square(index)
    }

    /// The square on this file and this rank, both counted from 0.
    pub fn at(file: u8, rank: u8) -> Square
        requires on_file { file < 8 }
        requires on_rank { rank < 8 }
        ensures { result ≡ 8 * rank + file }
    {
        Square(8 * rank + file)
    }

    /// The number of the square, 0 to 63.
    pub fn index(self) -> u8
        ensures is { result ≡ self }
        ensures on_board { result < 64 }
    {
        self.0
    }

    /// The file, from 0 for the a-file to 7.
    pub fn file(self) -> u8
        ensures is { result ≡ file_of self }
        ensures on_board { result < 8 }
    {
        self.0 % 8
    }

    /// The rank, from 0 for the first to 7.
    pub fn rank(self) -> u8
        ensures is { result ≡ rank_of self }
        ensures on_board { result < 8 }
    {
        self.0 / 8
    }

    /// How many files apart the two squares are.
    pub fn files_to(self, to: Square) -> u8
        ensures is { result ≡ apart (file_of self) (file_of to) }
        ensures on_board { result < 8 }
    {
        self.file().abs_diff(to.file())
    }

    /// How many ranks apart the two squares are.
    pub fn ranks_to(self, to: Square) -> u8
        ensures is { result ≡ apart (rank_of self) (rank_of to) }
        ensures on_board { result < 8 }
    {
        self.rank().abs_diff(to.rank())
    }

    /// How many steps a king takes to a square on an empty board.
    pub fn distance(self, to: Square) -> u8
        ensures is { result ≡ distance self to }
        ensures on_board { result < 8 }
    {
        self.files_to(to).max(self.ranks_to(to))
    }
}
