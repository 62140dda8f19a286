ghost use Rattle.std.specs.Prelude.{◌≡◌, ◌<◌, ◌≤◌, ◌++◌, ◌∷◌, ◌↔◌, [], length, false, IsTrue, IsSome, IsNone, IfOk, slice_get};
ghost use Rattle.ranking.specs.Kept.{number_of};
ghost use Rattle.ranking.specs.Rows.{Listed, fresh, given, has, listed, scored, rows, row_at, rank_of, page, IsListed};

use crate::Row;
use crate::line::Line;
use crate::order::settle;
use std::alloc::{AllocError, Global};
use std::marker::Model;

/// The table of an arena's players. Contracts see for how many players it has room, and the line of each player who entered,
/// in the order of entering.
#[derive(Debug, Drop)]
pub struct Table {
    // in the order of entering
    lines: Vec<Line>,
    // for each player the number of his line
    numbers: Vec<Option<u32>>,
    // the numbers of the lines, in the order of the table
    order: Vec<u32>,
    // for each line its place in that order
    places: Vec<u32>,
}

impl Model for Table {
    ghost use Rattle.ranking.specs.Rows.{Listed};

    ghost Value = { Listed };

    ghost use Rattle.std.specs.Prelude.{◌≤◌, vec_len, vec_capacity};
    ghost use Rattle.ranking.specs.Kept.{IsKept};

    ghost view = { λ t. record { room = vec_len t.numbers; lines = t.lines.items } };

    ghost invariant = { λ t. IsKept t.lines.items t.numbers.items t.order.items t.places.items
        × (vec_len t.numbers ≤ vec_capacity t.lines)
        × (vec_len t.numbers ≤ vec_capacity t.order)
        × (vec_len t.numbers ≤ vec_capacity t.places) };
}

impl Table {
    /// A table that nobody has entered, with room for so many players: their numbers are those below.
    pub fn new(alloc: Global, players: u32) -> Result<Table, AllocError>
        ensures room { IfOk result (λ table. table.room ≡ players) }
        ensures lines { IfOk result (λ table. table.lines ≡ []) }
    {
        Ok(Table {
            lines: Vec::with_capacity(alloc, players as usize)?,
            numbers: vec![in alloc; None; players as usize]?,
            order: Vec::with_capacity(alloc, players as usize)?,
            places: Vec::with_capacity(alloc, players as usize)?,
        })
    }

    /// What is kept of every table: no more lines than it has room for, each of a player below the room, and no two of one
    /// player.
    pub fn keeps(&self)
        ensures { IsListed self.now }
    {
        let _lines = &self.lines;
    }

    /// Adds a player, who has no line yet, with no points.
    pub fn enter(&mut self, p: u32, rating: u32)
        requires player { p < self.old.room }
        requires new { has self.old.lines p ≡ false }
        ensures { self.new ≡ listed self.old.room (self.old.lines ++ fresh p rating ∷ []) }
    {
        let number = self.lines.len() as u32;
        self.lines.push_reserved(Line {
            player: p,
            rating,
            points: 0,
            performance: 0,
            games: 0,
            fire: false,
        });
        self.numbers[p as usize] = Some(number);
        self.order.push_reserved(number);
        self.places.push_reserved(number);
        settle(
            self.lines.as_slice(),
            self.order.as_mut_slice(),
            self.places.as_mut_slice(),
            number,
        );
    }

    /// Gives a player, who has a line, the values that he has from now on. His rating stays, and so does his turn among players
    /// with the same points, performance and rating.
    pub fn score(&mut self, p: u32, points: u32, performance: i64, games: u32, fire: bool)
        requires { IsTrue (has self.old.lines p) }
        ensures { self.new ≡ listed self.old.room (scored p points performance games fire self.old.lines) }
    {
        let Some(number) = self.numbers[p as usize] else {
            unreachable!()
        };
        let line = given(
            &self.lines[number as usize],
            points,
            performance,
            games,
            fire,
        );
        self.lines[number as usize] = line;
        settle(
            self.lines.as_slice(),
            self.order.as_mut_slice(),
            self.places.as_mut_slice(),
            number,
        );
    }

    /// The rank of a player, from 0, or `None` where he has no line.
    pub fn rank_of(&self, p: u32) -> Option<u32>
        ensures rank { result ≡ rank_of self.now.lines p }
        ensures entered { IsSome result ↔ IsTrue (has self.now.lines p) }
    {
        match number_of(self.numbers.as_slice(), p) {
            Some(number) => Some(self.places[number as usize]),
            None => None,
        }
    }

    /// The row at a rank, or `None` where there are no so many rows.
    pub fn row(&self, rank: u32) -> Option<Row>
        ensures row { result ≡ slice_get (rows self.now.lines) rank }
        ensures end { IsNone result ↔ (length self.now.lines ≤ rank) }
    {
        match self.order.get(rank as usize) {
            Some(number) => Some(row_of(rank, &self.lines[*number as usize])),
            None => None,
        }
    }

    /// How many players have a line.
    pub fn len(&self) -> u32
        ensures { result ≡ length self.now.lines }
    {
        self.lines.len() as u32
    }

    /// The rows of at most `n` ranks, in order, the first of them at rank `from`.
    pub fn page(&self, alloc: Global, from: u32, n: u32) -> Result<Vec<Row>, AllocError>
        ensures { IfOk result (λ items. items.items ≡ page from n self.now.lines) }
    {
        let len = self.len();
        let first = len.min(from);
        let last = first + n.min(len - first);
        let mut rows = Vec::with_capacity(alloc, (last - first) as usize)?;
        'listing: for rank in first..last {
            let number = self.order[rank as usize];
            rows.push(row_of(rank, &self.lines[number as usize]))?;
        }
        Ok(rows)
    }
}

// The number of a player's line, or none where he has no line.
fn number_of(numbers: &[Option<u32>], p: u32) -> Option<u32>
    ensures { result ≡ number_of numbers.now p }
{
    numbers.get(p as usize).copied().flatten()
}

// The line with other values given of its player.
fn given(line: &Line, points: u32, performance: i64, games: u32, fire: bool) -> Line
    ensures { result ≡ given points performance games fire line.now }
{
    Line {
        player: line.player,
        rating: line.rating,
        points,
        performance,
        games,
        fire,
    }
}

// The row of a line at a rank.
fn row_of(rank: u32, line: &Line) -> Row
    ensures { result ≡ row_at rank line.now }
{
    Row {
        rank,
        player: line.player,
        points: line.points,
        performance: line.performance,
        games: line.games,
        fire: line.fire,
    }
}
