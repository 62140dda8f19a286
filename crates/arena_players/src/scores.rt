ghost use Rattle.std.specs.Prelude.{◌≡◌, ◌≢◌, ◌+◌, ◌<◌, ◌≤◌, ◌++◌, ◌∷◌, ◌↔◌, [], ℕ, List, length, slice_get, option_and_then, IfOk, IsTrue, IsSome, IsNone};
ghost use Rattle.entries.specs.declared.setup.Setup.{Setup as ArenaSetup};
ghost use Rattle.entries.specs.Limits.{max_games};
ghost use Rattle.entries.specs.Ranges.{IsGood};
ghost use Rattle.ranking.specs.Rows.{has, listed, page, rank_of, rows, scored, IsListed};
ghost use Rattle.arena_history.specs.Endings.{EndedGame};
ghost use Rattle.arena_history.specs.Results.{GameResult, points_of, performance_of, fire_of};
ghost use Rattle.arena_history.specs.Table.{joined};
ghost use Rattle.arena_players.specs.Accounts.{AreFresh, StandsFor};
ghost use Rattle.arena_players.specs.Results.{HasResults};

use crate::account::Account;
use arena_history::lines_with_one_more;
use board::Colour;
use entries::Setup;
use game_room::{Header, Outcome};
use ranking::{Row, Table, rows_are_the_lines};
use std::alloc::{AllocError, Global};
use std::marker::Model;

/// The counted games of the players of an arena, and the table of those who entered.
#[derive(Drop)]
pub struct Scores {
    counted: u32,
    // by the numbers of the players
    accounts: Vec<Account>,
    table: Table,
}

impl Model for Scores {
    ghost use Rattle.arena_players.specs.Accounts.{KeptScores};

    ghost Value = { KeptScores };

    ghost use Rattle.arena_players.specs.Accounts.{AreKept};

    ghost view = { λ s. record { counted = s.counted; accounts = s.accounts.items; lines = s.table.lines } };

    ghost invariant = { λ s. AreKept s.counted s.table.room s.accounts.items };
}

impl Scores {
    /// No counted games and nobody who entered, over the players of a good setup. All that grows with their number is taken
    /// here. It fails only for want of memory.
    pub fn new(alloc: Global, setup: &Setup) -> Result<Scores, AllocError>
        requires { IsGood setup.now }
        ensures { IfOk result (λ scores. StandsFor scores setup.now [] []) }
    {
        Ok(Scores {
            counted: 0,
            accounts: accounts_of(alloc, setup)?,
            table: Table::new(alloc, setup.players.items().len() as u32)?,
        })
    }

    /// Player p enters: from now on he has a line of the table, with what his games count for. Nothing changes where he has one.
    /// It moves his row and takes no memory.
    pub fn enter(&mut self, p: u32)
        requires { p < length self.old.accounts }
        ensures counted { self.new.counted ≡ self.old.counted }
        ensures accounts { self.new.accounts ≡ self.old.accounts }
        ensures stands { (s : ArenaSetup) (games : List EndedGame) (players : List ℕ) → StandsFor self.old s games players
            → StandsFor self.new s games (joined players p) }
    {
        lines_with_one_more();
        let account = &self.accounts[p as usize];
        if self.table.rank_of(p).is_none() {
            self.table.enter(p, account.rating);
            score(&mut self.table, p, account);
        }
    }

    /// A game with this header ended so, and counts; fewer than 200,000 games have. It moves the rows of its two players, if they
    /// have entered, and takes no memory.
    pub fn count(&mut self, header: &Header, outcome: &Outcome)
        requires few { self.old.counted < max_games }
        requires white { header.now.white < length self.old.accounts }
        requires black { header.now.black < length self.old.accounts }
        requires two { header.now.white ≢ header.now.black }
        ensures counted { self.new.counted ≡ self.old.counted + 1 }
        ensures size { length self.new.accounts ≡ length self.old.accounts }
        ensures stands { (s : ArenaSetup) (games : List EndedGame) (players : List ℕ) (x : EndedGame)
            → x.game.header ≡ header.now → x.outcome ≡ outcome.now → StandsFor self.old s games players
            → StandsFor self.new s (games ++ x ∷ []) players }
    {
        lines_with_one_more();
        let white = header.white;
        let black = header.black;
        let white_rating = self.accounts[white as usize].rating;
        let black_rating = self.accounts[black as usize].rating;
        self.accounts[white as usize].add(Colour::White, outcome, black_rating);
        self.accounts[black as usize].add(Colour::Black, outcome, white_rating);
        self.counted += 1;
        score(&mut self.table, white, &self.accounts[white as usize]);
        score(&mut self.table, black, &self.accounts[black as usize]);
    }

    /// What is kept of the table: no more lines than there are players, each of one of them, and no two of one player.
    pub fn keeps(&self)
        ensures { IsListed (listed (length self.now.accounts) self.now.lines) }
    {
        self.table.keeps();
    }

    /// How many games were counted.
    pub fn counted(&self) -> u32
        ensures { result ≡ self.now.counted }
    {
        self.counted
    }

    /// How many players entered.
    pub fn len(&self) -> u32
        ensures { result ≡ length self.now.lines }
    {
        self.table.len()
    }

    /// The rank of player p, from 0, or None where he has not entered. It is found at once.
    pub fn rank_of(&self, p: u32) -> Option<u32>
        ensures rank { result ≡ rank_of self.now.lines p }
        ensures entered { IsSome result ↔ IsTrue (has self.now.lines p) }
    {
        self.table.rank_of(p)
    }

    /// The row at a rank, or None where there are not so many rows. It is found at once.
    pub fn row(&self, rank: u32) -> Option<Row>
        ensures row { result ≡ slice_get (rows self.now.lines) rank }
        ensures end { IsNone result ↔ (length self.now.lines ≤ rank) }
    {
        self.table.row(rank)
    }

    /// The row of player p, or None where he has not entered. It is found at once.
    pub fn row_of(&self, p: u32) -> Option<Row>
        ensures { result ≡ option_and_then (slice_get (rows self.now.lines)) (rank_of self.now.lines p) }
    {
        self.table.row(self.table.rank_of(p)?)
    }

    /// The rows of at most `n` ranks, in order, the first of them at rank `from`. It fails only for want of memory.
    pub fn page(&self, alloc: Global, from: u32, n: u32) -> Result<Vec<Row>, AllocError>
        ensures { IfOk result (λ page_rows. page_rows.items ≡ page from n self.now.lines) }
    {
        self.table.page(alloc, from, n)
    }

    /// All rows, in order. It fails only for want of memory.
    pub fn rows(&self, alloc: Global) -> Result<Vec<Row>, AllocError>
        ensures { IfOk result (λ all. all.items ≡ rows self.now.lines) }
    {
        rows_are_the_lines();
        self.table.page(alloc, 0, self.table.len())
    }
}

// The account of each player of a setup, without games.
fn accounts_of(alloc: Global, setup: &Setup) -> Result<Vec<Account>, AllocError>
    requires { IsGood setup.now }
    ensures { IfOk result (λ accounts. AreFresh setup.now.players accounts.items) }
{
    let players = setup.players.items();
    let mut accounts = Vec::with_capacity(alloc, players.len())?;
    'listing: for player in players {
        accounts.push_reserved(Account::new(player.rating));
    }
    Ok(accounts)
}

// Gives a player's line of the table what his account has, if he has a line.
fn score(table: &mut Table, p: u32, account: &Account)
    ensures room { table.new.room ≡ table.old.room }
    ensures lines { (rs : List GameResult) → HasResults account.now rs
        → table.new.lines ≡ scored p (points_of rs) (performance_of rs) (length rs) (fire_of rs) table.old.lines }
{
    if table.rank_of(p).is_some() {
        table.score(
            p,
            account.sheet.points(),
            account.perf.value(),
            account.sheet.games(),
            account.sheet.fire(),
        );
    }
}
