//! What tells a piece apart from others of its kind that can go to the same square.

ghost use Rattle.std.specs.Prelude.{◌≡◌, ◌+◌, ◌≤◌, ◌++◌, None};
ghost use Rattle.std.specs.List.{list_any};
ghost use Rattle.arrayvec.specs.ArrayString.{array_string_len};
ghost use Rattle.move_rules.specs.Legal.{legal};
ghost use Rattle.move_rules.specs.Lists.{squares, move_of};
ghost use Rattle.pgn_text.specs.San.{is_rival, is_file_rival, is_rank_rival, apart_text};

use crate::cells::is_kind;
use crate::notation::{push_file, push_rank};
use arrayvec::ArrayString;
use board::{Kind, Move, Position, Square};
use move_rules::is_legal;

/// Whether another piece of this kind stands on the square and has a legal move to the same target.
fn is_rival(p: &Position, m: Move, kind: Kind, from: Square) -> bool
    ensures { result ≡ is_rival p.now m kind from }
{
    from != m.from && is_kind(p.at(from), kind) && goes_there(p, m, from)
}

/// Whether the move from this square to the same target is legal.
fn goes_there(p: &Position, m: Move, from: Square) -> bool
    ensures { result ≡ legal p.now (move_of from m.to None) }
{
    is_legal(
        p,
        Move {
            from,
            to: m.to,
            promo: None,
        },
    )
}

fn has_rival(p: &Position, m: Move, kind: Kind) -> bool
    ensures { result ≡ list_any (is_rival p.now m kind) squares }
{
    (0..64).any(|a| is_rival(p, m, kind, Square::of(a)))
}

fn is_file_rival(p: &Position, m: Move, kind: Kind, from: Square) -> bool
    ensures { result ≡ is_file_rival p.now m kind from }
{
    from.file() == m.from.file() && is_rival(p, m, kind, from)
}

fn has_file_rival(p: &Position, m: Move, kind: Kind) -> bool
    ensures { result ≡ list_any (is_file_rival p.now m kind) squares }
{
    (0..64).any(|a| is_file_rival(p, m, kind, Square::of(a)))
}

fn is_rank_rival(p: &Position, m: Move, kind: Kind, from: Square) -> bool
    ensures { result ≡ is_rank_rival p.now m kind from }
{
    from.rank() == m.from.rank() && is_rival(p, m, kind, from)
}

fn has_rank_rival(p: &Position, m: Move, kind: Kind) -> bool
    ensures { result ≡ list_any (is_rank_rival p.now m kind) squares }
{
    (0..64).any(|a| is_rank_rival(p, m, kind, Square::of(a)))
}

/// Appends what tells the piece apart, at most two bytes.
#[tactic(auto, unfolding(crate::specs::San::apart_text))]
pub(crate) fn push_apart(out: &mut ArrayString<8>, p: &Position, m: Move, kind: Kind)
    requires room { array_string_len out.old + 2 ≤ 8 }
    ensures is { out.new.bytes ≡ out.old.bytes ++ apart_text p.now m kind }
    ensures len { array_string_len out.new ≤ array_string_len out.old + 2 }
{
    if !has_rival(p, m, kind) {
        return;
    }
    if !has_file_rival(p, m, kind) {
        push_file(out, m.from);
    } else if !has_rank_rival(p, m, kind) {
        push_rank(out, m.from);
    } else {
        push_file(out, m.from);
        push_rank(out, m.from);
    }
}
