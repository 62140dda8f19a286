ghost use Rattle.std.specs.Prelude.{◌≡◌, ◌≢◌, None, false, ◌↔◌, ◌∷◌, [], ◌++◌, filter, OnOk, IfOk, IsTrue, AllPairs, Contains};
ghost use Rattle.board.specs.Moves.{MoveWord, IsMove, can_be_promo};
ghost use Rattle.board.specs.Reach.{reaches};
ghost use Rattle.move_rules.specs.Exposed.{IsSafeOutside};
ghost use Rattle.move_rules.specs.Legal.{is_promotion, legal};
ghost use Rattle.move_rules.specs.Lists.{move_of, moves_between, moves_from, legal_moves};

use crate::king_safety::exposed_squares;
use crate::legal::{is_legal_plain, is_legal_reached, is_promotion};
use bitboards::{Bits, first_square, without_first};
use board::{Kind, Move, Position, Square};
use std::alloc::{AllocError, Global};

fn push_legal(
    moves: &mut Vec<Move>,
    p: &Bits,
    exposed: u64,
    from: Square,
    to: Square,
    promo: Option<Kind>,
) -> Result<(), AllocError>
    requires reached { IsTrue (reaches p.now from to) }
    requires outside { IsSafeOutside p.now exposed }
    requires can { IsTrue (can_be_promo promo) }
    ensures { let m = move_of from to promo
        in OnOk result (moves.new.items ≡ moves.old.items ++ filter (legal p.now) (m ∷ [])) }
{
    let m = Move { from, to, promo };
    if is_legal_reached(p, exposed, m) {
        moves.push(m)?;
    }
    Ok(())
}

fn push_reached(
    moves: &mut Vec<Move>,
    p: &Bits,
    exposed: u64,
    from: Square,
    to: Square,
) -> Result<(), AllocError>
    requires reached { IsTrue (reaches p.now from to) }
    requires outside { IsSafeOutside p.now exposed }
    ensures { let gained = filter (legal p.now) (moves_between from to)
        in OnOk result (moves.new.items ≡ moves.old.items ++ gained) }
{
    push_legal(moves, p, exposed, from, to, None)?;
    push_legal(moves, p, exposed, from, to, Some(Kind::Queen))?;
    push_legal(moves, p, exposed, from, to, Some(Kind::Rook))?;
    push_legal(moves, p, exposed, from, to, Some(Kind::Bishop))?;
    push_legal(moves, p, exposed, from, to, Some(Kind::Knight))?;
    Ok(())
}

fn push_unpromoted(
    moves: &mut Vec<Move>,
    p: &Bits,
    exposed: u64,
    from: Square,
    to: Square,
) -> Result<(), AllocError>
    requires reached { IsTrue (reaches p.now from to) }
    requires outside { IsSafeOutside p.now exposed }
    requires plain { is_promotion p.now (move_of from to None) ≡ false }
    ensures { let m = move_of from to None
        in OnOk result (moves.new.items ≡ moves.old.items ++ filter (legal p.now) (m ∷ [])) }
{
    let m = Move {
        from,
        to,
        promo: None,
    };
    if is_legal_plain(p, exposed, m) {
        moves.push(m)?;
    }
    Ok(())
}

#[tactic(auto, using(crate::proofs::MoveLists::plain_between))]
fn push_plain(
    moves: &mut Vec<Move>,
    p: &Bits,
    exposed: u64,
    from: Square,
    to: Square,
) -> Result<(), AllocError>
    requires reached { IsTrue (reaches p.now from to) }
    requires outside { IsSafeOutside p.now exposed }
    requires plain { is_promotion p.now (move_of from to None) ≡ false }
    ensures { let gained = filter (legal p.now) (moves_between from to)
        in OnOk result (moves.new.items ≡ moves.old.items ++ gained) }
{
    push_unpromoted(moves, p, exposed, from, to)?;
    Ok(())
}

fn push_between(
    moves: &mut Vec<Move>,
    p: &Bits,
    exposed: u64,
    from: Square,
    to: Square,
) -> Result<(), AllocError>
    requires reached { IsTrue (reaches p.now from to) }
    requires outside { IsSafeOutside p.now exposed }
    ensures { let gained = filter (legal p.now) (moves_between from to)
        in OnOk result (moves.new.items ≡ moves.old.items ++ gained) }
{
    let plain = Move {
        from,
        to,
        promo: None,
    };
    if is_promotion(p, plain) {
        push_reached(moves, p, exposed, from, to)
    } else {
        push_plain(moves, p, exposed, from, to)
    }
}

fn push_from(moves: &mut Vec<Move>, p: &Bits, exposed: u64, from: Square) -> Result<(), AllocError>
    requires { IsSafeOutside p.now exposed }
    ensures { let gained = filter (legal p.now) (moves_from from)
        in OnOk result (moves.new.items ≡ moves.old.items ++ gained) }
{
    let mut targets = p.targets(from);
    while targets != 0 {
        push_between(moves, p, exposed, from, first_square(targets))?;
        targets = without_first(targets);
    }
    Ok(())
}

/// The legal moves of a position, each once: by the square that is left, from a1 along each rank to h8, then by the
/// square that is reached, then no promotion, queen, rook, bishop, knight.
pub fn legal_moves(alloc: Global, p: &Position) -> Result<Vec<Move>, AllocError>
    ensures is { IfOk result (λ v. v.items ≡ legal_moves p.now) }
    ensures once { IfOk result (λ v. AllPairs (λ x y. x ≢ y) v.items) }

    // A move is listed exactly where it is legal.
    ensures exact { IfOk result (λ v. (m : MoveWord)
        → Contains v.items m ↔ (IsMove m × IsTrue (legal p.now m))) }
{
    let mut moves = Vec::new(alloc);
    let bits = Bits::of_position(p);
    let exposed = exposed_squares(&bits);
    let mut own = p.placement().of_colour(p.turn());
    while own != 0 {
        push_from(&mut moves, &bits, exposed, first_square(own))?;
        own = without_first(own);
    }
    Ok(moves)
}
