ghost use Rattle.std.specs.Prelude.{◌≡◌, ◌+◌, ◌<◌, length, swap};
ghost use Rattle.ranking.specs.Order.{above, comes_before};
ghost use Rattle.ranking.specs.Kept.{ArePlaced, AreInOrder, AreInOrderBut, FollowsAllBefore};

use crate::line::Line;

// The line has more points than the other, or with as many a better performance, or with that the same too a higher rating.
fn above(line: &Line, other: &Line) -> bool
    ensures { result ≡ above line.now other.now }
{
    line.points > other.points
        || (line.points == other.points
            && (line.performance > other.performance
                || (line.performance == other.performance && line.rating > other.rating)))
}

// Of the lines with these numbers the first comes before the second.
fn comes_before(lines: &[Line], number: u32, other: u32) -> bool
    requires number { number < length lines.now }
    requires other { other < length lines.now }
    ensures { result ≡ comes_before lines.now number other }
{
    let line = &lines[number as usize];
    let beside = &lines[other as usize];
    above(line, beside) || (!above(beside, line) && number < other)
}

/// Moves the number of one line to its place between the others, which stand in order.
pub fn settle(lines: &[Line], order: &mut [u32], places: &mut [u32], number: u32)
    requires number { number < length lines.now }
    requires at_places { ArePlaced (length lines.now) order.old places.old }
    requires others { AreInOrderBut lines.now number order.old }
    ensures at_places { ArePlaced (length lines.now) order.new places.new }
    ensures ordered { AreInOrder lines.now order.new }
{
    rise(lines, order, places, number);
    sink(lines, order, places, number);
}

// Moves the number of a line before those that it comes before.
fn rise(lines: &[Line], order: &mut [u32], places: &mut [u32], number: u32)
    requires number { number < length lines.now }
    requires at_places { ArePlaced (length lines.now) order.old places.old }
    requires others { AreInOrderBut lines.now number order.old }
    ensures at_places { ArePlaced (length lines.now) order.new places.new }
    ensures others { AreInOrderBut lines.now number order.new }
    ensures above { FollowsAllBefore lines.now number order.new }
{
    let mut place = places[number as usize] as usize;
    'rising: while place > 0 && comes_before(lines, number, order[place - 1]) {
        swap(order, places, place - 1);
        place -= 1;
    }
}

// Moves the number of a line behind those that come before it.
fn sink(lines: &[Line], order: &mut [u32], places: &mut [u32], number: u32)
    requires number { number < length lines.now }
    requires at_places { ArePlaced (length lines.now) order.old places.old }
    requires others { AreInOrderBut lines.now number order.old }
    requires above { FollowsAllBefore lines.now number order.old }
    ensures at_places { ArePlaced (length lines.now) order.new places.new }
    ensures ordered { AreInOrder lines.now order.new }
{
    let mut place = places[number as usize] as usize;
    'sinking: while place + 1 < order.len() && comes_before(lines, order[place + 1], number) {
        swap(order, places, place);
        place += 1;
    }
}

// Swaps the numbers at a place and the next.
fn swap(order: &mut [u32], places: &mut [u32], place: usize)
    requires next { place + 1 < length order.old }
    requires at_places { ArePlaced (length order.old) order.old places.old }
    ensures at_places { ArePlaced (length order.old) order.new places.new }
    ensures order { order.new ≡ swap order.old place (place + 1) }
{
    order.swap(place, place + 1);
    places[order[place] as usize] = place as u32;
    places[order[place + 1] as usize] = (place + 1) as u32;
}
