// Pins that may be at fault, and what of them is to be refused.
use test_kit::noise::below;
use test_kit::plain::{Graph, Set};
use test_kit::refusals::Refused;

pub const PIN_HELD: usize = 41;

pub const PINS_APART: usize = 42;

// Of a hundred jobs so many are pinned where it is not looked at what they are.
const PERCENT: usize = 20;

// Pins as they come, held or not, fitting or not.
pub fn any_pins(n: usize, seed: u64) -> Set {
    Set::of(n, |j| below(seed, j as u64, 100) < PERCENT)
}

// The lowest job that is pinned beside job a and does not fit it.
fn first_apart(graph: Graph<'_>, pins: &Set, a: usize) -> Option<usize> {
    (0..graph.n).find(|b| a != *b && pins.has(*b) && !graph.fits(a, *b))
}

// Refuses pins: 41 with the lowest that is held, before 42 with the first two that do not fit.
pub fn check_pins(graph: Graph<'_>, held: &Set, pins: &Set) -> Result<(), Refused> {
    let n = graph.n;
    if let Some(j) = (0..n).find(|j| pins.has(*j) && held.has(*j)) {
        return Err(Refused::At(PIN_HELD, n.wrapping_add(1), j));
    }
    for a in 0..n {
        if pins.has(a)
            && let Some(b) = first_apart(graph, pins, a)
        {
            return Err(Refused::At(PINS_APART, a, b));
        }
    }
    Ok(())
}
