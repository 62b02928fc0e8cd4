// Chance that is the same at each run.
use crate::limits::{MOST_JOBS, NO_CLASS};

// One turn of Marsaglia's xorshift; 0 alone turns to 0.
fn next(x: u64) -> u64 {
    let a = x ^ (x << 13);
    let b = a ^ (a >> 7);
    b ^ (b << 17)
}

// A number for each seed and each place.
pub fn draw(seed: u64, place: u64) -> u64 {
    let a = next(seed.wrapping_add(11400714819323198485));
    let b = next(next(a.wrapping_add(place)));
    next(b.wrapping_add(6364136223846793005))
}

// Of something drawn, a number below that one, or 0.
fn pick(drawn: u64, end: usize) -> usize {
    ((drawn >> 16) as usize).checked_rem(end).unwrap_or(0)
}

pub fn below(seed: u64, place: u64, end: usize) -> usize {
    pick(draw(seed, place), end)
}

// A generator whose state is never 0.
#[derive(Clone, Copy)]
pub struct Chance {
    pub state: u64,
}

impl Chance {
    pub fn new(state: u64) -> Chance {
        Chance { state }
    }

    pub fn turn(&mut self) {
        self.state = next(self.state);
    }

    // Of the state, a number below that one, or 0.
    pub fn pick(self, end: usize) -> usize {
        pick(self.state, end)
    }

    // Yes for about that many states of a hundred.
    pub fn is_in(self, percent: usize) -> bool {
        self.pick(100) < percent
    }
}

// What a place of a list has by chance.
pub trait Noise: PartialEq {
    fn noise(seed: u64, place: u64) -> Self;
}

impl Noise for u8 {
    fn noise(seed: u64, place: u64) -> u8 {
        ((draw(seed, place) >> 16) % 256) as u8
    }
}

// A number of a colouring: neither a class nor the mark.
impl Noise for u16 {
    fn noise(seed: u64, place: u64) -> u16 {
        (draw(seed, place) % (NO_CLASS as u64 - MOST_JOBS as u64) + MOST_JOBS as u64) as u16
    }
}

impl Noise for u64 {
    fn noise(seed: u64, place: u64) -> u64 {
        draw(seed, place)
    }
}

// Fills a list with noise.
pub fn fill<T: Noise + Drop>(list: &mut [T], seed: u64) {
    for (i, place) in list.iter_mut().enumerate() {
        *place = T::noise(seed, i as u64);
    }
}

// Whether a list has from a place on the noise that it was filled with.
pub fn is_kept<T: Noise + Drop>(list: &[T], from: usize, seed: u64) -> bool {
    list.iter()
        .enumerate()
        .skip(from)
        .all(|(i, place)| *place == T::noise(seed, i as u64))
}
