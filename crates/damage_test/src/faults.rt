// The ways in which a night file is damaged.
use crate::layout::{Draft, FLAGS, HEADER, ROOM, VERSION, columns, is_listed};
use test_kit::noise::{Noise, below, draw};

#[derive(Clone, Copy, PartialEq, Eq)]
pub enum Fault {
    Nothing,
    HeaderBit,
    BodyBit,
    PaddingBit,
    Byte,
    Cut,
    Longer,
    Mark,
    Version,
    Jobs,
    Flags,
    ListForRow,
    Itself,
    OneWay,
    BothWays,
    HoldBit,
    NoHolds,
    Noise,
    NoisyHeader,
    NoisyBody,
    SomeOfHeader,
    SomeOfBody,
    SomeOfAll,
    // Lent words of wrong numbers, without and with faults of the file.
    LentWords,
    LentAndSome,
}

pub fn is_of_lent_words(fault: Fault) -> bool {
    matches!(fault, Fault::LentWords | Fault::LentAndSome)
}

// Faults of the header and of the length.
// Kept: no plainer as a list indexed by the draw: each draw stands beside its fault, and the last arm takes every other number, where a list wants `get` and a default.
fn of_header(k: usize) -> Fault {
    match k {
        0 => Fault::HeaderBit,
        1 => Fault::Mark,
        2 => Fault::Version,
        3 => Fault::Jobs,
        4 => Fault::Flags,
        5 => Fault::Cut,
        _ => Fault::Longer,
    }
}

// Faults of the table and of the hold list.
// Kept: by draws, as in of_header, for the same reason.
fn of_body(k: usize) -> Fault {
    match k {
        0 => Fault::BodyBit,
        1 => Fault::PaddingBit,
        2 => Fault::Itself,
        3 => Fault::OneWay,
        4 => Fault::BothWays,
        5 => Fault::HoldBit,
        6 => Fault::NoisyBody,
        _ => Fault::NoHolds,
    }
}

fn body_bit(draft: &mut Draft, seed: u64) {
    if HEADER < draft.length {
        let i = below(seed, 11, draft.length - HEADER);
        draft.turn_bit(HEADER.wrapping_add(i), below(seed, 12, 8));
    }
}

// A bit past the jobs in a row, or past them in the hold list.
fn padding_bit(draft: &mut Draft, seed: u64) {
    let n = draft.n;
    let end = columns(n);
    if n < end {
        let c = below(seed, 11, end - n);
        draft.turn(below(seed, 12, n.wrapping_add(1)), n.wrapping_add(c));
    }
}

// Another value for a byte.
fn other_byte(draft: &mut Draft, i: usize, seed: u64) {
    draft.turn_bits(i, u8::noise(seed, 13));
}

// Half of the cuts leave a dozen bytes at most.
fn cut(length: usize, seed: u64) -> usize {
    let all = below(seed, 11, length);
    if below(seed, 12, 2) == 0 {
        return all;
    }
    all.min(below(seed, 13, 12))
}

// Up to three bytes more, of noise or of zeros.
fn lengthen(draft: &mut Draft, seed: u64) {
    let end = draft
        .length
        .wrapping_add(1)
        .wrapping_add(below(seed, 11, 3));
    if draft.room.len() < end {
        return;
    }
    if below(seed, 12, 2) == 0 {
        noise(draft, draft.length, end, draw(seed, 13), 0);
    } else {
        noise(draft, draft.length, end, seed, 3);
    }
    draft.length = end;
}

// Another number of jobs: one more, one less, about 256, any.
fn other_jobs(n: usize, seed: u64) -> usize {
    match below(seed, 11, 5) {
        0 => n.wrapping_add(1),
        1 => n.wrapping_sub(1),
        2 => below(seed, 12, 6).wrapping_add(254),
        3 => below(seed, 12, 300),
        _ => below(seed, 12, 65536),
    }
}

// The hold list as one row more, or the last row as a hold list; the length is often right.
fn list_for_row(draft: &mut Draft) {
    if is_listed(&draft.room) {
        draft.put_jobs(draft.n.wrapping_add(1));
        draft.put_byte(FLAGS, 0);
    } else {
        draft.put_jobs(draft.n.wrapping_sub(1));
        draft.put_byte(FLAGS, 1);
    }
}

fn itself(draft: &mut Draft, seed: u64) {
    let r = below(seed, 11, draft.n);
    draft.set(r, r);
}

fn both_ways(draft: &mut Draft, seed: u64) {
    let r = below(seed, 11, draft.n);
    let c = below(seed, 12, draft.n);
    draft.turn(r, c);
    draft.turn(c, r);
}

fn no_holds(draft: &mut Draft) {
    let n = draft.n;
    for c in 0..n {
        draft.clear(n, c);
    }
}

// The more it is thinned the fewer bits are set, down to none.
fn noise_byte(seed: u64, i: usize, thinned: usize) -> u8 {
    let place = i as u64;
    let a = u8::noise(seed, place);
    let b = u8::noise(draw(seed, 1), place);
    match thinned {
        0 => a,
        1 => a & b,
        2 => a & b & u8::noise(draw(seed, 2), place) & u8::noise(draw(seed, 3), place),
        _ => 0,
    }
}

// Kept: no plainer by iter_mut: a byte's place goes into its noise, and an end past the room is cut off by put_byte.
fn noise(draft: &mut Draft, from: usize, end: usize, seed: u64, thinned: usize) {
    for i in from..end {
        draft.put_byte(i, noise_byte(seed, i, thinned));
    }
}

// Nothing but noise, of any length, often a short one.
fn all_noise(draft: &mut Draft, seed: u64) {
    draft.length = below(seed, 11, noise_end(below(seed, 12, 8)));
    noise(draft, 0, draft.length, draw(seed, 13), 0);
}

fn noise_end(k: usize) -> usize {
    match k {
        0 => ROOM + 1,
        1..=2 => 200,
        3..=4 => 24,
        _ => 12,
    }
}

fn often(seed: u64, place: u64) -> bool {
    below(seed, place, 4) != 0
}

// Another byte of two or three from there on, seldom.
fn seldom_other(draft: &mut Draft, from: usize, bytes: usize, seed: u64) {
    if !often(seed, 12) {
        other_byte(draft, from.wrapping_add(below(seed, 11, bytes)), seed);
    }
}

fn seldom_jobs(draft: &mut Draft, seed: u64) {
    if !often(seed, 12) {
        draft.put_jobs(below(seed, 11, 512));
    }
}

// Noise, with each field of the header as it was, often, and the length too.
fn noisy_header(draft: &mut Draft, seed: u64) {
    noise(draft, HEADER, draft.length, draw(seed, 11), 1);
    seldom_other(draft, 0, 3, draw(seed, 12));
    seldom_other(draft, VERSION, 2, draw(seed, 13));
    seldom_jobs(draft, draw(seed, 14));
    seldom_other(draft, FLAGS, 1, draw(seed, 15));
    if !often(seed, 16) {
        draft.length = cut(draft.length, draw(seed, 17));
    }
}

// Does one damage.
fn harm(fault: Fault, draft: &mut Draft, seed: u64) {
    let n = draft.n;
    match fault {
        Fault::HeaderBit => draft.turn_bit(below(seed, 11, HEADER), below(seed, 12, 8)),
        Fault::Byte => other_byte(draft, below(seed, 11, draft.length), seed),
        Fault::Mark => other_byte(draft, below(seed, 11, 3), seed),
        Fault::Version => other_byte(draft, below(seed, 11, 2).wrapping_add(VERSION), seed),
        Fault::Jobs => draft.put_jobs(other_jobs(n, seed)),
        Fault::Flags => draft.turn_bit(FLAGS, below(seed, 11, 8)),
        Fault::ListForRow => list_for_row(draft),
        Fault::Cut => draft.length = cut(draft.length, seed),
        Fault::Longer => lengthen(draft, seed),
        Fault::BodyBit => body_bit(draft, seed),
        Fault::PaddingBit => padding_bit(draft, seed),
        Fault::Itself => itself(draft, seed),
        Fault::OneWay => draft.turn(below(seed, 11, n), below(seed, 12, n)),
        Fault::BothWays => both_ways(draft, seed),
        Fault::HoldBit => draft.turn(n, below(seed, 11, n)),
        Fault::NoHolds => no_holds(draft),
        Fault::Noise => all_noise(draft, seed),
        Fault::NoisyHeader => noisy_header(draft, seed),
        Fault::NoisyBody => {
            noise(
                draft,
                HEADER,
                draft.length,
                draw(seed, 11),
                below(seed, 12, 4),
            )
        }
        _ => {}
    }
}

fn harm_header(draft: &mut Draft, seed: u64) {
    harm(of_header(below(seed, 6, 7)), draft, seed);
}

fn harm_body(draft: &mut Draft, seed: u64) {
    harm(of_body(below(seed, 6, 8)), draft, seed);
}

// Twice or three times, with draws of the places from `first` on.
fn some<F: Fn(&mut Draft, u64)>(draft: &mut Draft, seed: u64, first: u64, harm_once: F)
    requires { F.IsAlwaysCallable harm_once }
{
    harm_once(draft, draw(seed, first));
    harm_once(draft, draw(seed, first.wrapping_add(1)));
    if below(seed, first.wrapping_add(2), 2) != 0 {
        harm_once(draft, draw(seed, first.wrapping_add(3)));
    }
}

fn some_of_header(draft: &mut Draft, seed: u64) {
    some(draft, seed, 31, harm_header);
}

fn some_of_body(draft: &mut Draft, seed: u64) {
    some(draft, seed, 35, harm_body);
}

fn some_of_all(draft: &mut Draft, seed: u64) {
    some_of_body(draft, seed);
    harm_header(draft, draw(seed, 39));
}

// Damages a good file.
pub fn damage(fault: Fault, draft: &mut Draft, seed: u64) {
    match fault {
        Fault::SomeOfHeader => some_of_header(draft, seed),
        Fault::SomeOfBody => some_of_body(draft, seed),
        Fault::SomeOfAll | Fault::LentAndSome => some_of_all(draft, seed),
        _ => harm(fault, draft, seed),
    }
}
