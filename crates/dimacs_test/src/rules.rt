// Whether two nodes are joined, by their labels.
ghost use Rattle.std.specs.Prelude.{◌<◌};

// Kept: no plainer as closures: what the labels of each case mean is said at it, and all cases are matched in one place, below; as closures they would go through two functions as a type
// parameter with its clause.
#[derive(Clone, Copy)]
pub enum Rule {
    // Words of bits: joined where they differ in at least so many places.
    Differ(u32),
    // Four digits to base 4.
    Keller,
    // A point of the plane, 0 to 8; a point of a line's three has 9 times a number of that line added.
    Mann,
    // The number of a group, with so many in the ring.
    Ring(u64),
}

// How far apart the digits to base 4 are at a place, modulo 4.
fn step(a: u64, b: u64, place: u32) -> u64
    requires { place < 32 }
{
    (a >> (2 * place)).wrapping_sub(b >> (2 * place)) % 4
}

// Joined where they differ in at least two of the four digits, and in some digit by 2 modulo 4.
pub fn keller(a: u64, b: u64) -> bool {
    let steps = [step(a, b, 0), step(a, b, 1), step(a, b, 2), step(a, b, 3)];
    steps.iter().any(|step| *step == 2) && 2 <= steps.iter().filter(|step| **step != 0).count()
}

// All but two points of one line's three, and a point and its copy in a line.
fn mann(a: u64, b: u64) -> bool {
    let line_a = a / 9;
    let line_b = b / 9;
    if line_a == line_b {
        return line_a == 0;
    }
    (line_a != 0 && line_b != 0) || a % 9 != b % 9
}

// The same group, and the groups before and after, round the ring.
fn ring(a: u64, b: u64, k: u64) -> bool {
    let distance = a.abs_diff(b);
    distance <= 1 || k.checked_sub(1) == Some(distance)
}

// Of two different nodes.
pub fn joined(rule: Rule, a: u64, b: u64) -> bool {
    match rule {
        Rule::Differ(places) => places <= (a ^ b).count_ones(),
        Rule::Keller => keller(a, b),
        Rule::Mann => mann(a, b),
        Rule::Ring(k) => ring(a, b, k),
    }
}
