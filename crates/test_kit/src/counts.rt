// Counts that wrap. Nothing above them argues about a number.

// One more, where it is to be counted.
pub fn count(so_far: &mut usize, yes: bool) {
    add(so_far, usize::from(yes));
}

pub fn add(so_far: &mut usize, more: usize) {
    *so_far = so_far.wrapping_add(more);
}
