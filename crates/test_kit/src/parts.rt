// Parts of what is lent; where it is shorter, all of it or nothing.
use crate::limits::SET_WORDS;

// The first n rows of a table.
pub fn rows(table: &[u64], n: usize) -> &[u64] {
    table.get(..n.saturating_mul(SET_WORDS)).unwrap_or(table)
}

// The bytes before a place.
pub fn before(bytes: &[u8], end: usize) -> &[u8] {
    bytes.get(..end).unwrap_or(bytes)
}

// The bytes from a place on.
pub fn behind(bytes: &[u8], start: usize) -> &[u8] {
    bytes.get(start..).unwrap_or(&[])
}
