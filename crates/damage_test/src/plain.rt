// What Read should answer: document 01's table, check by check, over the bytes.
use crate::layout::{FLAGS, HEADER, JOBS, VERSION, byte_at, columns, has, is_listed, length};
use test_kit::limits::{MOST_JOBS, SET_WORDS, TABLE_WORDS, WORD_JOBS};
use test_kit::refusals::Refused;

// Refuses with that number the first place of the first so many rows at which the test holds.
fn none_at<F: Fn(usize, usize) -> bool>(
    number: usize,
    rows: usize,
    n: usize,
    test: F,
) -> Result<(), Refused>
    requires { F.IsAlwaysCallable test }
{
    for row in 0..rows {
        for column in 0..columns(n) {
            if test(row, column) {
                return Err(Refused::At(number, row, column));
            }
        }
    }
    Ok(())
}

// Number 26.
fn is_empty_list(file: &[u8], n: usize) -> bool {
    is_listed(file) && !(0..n).any(|c| has(file, n, n, c))
}

// Numbers 21, 22, 23, 1, 24 and 25.
fn check_header(file: &[u8], n: usize) -> Result<(), Refused> {
    if file.len() < HEADER {
        return Err(Refused::Alone(21));
    }
    if !file.starts_with(&[80, 82, 83]) {
        return Err(Refused::Alone(22));
    }
    if byte_at(file, VERSION) != 1 || byte_at(file, VERSION + 1) != 0 {
        return Err(Refused::Alone(23));
    }
    if MOST_JOBS < n {
        return Err(Refused::Alone(1));
    }
    if 1 < byte_at(file, FLAGS) {
        return Err(Refused::Alone(24));
    }
    if file.len() != length(n, is_listed(file)) {
        return Err(Refused::Alone(25));
    }
    Ok(())
}

// Numbers 5, 26, 6 and 7, of a file of the right length; row n is the hold list.
fn check_body(file: &[u8], n: usize) -> Result<(), Refused> {
    let rows = n.saturating_add(usize::from(is_listed(file)));
    none_at(5, rows, n, |r, c| n <= c && has(file, n, r, c))?;
    if is_empty_list(file, n) {
        return Err(Refused::Alone(26));
    }
    none_at(6, n, n, |r, c| r == c && has(file, n, r, c))?;
    none_at(
        7,
        n,
        n,
        |r, c| c < n && has(file, n, r, c) != has(file, n, c, r),
    )
}

// What Read should answer for lent words of these numbers: how many jobs the file has, or what is refused.
pub fn expected(file: &[u8], table_words: usize, hold_words: usize) -> Result<usize, Refused> {
    let n = usize::from(u16::from_le_bytes([byte_at(file, JOBS), byte_at(file, JOBS + 1)]));
    if table_words != TABLE_WORDS {
        return Err(Refused::Alone(2));
    }
    if hold_words != SET_WORDS {
        return Err(Refused::Alone(3));
    }
    check_header(file, n)?;
    check_body(file, n)?;
    Ok(n)
}

// Word k of row r.
fn word(file: &[u8], n: usize, r: usize, k: usize) -> u64 {
    let first = k % SET_WORDS * WORD_JOBS;
    (first..first + WORD_JOBS)
        .rev()
        .fold(0, |word, c| (word << 1) | u64::from(has(file, n, r, c)))
}

// The word at that place in the table of an accepted file.
pub fn table_word(file: &[u8], n: usize, i: usize) -> u64 {
    if i / SET_WORDS < n {
        return word(file, n, i / SET_WORDS, i % SET_WORDS);
    }
    0
}

pub fn hold_word(file: &[u8], n: usize, i: usize) -> u64 {
    if is_listed(file) {
        return word(file, n, n, i);
    }
    0
}
