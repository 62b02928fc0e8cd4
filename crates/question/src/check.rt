// What every call over a question refuses.
ghost use Rattle.std.specs.Prelude.{◌≡◌, not, [], ◌∷◌};
ghost use Rattle.sets.specs.Refusals.{verdict_of};
ghost use Rattle.sets.specs.Rules.{when, first_given};
ghost use Rattle.question.specs.Pins.{no5_pins, no41, no42};
ghost use Rattle.question.specs.Question.{asked, ask_rules};

use sets::jobset::{JobSet, SET_WORDS, from_words};
use sets::places::{none_at, place_in_row};
use sets::refusal::{Fault, Refusal};
use sets::table::Table;

// Number 5: the table, then the holds as row n, then the pins as row n + 1.
fn check_marks(table: &Table<'_>, held: JobSet, pinned: JobSet) -> Result<(), Refusal>
    ensures { verdict_of result ≡ first_given (no5_pins table.now.n table.now.words.now held.words pinned.words ∷ []) }
{
    none_at(Fault::BeyondJobs, table.first_beyond(held))?;
    let beyond = pinned.minus(JobSet::first(table.n));
    none_at(Fault::BeyondJobs, place_in_row(table.n + 1, beyond))
}

// Numbers 41 and 42, in that order.
fn check_pins(table: &Table<'_>, held: JobSet, pinned: JobSet) -> Result<(), Refusal>
    ensures { verdict_of result ≡ first_given (no41 table.now.n held.words pinned.words ∷ no42 table.now.n table.now.words.now pinned.words ∷ []) }
{
    // Without pins there is nothing to go through.
    if pinned.is_empty() {
        return Ok(());
    }
    let held_pin = place_in_row(table.n + 1, pinned.both(held));
    none_at(Fault::PinHeld, held_pin)?;
    let apart = table.first_misfit(pinned);
    none_at(Fault::PinsApart, apart)
}

// Numbers 1 to 4, 40, 5 to 7, 41 and 42, in that order. The call says whether what it is lent for its answer has the right length: 4 is given if not.
// Kept: n, table, holds and pins one by one, as the C interface has them: in Rust a struct would be made by Search and Colour of their own parameters, for the two calls behind each other.
// Kept: `right` as a bool: the clause has it, as the test of the fourth rule of ten (`when 4 (not right)`), and the length is the caller's to measure.
#[tactic(auto, using(crate::proofs::Asking::gives_lent))]
pub fn check_question(
    n: usize,
    table: &[u64],
    holds: &[u64],
    pins: &[u64],
    right: bool,
) -> Result<(), Refusal>
    ensures { verdict_of result ≡ first_given (ask_rules (asked n table.now holds.now pins.now) (when 4 (not right))) }
{
    let table = Table::of(n, table)?;
    if holds.len() != SET_WORDS {
        return Err(Refusal::Alone(Fault::HoldLength));
    }
    if !right {
        return Err(Refusal::Alone(Fault::SetLength));
    }
    if pins.len() != SET_WORDS {
        return Err(Refusal::Alone(Fault::PinLength));
    }
    let held = from_words(holds);
    let pinned = from_words(pins);
    check_marks(&table, held, pinned)?;
    table.check_pairs()?;
    check_pins(&table, held, pinned)
}
