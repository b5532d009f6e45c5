//! What a source of numbers is, and the steps that its rule allows.

ghost use Rattle.std.specs.Prelude.{◌≡◌, ◌++◌, ◌∷◌, ◌+◌, ◌≤◌, ◌==◌, [], MatchBool};
ghost use Rattle.pulsar_serial.specs.Numbers.{Above, Numbered, Once};

use atomic_table::{Join, Play, Seat, Split, Table, TableRule};
use std::alloc::Global;
use std::collections::LinkedList;

/// The rule: what was drawn are the numbers from the opening one up to below the word, each once.
pub struct Serial;

impl TableRule<(), (LinkedList<u64>, u64), u64> for Serial {
    ghost holds = { λ first s. Numbered first s };

    ghost first = { λ first. ([], first) };
}

/// The word is read.
pub(crate) struct Looks;

impl Play<(), (LinkedList<u64>, u64)> for Looks {
    ghost then = { λ _ me n after. (after ≡ ((me.0.0, n), me.1)) × (me.0.1 ≤ n) };
}

/// The word is read, and no number stands twice in the seat's list.
pub(crate) struct Counts;

impl Play<(), (LinkedList<u64>, u64)> for Counts {
    ghost then = { λ _ me _ after. (after ≡ me) × Once me.0.0 };
}

/// The number that was found is drawn, where it is the one expected.
pub(crate) struct Draws;

impl Play<(), (LinkedList<u64>, u64)> for Draws {
    ghost then = { λ s me n after. MatchBool (n == s.first) ((after ≡ ((me.0.0 ++ n ∷ [], n + 1), me.1)) × Above n me.0.0) (after ≡ me) };
}

/// A new seat has drawn nothing, and a seat that joins gives its list.
pub(crate) struct Lists;

impl Split<(LinkedList<u64>, u64)> for Lists {
    ghost left = { λ v. v };

    ghost right = { λ v. ([], v.1) };
}

impl Join<(LinkedList<u64>, u64)> for Lists {
    ghost both = { λ v w. (v.0 ++ w.0, v.1) };

    ghost spent = { ([], 0) };
}

/// Gives numbers to several threads, each number once: 0, 1, 2 and so on.
#[derive(Drop)]
pub struct SerialId {
    pub(crate) table: Table<(), (LinkedList<u64>, u64), u64, Serial, Global>,
    ghost one: { table.shared.table_id.words ≡ 1 },
}

/// The right to draw from one `SerialId`, with what was drawn by it.
#[derive(Drop)]
pub struct NumberSeat {
    pub(crate) seat: Seat<(), (LinkedList<u64>, u64)>,
    ghost empty: { seat.me.1 ≡ [] },
}
