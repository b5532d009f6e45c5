//! The calls on a source of numbers.

ghost use Rattle.std.specs.Prelude.{◌≡◌, ◌++◌, ◌∷◌, ◌+◌, ◌<◌, ◌≤◌, ◌^◌, ◌-◌, [], IfOk, IfSome, IsErr, MatchOption, OnErr};
ghost use Rattle.pulsar_serial.specs.Numbers.{Above, Apart};
ghost use Rattle.pulsar_serial.specs.Seats.{Belongs, drawn_by, opening_of, seen_by};

use crate::rule::{Counts, Draws, Lists, Looks, NumberSeat, SerialId};
use atomic_table::Table;
use pulsar_wire::error::NoMemory;
use std::alloc::Global;
use std::sync::Wait;

/// No number is left.
#[derive(Clone, Copy, Debug, PartialEq, Eq)]
pub struct Exhausted;

impl SerialId {
    /// It opens at 0.
    pub fn new(alloc: Global) -> Result<(SerialId, NumberSeat), NoMemory>
        ensures { IfOk result (λ r. (opening_of r.0 ≡ 0) × Belongs r.1 r.0 × (drawn_by r.1 ≡ []) × (seen_by r.1 ≡ 0)) }
    {
        SerialId::starting(alloc, 0)
    }

    /// It opens at this number.
    pub fn starting(alloc: Global, first: u64) -> Result<(SerialId, NumberSeat), NoMemory>
        ensures { IfOk result (λ r. (opening_of r.0 ≡ first) × Belongs r.1 r.0 × (drawn_by r.1 ≡ []) × (seen_by r.1 ≡ first)) }
    {
        let (table, seat) = Table::of_words(alloc, &[first], &first)?;
        Ok((SerialId { table }, NumberSeat { seat }))
    }

    /// The next number, greater than all that the seat has drawn. It tries again where another thread was faster. Where all numbers below
    /// u64::MAX are drawn it answers `Exhausted`, now and at each later call.
    pub fn get<R: Wait>(&self, rt: &R, seat: &mut NumberSeat) -> Result<u64, Exhausted>
        requires { Belongs seat.old self.now }
        ensures same { seat.new.seat.table_id ≡ seat.old.seat.table_id }
        ensures drawn { IfOk result (λ n. drawn_by seat.new ≡ drawn_by seat.old ++ n ∷ []) }
        ensures above { IfOk result (λ n. Above n (drawn_by seat.old)) }
        ensures next { IfOk result (λ n. (seen_by seat.old ≤ n) × (seen_by seat.new ≡ n + 1)) }
        ensures last { IfOk result (λ n. n < 2 ^ 64 - 1) }
        ensures none { OnErr result (drawn_by seat.new ≡ drawn_by seat.old) }
        ensures top { OnErr result (seen_by seat.new ≡ 2 ^ 64 - 1) }
        ensures stays { 2 ^ 64 - 1 ≤ seen_by seat.old → IsErr result }
        ensures seen { seen_by seat.old ≤ seen_by seat.new }
    {
        for _ in rt.forever() {
            if let Some(answer) = self.attempt(seat) {
                return answer;
            }
        }
        unreachable!()
    }

    fn attempt(&self, seat: &mut NumberSeat) -> Option<Result<u64, Exhausted>>
        requires { Belongs seat.old self.now }
        ensures same { seat.new.seat.table_id ≡ seat.old.seat.table_id }
        ensures ok { IfSome result (λ r. IfOk r (λ n. (drawn_by seat.new ≡ drawn_by seat.old ++ n ∷ []) × Above n (drawn_by seat.old)
            × (seen_by seat.old ≤ n) × (seen_by seat.new ≡ n + 1) × (n < 2 ^ 64 - 1))) }
        ensures none { MatchOption result (drawn_by seat.new ≡ drawn_by seat.old) (λ r. OnErr r (drawn_by seat.new ≡ drawn_by seat.old)) }
        ensures top { IfSome result (λ r. OnErr r (seen_by seat.new ≡ 2 ^ 64 - 1)) }
        ensures stays { 2 ^ 64 - 1 ≤ seen_by seat.old → MatchOption result ⊥ (λ r. IsErr r) }
        ensures seen { seen_by seat.old ≤ seen_by seat.new }
    {
        let NumberSeat { seat } = seat;
        let n = self.table.shared.load::<Looks>(seat, 0);
        if n == u64::MAX {
            return Some(Err(Exhausted));
        }
        let found = self
            .table
            .shared
            .compare_exchange::<Draws>(seat, 0, n, n + 1);
        if found == n { Some(Ok(n)) } else { None }
    }

    /// A new seat, which has drawn nothing.
    pub fn split(&self, seat: &mut NumberSeat) -> Result<NumberSeat, NoMemory>
        requires { Belongs seat.old self.now }
        ensures new { IfOk result (λ s. Belongs s self.now × (drawn_by s ≡ []) × (seen_by s ≡ seen_by seat.old)) }
        ensures same { (seat.new.seat.table_id ≡ seat.old.seat.table_id) × (drawn_by seat.new ≡ drawn_by seat.old) }
        ensures seen { seen_by seat.new ≡ seen_by seat.old }
    {
        let NumberSeat { seat } = seat;
        let theirs = self.table.shared.split_seat::<Lists>(seat);
        Ok(NumberSeat { seat: theirs })
    }

    /// The seat has both lists, which have no number in common.
    pub fn join(&self, seat: &mut NumberSeat, other: NumberSeat) -> Result<(), NoMemory>
        requires seat { Belongs seat.old self.now }
        requires other { Belongs other self.now }
        ensures same { seat.new.seat.table_id ≡ seat.old.seat.table_id }
        ensures both { drawn_by seat.new ≡ drawn_by seat.old ++ drawn_by other }
        ensures apart { Apart (drawn_by seat.old) (drawn_by other) }
        ensures seen { seen_by seat.new ≡ seen_by seat.old }
    {
        let NumberSeat { seat } = seat;
        let NumberSeat { seat: other } = other;
        self.table.shared.join_seat::<Lists>(seat, other);
        self.table.shared.load::<Counts>(seat, 0);
        Ok(())
    }
}
