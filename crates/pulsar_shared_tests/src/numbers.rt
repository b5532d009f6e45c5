//! Numbers that two threads draw.

ghost use Rattle.std.specs.Prelude.{IfOk};
ghost use Rattle.pulsar_serial.specs.Seats.{Belongs};

use pulsar_shared::{Exhausted, NumberSeat, SerialId};
use pulsar_wire::NoMemory;
use std::alloc::Global;
use std::sync::Wait;
use std::test::Fail;
use std::thread::{Threads, join};

const EACH: usize = 1000;

/// Draws so many numbers.
fn draw<R: Wait>(
    rt: &R,
    alloc: Global,
    ids: &SerialId,
    seat: NumberSeat,
) -> Result<(NumberSeat, Vec<u64>), NoMemory>
    requires { Belongs seat ids.now }
    ensures { IfOk result (λ r. Belongs r.0 ids.now) }
{
    let mut seat = seat;
    let mut numbers = Vec::new(alloc);
    for _ in 0..EACH {
        match ids.get(rt, &mut seat) {
            Ok(number) => numbers.push(number)?,
            Err(Exhausted) => return Err(NoMemory),
        }
    }
    Ok((seat, numbers))
}

/// What two threads draw from one source.
fn drawn_by_two<R: Threads + Wait + Sync>(
    rt: &R,
    alloc: Global,
) -> Result<(Vec<u64>, Vec<u64>), NoMemory> {
    let (ids, mut mine) = SerialId::new(alloc)?;
    let theirs = ids.split(&mut mine)?;
    let source = &ids;
    let (a, b) = join(
        rt,
        || -> Result<(NumberSeat, Vec<u64>), NoMemory>
            requires { Belongs mine source.now }
            ensures { IfOk result (λ r. Belongs r.0 source.entry.now) }
        { draw(rt, alloc, source, mine) },
        || -> Result<(NumberSeat, Vec<u64>), NoMemory>
            requires { Belongs theirs source.now }
            ensures { IfOk result (λ r. Belongs r.0 source.entry.now) }
        { draw(rt, alloc, source, theirs) },
    );
    let (mut mine, first) = a?;
    let (theirs, second) = b?;
    ids.join(&mut mine, theirs)?;
    Ok((first, second))
}

/// Marks the numbers, none of which is marked before.
fn marks_anew(marks: &mut [bool], numbers: &[u64]) -> bool {
    for number in numbers {
        match marks.get_mut(*number as usize) {
            Some(mark) if !*mark => *mark = true,
            _ => return false,
        }
    }
    true
}

#[test]
fn two_threads_draw_each_number_once(rt: HostRuntime) -> Result<(), Fail> {
    let alloc = rt.alloc();
    let (first, second) = drawn_by_two(&rt, alloc)?;
    assert_eq!(rt; first.len(), EACH);
    assert_eq!(rt; second.len(), EACH);
    // as many marks as numbers: all are marked where none is marked twice
    let mut marks = vec![in alloc; false; 2 * EACH]?;
    assert!(rt; marks_anew(&mut marks, &first));
    assert!(rt; marks_anew(&mut marks, &second));
    Ok(())
}

#[test]
fn the_last_number_is_not_drawn(rt: HostRuntime) -> Result<(), Fail> {
    let (ids, mut seat) = SerialId::starting(rt.alloc(), u64::MAX)?;
    assert_eq!(rt; ids.get(&rt, &mut seat), Err(Exhausted));
    let (ids, mut seat) = SerialId::starting(rt.alloc(), u64::MAX - 1)?;
    assert_eq!(rt; ids.get(&rt, &mut seat), Ok(u64::MAX - 1));
    assert_eq!(rt; ids.get(&rt, &mut seat), Err(Exhausted));
    Ok(())
}
