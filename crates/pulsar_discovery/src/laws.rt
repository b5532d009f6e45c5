//! What holds of machines and of the manager. A function with an empty body has the law as its contract.

ghost use Rattle.pulsar_discovery.specs.Laws.{ChangesAreToldOnce, GotIsReady, HistoryGoesOn, KeysDiffer, LostBehindTheEnd, NothingIsKept, OneAtATime, ReadyIsGot, RetriesAreWaitedFor, RetriesHaveAMost, RunningIsWaitedFor, SeenByHistory, StartsWhereNoneIs, ToldOnce, WaitersAreToldOnce};

/// Behind its end a machine says that what was waited for is lost.
pub fn lost_behind_the_end()
    ensures { LostBehindTheEnd }
{}

/// Each change of a connection is told once.
pub fn told_once()
    ensures { ToldOnce }
{}

/// Two addresses with one key have the same texts.
pub fn keys_differ()
    ensures { KeysDiffer }
{}

/// What is known of a manager is that of its history, from the beginning and after each call.
pub fn history_goes_on()
    ensures { HistoryGoesOn }
{}

/// A connection is told of at most twice: that it is ready, and then that it has ended; or once, that its attempt failed.
pub fn changes_are_told_once()
    ensures { ChangesAreToldOnce }
{}

/// An address has at most one connection at a time, and at most one attempt.
pub fn one_at_a_time()
    ensures { OneAtATime }
{}

/// The connection of an address is got exactly where it was told that it is ready, and not that it has ended.
pub fn ready_is_got()
    ensures { ReadyIsGot }
{}

/// One waits exactly where an attempt for the address runs, or its retry is waited for.
pub fn running_is_waited_for()
    ensures { RunningIsWaitedFor }
{}

/// An attempt is started only where every connection of the address has failed or ended, and under a number that no other had.
pub fn starts_where_none_is()
    ensures { StartsWhereNoneIs }
{}

/// A connection that is got is ready, unless a change of it was not looked at yet.
pub fn got_is_ready()
    ensures { GotIsReady }
{}

/// Whoever waits for an address is told once how the series of its attempts ended.
pub fn waiters_are_told_once()
    ensures { WaitersAreToldOnce }
{}

/// What is told of a connection follows from its history: from the retries that were made, and from what was told before.
pub fn seen_by_history()
    ensures { SeenByHistory }
{}

/// The next attempt of a series is waited for exactly where a retry was told, and no attempt was started since.
pub fn retries_are_waited_for()
    ensures { RetriesAreWaitedFor }
{}

/// A series has no more retries than the options allow.
pub fn retries_have_a_most()
    ensures { RetriesHaveAMost }
{}

/// Nothing is kept of a connection that is over, and nothing more is told of it.
pub fn nothing_is_kept()
    ensures { NothingIsKept }
{}
