//! What follows from the definition of a good run: each contract is a law, and its body is empty.

ghost use Rattle.pulsar_links.specs.Address.{KnownAddresses};
ghost use Rattle.pulsar_client.specs.Client.{StandsFor};
ghost use Rattle.pulsar_laws.specs.Laws.{AlarmsAreTicked, AllIsDone, AnswersOnce, BuiltIs, CallsAreMade, CausesInOrder, ClockIs, DeadlinesAreTicked, DeedsFollow, Determined, EffectsArranged, EndsOnce, FailuresAreTold, FramesAreCut, LinksAlone, PlansFollow, ServedByTicket, StoppedIs, TicketsCount, TicksInOrder, WritesFollow};
ghost use Rattle.pulsar_laws.specs.CauseLaws.{OutcomesAreCaused};
ghost use Rattle.pulsar_laws.specs.LinkLaws.{DueLinksEnd, EndedIs, PiecesDontMatter, SettledAsTold, SettledOnce};
ghost use Rattle.pulsar_laws.specs.AddressLaws.{AttemptsFollow, IdleEnds, NoneAfterStop, OneLinkEach, SeriesIsNewest, KeepAlivePings};
ghost use Rattle.pulsar_laws.specs.AgainLaws.{AgainWhileAllowed, GivenUpAtOnce, MadeAgainInTime, MadeAgainOrGivenUp};
ghost use Rattle.pulsar_laws.specs.RetryLaws.{AttemptsAreSpent, CountsAgain, LooksAgain, MakesAgain, MomentsAreSet, PlansWait, QuestionsAreBounded, RetriesAreCounted, WaysAreChosen};
ghost use Rattle.pulsar_laws.specs.Traces.{IsGood, LocalIsKnown, attempt_fails, attempt_is_retried, batch_is_sent, client_is_stopped, consumer_is_polled, deadline_comes, line_moves_up, lookup_is_redirected, message_is_sent, reply_comes_early, request_is_answered};
ghost use Rattle.pulsar_acts.specs.Run.{Good};
ghost use Rattle.pulsar_calls.specs.Steps.{Step};
ghost use Rattle.pulsar_machine.specs.Options.{Options};
ghost use Rattle.std.specs.Prelude.{ℕ, List};

use pulsar_client::Pulsar;

/// Options and events determine the effects of a good run.
pub fn determined()
    ensures { Determined }
{}

/// Every history that a client stands for is good.
pub fn stood_for_is_good(client: &Pulsar)
    ensures { (o : Options) (h : List Step) (taken : List ℕ) → StandsFor (λ p. routes (p.vtable, p.value)) o client.now h taken → Good o h }
{}

/// The effects of each step stand in their order, and are just those of its acts, each once.
pub fn effects_arranged()
    ensures { EffectsArranged }
{}

/// Whatever arises from an event or an act is done before the next event begins.
pub fn all_is_done()
    ensures { AllIsDone }
{}

/// A cause serves those whom it still has to serve by rank, calls by ticket, and so do the causes that wait.
pub fn causes_in_order()
    ensures { CausesInOrder }
{}

/// A cause serves three calls by their tickets.
pub fn served_by_ticket()
    ensures { ServedByTicket }
{}

/// A call is made where the user asks for it, by its procedure.
pub fn calls_are_made()
    ensures { CallsAreMade }
{}

/// The ticket of the next call is the count of the calls so far.
pub fn tickets_count()
    ensures { TicketsCount }
{}

/// At the end of each step, each of those who have plans has done just what its plan gives along the outcomes that it was
/// told, each in the step of its outcome.
pub fn plans_follow()
    ensures { PlansFollow }
{}

/// Each action of a plan, and its verdict, comes right behind the start of the plan or the outcome that leads to it.
pub fn deeds_follow()
    ensures { DeedsFollow }
{}

/// A plan gives one verdict, and does nothing after it.
pub fn answers_once()
    ensures { AnswersOnce }
{}

/// A call begins at most once, and ends at most once.
pub fn ends_once()
    ensures { EndsOnce }
{}

/// Whatever a call is told has its cause before, in the same step.
pub fn outcomes_are_caused()
    ensures { OutcomesAreCaused }
{}

/// A call that fails was refused, or fails with the fault of an outcome that it was told, or of its reply.
pub fn failures_are_told()
    ensures { FailuresAreTold }
{}

/// The client is built where a Build has ended Ok.
pub fn built_is()
    ensures { BuiltIs }
{}

/// The client is stopped where a plan has ended every link.
pub fn stopped_is()
    ensures { StoppedIs }
{}

/// The clock is the greatest of the moment of the options and of the ticks.
pub fn clock_is()
    ensures { ClockIs }
{}

/// A link ends by a deadline only in a tick at whose beginning it was due.
pub fn deadlines_are_ticked()
    ensures { DeadlinesAreTicked }
{}

/// An alarm comes only in a tick at whose beginning it rang.
pub fn alarms_are_ticked()
    ensures { AlarmsAreTicked }
{}

/// An alarm is set to the moment at which it was set last, later by what the options say: the delay of a retry, the wait of a plan, the
/// timeout of a batch, the period of the keep-alive pings, and that of the idle check.
pub fn moments_are_set()
    ensures set { MomentsAreSet }
    ensures waits { PlansWait }
    ensures ways { WaysAreChosen }
{}

/// What a tick brings comes in order: deadlines, attempts, those who have waited, batches, keep-alive pings, the idle
/// check.
pub fn ticks_in_order()
    ensures { TicksInOrder }
{}

/// What runs for an address is what its newest turn left.
pub fn series_is_newest()
    ensures { SeriesIsNewest }
{}

/// An attempt begins a series where one gets a link of an address, or it follows one that failed, once its moment has come, and
/// at most so often as the options allow.
pub fn attempts_follow()
    ensures { AttemptsFollow }
{}

/// The retries of an attempt are those that its series has made; and an attempt that might go well another time is given up only behind as
/// many as the options allow.
pub fn retries_are_counted()
    ensures counted { RetriesAreCounted }
    ensures spent { AttemptsAreSpent }
{}

/// A search, and a command that makes a producer or a subscription, are made again so long as the options allow another retry, behind a
/// wait; and given up once as many were made.
pub fn operations_are_made_again()
    ensures counts { CountsAgain }
    ensures looks { LooksAgain }
    ensures makes { MakesAgain }
    ensures bounded { QuestionsAreBounded }
{}

/// Wherever a plan makes an operation: one that rests was made again fewer times than the options allow; one that fails so that another time may
/// help rests, or is given up where it was made again as often as they allow; one that rests is made again behind its wait; and a command that
/// fails otherwise is given up at once.
pub fn operations_are_counted()
    ensures again { AgainWhileAllowed }
    ensures fails { MadeAgainOrGivenUp }
    ensures in_time { MadeAgainInTime }
    ensures once { GivenUpAtOnce }
{}

/// From a Stop on no attempt begins.
pub fn none_after_stop()
    ensures { NoneAfterStop }
{}

/// One link at a time is of an address, the one that its series names.
pub fn one_link_each()
    ensures { OneLinkEach }
{}

/// A link ends for want of use only where it is ready, was not got for so long, and nothing uses it.
pub fn idle_ends()
    ensures { IdleEnds }
{}

/// A link is pinged only where its alarm rings and no earlier ping of it waits.
pub fn keep_alive_pings()
    ensures { KeepAlivePings }
{}

/// A link that has not ended is what the calls of its connection made of it, and nothing else.
pub fn links_alone()
    ensures { LinksAlone }
{}

/// At the end of a step no whole frame of a link is left unread.
pub fn frames_are_cut()
    ensures { FramesAreCut }
{}

/// For each link, also one that has ended, the requests are settled as the calls of its connection tell, each once, and only where they do; and
/// a tick ends each link that is due.
pub fn settled_as_told()
    ensures told { SettledAsTold }
    ensures once { SettledOnce }
    ensures due { DueLinksEnd }
{}

/// A link has ended exactly where an end of it stands in the log.
pub fn ended_is()
    ensures { EndedIs }
{}

/// Bytes that come in two pieces do what they do as one: no effect changes, but for the step in which it stands.
pub fn pieces_dont_matter()
    ensures { PiecesDontMatter }
{}

/// The bytes that are written to a connection are the first of those that were queued there, in order.
pub fn writes_follow()
    ensures { WritesFollow }
{}

/// Some texts have known addresses.
pub fn addresses_are_known()
    ensures { KnownAddresses }
{}

/// Eleven small runs are good, at the address of a URL.
pub fn small_runs_are_good()
    ensures answered { IsGood 8 request_is_answered }
    ensures early { IsGood 8 reply_comes_early }
    ensures fails { IsGood 8 attempt_fails }
    ensures polled { IsGood 8 consumer_is_polled }
    ensures deadline { IsGood 8 deadline_comes }
    ensures line { IsGood 1 line_moves_up }
    ensures stopped { IsGood 8 client_is_stopped }
    ensures retried { IsGood 8 attempt_is_retried }
    ensures redirected { IsGood 8 lookup_is_redirected }
    ensures sent { IsGood 8 message_is_sent }
    ensures batched { IsGood 8 batch_is_sent }
    ensures address { LocalIsKnown }
{}
