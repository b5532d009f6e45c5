//! What a build made is closed where it fails.

ghost use Rattle.std.specs.Prelude.{◌≡◌, ◌++◌, [], ◌∷◌, IfOk, MatchOption};
ghost use Rattle.pulsar_searches.specs.Closing as meaning;

use crate::transition::Transition;
use pulsar_addresses::content::Refusal;
use pulsar_wire::error::NoMemory;
use std::alloc::Global;
use std::collections::VecDeque;
use std::marker::Model;

/// What is to be closed, by its number.
#[derive(Clone, Copy, Debug, PartialEq, Eq)]
pub enum Close {
    Producer(u64),
    Consumer(u64),
}

/// A producer or a consumer that was made, and its link.
#[derive(Clone, Copy, Debug, PartialEq, Eq)]
pub struct Made {
    pub link: u64,
    pub what: Close,
}

/// What a build made, in order.
pub struct MadeList {
    all: VecDeque<Made>,
}

impl Drop for MadeList {
    fn drop(self) {
        let MadeList { all: _ } = self;
    }
}

impl Model for MadeList {
    ghost use Rattle.std.specs.Prelude.{List};
    ghost use Rattle.pulsar_searches.specs.declared.closing.Made.{Made};

    ghost Value = { List Made };

    ghost view = { λ m. m.all.items };
}

impl MadeList {
    /// Nothing.
    pub fn new(alloc: Global) -> MadeList
        ensures { result ≡ [] }
    {
        MadeList {
            all: VecDeque::new(alloc),
        }
    }

    /// One more behind these.
    pub fn with(self, made: Made) -> Result<MadeList, NoMemory>
        ensures { IfOk result (λ m. m ≡ self ++ made ∷ []) }
    {
        let MadeList { mut all } = self;
        all.push_back(made)?;
        Ok(MadeList { all })
    }

    /// The first is taken out, if there is one.
    fn take(&mut self) -> Option<Made>
        ensures { MatchOption result (self.old ≡ []) (λ made. self.old ≡ made ∷ self.new) }
    {
        self.all.pop_front()
    }
}

/// What is still to be closed, and why the build failed.
#[derive(Drop)]
pub struct Closing {
    pub left: MadeList,
    pub refusal: Refusal,
}

/// Where a build stands that closes what it made where it fails.
#[derive(Drop)]
pub enum Guarded<S> {
    /// It goes on, and has made this.
    Goes { plan: S, made: MadeList },
    /// It has failed.
    Closes(Closing),
}

/// What such a build does.
#[derive(Drop)]
pub enum Deed<D> {
    Does(D),
    Closes(Made),
}

/// The first that is closed, or why the build failed where all are.
pub fn begins(made: MadeList, refusal: Refusal) -> Transition<Closing, Made, Refusal>
    ensures { result ≡ meaning.closes made refusal }
{
    let mut left = made;
    match left.take() {
        Some(first) => Transition::Stays(Closing { left, refusal }, first),
        None => Transition::Gives(refusal),
    }
}

/// What follows, whatever the outcome was.
pub fn told(closing: Closing) -> Transition<Closing, Made, Refusal>
    ensures { result ≡ meaning.closes closing.left closing.refusal }
{
    let Closing { left, refusal } = closing;
    begins(left, refusal)
}

/// A build that made this goes on by a step of its plan. Where that fails, what was made is closed first.
pub fn guards<S: Drop, D: Drop, A: Drop>(
    made: MadeList,
    step: Transition<S, D, Result<A, Refusal>>,
) -> Transition<Guarded<S>, Deed<D>, Result<A, Refusal>>
    ensures { result ≡ meaning.guards made step }
{
    match step {
        Transition::Stays(plan, deed) => Transition::Stays(
            Guarded::Goes { plan, made },
            Deed::Does(deed),
        ),
        Transition::Gives(Ok(value)) => Transition::Gives(Ok(value)),
        Transition::Gives(Err(refusal)) => fails(begins(made, refusal)),
    }
}

/// A build that failed closes what is left, whatever the outcome was.
pub fn closes_on<S: Drop, D: Drop, A: Drop>(
    closing: Closing,
) -> Transition<Guarded<S>, Deed<D>, Result<A, Refusal>>
    ensures { result ≡ meaning.fails (meaning.closes closing.left closing.refusal) }
{
    fails(told(closing))
}

fn fails<S: Drop, D: Drop, A: Drop>(
    step: Transition<Closing, Made, Refusal>,
) -> Transition<Guarded<S>, Deed<D>, Result<A, Refusal>>
    ensures { result ≡ meaning.fails step }
{
    match step {
        Transition::Stays(closing, made) => Transition::Stays(
            Guarded::Closes(closing),
            Deed::Closes(made),
        ),
        Transition::Gives(refusal) => Transition::Gives(Err(refusal)),
    }
}
