//! What a client offers to whoever keeps a record of its run.
#![tactic(auto)]

ghost use Rattle.std.specs.Prelude.{◌≡◌, ◌∷◌, [], ℕ, Bool, IfOk, List};
ghost use Rattle.pulsar_calls.specs.Steps.{Step};
ghost use Rattle.pulsar_machine.specs.Options.{Options};
ghost use Rattle.pulsar_machine.specs.Machine.{step};

mod from_url;

pub use crate::from_url::FromUrl;
use pulsar_calls::effect::Effect;
use pulsar_calls::event::Event;
use pulsar_wire::error::NoMemory;
use std::alloc::Global;

/// A client as one state machine, by the histories that it stands for: an event goes in, and its effects come out. What is generic over
/// it needs to know nothing of routing policies.
pub trait Machine: Drop {
    /// A routing policy in a box. It is named here so that an impl can say what the policies of its client mean.
    type Boxed;

    /// What a client is made with.
    type Options;

    /// What they say of a run.
    ghost means: { Self.Options → Options };

    /// What the options say that the client was made with.
    ghost given: { Self → Options };

    /// This history, newest step first, is one that such a client may have with these options.
    ghost good: { Options → List Step → Type 0 };

    /// After this history it is right to say of a link that it has ended, or that it has not.
    ghost says_ended: { Options → List Step → ℕ → Bool → Type 0 };

    /// After this history it is right to say of a link that it is open and something waits for it, or that it is not so.
    ghost says_waits: { Options → List Step → ℕ → Bool → Type 0 };

    /// The client stands for this history of these options.
    ghost stands: { Options → Self → List Step → Type 0 };

    /// A client to which nothing has happened.
    fn new(alloc: Global, options: Self::Options) -> Result<Self, NoMemory>
        ensures { IfOk result (λ c. stands (means options) c []) };

    /// One event, with all that arises from it.
    fn step(&mut self, event: Event) -> Result<Vec<Effect>, NoMemory>
        ensures ok { IfOk result (λ out. (o : Options) (h : List Step) → stands o self.old h → stands o self.new (step event out.items ∷ h)) }
        ensures given { given self.new ≡ given self.old };

    /// The options that it was made with.
    fn options(&self) -> &Self::Options
        ensures { means result.now ≡ given self.now };

    /// The link of this number has ended. It takes no memory.
    fn link_ended(&self, link: u64) -> bool
        ensures { (o : Options) (h : List Step) → stands o self.now h → says_ended o h link result };

    /// The link of this number is open, and something waits for it. It takes no memory.
    fn link_waits(&self, link: u64) -> bool
        ensures { (o : Options) (h : List Step) → stands o self.now h → says_waits o h link result };

    /// A client stands for histories of its own options alone.
    ghost made: { (o : Options) (c : Self) (h : List Step) → stands o c h → o ≡ given c };

    /// Each history that a client stands for is good.
    ghost legal: { (o : Options) (c : Self) (h : List Step) → stands o c h → good o h };
}
