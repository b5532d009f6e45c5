//! The client as whoever records it sees it.

ghost use Rattle.std.specs.Prelude.{◌≡◌, ◌↔◌, ℕ, IsTrue, List, map};
ghost use Rattle.pulsar_acts.specs.Run.{Good, view};
ghost use Rattle.pulsar_acts.specs.View.{Waits};
ghost use Rattle.pulsar_links.specs.Seats.{has_ended};
ghost use Rattle.pulsar_machine.specs.Options.{Options};
ghost use Rattle.pulsar_client.specs.Client as meaning;
ghost use Rattle.pulsar_client.specs.Client.{IsRecorded, options_of};
ghost use Rattle.pulsar_calls.specs.Steps.{Step};

use crate::options::ClientOptions;
use crate::pulsar::Pulsar;
use pulsar_addresses::options::{ConnectionRetryOptions, OperationRetryOptions};
use pulsar_calls::effect::Effect;
use pulsar_calls::event::Event;
use pulsar_machine::{FromUrl, Machine};
use pulsar_producer::CustomRoutingPolicy;
use pulsar_wire::error::NoMemory;
use std::alloc::Global;

impl Machine for Pulsar {
    type Boxed = Box<dyn CustomRoutingPolicy>;

    type Options = ClientOptions;

    ghost means = { λ o. meaning.options (λ p. (CustomRoutingPolicy-box p).routes p.value) o };

    ghost given = { λ c. meaning.options (λ p. (CustomRoutingPolicy-box p).routes p.value) (options_of c) };

    ghost good = { λ o h. Good o h };

    ghost says_ended = { λ o h link b. (g : Good o h) → b ≡ has_ended link (view o g.log).links };

    ghost says_waits = { λ o h link b. (g : Good o h) → IsTrue b ↔ Waits link (view o g.log) };

    ghost stands = { λ o c h. IsRecorded (λ p. (CustomRoutingPolicy-box p).routes p.value) o c h };

    fn new(alloc: Global, options: ClientOptions) -> Result<Pulsar, NoMemory> {
        Pulsar::new(alloc, options)
    }

    fn step(&mut self, event: Event) -> Result<Vec<Effect>, NoMemory> {
        let effects = Pulsar::step(self, event)?;
        self.let_go(&effects);
        Ok(effects)
    }

    fn options(&self) -> &ClientOptions {
        Pulsar::options(self)
    }

    fn link_ended(&self, link: u64) -> bool {
        Pulsar::link_ended(self, link)
    }

    fn link_waits(&self, link: u64) -> bool {
        Pulsar::link_waits(self, link)
    }

    ghost made = { λ o c h s. s.1.made };

    ghost legal = { λ o c h s. record { log = s.1.stands.log; run = s.1.stands.run; rests = s.1.stands.rests; same = s.1.stands.same } };
}

impl Pulsar {
    /// The answers of these effects are let go: whoever records a client has them in the effects.
    fn let_go(&mut self, effects: &[Effect])
        ensures stands { (o : Options) (h : List Step) → IsRecorded (λ p. routes p) o self.old h → IsRecorded (λ p. routes p) o self.new h }
        ensures options { options_of self.new ≡ options_of self.old }
    {
        for effect in effects {
            self.forget(effect);
        }
    }

    /// The answer of a call that has ended is let go.
    fn forget(&mut self, effect: &Effect)
        ensures stands { (o : Options) (h : List Step) → IsRecorded (λ p. routes p) o self.old h → IsRecorded (λ p. routes p) o self.new h }
        ensures options { options_of self.new ≡ options_of self.old }
    {
        if let Effect::Ended { ticket, answer: _ } = effect {
            drop(self.take_answer(*ticket));
        }
    }
}

impl FromUrl for Pulsar {
    type Policies = Vec<Box<dyn CustomRoutingPolicy>>;

    ghost routes = { λ ps. map (λ p. (CustomRoutingPolicy-box p).routes p.value) ps.items };

    fn options_for(
        alloc: Global,
        url: &str,
        now: u64,
        policies: Vec<Box<dyn CustomRoutingPolicy>>,
    ) -> Result<ClientOptions, NoMemory> {
        let url = String::from_str(alloc, url)?;
        Ok(ClientOptions {
            url,
            auth: None,
            connection_retry: ConnectionRetryOptions::default(),
            operation_retry: OperationRetryOptions::default(),
            outbound_channel_size: 100,
            seed: 0,
            now,
            first_number: 0,
            policies,
        })
    }
}
