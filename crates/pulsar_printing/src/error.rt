//! Printed errors.

ghost use Rattle.std.specs.Prelude.{◌≡◌, ◌∷◌, ◌++◌, OnOk, string_bytes};
ghost use Rattle.std.specs.Option.{option_map};
ghost use Rattle.pulsar_wire.specs.Authentication.{denial};
ghost use Rattle.pulsar_wire.specs.Failures.{OfConsumer, OfDiscovery, OfPartialSend, consumer_fault, discovery_fault, failure, fault, of_producer, sent as what_became};
ghost use Rattle.pulsar_printing.specs.ErrorText as printed;
ghost use Rattle.pulsar_printing.specs.WordText.{word};

use crate::word::push_word;
use pulsar_wire::{
    AuthenticationError, ConnectionError, ConsumerError, Error, IoKind, ProducerError, Reason,
    ServerError, ServiceDiscoveryError,
};
use std::alloc::AllocError;

/// An error: its first word, and what stands behind it.
#[cycle(text)]
pub fn push_error(out: &mut String, error: &Error) -> Result<(), AllocError>
    ensures { OnOk result (string_bytes out.new ≡ string_bytes out.old ++ printed.failure (failure error.now)) }
{
    push_first_word(out, error)?;
    push_detail(out, error)?;
    Ok(())
}

/// The first word of an error.
fn push_first_word(out: &mut String, error: &Error) -> Result<(), AllocError>
    ensures { OnOk result (string_bytes out.new ≡ string_bytes out.old ++ printed.first_word (failure error.now)) }
{
    out.push_str(family(error))?;
    out.push_str(word_in_family(error))?;
    Ok(())
}

/// The family of an error, in front of its word.
fn family(error: &Error) -> &'static str
    ensures { result.now ≡ printed.family (failure error.now) }
{
    match error {
        Error::Connection(_) => "connection.",
        Error::Consumer(e) => consumer_family(e),
        Error::Producer(e) => producer_family(e),
        Error::ServiceDiscovery(e) => discovery_family(e),
        Error::Authentication(_) => "authentication.",
        Error::Custom(_) | Error::Executor => "",
    }
}

fn consumer_family(error: &ConsumerError) -> &'static str
    ensures { result.now ≡ printed.family (OfConsumer (consumer_fault error.now)) }
{
    match error {
        ConsumerError::Connection(_) => "consumer.connection.",
        ConsumerError::MissingPayload(_)
        | ConsumerError::Io(_)
        | ConsumerError::ChannelFull
        | ConsumerError::Closed
        | ConsumerError::BuildError => "consumer.",
    }
}

fn producer_family(error: &ProducerError) -> &'static str
    ensures { result.now ≡ printed.family (of_producer error.now) }
{
    match error {
        ProducerError::Connection(_) => "producer.connection.",
        ProducerError::Custom(_)
        | ProducerError::Io(_)
        | ProducerError::PartialSend(_)
        | ProducerError::Batch(_)
        | ProducerError::Fenced
        | ProducerError::Closed => "producer.",
    }
}

fn discovery_family(error: &ServiceDiscoveryError) -> &'static str
    ensures { result.now ≡ printed.family (OfDiscovery (discovery_fault error.now)) }
{
    match error {
        ServiceDiscoveryError::Connection(_) => "discovery.connection.",
        ServiceDiscoveryError::Query(_, _)
        | ServiceDiscoveryError::NotFound
        | ServiceDiscoveryError::DnsLookupError
        | ServiceDiscoveryError::Canceled
        | ServiceDiscoveryError::Shutdown
        | ServiceDiscoveryError::Dummy => "discovery.",
    }
}

/// The word of an error in its family.
fn word_in_family(error: &Error) -> &'static str
    ensures { result.now ≡ printed.word_in_family (failure error.now) }
{
    match error {
        Error::Connection(e) => fault_word(e),
        Error::Consumer(e) => consumer_word(e),
        Error::Producer(e) => producer_word(e),
        Error::ServiceDiscovery(e) => discovery_word(e),
        Error::Authentication(e) => denial_word(e),
        Error::Custom(_) => "custom",
        Error::Executor => "executor",
    }
}

fn fault_word(error: &ConnectionError) -> &'static str
    ensures { result.now ≡ printed.fault_word (fault error.now) }
{
    match error {
        ConnectionError::Io(_) => "io",
        ConnectionError::SlowDown => "slowdown",
        ConnectionError::Disconnected => "disconnected",
        ConnectionError::PulsarError(_, _) => "pulsar",
        ConnectionError::Unexpected(_) => "unexpected",
        ConnectionError::Decoding(_) => "decoding",
        ConnectionError::Encoding(_) => "encoding",
        ConnectionError::SocketAddr(_) => "socketaddr",
        ConnectionError::UnexpectedResponse(_) => "unexpectedresponse",
        ConnectionError::Authentication(AuthenticationError::Custom(_)) => "authentication.custom",
        ConnectionError::Authentication(AuthenticationError::Retriable(_)) => {
            "authentication.retriable"
        }
        ConnectionError::NotFound => "notfound",
        ConnectionError::Canceled => "canceled",
        ConnectionError::Shutdown => "shutdown",
        ConnectionError::Exhausted => "exhausted",
        ConnectionError::NoMemory => "nomemory",
    }
}

fn consumer_word(error: &ConsumerError) -> &'static str
    ensures { result.now ≡ printed.consumer_word (consumer_fault error.now) }
{
    match error {
        ConsumerError::Connection(e) => fault_word(e),
        ConsumerError::MissingPayload(_) => "missingpayload",
        ConsumerError::Io(_) => "io",
        ConsumerError::ChannelFull => "channelfull",
        ConsumerError::Closed => "closed",
        ConsumerError::BuildError => "build",
    }
}

fn producer_word(error: &ProducerError) -> &'static str
    ensures { result.now ≡ printed.word_in_family (of_producer error.now) }
{
    match error {
        ProducerError::Connection(e) => fault_word(e),
        ProducerError::Custom(_) => "custom",
        ProducerError::Io(_) => "io",
        ProducerError::PartialSend(_) => "partial",
        ProducerError::Batch(_) => "batch",
        ProducerError::Fenced => "fenced",
        ProducerError::Closed => "closed",
    }
}

fn discovery_word(error: &ServiceDiscoveryError) -> &'static str
    ensures { result.now ≡ printed.discovery_word (discovery_fault error.now) }
{
    match error {
        ServiceDiscoveryError::Connection(e) => fault_word(e),
        ServiceDiscoveryError::Query(_, _) => "query",
        ServiceDiscoveryError::NotFound => "notfound",
        ServiceDiscoveryError::DnsLookupError => "dnslookuperror",
        ServiceDiscoveryError::Canceled => "canceled",
        ServiceDiscoveryError::Shutdown => "shutdown",
        ServiceDiscoveryError::Dummy => "dummy",
    }
}

fn denial_word(error: &AuthenticationError) -> &'static str
    ensures { result.now ≡ printed.denial_word (denial error.now) }
{
    match error {
        AuthenticationError::Custom(_) => "custom",
        AuthenticationError::Retriable(_) => "retriable",
    }
}

/// What stands behind the first word of an error.
#[cycle(text)]
fn push_detail(out: &mut String, error: &Error) -> Result<(), AllocError>
    ensures { OnOk result (string_bytes out.new ≡ string_bytes out.old ++ printed.detail (failure error.now)) }
{
    match error {
        Error::Connection(e) => push_fault_detail(out, e)?,
        Error::Consumer(e) => push_consumer_detail(out, e)?,
        Error::Producer(e) => push_producer_detail(out, e)?,
        Error::ServiceDiscovery(e) => push_discovery_detail(out, e)?,
        Error::Authentication(e) => push_denial_detail(out, e)?,
        Error::Custom(text) => push_text(out, text)?,
        Error::Executor => {}
    }
    Ok(())
}

fn push_fault_detail(out: &mut String, error: &ConnectionError) -> Result<(), AllocError>
    ensures { OnOk result (string_bytes out.new ≡ string_bytes out.old ++ printed.fault_detail (fault error.now)) }
{
    match error {
        ConnectionError::Io(kind) => push_behind(out, io_kind(*kind))?,
        ConnectionError::PulsarError(code, text) => push_broker_error(out, *code, text)?,
        ConnectionError::Unexpected(text) => push_text(out, text)?,
        ConnectionError::Decoding(reason) => push_behind(out, reason_word(*reason))?,
        ConnectionError::Encoding(reason) => push_behind(out, reason_word(*reason))?,
        ConnectionError::SocketAddr(text) => push_text(out, text)?,
        ConnectionError::UnexpectedResponse(body) => push_text(out, body)?,
        ConnectionError::Authentication(e) => push_denial_detail(out, e)?,
        ConnectionError::SlowDown
        | ConnectionError::Disconnected
        | ConnectionError::NotFound
        | ConnectionError::Canceled
        | ConnectionError::Shutdown
        | ConnectionError::Exhausted
        | ConnectionError::NoMemory => {}
    }
    Ok(())
}

fn push_consumer_detail(out: &mut String, error: &ConsumerError) -> Result<(), AllocError>
    ensures { OnOk result (string_bytes out.new ≡ string_bytes out.old ++ printed.consumer_detail (consumer_fault error.now)) }
{
    match error {
        ConsumerError::Connection(e) => push_fault_detail(out, e)?,
        ConsumerError::MissingPayload(text) => push_text(out, text)?,
        ConsumerError::Io(kind) => push_behind(out, io_kind(*kind))?,
        ConsumerError::ChannelFull | ConsumerError::Closed | ConsumerError::BuildError => {}
    }
    Ok(())
}

#[cycle(text)]
#[tactic(auto, using(crate::proofs::Errors::sent_row))]
fn push_producer_detail(out: &mut String, error: &ProducerError) -> Result<(), AllocError>
    ensures { OnOk result (string_bytes out.new ≡ string_bytes out.old ++ printed.detail (of_producer error.now)) }
{
    match error {
        ProducerError::Connection(e) => push_fault_detail(out, e)?,
        ProducerError::Custom(text) => push_text(out, text)?,
        ProducerError::Io(kind) => push_behind(out, io_kind(*kind))?,
        ProducerError::PartialSend(sent) => push_outcomes(out, sent)?,
        ProducerError::Batch(e) => {
            out.push(' ')?;
            push_error(out, e)?;
        }
        ProducerError::Fenced | ProducerError::Closed => {}
    }
    Ok(())
}

/// The count of the messages of a batch, and the outcome of each.
#[tactic(auto, using(crate::proofs::Errors::outcomes_more, crate::proofs::Errors::count_sent))]
fn push_outcomes(out: &mut String, sent: &[Result<u64, Error>]) -> Result<(), AllocError>
    ensures { OnOk result (string_bytes out.new ≡ string_bytes out.old ++ printed.detail (OfPartialSend (what_became sent.now))) }
{
    let count = sent.len();
    write!(out, " {count}")?;
    for outcome in sent {
        match outcome {
            Ok(ticket) => write!(out, " ok:{ticket}")?,
            Err(e) => {
                out.push_str(" err:")?;
                push_first_word(out, e)?;
            }
        }
    }
    Ok(())
}

fn push_discovery_detail(out: &mut String, error: &ServiceDiscoveryError) -> Result<(), AllocError>
    ensures { OnOk result (string_bytes out.new ≡ string_bytes out.old ++ printed.discovery_detail (discovery_fault error.now)) }
{
    match error {
        ServiceDiscoveryError::Connection(e) => push_fault_detail(out, e)?,
        ServiceDiscoveryError::Query(code, text) => push_broker_error(out, *code, text)?,
        ServiceDiscoveryError::NotFound
        | ServiceDiscoveryError::DnsLookupError
        | ServiceDiscoveryError::Canceled
        | ServiceDiscoveryError::Shutdown
        | ServiceDiscoveryError::Dummy => {}
    }
    Ok(())
}

fn push_denial_detail(out: &mut String, error: &AuthenticationError) -> Result<(), AllocError>
    ensures { OnOk result (string_bytes out.new ≡ string_bytes out.old ++ printed.denial_detail (denial error.now)) }
{
    match error {
        AuthenticationError::Custom(text) | AuthenticationError::Retriable(text) => {
            push_text(out, text)?;
        }
    }
    Ok(())
}

/// What a broker said of a request that it refused.
fn push_broker_error(
    out: &mut String,
    code: Option<ServerError>,
    text: &Option<String>,
) -> Result<(), AllocError>
    ensures { OnOk result (string_bytes out.new ≡ string_bytes out.old
        ++ printed.broker_error code (option_map string_bytes text.now)) }
{
    out.push(' ')?;
    push_code(out, code)?;
    match text {
        Some(text) => push_text(out, text)?,
        None => out.push_str(" ~")?,
    }
    Ok(())
}

/// The number of a broker's error.
fn push_code(out: &mut String, code: Option<ServerError>) -> Result<(), AllocError>
    ensures { OnOk result (string_bytes out.new ≡ string_bytes out.old ++ printed.code code) }
{
    match code {
        Some(error) => {
            let number = i32::from(error);
            write!(out, "{number}")?;
        }
        None => out.push('~')?,
    }
    Ok(())
}

/// A blank and a text as a word.
fn push_text(out: &mut String, text: &str) -> Result<(), AllocError>
    ensures { OnOk result (string_bytes out.new ≡ string_bytes out.old ++ 32 ∷ word text.now) }
{
    out.push(' ')?;
    push_word(out, text.as_bytes())?;
    Ok(())
}

/// A blank and a word of our own.
fn push_behind(out: &mut String, text: &str) -> Result<(), AllocError>
    ensures { OnOk result (string_bytes out.new ≡ string_bytes out.old ++ 32 ∷ text.now) }
{
    out.push(' ')?;
    out.push_str(text)?;
    Ok(())
}

fn io_kind(kind: IoKind) -> &'static str
    ensures { result.now ≡ printed.io_kind kind }
{
    match kind {
        IoKind::ConnectionRefused => "refused",
        IoKind::TimedOut => "timedout",
        IoKind::Other => "other",
    }
}

fn reason_word(reason: Reason) -> &'static str
    ensures { result.now ≡ printed.reason_word reason }
{
    match reason {
        Reason::Frame => "frame",
        Reason::Command => "command",
        Reason::Payload => "payload",
        Reason::Magic => "magic",
        Reason::Metadata => "metadata",
        Reason::Checksum => "checksum",
        Reason::Message => "message",
        Reason::Batch => "batch",
    }
}
