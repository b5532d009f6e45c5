//! Answers once more.

ghost use Rattle.std.specs.Prelude.{◌≡◌, IfOk, map};
ghost use Rattle.pulsar_addresses.specs.Address.{named};
ghost use Rattle.pulsar_wire.specs.Views.{body_values};
ghost use Rattle.pulsar_calls.specs.Content.{answered, said};

use crate::effect::Answer;
use pulsar_addresses::address::BrokerAddress;
use pulsar_addresses::content::Refusal;
use pulsar_outgoing::copying::{copy_error, copy_refusal};
use pulsar_wire::commands::base::Body;
use pulsar_wire::encoding::copying::copy_values;
use pulsar_wire::error::{Error, NoMemory};
use std::alloc::Global;

/// What a call ends with, once more.
pub fn copy_answer(
    alloc: Global,
    answer: &Result<Answer, Error>,
) -> Result<Result<Answer, Error>, NoMemory>
    ensures { IfOk result (λ copy. said copy ≡ said answer.now) }
{
    match answer {
        Ok(answer) => Ok(Ok(copy_said(alloc, answer)?)),
        Err(error) => Ok(Err(copy_error(alloc, error)?)),
    }
}

fn copy_said(alloc: Global, answer: &Answer) -> Result<Answer, NoMemory>
    ensures { IfOk result (λ copy. answered copy ≡ answered answer.now) }
{
    match answer {
        Answer::Done => Ok(Answer::Done),
        Answer::Topics(names) => Ok(Answer::Topics(copy_values(names)?)),
        Answer::Address(address) => Ok(Answer::Address(address.copy()?)),
        Answer::Count(count) => Ok(Answer::Count(*count)),
        Answer::Addresses(names) => Ok(Answer::Addresses(copy_names(alloc, names)?)),
        Answer::Receipt(receipt) => Ok(Answer::Receipt(receipt.copy()?)),
        Answer::Sends(tickets) => Ok(Answer::Sends(copy_values(tickets)?)),
        Answer::Replies(bodies) => Ok(Answer::Replies(copy_bodies(alloc, bodies)?)),
    }
}

fn copy_names(
    alloc: Global,
    names: &[(String, BrokerAddress)],
) -> Result<Vec<(String, BrokerAddress)>, NoMemory>
    ensures { IfOk result (λ copy. map named copy.items ≡ map named names.now) }
{
    let mut copy = Vec::new(alloc);
    for (name, address) in names {
        copy.push((name.clone()?, address.copy()?))?;
    }
    Ok(copy)
}

fn copy_bodies(alloc: Global, bodies: &[Body]) -> Result<Vec<Body>, NoMemory>
    ensures { IfOk result (λ copy. map body_values copy.items ≡ map body_values bodies.now) }
{
    let mut copy = Vec::new(alloc);
    for body in bodies {
        copy.push(body.copy()?)?;
    }
    Ok(copy)
}

/// A refusal, and the same once more.
pub fn twice(alloc: Global, refusal: Refusal) -> Result<(Refusal, Refusal), NoMemory>
    ensures { IfOk result (λ both. (both.0 ≡ refusal) × (both.1 ≡ refusal)) }
{
    let copy = copy_refusal(alloc, &refusal)?;
    Ok((refusal, copy))
}
