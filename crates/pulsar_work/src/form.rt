//! The words of `produce` and `consume`.

ghost use Rattle.std.specs.Prelude.{◌≡◌, ◌∷◌, [], codes, if◌then◌else◌, IfOk, OnErr, Some, map, string_bytes};
ghost use Rattle.std.specs.Option.{option_map};
ghost use Rattle.pulsar_work.specs.Form.{Asking, asking, form_of};

use pulsar_grammar::word::{is, number};
use pulsar_wire::NoMemory;

/// What the words ask for.
#[derive(Debug, PartialEq, Eq, Drop)]
pub enum Form {
    /// `produce URL TOPIC`: each line of the source is sent to the topic.
    Produce {
        url: String,
        topic: String,
    },
    /// `consume URL TOPIC SUB COUNT`: so many messages of the topic are printed and acknowledged.
    Consume {
        url: String,
        topic: String,
        subscription: String,
        count: u64,
    },
}

/// What the words ask for, where they are one of these forms.
pub fn parse(words: &[String]) -> Result<Option<Form>, NoMemory>
    ensures form { IfOk result (λ f. option_map asking f ≡ form_of (map string_bytes words.now)) }
    ensures some { OnErr result ((a : Asking) × (form_of (map string_bytes words.now) ≡ Some a)) }
{
    match words {
        [word, url, topic] => produce(word, url, topic),
        [word, url, topic, subscription, count] => consume(word, url, topic, subscription, count),
        _ => Ok(None),
    }
}

fn produce(word: &String, url: &String, topic: &String) -> Result<Option<Form>, NoMemory>
    ensures form { IfOk result (λ f. option_map asking f ≡ form_of (string_bytes word.now ∷ string_bytes url.now ∷ string_bytes topic.now ∷ [])) }
    ensures some { OnErr result ((a : Asking) × (form_of (string_bytes word.now ∷ string_bytes url.now ∷ string_bytes topic.now ∷ []) ≡ Some a)) }
{
    if !is(word.as_bytes(), "produce") {
        return Ok(None);
    }
    Ok(Some(Form::Produce {
        url: url.clone()?,
        topic: topic.clone()?,
    }))
}

fn consume(
    word: &String,
    url: &String,
    topic: &String,
    subscription: &String,
    count: &String,
) -> Result<Option<Form>, NoMemory>
    ensures form { IfOk result (λ f. option_map asking f
        ≡ form_of (string_bytes word.now ∷ string_bytes url.now ∷ string_bytes topic.now ∷ string_bytes subscription.now ∷ string_bytes count.now ∷
        [])) }
    ensures some { OnErr result ((a : Asking)
        × (form_of (string_bytes word.now ∷ string_bytes url.now ∷ string_bytes topic.now ∷ string_bytes subscription.now ∷ string_bytes count.now ∷
        []) ≡ Some a)) }
{
    if !is(word.as_bytes(), "consume") {
        return Ok(None);
    }
    let Some(count) = number(count.as_bytes()) else {
        return Ok(None);
    };
    Ok(Some(Form::Consume {
        url: url.clone()?,
        topic: topic.clone()?,
        subscription: subscription.clone()?,
        count,
    }))
}
