//! The forms of the program's words that need no link.

ghost use Rattle.std.specs.Prelude.{◌≡◌, map, string_bytes};
ghost use Rattle.std.specs.Option.{option_map};
ghost use Rattle.std.specs.Str.{bytes_eq};
ghost use Rattle.pulsar_cli.specs.Asked.{form_in};
ghost use Rattle.pulsar_cli.specs.Form.{demo_of, form_in_memory};

use pulsar_grammar::word::number;

/// The most messages of a demo.
const MOST: u64 = 100_000;

/// What the words ask for, where that is done in memory.
#[derive(Clone, Copy)]
pub enum Form {
    /// A script is read.
    Script,
    /// A demo is run.
    Demo { seed: u64, count: u64 },
}

impl Form {
    /// The form that the words have. Those of `produce` and `consume` are not among these.
    pub fn of(words: &[String]) -> Option<Form>
        ensures { option_map form_in result ≡ form_in_memory (map string_bytes words.now) }
    {
        match words {
            [word] if is(word, "script") => Some(Form::Script),
            [word, seed, count] if is(word, "demo") => demo_of(seed, count),
            _ => None,
        }
    }
}

fn demo_of(seed: &String, count: &String) -> Option<Form>
    ensures { option_map form_in result ≡ demo_of (string_bytes seed.now) (string_bytes count.now) }
{
    let seed = number(seed.as_bytes())?;
    let count = number(count.as_bytes())?;
    if count < 1 || MOST < count {
        return None;
    }
    Some(Form::Demo { seed, count })
}

fn is(word: &String, text: &str) -> bool
    ensures { result ≡ bytes_eq (string_bytes word.now) text.now }
{
    word.as_bytes() == text.as_bytes()
}
