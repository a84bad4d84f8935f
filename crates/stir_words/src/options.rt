//! Options, as words.
ghost use Rattle.std.specs.Prelude.{◌≡◌, ◌<◌, ◌==◌, true, false, codes, length, Some, MatchOption};
ghost use Rattle.std.specs.List.{position_or_len, before_first, after_first};
ghost use Rattle.std.specs.Option.{option_copied, option_map};
ghost use Rattle.text_grammar.specs.Cut.{behind};
ghost use Rattle.stir_words.specs.Options.{are_formed, are_options, is_value, long_of, named, step, step_named};
ghost use Rattle.stir_words.specs.Options.{step_with};
ghost use Rattle.stir_words.specs.Seen.{named_of, texts};

/// What a word says that begins with two dashes: a name, and the value after its first `=` if it has one.
#[derive(Clone, Copy, Debug)]
pub(crate) struct Long<'a> {
    pub(crate) name: &'a str,
    pub(crate) value: Option<&'a str>,
}

/// What comes after the two dashes of a word.
#[tactic(auto, using(crate::proofs::WordSteps::dashes_found, crate::proofs::WordSteps::no_dashes))]
fn behind_dashes(word: &str) -> Option<&str>
    ensures { option_copied result ≡ behind (codes "--") word.now }
{
    match word.strip_prefix("--") {
        Some(text) => Some(text),
        None => None,
    }
}

/// What comes before the first `=`, and what after it.
fn parts_of(text: &str) -> Option<(&str, &str)>
    ensures { MatchOption result (position_or_len (λ byte. byte == 61) text.now ≡ length text.now)
        (λ parts. (parts.0.now ≡ before_first (λ byte. byte == 61) text.now)
        × (parts.1.now ≡ after_first (λ byte. byte == 61) text.now)
        × (position_or_len (λ byte. byte == 61) text.now < length text.now)) }
{
    text.split_once('=')
}

/// What the text after the dashes says.
#[tactic(auto, using(crate::proofs::WordSteps::cut_in_two, crate::proofs::WordSteps::not_cut))]
fn named(text: &str) -> Option<Long<'_>>
    ensures { option_map named_of result ≡ named text.now }
{
    if text.is_empty() {
        return None;
    }
    match parts_of(text) {
        Some((name, value)) => Some(Long {
            name,
            value: Some(value),
        }),
        None => Some(Long {
            name: text,
            value: None,
        }),
    }
}

/// `--name` or `--name=value`; None for any other word.
#[tactic(auto, unfolding(crate::specs::Options::long_of))]
fn long_of(word: &str) -> Option<Long<'_>>
    ensures { option_map named_of result ≡ long_of word.now }
{
    let Some(text) = behind_dashes(word) else {
        return None;
    };
    named(text)
}

/// Whether a word is a value: it isn't empty and doesn't begin with `-`.
fn is_value(word: &str) -> bool
    ensures { result ≡ is_value word.now }
{
    match word.as_bytes() {
        [] => false,
        [first, ..] => *first != b'-',
    }
}

/// Whether a name waits for its value after this word, given whether one waits before it. None if the word can't come
/// there.
fn step(waits: bool, word: &str) -> Option<bool>
    ensures { result ≡ step waits word.now }
{
    if waits {
        return behind_value(word);
    }
    match long_of(word) {
        Some(long) => behind_long(&long),
        None => None,
    }
}

/// After a word that has to be a value.
fn behind_value(word: &str) -> Option<bool>
    ensures { result ≡ step true word.now }
{
    if is_value(word) { Some(false) } else { None }
}

/// After a word that is a name, with its value if that comes after `=`.
fn behind_long(long: &Long<'_>) -> Option<bool>
    ensures { result ≡ step_named (named_of long.now) }
{
    match long.value {
        Some(value) => behind_sign(value),
        None => Some(true),
    }
}

/// After a value that comes after `=`.
fn behind_sign(value: &str) -> Option<bool>
    ensures { result ≡ step_with (Some value.now) }
{
    if value.is_empty() { None } else { Some(false) }
}

/// Whether each word is an option or the value of one.
fn are_formed(words: &[&str]) -> bool
    ensures { result ≡ are_formed false (texts words.now) }
{
    let mut waits = false;
    for word in words {
        match step(waits, word) {
            Some(waits_now) => waits = waits_now,
            None => return false,
        }
    }
    !waits
}

/// Whether the words fall into options.
#[tactic(auto, using(crate::proofs::FormLaws::formed_are))]
pub(crate) fn are_options(words: &[&str]) -> bool
    ensures { result ≡ are_options (texts words.now) }
{
    are_formed(words)
}
