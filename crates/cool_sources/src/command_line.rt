//! Parses the command line of a program with two forms of output: the requested form, and the names of the files.

ghost use Rattle.std.specs.Prelude.{◌≡◌};
ghost use Rattle.std.specs.List.{list_any};
ghost use Rattle.cool_sources.specs.CommandLine.{IsCall, call_of, is_option, names_of, words_of};

/// A parsed command line.
#[derive(Drop)]
pub struct Call<'a> {
    /// Whether its first word is the option that chooses the other form.
    pub other: bool,
    /// The names of the files.
    pub names: &'a [String],
}

/// Parses these arguments. If the first is this option, the other form is requested; all arguments after `--` are names. `None` if another argument begins
/// with `-`, except `-` itself.
pub fn call_of<'a>(option: &str, words: &'a [String]) -> Option<Call<'a>>
    ensures { IsCall (call_of option.now (words_of words.now)) result }
{
    match words {
        [first, rest @ ..] if first.as_str() == option => names_of(true, rest),
        _ => names_of(false, words),
    }
}

/// The call of this form with the names that are left of the words.
fn names_of<'a>(other: bool, words: &'a [String]) -> Option<Call<'a>>
    ensures { IsCall (names_of other (words_of words.now)) result }
{
    match words {
        [first, rest @ ..] if first.as_str() == "--" => Some(Call { other, names: rest }),
        _ => {
            if has_option(words) {
                None
            } else {
                Some(Call {
                    other,
                    names: words,
                })
            }
        }
    }
}

/// Whether one of the words is an option.
fn has_option(words: &[String]) -> bool
    ensures { result ≡ list_any is_option (words_of words.now) }
{
    for word in words {
        if is_option(word.as_str()) {
            return true;
        }
    }
    false
}

/// Whether a word is an option: it begins with `-`, and is not `-` itself.
fn is_option(word: &str) -> bool
    ensures { result ≡ is_option word.now }
{
    matches!(word.as_bytes(), [b'-', _, ..])
}
