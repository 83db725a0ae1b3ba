//! The words of the command line, and the options among them.
ghost use Rattle.std.specs.Prelude.{◌≡◌, Option, option_map};
ghost use Rattle.oct_tasks.specs.Words.{bytes_of, is_option, value_of, are_options};

/// Whether a word is the name of an option.
fn is_option(word: &[u8]) -> bool
    ensures { result ≡ is_option word.now }
{
    word == b"--hit".as_slice()
        || word == b"--miss".as_slice()
        || word == b"--min".as_slice()
        || word == b"--max".as_slice()
        || word == b"--thr".as_slice()
        || word == b"--max-groups".as_slice()
        || word == b"--max-cells".as_slice()
        || word == b"--max-bytes".as_slice()
}

/// The word after a name, where the name is given. The words are pairs of a name and a value.
#[tactic(auto, unfolding(crate::specs::Words::value_of))]
pub fn value_of<'a>(words: &'a [String], name: &[u8]) -> Option<&'a [u8]>
    ensures { option_map (λ word. word.now) result ≡ value_of name.now (bytes_of words.now) }
{
    let mut rest = words;
    while let [other, value, more @ ..] = rest {
        if other.as_bytes() == name {
            return Some(value.as_bytes());
        }
        rest = more;
    }
    None
}

/// Whether the words are pairs of an option and its value, and no option is given twice.
#[tactic(auto, unfolding(crate::specs::Words::are_options))]
pub fn are_options(words: &[String]) -> bool
    ensures { result ≡ are_options (bytes_of words.now) }
{
    let mut rest = words;
    while let [name, _, more @ ..] = rest {
        if !is_option(name.as_bytes()) || value_of(more, name.as_bytes()).is_some() {
            return false;
        }
        rest = more;
    }
    rest.is_empty()
}
