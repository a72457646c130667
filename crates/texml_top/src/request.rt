// Reads the words of a command line.
ghost use Rattle.std.specs.Prelude.{◌≡◌, map, string_bytes, MatchOption, MatchResult, None, Some, Ok, Err};
ghost use Rattle.std.specs.Char.{is_ascii_digit};
ghost use Rattle.std.specs.List.{list_all};
ghost use Rattle.texml_top.specs.Request.{asked, is_positional, limit_of, read_as, request_of};

// How many expansions may begin where the words don't say.
const USUAL_LIMIT: u64 = 10_000_000;

// The greatest limit that the words may give.
const GREATEST_LIMIT: u64 = 1_000_000_000;

/// What a run is to do with its file.
#[derive(Clone, Copy, Debug, PartialEq, Eq)]
pub enum Command {
    /// Its HTML is written.
    Convert,
    /// Its expansions are shown.
    Expand,
}

/// A command on a file, and how many expansions may begin.
#[derive(Clone, Copy, Debug, PartialEq, Eq)]
pub struct Request<'a> {
    pub command: Command,
    pub file: &'a str,
    pub limit: u64,
}

/// What the words of a command line ask for, or which of them are wrong: 1 the first, 2 those behind it. It takes no memory.
pub fn read_request(words: &[String]) -> Result<Request<'_>, u8>
    ensures { MatchResult result (λ request. asked (map string_bytes words.now) ≡ Ok (read_as request)) (λ which. asked (map string_bytes words.now) ≡ Err which) }
{
    let [word, rest @ ..] = words else {
        return Err(1);
    };
    match word.as_str() {
        "convert" => read_behind(Command::Convert, rest).ok_or(2),
        "expand" => read_behind(Command::Expand, rest).ok_or(2),
        "self" => Err(2),
        _ => Err(1),
    }
}

// What the words behind a command ask for, if they fit.
fn read_behind(command: Command, words: &[String]) -> Option<Request<'_>>
    ensures { MatchOption result (request_of command (map string_bytes words.now) ≡ None) (λ request. request_of command (map string_bytes words.now) ≡ Some (read_as request)) }
{
    let (file, limit) = match words {
        [file] => (file.as_str(), USUAL_LIMIT),
        [file, option, word] if option.as_str() == "--limit" => {
            (file.as_str(), read_limit(word.as_str())?)
        }
        _ => return None,
    };
    if !is_file(file) {
        return None;
    }
    Some(Request {
        command,
        file,
        limit,
    })
}

// The limit that a word gives.
fn read_limit(word: &str) -> Option<u64>
    ensures { result ≡ limit_of word.now }
{
    if word.len() > 10 || !has_digits_alone(word.as_bytes()) {
        return None;
    }
    match word.parse::<u64>() {
        Ok(limit) if 1 <= limit && limit <= GREATEST_LIMIT => Some(limit),
        _ => None,
    }
}

// Whether each character of a word is a digit.
fn has_digits_alone(word: &[u8]) -> bool
    ensures { result ≡ list_all is_ascii_digit word.now }
{
    word.iter().all(|c| c.is_ascii_digit())
}

// Whether a word stands for a file.
fn is_file(word: &str) -> bool
    ensures { result ≡ is_positional word.now }
{
    match word.as_bytes() {
        [] => false,
        [_] => true,
        [first, ..] => *first != b'-',
    }
}
