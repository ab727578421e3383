ghost use Rattle.std.specs.Prelude.{◌≡◌, string_bytes, bytes_eq, decimal};
ghost use Rattle.blpk.specs.Words.{by_word, command_of, number_of, texts};

use itoa::Buffer;

/// What the words ask for.
#[derive(Clone, Copy, PartialEq, Eq, Debug)]
pub enum Command {
    /// Run the image and the script that the input holds.
    Run,
    /// Write the image of the configuration that the input holds.
    Build,
    /// Write the listing of that configuration.
    List,
    /// Run what is generated from the number.
    Gen(u32),
}

// Whether the word is the number's decimal text.
fn is_text_of(n: u32, word: &String) -> bool
    ensures { result ≡ bytes_eq (decimal n) (string_bytes word.now) }
{
    Buffer::new().format(n).as_bytes() == word.as_bytes()
}

// The number that the word is in decimal, 0 to 4,294,967,295 without leading zeros, where it is one.
fn number_of(word: &String) -> Option<u32>
    ensures { result ≡ number_of (string_bytes word.now) }
{
    match word.as_str().parse::<u32>() {
        Ok(n) => { if is_text_of(n, word) { Some(n) } else { None } }
        Err(_) => None,
    }
}

// The command that a word names alone.
fn by_word(word: &[u8]) -> Option<Command>
    ensures { result ≡ by_word word.now }
{
    if word == b"run".as_slice() {
        Some(Command::Run)
    } else if word == b"build".as_slice() {
        Some(Command::Build)
    } else if word == b"list".as_slice() {
        Some(Command::List)
    } else {
        None
    }
}

/// The command that the words name, where they name one.
pub fn command_of(words: &Vec<String>) -> Option<Command>
    ensures { result ≡ command_of (texts words.now.items) }
{
    if words.len() == 1 {
        by_word(words[0].as_bytes())
    } else if words.len() == 2 && words[0].as_bytes() == b"gen".as_slice() {
        number_of(&words[1]).map(Command::Gen)
    } else {
        None
    }
}
