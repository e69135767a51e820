// The words of a command line.
ghost use Rattle.std.specs.Prelude.{◌≡◌, ℕ, List, Result, map, string_bytes};
ghost use Rattle.commands.specs.declared.options.Fault.{Fault};
ghost use Rattle.commands.specs.Faults.{taken};
ghost use Rattle.commands.specs.Options.{word_kind, nothing_given, with_kind, with_file, with_word, asked, request_of, word_of};

use rules::{Limit, Limits};

// What is asked for. A file is given by the place of its word.
#[derive(Clone, Copy, PartialEq, Eq, Debug)]
pub enum Request {
    Help,
    Run {
        limits: Limits,
        game: usize,
        calls: Option<usize>,
    },
}

// What is wrong with the words, with the place of the word at fault.
#[derive(Clone, Copy, PartialEq, Eq, Debug)]
pub enum Fault {
    UnknownOption(usize),
    BadNumber(usize),
    ExtraFile(usize),
    MissingNumber,
    MissingGame,
}

#[derive(Clone, Copy)]
enum Kind {
    Help,
    Number(Limit),
    Unknown,
    File,
}

// What the words so far have given, and the limit whose number comes next, if one does.
#[derive(Clone, Copy)]
pub struct Given {
    pub help: bool,
    pub limits: Limits,
    pub awaited: Option<Limit>,
    pub game: Option<usize>,
    pub calls: Option<usize>,
}

impl Default for Given {
    ghost is_default = { λ given. given ≡ nothing_given };

    fn default() -> Given {
        Given {
            help: false,
            limits: Limits::default(),
            awaited: None,
            game: None,
            calls: None,
        }
    }
}

// What grows with each word of a command line, or finds fault with it.
pub trait TakesWords: Copy {
    ghost with: { Self → List ℕ → ℕ → Result Self Fault };

    // Word `at` is taken.
    fn take_word(self, word: &str, at: usize) -> Result<Self, Fault>
        ensures { result ≡ with self word.now at };
}

// Takes words from the first on, as far as there is no fault.
pub fn take_words<T: TakesWords>(start: T, words: &[String]) -> Result<T, Fault>
    ensures { result ≡ taken T.with start (map string_bytes words.now) 0 }
{
    let mut given = start;
    for (i, word) in words.iter().enumerate() {
        given = given.take_word(word.as_str(), i)?;
    }
    Ok(given)
}

fn kind_of(word: &str) -> Kind
    ensures { result ≡ word_kind word.now }
{
    match word {
        "--help" => Kind::Help,
        "--tables" => Kind::Number(Limit::Tables),
        "--moves" => Kind::Number(Limit::Moves),
        "--positions" => Kind::Number(Limit::Positions),
        _ if word.as_bytes().first() == Some(&b'-') => Kind::Unknown,
        _ => Kind::File,
    }
}

impl Given {
    // A word that is no option's number.
    fn take_kind(self, kind: Kind, at: usize) -> Result<Given, Fault>
        ensures { result ≡ with_kind self kind at }
    {
        match kind {
            Kind::Help => Ok(Given { help: true, ..self }),
            Kind::Number(limit) => Ok(Given {
                awaited: Some(limit),
                ..self
            }),
            Kind::Unknown => Err(Fault::UnknownOption(at)),
            Kind::File => self.take_file(at),
        }
    }

    // The first file is the game, and the second the calls.
    fn take_file(self, at: usize) -> Result<Given, Fault>
        ensures { result ≡ with_file self at }
    {
        match (self.game, self.calls) {
            (None, _) => Ok(Given {
                game: Some(at),
                ..self
            }),
            (_, None) => Ok(Given {
                calls: Some(at),
                ..self
            }),
            _ => Err(Fault::ExtraFile(at)),
        }
    }

    // What is asked for once all words are taken.
    fn asked(self) -> Result<Request, Fault>
        ensures { result ≡ asked self }
    {
        if self.help {
            return Ok(Request::Help);
        }
        if self.awaited.is_some() {
            return Err(Fault::MissingNumber);
        }
        Ok(Request::Run {
            limits: self.limits,
            game: self.game.ok_or(Fault::MissingGame)?,
            calls: self.calls,
        })
    }
}

impl TakesWords for Given {
    ghost with = { with_word };

    fn take_word(self, word: &str, at: usize) -> Result<Given, Fault> {
        let Some(limit) = self.awaited else {
            return self.take_kind(kind_of(word), at);
        };
        let n = text::read_number(word.as_bytes()).ok_or(Fault::BadNumber(at))?;
        Ok(Given {
            limits: self.limits.with(limit, n),
            awaited: None,
            ..self
        })
    }
}

// A word of a command line; of a place where there is none, no letters.
pub fn word_at(words: &[String], at: usize) -> &str
    ensures { result.now ≡ word_of words.now at }
{
    words.get(at).map_or("", |word| word.as_str())
}

// What is asked for. One line over what all programs share: a generic function for it would be no plainer.
pub fn read_request(words: &[String]) -> Result<Request, Fault>
    ensures { result ≡ request_of (map string_bytes words.now) }
{
    take_words(Given::default(), words)?.asked()
}
