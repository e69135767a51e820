// The words of a command line, those of crate commands and three more.
ghost use Rattle.std.specs.Prelude.{◌≡◌, map, string_bytes};
ghost use Rattle.server_commands.specs.Options.{nothing_given, with_word, asked_of, asked, request_of};

use commands::{Fault, TakesWords, take_words};
use rules::Limits;

// What is asked for. A file is given by the place of its word.
#[derive(Clone, Copy, PartialEq, Eq, Debug)]
pub enum Request {
    Help,
    // a server for the game, of the ordinary size or the large one, and the calls of a file or of standard input
    Run {
        limits: Limits,
        large: bool,
        game: usize,
        calls: Option<usize>,
    },
    // the game in plain text
    Print {
        game: usize,
    },
    // the game in its byte form
    Bytes {
        game: usize,
    },
}

// What is done with the game.
#[derive(Clone, Copy)]
enum Task {
    Run,
    Print,
    Bytes,
}

// What the words so far have given, besides what is common to all programs.
#[derive(Clone, Copy)]
struct Given {
    common: commands::Given,
    large: bool,
    task: Task,
}

impl Default for Given {
    ghost is_default = { λ given. given ≡ nothing_given };

    fn default() -> Given {
        Given {
            common: commands::Given::default(),
            large: false,
            task: Task::Run,
        }
    }
}

impl TakesWords for Given {
    ghost with = { with_word };

    fn take_word(self, word: &str, at: usize) -> Result<Given, Fault> {
        match word {
            "--large" if self.common.awaited.is_none() => Ok(Given {
                large: true,
                ..self
            }),
            "--print" if self.common.awaited.is_none() => Ok(Given {
                task: Task::Print,
                ..self
            }),
            "--bytes" if self.common.awaited.is_none() => Ok(Given {
                task: Task::Bytes,
                ..self
            }),
            _ => {
                let common = self.common.take_word(word, at)?;
                Ok(Given { common, ..self })
            }
        }
    }
}

impl Given {
    // What is asked for of a game. Only a server takes a second file.
    fn asked_of(self, game: usize) -> Result<Request, Fault>
        ensures { result ≡ asked_of self self.task game }
    {
        let alone = match self.task {
            Task::Run => {
                return Ok(Request::Run {
                    limits: self.common.limits,
                    large: self.large,
                    game,
                    calls: self.common.calls,
                });
            }
            Task::Print => Request::Print { game },
            Task::Bytes => Request::Bytes { game },
        };
        match self.common.calls {
            Some(second) => Err(Fault::ExtraFile(second)),
            None => Ok(alone),
        }
    }

    // What is asked for once all words are taken. Help, a missing number and no game are told apart as in `commands`, whose request is another:
    // a method for both would answer a fault, no game or a game, and be no plainer.
    fn asked(self) -> Result<Request, Fault>
        ensures { result ≡ asked self }
    {
        if self.common.help {
            return Ok(Request::Help);
        }
        if self.common.awaited.is_some() {
            return Err(Fault::MissingNumber);
        }
        let game = self.common.game.ok_or(Fault::MissingGame)?;
        self.asked_of(game)
    }
}

// What is asked for. One line over what all programs share: a generic function for it would be no plainer.
pub fn read_request(words: &[String]) -> Result<Request, Fault>
    ensures { result ≡ request_of (map string_bytes words.now) }
{
    take_words(Given::default(), words)?.asked()
}
