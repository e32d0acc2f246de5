// What the words behind the program's name ask: a command, its nodes and its threshold.
#![tactic(auto)]

ghost use Rattle.std.specs.Prelude.{◌≡◌};
ghost use Rattle.model.specs.Basics.{same};
ghost use Rattle.desk_words.specs.Words.{command_of, word_of, nodes_of, splits_nodes, reads_text};
ghost use Rattle.desk_words.specs.Words.{nothing_yet, with_node};
ghost use Rattle.desk_words.specs.Words.{number_taken, fault_of, option_taken, word_taken, is_whole};

#[derive(Clone, Copy, PartialEq, Eq)]
pub enum Command {
    Pair,
    Walk,
    Test,
    Hubs,
    Reports,
    Check,
    Write,
    Export,
    Import,
    Help,
}

// What a word behind the first says: the option `--threshold`, a number, or neither.
#[derive(Clone, Copy, PartialEq, Eq)]
pub enum Word {
    Option,
    Number(u64),
    Other,
}

// What the words up to one of them ask: how many nodes, which, and the threshold, 0 where there is none; whether a threshold was named,
// and whether its number comes next.
// kept: counts and flags and no Options, since `take_word` and `is_whole`, which docs/GUARANTEES.md names, answer for all such values
#[derive(Clone, Copy, PartialEq, Eq)]
pub struct Question {
    pub nodes: usize,
    pub a: u64,
    pub b: u64,
    pub threshold: u64,
    pub named: bool,
    pub number_next: bool,
}

// What is wrong with a word: it is no number where one is needed, or one too many.
#[derive(Clone, Copy, PartialEq, Eq)]
pub enum WordFault {
    NoNumber,
    TooMany,
}

// Whether a word is this one.
#[tactic(auto, using(crate::proofs::WordLaws::words_compared))]
fn is_word(word: &[u8], name: &[u8]) -> bool
    ensures { result ≡ same word.now name.now }
{
    word == name
}

// The command that a word names.
// kept: a test after the other and not a match on the words, which was tried: it needs an answer for each byte at which a word differs
#[tactic(auto, unfolding(crate::specs::Words::command_of, crate::specs::Words::if_named, model::specs::Basics::bytes))]
pub fn command_of(word: &[u8]) -> Option<Command>
    ensures { result ≡ command_of word.now }
{
    if is_word(word, b"pair") {
        return Some(Command::Pair);
    }
    if is_word(word, b"walk") {
        return Some(Command::Walk);
    }
    if is_word(word, b"test") {
        return Some(Command::Test);
    }
    if is_word(word, b"hubs") {
        return Some(Command::Hubs);
    }
    if is_word(word, b"reports") {
        return Some(Command::Reports);
    }
    if is_word(word, b"check") {
        return Some(Command::Check);
    }
    if is_word(word, b"write") {
        return Some(Command::Write);
    }
    if is_word(word, b"export") {
        return Some(Command::Export);
    }
    if is_word(word, b"import") {
        return Some(Command::Import);
    }
    if is_word(word, b"help") {
        return Some(Command::Help);
    }
    None
}

// What a word after the command says.
pub fn word_of(word: &[u8]) -> Word
    ensures { result ≡ word_of word.now }
{
    if is_word(word, b"--threshold") {
        return Word::Option;
    }
    match text_reading::parse_number(word, 0) {
        Some(number) if number.end == word.len() => Word::Number(number.value),
        _ => Word::Other,
    }
}

impl Command {
    // How many nodes a command asks for.
    fn nodes(self) -> usize
        ensures { result ≡ nodes_of self }
    {
        match self {
            Command::Pair | Command::Walk => 2,
            _ => 0,
        }
    }

    // Whether a command splits the nodes, and so takes a threshold.
    fn splits(self) -> bool
        ensures { result ≡ splits_nodes self }
    {
        matches!(
            self,
            Command::Pair | Command::Walk | Command::Test | Command::Hubs | Command::Reports
        )
    }

    // Whether a command reads a text.
    pub fn reads_text(self) -> bool
        ensures { result ≡ reads_text self }
    {
        self != Command::Help
    }
}

// The question before the first word after the command.
impl Default for Question {
    ghost is_default = { λ q. q ≡ nothing_yet };

    fn default() -> Question {
        Question {
            nodes: 0,
            a: 0,
            b: 0,
            threshold: 0,
            named: false,
            number_next: false,
        }
    }
}

impl Question {
    // A question with a node more: A, or B behind it.
    fn with_node(self, v: u64) -> Question
        ensures { result ≡ with_node self v }
    {
        if self.nodes == 0 {
            Question {
                nodes: 1,
                a: v,
                ..self
            }
        } else {
            Question {
                nodes: 2,
                b: v,
                ..self
            }
        }
    }

    // What a number makes of a question.
    fn take_number(self, command: Command, v: u64) -> Result<Question, WordFault>
        ensures { result ≡ number_taken command self v }
    {
        if self.number_next {
            return Ok(Question {
                threshold: v,
                number_next: false,
                ..self
            });
        }
        if self.nodes < command.nodes() {
            return Ok(self.with_node(v));
        }
        Err(WordFault::TooMany)
    }

    // What is wrong with another word: it is no number where one is needed, or one too many.
    fn fault(self, command: Command) -> WordFault
        ensures { result ≡ fault_of command self }
    {
        if self.number_next || self.nodes < command.nodes() {
            WordFault::NoNumber
        } else {
            WordFault::TooMany
        }
    }

    // What `--threshold` makes of a question.
    fn take_option(self, command: Command) -> Result<Question, WordFault>
        ensures { result ≡ option_taken command self }
    {
        if command.splits() && !self.named {
            return Ok(Question {
                named: true,
                number_next: true,
                ..self
            });
        }
        Err(self.fault(command))
    }

    // What a word after the command makes of a question.
    pub fn take_word(self, command: Command, word: Word) -> Result<Question, WordFault>
        ensures { result ≡ word_taken command self word }
    {
        match word {
            Word::Option => self.take_option(command),
            Word::Number(v) => self.take_number(command, v),
            Word::Other => Err(self.fault(command)),
        }
    }

    // Whether all is there that a command asks for.
    pub fn is_whole(self, command: Command) -> bool
        ensures { result ≡ is_whole command self }
    {
        !self.number_next && self.nodes == command.nodes()
    }
}
