//! The words that begin a line.

ghost use Rattle.std.specs.Prelude.{◌≡◌};
ghost use Rattle.std.specs.Str.{bytes_eq};
ghost use Rattle.hx_script.specs.Keywords.{heading_of, call_word_of, step_word_of, keyword_of};

/// The words of the head and of sections.
#[derive(Clone, Copy)]
pub enum Heading {
    Hx,
    Space,
    Key,
    String,
    Int,
    Subspace,
    Servers,
    Tolerate,
    Session,
    Steps,
}

/// The words of calls.
#[derive(Clone, Copy)]
pub enum CallWord {
    Put,
    Get,
    Del,
    Cput,
    Search,
    Stop,
    Add,
    Atomic,
}

/// The words of steps.
#[derive(Clone, Copy)]
pub enum StepWord {
    Deliver,
    Tick,
    Halt,
}

#[derive(Clone, Copy)]
pub enum Keyword {
    Heading(Heading),
    Call(CallWord),
    Step(StepWord),
}

/// Whether a word has these bytes.
pub(crate) fn is(word: &[u8], bytes: &[u8]) -> bool
    ensures { result ≡ bytes_eq word.now bytes.now }
{
    word == bytes
}

fn heading_of(word: &[u8]) -> Option<Heading>
    ensures { result ≡ heading_of word.now }
{
    if is(word, b"hx") {
        Some(Heading::Hx)
    } else if is(word, b"space") {
        Some(Heading::Space)
    } else if is(word, b"key") {
        Some(Heading::Key)
    } else if is(word, b"string") {
        Some(Heading::String)
    } else if is(word, b"int") {
        Some(Heading::Int)
    } else if is(word, b"subspace") {
        Some(Heading::Subspace)
    } else if is(word, b"servers") {
        Some(Heading::Servers)
    } else if is(word, b"tolerate") {
        Some(Heading::Tolerate)
    } else if is(word, b"session") {
        Some(Heading::Session)
    } else if is(word, b"steps") {
        Some(Heading::Steps)
    } else {
        None
    }
}

fn call_word_of(word: &[u8]) -> Option<CallWord>
    ensures { result ≡ call_word_of word.now }
{
    if is(word, b"put") {
        Some(CallWord::Put)
    } else if is(word, b"get") {
        Some(CallWord::Get)
    } else if is(word, b"del") {
        Some(CallWord::Del)
    } else if is(word, b"cput") {
        Some(CallWord::Cput)
    } else if is(word, b"search") {
        Some(CallWord::Search)
    } else if is(word, b"stop") {
        Some(CallWord::Stop)
    } else if is(word, b"add") {
        Some(CallWord::Add)
    } else if is(word, b"atomic") {
        Some(CallWord::Atomic)
    } else {
        None
    }
}

fn step_word_of(word: &[u8]) -> Option<StepWord>
    ensures { result ≡ step_word_of word.now }
{
    if is(word, b"deliver") {
        Some(StepWord::Deliver)
    } else if is(word, b"tick") {
        Some(StepWord::Tick)
    } else if is(word, b"halt") {
        Some(StepWord::Halt)
    } else {
        None
    }
}

/// What a line is, by its first word.
pub(crate) fn keyword_of(word: &[u8]) -> Option<Keyword>
    ensures { result ≡ keyword_of word.now }
{
    if let Some(heading) = heading_of(word) {
        return Some(Keyword::Heading(heading));
    }
    if let Some(call) = call_word_of(word) {
        return Some(Keyword::Call(call));
    }
    match step_word_of(word) {
        Some(step) => Some(Keyword::Step(step)),
        None => None,
    }
}
