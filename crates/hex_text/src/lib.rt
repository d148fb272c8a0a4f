// Words as text: eight hexadecimal digits a word, blanks and line feeds between words, comments from '#' to the line feed.
#![tactic(auto)]

ghost use Rattle.std.specs.Prelude.{◌≡◌, ◌+◌, ◌^◌, ◌<◌, Some, length, IfOk};
ghost use Rattle.hex_text.specs.declared.HexError.TheVariants.{NoMemory};
ghost use Rattle.hex_text.specs.declared.State.TheVariants.{Between};
ghost use Rattle.hex_text.specs.Scan.{digit, blank, grown, opened, step, run, word, shed, bad, spot, Heard, ReadBack};
ghost use Rattle.hex_text.specs.Pieces.{PiecesRead, TokenRefused};
ghost use Rattle.hex_text.specs.Texts.{error_text};

use std::alloc::{AllocError, Global};
use std::error::Error;
use std::fmt;
use std::marker::Model;

// How many digits a word has.
const DIGITS: u32 = 8;

// Why a text gives no words: no memory, or a token that is no word, by the line and the column of its first byte.
#[derive(Clone, Copy, Debug, PartialEq, Eq)]
pub enum HexError {
    NoMemory,
    Token { line: usize, column: usize },
}

impl From<AllocError> for HexError {
    ghost from_gives = { λ _ r. r ≡ NoMemory };

    fn from(_e: AllocError) -> HexError {
        HexError::NoMemory
    }
}

impl fmt::Display for HexError {
    ghost output = { λ x. Some (error_text x) };

    fn fmt<W: fmt::Write>(&self, f: &mut fmt::Formatter<W>) -> fmt::Result {
        match self {
            HexError::NoMemory => f.write_str("out of memory"),
            HexError::Token { line, column } => {
                write!(
                    f,
                    "line {line}, column {column}: a word is eight hexadecimal digits"
                )
            }
        }
    }
}

impl Error for HexError {}

// A token whose bytes so far are digits: the byte where it begins, how many they are, and their value.
#[derive(Drop)]
struct Token {
    start: usize,
    count: u32,
    value: u32,
}

impl Model for Token {
    ghost use Rattle.std.specs.Prelude.{ℕ, ◌^◌, ◌<◌};

    ghost Value = { ℕ × ℕ × ℕ };

    ghost view = { λ t. (t.start, t.count, t.value) };

    ghost invariant = { λ t. t.value < 16 ^ t.count };
}

impl Token {
    // The token with one more byte.
    fn grown(self, byte: u8) -> State
        ensures { result ≡ grown self.0 self.1 self.2 byte }
    {
        let Token {
            start,
            count,
            value,
        } = self;
        match digit(byte) {
            Some(d) if count < DIGITS => State::Digits(Token {
                start,
                count: count + 1,
                value: value * 16 + d,
            }),
            _ => State::Bad { start },
        }
    }
}

// What a reader of text is in.
#[derive(Drop)]
enum State {
    Between,
    Comment,
    Digits(Token),
    // A token that is no word. Nothing after it counts.
    Bad { start: usize },
}

impl State {
    // What the byte at place `i` begins where no token is open.
    fn opened(i: usize, byte: u8) -> State
        ensures { result ≡ opened i byte }
    {
        if blank(byte) {
            State::Between
        } else if byte == b'#' {
            State::Comment
        } else {
            let token = Token {
                start: i,
                count: 0,
                value: 0,
            };
            token.grown(byte)
        }
    }

    // The state after one more byte, the one at place `i`. In line, since it is asked for each byte of a text, twice.
    #[inline(always)]
    fn after(self, i: usize, byte: u8) -> State
        ensures { result ≡ step i self byte }
    {
        match self {
            State::Between => State::opened(i, byte),
            State::Comment if byte == b'\n' => State::Between,
            State::Comment => State::Comment,
            State::Digits(token) => {
                if !blank(byte) && byte != b'#' {
                    token.grown(byte)
                } else if token.count == DIGITS {
                    State::opened(i, byte)
                } else {
                    State::Bad { start: token.start }
                }
            }
            State::Bad { start } => State::Bad { start },
        }
    }

    // The word that is whole in this state.
    fn word(&self) -> Option<u32>
        ensures { result ≡ word self.now }
    {
        match self {
            State::Digits(token) if token.count == DIGITS => Some(token.value),
            _ => None,
        }
    }

    // Where the token begins that is no word, if the text ends in this state.
    fn bad(&self) -> Option<usize>
        ensures { result ≡ bad self.now }
    {
        match self {
            State::Digits(token) if token.count != DIGITS => Some(token.start),
            State::Bad { start } => Some(*start),
            _ => None,
        }
    }
}

// The value of a hexadecimal digit.
fn digit(byte: u8) -> Option<u32>
    ensures { result ≡ digit byte }
{
    char::from(byte).to_digit(16)
}

// Whether the byte stands between words. Compared one by one: with `matches!` a long text takes a third longer. No
// `is_ascii_whitespace`, which takes the form feed too.
fn blank(byte: u8) -> bool
    ensures { result ≡ blank byte }
{
    byte == b' ' || byte == b'\t' || byte == b'\r' || byte == b'\n'
}

// The state at the end of a text.
fn run(text: &[u8]) -> State
    ensures { result ≡ run 0 Between text.now }
{
    text.iter()
        .enumerate()
        .fold(State::Between, |state, (i, b)| state.after(i, *b))
}

// The words of a text. By a loop: a `try_fold` would hand state and words from step to step as a pair.
fn shed(heap: Global, text: &[u8]) -> Result<Vec<u32>, AllocError>
    ensures { IfOk result (λ v. v.items ≡ shed 0 Between text.now) }
{
    let mut words = Vec::new(heap);
    let mut state = State::Between;
    for (i, b) in text.iter().enumerate() {
        state = state.after(i, *b);
        if let Some(w) = state.word() {
            words.push(w)?;
        }
    }
    Ok(words)
}

// The line and the column behind these bytes of a text.
fn spot(front: &[u8]) -> (usize, usize)
    requires { length front.now + 1 < 2 ^ 64 }
    ensures { result ≡ spot 1 1 front.now }
{
    let line = 1 + front.iter().filter(|b| **b == b'\n').count();
    let column = 1 + front.iter().rev().take_while(|b| **b != b'\n').count();
    (line, column)
}

// The words of a text. The whole text is checked before memory is asked for.
pub fn from_hex(heap: Global, text: &[u8]) -> Result<Vec<u32>, HexError>
    ensures value { Heard text.now result }
    ensures back { ReadBack }
    ensures pieces { PiecesRead }
    ensures refuses { TokenRefused }
{
    if let Some(start) = run(text).bad() {
        let (line, column) = spot(&text[..start]);
        return Err(HexError::Token { line, column });
    }
    Ok(shed(heap, text)?)
}
