// The tokens of a line of text, found one by one from a position on.
#![tactic(auto)]

ghost use Rattle.std.specs.Prelude.{◌≡◌, ◌==◌, true, ◌⊎◌, ◌<◌, ◌≤◌, length, get_or};
ghost use Rattle.token.specs.Tokens.{is_digit, is_letter, is_letter_or_digit};
ghost use Rattle.token.specs.Scan.{symbol_of, symbol_number, alike, Skipped, Ended, TokenAt};

// What a token is known by: its byte where it has one byte only, `<<`, or that it is any other.
#[derive(Clone, Copy)]
pub enum Symbol {
    Byte(u8),
    Shift,
    Row,
}

impl Symbol {
    pub fn is(self, b: u8) -> bool
        ensures { result ≡ (symbol_number self == b) }
    {
        matches!(self, Self::Byte(c) if c == b)
    }
}

// A token of a text, its bytes, and where the text after it begins.
#[derive(Clone, Copy)]
pub struct Token<'a> {
    pub symbol: Symbol,
    pub word: &'a [u8],
    pub end: usize,
}

#[tactic(auto, unfolding(crate::specs::Tokens::between, crate::specs::Tokens::is_digit))]
pub fn is_digit(b: u8) -> bool
    ensures { result ≡ is_digit b }
{
    b'0' <= b && b <= b'9'
}

#[tactic(auto, unfolding(crate::specs::Tokens::between, crate::specs::Tokens::is_letter))]
pub fn is_letter(b: u8) -> bool
    ensures { result ≡ is_letter b }
{
    b'A' <= b && b <= b'Z' || b'a' <= b && b <= b'z'
}

#[tactic(auto, unfolding(crate::specs::Tokens::is_letter_or_digit))]
fn letter_or_digit(b: u8) -> bool
    ensures { result ≡ is_letter_or_digit b }
{
    is_digit(b) || is_letter(b)
}

#[tactic(auto, using(crate::proofs::Scanning::space_steps))]
fn after_spaces(text: &[u8], at: usize) -> usize
    ensures { Skipped text.now at result }
{
    for i in at..text.len() {
        if text[i] != b' ' {
            return i;
        }
    }
    text.len()
}

// The end of the token that begins at start with a letter, a digit or a point: after the letters and digits that follow.
#[tactic(auto, using(crate::proofs::Scanning::row_steps))]
fn row_end(text: &[u8], start: usize) -> usize
    requires { (start < length text.now) × ((is_letter_or_digit (get_or text.now start 0) ≡ true) ⊎ (get_or text.now start 0 ≡ 46)) }
    ensures { Ended text.now start result }
{
    for i in start + 1..text.len() {
        if !letter_or_digit(text[i]) {
            return i;
        }
    }
    text.len()
}

#[tactic(auto, using(crate::proofs::Scanning::token_ends))]
fn token_end(text: &[u8], start: usize) -> usize
    requires { (start < length text.now) × (get_or text.now start 0 ≡ 32 → ⊥) × (get_or text.now start 0 ≡ 10 → ⊥) }
    ensures { Ended text.now start result }
{
    let first = text[start];
    if letter_or_digit(first) || first == b'.' {
        return row_end(text, start);
    }
    let next = start + 1;
    if first == b'<' && next < text.len() && text[next] == b'<' {
        return next + 1;
    }
    next
}

#[tactic(auto, using(crate::proofs::Symbols::symbols))]
fn symbol_of(word: &[u8]) -> Symbol
    ensures { symbol_number result ≡ symbol_of word.now }
{
    match word {
        [b] => Symbol::Byte(*b),
        [b'<', b'<'] => Symbol::Shift,
        _ => Symbol::Row,
    }
}

// The token at or after a position, if its line has one.
#[tactic(auto, using(crate::proofs::Scanning::line_ends))]
pub fn token_at(text: &[u8], at: usize) -> Option<Token<'_>>
    ensures { TokenAt text.now at result }
{
    let start = after_spaces(text, at);
    if text.len() <= start || text[start] == b'\n' {
        return None;
    }
    let end = token_end(text, start);
    let word = &text[start..end];
    Some(Token {
        symbol: symbol_of(word),
        word,
        end,
    })
}

// Whether two words have the same bytes. The last ones are compared first: many names differ only there.
#[tactic(auto, using(crate::proofs::Alike::comparing))]
pub fn same_bytes(a: &[u8], b: &[u8]) -> bool
    ensures { result ≡ alike a.now b.now }
{
    if let [.., x] = a
        && let [.., y] = b
        && *x != *y
    {
        return false;
    }
    a == b
}
