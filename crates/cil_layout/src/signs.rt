ghost use Rattle.std.specs.Prelude.{◌≡◌};
ghost use Rattle.std.specs.List.{list_all};
ghost use Rattle.cil_tree.specs.Names.{goes_on_word};
ghost use Rattle.cil_tree.specs.LaidOut.{is_word, is_token};
ghost use Rattle.cil_layout.specs.Signs.{is_sign, is_pair, is_triple, is_quad, is_punctuator, is_only};

/// The byte is a punctuator of its own.
#[tactic(auto, unfolding(crate::specs::Signs::is_sign))]
pub fn is_sign(b: u8) -> bool
    ensures { result ≡ is_sign b }
{
    match b {
        b'[' => true,
        b']' => true,
        b'(' => true,
        b')' => true,
        b'{' => true,
        b'}' => true,
        b'.' => true,
        b'&' => true,
        b'*' => true,
        b'+' => true,
        b'-' => true,
        b'~' => true,
        b'!' => true,
        b'/' => true,
        b'%' => true,
        b'<' => true,
        b'>' => true,
        b'^' => true,
        b'|' => true,
        b'?' => true,
        b':' => true,
        b';' => true,
        b'=' => true,
        b',' => true,
        b'#' => true,
        _ => false,
    }
}

/// The two bytes are a punctuator.
#[tactic(auto, unfolding(crate::specs::Signs::is_pair))]
pub fn is_pair(a: u8, b: u8) -> bool
    ensures { result ≡ is_pair a b }
{
    match (a, b) {
        (b'-', b'>') => true,
        (b'+', b'+') => true,
        (b'-', b'-') => true,
        (b'<', b'<') => true,
        (b'>', b'>') => true,
        (b'<', b'=') => true,
        (b'>', b'=') => true,
        (b'=', b'=') => true,
        (b'!', b'=') => true,
        (b'&', b'&') => true,
        (b'|', b'|') => true,
        (b'*', b'=') => true,
        (b'/', b'=') => true,
        (b'%', b'=') => true,
        (b'+', b'=') => true,
        (b'-', b'=') => true,
        (b'&', b'=') => true,
        (b'^', b'=') => true,
        (b'|', b'=') => true,
        (b'#', b'#') => true,
        (b'<', b':') => true,
        (b':', b'>') => true,
        (b'<', b'%') => true,
        (b'%', b'>') => true,
        (b'%', b':') => true,
        _ => false,
    }
}

/// The three bytes are a punctuator.
#[tactic(auto, unfolding(crate::specs::Signs::is_triple))]
fn is_triple(a: u8, b: u8, c: u8) -> bool
    ensures { result ≡ is_triple a b c }
{
    match (a, b, c) {
        (b'.', b'.', b'.') => true,
        (b'<', b'<', b'=') => true,
        (b'>', b'>', b'=') => true,
        _ => false,
    }
}

/// The four bytes are a punctuator.
#[tactic(auto, unfolding(crate::specs::Signs::is_quad))]
fn is_quad(a: u8, b: u8, c: u8, d: u8) -> bool
    ensures { result ≡ is_quad a b c d }
{
    match (a, b, c, d) {
        (b'%', b':', b'%', b':') => true,
        _ => false,
    }
}

/// The token is a punctuator.
#[tactic(auto, using(crate::proofs::SignLaws::punctuator_is))]
fn is_punctuator(token: &[u8]) -> bool
    ensures { result ≡ is_punctuator token.now }
{
    match token {
        [a] => is_sign(*a),
        [a, b] => is_pair(*a, *b),
        [a, b, c] => is_triple(*a, *b, *c),
        [a, b, c, d] => is_quad(*a, *b, *c, *d),
        _ => false,
    }
}

/// A byte of a word: a letter, a digit or an underscore.
fn goes_on_word(b: u8) -> bool
    ensures { result ≡ goes_on_word b }
{
    b.is_ascii_alphabetic() || b == b'_' || b.is_ascii_digit()
}

/// The bytes are letters, digits and underscores.
fn all_go_on(token: &[u8]) -> bool
    ensures { result ≡ list_all goes_on_word token.now }
{
    for b in token {
        if !goes_on_word(*b) {
            return false;
        }
    }
    true
}

/// The bytes are a word of C: letters, digits and underscores, and at least one.
fn is_word(token: &[u8]) -> bool
    ensures { result ≡ is_word token.now }
{
    match token {
        [] => false,
        _ => all_go_on(token),
    }
}

/// The token is a word or a punctuator of C (C11 6.4.6p1).
#[tactic(auto, using(crate::proofs::SignLaws::punctuator_is))]
pub fn is_token(token: &[u8]) -> bool
    ensures { result ≡ is_token token.now }
{
    if is_word(token) {
        true
    } else {
        is_punctuator(token)
    }
}

/// The token is that byte alone.
pub fn is_only(token: &[u8], byte: u8) -> bool
    ensures { result ≡ is_only byte token.now }
{
    match token {
        [b] => *b == byte,
        _ => false,
    }
}
