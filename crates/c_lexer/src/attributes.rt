ghost use Rattle.std.specs.Prelude.{◌≡◌, IfOk, List, reverse, ◌∷◌};
ghost use Rattle.c_lexer.specs.Tokens.{sign_part, is_lexical, part_of, part, same_bracket, goes_on, closed, in_arguments, behind_name, behind_arguments, opening, named, last, advanced};

use crate::meaning::{Meaning, meaning_of_piece};
use crate::pieces::{Kind, Sign};
use crate::words::is_skipped_name;
use cil_base::{Fault, Memory, NameId, Punctuator};

/// The brackets that an attribute's arguments may hold, in pairs.
#[derive(Clone, Copy)]
pub enum Bracket {
    Paren,
    Square,
    Brace,
}

/// What a token is to an attribute (own).
#[derive(Clone, Copy)]
pub enum Part {
    Word,
    Comma,
    Opens(Bracket),
    Closes(Bracket),
    Other,
    /// No token.
    Wrong,
}

/// What an attribute asks for next (own).
#[derive(Clone, Copy)]
pub enum Shape {
    /// Its first parenthesis.
    First,
    /// Its second one.
    Second,
    /// A name.
    Name,
    /// What may stand behind a name: arguments, a comma or the end.
    Behind,
    /// More arguments, or the bracket that ends them.
    Inside,
    /// A comma or the end.
    Closed,
    /// Its last parenthesis.
    Last,
}

/// An attribute that is being read: the place of its word, what it asks for, and whether all its names so far are skipped ones.
#[derive(Clone, Copy)]
pub struct Attribute {
    pub file: NameId,
    pub line: u32,
    pub shape: Shape,
    pub known: bool,
}

/// What comes of an attribute with one more token.
#[derive(Clone, Copy)]
pub enum Advance {
    /// It is none.
    Wrong,
    /// It is whole; whether all its names are skipped ones.
    Done(bool),
    On(Attribute),
}

fn sign_part(sign: Sign) -> Part
    ensures { result ≡ sign_part sign }
{
    match sign {
        Sign::Read(Punctuator::Comma) => Part::Comma,
        Sign::Read(Punctuator::LeftParen) => Part::Opens(Bracket::Paren),
        Sign::Read(Punctuator::RightParen) => Part::Closes(Bracket::Paren),
        Sign::Read(Punctuator::LeftBracket) | Sign::LessColon => Part::Opens(Bracket::Square),
        Sign::Read(Punctuator::RightBracket) | Sign::ColonGreater => Part::Closes(Bracket::Square),
        Sign::Read(Punctuator::LeftBrace) | Sign::LessPercent => Part::Opens(Bracket::Brace),
        Sign::Read(Punctuator::RightBrace) | Sign::PercentGreater => Part::Closes(Bracket::Brace),
        _ => Part::Other,
    }
}

fn is_lexical(meaning: Meaning) -> bool
    ensures { result ≡ is_lexical meaning }
{
    match meaning {
        Meaning::Fault(Fault::Lexical) => true,
        _ => false,
    }
}

fn part_of(kind: Kind) -> Part
    ensures { result ≡ part_of kind }
{
    match kind {
        Kind::Word => Part::Word,
        Kind::Sign(sign) => sign_part(sign),
        _ => Part::Other,
    }
}

/// What a piece is to an attribute: what is excluded elsewhere is a token here, and a lexical fault is none. No word is a lexical fault.
#[tactic(auto, using(crate::proofs::Parts::word_part))]
pub fn part_of_piece(kind: Kind, text: &[u8]) -> Part
    ensures { result ≡ part kind text.now }
{
    match kind {
        Kind::Word => Part::Word,
        _ => part_of_other(kind, text),
    }
}

fn part_of_other(kind: Kind, text: &[u8]) -> Part
    ensures { result ≡ part kind text.now }
{
    if is_lexical(meaning_of_piece(kind, text)) {
        Part::Wrong
    } else {
        part_of(kind)
    }
}

fn same_bracket(a: Bracket, b: Bracket) -> bool
    ensures { result ≡ same_bracket a b }
{
    match (a, b) {
        (Bracket::Paren, Bracket::Paren)
        | (Bracket::Square, Bracket::Square)
        | (Bracket::Brace, Bracket::Brace) => true,
        _ => false,
    }
}

impl Attribute {
    fn at(self, shape: Shape) -> Advance
        ensures { result ≡ Advance.On (record self { shape = shape }) }
    {
        Advance::On(Attribute { shape, ..self })
    }

    /// A bracket is closed in its arguments.
    fn close(self, bracket: Bracket, open_brackets: &mut Vec<Bracket>) -> Advance
        ensures { (result, reverse open_brackets.new.items) ≡ closed self bracket (reverse open_brackets.old.items) }
    {
        match open_brackets.pop() {
            None => Advance::Wrong,
            Some(last) => {
                if !same_bracket(bracket, last) {
                    return Advance::Wrong;
                }
                if open_brackets.is_empty() {
                    self.at(Shape::Closed)
                } else {
                    self.at(Shape::Inside)
                }
            }
        }
    }

    fn opened(self, bracket: Bracket, open_brackets: &mut Vec<Bracket>) -> Result<Advance, Memory>
        ensures { IfOk result (λ next. (next, reverse open_brackets.new.items) ≡ goes_on self Shape.Inside (bracket ∷ reverse open_brackets.old.items)) }
    {
        open_brackets.push(bracket)?;
        Ok(self.at(Shape::Inside))
    }

    fn in_arguments(self, part: Part, open_brackets: &mut Vec<Bracket>) -> Result<Advance, Memory>
        ensures { IfOk result (λ next. (next, reverse open_brackets.new.items) ≡ in_arguments self part (reverse open_brackets.old.items)) }
    {
        match part {
            Part::Opens(bracket) => self.opened(bracket, open_brackets),
            Part::Closes(bracket) => Ok(self.close(bracket, open_brackets)),
            Part::Wrong => Ok(Advance::Wrong),
            Part::Word | Part::Comma | Part::Other => Ok(self.at(Shape::Inside)),
        }
    }

    fn behind_name(self, part: Part, open_brackets: &mut Vec<Bracket>) -> Result<Advance, Memory>
        ensures { IfOk result (λ next. (next, reverse open_brackets.new.items) ≡ behind_name self part (reverse open_brackets.old.items)) }
    {
        match part {
            Part::Comma => Ok(self.at(Shape::Name)),
            Part::Closes(Bracket::Paren) => Ok(self.at(Shape::Last)),
            Part::Opens(Bracket::Paren) => self.opened(Bracket::Paren, open_brackets),
            _ => Ok(Advance::Wrong),
        }
    }

    fn behind_arguments(self, part: Part) -> Advance
        ensures { (brackets : List Bracket) → (result, brackets) ≡ behind_arguments self part brackets }
    {
        match part {
            Part::Comma => self.at(Shape::Name),
            Part::Closes(Bracket::Paren) => self.at(Shape::Last),
            _ => Advance::Wrong,
        }
    }

    fn opening(self, shape: Shape, part: Part) -> Advance
        ensures { (brackets : List Bracket) → (result, brackets) ≡ opening self shape part brackets }
    {
        match part {
            Part::Opens(Bracket::Paren) => self.at(shape),
            _ => Advance::Wrong,
        }
    }

    fn named(self, part: Part, text: &[u8]) -> Advance
        ensures { (brackets : List Bracket) → (result, brackets) ≡ named self part text.now brackets }
    {
        match part {
            Part::Word => Advance::On(Attribute {
                shape: Shape::Behind,
                known: self.known && is_skipped_name(text),
                ..self
            }),
            _ => Advance::Wrong,
        }
    }

    fn last(self, part: Part) -> Advance
        ensures { (brackets : List Bracket) → (result, brackets) ≡ last self part brackets }
    {
        match part {
            Part::Closes(Bracket::Paren) => Advance::Done(self.known),
            _ => Advance::Wrong,
        }
    }

    /// The attribute with one more token, whose text this is. The brackets are those that are open in its arguments.
    pub fn advanced(
        self,
        part: Part,
        text: &[u8],
        open_brackets: &mut Vec<Bracket>,
    ) -> Result<Advance, Memory>
        ensures { IfOk result (λ next. (next, reverse open_brackets.new.items) ≡ advanced self.shape self part text.now (reverse open_brackets.old.items)) }
    {
        match self.shape {
            Shape::First => Ok(self.opening(Shape::Second, part)),
            Shape::Second => Ok(self.opening(Shape::Name, part)),
            Shape::Name => Ok(self.named(part, text)),
            Shape::Behind => self.behind_name(part, open_brackets),
            Shape::Inside => self.in_arguments(part, open_brackets),
            Shape::Closed => Ok(self.behind_arguments(part)),
            Shape::Last => Ok(self.last(part)),
        }
    }
}
