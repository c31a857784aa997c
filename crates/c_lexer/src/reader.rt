ghost use Rattle.std.specs.Prelude.{◌≡◌, ◌<◌, ◌≤◌, ◌^◌, ◌+◌, ℕ, List, length, IfOk, OnOk, None};
ghost use Rattle.cil_base.specs.NamePool.{interned};
ghost use Rattle.c_lexer.specs.Tokens.{line_feeds, moved, refusal_at, refused, line_refused, with_name, with_attribute, marker_read, line_read, with_token, inside_read, outside_read, token_read, piece_read, id_of, ended};
ghost use Rattle.c_lexer.specs.Lines.{line_of};
ghost use Rattle.c_lexer.specs.Lexed.{Gives, Grows};
ghost use Rattle.c_lexer.specs.ReaderView.{reading_of, Follows, Refuses, IsBounded};
ghost use Rattle.cil_base.specs.Limits.{unit_bytes};

use crate::attributes::{Advance, Attribute, Bracket, Shape, part_of_piece};
use crate::entries::{Entry, Spot};
use crate::lines::{Directive, has_line_feed, line_of};
use crate::meaning::{Meaning, meaning_of_piece};
use crate::pieces::Kind;
use crate::tokens::Tokens;
use cil_base::{
    Fault, Feature, Memory, NameId, NamePool, Place, Refusal, Stop, Token, TokenKind, UnitNo,
};
use std::alloc::Global;

/// What is known in front of a piece.
#[derive(Drop)]
pub struct Reader {
    pub alloc: Global,
    pub unit: UnitNo,
    /// The number of the unit's bytes.
    pub limit: u32,
    pub entries: Vec<Entry>,
    pub spot: Spot,
    /// The attribute that is being read.
    pub attribute: Option<Attribute>,
    /// The brackets that are open in its arguments, the innermost last.
    pub brackets: Vec<Bracket>,
}

fn line_feeds(text: &[u8]) -> u32
    requires { length text.now ≤ unit_bytes }
    ensures value { result ≡ line_feeds text.now }
    ensures within { result ≤ length text.now }
{
    let mut n = 0;
    for b in text {
        if *b == b'\n' {
            n += 1;
        }
    }
    n
}

/// Behind a text (C11 6.10.4: each line feed in it is a line).
fn moved(text: &[u8], spot: Spot) -> Spot
    requires room { spot.start + length text.now ≤ unit_bytes }
    requires line { spot.line ≤ 2147483648 + spot.start }
    ensures value { result ≡ moved text.now spot }
    ensures line { result.line ≤ 2147483648 + result.start }
{
    Spot {
        start: spot.start + text.len() as u32,
        file: spot.file,
        line: spot.line + line_feeds(text),
    }
}

/// The number of a text, which is asked for in the pool.
fn asked(names: &mut NamePool, text: &[u8]) -> Result<NameId, Memory>
    ensures names { OnOk result (names.new ≡ interned names.old text.now) }
    ensures number { IfOk result (λ n. n ≡ id_of (interned names.old text.now) text.now) }
    ensures pool { Grows names.old names.new }
{
    names.intern(text)
}

impl Reader {
    /// A fault at the number of the next token, on the file and line.
    fn refused_at(&self, fault: Fault, file: NameId, line: u32) -> Stop
        requires few { length self.now.entries.items < 2 ^ 32 }
        ensures { result ≡ Stop.Refused (refusal_at self.now.unit (length self.now.entries.items) fault file line) }
    {
        Stop::Refused(Refusal {
            fault,
            at: Place {
                unit: self.unit,
                token: self.entries.len() as u32,
                file,
                line,
            },
            other: None,
        })
    }

    fn refused(&self, fault: Fault) -> Stop
        requires few { length self.now.entries.items < 2 ^ 32 }
        ensures { result ≡ Stop.Refused (refusal_at self.now.unit (length self.now.entries.items) fault self.now.spot.file self.now.spot.line) }
    {
        self.refused_at(fault, self.spot.file, self.spot.line)
    }

    /// A token that is no identifier, or whose number is known.
    fn push(&mut self, kind: TokenKind, text: &[u8]) -> Result<(), Memory>
        requires bounded { IsBounded self.old.limit self.old }
        requires room { self.old.spot.start + length text.now ≤ self.old.limit }
        requires some { 1 ≤ length text.now }
        ensures bounded { OnOk result (IsBounded self.old.limit self.new) }
        ensures unit { self.new.unit ≡ self.old.unit }
        ensures start { OnOk result (self.new.spot.start ≡ self.old.spot.start + length text.now) }
        ensures pushed { (names : List (List ℕ)) → OnOk result (reading_of self.new names ≡ with_token kind text.now (reading_of self.old names)) }
    {
        self.entries.push(Entry {
            token: Token {
                kind,
                start: self.spot.start,
                end: self.spot.start + text.len() as u32,
            },
            file: self.spot.file,
            line: self.spot.line,
        })?;
        self.spot = moved(text, self.spot);
        Ok(())
    }

    /// An identifier.
    fn push_name(&mut self, names: &mut NamePool, text: &[u8]) -> Result<(), Memory>
        requires bounded { IsBounded self.old.limit self.old }
        requires room { self.old.spot.start + length text.now ≤ self.old.limit }
        requires some { 1 ≤ length text.now }
        ensures bounded { OnOk result (IsBounded self.old.limit self.new) }
        ensures unit { self.new.unit ≡ self.old.unit }
        ensures start { OnOk result (self.new.spot.start ≡ self.old.spot.start + length text.now) }
        ensures pushed { OnOk result (reading_of self.new names.new ≡ with_name text.now (reading_of self.old names.old)) }
        ensures pool { Grows names.old names.new }
    {
        let number = asked(names, text)?;
        self.push(TokenKind::Name(number), text)
    }

    /// The word of an attribute.
    fn begin_attribute(&mut self, text: &[u8])
        requires bounded { IsBounded self.old.limit self.old }
        requires room { self.old.spot.start + length text.now ≤ self.old.limit }
        ensures bounded { IsBounded self.old.limit self.new }
        ensures unit { self.new.unit ≡ self.old.unit }
        ensures start { self.new.spot.start ≡ self.old.spot.start + length text.now }
        ensures begun { (names : List (List ℕ)) → reading_of self.new names ≡ with_attribute text.now (reading_of self.old names) }
    {
        self.attribute = Some(Attribute {
            file: self.spot.file,
            line: self.spot.line,
            shape: Shape::First,
            known: true,
        });
        self.brackets.clear();
        self.spot = moved(text, self.spot);
    }

    /// A piece outside attributes.
    #[tactic(auto, using(crate::proofs::Interning::grows_same))]
    fn outside(&mut self, names: &mut NamePool, meaning: Meaning, text: &[u8]) -> Result<(), Stop>
        requires bounded { IsBounded self.old.limit self.old }
        requires room { self.old.spot.start + length text.now ≤ self.old.limit }
        requires some { 1 ≤ length text.now }
        ensures bounded { OnOk result (IsBounded self.old.limit self.new) }
        ensures unit { self.new.unit ≡ self.old.unit }
        ensures start { OnOk result (self.new.spot.start ≡ self.old.spot.start + length text.now) }
        ensures follows { Follows result (reading_of self.new names.new) (outside_read text.now meaning (reading_of self.old names.old)) }
        ensures pool { Grows names.old names.new }
    {
        match meaning {
            Meaning::Token(kind) => self.push(kind, text)?,
            Meaning::Name => self.push_name(names, text)?,
            Meaning::Skipped => self.spot = moved(text, self.spot),
            Meaning::Attribute => self.begin_attribute(text),
            Meaning::Fault(fault) => return Err(self.refused(fault)),
        }
        Ok(())
    }

    /// A piece inside an attribute.
    fn inside(&mut self, kind: Kind, text: &[u8], attribute: Attribute) -> Result<(), Stop>
        requires bounded { IsBounded self.old.limit self.old }
        requires room { self.old.spot.start + length text.now ≤ self.old.limit }
        ensures bounded { OnOk result (IsBounded self.old.limit self.new) }
        ensures unit { self.new.unit ≡ self.old.unit }
        ensures start { OnOk result (self.new.spot.start ≡ self.old.spot.start + length text.now) }
        ensures follows { (names : List (List ℕ)) → Follows result (reading_of self.new names) (inside_read kind text.now attribute (reading_of self.old names)) }
    {
        match attribute.advanced(part_of_piece(kind, text), text, &mut self.brackets)? {
            Advance::On(next) => self.attribute = Some(next),
            Advance::Done(true) => self.attribute = None,
            Advance::Done(false) => {
                return Err(self.refused_at(
                    Fault::Excluded(Feature::Attribute),
                    attribute.file,
                    attribute.line,
                ));
            }
            Advance::Wrong => return Err(self.refused_at(
                Fault::Lexical,
                attribute.file,
                attribute.line,
            )),
        }
        self.spot = moved(text, self.spot);
        Ok(())
    }

    /// A line marker with the line and file that it gives.
    #[tactic(auto, using(crate::proofs::Interning::grows_same))]
    fn marker(
        &mut self,
        names: &mut NamePool,
        text: &[u8],
        line: u32,
        file: &[u8],
    ) -> Result<(), Stop>
        requires bounded { IsBounded self.old.limit self.old }
        requires room { self.old.spot.start + length text.now ≤ self.old.limit }
        requires line { line ≤ 2147483648 }
        ensures bounded { OnOk result (IsBounded self.old.limit self.new) }
        ensures unit { self.new.unit ≡ self.old.unit }
        ensures start { OnOk result (self.new.spot.start ≡ self.old.spot.start + length text.now) }
        ensures follows { Follows result (reading_of self.new names.new) (marker_read text.now line file.now (reading_of self.old names.old)) }
        ensures pool { Grows names.old names.new }
    {
        if !has_line_feed(text) {
            self.spot = moved(text, self.spot);
            return Ok(());
        }
        let file = asked(names, file)?;
        self.spot = Spot {
            start: self.spot.start + text.len() as u32,
            file,
            line,
        };
        Ok(())
    }

    /// A line that is wrong or excluded.
    fn line_refused(&self, fault: Fault) -> Stop
        requires few { length self.now.entries.items < 2 ^ 32 }
        ensures { (names : List (List ℕ)) → Refuses result (line_refused fault self.now.attribute (reading_of self.now names)) names }
    {
        match self.attribute {
            None => self.refused(fault),
            Some(attribute) => self.refused_at(Fault::Lexical, attribute.file, attribute.line),
        }
    }

    /// A line that begins with `#`.
    #[tactic(auto, using(crate::proofs::Interning::grows_same))]
    fn line(&mut self, names: &mut NamePool, text: &[u8]) -> Result<(), Stop>
        requires bounded { IsBounded self.old.limit self.old }
        requires room { self.old.spot.start + length text.now ≤ self.old.limit }
        requires some { 1 ≤ length text.now }
        ensures bounded { OnOk result (IsBounded self.old.limit self.new) }
        ensures unit { self.new.unit ≡ self.old.unit }
        ensures start { OnOk result (self.new.spot.start ≡ self.old.spot.start + length text.now) }
        ensures follows { Follows result (reading_of self.new names.new) (line_read text.now (line_of text.now) (reading_of self.old names.old)) }
        ensures pool { Grows names.old names.new }
    {
        match line_of(self.alloc, text)? {
            Directive::Marker(line, file) => self.marker(names, text, line, &file),
            Directive::Pragma => {
                self.spot = moved(text, self.spot);
                Ok(())
            }
            Directive::Pack => Err(self.line_refused(Fault::Excluded(Feature::Pack))),
            Directive::Bad => Err(self.line_refused(Fault::Lexical)),
        }
    }

    /// A piece that is no blank, comment or line.
    #[tactic(auto, using(crate::proofs::Interning::grows_same))]
    fn token(&mut self, names: &mut NamePool, kind: Kind, text: &[u8]) -> Result<(), Stop>
        requires bounded { IsBounded self.old.limit self.old }
        requires room { self.old.spot.start + length text.now ≤ self.old.limit }
        requires some { 1 ≤ length text.now }
        ensures bounded { OnOk result (IsBounded self.old.limit self.new) }
        ensures unit { self.new.unit ≡ self.old.unit }
        ensures start { OnOk result (self.new.spot.start ≡ self.old.spot.start + length text.now) }
        ensures follows { Follows result (reading_of self.new names.new) (token_read kind text.now self.old.attribute (reading_of self.old names.old)) }
        ensures pool { Grows names.old names.new }
    {
        match self.attribute {
            None => self.outside(names, meaning_of_piece(kind, text), text),
            Some(attribute) => self.inside(kind, text, attribute),
        }
    }

    /// A piece is read.
    #[tactic(auto, using(crate::proofs::Interning::grows_same))]
    pub fn piece(&mut self, names: &mut NamePool, kind: Kind, text: &[u8]) -> Result<(), Stop>
        requires bounded { IsBounded self.old.limit self.old }
        requires room { self.old.spot.start + length text.now ≤ self.old.limit }
        requires some { 1 ≤ length text.now }
        ensures bounded { OnOk result (IsBounded self.old.limit self.new) }
        ensures unit { self.new.unit ≡ self.old.unit }
        ensures start { OnOk result (self.new.spot.start ≡ self.old.spot.start + length text.now) }
        ensures follows { Follows result (reading_of self.new names.new) (piece_read kind text.now (reading_of self.old names.old)) }
        ensures pool { Grows names.old names.new }
    {
        match kind {
            Kind::Blank | Kind::LineEnd | Kind::Comment => {
                self.spot = moved(text, self.spot);
                Ok(())
            }
            Kind::Directive => self.line(names, text),
            _ => self.token(names, kind, text),
        }
    }

    /// At the unit's end no attribute may be open.
    pub fn end<'a>(self, source: &'a [u8]) -> Result<Tokens<'a>, Stop>
        requires bounded { IsBounded (length source.now) self }
        requires all { self.spot.start ≡ length source.now }
        ensures { (names : List (List ℕ)) → Gives result source.now self.unit names (ended self.attribute (reading_of self names)) }
    {
        if let Some(attribute) = self.attribute {
            return Err(self.refused_at(Fault::Lexical, attribute.file, attribute.line));
        }
        Ok(Tokens::new(source, self.unit, self.entries, self.spot))
    }
}
