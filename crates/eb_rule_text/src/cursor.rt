// A cursor over the tokens of a text, and the reading of one token.
ghost use Rattle.std.specs.Prelude.{◌≡◌, ◌<◌, [], true, if◌then◌else◌, length, drop, IfOk, OnOk};
ghost use Rattle.eb_rule_text.specs.Input as spec;
ghost use Rattle.eb_rule_text.specs.Input.{Reads};

use crate::errors::ReadError;
use crate::lexemes::Lexeme;
use crate::marks::Mark;
use eb_base::Text;
use std::alloc::Global;
use std::marker::Model;

/// The tokens from the next one on.
#[derive(Drop)]
pub struct Tokens<'a> {
    rest: &'a [Lexeme],
}

impl<'a> Model for Tokens<'a> {
    ghost use Rattle.std.specs.Prelude.{List};
    ghost use Rattle.std.specs.Coded.{coded_list};
    ghost use Rattle.eb_rule_text.specs.declared.lexemes.Lexeme.{Lexeme};
    ghost use Rattle.eb_rule_text.specs.contracts.lexemes.Lexeme as lexeme;

    ghost Value = { List Lexeme };

    ghost coded = { coded_list lexeme.the_row.coded };

    ghost view = { λ t. t.rest.now };
}

impl<'a> Tokens<'a> {
    /// A cursor before the first of these tokens.
    pub fn new(lexemes: &'a [Lexeme]) -> Tokens<'a>
        ensures { result ≡ lexemes.now }
    {
        Tokens { rest: lexemes }
    }

    /// How many tokens there are from the next one on.
    pub fn left(&self) -> usize
        ensures { result ≡ length self.now }
    {
        self.rest.len()
    }

    /// The tokens from the next one on.
    pub fn rest(&self) -> &'a [Lexeme]
        ensures { result.now ≡ self.now }
    {
        self.rest
    }

    /// Why no line of the grammar goes on with the next token.
    pub fn refuse(&self) -> ReadError
        ensures { result ≡ ReadError.Syntax (length self.now) }
    {
        ReadError::Syntax(self.left())
    }

    /// The reserved word or sign that comes next.
    pub fn mark(&self) -> Option<Mark>
        ensures { result ≡ spec.mark self.now }
    {
        match self.rest {
            [] => None,
            [Lexeme::Mark(mark), ..] => Some(*mark),
            [Lexeme::Name(_), ..] => None,
            [Lexeme::Underscored, ..] => None,
            [Lexeme::Int(_), ..] => None,
            [Lexeme::Fix(_), ..] => None,
        }
    }

    /// Goes past the next token.
    pub fn skip(&mut self)
        requires { 0 < length self.old }
        ensures { self.new ≡ drop 1 self.old }
    {
        self.rest = &self.rest[1..];
    }

    /// Whether this token comes next.
    #[tactic(auto, unfolding(crate::specs::Input::sees))]
    pub fn sees(&self, mark: Mark) -> bool
        ensures value { result ≡ spec.sees mark self.now }
        ensures some { result ≡ true → 0 < length self.now }
    {
        match self.mark() {
            None => false,
            Some(other) => same_mark(other, mark),
        }
    }

    /// Takes this token, or refuses the one that comes.
    #[tactic(auto, unfolding(crate::specs::Input::expect))]
    pub fn expect(&mut self, mark: Mark) -> Result<(), ReadError>
        ensures { Reads (spec.expect mark self.old) result self.new }
    {
        if !self.sees(mark) {
            return Err(self.refuse());
        }
        self.skip();
        Ok(())
    }

    /// Takes this token behind what was read, and answers what was read; or refuses the token that comes.
    pub fn close<T>(&mut self, read: T, mark: Mark) -> Result<T, ReadError>
    where
        T: Drop,
        ensures { Reads (spec.go_on (spec.expect mark self.old) (λ taken. spec.pure read)) result self.new }
    {
        self.expect(mark)?;
        Ok(read)
    }

    /// Takes this token, if it comes next, and answers whether it did.
    #[tactic(auto, unfolding(crate::specs::Input::eat))]
    pub fn eat(&mut self, mark: Mark) -> bool
        ensures { spec.eat mark self.old ≡ Ok (result, self.new) }
    {
        if !self.sees(mark) {
            return false;
        }
        self.skip();
        true
    }

    /// Takes a token that opens a level, where so many levels are left.
    #[tactic(auto, unfolding(crate::specs::Input::opens))]
    pub fn open(&mut self, depth: u8, mark: Mark) -> Result<(), ReadError>
        ensures value { Reads (spec.opens depth mark self.old) result self.new }
        ensures room { OnOk result (0 < depth) }
    {
        if depth == 0 {
            return Err(self.no_level(mark));
        }
        self.expect(mark)?;
        Ok(())
    }

    // Why no level can be opened where none is left.
    fn no_level(&self, mark: Mark) -> ReadError
        ensures { result ≡ (if spec.sees mark self.now then ReadError.Depth (length self.now) else ReadError.Syntax (length self.now)) }
    {
        if self.sees(mark) {
            ReadError::Depth(self.left())
        } else {
            self.refuse()
        }
    }

    /// Takes a name.
    #[tactic(auto, unfolding(crate::specs::Input::name))]
    pub fn name(&mut self, alloc: Global) -> Result<Text, ReadError>
        ensures { Reads (spec.name self.old) result self.new }
    {
        match self.rest {
            [Lexeme::Name(name), rest @ ..] => {
                let name = name.copy(alloc)?;
                self.rest = rest;
                Ok(name)
            }
            [Lexeme::Mark(_), ..] => Err(self.refuse()),
            [Lexeme::Underscored, ..] => Err(self.refuse()),
            [Lexeme::Int(_), ..] => Err(self.refuse()),
            [Lexeme::Fix(_), ..] => Err(self.refuse()),
            [] => Err(self.refuse()),
        }
    }

    /// Takes a name behind what was read, and answers both; or refuses the token that comes.
    pub fn name_behind<T>(&mut self, alloc: Global, read: T) -> Result<(T, Text), ReadError>
    where
        T: Drop,
        ensures value { Reads (spec.name self.old) (spec.behind result) self.new }
        ensures kept { IfOk result (λ both. both.0 ≡ read) }
    {
        let name = self.name(alloc)?;
        Ok((read, name))
    }

    /// Whether a name comes next.
    pub fn sees_name(&self) -> bool
        ensures { result ≡ spec.sees_name self.now }
    {
        match self.rest {
            [Lexeme::Name(_), ..] => true,
            [Lexeme::Mark(_), ..] => false,
            [Lexeme::Underscored, ..] => false,
            [Lexeme::Int(_), ..] => false,
            [Lexeme::Fix(_), ..] => false,
            [] => false,
        }
    }

    /// Takes a whole number.
    #[tactic(auto, unfolding(crate::specs::Input::int))]
    pub fn int(&mut self) -> Result<i64, ReadError>
        ensures { Reads (spec.int self.old) result self.new }
    {
        match self.rest {
            [Lexeme::Int(number), rest @ ..] => {
                self.rest = rest;
                Ok(*number)
            }
            [Lexeme::Mark(_), ..] => Err(self.refuse()),
            [Lexeme::Name(_), ..] => Err(self.refuse()),
            [Lexeme::Underscored, ..] => Err(self.refuse()),
            [Lexeme::Fix(_), ..] => Err(self.refuse()),
            [] => Err(self.refuse()),
        }
    }

    /// Refuses a token where none may come.
    #[tactic(auto, unfolding(crate::specs::Input::end))]
    pub fn end(&self) -> Result<(), ReadError>
        ensures value { Reads (spec.end self.now) result self.now }
        ensures none { OnOk result (self.now ≡ []) }
    {
        match self.rest {
            [] => Ok(()),
            [_, ..] => Err(self.refuse()),
        }
    }
}

fn same_mark(a: Mark, b: Mark) -> bool
    ensures { result ≡ spec.same_mark a b }
{
    a == b
}
