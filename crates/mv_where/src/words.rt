//! What is said of a refusal, below its place.

use crate::advice::{Advice, LIMITS, REFUSALS, SIGNS, SYNTAX, VALUES, Wanted};
use crate::answer::Places;
use crate::blocks::bytes_of;
use crate::reading::{Reader, is_in, is_keyword, role_of};
use crate::refusal::{Refusal, Target};
use mv_lex::token::{Kind, Token};
use mv_values::memory::NoMemory;

/// The most bytes of a token that are told.
const SHOWN: usize = 40;

impl Places<'_> {
    /// Adds a line that says what a refusal means here.
    pub(crate) fn say(&mut self, refusal: Refusal<'_>) -> Result<(), NoMemory> {
        match (refusal.number, refusal.target) {
            (4, Target::Token(number)) => self.say_syntax(place_of(number)),
            (6 | 7, Target::Token(number)) => self.say_name(refusal.number, place_of(number)),
            (8, Target::Token(number)) => self.say_type(place_of(number)),
            (2 | 3, Target::Byte(at)) => self.say_byte(refusal.number, at as usize),
            (5, _) => self.say_limit(refusal.what),
            _ => self.say_number(refusal.number),
        }
    }

    /// Adds what is said of each refusal with this number.
    pub(crate) fn say_number(&mut self, number: u32) -> Result<(), NoMemory> {
        for (of, sentence) in REFUSALS {
            if *of == number {
                return self.add_line(sentence);
            }
        }
        Ok(())
    }

    fn say_limit(&mut self, what: &str) -> Result<(), NoMemory> {
        for (which, sentence) in LIMITS {
            if what.split(' ').nth(1) == Some(*which) {
                return self.add_line(sentence);
            }
        }
        Ok(())
    }

    fn say_byte(&mut self, number: u32, at: usize) -> Result<(), NoMemory> {
        let rest = &self.script[at.min(self.script.len())..];
        if number == 2 {
            if rest.starts_with(b"\xef\xbb\xbf") {
                return self.add_line("save the file without a byte order mark");
            }
            return self.say_number(2);
        }
        for (sign, sentence) in SIGNS {
            if rest.starts_with(sign.as_bytes()) {
                return self.add_line(sentence);
            }
        }
        Ok(())
    }

    /// Adds what could stand in place of a token, and what to write for what was meant.
    fn say_syntax(&mut self, place: usize) -> Result<(), NoMemory> {
        let (script, tokens) = (self.script, self.tokens);
        let Some(mut reader) = Reader::before(self.alloc, script, tokens, place)? else {
            return self.say_number(4);
        };
        if reader.read(tokens.get(place))?.is_some() {
            return self.say_number(4);
        }
        self.text.append(b"expected ")?;
        self.add_list(reader.wanted())?;
        self.text.append(b", found ")?;
        self.add_token(tokens.get(place))?;
        self.add_line_before(place)?;
        self.text.push(b'\n')?;
        for advice in SYNTAX {
            if is_for(script, tokens, place, reader.wanted(), *advice) {
                return self.add_line(advice.3);
            }
        }
        match tokens.get(place) {
            Some(token) if is_no_name(script, token, reader.wanted()) => {
                self.add_token(Some(token))?;
                self.add_line(" is a keyword, and no name: choose another")
            }
            _ => Ok(()),
        }
    }

    /// Adds that something may be missing before a token, if its line begins with it.
    fn add_line_before(&mut self, place: usize) -> Result<(), NoMemory> {
        let (Some(before), Some(token)) = (
            self.tokens.get(place.saturating_sub(1)),
            self.tokens.get(place),
        ) else {
            return Ok(());
        };
        let line = self.line_of(
            (before.at as usize)
                .saturating_add(before.len as usize)
                .saturating_sub(1),
        );
        if line >= self.line_of(token.at as usize) {
            return Ok(());
        }
        self.text.append(b", or something is missing after line ")?;
        self.add_number(line)
    }

    /// Adds what an unknown name or a double one would be the name of.
    fn say_name(&mut self, number: u32, place: usize) -> Result<(), NoMemory> {
        let Some(role) = role_of(self.alloc, self.script, self.tokens, place)? else {
            return self.say_number(number);
        };
        if let (6, "bare", Some(token)) = (number, role.symbol, self.tokens.get(place)) {
            for (words, sentence) in VALUES {
                if is_in(words, bytes_of(self.script, token)) {
                    return self.add_line(sentence);
                }
            }
        }
        match sentence_for(number, role.symbol) {
            Some(sentence) => self.add_line(sentence),
            None => self.say_number(number),
        }
    }

    /// Adds words as a list: `a, b or c`. A keyword or a sign stands in backquotes.
    fn add_list(&mut self, words: &[&'static str]) -> Result<(), NoMemory> {
        for (at, word) in words.iter().enumerate() {
            if at > 0 {
                let is_last = at.saturating_add(1) == words.len();
                self.text.append(if is_last { b" or " } else { b", " })?;
            }
            match word.as_bytes() {
                [b'a'..=b'z', ..] => self.text.append(word.as_bytes())?,
                bytes => self.add_quoted(bytes)?,
            }
        }
        Ok(())
    }

    pub(crate) fn add_quoted(&mut self, bytes: &[u8]) -> Result<(), NoMemory> {
        self.text.push(b'`')?;
        self.text.append(&bytes[..bytes.len().min(SHOWN)])?;
        self.text
            .append(if bytes.len() > SHOWN { b"..`" } else { b"`" })
    }

    fn add_token(&mut self, token: Option<&Token>) -> Result<(), NoMemory> {
        match token {
            None => self.text.append(b"the end"),
            Some(token) => match token.kind {
                Kind::Block | Kind::OpenBlock => self.text.append(b"a block"),
                _ => self.add_quoted(bytes_of(self.script, token)),
            },
        }
    }

    pub(crate) fn add_line(&mut self, line: &str) -> Result<(), NoMemory> {
        self.text.append(line.as_bytes())?;
        self.text.push(b'\n')
    }
}

/// Returns the place in a list of the token with this number, from 1.
fn place_of(number: u32) -> usize {
    (number as usize).saturating_sub(1)
}

/// Whether advice is for the token at a place, where these words are wanted.
fn is_for(
    script: &[u8],
    tokens: &[Token],
    place: usize,
    wanted: &[&'static str],
    advice: Advice,
) -> bool {
    let (after, found, want, _) = advice;
    let before = match place {
        0 => None,
        _ => tokens.get(place.saturating_sub(1)),
    };
    is_spelled(script, before, after)
        && is_spelled(script, tokens.get(place), found)
        && match want {
            Wanted::Anything => true,
            Wanted::Among(word) => wanted.iter().any(|other| *other == word),
            Wanted::Only(word) => wanted.len() == 1 && wanted.iter().any(|other| *other == word),
        }
}

/// Whether a token, or the end of the script, is one of these words or kinds. No words are any token.
fn is_spelled(script: &[u8], token: Option<&Token>, words: &str) -> bool {
    words.is_empty() || words.split(' ').any(|word| is_one(script, token, word))
}

fn is_one(script: &[u8], token: Option<&Token>, word: &str) -> bool {
    let Some(token) = token else {
        return word == "end";
    };
    let text = bytes_of(script, token);
    match word {
        "name" => token.kind == Kind::Word && !is_keyword(text),
        "number" => token.kind == Kind::Number,
        "text" => token.kind == Kind::Text,
        "variable" => token.kind == Kind::Variable,
        "end" => false,
        _ => word.as_bytes().eq_ignore_ascii_case(text),
    }
}

/// Whether a token is a keyword where a name is wanted.
fn is_no_name(script: &[u8], token: &Token, wanted: &[&'static str]) -> bool {
    token.kind == Kind::Word
        && is_keyword(bytes_of(script, token))
        && wanted.iter().any(|word| *word == "a table"
            || *word == "a procedure"
            || *word == "a column")
}

/// Returns what is said of an unknown name (6) or of a double one (7).
fn sentence_for(number: u32, symbol: &str) -> Option<&'static str> {
    match (number, symbol) {
        (6, "table" | "parent") => Some("no table has this name"),
        (6, "procedure") => Some("no procedure has this name"),
        (6, "column") => Some("its table has no column of this name"),
        (6, "field") => Some("the rows of this loop have no column of this name"),
        (6, "bare") => Some(
            "the SET of an UPDATE sees the columns of its table, and no other place sees any; a variable begins with a colon",
        ),
        (6, _) => Some(
            "no parameter and no declared variable has this name, and no loop around this place",
        ),
        (7, "table") => Some("an earlier table has this name"),
        (7, "procedure") => Some("an earlier procedure has this name"),
        (7, "column") => Some("this list has a column of this name already"),
        (7, _) => Some(
            "a parameter, a variable or a loop of this procedure has this name already, or it is :found, which each procedure has",
        ),
        _ => None,
    }
}
