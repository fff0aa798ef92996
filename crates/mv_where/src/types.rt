//! Which cause a wrong type has, where the text alone tells it.

use crate::answer::Places;
use crate::blocks::{bytes_of, is_word};
use crate::grammar::{COMPARISONS, OPERATORS};
use crate::reading::{Role, is_in, item_start, role_of};
use mv_lex::token::{Kind, Token};
use mv_values::memory::NoMemory;

impl Places<'_> {
    /// Adds why a token has a wrong type.
    pub(crate) fn say_type(&mut self, place: usize) -> Result<(), NoMemory> {
        let (Some(role), Some(token)) = (
            role_of(self.alloc, self.script, self.tokens, place)?,
            self.tokens.get(place),
        ) else {
            return self.say_number(8);
        };
        match (role.symbol, role.part) {
            ("(", "row") => self.add_line(
                "the number of values of this row isn't that of the columns of its table or parameter",
            ),
            ("procedure", _) => self.add_line(
                "this CALL gives no arguments, and its procedure takes some",
            ),
            ("column", _) => self.add_line("SUM adds numbers, and this column has texts"),
            ("parent", _) => self.add_line(
                "the key of a parent table is one column, and of the type of the column that refers to it",
            ),
            ("looped", _) => self.add_line(
                "a FOR goes over a SELECT or over a ROWS parameter, and this is neither",
            ),
            ("target", _) => self.say_target(place),
            (_, "literal" | "argument") => self.say_literal(place, token),
            _ => self.say_value(place, token, role),
        }
    }

    /// Adds why a target of SET or INTO is none.
    fn say_target(&mut self, place: usize) -> Result<(), NoMemory> {
        if !self.is_declared(place) {
            return self.add_line(
                "a declared variable gets values, and this is a parameter, a loop or :found",
            );
        }
        if self.is_before(place, b"into") {
            let columns = commas_back(self.script, self.before(place)).saturating_add(1);
            let targets = commas(self.script, self.from(place)).saturating_add(1);
            if columns != targets {
                return self.say_counts("columns", columns, "targets", targets);
            }
        }
        self.add_line("this variable has another type than the value that it gets")
    }

    /// Adds why a literal or rows don't fit.
    fn say_literal(&mut self, place: usize, token: &Token) -> Result<(), NoMemory> {
        let of_call = self.item_word_is(place, b"call") && self.depth(place) == 1;
        if of_call && self.is_before(place, b"(") {
            let given = commas(self.script, self.from(place)).saturating_add(1);
            if let Some(taken) = self.parameters_of_call(place) {
                if taken != given {
                    return self.say_counts("arguments", given, "parameters", taken);
                }
            }
        }
        match (token.kind, of_call) {
            (Kind::Text, false) => self.say_text(
                token,
                ", and its column takes numbers or shorter texts",
            ),
            (Kind::Text, true) => self.say_text(
                token,
                ", and its parameter takes numbers, rows or shorter texts",
            ),
            (Kind::Word, _) => self.add_line("these are rows, and their parameter takes one value"),
            (_, false) => self.add_line("this is a number, and its column takes texts"),
            (_, true) => self.add_line("this is a number, and its parameter takes texts or rows"),
        }
    }

    /// Adds how long a text is, and what it was to be.
    fn say_text(&mut self, token: &Token, what: &str) -> Result<(), NoMemory> {
        let quotes = bytes_of(self.script, token)
            .iter()
            .filter(|byte| **byte == b'\'')
            .count();
        let doubled = quotes.saturating_sub(2) / 2;
        self.text.append(b"this is a text of length ")?;
        self.add_number(
            (token.len as usize)
                .saturating_sub(doubled)
                .saturating_sub(2),
        )?;
        self.add_line(what)
    }

    /// Adds why an expression that begins here doesn't fit.
    fn say_value(&mut self, place: usize, token: &Token, role: Role) -> Result<(), NoMemory> {
        let script = self.script;
        let before = self.spelled(place.checked_sub(1));
        let after = self.spelled(place.checked_add(1));
        let alone = !is_in(OPERATORS, after) && after != b".".as_slice();
        let is_one = self.is_one_value(place);
        let kind = self.held(place, token.kind);
        match (role.symbol, kind) {
            ("read", _) if is_one && after == b".".as_slice() => return self.add_line(
                "this is no loop, so it has no columns",
            ),
            ("read", _) if !is_one && after != b".".as_slice() => return self.add_line(
                "this is a loop or a ROWS parameter: name a column of its rows, as :r.id",
            ),
            (_, Kind::Text) if is_sign(before) || is_sign(after) => return self.add_line(
                "+, -, *, / and % take numbers, and this is a text: || joins texts",
            ),
            (_, Kind::Number) if before == b"||".as_slice() || after == b"||".as_slice() =>
                return self.add_line(
                    "|| joins texts, and this is a number: TEXTOF makes a text of one",
                ),
            _ => {}
        }
        let is_short = alone && is_in("number text read bare", role.symbol.as_bytes());
        if is_short && is_in("IF OFFSET", before) {
            return self.add_line("a condition and an OFFSET are numbers, and this is a text");
        }
        if self.is_before(place, b"(") && self.is_insert(place) {
            let values = commas(script, self.from(place)).saturating_add(1);
            if let Some(columns) = self.columns_of_insert(place) {
                if columns != values {
                    return self.say_counts("values", values, "columns", columns);
                }
            }
        }
        if is_short && is_in(COMPARISONS, before) {
            let role = role_of(self.alloc, script, self.tokens, place.saturating_sub(1))?;
            return self.add_line(match role {
                Some(role) if role.symbol == "comparison" =>
                    "the two sides of this comparison have different types",
                _ => "this value has another type than what it is given to",
            });
        }
        self.say_number(8)
    }

    /// Adds that two numbers differ.
    fn say_counts(
        &mut self,
        what: &str,
        number: usize,
        other: &str,
        others: usize,
    ) -> Result<(), NoMemory> {
        self.text.append(b"the number of ")?;
        self.text.append(what.as_bytes())?;
        self.text.append(b" is ")?;
        self.add_number(number)?;
        self.text.append(b", and that of ")?;
        self.text.append(other.as_bytes())?;
        self.text.append(b" ")?;
        self.add_number(others)?;
        self.text.push(b'\n')
    }

    fn before(&self, place: usize) -> &[Token] {
        &self.tokens[..place.min(self.tokens.len())]
    }

    fn from(&self, place: usize) -> &[Token] {
        &self.tokens[place.min(self.tokens.len())..]
    }

    /// Returns the bytes of the token at a place, or none if there is no such token.
    fn spelled(&self, place: Option<usize>) -> &[u8] {
        match place {
            Some(place) => match self.tokens.get(place) {
                Some(token) => bytes_of(self.script, token),
                None => b"",
            },
            None => b"",
        }
    }

    /// Whether the token before a place is this word or sign.
    fn is_before(&self, place: usize, word: &[u8]) -> bool {
        self.spelled(place.checked_sub(1))
            .eq_ignore_ascii_case(word)
    }

    /// Returns the tokens of the item that holds a place.
    fn item(&self, place: usize) -> &[Token] {
        let begin = item_start(self.script, self.before(place));
        self.from(begin)
    }

    fn item_word_is(&self, place: usize, word: &[u8]) -> bool {
        match self.item(place) {
            [first, ..] => is_word(self.script, first, word),
            [] => false,
        }
    }

    /// Returns how many brackets of its item are open before a place.
    fn depth(&self, place: usize) -> usize {
        let begin = item_start(self.script, self.before(place));
        let mut depth = 0usize;
        for token in self.before(place).iter().skip(begin) {
            match bytes_of(self.script, token) {
                b"(" => depth = depth.saturating_add(1),
                b")" => depth = depth.saturating_sub(1),
                _ => {}
            }
        }
        depth
    }

    /// Whether the procedure that holds a place has this token after one of these words, or with one of these after it.
    fn has(&self, place: usize, before: &str, after: &str) -> bool {
        let name = self.spelled(Some(place));
        let mut last: &[u8] = b"";
        let mut was = false;
        for token in self.item(place) {
            let text = bytes_of(self.script, token);
            if was && is_in(after, text) {
                return true;
            }
            was = token.kind == Kind::Variable && text.eq_ignore_ascii_case(name);
            if was && is_in(before, last) {
                return true;
            }
            if text.eq_ignore_ascii_case(b"begin") {
                return false;
            }
            last = text;
        }
        false
    }

    fn is_declared(&self, place: usize) -> bool {
        self.has(place, "DECLARE", "")
    }

    /// Whether the variable at a place is a parameter of one value, a declared variable or `:found`.
    fn is_one_value(&self, place: usize) -> bool {
        self.spelled(Some(place)).eq_ignore_ascii_case(b":found")
            || self.has(place, "DECLARE", "INT TEXT")
    }

    /// Returns the kind of the literals of a variable's type, where the procedure that holds its place tells it. Returns
    /// the kind of any other token as it is.
    fn held(&self, place: usize, kind: Kind) -> Kind {
        if kind != Kind::Variable {
            return kind;
        }
        let name = self.spelled(Some(place));
        let item = self.item(place);
        for at in 0..item.len() {
            match &item[at..] {
                [variable, word, ..]
                    if self.is_named(variable, name) && is_word(self.script, word, b"text") =>
                    return Kind::Text,
                [variable, word, ..]
                    if self.is_named(variable, name) && is_word(self.script, word, b"int") =>
                    return Kind::Number,
                [declare, variable, _, value, ..]
                    if is_word(self.script, declare, b"declare") && self.is_named(variable, name) =>
                    return match value.kind {
                        Kind::Text => Kind::Text,
                        _ => Kind::Number,
                    },
                _ => {}
            }
        }
        kind
    }

    fn is_named(&self, token: &Token, name: &[u8]) -> bool {
        bytes_of(self.script, token).eq_ignore_ascii_case(name)
    }

    /// Whether the values of an INSERT begin at a place.
    fn is_insert(&self, place: usize) -> bool {
        match self.before(place) {
            [.., insert, _, _, _, _] => is_word(self.script, insert, b"insert"),
            _ => false,
        }
    }

    /// Returns how many columns the table of an INSERT has whose values begin at a place.
    fn columns_of_insert(&self, place: usize) -> Option<usize> {
        let name = self.spelled(place.checked_sub(3));
        let head = self.head_of(b"table", name)?;
        Some(commas(
            self.script,
            head.split(|token| is_word(self.script, token, b"primary"))
                .next()?,
        ))
    }

    /// Returns how many parameters the procedure of a CALL has whose arguments begin at a place.
    fn parameters_of_call(&self, place: usize) -> Option<usize> {
        let name = self.spelled(place.checked_sub(2));
        let mut depth = 1usize;
        let mut count = 0usize;
        for token in self.head_of(b"procedure", name)? {
            match bytes_of(self.script, token) {
                b"(" => depth = depth.saturating_add(1),
                b")" => depth = depth.saturating_sub(1),
                _ => {}
            }
            if depth == 0 {
                return Some(count);
            }
            if token.kind == Kind::Variable {
                count = count.saturating_add(1);
            }
        }
        None
    }

    /// Returns the tokens after the `(` of the table or procedure with this name.
    fn head_of(&self, kind: &[u8], name: &[u8]) -> Option<&[Token]> {
        for at in 0..self.tokens.len() {
            match &self.tokens[at..] {
                [create, word, named, _, head @ ..]
                    if is_word(self.script, create, b"create")
                        && is_word(self.script, word, kind)
                        && is_word(self.script, named, name) => return Some(head),
                _ => {}
            }
        }
        None
    }
}

fn is_sign(text: &[u8]) -> bool {
    is_in(OPERATORS, text) && text != b"||".as_slice()
}

/// Returns how many commas outside of brackets come before the bracket that closes, or before the end of the list, the
/// statement or its INTO.
fn commas(script: &[u8], tokens: &[Token]) -> usize {
    let mut depth = 0usize;
    let mut count = 0usize;
    for token in tokens {
        match bytes_of(script, token) {
            b"(" => depth = depth.saturating_add(1),
            b")" => match depth.checked_sub(1) {
                Some(less) => depth = less,
                None => return count,
            },
            b"," if depth == 0 => count = count.saturating_add(1),
            b";" => return count,
            text if text.eq_ignore_ascii_case(b"from") => return count,
            _ => {}
        }
    }
    count
}

/// Returns how many commas come after the last SELECT.
fn commas_back(script: &[u8], tokens: &[Token]) -> usize {
    tokens
        .iter()
        .rev()
        .take_while(|token| !is_word(script, token, b"select"))
        .filter(|token| bytes_of(script, token) == b",".as_slice())
        .count()
}
