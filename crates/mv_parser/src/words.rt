//! Keywords and symbols.

ghost use Rattle.std.specs.Prelude.{◌≡◌};
ghost use Rattle.mv_ast.specs.Lexemes.{keywords, symbols, listed};
ghost use Rattle.mv_ast.specs.Texts.{lower};
ghost use Rattle.mv_parser.specs.Words.{table, Serves};
ghost use Rattle.mv_ast.specs.declared.lexeme.Terminal.TheVariants as word;

use mv_ast::lexeme::Terminal;

/// Returns the terminal of a symbol.
#[tactic(auto, unfolding(mv_ast::specs::Lexemes::symbols, mv_ast::specs::Lexemes::listed))]
pub(crate) fn symbol_kind(text: &[u8]) -> Terminal
    ensures { result ≡ listed symbols word.Bars text.now }
{
    match text {
        b"(" => Terminal::Open,
        b")" => Terminal::Close,
        b"," => Terminal::Comma,
        b";" => Terminal::Semicolon,
        b"." => Terminal::Dot,
        b"=" => Terminal::Equal,
        b"<>" => Terminal::NotEqual,
        b"<" => Terminal::Less,
        b"<=" => Terminal::LessOrEqual,
        b">" => Terminal::Greater,
        b">=" => Terminal::GreaterOrEqual,
        b"+" => Terminal::Plus,
        b"-" => Terminal::Minus,
        b"*" => Terminal::Star,
        b"/" => Terminal::Slash,
        b"%" => Terminal::Percent,
        _ => Terminal::Bars,
    }
}

/// Returns the terminal of a word: a keyword, in any letter case, or a name.
#[tactic(auto, using(crate::proofs::Keywords::by_first, crate::proofs::Keywords::no_word))]
pub(crate) fn word_kind(text: &[u8]) -> Terminal
    ensures { result ≡ listed keywords word.Name (lower text.now) }
{
    match text {
        [first, ..] => named(text, keywords_with(first.to_ascii_lowercase())),
        [] => Terminal::Name,
    }
}

/// Looks the text up in a table of words, in any letter case. Returns a name if it isn't there.
fn named(text: &[u8], words: &[(&[u8], Terminal)]) -> Terminal
    ensures { result ≡ listed (table words.now) word.Name (lower text.now) }
{
    for (word, kind) in words {
        if word.eq_ignore_ascii_case(text) {
            return *kind;
        }
    }
    Terminal::Name
}

/// Returns the keywords that begin with this letter.
#[tactic(auto, unfolding(mv_ast::specs::Lexemes::keywords, mv_ast::specs::Lexemes::listed))]
fn keywords_with(first: u8) -> &'static [(&'static [u8], Terminal)]
    ensures { Serves first (table result.now) }
{
    match first {
        b'a' => &[(b"and", Terminal::And), (b"asc", Terminal::Asc)],
        b'b' => &[(b"begin", Terminal::Begin), (b"by", Terminal::By)],
        b'c' => &[
            (b"call", Terminal::Call),
            (b"contains", Terminal::Contains),
            (b"copy", Terminal::Copy),
            (b"count", Terminal::Count),
            (b"create", Terminal::Create),
        ],
        b'd' => &[
            (b"declare", Terminal::Declare),
            (b"delete", Terminal::Delete),
            (b"desc", Terminal::Desc),
            (b"distinct", Terminal::Distinct),
            (b"do", Terminal::Do),
        ],
        b'e' => &[(b"else", Terminal::Else), (b"end", Terminal::End)],
        b'f' => &[(b"for", Terminal::For), (b"from", Terminal::From)],
        b'i' => &[
            (b"if", Terminal::If),
            (b"in", Terminal::In),
            (b"index", Terminal::Index),
            (b"insert", Terminal::Insert),
            (b"int", Terminal::Int),
            (b"into", Terminal::Into),
        ],
        b'j' => &[(b"journal", Terminal::Journal)],
        b'k' => &[(b"key", Terminal::Key)],
        b'l' => &[(b"left", Terminal::Left)],
        b'm' => &[(b"max", Terminal::Max), (b"min", Terminal::Min)],
        b'n' => &[(b"not", Terminal::Not)],
        b'o' => &[
            (b"offset", Terminal::Offset),
            (b"only", Terminal::Only),
            (b"or", Terminal::Or),
            (b"order", Terminal::Order),
        ],
        b'p' => &[
            (b"primary", Terminal::Primary),
            (b"print", Terminal::Print),
            (b"procedure", Terminal::Procedure),
        ],
        b'r' => &[
            (b"read", Terminal::Read),
            (b"references", Terminal::References),
            (b"rollback", Terminal::Rollback),
            (b"rows", Terminal::Rows),
        ],
        b's' => &[
            (b"select", Terminal::Select),
            (b"set", Terminal::Set),
            (b"sum", Terminal::Sum),
        ],
        b't' => &[
            (b"table", Terminal::Table),
            (b"text", Terminal::Text),
            (b"textof", Terminal::TextOf),
            (b"then", Terminal::Then),
        ],
        b'u' => &[(b"update", Terminal::Update)],
        b'v' => &[(b"values", Terminal::Values)],
        b'w' => &[(b"where", Terminal::Where)],
        _ => &[],
    }
}
