//! Precedence levels of operators.

ghost use Rattle.std.specs.Prelude.{◌≡◌};
ghost use Rattle.mv_parser.specs.Levels.{marks};

use mv_ast::lexeme::Terminal;

/// The levels of left-associative binary operators, loosest first.
#[derive(Clone, Copy)]
pub(crate) enum Level {
    Or,
    And,
    Sum,
    Term,
}

/// Returns the tokens that are operators of this level.
pub(crate) fn marks(level: Level) -> &'static [Terminal]
    ensures { result.now ≡ marks level }
{
    match level {
        Level::Or => &[Terminal::Or],
        Level::And => &[Terminal::And],
        Level::Sum => &[Terminal::Plus, Terminal::Minus, Terminal::Bars],
        Level::Term => &[Terminal::Star, Terminal::Slash, Terminal::Percent],
    }
}
