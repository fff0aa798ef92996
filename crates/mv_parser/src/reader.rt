//! The input of the parser.

ghost use Rattle.std.specs.Prelude.{IsTrue};
ghost use Rattle.std.specs.List.{list_all};
ghost use Rattle.mv_parser.specs.Fitting.{fits};

use mv_ast::lexeme::Lexeme;
use std::alloc::Global;

/// The tokens of a script, and how many levels of expressions and statements may still be nested.
#[derive(Drop)]
pub(crate) struct Reader<'a> {
    pub(crate) alloc: Global,
    pub(crate) bytes: &'a [u8],
    pub(crate) lexemes: &'a [Lexeme],
    pub(crate) depth: usize,
    ghost fitting: { IsTrue (list_all (fits bytes.now) lexemes.now) },
}
