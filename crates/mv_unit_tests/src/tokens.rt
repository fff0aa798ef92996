//! The tokens of short texts.

use mv_lex::lexer::{LexFault, lex};
use mv_lex::token::{Kind, Token};

const TOKENS: &[(&[u8], &[Token])] = &[
    (b"", &[]),
    (b" \t\r\n-- only a comment", &[]),
    (
        b"<= <> << \n",
        &[
            Token {
                kind: Kind::Symbol,
                at: 0,
                len: 2,
            },
            Token {
                kind: Kind::Symbol,
                at: 3,
                len: 2,
            },
            Token {
                kind: Kind::OpenBlock,
                at: 6,
                len: 4,
            },
        ],
    ),
    (
        b"a--b",
        &[Token {
            kind: Kind::Word,
            at: 0,
            len: 1,
        }],
    ),
    (
        b"a--b\n-1",
        &[
            Token {
                kind: Kind::Word,
                at: 0,
                len: 1,
            },
            Token {
                kind: Kind::Symbol,
                at: 5,
                len: 1,
            },
            Token {
                kind: Kind::Number,
                at: 6,
                len: 1,
            },
        ],
    ),
    (
        b"'it''s'",
        &[Token {
            kind: Kind::Text,
            at: 0,
            len: 7,
        }],
    ),
    (
        b":x_1 ",
        &[Token {
            kind: Kind::Variable,
            at: 0,
            len: 4,
        }],
    ),
    (
        b"12ab",
        &[
            Token {
                kind: Kind::Number,
                at: 0,
                len: 2,
            },
            Token {
                kind: Kind::Word,
                at: 2,
                len: 2,
            },
        ],
    ),
    (
        b"<",
        &[Token {
            kind: Kind::Symbol,
            at: 0,
            len: 1,
        }],
    ),
    (
        b"<<",
        &[Token {
            kind: Kind::OpenBlock,
            at: 0,
            len: 2,
        }],
    ),
    (
        b"||",
        &[Token {
            kind: Kind::Symbol,
            at: 0,
            len: 2,
        }],
    ),
    (
        b"<<\n>>",
        &[Token {
            kind: Kind::Block,
            at: 0,
            len: 5,
        }],
    ),
    (
        b"<<\n>>\r",
        &[Token {
            kind: Kind::OpenBlock,
            at: 0,
            len: 6,
        }],
    ),
    (
        b"<<\r\n1\n >>\n>>\r\n;",
        &[
            Token {
                kind: Kind::Block,
                at: 0,
                len: 14,
            },
            Token {
                kind: Kind::Symbol,
                at: 14,
                len: 1,
            },
        ],
    ),
    (
        b"<<\n>>>\n>>x",
        &[Token {
            kind: Kind::OpenBlock,
            at: 0,
            len: 10,
        }],
    ),
];

#[test]
fn tells_tokens(rt: HostRuntime) -> Result<(), LexFault> {
    for case in TOKENS {
        let (bytes, want) = *case;
        let tokens = lex(rt.alloc(), bytes)?;
        assert!(rt; tokens.as_slice() == want);
    }
    Ok(())
}
