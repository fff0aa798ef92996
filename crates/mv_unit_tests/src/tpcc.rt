//! Scripts of TPC-C. Their lengths and checksums are those of another generator of the same rules, in another language.

use crate::cases::ensure_at;
use crate::parsing::read;
use mv_cases::ensure::ensure;
use mv_lex::lexer::lex;
use mv_lex::token::{Kind, Token};
use mv_print::print::print_script;
use mv_tpccgen::load::Load;
use mv_tpccgen::workload::workload;
use mv_values::list::List;
use rand_core::{Rng, SeedableRng};
use rand_xoshiro::SplitMix64;
use std::alloc::Global;
use std::test::Fail;

/// Returns the checksum FNV-1a of 64 bits.
fn checksum(text: &[u8]) -> u64 {
    let mut sum: u64 = 14695981039346656037;
    for byte in text {
        sum = (sum ^ u64::from(*byte)).wrapping_mul(1099511628211);
    }
    sum
}

/// The warehouses, the calls and the seed of a load.
type Size = [u32; 3];

/// Returns the script of a load.
fn script_of(alloc: Global, size: Size) -> Result<List<u8>, Fail> {
    let [warehouses, calls, seed] = size;
    if 1 <= warehouses && warehouses <= 16 && calls <= 40000 {
        let load = Load {
            warehouses,
            calls,
            seed,
        };
        return Ok(workload(alloc, &load)?);
    }
    Err("no load".into())
}

#[test]
fn the_first_word_of_seed_0_is_that_of_splitmix(rt: HostRuntime) -> Result<(), Fail> {
    let word = SplitMix64::from_seed([0; 8]).next_u64();
    ensure(rt.alloc(), word == 16294208416658607535, "another word")
}

/// Loads, with the length and the checksum of the script of each.
const SCRIPTS: &[(Size, usize, u64)] = &[
    ([1, 0, 1], 166098, 11195466886804463731),
    ([1, 200, 1], 186083, 15529427947088743055),
    ([2, 50, 0], 306356, 3231245174657665368),
    ([16, 20, 4294967295], 2255567, 15295057820516949230),
];

#[test]
fn scripts_are_as_wanted(rt: HostRuntime) -> Result<(), Fail> {
    for (i, (size, len, sum)) in SCRIPTS.iter().enumerate() {
        let text = script_of(rt.alloc(), *size)?;
        let holds = text.len() == *len && checksum(text.as_slice()) == *sum;
        ensure_at(rt.alloc(), holds, i)?;
    }
    Ok(())
}

/// Returns the print of a script.
fn print_of(alloc: Global, script: &[u8]) -> Result<List<u8>, Fail> {
    let text = str::from_utf8(script).or(Err("no text"))?;
    let Ok(tree) = read(alloc, text)? else {
        return Err("no script".into());
    };
    Ok(print_script(alloc, &tree, text.as_bytes())?)
}

fn tokens_of(alloc: Global, script: &[u8]) -> Result<List<Token>, Fail> {
    if script.len() > 1 << 24 {
        return Err("too long".into());
    }
    Ok(lex(alloc, script).or(Err("no tokens"))?)
}

/// Returns the kind and the bytes of a token.
fn spelled<'s>(script: &'s [u8], token: &Token) -> (Kind, &'s [u8]) {
    let at = token.at as usize;
    let bytes = script.get(at..at + token.len as usize);
    (token.kind, bytes.unwrap_or(&[]))
}

/// Whether two tokens are the same. The case of letters counts in texts and blocks alone.
fn is_same(one: (Kind, &[u8]), other: (Kind, &[u8])) -> bool {
    let same = match one.0 {
        Kind::Word | Kind::Variable => one.1.eq_ignore_ascii_case(other.1),
        _ => one.1 == other.1,
    };
    one.0 == other.0 && same
}

/// Checks that two scripts have the same tokens.
fn have_same_tokens(alloc: Global, one: &[u8], other: &[u8]) -> Result<(), Fail> {
    let mine = tokens_of(alloc, one)?;
    let theirs = tokens_of(alloc, other)?;
    ensure(alloc, mine.len() == theirs.len(), "more or fewer tokens")?;
    for (mine, theirs) in mine.as_slice().iter().zip(theirs.as_slice()) {
        let same = is_same(spelled(one, mine), spelled(other, theirs));
        ensure(alloc, same, "another token")?;
    }
    Ok(())
}

/// Checks that the print of a script has its tokens, and that it is its own print.
fn prints(alloc: Global, script: &[u8]) -> Result<(), Fail> {
    let print = print_of(alloc, script)?;
    have_same_tokens(alloc, script, print.as_slice())?;
    let again = print_of(alloc, print.as_slice())?;
    let holds = again.as_slice() == print.as_slice();
    ensure(alloc, holds, "another print of the print")
}

/// Loads whose scripts are printed. The built program writes these prints.
const PRINTED: &[Size] = &[[1, 200, 1], [2, 50, 0]];

#[test]
fn scripts_are_printed(rt: HostRuntime) -> Result<(), Fail> {
    for size in PRINTED {
        let script = script_of(rt.alloc(), *size)?;
        prints(rt.alloc(), script.as_slice())?;
    }
    Ok(())
}
