//! The words of a command line.

use crate::mix::Mix;
use mv_journal::line::number_of;
use mv_values::calls::Options;

/// Returns the number that a word is, if it isn't below the least and isn't above the most.
fn number(word: &str, least: u32, most: u32) -> Option<u32> {
    let number = number_of(word.as_bytes())?;
    if number < least || number > most {
        return None;
    }
    Some(number)
}

/// Returns the mix of a seed and a number of calls, without options: of 100 turns 50 are statements, one moves a call and
/// two collect. There are three rounds, and no horizon.
fn usual(seed: u32, calls: u32) -> Mix {
    Mix {
        seed,
        calls,
        steps: 50,
        moves: 1,
        collections: 2,
        options: Options {
            rounds: 3,
            horizon: None,
        },
    }
}

/// Returns the mix with this option. `None` if there is no such option, or if its value is out of its range.
fn with_option(mix: Mix, name: &str, value: &str) -> Option<Mix> {
    let mut mix = mix;
    match name {
        "--steps" => mix.steps = number(value, 0, 100)?,
        "--moves" => mix.moves = number(value, 0, 50)?,
        "--collections" => mix.collections = number(value, 0, 50)?,
        "--rounds" => mix.options.rounds = number(value, 0, 100)?,
        "--horizon" => mix.options.horizon = Some(number(value, 1, u32::MAX)?),
        _ => return None,
    }
    Some(mix)
}

/// Returns the mix that the words say: the seed, the number of calls, and pairs of an option and its value. The last value
/// of an option counts. `None` for other words.
pub(crate) fn mix_of(words: &[String]) -> Option<Mix> {
    let [seed, calls, options @ ..] = words else {
        return None;
    };
    let mut mix = usual(
        number(seed.as_str(), 0, u32::MAX)?,
        number(calls.as_str(), 1, 64)?,
    );
    for pair in options.chunks(2) {
        let [name, value] = pair else {
            return None;
        };
        mix = with_option(mix, name.as_str(), value.as_str())?;
    }
    Some(mix)
}
