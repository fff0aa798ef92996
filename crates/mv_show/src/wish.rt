//! What the words of the command line ask for.

use std::env;

/// What the words after the program's name ask for.
#[derive(Drop)]
pub struct Wish {
    pub figures: bool,
    pub script: Option<String>,
}

/// Returns what is asked for. `None` if the words are others, or one isn't UTF-8.
pub fn read_words(rt: &HostRuntime) -> Option<Wish> {
    let mut words = env::args(rt).ok()?.skip(1);
    let first = words.next();
    let figures = match &first {
        Some(word) => word.as_str() == "figures",
        None => false,
    };
    let script = if figures { words.next() } else { first };
    match words.next() {
        None => Some(Wish { figures, script }),
        Some(_) => None,
    }
}
