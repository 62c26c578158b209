// What the arguments ask for.
ghost use Rattle.std.specs.Prelude.{◌≡◌};
ghost use Rattle.tipshare_run.specs.Run.{wish_of};

use crate::wording::{HELP_WORD, VERSION_WORD};
use std::env::{Env, FillError};

#[derive(Clone, Copy)]
pub enum Wish {
    Plan,
    Help,
    Version,
    Usage,
}

// By the number of arguments behind the program's name, of which `word` is the first.
fn wish_of(count: usize, word: &[u8]) -> Wish
    ensures { result ≡ wish_of count word.now }
{
    if count == 0 {
        return Wish::Plan;
    }
    if count != 1 {
        return Wish::Usage;
    }
    if word == HELP_WORD.as_slice() {
        return Wish::Help;
    }
    if word == VERSION_WORD.as_slice() {
        return Wish::Version;
    }
    Wish::Usage
}

// A word that is longer than both that are known is a wrong one too, and so are two.
pub fn asked<R: Env>(env: &R) -> Wish {
    let mut word = [0u8; 16];
    match env.arg(1, &mut word) {
        Err(FillError::NotPresent) => wish_of(0, b""),
        Err(FillError::TooLong) => wish_of(1, b""),
        Ok(size) => match env.arg(2, &mut []) {
            Err(FillError::NotPresent) => wish_of(1, &word[..size]),
            _ => wish_of(2, b""),
        },
    }
}
