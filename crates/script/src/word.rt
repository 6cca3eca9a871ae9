// One word of a line: a keyword, a comma or a number, from the bytes that spell it.
ghost use Rattle.std.specs.Prelude.{◌≡◌, Some};
ghost use Rattle.script.specs.declared.word.Word.{Word};
ghost use Rattle.script.specs.Words.{Fit, numeral_of, word_of, written};

use crate::keyword::{Keyword, keyword_of};

#[derive(Clone, Copy, PartialEq, Eq, Debug)]
pub enum Word {
    Key(Keyword),
    Comma,
    // written without a sign
    Number(u32),
    // written with a `-`
    Negative(i32),
}

// The number that is written so: `parse` would also take one with a `+`.
fn numeral(bytes: &[u8]) -> Option<Word>
    ensures { result ≡ numeral_of bytes.now }
{
    let text = str::from_utf8(bytes).ok()?;
    match bytes {
        [b'+', ..] => None,
        [b'-', ..] => text.parse().ok().map(Word::Negative),
        _ => text.parse().ok().map(Word::Number),
    }
}

fn spelled_word(bytes: &[u8]) -> Option<Word>
    ensures { result ≡ word_of bytes.now }
{
    if let [b','] = bytes {
        return Some(Word::Comma);
    }
    match keyword_of(bytes) {
        Some(keyword) => Some(Word::Key(keyword)),
        None => numeral(bytes),
    }
}

// The word that is spelled so. Every word is read back from what is written of it.
pub fn word_of(bytes: &[u8]) -> Option<Word>
    ensures value { result ≡ word_of bytes.now }
    ensures inverse { (w : Word) → Fit w → bytes.now ≡ written w → result ≡ Some w }
{
    spelled_word(bytes)
}
