// A line cut into its words.
ghost use Rattle.std.specs.Prelude.{◌≡◌, ◌≤◌, List, length};
ghost use Rattle.std.specs.List.{prefix_len};
ghost use Rattle.script.specs.declared.lex.Unread.TheVariants.{Memory};
ghost use Rattle.script.specs.declared.word.Word.{Word};
ghost use Rattle.script.specs.Lexed.{AllFit, Gives, Next, Reads, before_comment, gap, in_word, spelling_len, written_all};

use crate::word::{Word, word_of};
use std::alloc::{AllocFailed, Global};

// Why a line has no words: want of memory, or the first spelling that is no word.
#[derive(Clone, Copy)]
pub enum Unread {
    Memory,
    // the bytes of the line from a start to before an end: places, so that it outlives the line
    Unknown { start: usize, end: usize },
}

impl<T: Drop> From<AllocFailed<T>> for Unread {
    ghost from_gives = { λ _ r. r ≡ Memory };

    fn from(_refused: AllocFailed<T>) -> Unread {
        Unread::Memory
    }
}

// How many bytes stand before the comment of a line, if it has one. This and the next two are one
// expression of the library each, and a function that took the test would be as long.
fn uncommented_len(line: &[u8]) -> usize
    ensures value { result ≡ prefix_len before_comment line.now }
    ensures within { result ≤ length line.now }
{
    line.iter().take_while(|b| **b != b'#').count()
}

// How many spaces and tabs the text begins with.
fn gap_len(text: &[u8]) -> usize
    ensures value { result ≡ prefix_len gap text.now }
    ensures within { result ≤ length text.now }
{
    text.iter()
        .take_while(|b| matches!(b, b' ' | b'\t'))
        .count()
}

// How many bytes stand before the first gap or comma.
fn word_len(text: &[u8]) -> usize
    ensures value { result ≡ prefix_len in_word text.now }
    ensures within { result ≤ length text.now }
{
    text.iter()
        .take_while(|b| !matches!(b, b' ' | b'\t' | b','))
        .count()
}

// How long the spelling is that the text begins with.
fn spelling_len(text: &[u8]) -> usize
    ensures value { result ≡ spelling_len text.now }
    ensures within { result ≤ length text.now }
{
    match text {
        [b',', ..] => 1,
        _ => word_len(text),
    }
}

// The next spelling of a text, and what is left after it.
fn next_spelling(text: &[u8]) -> Option<(&[u8], &[u8])>
    ensures { Next text.now result }
{
    let (_, text) = text.split_at(gap_len(text));
    if text.is_empty() {
        return None;
    }
    Some(text.split_at(spelling_len(text)))
}

fn lexed_words(heap: Global, line: &[u8]) -> Result<Vec<Word>, Unread>
    ensures { Reads line.now result }
{
    let text = &line[..uncommented_len(line)];
    let mut rest = text;
    let mut words = Vec::new(heap);
    // No `for`: what is left tells where an unknown spelling stands, and an iterator would hide it.
    while let Some((spelling, after)) = next_spelling(rest) {
        let Some(word) = word_of(spelling) else {
            let end = text.len() - after.len();
            let start = end - spelling.len();
            return Err(Unread::Unknown { start, end });
        };
        words.push(word)?;
        rest = after;
    }
    Ok(words)
}

// The words of a line, or why it has none. Words that are written one after another are read back.
pub fn words(heap: Global, line: &[u8]) -> Result<Vec<Word>, Unread>
    ensures value { Reads line.now result }
    ensures inverse { (ws : List Word) → AllFit ws → line.now ≡ written_all ws → Gives ws result }
{
    lexed_words(heap, line)
}
