// A text, line by line.
ghost use Rattle.std.specs.Prelude.{◌≡◌, ◌≤◌, length};
ghost use Rattle.std.specs.Iterator.{at_most};
ghost use Rattle.std.specs.List.{prefix_len};
ghost use Rattle.console.specs.Texts.{NextLine, in_line};

// How many bytes the first line has, without its line feed.
pub fn line_len(text: &[u8]) -> usize
    ensures value { result ≡ prefix_len in_line text.now }
    ensures bound { result ≤ length text.now }
{
    text.iter().take_while(|b| **b != b'\n').count()
}

// A line of a text, without its line feed.
#[derive(Clone, Copy)]
pub struct Line<'a> {
    pub number: usize,
    pub bytes: &'a [u8],
}

// The lines that are left of a text, and the number of the first. A copy goes on from the same line.
#[derive(Clone, Copy)]
pub struct Lines<'a> {
    number: usize,
    text: &'a [u8],
}

impl<'a> Lines<'a> {
    // All lines of a text.
    pub fn of(text: &'a [u8]) -> Lines<'a>
        ensures first { result.number ≡ 1 }
        ensures all { result.text.now ≡ text.now }
    {
        Lines { number: 1, text }
    }
}

impl<'a> Iterator for Lines<'a> {
    type Item = Line<'a>;

    ghost next_gives = { NextLine };

    ghost remaining = { λ lines. at_most (length lines.text.now) };

    fn next(&mut self) -> Option<Line<'a>> {
        if self.text.is_empty() {
            return None;
        }
        let (bytes, after) = self.text.split_at(line_len(self.text));
        let line = Line {
            number: self.number,
            bytes,
        };
        self.number = self.number.saturating_add(1);
        self.text = match after {
            [_, rest @ ..] => rest,
            [] => after,
        };
        Some(line)
    }
}
