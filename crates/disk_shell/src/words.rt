ghost use Rattle.std.specs.Prelude.{◌≡◌, Some};

/// The words of a line that are still to be read, and the text behind them.
#[derive(Drop)]
pub struct Words<'a> {
    rest: Option<&'a str>,
}

impl<'a> Words<'a> {
    ghost use Rattle.disk_shell.specs.Words.{bytes_in, left};

    /// The words of the line.
    pub fn new(line: &'a str) -> Words<'a>
        ensures { left result ≡ Some line.now }
    {
        Words { rest: Some(line) }
    }

    /// What is left of the line, behind a blank.
    pub fn text(&self) -> Option<&'a str>
        ensures { bytes_in result ≡ left self.now }
    {
        self.rest
    }
}

/// Each word ends at a blank or at the line's end.
impl<'a> Iterator for Words<'a> {
    ghost use Rattle.disk_shell.specs.Words.{bytes_in, left, word_of, rest_of};

    type Item = &'a str;

    ghost next_gives = { λ old word new. (bytes_in word ≡ word_of (left old)) × (left new ≡ rest_of (left old)) };

    fn next(&mut self) -> Option<&'a str> {
        let line = self.rest?;
        match line.split_once(' ') {
            Some((word, rest)) => {
                self.rest = Some(rest);
                Some(word)
            }
            None => {
                self.rest = None;
                Some(line)
            }
        }
    }
}
