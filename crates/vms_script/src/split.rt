// The first word of a line.
ghost use Rattle.std.specs.Prelude.{◌≡◌, option_copied};
ghost use Rattle.vms_script.specs.Words.{first_word};

/// The first word of a line, and the rest after the space that follows it.
#[derive(Clone, Copy)]
pub(crate) struct FirstWord<'a> {
    /// The first word.
    pub word: &'a [u8],
    /// The rest, if the line has a space.
    pub rest: Option<&'a [u8]>,
}

/// Splits `line` at its first space, if it has one.
pub(crate) fn split_word<'a>(line: &'a [u8]) -> FirstWord<'a>
    ensures word { result.word.now ≡ (first_word line.now).0 }
    ensures rest { option_copied result.rest ≡ (first_word line.now).1 }
{
    for (place, byte) in line.iter().enumerate() {
        if *byte == b' ' {
            return FirstWord {
                word: &line[..place],
                rest: Some(&line[place + 1..]),
            };
        }
    }
    FirstWord {
        word: line,
        rest: None,
    }
}
