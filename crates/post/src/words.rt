// words.rt - the words after the program's name: what they ask.
// Means: nothing; proved safe.
// Uses: forms.  Source: [K8].
use forms::Form;

// A conversion of a file of this form into the other, or the records of a file of this form told.
#[derive(Clone, Copy)]
pub enum Asked {
    Convert(Form),
    Show(Form),
}

impl Asked {
    // What the words ask, if it is something that there is.
    pub fn of(words: &[Vec<u8>]) -> Option<Asked> {
        match words {
            [word] => match word.as_slice() {
                b"two" => Some(Asked::Convert(Form::One)),
                b"one" => Some(Asked::Convert(Form::Two)),
                b"show" => Some(Asked::Show(Form::Two)),
                _ => None,
            },
            [word, form] => match (word.as_slice(), form.as_slice()) {
                (b"show", b"one") => Some(Asked::Show(Form::One)),
                (b"show", b"two") => Some(Asked::Show(Form::Two)),
                _ => None,
            },
            _ => None,
        }
    }
}
