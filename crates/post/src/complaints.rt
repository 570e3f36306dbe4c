// complaints.rt - why nothing was converted or told.
// Means: nothing; proved safe.
// Uses: forms, back.  Source: [K8].
use crate::back::{Way, way_of};
use forms::Form;
use std::alloc::AllocError;
use std::fmt::{Display, Formatter};
use std::{fmt, io};

// What the words ask is nothing that there is; the input, or what it is converted into, has more bytes than so many; not all could be
// written; a record is not well shaped. Or reading or writing failed.
#[derive(Drop)]
pub enum Complaint {
    Usage,
    TooLong(usize),
    TooLongConverted(usize),
    NotWritten,
    Torn(Torn),
    Failed(io::Error),
}

impl From<io::Error> for Complaint {
    fn from(e: io::Error) -> Complaint {
        Complaint::Failed(e)
    }
}

impl From<AllocError> for Complaint {
    fn from(e: AllocError) -> Complaint {
        Complaint::Failed(io::Error::from(e))
    }
}

const USAGE: &str = "\
usage: ./run post two < JOURNAL > FILE     from form 1 into form 2, for posting
       ./run post one < FILE > JOURNAL     from form 2 back into form 1
       ./run post show < FILE              what a file of form 2 says
       ./run post show one < JOURNAL       what a journal of form 1 says";

impl Display for Complaint {
    fn fmt<W: fmt::Write>(&self, f: &mut Formatter<W>) -> fmt::Result {
        match self {
            Complaint::Usage => f.write_str(USAGE),
            Complaint::TooLong(held) => {
                write!(
                    f,
                    "post: the input has more than {held} bytes, which is all that this program holds"
                )
            }
            Complaint::TooLongConverted(held) => {
                write!(
                    f,
                    "post: in the other form it would have more than {held} bytes, which is all that this program holds"
                )
            }
            Complaint::NotWritten => f.write_str("post: not all of it could be written"),
            Complaint::Torn(torn) => write!(f, "{torn}"),
            Complaint::Failed(e) => write!(f, "{e}"),
        }
    }
}

// The form by its number.
pub fn number(form: Form) -> u8 {
    match form {
        Form::One => 1,
        Form::Two => 2,
    }
}

// As a file of this form it has a record that is not well shaped, where the way back ends; and the other form, if as one of that all of the
// file is: who posts a journal may take the one for the other.
#[derive(Clone, Copy)]
pub struct Torn {
    form: Form,
    way: Way,
    other: Option<Form>,
}

impl Torn {
    fn new(form: Form, file: &[u8], way: Way) -> Torn {
        let other = match form {
            Form::One => Form::Two,
            Form::Two => Form::One,
        };
        let is_other = way_of(other, file).end == 0;
        Torn {
            form,
            way,
            other: is_other.then_some(other),
        }
    }
}

impl Display for Torn {
    fn fmt<W: fmt::Write>(&self, f: &mut Formatter<W>) -> fmt::Result {
        let Way { records, end } = self.way;
        write!(
            f,
            "post: as form {} record {} from the end, which ends at byte {end}, is not well shaped",
            number(self.form),
            records.saturating_add(1)
        )?;
        match records {
            0 => {}
            1 => f.write_str("; the one after it is")?,
            n => write!(f, "; the {n} after it are")?,
        }
        if let Some(other) = self.other {
            write!(
                f,
                "\npost: as form {} all of it is well shaped: is it of that form?",
                number(other)
            )?;
        }
        Ok(())
    }
}

// How many records a file has, if all of them are well shaped.
pub fn records_of(form: Form, file: &[u8]) -> Result<u64, Complaint> {
    let way = way_of(form, file);
    if way.end == 0 {
        Ok(way.records)
    } else {
        Err(Complaint::Torn(Torn::new(form, file, way)))
    }
}
