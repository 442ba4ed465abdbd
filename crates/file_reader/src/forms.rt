//! The forms of parts, with how a part of each ends.

ghost use Rattle.sequence_reader.specs.Views as view;

use expr_reader::error::ReadError;
use expr_reader::word::Word;
use reason_reader::form::{End, ReadsForms};
use sequence_reader::form::{Form, read_form};
use std::alloc::Global;

/// The forms that `sequence_reader` reads.
pub struct Forms;

impl ReadsForms for Forms {
    type Name = Form;

    ghost form = { view.form };

    fn assignment() -> Form {
        Form::Assignment
    }

    fn keyword() -> Form {
        Form::Keyword
    }

    fn condition() -> Form {
        Form::Condition
    }

    fn end<'a>(
        name: Form,
        alloc: Global,
        words: &'a [Word],
        left: u32,
    ) -> Result<End<'a>, ReadError> {
        match read_form(name, alloc, words, left) {
            Ok((part, rest)) => {
                drop(part);
                Ok(Ok(rest))
            }
            Err(ReadError::Stopped(stop)) => Ok(Err(stop)),
            Err(ReadError::Memory) => Err(ReadError::Memory),
        }
    }
}
