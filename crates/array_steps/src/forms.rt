//! How many numbers the subscripts of a form are.

ghost use Rattle.std.specs.Prelude.{◌≡◌, ◌<◌, ◌≤◌, []};
ghost use Rattle.image_acts.specs.Places as places;
ghost use Rattle.image_acts.specs.Places.{digits, with_digit};

/// How many numbers a dimension of a form is.
fn numbers_of_digit(digit: u32) -> usize
    requires { digit < 10 }
    ensures is { result ≡ places.numbers_of_form (with_digit digit []) }
    ensures few { result ≤ 3 }
{
    match digit {
        0 | 2 => 0,
        1 | 3 | 4 | 6 => 1,
        5 | 7 | 8 => 2,
        _ => 3,
    }
}

/// How many numbers the subscripts of a form are.
pub(crate) fn numbers_of_form(form: u32) -> usize
    ensures is { result ≡ places.numbers_of_form (digits form) }
    ensures few { result ≤ 9 }
{
    numbers_of_digit(form % 10)
        + numbers_of_digit(form / 10 % 10)
        + numbers_of_digit(form / 100 % 10)
}
