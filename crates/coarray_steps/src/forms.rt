//! How many numbers the section subscripts of a form are (ISO/IEC 1539-1:2018, 9.5.3.3).

ghost use Rattle.std.specs.Prelude.{◌≡◌, ◌≤◌};
ghost use Rattle.image_acts.specs.Places as places;

/// How many numbers the subscript with this digit of a form is.
fn numbers_in(digit: u32) -> usize
    ensures is { result ≡ places.numbers_in digit }
    ensures few { result ≤ 3 }
{
    if digit == 1 {
        return 1;
    }
    let parts = digit.saturating_sub(2);
    let first = if parts % 2 == 1 { 1 } else { 0 };
    let last = if (parts / 2) % 2 == 1 { 1 } else { 0 };
    let stride = if parts >= 4 { 1 } else { 0 };
    first + last + stride
}

/// How many numbers the subscripts of a form are.
#[tactic(auto, using(crate::proofs::FormLaws::in_form))]
pub(crate) fn numbers_of_form(form: u32) -> usize
    ensures is { result ≡ places.numbers_of_form (places.digits form) }
    ensures few { result ≤ 9 }
{
    if form == 0 {
        return 0;
    }
    numbers_in(form % 10) + (numbers_in((form / 10) % 10) + numbers_in((form / 100) % 10))
}
