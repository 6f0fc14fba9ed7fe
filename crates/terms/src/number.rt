// Numbers that stand for the cases of a type.
ghost use Rattle.terms.specs.Numbers.{IsNumbered};

// A number that no case has.
#[derive(Clone, Copy, Debug, PartialEq, Eq)]
pub struct UnknownNumber(pub u8);

// The case of a number, in the list of all cases.
pub(crate) fn numbered<T: Copy>(cases: &[T], number: u8) -> Result<T, UnknownNumber>
    ensures { IsNumbered cases.now number result }
{
    cases
        .get(usize::from(number))
        .copied()
        .ok_or(UnknownNumber(number))
}
