//! What is written into a canonical text piece by piece: numbers, and lists with commas between their elements.
ghost use Rattle.std.specs.Prelude.{◌≡◌, ◌++◌, ℕ, List, decimal, string_bytes, IfOk};
ghost use Rattle.text_parts.specs.Lists.{joined};

use crate::numbers::Number;
use itoa::Buffer;
use std::alloc::AllocError;

/// How an element of type `T` is written. A type without values stands for the way, as in [`crate::Element`].
pub trait Written<T> {
    // The element's text.
    ghost text_of: { T → List ℕ };

    /// Writes an element behind a text.
    fn push_onto(text: &mut String, element: &T) -> Result<(), AllocError>
        ensures { IfOk result (λ _. string_bytes text.new ≡ string_bytes text.old ++ text_of element.now) };
}

impl Written<u64> for Number {
    ghost text_of = { decimal };

    fn push_onto(text: &mut String, element: &u64) -> Result<(), AllocError> {
        push_number(text, *element)
    }
}

fn push_number(text: &mut String, number: u64) -> Result<(), AllocError>
    ensures { IfOk result (λ _. string_bytes text.new ≡ string_bytes text.old ++ decimal number) }
{
    let mut buffer = Buffer::new();
    text.push_str(buffer.format(number))
}

/// Writes a literal and a number behind it.
pub fn push_field(text: &mut String, literal: &str, number: u64) -> Result<(), AllocError>
    ensures { IfOk result (λ _. string_bytes text.new ≡ string_bytes text.old ++ (literal.now ++ decimal number)) }
{
    text.push_str(literal)?;
    push_number(text, number)
}

/// Writes the elements with commas between them. Linear in their texts.
pub fn push_joined<W: Written<T>, T>(text: &mut String, elements: &[T]) -> Result<(), AllocError>
    ensures { IfOk result (λ _. string_bytes text.new ≡ string_bytes text.old ++ joined W.text_of elements.now) }
{
    let [first, later @ ..] = elements else {
        return Ok(());
    };
    W::push_onto(text, first)?;
    for element in later {
        text.push_str(",")?;
        W::push_onto(text, element)?;
    }
    Ok(())
}
