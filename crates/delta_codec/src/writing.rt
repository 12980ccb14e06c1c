ghost use Rattle.std.specs.Prelude.{◌≡◌, ◌++◌, string_bytes, IfOk};
ghost use Rattle.delta_codec.specs.DeltaText.{row_text, delta_text};

use crate::rows::RowText;
use merge_core::{Delta, Row};
use std::alloc::{AllocError, Global};
use text_parts::{Number, Written, push_field, push_joined};

fn push_row(text: &mut String, row: &Row) -> Result<(), AllocError>
    ensures { IfOk result (λ _. string_bytes text.new ≡ string_bytes text.old ++ row_text row.now) }
{
    push_field(text, "{\"ann\":", row.ann)?;
    push_field(text, ",\"fin\":", row.fin)?;
    text.push_str(",\"out\":[")?;
    push_joined::<Number, u64>(text, row.out.as_slice())?;
    push_field(text, "],\"r\":", u64::from(row.r))?;
    push_field(text, ",\"s\":", u64::from(row.s))?;
    push_field(text, ",\"taken\":", row.taken)?;
    text.push_str("}")?;
    Ok(())
}

impl Written<Row> for RowText {
    ghost use Rattle.delta_codec.specs.DeltaText.{row_text};

    ghost text_of = { row_text };

    fn push_onto(text: &mut String, row: &Row) -> Result<(), AllocError> {
        push_row(text, row)
    }
}

/// Writes the text of a delta onto the end, row by row: linear in it, and it takes memory for the text alone.
pub fn push_delta(text: &mut String, delta: &Delta) -> Result<(), AllocError>
    ensures { IfOk result (λ _. string_bytes text.new ≡ string_bytes text.old ++ delta_text delta.now) }
{
    push_field(text, "{\"from\":", u64::from(delta.from_site()))?;
    text.push_str(",\"rows\":[")?;
    push_joined::<RowText, Row>(text, delta.rows())?;
    text.push_str("],\"v\":1}")?;
    Ok(())
}

/// The text of a delta. Linear in it, and it takes memory for the text alone.
pub fn encode(alloc: Global, delta: &Delta) -> Result<String, AllocError>
    ensures { IfOk result (λ text. string_bytes text ≡ delta_text delta.now) }
{
    let mut text = String::new(alloc);
    push_delta(&mut text, delta)?;
    Ok(text)
}
