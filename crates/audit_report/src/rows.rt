use crate::lines::push_session_line;
use session_list::Session;
use std::alloc::{AllocError, Global};
use std::marker::Model;

/// A text for each record, to which lines are added in any order of the records.
#[derive(Debug, Drop)]
pub struct Rows {
    texts: Vec<String>,
}

// Contracts see the texts.
impl Model for Rows {
    ghost use Rattle.std.specs.Prelude.{ℕ, List, map};
    ghost use Rattle.std.specs.String.{string_bytes};

    ghost Value = { List (List ℕ) };

    ghost view = { λ k. map string_bytes k.texts.items };
}

impl Rows {
    ghost use Rattle.std.specs.Prelude.{◌≡◌, ◌<◌, ◌++◌, [], List, ℕ, length, replicate, slice_index_or, slice_set, IfOk};
    ghost use Rattle.std.specs.String.{string_bytes};
    ghost use Rattle.audit_report.specs.Lines.{session_line, texts_below};

    /// An empty text for each of so many records.
    pub fn new(alloc: Global, records: usize) -> Result<Rows, AllocError>
        ensures { IfOk result (λ rows. rows ≡ replicate {A = List ℕ} records []) }
    {
        let mut texts = Vec::with_capacity(alloc, records)?;
        for _r in 0..records {
            texts.push(String::new(alloc))?;
        }
        Ok(Rows { texts })
    }

    /// Adds the line of a session, whose record the caller shows to be there.
    pub fn push_session(&mut self, name: &str, i: u16, session: Session) -> Result<(), AllocError>
        requires { session.r < length self.old }
        ensures { IfOk result (λ _. self.new ≡ slice_set self.old session.r (slice_index_or self.old session.r [] ++ session_line name.now i session)) }
    {
        let text = &mut self.texts[usize::from(session.r)];
        push_session_line(text, name, i, session)
    }

    /// Writes all texts, in the order of the records. Linear in them.
    pub fn push_onto(&self, text: &mut String) -> Result<(), AllocError>
        ensures { IfOk result (λ _. string_bytes text.new ≡ string_bytes text.old ++ texts_below (length self.now) (λ r. slice_index_or self.now r [])) }
    {
        for lines in &self.texts {
            text.push_str(lines.as_str())?;
        }
        Ok(())
    }
}
