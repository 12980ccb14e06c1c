//! What takes the input of `judge` in, part by part as it comes.
ghost use Rattle.std.specs.Prelude.{[], ℕ, List, Option, IfOk};
ghost use Rattle.merge_core.specs.Layout.{LayoutState};
ghost use Rattle.log_judge.specs.declared.keeping.Keeping.TheVariants.{All as KeepsAll};
ghost use Rattle.judge_engine.specs.Reading.{EndsReading, IsTakenIn};

use crate::cut::Cut;
use crate::reading::Reading;
use log_judge::Keeping;
use merge_core::Layout;
use std::alloc::{AllocError, Global};
use std::marker::Model;
use text_input::Accumulator;

/// What the parts of an input came to so far; nothing, once memory ran out.
#[derive(Drop)]
pub(crate) struct Intake {
    reading: Option<Reading>,
}

// Contracts see the reading, which is always that of some bytes.
impl Model for Intake {
    ghost use Rattle.std.specs.Prelude.{Option};
    ghost use Rattle.judge_engine.specs.declared.reading.Reading.{Reading as ReadingThere};
    ghost use Rattle.judge_engine.specs.Reading.{IsOfBytes};

    ghost Value = { Option ReadingThere };

    ghost view = { λ i. i.reading };

    ghost invariant = { λ i. IsOfBytes i.reading };
}

impl Intake {
    /// Before the first byte.
    pub fn new(alloc: Global, layout: &Layout, cut: &Cut) -> Result<Intake, AllocError>
        ensures { IfOk result (IsTakenIn layout.now cut.now []) }
    {
        let reading = Reading::new(alloc, layout, cut, Keeping::All)?;
        Ok(Intake {
            reading: Some(reading),
        })
    }

    /// What all of it came to. Its last line may lack its LF.
    pub fn finish(self) -> Result<Reading, AllocError>
        ensures { IfOk result (λ r. (layout : LayoutState) (cut : Option (List ℕ)) (bytes : List ℕ) → IsTakenIn layout cut bytes self
            → EndsReading layout cut KeepsAll [] bytes r.layout r.refused r.site r.logs) }
    {
        let Intake { reading } = self;
        let Some(mut reading) = reading else {
            return Err(AllocError);
        };
        reading.finish()?;
        Ok(reading)
    }
}

impl Accumulator for Intake {
    ghost takes = { λ first bytes now. (layout : LayoutState) (cut : Option (List ℕ)) → IsTakenIn layout cut [] first → IsTakenIn layout cut bytes now };

    fn add(&mut self, part: &[u8]) -> Result<(), AllocError> {
        let Some(mut reading) = self.reading.take() else {
            return Err(AllocError);
        };
        reading.add(part)?;
        self.reading = Some(reading);
        Ok(())
    }
}
