/// A counter that a store keeps of a site: its record, the number of its slot there, and its value.
#[derive(Clone, Copy, Debug, PartialEq, Eq)]
pub struct DurableCell {
    pub r: u16,
    pub slot: u16,
    pub value: u64,
}

impl DurableCell {
    ghost use Rattle.std.specs.Prelude.{◌≡◌};
    ghost use Rattle.admission_model.specs.Durable.{is_before};

    /// Whether it stands before another one: by record, then by slot.
    pub fn is_before(self, other: DurableCell) -> bool
        ensures { result ≡ is_before self other }
    {
        self.r < other.r || (self.r == other.r && self.slot < other.slot)
    }
}
