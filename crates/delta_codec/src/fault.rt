use thiserror::Error;

/// Why bytes were not read as a delta: the first that applies, from the top.
#[derive(Clone, Copy, Debug, PartialEq, Eq, Error)]
pub enum DecodeError {
    /// There are more than [`crate::TEXT_LIMIT`] bytes.
    #[error("the text is too long")]
    TooLong,
    #[error("the text is not UTF-8")]
    NotUtf8,
    /// `serde_json` has no reading of the text: it is no JSON, nests deeper than 127, or has a number beyond
    /// the range of floats.
    #[error("the text is not JSON")]
    NotJson,
    /// The text is JSON, and not the text of a delta.
    #[error("the text is not the canonical text of a delta")]
    NotCanonical,
    /// Memory ran out, which can come before the text is judged.
    #[error("out of memory")]
    Memory,
}

impl DecodeError {
    ghost use Rattle.std.specs.Prelude.{◌≡◌};
    ghost use Rattle.delta_codec.specs.Decodes.{fault_name};

    /// The name of the variant.
    pub fn name(&self) -> &'static str
        ensures { result.now ≡ fault_name self.now }
    {
        match self {
            DecodeError::TooLong => "TooLong",
            DecodeError::NotUtf8 => "NotUtf8",
            DecodeError::NotJson => "NotJson",
            DecodeError::NotCanonical => "NotCanonical",
            DecodeError::Memory => "Memory",
        }
    }
}
