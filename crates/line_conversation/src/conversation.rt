//! What a conversation promises.
ghost use Rattle.std.specs.Prelude.{◌≡◌, List, [], ◌∷◌, ◌++◌, ℕ, None, true, false, IfSome, IsSome, IsTrue, ◌↔◌};
ghost use Rattle.line_conversation.specs.Turns.{Turn, Told, IsLine, heard_by};
ghost use Rattle.line_conversation.specs.declared.conversation.Next.TheVariants.{End as AtEnd, Failed as HasFailed};

/// What came next.
#[derive(Clone, Copy, Debug, PartialEq, Eq)]
pub enum Next {
    /// A line, which is kept.
    Line,
    /// A line longer than a line may be. It was read to its end, and is not kept.
    TooLong,
    /// A line for which no memory was found. It was read to its end, and is not kept.
    Memory,
    /// The last part of the input, behind which no LF came. It is not kept.
    Torn,
    /// No line any more.
    End,
    /// The reader failed.
    Failed,
}

/// Lines that come in, one at a time, and texts that go out. Its turns, in their order, are all that it says.
pub trait Conversation {
    /// Between the first state and the last these turns took place, oldest first.
    ghost took_place: { Self → List Turn → Self → Type 0 };

    /// The line that is kept.
    ghost kept: { Self → List ℕ };

    /// The reader told its end.
    ghost has_ended: { Self → Type 0 };

    /// The reader or the writer has failed.
    ghost has_failed: { Self → Type 0 };

    /// A text was lost: the writer failed where it was to be told.
    ghost loses: { Self → Type 0 };

    /// Reads the next line. It may wait for its bytes, and never for bytes behind it. After a failure nothing is read
    /// any more.
    fn next_line(&mut self) -> Next
        ensures heard { (first : Self) (before : List Turn) → took_place first before self.old → took_place first (before ++ heard_by result (kept self.new)) self.new }
        ensures ended { result ≡ AtEnd → has_ended self.new }
        ensures failed { result ≡ HasFailed → has_failed self.new }
        ensures whole { loses self.new → loses self.old };

    /// The line that is kept, without its LF.
    fn line(&self) -> &[u8]
        ensures { result.now ≡ kept self.now };

    /// Tells a text, and hands it on before it returns. Whether that succeeded. The line that is kept stays.
    fn tell(&mut self, text: &str) -> bool
        ensures told { (first : Self) (before : List Turn) → took_place first before self.old → result ≡ true → took_place first (before ++ Told text.now ∷ []) self.new }
        ensures untold { (first : Self) (before : List Turn) → took_place first before self.old → result ≡ false → took_place first before self.new }
        ensures failed { result ≡ false → has_failed self.new }
        ensures whole { result ≡ true → loses self.new → loses self.old }
        ensures line { kept self.new ≡ kept self.old };

    /// Before any turn nothing took place.
    ghost begins: { (c : Self) → took_place c [] c };
}

/// A conversation that knows which lines have come already.
pub trait RoundConversation: Conversation {
    /// Between the two states nothing was read.
    ghost unread: { Self → Self → Type 0 };

    /// The next line was read whole already.
    ghost is_ready: { Self → Type 0 };

    /// Whether the next line was read whole already. It never reads.
    fn holds_next(&self) -> bool
        ensures { IsTrue result ↔ is_ready self.now };

    /// The next line, if it was read whole already. It never reads, and so never waits; where there is no such line,
    /// nothing changes.
    fn next_held(&mut self) -> Option<Next>
        ensures heard { (first : Self) (before : List Turn) → Self.Conversation.took_place first before self.old
            → IfSome result (λ next. Self.Conversation.took_place first (before ++ heard_by next (Self.Conversation.kept self.new)) self.new) }
        ensures line { IfSome result IsLine }
        ensures ready { is_ready self.old → IsSome result }
        ensures none { result ≡ None → self.new ≡ self.old }
        ensures unread { unread self.old self.new }
        ensures whole { Self.Conversation.loses self.new → Self.Conversation.loses self.old };
}
