//! A bit for each row that may have left its start, so that a snapshot looks at no other.
ghost use Rattle.std.specs.Prelude.{◌≡◌, ◌<◌, ◌↔◌, length, IsTrue};
ghost use Rattle.merge_core.specs.Marked.{IsMarked, MarksRow, UnmarksRow};

/// Marks the row of site `s` for record `r`.
pub fn mark(marks: &mut Vec<u16>, r: u16, s: u16)
    requires record { r < length marks.old.items }
    requires site { s < 16 }
    ensures { MarksRow r s marks.old.items marks.new.items }
{
    let at = usize::from(r);
    let mask = marks[at];
    marks[at] = mask | 1 << s;
}

/// Clears the mark of the row of site `s` for record `r`.
pub fn unmark(marks: &mut Vec<u16>, r: u16, s: u16)
    requires record { r < length marks.old.items }
    requires site { s < 16 }
    ensures { UnmarksRow r s marks.old.items marks.new.items }
{
    let at = usize::from(r);
    let mask = marks[at];
    marks[at] = mask & !(1 << s);
}

/// Whether the row of site `s` for record `r` is marked.
pub fn is_marked(marks: &[u16], r: u16, s: u16) -> bool
    requires record { r < length marks.now }
    requires site { s < 16 }
    ensures { IsTrue result ↔ IsMarked marks.now r s }
{
    marks[usize::from(r)] >> s & 1 == 1
}
