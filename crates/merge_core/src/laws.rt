//! Laws of the order of books and of their join, over the definitions alone.
ghost use Rattle.std.specs.Prelude.{◌≡◌, ℕ, List};
ghost use Rattle.merge_core.specs.declared.cell.Cell.{Cell};
ghost use Rattle.merge_core.specs.declared.delta.Row.{Row};
ghost use Rattle.merge_core.specs.Layout.{Shape, IsEarlierShape};
ghost use Rattle.merge_core.specs.Delta.{DeltaState, IsDelta};
ghost use Rattle.merge_core.specs.Naming.{shown_by};
ghost use Rattle.merge_core.specs.Book.{BookState, IsBook, book_shape, counter_of};
ghost use Rattle.merge_core.specs.Changes.{JoinsRows, IsWidened};
ghost use Rattle.merge_core.specs.Check.{IsChecked};
ghost use Rattle.merge_core.specs.Thin.{thin_rows};
ghost use Rattle.merge_core.specs.Order.{NamesSame, NamesKnown, IsUnion, IsJoin, KnowsSame};

/// A join of books is commutative, associative and idempotent, the union is one, any two joins name the
/// same, a book joined with all that another one tells is their join, and books of one shape that know the
/// same are equal, in whatever order, grouping and repetition they heard it (the laws of state-based
/// replicated data types, Shapiro et al., 2011).
pub fn join_laws()
    ensures commutative { (a b j : BookState) → IsJoin a b j → IsJoin b a j }
    ensures associative { (a b c ab bc x y : BookState) → IsJoin a b ab → IsJoin ab c x → IsJoin b c bc → IsJoin a bc y → NamesSame x y }
    ensures idempotent { (a : BookState) → IsJoin a a a }
    ensures least { (a b j k : BookState) → IsJoin a b j → IsJoin a b k → NamesSame j k }
    ensures union { (a b j : BookState) → IsUnion a b j → IsJoin a b j }
    ensures told { (a b j : BookState) (rows : List Row) → book_shape b ≡ book_shape a
        → ((r s : ℕ) (cell : Cell) → shown_by (book_shape b) rows r s cell ≡ counter_of b r s cell) → JoinsRows a j rows → IsJoin a b j }
    ensures equal_books { (a b x y : BookState) (ds es : List DeltaState) → IsBook x → IsBook y → book_shape y ≡ book_shape x
        → NamesKnown a ds x → NamesKnown b es y → KnowsSame a ds b es → x ≡ y }
{}

/// A thin delta does as well as the whole one at a book that took the delta before it.
pub fn thin_law()
    ensures { (b x y z : BookState) (last d : DeltaState) → IsBook b → IsBook y → IsBook z → IsDelta last → IsDelta d
        → JoinsRows b x last.rows → JoinsRows x y d.rows → JoinsRows x z (thin_rows d.rows last.rows) → y ≡ z }
{}

/// To widen a book names nothing new and forgets nothing, and it makes no difference whether books are joined
/// and then widened, or widened and then joined; a book that is widened takes every delta that it took before.
pub fn widen_laws()
    ensures names { (shape : Shape) (a wide : BookState) → IsWidened shape a wide → NamesSame wide a }
    ensures rows { (shape : Shape) (a j wide wide_j : BookState) (rows : List Row) → IsEarlierShape (book_shape a) shape
        → IsWidened shape a wide → IsWidened shape j wide_j → JoinsRows a j rows → JoinsRows wide wide_j rows }
    ensures joins { (shape : Shape) (a b j wide_a wide_b wide_j : BookState) → IsWidened shape a wide_a
        → IsWidened shape b wide_b → IsWidened shape j wide_j → IsJoin a b j → IsJoin wide_a wide_b wide_j }
    ensures checked { (old new : Shape) (rows : List Row) → IsEarlierShape old new → IsChecked old rows → IsChecked new rows }
{}
