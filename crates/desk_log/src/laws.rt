//! Laws of the definitions in specs/: functions that do nothing, whose contracts are the laws.
ghost use Rattle.std.specs.Prelude.{◌≡◌, ◌++◌, List, [], ◌∷◌, true};
ghost use Rattle.admission_model.specs.Account.{Account};
ghost use Rattle.desk_log.specs.declared.entry.Entry.{Entry};
ghost use Rattle.desk_log.specs.Log.{IsLegal, is_fault};

/// In a legal log no entry stands behind one whose reply is the store's fault.
pub fn fault_law()
    ensures { (a : Account) → (earlier later : List Entry) → (e : Entry) → IsLegal a (earlier ++ e ∷ later) → is_fault e.reply ≡ true → later ≡ [] }
{}
