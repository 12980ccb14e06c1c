//! Laws of names alone: functions without a body, whose contracts are the laws.
ghost use Rattle.std.specs.Prelude.{◌≡◌, ◌+◌, ◌<◌, ℕ, List, Some, None, IsTrue};
ghost use Rattle.group_names.specs.Names.{base_of, generation_of, is_base_name, is_group_name, most_generations, next_name};

/// A move gives a name of the group's own, of the next generation, as long as there is one; so no move of a group gives a
/// name twice, and none gives a name that anyone may give.
pub fn name_law()
    ensures next { (name next : List ℕ) → IsTrue (is_group_name name) → next_name name ≡ Some next → IsTrue (is_group_name next) }
    ensures own { (name next : List ℕ) → IsTrue (is_group_name name) → next_name name ≡ Some next → base_of next ≡ base_of name }
    ensures later { (name next : List ℕ) → IsTrue (is_group_name name) → next_name name ≡ Some next → generation_of (Some next) ≡ generation_of (Some name) + 1 }
    ensures last { (name : List ℕ) → next_name name ≡ None → IsTrue (is_group_name name) → generation_of (Some name) ≡ most_generations }
    ensures given { (name : List ℕ) → IsTrue (is_base_name name) → IsTrue (is_group_name name) × (generation_of (Some name) ≡ 1) }
{}
