//! Examples of the definitions in specs/: a function that does nothing, whose contract is their meaning there.
ghost use Rattle.std.specs.Prelude.{codes};
ghost use Rattle.store_schema.specs.declared.Version.TheVariants.{First, Second};
ghost use Rattle.store_schema.specs.Tables.{schema_3, schema_4};
ghost use Rattle.own_schema.specs.Made.{IsForeign, IsMadeHere};
ghost use Rattle.own_schema.specs.Examples.{with_exchange, with_index, with_reference};

/// The schema of each version is one that this program makes, and so is that of the second with a further table whose
/// foreign key refers to no table of the store. It is foreign where that key refers to `cells`, in any case of the
/// letters, where two tables are exchanged, and where a table of the store has a further index.
pub fn own_law_examples()
    ensures first { IsMadeHere First schema_3 }
    ensures second { IsMadeHere Second schema_4 }
    ensures beside { IsMadeHere Second (with_reference (codes "more")) }
    ensures referring { IsForeign (with_reference (codes "cells")) }
    ensures any_case { IsForeign (with_reference (codes "Cells")) }
    ensures exchanged { IsForeign with_exchange }
    ensures indexed { IsForeign with_index }
{}
