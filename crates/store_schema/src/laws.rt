//! A law of the definitions in specs/: a function that does nothing, whose contract is the law.
ghost use Rattle.std.specs.Prelude.{◌≡◌};
ghost use Rattle.sqlite_rules.specs.Lists.{Has};
ghost use Rattle.sqlite_schema.specs.declared.schema.Table.{Table};
ghost use Rattle.sqlite_schema.specs.declared.schema.Index.{Index};
ghost use Rattle.sqlite_schema.specs.declared.schema.View.{View};
ghost use Rattle.sqlite_schema.specs.declared.schema.Schema.{Schema};
ghost use Rattle.sqlite_catalog.specs.Change.{created, indexed, with_view};
ghost use Rattle.store_schema.specs.Found.{found_in};
ghost use Rattle.store_schema.specs.declared.Version.TheVariants.{Second};
ghost use Rattle.store_schema.specs.declared.Found.TheVariants.{Store};
ghost use Rattle.store_schema.specs.Tables.{HasOthers, ReferElsewhere, others_in, schema_4};

/// A store as it is made is one with other tables, of which there are none yet; and it stays one after a further table
/// whose foreign keys refer to no table of the store, an index on such a table, and a view. It is found as a store.
pub fn behind_law()
    ensures none { HasOthers schema_4 }
    ensures table { (schema : Schema) → (table : Table) → HasOthers schema → ReferElsewhere table → HasOthers (created schema table) }
    ensures index { (schema : Schema) → (table : Table) → (index : Index) → HasOthers schema → Has (others_in schema).tables table → HasOthers (indexed schema table index) }
    ensures view { (schema : Schema) → (view : View) → HasOthers schema → HasOthers (with_view schema view) }
    ensures found { (schema : Schema) → HasOthers schema → found_in schema ≡ Store Second }
{}
