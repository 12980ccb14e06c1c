//! Examples of the definitions in specs/: a function that does nothing, whose contract is the examples.
ghost use Rattle.std.specs.Prelude.{◌≡◌, ◌++◌, codes};
ghost use Rattle.multi_site_world.specs.Instances.{writer_there};
ghost use Rattle.audit_report.specs.Tables.{seat_table, session_table};

/// Both tables by computation, after a writer at site 1 was helped to all seats of the one record.
pub fn examples()
    ensures seats { seat_table writer_there
        ≡ codes "record           site  rights  inside  unfinished\n"
        ++ (codes "a                   0       0       0           0\n"
        ++ (codes "a                   1       0       3           1\n"
        ++ codes "a                   2       0       0           0\n")) }
    ensures sessions { session_table writer_there ≡ codes "record           site         holder  phase\na                   1              5  writer\n" }
{}
