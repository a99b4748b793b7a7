//! The law. The call does nothing.
ghost use Rattle.typed_tables.specs.Laws.{AreSequentsOfTables};

/// Each obligation of a project's table is a sequent.
pub fn typed_tables()
    ensures { AreSequentsOfTables }
{}
