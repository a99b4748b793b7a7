//! The laws. The calls do nothing.
ghost use Rattle.sequent_laws.specs.Laws.{EventRowsAreSequents, GoodTablesAreSequents};
ghost use Rattle.sequent_laws.specs.Laws.{TablesAreSequents, TypedMachinesAreGood};

/// Each obligation of an event is a sequent, where its parts are good and what its rows read besides is typed.
pub fn event_sequents()
    ensures { EventRowsAreSequents }
{}

/// Each obligation of a component is a sequent, where its environment is good, and its events' parts are.
pub fn good_table_sequents()
    ensures { GoodTablesAreSequents }
{}

/// The parts of each event of a machine are good, where its formulas are typed in the environments of their places.
pub fn good_parts()
    ensures { TypedMachinesAreGood }
{}

/// Each obligation of a component is a sequent, where its formulas are typed in the environments of their places.
pub fn table_sequents()
    ensures { TablesAreSequents }
{}
