//! The laws of cells that share a logic cell, each as the contract of a function that does nothing.
ghost use Rattle.ice_pack_share.specs.Laws.{SignalsHaveTheLevelsOfTheirOrigins, TakersReadTheirTablesAlone, CarriesReadAsTheirTables, NoTwoCarriesShareATable, CellsGoToOpenedCells, CellsOfAHomeGoByOneCell, ThreeGoByOneCell};

/// A signal has the level of its origin, so that constants may be folded and aliases left out.
pub fn signals_have_the_levels_of_their_origins()
    ensures { SignalsHaveTheLevelsOfTheirOrigins }
{}

/// A flip-flop shares only with a look-up table that it alone reads, as the level that it takes.
pub fn takers_read_their_tables_alone()
    ensures { TakersReadTheirTablesAlone }
{}

/// A carry shares only with a look-up table that reads the same at its two inputs.
pub fn carries_read_as_their_tables()
    ensures { CarriesReadAsTheirTables }
{}

/// No two carries share a look-up table.
pub fn no_two_carries_share_a_table()
    ensures { NoTwoCarriesShareATable }
{}

/// Each cell that goes to a logic cell goes to one that is there.
pub fn cells_go_to_opened_cells()
    ensures { CellsGoToOpenedCells }
{}

/// Cells that go to one logic cell go by one cell.
pub fn cells_of_a_home_go_by_one_cell()
    ensures { CellsOfAHomeGoByOneCell }
{}

/// A logic cell has at most one look-up table, one flip-flop and one carry.
pub fn three_go_by_one_cell()
    ensures { ThreeGoByOneCell }
{}
