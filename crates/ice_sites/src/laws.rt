//! Laws of placements. The function does nothing: its contract is the law.
ghost use Rattle.std.specs.Prelude.{ℕ, Option, List};
ghost use Rattle.ice_base.specs.declared.number.TileAt.{TileAt};
ghost use Rattle.ice_chip.specs.Database.{Parts};
ghost use Rattle.ice_sites.specs.Legal.{IsLegal, IsLegalOn};
ghost use Rattle.ice_sites.specs.Stretches.{stretches_of};

/// In a placement that is legal on the stretches of a chip, each cluster stands on a site of the chip, no two on one, and
/// the chunks of a run stand upwards on linked sites.
pub fn clusters_stand_on_sites()
    ensures { (parts : Parts) → (chunks : List (Option (ℕ × ℕ))) → (at : List TileAt)
        → IsLegal (stretches_of parts) chunks at → IsLegalOn parts chunks at }
{}
