//! Texts of drives.
ghost use Rattle.std.specs.Prelude.{◌≡◌, ◌++◌, OnOk};
ghost use Rattle.ice_sim_levels.specs.DriveTexts.{drive_byte, drives_line};

use ice_base::NoMemory;
use ice_net::Drive;

// The byte that stands for a drive.
fn drive_byte(drive: Drive) -> u8
    ensures { result ≡ drive_byte drive }
{
    match drive {
        Drive::Off => b'.',
        Drive::Low => b'0',
        Drive::High => b'1',
    }
}

/// Adds the line of a step to a text: `.` for each port that drives nothing, `0` and `1` for each that drives a level, and a line
/// feed. After want of memory a part of the line may have been added.
pub fn put_drives(out: &mut Vec<u8>, drives: &[Drive]) -> Result<(), NoMemory>
    ensures { OnOk result (out.new.items ≡ out.old.items ++ drives_line drives.now) }
{
    for drive in drives {
        out.push(drive_byte(*drive))?;
    }
    out.push(b'\n')?;
    Ok(())
}
