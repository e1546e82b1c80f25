//! Names in the order in which they are first met.
ghost use Rattle.std.specs.Prelude.{◌≡◌, ◌<◌, ◌≤◌, length, position, bytes_eq, IfOk, IfSome, OnOk, OnErr};
ghost use Rattle.ice_base.specs.Lists.{with_name, number_of_name};
ghost use Rattle.ice_base.specs.Keys.{texts};

use ice_base::NoMemory;
use indexmap::IndexSet;
use std::alloc::Global;

// The number of a name; a new name goes last.
#[tactic(auto, using(ice_base::proofs::NameLists::found_names, ice_base::proofs::NameLists::found_within, ice_base::proofs::NameLists::new_within))]
pub(crate) fn number_of(
    alloc: Global,
    names: &mut IndexSet<Vec<u8>>,
    name: &[u8],
) -> Result<usize, NoMemory>
    ensures number { IfOk result (λ n. n ≡ number_of_name (texts names.old.keys) name.now) }
    ensures appended { OnOk result
        (texts names.new.keys ≡ with_name (texts names.old.keys) name.now) }
    ensures within { IfOk result (λ n. n < length (texts names.new.keys)) }
    ensures refused { OnErr result (names.new.keys ≡ names.old.keys) }
{
    if let Some(number) = names.get_index_of(name) {
        return Ok(number);
    }
    let key = Vec::from_slice(alloc, name)?;
    let (number, _) = names.insert_full(key)?;
    Ok(number)
}

// The number of a name that is there.
#[tactic(auto, using(ice_base::proofs::NameLists::place_among_texts))]
pub(crate) fn find(names: &IndexSet<Vec<u8>>, name: &[u8]) -> Option<usize>
    ensures place { result ≡ position (bytes_eq name.now) (texts names.now.keys) }
    ensures within { IfSome result (λ n. n < length (texts names.now.keys)) }
{
    names.get_index_of(name)
}
