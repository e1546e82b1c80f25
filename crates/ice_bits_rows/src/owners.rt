//! Which wires' groups have a bit of a tile.
ghost use Rattle.std.specs.Prelude.{◌≡◌, ℕ, ◌<◌, ◌++◌, [], ◌∷◌, Some, None, All, length, map, replicate, slice_index_or, slice_set, true, false, IfOk, OnOk};
ghost use Rattle.std.specs.List.{list_any, position_or_len};
ghost use Rattle.ice_base.specs.declared.number.TileAt.{TileAt as Tile};
ghost use Rattle.ice_base.specs.declared.bit.BitAt.{BitAt as Bit};
ghost use Rattle.ice_chip.specs.Database.{same_tile};
ghost use Rattle.ice_chip.specs.Views.{group_view};
ghost use Rattle.ice_bits_rows.specs.Owners.{block_at, owner_among, owner_at, owner_in, owner_with, with_owner, is_other, is_within, items_of, place_of, holds_more, AreEven, AreOwners};

use ice_base::{BitAt, NoMemory, TileAt, WireNo};
use ice_chip::Group;
use indexmap::IndexSet;
use std::alloc::Global;

/// How many places a block has: one for each bit that a tile may have, in 16 rows of 64.
pub const PLACES: usize = 1024;

/// The wires whose groups have a bit of a tile: the first of them, and whether there are others.
#[derive(Clone, Copy)]
pub struct Owner {
    /// The first wire.
    pub wire: WireNo,
    /// Whether a group into another wire has the bit too.
    pub several: bool,
}

/// The wires of the bits of groups: a block for each tile with a group, in which each bit has its place.
#[derive(Drop)]
pub struct Owners {
    /// The tiles.
    pub tiles: IndexSet<TileAt>,
    /// The block of each.
    pub blocks: Vec<Vec<Option<Owner>>>,
}

// The wires of a bit, with one more.
fn owner_with(owner: Option<Owner>, wire: WireNo) -> Owner
    ensures { result ≡ owner_with wire.0 owner }
{
    match owner {
        None => Owner {
            wire,
            several: false,
        },
        Some(owner) => Owner {
            wire: owner.wire,
            several: owner.several || owner.wire != wire,
        },
    }
}

/// Whether a group into another wire than this one has the bit.
pub fn is_other(owner: Option<Owner>, wire: WireNo) -> bool
    ensures { result ≡ is_other wire.0 owner }
{
    match owner {
        None => false,
        Some(owner) => owner.several || owner.wire != wire,
    }
}

/// Whether some tile may have the bit.
pub fn is_within(bit: BitAt) -> bool
    ensures { result ≡ is_within bit }
{
    bit.row < 16 && bit.col < 64
}

/// The place of a bit in a block.
pub fn place_of(bit: BitAt) -> usize
    ensures { result ≡ place_of bit }
{
    usize::from(bit.row) * 64 + usize::from(bit.col)
}

/// The wires of a bit, by the block of its tile.
pub fn owner_in(block: &[Option<Owner>], bit: BitAt) -> Option<Owner>
    ensures { result ≡ owner_in block.now bit }
{
    if !is_within(bit) {
        return None;
    }
    match block.get(place_of(bit)) {
        Some(owner) => *owner,
        None => None,
    }
}

// So many places without wires.
fn no_wires(alloc: Global, places: usize) -> Result<Vec<Option<Owner>>, NoMemory>
    ensures { IfOk result (λ block. block.items ≡ replicate places None) }
{
    Ok(vec![in alloc; None; places]?)
}

// A block of so many places in which no bit has a wire.
fn blank_block(alloc: Global, places: usize) -> Result<Vec<Option<Owner>>, NoMemory>
    ensures long { IfOk result (λ block. length block.items ≡ places) }
    ensures none { IfOk result (λ block. (i : ℕ) → slice_index_or block.items i None ≡ None) }
{
    let block = no_wires(alloc, places)?;
    Ok(block)
}

// Adds a tile that isn't there, with a block in which no bit has a wire.
fn add_tile(alloc: Global, owners: &mut Owners, tile: TileAt) -> Result<(), NoMemory>
    requires absent { list_any (same_tile tile) owners.old.tiles.keys ≡ false }
    requires even { AreEven owners.old.tiles.keys (items_of owners.old.blocks.items) }
    ensures tiles { OnOk result (owners.new.tiles.keys ≡ owners.old.tiles.keys ++ tile ∷ []) }
    ensures even { OnOk result (AreEven owners.new.tiles.keys (items_of owners.new.blocks.items)) }
    ensures same { OnOk result
        ((t : Tile) (b : Bit) → owner_at owners.new t b ≡ owner_at owners.old t b) }
{
    let block = blank_block(alloc, PLACES)?;
    owners.tiles.insert(tile)?;
    owners.blocks.push(block)?;
    Ok(())
}

// The number of a tile; a new one goes last.
fn number_of(alloc: Global, owners: &mut Owners, tile: TileAt) -> Result<usize, NoMemory>
    requires { AreEven owners.old.tiles.keys (items_of owners.old.blocks.items) }
    ensures number { IfOk result (λ n. n ≡ position_or_len (same_tile tile) owners.new.tiles.keys) }
    ensures there { IfOk result (λ n. n < length owners.new.blocks.items) }
    ensures even { OnOk result (AreEven owners.new.tiles.keys (items_of owners.new.blocks.items)) }
    ensures same { OnOk result
        ((t : Tile) (b : Bit) → owner_at owners.new t b ≡ owner_at owners.old t b) }
{
    if let Some(number) = owners.tiles.get_index_of(&tile) {
        return Ok(number);
    }
    let number = owners.tiles.len();
    add_tile(alloc, owners, tile)?;
    Ok(number)
}

// Notes in the block of its tile that a group into the wire has the bit.
#[tactic(auto, using(crate::proofs::Blocks::place_below))]
fn note_in(block: &mut Vec<Option<Owner>>, bit: BitAt, wire: WireNo)
    requires within { is_within bit ≡ true }
    requires long { length block.old.items ≡ 1024 }
    ensures { block.new.items ≡ slice_set block.old.items (place_of bit)
        (Some (owner_with wire.0 (slice_index_or block.old.items (place_of bit) None))) }
{
    let place = place_of(bit);
    let owner = owner_with(block[place], wire);
    block[place] = Some(owner);
}

// Notes in the block of this number that a group into the wire has the bit.
fn note(blocks: &mut [Vec<Option<Owner>>], number: usize, bit: BitAt, wire: WireNo)
    requires there { number < length blocks.old }
    requires within { is_within bit ≡ true }
    requires long { length (slice_index_or (items_of blocks.old) number []) ≡ 1024 }
    ensures { items_of blocks.new ≡ slice_set (items_of blocks.old) number
        (with_owner (slice_index_or (items_of blocks.old) number []) bit wire.0) }
{
    let block = &mut blocks[number];
    note_in(block, bit, wire);
}

// Notes the bits of a group of the tile of this number.
fn note_bits(
    tiles: &IndexSet<TileAt>,
    blocks: &mut [Vec<Option<Owner>>],
    number: usize,
    group: &Group,
)
    requires number { number ≡ position_or_len (same_tile group.now.tile) tiles.now.keys }
    requires there { number < length blocks.old }
    requires bits { All (λ b. is_within b ≡ true) group.now.bits.items }
    requires even { AreEven tiles.now.keys (items_of blocks.old) }
    ensures even { AreEven tiles.now.keys (items_of blocks.new) }
    ensures held { (t : Tile) (b : Bit) (w : ℕ)
        → is_other w (owner_among tiles.now.keys (items_of blocks.new) t b)
        ≡ holds_more (group_view group.now) t w b
        (is_other w (owner_among tiles.now.keys (items_of blocks.old) t b)) }
{
    let _tiles = tiles;
    for bit in group.bits.as_slice() {
        note(blocks, number, *bit, group.wire);
    }
}

// Notes the bits of a group.
fn note_group(alloc: Global, owners: &mut Owners, group: &Group) -> Result<(), NoMemory>
    requires bits { All (λ b. is_within b ≡ true) group.now.bits.items }
    requires even { AreEven owners.old.tiles.keys (items_of owners.old.blocks.items) }
    ensures even { OnOk result (AreEven owners.new.tiles.keys (items_of owners.new.blocks.items)) }
    ensures held { OnOk result ((t : Tile) (b : Bit) (w : ℕ) → is_other w (owner_at owners.new t b)
        ≡ holds_more (group_view group.now) t w b (is_other w (owner_at owners.old t b))) }
{
    let number = number_of(alloc, owners, group.tile)?;
    note_bits(&owners.tiles, &mut owners.blocks, number, group);
    Ok(())
}

// Notes the bits of these groups.
fn note_all(alloc: Global, owners: &mut Owners, groups: &[Group]) -> Result<(), NoMemory>
    requires bits { All (λ g. All (λ b. is_within b ≡ true) g.bits) (map group_view groups.now) }
    requires even { AreEven owners.old.tiles.keys (items_of owners.old.blocks.items) }
    requires none { (t : Tile) (b : Bit) → owner_at owners.old t b ≡ None }
    ensures { OnOk result (AreOwners (map group_view groups.now) owners.new) }
{
    for group in groups {
        note_group(alloc, owners, group)?;
    }
    Ok(())
}

// No tiles.
fn no_owners(alloc: Global) -> Owners
    ensures even { AreEven result.tiles.keys (items_of result.blocks.items) }
    ensures none { (t : Tile) (b : Bit) → owner_at result t b ≡ None }
{
    let tiles = IndexSet::new(alloc);
    let blocks = Vec::new(alloc);
    Owners { tiles, blocks }
}

/// The wires of each bit that a group has.
///
/// # Errors
/// Want of memory alone.
pub fn owners_of(alloc: Global, groups: &[Group]) -> Result<Owners, NoMemory>
    requires { All (λ g. All (λ b. is_within b ≡ true) g.bits) (map group_view groups.now) }
    ensures { IfOk result (λ owners. AreOwners (map group_view groups.now) owners) }
{
    let mut owners = no_owners(alloc);
    note_all(alloc, &mut owners, groups).and(Ok(owners))
}

// The number of a tile. One that isn't there has the number behind all that are.
fn number_sought(owners: &Owners, tile: TileAt) -> usize
    ensures { result ≡ position_or_len (same_tile tile) owners.now.tiles.keys }
{
    owners
        .tiles
        .get_index_of(&tile)
        .unwrap_or(owners.tiles.len())
}

/// The block of a tile, which is empty where no group stands there.
pub fn block_of(owners: &Owners, tile: TileAt) -> &[Option<Owner>]
    ensures { result.now ≡ block_at owners.now tile }
{
    match owners.blocks.get(number_sought(owners, tile)) {
        Some(block) => block.as_slice(),
        None => &[],
    }
}
