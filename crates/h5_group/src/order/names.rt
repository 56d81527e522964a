//! The order of a group's names (File Format Specification 3.0, section III.B).

ghost use Rattle.std.specs.Prelude.{◌≡◌, ◌↔◌, IsTrue, List, map, option_map, IfOk, IfErr, OnOk};
ghost use Rattle.std.specs.List.{AllByRecursion};
ghost use Rattle.h5_bytes.specs.Texts.{text_at};
ghost use Rattle.h5_model.specs.Format.Superblock.{IsSuperblock, leaf_k};
ghost use Rattle.h5_model.specs.Format.Symbols.{symbols_at, link_of};
ghost use Rattle.h5_model.specs.Format.Links.{Ascend, Before};
ghost use Rattle.h5_model.specs.Faults.TreeFaults.{all_entries};
ghost use Rattle.h5_group.specs.Nodes.Stands.{IsSymbolsAt};
ghost use Rattle.h5_btree.specs.Rising.{FallAt, FallFrom, IsAbove, RiseFrom, last_value};
ghost use Rattle.h5_group.specs.Order.Between.{name_of_entry};
ghost use Rattle.h5_group.specs.Order.Ordered.{AscendsBefore};

use crate::nodes::symbol_node;
use crate::order::text::is_before;
use h5_model::{Cause, OpenFault};
use h5_space::Image;

/// Checks that the names in these symbol nodes ascend; `NameOrder` at the first that holds a name which is not above the one
/// before it.
pub(crate) fn check_name_order(
    image: &Image,
    segment: &[u8],
    symbol_nodes: &[u64],
) -> Result<(), OpenFault>
    requires superblock { IsSuperblock image.now.bytes }
    requires symbols { AllByRecursion (IsSymbolsAt image.now.bytes) symbol_nodes.now }
    ensures ascending { OnOk result
        (Ascend (map (link_of segment.now) (all_entries image.now.bytes symbol_nodes.now))) }
    ensures cause { IfErr result (λ fault. fault.cause ≡ Cause.NameOrder) }
    ensures falls { IfErr result (λ fault.
        FallAt (name_of_entry segment.now) Before
        (symbols_at image.now.bytes (leaf_k image.now.bytes)) symbol_nodes.now fault.address) }
    ensures first { IfErr result (λ fault.
        AscendsBefore image.now.bytes segment.now symbol_nodes.now fault.address) }
{
    let mut last = None;
    for at in symbol_nodes {
        last = check_node(image, segment, *at, last)?;
    }
    Ok(())
}

/// Checks that the names in the symbol node at this address ascend, from the one before them on. Gives the offset of
/// the last name so far.
fn check_node(
    image: &Image,
    segment: &[u8],
    at: u64,
    before: Option<u64>,
) -> Result<Option<u64>, OpenFault>
    requires superblock { IsSuperblock image.now.bytes }
    requires symbols { IsSymbolsAt image.now.bytes at }
    ensures rise { OnOk result (RiseFrom (name_of_entry segment.now) Before
        (option_map (text_at segment.now) before) (symbols_at image.now.bytes (leaf_k image.now.bytes) at)) }
    ensures last { IfOk result (λ last.
        option_map (text_at segment.now) last ≡ last_value (name_of_entry segment.now)
        (option_map (text_at segment.now) before) (symbols_at image.now.bytes (leaf_k image.now.bytes) at)) }
    ensures refused { IfErr result (λ fault. fault ≡ record { cause = Cause.NameOrder; address = at }) }
    ensures falls { IfErr result (λ fault. FallFrom (name_of_entry segment.now) Before
        (option_map (text_at segment.now) before) (symbols_at image.now.bytes (leaf_k image.now.bytes) at)) }
{
    let node = symbol_node(image, at);
    let mut last = before;
    for k in 0..node.len() {
        let name = node.entry(k).name;
        if !is_above(segment, last, name) {
            return Err(OpenFault {
                cause: Cause::NameOrder,
                address: at,
            });
        }
        last = Some(name);
    }
    Ok(last)
}

/// Whether the name at an offset is above the last one, where there is one.
fn is_above(segment: &[u8], last: Option<u64>, name: u64) -> bool
    ensures { IsTrue result
        ↔ IsAbove Before (option_map (text_at segment.now) last) (text_at segment.now name) }
{
    match last {
        Some(last) => is_before(segment, last, name),
        None => true,
    }
}
