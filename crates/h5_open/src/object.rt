//! The reading of one object: its header, and its group or the cells of its array (File Format Specification 3.0, sections III and
//! IV.A).

ghost use Rattle.std.specs.Prelude.{◌≡◌, ◌⊎◌, ℕ, ◌+◌, ◌*◌, ◌≤◌, Some, length, IfOk, IfErr, OnOk};
ghost use Rattle.h5_bytes.specs.Blocks.{Separate};
ghost use Rattle.h5_model.specs.Format.Limits.{most_chunk_bytes, most_names};
ghost use Rattle.h5_model.specs.Format.Superblock.{IsSuperblock};
ghost use Rattle.h5_model.specs.Tree.Places.{cells as cells_of};
ghost use Rattle.h5_space.specs.Claimed.{HasClaimed};
ghost use Rattle.h5_layout.specs.Data.{AreDataRead, data_blocks};
ghost use Rattle.h5_header.specs.Kinds.{IsOfGroup, IsOfDataset};
ghost use Rattle.h5_header.specs.Listed.{messages_in};
ghost use Rattle.h5_header.specs.Refused.{IsHeaderReadable};
ghost use Rattle.h5_group.specs.Links.{IsGroupRead};
ghost use Rattle.h5_group.specs.Told.{links_told};
ghost use Rattle.h5_model.specs.Format.Layout.{InChunks};
ghost use Rattle.h5_open.specs.Followed.{FollowsData, IsDataFault};
ghost use Rattle.h5_open.specs.Opened.Judged.{array_breach, group_breach};
ghost use Rattle.h5_open.specs.Opened.Kept.{IsObjectKept};
ghost use Rattle.h5_open.specs.Opened.Objects.{content_links as object_links, object_blocks};
ghost use Rattle.h5_open.specs.Read.{IsHeaderRead, IsObjectRead, FollowsObject, IsFirstIfSome, IsObjectFault, NamesFirst, IsContentRead, FollowsContent, IsContentFault, IsDeepAt};

use crate::judge::{judge_array, judge_group, judge_kind};
use crate::opened::{OpenedContent, OpenedObject};
use h5_bytes::Block;
use h5_chunks::{ChunkShape, read_chunks};
use h5_group::{
    Links, SymbolTable, group_links, has_exact_keys, links_at, read_group, symbol_nodes,
};
use h5_header::{HeaderRef, Messages, ObjectKind, claim};
use h5_layout::{ArrayRef, ChunkSizes, Layout, known_array};
use h5_model::{Cause, Fixed, OpenFault};
use h5_space::{Claims, Image, fault};
use std::alloc::Global;

/// How many links below the root the last objects may stand.
const LAST: u8 = 64;

/// Reads the object at `header`, so many links below the root, and claims its blocks; the links of a group are not followed.
///
/// What is wrong with its header comes first, then with the bodies of its messages, all at the header; then, of a group, what
/// `read_group` refuses, and `TooDeep` at its first symbol node with a link where it stands 64 links below the root; or of an array
/// what is wrong with the block of its cells, at that block, or what `read_chunks` refuses.
pub(crate) fn read_object(
    alloc: Global,
    image: &Image,
    claims: &mut Claims,
    header: u64,
    depth: u8,
) -> Result<OpenedObject, OpenFault>
    requires superblock { IsSuperblock image.now.bytes }
    requires end { claims.old.end ≡ length image.now.bytes }
    ensures read { IfOk result (λ o.
        IsObjectRead image.now.bytes claims.old.held claims.new.held header depth o) }
    ensures separate { OnOk result (Separate claims.new.held) }
    ensures end { claims.new.end ≡ claims.old.end }
    ensures followed { IfOk result
        (FollowsObject image.now.bytes claims.old.held claims.new.held header depth) }
    ensures first { (header_read : IsHeaderReadable image.now.bytes header claims.old.held)
        → IfErr result (λ fault. NamesFirst header_read.messages depth fault.cause) }
    ensures refused { IfErr result (λ fault.
        IsObjectFault image.now.bytes claims.old.held header depth fault.cause fault.address) }
{
    let messages = h5_header::messages(alloc, image, claims, header)?;
    match judge_kind(&HeaderRef::new(image, &messages), depth)? {
        ObjectKind::Group => read_group_object(alloc, image, claims, messages, depth),
        ObjectKind::Dataset => read_array_object(alloc, image, claims, messages),
    }
}

/// Reads the group of a header whose messages were read.
fn read_group_object(
    alloc: Global,
    image: &Image,
    claims: &mut Claims,
    messages: Messages,
    depth: u8,
) -> Result<OpenedObject, OpenFault>
    requires superblock { IsSuperblock image.now.bytes }
    requires end { claims.old.end ≡ length image.now.bytes }
    requires header { IsHeaderRead image.now.bytes messages }
    requires separate { Separate claims.old.held }
    requires kind { IsOfGroup (messages_in image.now.bytes messages.list) }
    ensures read { IfOk result
        (IsContentRead image.now.bytes claims.old.held claims.new.held messages depth) }
    ensures separate { OnOk result (Separate claims.new.held) }
    ensures end { claims.new.end ≡ claims.old.end }
    ensures followed { IfOk result
        (FollowsContent image.now.bytes claims.old.held claims.new.held messages depth) }
    ensures first { let ms = messages_in image.now.bytes messages.list in
        IfErr result (λ fault. IsFirstIfSome ms (group_breach ms) fault.cause) }
    ensures refused { IfErr result (λ fault.
        IsContentFault image.now.bytes claims.old.held messages depth fault.cause fault.address) }
{
    let table = judge_group(alloc, &HeaderRef::new(image, &messages))?;
    read_group(alloc, image, claims, table)?;
    check_depth(alloc, image, table, depth)?;
    Ok(OpenedObject {
        messages,
        content: OpenedContent::Group(table),
        tidy: has_exact_keys(image, table),
    })
}

/// Reads the array of a dataset's header whose messages were read, which is not the root's.
fn read_array_object(
    alloc: Global,
    image: &Image,
    claims: &mut Claims,
    messages: Messages,
) -> Result<OpenedObject, OpenFault>
    requires superblock { IsSuperblock image.now.bytes }
    requires end { claims.old.end ≡ length image.now.bytes }
    requires header { IsHeaderRead image.now.bytes messages }
    requires separate { Separate claims.old.held }
    requires kind { IsOfDataset (messages_in image.now.bytes messages.list) }
    ensures read { IfOk result (λ o. (depth : ℕ) → 1 ≤ depth
        → IsContentRead image.now.bytes claims.old.held claims.new.held messages depth o) }
    ensures separate { OnOk result (Separate claims.new.held) }
    ensures end { claims.new.end ≡ claims.old.end }
    ensures followed { IfOk result (λ o. (depth : ℕ)
        → FollowsContent image.now.bytes claims.old.held claims.new.held messages depth o) }
    ensures first { let ms = messages_in image.now.bytes messages.list in
        IfErr result (λ fault. IsFirstIfSome ms (array_breach ms) fault.cause) }
    ensures refused { IfErr result (λ fault. (depth : ℕ)
        → IsContentFault image.now.bytes claims.old.held messages depth fault.cause fault.address) }
{
    let array = judge_array(alloc, &HeaderRef::new(image, &messages))?;
    claim_data(alloc, image, claims, &array)?;
    Ok(OpenedObject {
        messages,
        content: OpenedContent::Array,
        tidy: false,
    })
}

/// Refuses a group at the last level below the root that has a link, at its first symbol node with one; `NoMemory`, at its tree.
fn check_depth(alloc: Global, image: &Image, table: SymbolTable, depth: u8) -> Result<(), OpenFault>
    requires { IsGroupRead image.now.bytes table }
    ensures shallow { OnOk result (1 ≤ length (links_told image.now.bytes table) → depth + 1 ≤ most_names) }
    ensures refused { IfErr result (λ fault. (fault.cause ≡ Cause.NoMemory)
        ⊎ ((fault.cause ≡ Cause.TooDeep) × IsDeepAt image.now.bytes table depth fault.address)) }
{
    if depth < LAST {
        return Ok(());
    }
    let Ok(nodes) = symbol_nodes(alloc, image, table) else {
        return Err(fault(Cause::NoMemory, table.tree()));
    };
    for node in &nodes {
        if links_at(image, table, *node) > 0 {
            return Err(fault(Cause::TooDeep, *node));
        }
    }
    Ok(())
}

/// Claims the data of an array: the block of its cells, or its chunks with the nodes of their tree, where it has some.
///
/// A block of cells is refused at its own address, and chunks as `read_chunks` says.
fn claim_data(
    alloc: Global,
    image: &Image,
    claims: &mut Claims,
    array: &ArrayRef<'_>,
) -> Result<(), OpenFault>
    requires superblock { IsSuperblock image.now.bytes }
    requires end { claims.old.end ≡ length image.now.bytes }
    requires separate { Separate claims.old.held }
    ensures read { OnOk result (AreDataRead image.now.bytes array.now.fixed array.now.layout) }
    ensures claimed { OnOk result (HasClaimed claims.old claims.new
        (data_blocks image.now.bytes array.now.fixed array.now.layout)) }
    ensures end { claims.new.end ≡ claims.old.end }
    ensures followed { OnOk result
        (FollowsData image.now.bytes claims.old.held claims.new.held array.now.fixed array.now.layout) }
    ensures refused { IfErr result (λ fault. IsDataFault image.now.bytes claims.old.held array.now.fixed
        array.now.layout fault.cause fault.address) }
{
    match array.layout() {
        Layout::Compact(_) | Layout::Contiguous(None) => Ok(()),
        Layout::Contiguous(Some(block)) => claim(claims, *block),
        Layout::Chunked { tree: None, .. } => Ok(()),
        Layout::Chunked {
            sizes,
            tree: Some(root),
        } => claim_chunks(alloc, image, claims, array.fixed(), sizes, *root),
    }
}

/// Claims the chunks of these sizes in the tree at this root, and the nodes of the tree; refused as `read_chunks` says.
// A call of its own: the room for 32 sizes is cleared where there are chunks alone.
#[inline(never)]
fn claim_chunks(
    alloc: Global,
    image: &Image,
    claims: &mut Claims,
    fixed: Fixed,
    sizes: &ChunkSizes<'_>,
    root: u64,
) -> Result<(), OpenFault>
    requires superblock { IsSuperblock image.now.bytes }
    requires end { claims.old.end ≡ length image.now.bytes }
    requires small { cells_of sizes.now * fixed.size ≤ most_chunk_bytes }
    ensures read { OnOk result (AreDataRead image.now.bytes fixed (InChunks sizes.now (Some root))) }
    ensures claimed { OnOk result (HasClaimed claims.old claims.new
        (data_blocks image.now.bytes fixed (InChunks sizes.now (Some root)))) }
    ensures end { claims.new.end ≡ claims.old.end }
    ensures followed { OnOk result (FollowsData image.now.bytes claims.old.held claims.new.held fixed
        (InChunks sizes.now (Some root))) }
    ensures refused { IfErr result (λ fault. IsDataFault image.now.bytes claims.old.held fixed
        (InChunks sizes.now (Some root)) fault.cause fault.address) }
{
    let dims = sizes.dims();
    let shape = ChunkShape::new(dims.sizes(), dims.cells() * fixed.size() as u64);
    read_chunks(alloc, image, claims, &shape, root)
}

/// Claims the blocks of an object that is kept, and refuses them as `claim`, `read_group` and `read_chunks` do.
pub(crate) fn claim_object(
    alloc: Global,
    image: &Image,
    claims: &mut Claims,
    object: &OpenedObject,
) -> Result<(), OpenFault>
    requires superblock { IsSuperblock image.now.bytes }
    requires kept { IsObjectKept image.now.bytes object.now }
    requires end { claims.old.end ≡ length image.now.bytes }
    requires separate { Separate claims.old.held }
    ensures claimed { OnOk result (HasClaimed claims.old claims.new
        (object_blocks image.now.bytes object.now)) }
    ensures end { claims.new.end ≡ claims.old.end }
{
    claim_blocks(claims, object.messages.blocks())?;
    match &object.content {
        OpenedContent::Group(table) => read_group(alloc, image, claims, *table),
        OpenedContent::Array => {
            let array = known_array(&HeaderRef::new(image, &object.messages));
            claim_data(alloc, image, claims, &array)
        }
    }
}

/// Claims these blocks, and refuses them as `claim` does.
fn claim_blocks(claims: &mut Claims, blocks: &[Block]) -> Result<(), OpenFault>
    requires separate { Separate claims.old.held }
    ensures claimed { OnOk result (HasClaimed claims.old claims.new blocks.now) }
    ensures end { claims.new.end ≡ claims.old.end }
{
    for block in blocks {
        claim(claims, *block)?;
    }
    Ok(())
}

/// The links of an object; an array has none.
pub(crate) fn links_in<'a>(
    alloc: Global,
    image: &'a Image,
    object: &OpenedObject,
) -> Result<Links<'a>, OpenFault>
    requires { IsObjectKept image.now.bytes object.now }
    ensures links { IfOk result (λ links. links ≡ object_links image.now.bytes object.now.content) }
    ensures refused { IfErr result (λ fault. fault.cause ≡ Cause.NoMemory) }
{
    let OpenedContent::Group(table) = &object.content else {
        return Ok(Links::none(alloc, image));
    };
    match group_links(alloc, image, *table) {
        Ok(links) => Ok(links),
        Err(_) => Err(fault(Cause::NoMemory, object.messages.header())),
    }
}
