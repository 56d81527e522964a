//! What goes with a link: the objects that lose all their hard links, and those that lose some (File Format Specification 3.0, sections
//! III.C and IV.A.1.a).

ghost use Rattle.std.specs.Prelude.{◌≡◌, ◌==◌, ℕ, ◌+◌, ◌-◌, ◌<◌, ◌≤◌, [], ◌∷◌, ◌++◌, if◌then◌else◌, List, IfOk, IsSome, OnOk, Some, length, slice_get};
ghost use Rattle.std.specs.FinMap.{get};
ghost use Rattle.h5_bytes.specs.Blocks.{Separate};
ghost use Rattle.h5_laws.specs.Trees.Unlinked.{links_from};
ghost use Rattle.h5_model.specs.Format.Limits.{most_hard_links};
ghost use Rattle.h5_model.specs.Format.Messages.{prefix_at, reference_count};
ghost use Rattle.h5_model.specs.Format.Superblock.{IsSuperblock};
ghost use Rattle.h5_model.specs.Tree.Objects.{Link, hard_links, object_of};
ghost use Rattle.h5_open.specs.declared.opened.object.OpenedObject.{OpenedObject};
ghost use Rattle.h5_open.specs.LinkTaken.{IsLinkTo};
ghost use Rattle.h5_open.specs.Losses.{AreLosses};
ghost use Rattle.h5_open.specs.LostLinks.{HaveLostLinks, AreMoreLost, AreLossesParted, IsLossPut, links_lost};
ghost use Rattle.h5_open.specs.Opened.Kept.{IsObjectKept, IsOpened};
ghost use Rattle.h5_open.specs.Opened.Objects.{object_blocks, tree_of};
ghost use Rattle.h5_open.specs.SlotsInPlace.{blocks_at};

use super::OpenedObject;
use crate::index::{Index, object_numbered};
use crate::object::{claim_object, links_in};
use h5_model::LinkTo;
use h5_space::{Claims, Image};
use std::alloc::{AllocError, Global};
use std::collections::BTreeMap;

/// What goes with a link that is taken out of its group.
#[derive(Drop)]
pub(super) struct Losses {
    /// The objects that lose all their hard links, by their numbers.
    pub(super) gone: Vec<u32>,
    /// The arrays that lose some of theirs, each with how many are left to it.
    pub(super) less: Vec<(u32, u32)>,
    /// The blocks of the objects that go.
    pub(super) blocks: Claims,
}

/// The objects that lose hard links, as far as these were looked for.
#[derive(Drop)]
struct LostLinks {
    /// Their numbers, in the order in which they lost their first links.
    numbers: Vec<u32>,
    /// How many links each has lost.
    counts: BTreeMap<u32, u32>,
}

/// What goes with a link to this object, or to a text where there is none.
///
/// Of each group that is found the links are looked at once, since a group loses its one link. Takes memory for the addresses of the
/// symbol nodes of one group at a time, for the objects that lose links, and for the blocks of those that go.
///
/// # Errors
///
/// `AllocError` if memory is refused.
pub(super) fn losses_of(
    alloc: Global,
    image: &Image,
    index: &Index,
    object: Option<u32>,
) -> Result<Losses, AllocError>
    requires opened { IsOpened image.now index.now.objects.items index.now.numbers }
    requires there { (parent : ℕ) × (name : List ℕ)
        × IsLinkTo (tree_of image.now.bytes index.now.objects.items) parent name object }
    ensures losses { IfOk result (λ l. (link : Link) → object ≡ object_of link
        → AreLosses image.now.bytes index.now.objects.items link l.gone.items l.less.items l.blocks.held) }
    ensures inside { IfOk result (λ l. l.blocks.end ≡ length image.now.bytes) }
{
    let mut lost = LostLinks {
        numbers: Vec::new(alloc),
        counts: BTreeMap::new(alloc),
    };
    if let Some(number) = object {
        lose(&mut lost, number)?;
    }
    let mut done = 0;
    while let Some(&number) = lost.numbers.get(done) {
        lose_links(alloc, image, index, &mut lost, number)?;
        done += 1;
    }
    part_losses(alloc, image, index, &lost)
}

/// Counts the links that are lost with the object of this number: all hard ones of a group. An array has none.
fn lose_links(
    alloc: Global,
    image: &Image,
    index: &Index,
    lost: &mut LostLinks,
    number: u32,
) -> Result<(), AllocError>
    requires opened { IsOpened image.now index.now.objects.items index.now.numbers }
    requires there { IsSome (get (tree_of image.now.bytes index.now.objects.items) number) }
    requires lost { HaveLostLinks lost.old.numbers.items lost.old.counts }
    requires few { (n : ℕ) → links_lost lost.old.counts n
        + links_from (tree_of image.now.bytes index.now.objects.items) (number ∷ []) n ≤ most_hard_links }
    ensures { OnOk result (AreMoreLost lost.old lost.new
        (links_from (tree_of image.now.bytes index.now.objects.items) (number ∷ []))) }
{
    let object = object_numbered(index, number);
    let Ok(links) = links_in(alloc, image, object) else {
        return Err(AllocError);
    };
    for link in links {
        let LinkTo::Object(header) = link.to() else {
            continue;
        };
        let target = index.numbers.get(header).unwrap();
        lose(lost, target)?;
    }
    Ok(())
}

/// Counts one lost link to the object of this number.
fn lose(lost: &mut LostLinks, number: u32) -> Result<(), AllocError>
    requires lost { HaveLostLinks lost.old.numbers.items lost.old.counts }
    requires few { links_lost lost.old.counts number < most_hard_links }
    ensures { OnOk result (AreMoreLost lost.old lost.new (λ n. if n == number then 1 else 0)) }
{
    let before = lost.counts.get(&number).copied().unwrap_or(0);
    lost.counts.insert(number, before + 1)?;
    if before == 0 {
        lost.numbers.push(number)?;
    }
    Ok(())
}

/// Parts the objects that lose links: those that lose all go, with their blocks, and to each other one so many are left.
fn part_losses(
    alloc: Global,
    image: &Image,
    index: &Index,
    lost: &LostLinks,
) -> Result<Losses, AllocError>
    requires opened { IsOpened image.now index.now.objects.items index.now.numbers }
    requires lost { HaveLostLinks lost.now.numbers.items lost.now.counts }
    requires few { (n : ℕ) → links_lost lost.now.counts n
        ≤ hard_links (tree_of image.now.bytes index.now.objects.items) n }
    ensures parted { IfOk result (λ l. AreLossesParted
        (hard_links (tree_of image.now.bytes index.now.objects.items)) (links_lost lost.now.counts)
        (blocks_at image.now.bytes index.now.objects.items)
        lost.now.numbers.items l.gone.items l.less.items l.blocks.held) }
    ensures inside { IfOk result (λ l. l.blocks.end ≡ length image.now.bytes) }
{
    let mut losses = Losses {
        gone: Vec::new(alloc),
        less: Vec::new(alloc),
        blocks: Claims::new(alloc, image.bytes().len() as u64),
    };
    for &number in &lost.numbers {
        let count = lost.counts.get(&number).copied().unwrap_or(0);
        let object = object_numbered(index, number);
        put_loss(alloc, image, &mut losses, number, object, count)?;
    }
    Ok(losses)
}

/// Adds the object of this number, which loses so many links.
fn put_loss(
    alloc: Global,
    image: &Image,
    losses: &mut Losses,
    number: u32,
    object: &OpenedObject,
    lost: u32,
) -> Result<(), AllocError>
    requires superblock { IsSuperblock image.now.bytes }
    requires kept { IsObjectKept image.now.bytes object.now }
    requires few { lost ≤ reference_count (prefix_at image.now.bytes object.now.messages.header) }
    requires separate { Separate losses.old.blocks.held }
    requires inside { losses.old.blocks.end ≡ length image.now.bytes }
    ensures put { OnOk result (IsLossPut losses.old losses.new number
        (reference_count (prefix_at image.now.bytes object.now.messages.header) - lost)
        (object_blocks image.now.bytes object.now)) }
    ensures separate { OnOk result (Separate losses.new.blocks.held) }
    ensures inside { losses.new.blocks.end ≡ losses.old.blocks.end }
{
    let left = object.messages.links(image) - lost;
    if left > 0 {
        losses.less.push((number, left))?;
        return Ok(());
    }
    let Ok(()) = claim_object(alloc, image, &mut losses.blocks, object) else {
        return Err(AllocError);
    };
    losses.gone.push(number)?;
    Ok(())
}
