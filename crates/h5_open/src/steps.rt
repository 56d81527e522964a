//! The walk of opening: from the superblock to all objects, depth first (File Format Specification 3.0, sections II.A, III and IV.A).

ghost use Rattle.std.specs.Prelude.{◌≡◌, ◌+◌, ◌≤◌, [], List, ℕ, length, IfOk, IfErr, OnOk};
ghost use Rattle.std.specs.List.{Contains};
ghost use Rattle.h5_model.specs.Format.Limits.{most_bytes, most_names};
ghost use Rattle.h5_model.specs.Format.Superblock.{IsSuperblock, end_of_file};
ghost use Rattle.h5_model.specs.Format.Symbols.{Header};
ghost use Rattle.h5_header.specs.Walk.Walked.{IsWalked};
ghost use Rattle.h5_open.specs.Opened.Kept.{IsOpened};
ghost use Rattle.h5_open.specs.Opened.Refused.{IsOpenRefusedAt, ReadsSome};
ghost use Rattle.h5_open.specs.Opened.Objects.{IsDense, headers, objects_of};
ghost use Rattle.h5_bytes.specs.Blocks.{Separate};
ghost use Rattle.h5_open.specs.Walk.{IsNumbered, ReadsFrom, IsFaultFrom, ReadsLink, IsLinkFault, CountsLink};

use crate::counts::{Tally, check_counts, count_again, push_counted};
use crate::index::{Index, known_number};
use crate::object::{links_in, read_object};
use h5_bytes::Block;
use h5_group::GroupLink;
use h5_header::claim;
use h5_model::{Cause, LinkTo, OpenFault};
use h5_space::{AddressMap, Claims, Image, root_header, superblock_length};
use std::alloc::Global;

/// Walks an image: reads the root, and all objects to which links lead from there; `Opened::open` says what is refused.
///
/// That the image begins with a superblock, ends where that says, and has no free block, are the caller's conditions.
pub(crate) fn walk(alloc: Global, image: &Image) -> Result<Index, OpenFault>
    requires superblock { IsSuperblock image.now.bytes }
    requires whole { end_of_file image.now.bytes ≡ length image.now.bytes }
    requires free { image.now.free ≡ [] }
    ensures kept { IfOk result (λ o. IsOpened image.now o.objects.items o.numbers) }
    ensures all { IfOk result (λ o. IsDense o.objects.items) }
    ensures refused { IfErr result (λ fault. IsOpenRefusedAt image.now.bytes fault.cause fault.address) }
    ensures only { IfErr result (λ fault. ReadsSome image.now.bytes → fault.cause ≡ Cause.NoMemory) }
{
    let mut claims = claim_superblock(alloc, image)?;
    let mut tally = Tally {
        index: Index {
            objects: Vec::new(alloc),
            numbers: AddressMap::new(alloc),
        },
        counts: Vec::new(alloc),
    };
    let header = root_header(image.bytes());
    read_tree(alloc, image, &mut claims, &mut tally, header, 0)?;
    check_counts(image, &tally)?;
    Ok(tally.index)
}

/// Claims the superblock.
fn claim_superblock(alloc: Global, image: &Image) -> Result<Claims, OpenFault>
    requires { IsSuperblock image.now.bytes }
    ensures walked { IfOk result (λ claims. IsWalked image.now.bytes claims.held []) }
    ensures separate { IfOk result (λ claims. Separate claims.held) }
    ensures end { IfOk result (λ claims. claims.end ≡ length image.now.bytes) }
    ensures refused { IfErr result (λ fault. fault.cause ≡ Cause.NoMemory) }
{
    let mut claims = Claims::new(alloc, image.bytes().len() as u64);
    let superblock = Block {
        at: 0,
        len: superblock_length(image.bytes()),
    };
    claim(&mut claims, superblock)?;
    Ok(claims)
}

/// Reads the object at `header`, so many links below the root, and all objects below it that were not read before. The link to it
/// and those that are followed then are counted.
#[cycle(tree)]
fn read_tree(
    alloc: Global,
    image: &Image,
    claims: &mut Claims,
    tally: &mut Tally,
    header: u64,
    depth: u8,
) -> Result<(), OpenFault>
    requires superblock { IsSuperblock image.now.bytes }
    requires small { length image.now.bytes ≤ most_bytes }
    requires end { claims.old.end ≡ length image.now.bytes }
    requires index { IsNumbered tally.old.index.objects.items tally.old.index.numbers }
    requires length { length tally.old.counts.items ≡ length tally.old.index.objects.items }
    requires new { Contains (headers (objects_of tally.old.index.objects.items)) header → ⊥ }
    requires depth { depth ≤ most_names }
    ensures end { claims.new.end ≡ claims.old.end }
    ensures index { OnOk result (IsNumbered tally.new.index.objects.items tally.new.index.numbers) }
    ensures length { OnOk result (length tally.new.counts.items ≡ length tally.new.index.objects.items) }
    ensures read { OnOk result (ReadsFrom image.now.bytes claims.old.held claims.new.held
        (objects_of tally.old.index.objects.items) (objects_of tally.new.index.objects.items) header depth) }
    ensures counted { OnOk result ((name : List ℕ) → CountsLink image.now.bytes
        (objects_of tally.old.index.objects.items) tally.old.counts.items
        (objects_of tally.new.index.objects.items) tally.new.counts.items (name, Header header)) }
    ensures refused { IfErr result (λ fault. (name : List ℕ) → IsFaultFrom image.now.bytes claims.old.held
        (objects_of tally.old.index.objects.items) tally.old.counts.items name header depth fault.cause
        fault.address) }
{
    let object = read_object(alloc, image, claims, header, depth)?;
    let links = links_in(alloc, image, &object)?;
    push_counted(tally, object)?;
    for link in links {
        follow(alloc, image, claims, tally, &link, depth)?;
    }
    Ok(())
}

/// Counts a link of an object that is so many links below the root, and reads what it leads to, where that was not read before.
#[cycle(tree)]
fn follow(
    alloc: Global,
    image: &Image,
    claims: &mut Claims,
    tally: &mut Tally,
    link: &GroupLink<'_>,
    depth: u8,
) -> Result<(), OpenFault>
    requires superblock { IsSuperblock image.now.bytes }
    requires small { length image.now.bytes ≤ most_bytes }
    requires end { claims.old.end ≡ length image.now.bytes }
    requires index { IsNumbered tally.old.index.objects.items tally.old.index.numbers }
    requires length { length tally.old.counts.items ≡ length tally.old.index.objects.items }
    requires depth { depth + 1 ≤ most_names }
    ensures end { claims.new.end ≡ claims.old.end }
    ensures index { OnOk result (IsNumbered tally.new.index.objects.items tally.new.index.numbers) }
    ensures length { OnOk result (length tally.new.counts.items ≡ length tally.new.index.objects.items) }
    ensures read { OnOk result (ReadsLink image.now.bytes claims.old.held claims.new.held
        (objects_of tally.old.index.objects.items) (objects_of tally.new.index.objects.items) depth
        link.now) }
    ensures counted { OnOk result (CountsLink image.now.bytes
        (objects_of tally.old.index.objects.items) tally.old.counts.items
        (objects_of tally.new.index.objects.items) tally.new.counts.items link.now) }
    ensures refused { IfErr result (λ fault. IsLinkFault image.now.bytes claims.old.held
        (objects_of tally.old.index.objects.items) tally.old.counts.items depth link.now
        fault.cause fault.address) }
{
    let LinkTo::Object(header) = link.to() else {
        return Ok(());
    };
    match known_number(&tally.index, header) {
        Some(number) => count_again(tally, number),
        None => read_tree(alloc, image, claims, tally, header, depth + 1),
    }
}
