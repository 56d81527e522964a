//! What stands behind the messages of an object's content when the object is written (File Format Specification 3.0, sections
//! IV.A.2.m, IV.A.2.n, IV.A.2.o and IV.A.2.s).

ghost use Rattle.std.specs.Prelude.{◌≡◌, ◌≤◌, ◌==◌, ◌||◌, length, IfOk, OnOk};
ghost use Rattle.std.specs.List.{AllByRecursion};
ghost use Rattle.std.specs.FinMap.{empty};
ghost use Rattle.h5_model.specs.Format.MessageTypes.{comment_kind, old_modification_time_kind, modification_time_kind};
ghost use Rattle.h5_model.specs.Format.Messages.{most_messages};
ghost use Rattle.h5_model.specs.Format.Reads.{HasAttributes};
ghost use Rattle.h5_model.specs.Tree.Objects.{Content, Group};
ghost use Rattle.h5_query.specs.Attributes.{attributes_of};
ghost use Rattle.h5_query.specs.Opened.Headers.{object_with};
ghost use Rattle.h5_repack.specs.Bodies.Bodies.{others_of};
ghost use Rattle.h5_repack.specs.Bodies.Sound.{IsPlainAttribute, IsPlainKept, IsPlainObject};
ghost use Rattle.h5_repack.specs.Blocks.Written.{AreOthers};
ghost use Rattle.h5_edit.specs.Changed.Appended.{Appends, HasPlaces, attribute_messages, kept_in, kept_messages};

use crate::change::parts::part_of;
use h5_header::HeaderRef;
use h5_model::message_type::{COMMENT, MODIFICATION_TIME, OLD_MODIFICATION_TIME};
use h5_query::{AttrRef, sorted};
use h5_repack::Others;
use std::alloc::{AllocError, Global};

/// The kept messages of a header in their order, and then its attributes by their names.
pub(crate) fn others_in(alloc: Global, header: &HeaderRef<'_>) -> Result<Others, AllocError>
    requires attributes { HasAttributes header.now.messages (attributes_of header.now.messages) }
    requires plain { IsPlainObject (object_with (Group empty) header.now.messages) }
    requires few { length (others_of (object_with (Group empty) header.now.messages)) ≤ most_messages }
    ensures { IfOk result (λ others. (content : Content)
        → AreOthers (others_of (object_with content header.now.messages)) others) }
{
    let mut others = Others::new(alloc);
    push_kept(&mut others, header)?;
    let attributes = sorted(alloc, header)?;
    push_all(&mut others, &attributes)?;
    Ok(others)
}

/// Appends the kept messages.
fn push_kept(others: &mut Others, header: &HeaderRef<'_>) -> Result<(), AllocError>
    requires plain { AllByRecursion IsPlainKept (kept_in header.now.messages) }
    requires few { HasPlaces others.old (length (kept_messages header.now.messages)) }
    ensures { OnOk result (Appends others.old others.new (kept_messages header.now.messages)) }
{
    for message in header.list() {
        if is_kept(message.kind) {
            let body = part_of(header.bytes(), message.at, message.size as u64);
            others.push_kept(message.kind, body)?;
        }
    }
    Ok(())
}

/// Whether messages of this type are kept as they stand: comments and modification times.
fn is_kept(kind: u16) -> bool
    ensures { result ≡ ((kind == comment_kind || kind == old_modification_time_kind)
        || kind == modification_time_kind) }
{
    matches!(kind, COMMENT | OLD_MODIFICATION_TIME | MODIFICATION_TIME)
}

/// Appends the attributes as they are.
fn push_all(others: &mut Others, list: &[AttrRef<'_>]) -> Result<(), AllocError>
    requires plain { AllByRecursion IsPlainAttribute list.now }
    requires few { HasPlaces others.old (length list.now) }
    ensures { OnOk result (Appends others.old others.new (attribute_messages list.now)) }
{
    for attribute in list {
        others.push_stored(attribute)?;
    }
    Ok(())
}
