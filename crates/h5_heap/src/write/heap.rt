//! A heap with the texts of a group's links (File Format Specification 3.0, section III.D).
ghost use Rattle.std.specs.Prelude.{◌≡◌, ◌+◌, ◌^◌, ◌<◌, ◌≤◌, ◌++◌, [], ◌∷◌, OnOk, MatchOption, length, map, sum_by, nat_le, if◌then◌else◌};
ghost use Rattle.std.specs.List.{flat_map};
ghost use Rattle.h5_model.specs.Format.Limits.{most_bytes};
ghost use Rattle.h5_model.specs.Format.Plain.{padded_text};
ghost use Rattle.h5_model.specs.Format.Sizes.{text_span as text_size};
ghost use Rattle.h5_heap.specs.Writing.Links.{name_and_leads, heap_texts};
ghost use Rattle.h5_heap.specs.Writing.Written.{heap_bytes, written_segment, texts_span as span};

use crate::write::link::ObjectPlace;
use crate::write::parts::{push_free_rest, push_heap_header, push_text, text_span};
use h5_bytes::push_zeros;
use h5_model::{Link, LinkTo};
use h5_space::MAXIMUM_IMAGE;
use std::alloc::AllocError;

/// How many bytes the texts of a link take in the heap: its name, and the text of a soft link.
///
/// That `segment_length` has counted the link is the caller's condition.
pub fn link_span(link: &Link<'_, ObjectPlace>) -> usize
    requires { span (name_and_leads link.now) < 2 ^ 64 }
    ensures { result ≡ span (name_and_leads link.now) }
{
    let name = text_span(link.name);
    match link.to {
        LinkTo::Object(_) => name,
        LinkTo::Soft(text) => name + text_span(text),
    }
}

/// How many bytes are used with a text behind so many, or `None` where they are more than 2147483648.
fn behind_text(used: u64, text: &[u8]) -> Option<u64>
    requires { used ≤ most_bytes }
    ensures { MatchOption result (most_bytes < used + text_size text.now) (λ n.
        (n ≡ used + text_size text.now) × (n ≤ most_bytes)) }
{
    let end = used + text_span(text) as u64;
    if end > MAXIMUM_IMAGE { None } else { Some(end) }
}

/// How many bytes are used with a link's texts behind so many, or `None` where they are more than 2147483648.
fn behind_link(used: u64, link: &Link<'_, ObjectPlace>) -> Option<u64>
    requires { used ≤ most_bytes }
    ensures { MatchOption result (most_bytes < used + span (name_and_leads link.now)) (λ n.
        (n ≡ used + span (name_and_leads link.now)) × (n ≤ most_bytes)) }
{
    let end = behind_text(used, link.name)?;
    match link.to {
        LinkTo::Object(_) => Some(end),
        LinkTo::Soft(text) => behind_text(end, text),
    }
}

/// How many bytes of the segment the empty name and the texts of these links occupy, or `None` where it is more than 2147483648.
fn used_length(links: &[Link<'_, ObjectPlace>]) -> Option<u64>
    ensures { MatchOption result (most_bytes < 8 + sum_by span (map name_and_leads links.now))
        (λ n. (n ≡ 8 + sum_by span (map name_and_leads links.now)) × (n ≤ most_bytes)) }
{
    let mut used = 8;
    for link in links {
        used = behind_link(used, link)?;
    }
    Some(used)
}

/// How many bytes the segment of these links has, or `None` where it has more than 2147483648.
pub fn segment_length(links: &[Link<'_, ObjectPlace>]) -> Option<u64>
    ensures { MatchOption result (most_bytes < length (written_segment (map name_and_leads links.now)))
        (λ n. (n ≡ length (written_segment (map name_and_leads links.now))) × (n ≤ most_bytes)) }
{
    let used = used_length(links)?;
    Some(if used <= 72 { 88 } else { used })
}

/// The offset of the first free block of a segment of which so many bytes are used, or 1 where there is none.
fn free_head(used: u64) -> u64
    ensures { result ≡ (if nat_le used 72 then used else 1) }
{
    if used <= 72 { used } else { 1 }
}

/// A link's name, and the text of a soft link.
fn push_link_texts(out: &mut Vec<u8>, link: &Link<'_, ObjectPlace>) -> Result<(), AllocError>
    ensures { OnOk result
        (out.new.items ≡ out.old.items ++ flat_map padded_text (heap_texts (name_and_leads link.now ∷ []))) }
{
    push_text(out, link.name)?;
    match link.to {
        LinkTo::Object(_) => Ok(()),
        LinkTo::Soft(text) => push_text(out, text),
    }
}

/// The names of these links and the texts of soft links, one behind another.
fn push_texts(out: &mut Vec<u8>, links: &[Link<'_, ObjectPlace>]) -> Result<(), AllocError>
    ensures { OnOk result
        (out.new.items ≡ out.old.items ++ flat_map padded_text (heap_texts (map name_and_leads links.now))) }
{
    for link in links {
        push_link_texts(out, link)?;
    }
    Ok(())
}

/// Appends the heap with the texts of these links: its header at the address `at`, and behind it its segment, of
/// `size` bytes.
///
/// # Errors
///
/// `AllocError` if memory is refused. How many of the bytes stand in `out` then is left open.
pub fn push_heap(
    out: &mut Vec<u8>,
    at: u64,
    size: u64,
    links: &[Link<'_, ObjectPlace>],
) -> Result<(), AllocError>
    requires size { size ≡ length (written_segment (map name_and_leads links.now)) }
    requires low { at + 32 + size ≤ most_bytes }
    ensures { OnOk result (out.new.items ≡ out.old.items ++ heap_bytes at (map name_and_leads links.now)) }
{
    // a free block is there or not, whatever the segment's size: 88 bytes may all be used
    let used = used_length(links).unwrap();
    push_heap_header(out, size, free_head(used), at + 32)?;
    push_zeros(out, 8)?;
    push_texts(out, links)?;
    push_free_rest(out, used)?;
    Ok(())
}
