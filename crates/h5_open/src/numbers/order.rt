//! Objects of an opened image in another order.

ghost use Rattle.std.specs.Prelude.{◌≡◌, ◌+◌, ◌-◌, ◌<◌, ◌≤◌, ◌++◌, None, OnErr, OnOk, length, replicate};
ghost use Rattle.h5_model.specs.Format.Limits.{most_numbers};
ghost use Rattle.h5_open.specs.Opened.Kept.{IsOpened, IsIndex};
ghost use Rattle.h5_open.specs.Opened.Objects.{table_of};
ghost use Rattle.h5_open.specs.Opened.Sound.{IsHeaderIn};
ghost use Rattle.h5_open.specs.Renumbered.Exchanged.{IsGivenNumber};
ghost use Rattle.h5_open.specs.Renumbered.Headers.{IsReadAt, table_with};

use crate::index::Index;
use h5_space::Image;
use std::alloc::AllocError;

/// Gives each object the number that its header's address has among `headers`. A slot for which there is no address is left empty. It
/// takes memory for slots beyond those that there are; where that is refused, nothing is changed.
///
/// That the image reads as a tree whose objects have their headers at these addresses is the caller's condition, and so are that there
/// is an address or none for each number that was given out, and that numbers have 32 bits; the image itself is not read again.
pub(crate) fn renumber(
    image: &Image,
    index: &mut Index,
    headers: &[Option<u64>],
) -> Result<(), AllocError>
    requires opened { IsOpened image.now index.old.objects.items index.old.numbers }
    requires read { IsReadAt image.now.bytes headers.now }
    requires given { length index.old.objects.items ≤ length headers.now }
    requires few { length headers.now ≤ most_numbers }
    ensures opened { OnOk result (IsOpened image.now index.new.objects.items index.new.numbers) }
    ensures table { OnOk result (table_of index.new.objects.items ≡ table_with headers.now) }
    ensures length { OnOk result (length index.new.objects.items ≡ length headers.now) }
    ensures objects { OnErr result (index.new.objects.items ≡ index.old.objects.items) }
    ensures numbers { OnErr result (index.new.numbers ≡ index.old.numbers) }
{
    leave_slots(index, headers.len())?;
    for (number, header) in headers.iter().enumerate() {
        if let Some(header) = header {
            give_number(index, *header, number as u32);
        }
    }
    Ok(())
}

/// Leaves empty slots behind those that there are, so that there are so many. Where memory is refused, nothing is changed.
fn leave_slots(index: &mut Index, count: usize) -> Result<(), AllocError>
    requires given { length index.old.objects.items ≤ count }
    ensures left { OnOk result (index.new.objects.items
        ≡ index.old.objects.items ++ replicate (count - length index.old.objects.items) None) }
    ensures numbers { index.new.numbers ≡ index.old.numbers }
    ensures objects { OnErr result (index.new.objects.items ≡ index.old.objects.items) }
{
    index.objects.resize_with(
        count,
        ||
            ensures { result ≡ None }
        { None },
    )
}

/// Gives this number to the object whose header is at this address; the object that had it, if any, gets the other's. The keys of
/// the table stay the same, so that it takes no memory.
///
/// That there is such an object, and that the number was given out, are the caller's conditions.
fn give_number(index: &mut Index, header: u64, number: u32)
    requires index { IsIndex (table_of index.old.objects.items) index.old.numbers }
    requires there { IsHeaderIn (table_of index.old.objects.items) header }
    requires number { number < length index.old.objects.items }
    ensures index { IsIndex (table_of index.new.objects.items) index.new.numbers }
    ensures given { IsGivenNumber index.old.objects.items index.new.objects.items header number }
    ensures len { length index.new.objects.items ≡ length index.old.objects.items }
{
    let before = index.numbers.get(header).unwrap();
    index.objects.swap(number as usize, before as usize);
    index.numbers.replace(header, number);
    if let Some(other) = &index.objects[before as usize] {
        index.numbers.replace(other.messages.header(), before);
    }
}
