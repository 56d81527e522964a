//! Laws of readings: an image with a fault of opening has no reading; with a table of headers it has one at most;
//! readings by two tables differ in the numbers of objects alone. The trees are sound, and accepted edits keep them
//! so.
//!
//! A reading is a tree that the bytes are (File Format Specification 3.0, sections II, III and IV). A fault is a
//! cause at an address: a rule of the superblock, or of a block that is reached from it, is broken. Both are
//! definitions of `h5_model`, and neither uses the other.
#![tactic(auto)]

ghost use Rattle.h5_model.specs.Faults.Breaches.{BreachExcludesReads};
ghost use Rattle.h5_laws.specs.Readings.{ReadsOnce, ReadsAlike};
ghost use Rattle.h5_laws.specs.Trees.Laws.{ReadsSound, SoundApplied};

/// Where a cause holds at an address, the bytes up to the end of file address are no tree, at whatever headers its
/// objects are said to stand. It does nothing.
///
/// So bytes that are refused with a cause that holds could not have been opened.
pub fn breach_excludes_reads()
    ensures { BreachExcludesReads }
{
    // `Excluded.breach_excludes_reads` proves it.
}

/// An image reads as one tree at most, where the header of each object is given by its number. It does nothing.
pub fn table_reads_once()
    ensures { ReadsOnce }
{
    // `OneReading.one_reading` of `h5_model` proves it.
}

/// With two tables of headers, an image reads as trees that differ in the numbers of their objects alone. It does
/// nothing.
pub fn tables_read_alike()
    ensures { ReadsAlike }
{
    // `TwoTables.reads_alike` proves it.
}

/// The tree of an image is sound, and so is what an accepted edit gives of a sound tree. It does nothing.
///
/// So each object of a file has a path of at most 64 names, and each group but the root has one link.
pub fn trees_are_sound()
    ensures read { ReadsSound }
    ensures edited { SoundApplied }
{
    // `Read.reads_sound` and `Applied.sound_applied` of `SoundLaws` prove it.
}
