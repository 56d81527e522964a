//! The K values of an image (File Format Specification 3.0, section II.A).

ghost use Rattle.std.specs.Prelude.{◌≡◌};
ghost use Rattle.h5_model.specs.Format.Superblock.{chunk_k_of};

/// K of the nodes of chunk trees where the superblock has no field for it.
const CHUNK_K: u16 = 32;

/// How many entries the nodes of an image have room for: twice its K. `leaf` is K of symbol nodes, `internal` that of the
/// nodes of groups' trees, and `chunk` that of the nodes of chunk trees, for which a superblock of version 0 has no field.
#[derive(Clone, Copy, PartialEq, Eq, Debug)]
pub struct KValues {
    pub leaf: u16,
    pub internal: u16,
    pub chunk: Option<u16>,
}

impl KValues {
    /// K of the nodes of chunk trees: 32 where the superblock has no field for it.
    pub fn chunk_k(&self) -> u16
        ensures { result ≡ chunk_k_of self.now }
    {
        self.chunk.unwrap_or(CHUNK_K)
    }
}
