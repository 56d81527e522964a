//! Cells that read the fill, as bytes (File Format Specification 3.0, section IV.A.2.d, class 0).

ghost use Rattle.std.specs.Prelude.{◌≡◌, ◌*◌, ◌++◌, ◌≤◌, ◌^◌, true, OnOk, replicate};
ghost use Rattle.h5_model.specs.Format.Fixed.{IsFixed, fits};
ghost use Rattle.h5_model.specs.Format.Plain.{cells_bytes};

use h5_bytes::push_bytes;
use h5_model::Fixed;
use h5_msg::write_values;
use std::alloc::AllocError;
use std::marker::Model;

/// How many cells are appended at a time.
const TILE: usize = 64;

/// The bytes of so many cells, each of which is the fill.
#[derive(Drop)]
pub(crate) struct FillTile {
    fixed: Fixed,
    // The value of each cell. Contracts alone read it.
    fill: i128,
    bytes: [u8; 512],
}

impl Model for FillTile {
    ghost use Rattle.std.specs.Prelude.{◌≡◌, ◌*◌, take, replicate};
    ghost use Rattle.h5_model.specs.Format.Plain.{cells_bytes};
    ghost use Rattle.h5_layout.specs.Spans.{CellFill};

    ghost Value = { CellFill };

    ghost view = { λ f. record { fixed = f.fixed; fill = f.fill } };

    ghost invariant = { λ f. take (64 * f.fixed.size) f.bytes ≡ cells_bytes f.fixed (replicate 64 f.fill) };
}

impl FillTile {
    /// Cells of this type that read this fill, a value of the type.
    pub(crate) fn new(fixed: Fixed, fill: i128) -> FillTile
        requires { fits fixed fill ≡ true }
        ensures { result ≡ record { fixed = fixed; fill = fill } }
    {
        let mut bytes = [0; 8 * TILE];
        write_values(&fixed, &[fill; TILE], &mut bytes[..TILE * fixed.size()]);
        FillTile { fixed, fill, bytes }
    }

    /// How many bytes a cell has.
    pub(crate) fn size(&self) -> usize
        ensures exact { result ≡ self.now.fixed.size }
        ensures sound { IsFixed self.now.fixed }
    {
        self.fixed.size()
    }

    /// Appends so many cells. Takes no memory but for what is appended.
    pub(crate) fn push(&self, out: &mut Vec<u8>, count: usize) -> Result<(), AllocError>
        ensures { OnOk result
            (out.new.items ≡ out.old.items ++ cells_bytes self.now.fixed (replicate count self.now.fill)) }
    {
        let tile = &self.bytes[..TILE * self.fixed.size()];
        for _tile in 0..count / TILE {
            push_bytes(out, tile)?;
        }
        push_bytes(out, &tile[..count % TILE * self.fixed.size()])
    }
}
