//! Rules on the bodies of a dataset's messages.

ghost use Rattle.std.specs.Prelude.{◌≡◌, ◌-◌, ◌≤◌, ◌^◌, Some, IfOk, IfErr, drop, length, min, ok_or, false, true};
ghost use Rattle.h5_model.specs.Format.Limits.{most_cells};
ghost use Rattle.h5_model.specs.Tree.Places.{cells as cells_of, extent_cells};
ghost use Rattle.h5_model.specs.Format.Extent.{extent_of};
ghost use Rattle.h5_model.specs.Format.Datatype.{fixed_of};
ghost use Rattle.h5_model.specs.Format.Fixed.{IsFixed, fits};
ghost use Rattle.h5_model.specs.Format.Fill.{fill_value, old_fill_value};
ghost use Rattle.h5_model.specs.Format.Layout.{layout_of};
ghost use Rattle.h5_msg.specs.Layouts.{layout_in};
ghost use Rattle.h5_layout.specs.Judged.{is_chunk_large as is_large, layout_breach, space_breach};

use h5_model::{Cause, Fixed};
use h5_msg::{
    ChunkSizes, Dataspace, Layout, read_dataspace, read_datatype, read_fill, read_layout,
    read_old_fill,
};
use h5_shape::{Dims, MAX_CELLS};

/// The most bytes of a chunk.
pub const MAX_CHUNK: u64 = 1 << 30;

/// What a Dataspace message says.
pub(crate) fn judge_sizes(body: &[u8]) -> Result<Dataspace<'_>, Cause>
    ensures told { IfOk result (λ extent. extent_of body.now ≡ Some extent) }
    ensures small { IfOk result (λ extent. extent_cells extent.sizes ≤ most_cells) }
    ensures refused { IfErr result (λ cause. space_breach (extent_of body.now) ≡ Some cause) }
{
    let Ok(extent) = read_dataspace(body) else {
        return Err(Cause::DataspaceForm);
    };
    if positive_from(&extent, 0) > MAX_CELLS {
        return Err(Cause::TooLarge);
    }
    Ok(extent)
}

/// The product of the sizes from dimension `k` on, those of 0 left out, or `u64::MAX` where it is larger.
#[tactic(auto, using(crate::proofs::LocateLaws::positive_from))]
fn positive_from(extent: &Dataspace<'_>, k: usize) -> u64
    requires { k ≤ length extent.now.sizes }
    ensures { result ≡ min (extent_cells (drop k extent.now.sizes)) (2 ^ 64 - 1) }
{
    if k == extent.rank() {
        return 1;
    }
    let rest = positive_from(extent, k + 1);
    match extent.size(k) {
        0 => rest,
        size => size.saturating_mul(rest),
    }
}

/// What a Datatype message says.
#[tactic(auto, using(crate::proofs::FillLaws::type_sound))]
pub(crate) fn judge_datatype(body: &[u8]) -> Result<Fixed, Cause>
    ensures datatype { result ≡ ok_or (fixed_of body.now) Cause.DatatypeForm }
    ensures sound { IfOk result (λ fixed. IsFixed fixed) }
{
    let Ok(fixed) = read_datatype(body) else {
        return Err(Cause::DatatypeForm);
    };
    Ok(fixed)
}

/// The value in the body of an old Fill Value message.
#[tactic(auto, using(crate::proofs::FillLaws::old_fill_fits))]
pub(crate) fn judge_old_fill(fixed: &Fixed, body: &[u8]) -> Result<i128, Cause>
    requires { IsFixed fixed.now }
    ensures value { result ≡ ok_or (old_fill_value fixed.now body.now) Cause.FillForm }
    ensures of_type { IfOk result (λ v. fits fixed.now v ≡ true) }
{
    let Ok(fill) = read_old_fill(fixed, body) else {
        return Err(Cause::FillForm);
    };
    Ok(fill)
}

/// The value in the body of a Fill Value message.
#[tactic(auto, using(crate::proofs::FillLaws::fill_fits))]
pub(crate) fn judge_fill(fixed: &Fixed, body: &[u8]) -> Result<i128, Cause>
    requires { IsFixed fixed.now }
    ensures value { result ≡ ok_or (fill_value fixed.now body.now) Cause.FillForm }
    ensures of_type { IfOk result (λ v. fits fixed.now v ≡ true) }
{
    let Ok(fill) = read_fill(fixed, body) else {
        return Err(Cause::FillForm);
    };
    Ok(fill)
}

/// What a Data Layout message says of an array of these sizes and this type.
pub(crate) fn judge_layout<'a>(
    dims: &Dims,
    fixed: &Fixed,
    body: &'a [u8],
) -> Result<Layout<'a>, Cause>
    ensures told { IfOk result (λ layout.
        layout_of dims.now fixed.now.size body.now ≡ Some (layout_in layout)) }
    ensures small { IfOk result (λ layout. is_large fixed.now (layout_in layout) ≡ false) }
    ensures refused { IfErr result (λ cause.
        layout_breach (Some fixed.now) (layout_of dims.now fixed.now.size body.now) ≡ Some cause) }
{
    let Ok(layout) = read_layout(dims, fixed, body) else {
        return Err(Cause::LayoutForm);
    };
    if is_chunk_large(fixed, &layout) {
        return Err(Cause::TooLarge);
    }
    Ok(layout)
}

/// Whether a chunk has more than 2^30 bytes.
fn is_chunk_large(fixed: &Fixed, layout: &Layout<'_>) -> bool
    ensures { result ≡ is_large fixed.now (layout_in layout.now) }
{
    let Layout::Chunked { sizes, .. } = layout else {
        return false;
    };
    let size = fixed.size() as u128;
    u128::from(cells_from(sizes, 0)) * size > u128::from(MAX_CHUNK)
}

/// The product of the chunk sizes from dimension `k` on, or `u64::MAX` where it is larger.
#[tactic(auto, using(crate::proofs::LocateLaws::product_from))]
fn cells_from(sizes: &ChunkSizes<'_>, k: usize) -> u64
    requires { k ≤ length sizes.now }
    ensures { result ≡ min (cells_of (drop k sizes.now)) (2 ^ 64 - 1) }
{
    if k == sizes.rank() {
        return 1;
    }
    u64::from(sizes.size(k)).saturating_mul(cells_from(sizes, k + 1))
}
