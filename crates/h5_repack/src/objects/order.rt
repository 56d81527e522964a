//! The order in which objects are written.

ghost use Rattle.std.specs.Prelude.{◌≡◌, ◌++◌, IfOk, ◌<◌, ◌^◌, length};
ghost use Rattle.h5_model.specs.Tree.Objects.{Tree};
ghost use Rattle.h5_laws.specs.Trees.Sound.{IsSoundTree};
ghost use Rattle.h5_repack.specs.Objects.Objects.{AreObjects};
ghost use Rattle.h5_repack.specs.Objects.Order.{AreMet};
ghost use Rattle.h5_repack.specs.Objects.Targets.{waiting_objects};

use crate::objects::object::{NewObject, links_of};
use h5_model::LinkTo;
use std::alloc::{AllocError, Global};

/// The numbers of the objects in the order in which they are first met from the root: depth first, and by the names
/// of links.
///
/// Takes memory for a mark for each slot and a number for each object, and for the links that wait.
///
/// # Errors
///
/// `AllocError` if memory is refused.
pub fn met_order(alloc: Global, objects: &[Option<NewObject<'_>>]) -> Result<Vec<u32>, AllocError>
    requires few { length objects.now < 2 ^ 32 }
    requires tree { (tree : Tree) × AreObjects objects.now tree × IsSoundTree tree }
    ensures { IfOk result (λ order.
        (tree : Tree) → AreObjects objects.now tree → IsSoundTree tree → AreMet tree order.items) }
{
    let mut order = Vec::new(alloc);
    let mut is_met = vec![in alloc; false; objects.len()]?;
    let mut stack = vec![in alloc; 0]?;
    while let Some(number) = stack.pop() {
        if !is_met[number as usize] {
            is_met[number as usize] = true;
            order.push(number)?;
            push_waiting(&objects[number as usize], &mut stack)?;
        }
    }
    Ok(order)
}

/// Lets the objects wait to which an object's links lead, so that the first name's is the next that is taken.
fn push_waiting(object: &Option<NewObject<'_>>, stack: &mut Vec<u32>) -> Result<(), AllocError>
    ensures { IfOk result (λ _. stack.new.items ≡ stack.old.items ++ waiting_objects object.now) }
{
    for link in links_of(object).iter().rev() {
        if let LinkTo::Object(number) = link.to {
            stack.push(number.0)?;
        }
    }
    Ok(())
}
