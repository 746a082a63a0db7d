//! How blocks of rows match the classes of a group, with the first place at which they don't.

ghost use Rattle.std.specs.Prelude.{◌≡◌, ◌<◌, length, Some, None, Option};
ghost use Rattle.classes.specs.Conjugacy.{representatives};
ghost use Rattle.qd_doc.specs.Blocks.{block_at};
ghost use Rattle.scan.specs.First.{option_or};
ghost use Rattle.qd_engine.specs.Shape.{representative_fault_at, representative_fault, width_fault_at, width_fault_in, width_fault, shape_fault};

use classes::Classes;
use data_print::ShapeFault;
use qd_doc::Blocks;
use scan::first_below;

/// The number of block `b`, where it is not the representative of its class.
fn representative_fault_at(classes: &Classes, blocks: &Blocks, b: u32) -> Option<ShapeFault>
    requires count { length blocks.now ≡ length (representatives classes.now) }
    requires b_below { b < length blocks.now }
    ensures fault { result ≡ representative_fault_at classes.now blocks.now b }
{
    let given = blocks.representative(b);
    let wanted = classes.representative(b);
    if given == wanted {
        None
    } else {
        Some(ShapeFault::Representative {
            block: b,
            given,
            wanted,
        })
    }
}

/// The width of row `row` of block `b`, where it is not the order of the centraliser.
fn width_fault_at(classes: &Classes, blocks: &Blocks, b: u32, row: u32) -> Option<ShapeFault>
    requires count { length blocks.now ≡ length (representatives classes.now) }
    requires b_below { b < length blocks.now }
    requires row_below { row < length (block_at blocks.now b).rows }
    ensures fault { result ≡ width_fault_at classes.now blocks.now b row }
{
    let given = blocks.width(b, row);
    let wanted = classes.centraliser(b).len();
    if given == wanted {
        None
    } else {
        Some(ShapeFault::Width {
            block: b,
            row,
            given,
            wanted,
        })
    }
}

/// The first row of block `b` that has another width.
fn width_fault_in(classes: &Classes, blocks: &Blocks, b: u32) -> Option<ShapeFault>
    requires count { length blocks.now ≡ length (representatives classes.now) }
    requires b_below { b < length blocks.now }
    ensures fault { result ≡ width_fault_in classes.now blocks.now b }
{
    first_below(
        blocks.rows(b),
        |row| width_fault_at(classes, blocks, b, row),
    )
}

/// The first number of a block that is not the representative, or else the first row that has another width.
fn block_fault(classes: &Classes, blocks: &Blocks) -> Option<ShapeFault>
    requires count { length blocks.now ≡ length (representatives classes.now) }
    ensures fault { result ≡ option_or (representative_fault classes.now blocks.now)
        (width_fault classes.now blocks.now) }
{
    let count = blocks.blocks();
    match first_below(count, |b| representative_fault_at(classes, blocks, b)) {
        Some(fault) => Some(fault),
        None => first_below(count, |b| width_fault_in(classes, blocks, b)),
    }
}

/// The first way in which the blocks don't match the classes.
#[tactic(auto, unfolding(crate::specs::Shape::shape_fault))]
pub fn shape_fault(classes: &Classes, blocks: &Blocks) -> Option<ShapeFault>
    ensures fault { result ≡ shape_fault classes.now blocks.now }
{
    let given = blocks.blocks();
    let wanted = classes.count();
    if given == wanted {
        block_fault(classes, blocks)
    } else {
        Some(ShapeFault::Blocks { given, wanted })
    }
}
