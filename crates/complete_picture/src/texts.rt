// Pictures and their texts.
ghost use Rattle.std.specs.Prelude.{◌≡◌, IfOk};
ghost use Rattle.tn_picture.specs.Views.{picture_seen};

use std::alloc::{AllocError, Allocator};
use tn_moves::Plan;
use tn_picture::{Picture, PictureFormat};
use tn_program::Program;

/// `tn_picture::picture_of` has one picture.
pub fn picture_of<A: Allocator + Copy>(
    alloc: A,
    program: &Program<A>,
    plan: &Plan<'_, A>,
) -> (
    Result<Picture<A>, AllocError>,
    Result<Picture<A>, AllocError>,
)
    ensures { IfOk result.0 (λ a. IfOk result.1 (λ b. picture_seen a ≡ picture_seen b)) }
{
    (
        tn_picture::picture_of(alloc, program, plan),
        tn_picture::picture_of(alloc, program, plan),
    )
}

/// `tn_picture::svg_text` has one text.
pub fn svg_text<A: Allocator + Copy>(
    alloc: A,
    one: &Picture<A>,
    other: &Picture<A>,
) -> (
    Result<Vec<u8, A>, AllocError>,
    Result<Vec<u8, A>, AllocError>,
)
    requires { picture_seen one.now ≡ picture_seen other.now }
    ensures { IfOk result.0 (λ a. IfOk result.1 (λ b. a.items ≡ b.items)) }
{
    (
        tn_picture::svg_text(alloc, one),
        tn_picture::svg_text(alloc, other),
    )
}

/// `tn_picture::plain_text` has one text.
pub fn plain_text<A: Allocator + Copy>(
    alloc: A,
    one: &Picture<A>,
    other: &Picture<A>,
) -> (
    Result<Vec<u8, A>, AllocError>,
    Result<Vec<u8, A>, AllocError>,
)
    requires { picture_seen one.now ≡ picture_seen other.now }
    ensures { IfOk result.0 (λ a. IfOk result.1 (λ b. a.items ≡ b.items)) }
{
    (
        tn_picture::plain_text(alloc, one),
        tn_picture::plain_text(alloc, other),
    )
}

/// `tn_picture::picture_json` has one text.
pub fn picture_json<A: Allocator + Copy>(
    alloc: A,
    one: &Picture<A>,
    other: &Picture<A>,
) -> (
    Result<Vec<u8, A>, AllocError>,
    Result<Vec<u8, A>, AllocError>,
)
    requires { picture_seen one.now ≡ picture_seen other.now }
    ensures { IfOk result.0 (λ a. IfOk result.1 (λ b. a.items ≡ b.items)) }
{
    (
        tn_picture::picture_json(alloc, one),
        tn_picture::picture_json(alloc, other),
    )
}

/// `tn_picture::PictureFormat::text_of` has one text.
pub fn text_of<A: Allocator + Copy>(
    alloc: A,
    format: PictureFormat,
    one: &Picture<A>,
    other: &Picture<A>,
) -> (
    Result<Vec<u8, A>, AllocError>,
    Result<Vec<u8, A>, AllocError>,
)
    requires { picture_seen one.now ≡ picture_seen other.now }
    ensures { IfOk result.0 (λ a. IfOk result.1 (λ b. a.items ≡ b.items)) }
{
    (format.text_of(alloc, one), format.text_of(alloc, other))
}

/// `tn_picture::picture_text` has one text.
pub fn picture_text<A: Allocator + Copy>(
    alloc: A,
    program: &Program<A>,
    plan: &Plan<'_, A>,
    format: PictureFormat,
) -> (
    Result<Vec<u8, A>, AllocError>,
    Result<Vec<u8, A>, AllocError>,
)
    ensures { IfOk result.0 (λ a. IfOk result.1 (λ b. a.items ≡ b.items)) }
{
    (
        tn_picture::picture_text(alloc, program, plan, format),
        tn_picture::picture_text(alloc, program, plan, format),
    )
}
