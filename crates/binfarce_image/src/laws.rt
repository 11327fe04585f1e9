//! The law of layouts, proved from the definitions.

ghost use Rattle.std.specs.Prelude.{◌≡◌};
ghost use Rattle.binfarce.specs.Format.{format_of};
ghost use Rattle.binfarce_image.specs.declared.image.ElfLayout.{ElfLayout};
ghost use Rattle.binfarce_image.specs.Image.{bytes, layout_format};
ghost use Rattle.binfarce_image.specs.ImageSymbols.{LayoutsAgree};

use crate::image::Image;

/// In each of the four layouts an image's file reads back to the content of the image, value or refusal.
pub fn layouts_agree(image: &Image)
    ensures { LayoutsAgree image.now }
{
    let _ = image;
}

/// The first bytes of an image's file name the layout's class and order.
pub fn layouts_are_named(image: &Image)
    ensures { (layout : ElfLayout) → format_of (bytes image.now layout) ≡ layout_format layout }
{
    let _ = image;
}
