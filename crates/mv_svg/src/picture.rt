//! Whole pictures.

ghost use Rattle.std.specs.Prelude.{◌≡◌, ◌++◌, OnOk, IfOk};
ghost use Rattle.mv_svg.specs.Xml.{IsContent, IsDocument};
ghost use Rattle.mv_svg.specs.Pictures.{IsPicture, IsStyled, picture_text, frame_attributes, view_attribute};
ghost use Rattle.mv_svg.specs.Shapes.{attribute_text, attributes_text};

use crate::attribute::{write_attribute, write_pair};
use crate::content::{Content, write_element, write_inside};
use crate::escape::write_escaped;
use crate::style::STYLE;
use mv_values::list::List;
use mv_values::memory::NoMemory;
use std::alloc::Global;

/// Returns a picture of this size, in pixels: a document of SVG 1.1.
pub fn picture(
    alloc: Global,
    width: u32,
    height: u32,
    content: &Content,
) -> Result<List<u8>, NoMemory>
    ensures document { IfOk result (λ text. ∥ IsDocument text ∥₁) }
    ensures picture { IfOk result (IsPicture width height content.now.text) }
{
    let inner = styled(alloc, STYLE, content)?;
    let mut text = List::new(alloc);
    write_picture(width, height, inner.as_slice(), &mut text)?;
    Ok(text)
}

/// Returns the content of a picture: this style sheet, and what is drawn.
fn styled(alloc: Global, style: &[u8], drawn: &Content) -> Result<List<u8>, NoMemory>
    ensures well { IfOk result (λ inner. ∥ IsContent inner ∥₁) }
    ensures styled { IfOk result (IsStyled drawn.now.text) }
{
    let mut sheet = List::new(alloc);
    write_escaped(style, &mut sheet)?;
    let mut inner = List::new(alloc);
    write_element(b"style", sheet.as_slice(), &mut inner)?;
    inner.append(drawn.text())?;
    Ok(inner)
}

fn write_picture(width: u32, height: u32, inner: &[u8], text: &mut List<u8>) -> Result<(), NoMemory>
    ensures { OnOk result (text.new ≡ text.old ++ picture_text width height inner.now) }
{
    text.append(b"<svg")?;
    write_frame(width, height, text)?;
    write_inside(b"svg", inner, text)?;
    text.push(b'\n')
}

/// Adds the attributes of a picture: the language that its elements are of, and its size.
fn write_frame(width: u32, height: u32, text: &mut List<u8>) -> Result<(), NoMemory>
    ensures { OnOk result (text.new ≡ text.old ++ attributes_text (frame_attributes width height)) }
{
    text.append(b" xmlns=\"http://www.w3.org/2000/svg\" version=\"1.1\"")?;
    write_attribute(b"width", width, text)?;
    write_attribute(b"height", height, text)?;
    write_view(width, height, text)
}

fn write_view(width: u32, height: u32, text: &mut List<u8>) -> Result<(), NoMemory>
    ensures { OnOk result (text.new ≡ text.old ++ attribute_text (view_attribute width height)) }
{
    text.append(b" viewBox=\"0 0 ")?;
    write_pair(width, height, text)?;
    text.push(b'"')
}
