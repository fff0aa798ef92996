//! The attributes of shapes.

ghost use Rattle.std.specs.Prelude.{◌≡◌, ◌++◌, OnOk};
ghost use Rattle.mv_svg.specs.Shapes.{look_name, look_attribute, number_attribute, attribute_text, attributes_text, pair_text, curve_text, tag_of, places};

use crate::look::Look;
use crate::number::write_number;
use crate::shape::Shape;
use mv_values::list::List;
use mv_values::memory::NoMemory;

/// Adds an attribute whose value is a number.
pub(crate) fn write_attribute(name: &[u8], value: u32, text: &mut List<u8>) -> Result<(), NoMemory>
    ensures { OnOk result (text.new ≡ text.old ++ attribute_text (number_attribute name.now value)) }
{
    text.push(b' ')?;
    text.append(name)?;
    text.append(b"=\"")?;
    write_number(value, text)?;
    text.push(b'"')
}

/// Adds the attribute of a look: its class.
pub(crate) fn write_look(look: Look, text: &mut List<u8>) -> Result<(), NoMemory>
    ensures { OnOk result (text.new ≡ text.old ++ attribute_text (look_attribute look)) }
{
    text.append(b" class=\"")?;
    text.append(look_name(look))?;
    text.push(b'"')
}

/// Returns the class of a look.
pub(crate) fn look_name(look: Look) -> &'static [u8]
    ensures { result.now ≡ look_name look }
{
    match look {
        Look::Head => b"head",
        Look::Note => b"note",
        Look::Label => b"label",
        Look::Side => b"side",
        Look::Strong => b"strong",
        Look::Tick => b"tick",
        Look::Code => b"code",
        Look::Grid => b"grid",
        Look::Guide => b"guide",
        Look::First => b"first",
        Look::Again => b"again",
        Look::Undone => b"undone",
        Look::Mark => b"mark",
        Look::Live => b"live",
        Look::Control => b"control",
        Look::Variable => b"variable",
        Look::Table => b"table",
    }
}

/// Returns the name of a shape's element.
pub(crate) fn tag_of(shape: Shape) -> &'static [u8]
    ensures { result.now ≡ tag_of shape }
{
    match shape {
        Shape::Rect { .. } => b"rect",
        Shape::Line { .. } => b"line",
        Shape::Triangle { .. } | Shape::Diamond { .. } | Shape::Arc { .. } => b"path",
    }
}

/// Adds the attributes that say where a shape is.
pub(crate) fn write_places(shape: Shape, text: &mut List<u8>) -> Result<(), NoMemory>
    ensures { OnOk result (text.new ≡ text.old ++ attributes_text (places shape)) }
{
    match shape {
        Shape::Rect {
            x,
            y,
            width,
            height,
        } => {
            write_attribute(b"x", x, text)?;
            write_attribute(b"y", y, text)?;
            write_attribute(b"width", width, text)?;
            write_attribute(b"height", height, text)
        }
        Shape::Line { x1, y1, x2, y2 } => {
            write_attribute(b"x1", x1, text)?;
            write_attribute(b"y1", y1, text)?;
            write_attribute(b"x2", x2, text)?;
            write_attribute(b"y2", y2, text)
        }
        Shape::Triangle { x, y } => {
            text.append(b" d=\"M")?;
            write_pair(x, y, text)?;
            text.append(b"l5 9h-10z\"")
        }
        Shape::Diamond { x, y } => {
            text.append(b" d=\"M")?;
            write_pair(x, y, text)?;
            text.append(b"l5 5l-5 5l-5-5z\"")
        }
        Shape::Arc { x, from, to, bend } => {
            text.append(b" d=\"M")?;
            write_pair(x, from, text)?;
            write_curve(bend, from, to, text)?;
            write_pair(x, to, text)?;
            text.push(b'"')
        }
    }
}

/// Adds the command of a curve up to its end: both its handles.
fn write_curve(bend: u32, from: u32, to: u32, text: &mut List<u8>) -> Result<(), NoMemory>
    ensures { OnOk result (text.new ≡ text.old ++ curve_text bend from to) }
{
    text.push(b'C')?;
    write_pair(bend, from, text)?;
    text.push(b' ')?;
    write_pair(bend, to, text)?;
    text.push(b' ')
}

/// Adds two numbers with a space between them.
pub(crate) fn write_pair(first: u32, second: u32, text: &mut List<u8>) -> Result<(), NoMemory>
    ensures { OnOk result (text.new ≡ text.old ++ pair_text first second) }
{
    write_number(first, text)?;
    text.push(b' ')?;
    write_number(second, text)
}
